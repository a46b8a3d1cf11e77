//! The buffer of a text.

ghost use Rattle.std.specs.Prelude.{◌≡◌, ◌++◌, [], length, map, Err, None, IfErr, IfOk};
ghost use Rattle.planus.specs.Replays.{Replays};
ghost use Rattle.planus.specs.Steps.{bare_step};
ghost use Rattle.planus_write.specs.View.{settings_of};
ghost use Rattle.planus_json_syntax.specs.Spelling.{Spells};
ghost use Rattle.planus_json_syntax.specs.Values.{json_view};
ghost use Rattle.planus_pack.specs.Packs as spec;

use crate::pack_error::PackError;
use crate::pack_options::PackOptions;
use crate::tables::steps_of;
use planus::{ReplayError, Step, replay};
use planus_json_syntax::{Json, JsonError, parse};
use planus_schema::Schema;
use planus_write::Caches;
use std::alloc::{AllocError, Global};

/// Returns where a text of this length has no value, or a second one that isn't wanted.
fn miscounted(sized: bool, len: usize, values: &[Json]) -> Option<usize>
    ensures { (way : spec.Way) → way.sized ≡ sized
        → result ≡ spec.miscounted way len (map json_view values.now) }
{
    match values {
        [] => Some(len),
        [_] => None,
        [_, second, ..] => { if sized { None } else { Some(second.at) } }
    }
}

/// Returns the values of a text.
fn values_in(alloc: Global, sized: bool, text: &[u8]) -> Result<Vec<Json>, PackError>
    ensures spelled { IfOk result (λ values. Spells text.now (map json_view values.items)) }
    ensures counted { IfOk result (λ values. (way : spec.Way) → way.sized ≡ sized
        → spec.miscounted way (length text.now) (map json_view values.items) ≡ None) }
    ensures fails { IfErr result (λ error. (way : spec.Way) → way.sized ≡ sized
        → spec.HasNoValues way text.now error) }
{
    let values = match parse(alloc, text) {
        Ok(values) => values,
        Err(JsonError::OutOfMemory) => return Err(PackError::OutOfMemory),
        Err(JsonError::Fault { at, kind }) => return Err(PackError::Text { at, kind }),
    };
    match miscounted(sized, text.len(), &values) {
        Some(at) => Err(PackError::NotOne { at }),
        None => Ok(values),
    }
}

fn finish_step(sized: bool, root: usize, id: Option<[u8; 4]>) -> Step
    ensures { bare_step result ≡ spec.finish_of sized root id }
{
    if sized {
        Step::FinishSized { root, id }
    } else {
        Step::Finish { root, id }
    }
}

/// Adds a finish of the last step.
fn with_finish(
    sized: bool,
    id: Option<[u8; 4]>,
    mut steps: Vec<Step>,
) -> Result<Vec<Step>, AllocError>
    ensures { IfOk result (λ all. map bare_step all.items
        ≡ spec.with_finish sized id (map bare_step steps.items)) }
{
    let root = steps.len().saturating_sub(1);
    steps.push(finish_step(sized, root, id))?;
    Ok(steps)
}

/// Returns what a replay gives for a finish of the last step.
fn finished(
    alloc: Global,
    caches: Caches,
    id: Option<[u8; 4]>,
    sized: bool,
    steps: Vec<Step>,
) -> Result<Vec<u8>, ReplayError>
    ensures gives { IfOk result (λ bytes. spec.Finishes (settings_of caches)
        (spec.with_finish sized id (map bare_step steps.items)) (length steps.items) bytes.items) }
    ensures fails { IfErr result (λ error. Replays (settings_of caches)
        (spec.with_finish sized id (map bare_step steps.items)) (Err error)) }
{
    let steps = with_finish(sized, id, steps)?;
    let mut finished = replay(alloc, caches, &steps)?;
    match finished.pop() {
        Some(last) => Ok(last.bytes),
        None => unreachable!(),
    }
}

fn pack_error(error: ReplayError) -> PackError
    ensures { result ≡ spec.pack_error error }
{
    match error {
        ReplayError::OutOfMemory => PackError::OutOfMemory,
        error => PackError::Replay(error),
    }
}

/// How the buffers of a text are written.
#[derive(Clone, Copy)]
struct Way<'a> {
    schema: &'a Schema,
    root: usize,
    options: PackOptions,
    caches: Caches,
    id: Option<[u8; 4]>,
    sized: bool,
}

fn packed(alloc: Global, way: &Way<'_>, value: &Json) -> Result<Vec<u8>, PackError>
    ensures packed { IfOk result (λ bytes. spec.PacksValue (spec.way_of way.now)
        (json_view value.now) bytes.items) }
    ensures fails { IfErr result (spec.FailsValue (spec.way_of way.now) (json_view value.now)) }
{
    let steps = or_return!(steps_of(alloc, way.schema, way.root, value, way.options));
    match finished(alloc, way.caches, way.id, way.sized, steps) {
        Ok(bytes) => Ok(bytes),
        Err(error) => Err(pack_error(error)),
    }
}

/// Returns bytes and others behind them.
fn joined(front: Vec<u8>, rest: Vec<u8>) -> Result<Vec<u8>, AllocError>
    ensures { IfOk result (λ all. all.items ≡ front.items ++ rest.items) }
{
    if front.is_empty() {
        return Ok(rest);
    }
    let mut all = front;
    all.extend_from_slice(&rest)?;
    Ok(all)
}

fn each_packed(alloc: Global, way: &Way<'_>, values: &[Json]) -> Result<Vec<u8>, PackError>
    ensures packed { IfOk result (λ bytes. spec.PacksAfter (spec.way_of way.now) []
        (map json_view values.now) bytes.items) }
    ensures fails { IfErr result (spec.FailsAny (spec.way_of way.now) (map json_view values.now)) }
{
    let mut bytes = Vec::new(alloc);
    let mut rest = values;
    'values: while let Some((first, after)) = rest.split_first() {
        let own = or_return!(packed(alloc, way, first));
        bytes = joined(bytes, own)?;
        rest = after;
    }
    Ok(bytes)
}

/// Returns the buffer of the one value of a text, as the table whose declaration has the index
/// `root`; with a file identifier, and its size first, where these are asked for. With sizes a text
/// has one value or more, whose buffers stand one after another.
pub fn binary(
    alloc: Global,
    schema: &Schema,
    root: usize,
    text: &[u8],
    options: PackOptions,
    caches: Caches,
    id: Option<[u8; 4]>,
    sized: bool,
) -> Result<Vec<u8>, PackError>
    // The text spells values, of which each means the steps that its buffer is replayed from.
    ensures packed { IfOk result (λ bytes. spec.Packs (settings_of caches) options schema.now root id
        sized text.now bytes.items) }
    // Which error, and where.
    ensures fails { IfErr result (spec.Fails (settings_of caches) options schema.now root id sized
        text.now) }
{
    let values = or_return!(values_in(alloc, sized, text));
    let way = Way {
        schema,
        root,
        options,
        caches,
        id,
        sized,
    };
    each_packed(alloc, &way, &values)
}
