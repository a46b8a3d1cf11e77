//! Which names and indices lead to a place in a JSON text.

ghost use Rattle.std.specs.Prelude.{◌≡◌, ◌++◌, map, IfOk};
ghost use Rattle.std.specs.Option.{option_map};
ghost use Rattle.planus_json_syntax.specs.Values.{json_view, member_view, value_view};
ghost use Rattle.planus_pack.specs.Parts as parts;
ghost use Rattle.planus_cli.specs.Paths as spec;
ghost use Rattle.planus_cli.specs.Paths.{path_view};

use planus_json_syntax::{Json, JsonError, Member, Value, parse};
use std::alloc::{AllocError, Global};

/// How many values lead to one, itself with them: 256 lists and objects nest.
const MOST_DEPTH: usize = 257;

fn items_of(value: &Value) -> Option<&[Json]>
    ensures { option_map (λ js. map json_view js.now) result
        ≡ parts.items_of (value_view value.now) }
{
    match value {
        Value::List(items) => Some(items.as_slice()),
        _ => None,
    }
}

fn members_of(value: &Value) -> Option<&[Member]>
    ensures { option_map (λ ms. map member_view ms.now) result
        ≡ parts.members_of (value_view value.now) }
{
    match value {
        Value::Object(members) => Some(members.as_slice()),
        _ => None,
    }
}

fn index_step(alloc: Global, n: usize) -> Result<Vec<u8>, AllocError>
    ensures { IfOk result (λ step. step.items ≡ spec.index_step n) }
{
    let text = format!(in alloc; "[{n}]")?;
    Vec::from_slice(alloc, text.as_bytes())
}

fn name_step(alloc: Global, key: &[u8]) -> Result<Vec<u8>, AllocError>
    ensures { IfOk result (λ step. step.items ≡ spec.name_step key.now) }
{
    let mut step = Vec::from_slice(alloc, b".")?;
    step.extend_from_slice(key)?;
    Ok(step)
}

fn after(step: Vec<u8>, path: &[u8]) -> Result<Vec<u8>, AllocError>
    ensures { IfOk result (λ whole. whole.items ≡ step.items ++ path.now) }
{
    let mut whole = step;
    whole.extend_from_slice(path)?;
    Ok(whole)
}

#[cycle(paths)]
fn in_item(
    alloc: Global,
    depth: usize,
    place: usize,
    n: usize,
    item: &Json,
) -> Result<Option<Vec<u8>>, AllocError>
    ensures { IfOk result (λ found. path_view found ≡ spec.after (spec.index_step n)
        (spec.path_to depth place (json_view item.now))) }
{
    match path_to(alloc, depth, place, item)? {
        Some(path) => Ok(Some(after(index_step(alloc, n)?, &path)?)),
        None => Ok(None),
    }
}

#[cycle(paths)]
fn in_items(
    alloc: Global,
    depth: usize,
    place: usize,
    items: &[Json],
) -> Result<Option<Vec<u8>>, AllocError>
    ensures { IfOk result (λ found. path_view found
        ≡ spec.in_items (spec.path_to depth place) 0 (map json_view items.now)) }
{
    let mut n = 0;
    let mut rest = items;
    'items: while let Some((first, left)) = rest.split_first() {
        if let Some(path) = in_item(alloc, depth, place, n, first)? {
            return Ok(Some(path));
        }
        n += 1;
        rest = left;
    }
    Ok(None)
}

#[cycle(paths)]
fn in_member(
    alloc: Global,
    depth: usize,
    place: usize,
    member: &Member,
) -> Result<Option<Vec<u8>>, AllocError>
    ensures { IfOk result (λ found. path_view found
        ≡ spec.in_member (spec.path_to depth place) place (member_view member.now)) }
{
    if member.at == place {
        return Ok(Some(name_step(alloc, member.key.as_bytes())?));
    }
    match path_to(alloc, depth, place, &member.value)? {
        Some(path) => Ok(Some(after(name_step(alloc, member.key.as_bytes())?, &path)?)),
        None => Ok(None),
    }
}

#[cycle(paths)]
fn in_members(
    alloc: Global,
    depth: usize,
    place: usize,
    members: &[Member],
) -> Result<Option<Vec<u8>>, AllocError>
    ensures { IfOk result (λ found. path_view found
        ≡ spec.in_members (spec.path_to depth place) place (map member_view members.now)) }
{
    let mut rest = members;
    'members: while let Some((first, left)) = rest.split_first() {
        if let Some(path) = in_member(alloc, depth, place, first)? {
            return Ok(Some(path));
        }
        rest = left;
    }
    Ok(None)
}

#[cycle(paths)]
fn in_parts(
    alloc: Global,
    depth: usize,
    place: usize,
    value: &Value,
) -> Result<Option<Vec<u8>>, AllocError>
    ensures { IfOk result (λ found. path_view found ≡ spec.in_parts (spec.path_to depth place) place
        (parts.items_of (value_view value.now)) (parts.members_of (value_view value.now))) }
{
    match (items_of(value), members_of(value)) {
        (Some(items), _) => in_items(alloc, depth, place, items),
        (None, Some(members)) => in_members(alloc, depth, place, members),
        (None, None) => Ok(None),
    }
}

#[cycle(paths)]
fn in_value(
    alloc: Global,
    depth: usize,
    place: usize,
    json: &Json,
) -> Result<Option<Vec<u8>>, AllocError>
    ensures { IfOk result (λ found. path_view found
        ≡ spec.in_value (spec.path_to depth place) place (json_view json.now)) }
{
    if json.at == place {
        Ok(Some(Vec::new(alloc)))
    } else {
        in_parts(alloc, depth, place, &json.value)
    }
}

#[cycle(paths)]
fn path_to(
    alloc: Global,
    depth: usize,
    place: usize,
    json: &Json,
) -> Result<Option<Vec<u8>>, AllocError>
    ensures { IfOk result (λ found. path_view found
        ≡ spec.path_to depth place (json_view json.now)) }
{
    if depth == 0 {
        return Ok(None);
    }
    in_value(alloc, depth - 1, place, json)
}

/// Returns the first path to the place from one of these values.
fn path_from(alloc: Global, place: usize, values: &[Json]) -> Result<Option<Vec<u8>>, AllocError>
    ensures { IfOk result (λ found. path_view found
        ≡ spec.path_from place (map json_view values.now)) }
{
    let mut rest = values;
    'values: while let Some((first, left)) = rest.split_first() {
        if let Some(path) = path_to(alloc, MOST_DEPTH, place, first)? {
            return Ok(Some(path));
        }
        rest = left;
    }
    Ok(None)
}

fn lead(alloc: Global, path: Option<Vec<u8>>) -> Result<Vec<u8>, AllocError>
    ensures { IfOk result (λ text. text.items ≡ spec.lead (path_view path)) }
{
    let Some(path) = path else {
        return Ok(Vec::new(alloc));
    };
    match path.as_slice() {
        [] => Ok(path),
        [b'.', rest @ ..] => after(Vec::from_slice(alloc, rest)?, b": "),
        _ => after(path, b": "),
    }
}

/// Returns what stands before the message of a fault at a byte of a text: `crew[3].name: `, or
/// nothing at the text's first value itself.
pub(crate) fn lead_of(alloc: Global, text: &[u8], place: usize) -> Result<Vec<u8>, AllocError>
    ensures { IfOk result (λ lead. lead.items ≡ spec.lead_of text.now place) }
{
    match parse(alloc, text) {
        Ok(values) => lead(alloc, path_from(alloc, place, &values)?),
        Err(JsonError::OutOfMemory) => Err(AllocError),
        Err(JsonError::Fault { .. }) => Ok(Vec::new(alloc)),
    }
}
