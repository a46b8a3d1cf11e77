//! The command `view`: what a buffer holds by a schema.

ghost use Rattle.std.specs.Prelude.{◌≡◌, ℕ, List, IfOk, IfErr, OnOk, OnErr};
ghost use Rattle.std.specs.Option.{option_map};
ghost use Rattle.planus_cli.specs.Buffers as spec;
ghost use Rattle.planus_cli.specs.Buffers.{Views};
ghost use Rattle.planus_cli.specs.Arguments.{words_of};

use crate::arguments::{Words, limit};
use crate::identifier::check_identifier;
use crate::prefixed::{header, split_sized};
use crate::root::{root_of, say_no_root};
use crate::said::{CLEAN, FAILED, FAULTY};
use crate::streams::{CallError, say, write_out};
use crate::viewing::{Limits, end_text, is_clean, is_cut, view_buffer};
use planus_dump::{End, Seen, view};
use planus_inspect::dump_schema;
use planus_schema::Schema;
use std::alloc::{AllocError, Global};
use std::io::Write;

/// The default of `--lines`.
const LINES: usize = 1000;

/// The default of `--bytes`.
const BYTES: usize = 1048576;

#[derive(Clone, Copy)]
struct View<'a> {
    schema: &'a Schema,
    shown: &'a planus_dump::Schema,
    limits: Limits,
    /// What messages call the file.
    name: &'a str,
}

/// What became of a buffer.
#[derive(Clone, Copy)]
struct One {
    status: u8,
    /// Whether a limit was reached.
    is_cut: bool,
    /// What is left of the limits.
    left: Limits,
}

fn one_of(known: bool, seen: Seen) -> One
    ensures { result ≡ spec.one_of known seen }
{
    One {
        status: if known && is_clean(seen) {
            CLEAN
        } else {
            FAULTY
        },
        is_cut: is_cut(seen.end),
        left: Limits {
            lines: seen.lines_left,
            bytes: seen.bytes_left,
        },
    }
}

fn view_one<W: Write, X: Write>(
    alloc: Global,
    view: &View<'_>,
    bytes: &[u8],
    writer: &mut W,
    errors: &mut X,
) -> Result<One, CallError>
    ensures views { IfOk result (λ one. spec.ViewsOne (spec.look_of view.now) bytes.now one
        (W.contents writer.old) (W.contents writer.new)
        (X.contents errors.old) (X.contents errors.new)) }
    ensures failed { IfErr result (λ error. spec.FailsOne (spec.look_of view.now) bytes.now error
        (W.contents writer.old) (W.contents writer.new)
        (X.contents errors.old) (X.contents errors.new)) }
{
    let known = check_identifier(alloc, view.schema, view.name, bytes, errors)?;
    let seen = view_buffer(alloc, view.shown, bytes, view.limits, writer)?;
    Ok(one_of(known, seen))
}

fn view_alone<W: Write, X: Write>(
    alloc: Global,
    view: &View<'_>,
    bytes: &[u8],
    writer: &mut W,
    errors: &mut X,
) -> Result<u8, CallError>
    ensures views { IfOk result (λ status. spec.ViewsAlone (spec.look_of view.now) bytes.now status
        (W.contents writer.old) (W.contents writer.new)
        (X.contents errors.old) (X.contents errors.new)) }
    ensures failed { IfErr result (λ error. spec.FailsOne (spec.look_of view.now) bytes.now error
        (W.contents writer.old) (W.contents writer.new)
        (X.contents errors.old) (X.contents errors.new)) }
{
    match view_one(alloc, view, bytes, writer, errors) {
        Ok(one) => Ok(one.status),
        Err(error) => Err(error),
    }
}

/// Returns which limit has no room for a line.
fn limit_reached(limits: Limits, line: &[u8]) -> Option<End>
    ensures { result ≡ spec.limit_reached limits line.now }
{
    if limits.lines == 0 {
        Some(End::TooManyLines)
    } else if limits.bytes < line.len() {
        Some(End::TooManyBytes)
    } else {
        None
    }
}

/// Returns what is left of the limits after a line.
fn limits_after(limits: Limits, line: &[u8]) -> Limits
    ensures { result ≡ spec.limits_after limits line.now }
{
    Limits {
        lines: limits.lines.saturating_sub(1),
        bytes: limits.bytes.saturating_sub(line.len()),
    }
}

/// What is written before a buffer.
#[derive(Drop)]
struct Lead {
    text: Vec<u8>,
    /// Whether a limit was reached.
    is_cut: bool,
    /// What is left of the limits.
    left: Limits,
}

/// Returns the line before a buffer, or why no more follows if it has no room.
fn lead_before(alloc: Global, limits: Limits, number: usize, at: usize) -> Result<Lead, AllocError>
    ensures { IfOk result (λ lead. spec.lead_view lead ≡ spec.lead_of limits
        (spec.header_text number at)) }
{
    let mut text = header(alloc, number, at)?;
    if let Some(end) = limit_reached(limits, &text) {
        let text = Vec::from_slice(alloc, end_text(end).as_bytes())?;
        return Ok(Lead {
            text,
            is_cut: true,
            left: limits,
        });
    }
    let left = limits_after(limits, &text);
    text.push(b'\n')?;
    Ok(Lead {
        text,
        is_cut: false,
        left,
    })
}

/// Views one of several buffers, by what is left of the limits.
fn view_next<W: Write, X: Write>(
    alloc: Global,
    view: &View<'_>,
    number: usize,
    at: usize,
    bytes: &[u8],
    writer: &mut W,
    errors: &mut X,
) -> Result<One, CallError>
    ensures views { IfOk result (λ one. spec.ViewsNext (spec.look_of view.now)
        (spec.header_text number at)
        bytes.now one (W.contents writer.old) (W.contents writer.new)
        (X.contents errors.old) (X.contents errors.new)) }
    ensures failed { IfErr result (λ error. spec.FailsNext (spec.look_of view.now)
        (spec.header_text number at)
        bytes.now error (W.contents writer.old) (W.contents writer.new)
        (X.contents errors.old) (X.contents errors.new)) }
{
    let lead = lead_before(alloc, view.limits, number, at)?;
    write_out(writer, &lead.text)?;
    if lead.is_cut {
        return Ok(cut_one(lead.left));
    }
    let view = with_limits(view, lead.left);
    view_one(alloc, &view, bytes, writer, errors)
}

fn cut_one(left: Limits) -> One
    ensures { result ≡ spec.cut_one left }
{
    One {
        status: FAULTY,
        is_cut: true,
        left,
    }
}

fn with_limits<'a>(view: &View<'a>, limits: Limits) -> View<'a>
    ensures { spec.look_of result ≡ spec.look_left (spec.look_of view.now) limits }
{
    View {
        schema: view.schema,
        shown: view.shown,
        limits,
        name: view.name,
    }
}

fn view_sized<W: Write, X: Write>(
    alloc: Global,
    view: &View<'_>,
    bytes: &[u8],
    writer: &mut W,
    errors: &mut X,
) -> Result<u8, CallError>
    ensures views { IfOk result (λ status. (buffers : List (List ℕ))
        × spec.ViewsSized (spec.look_of view.now) 0 0 buffers bytes.now 0 status
        (W.contents writer.old) (W.contents writer.new)
        (X.contents errors.old) (X.contents errors.new)) }
    ensures failed { IfErr result (λ error. (buffers : List (List ℕ))
        × spec.FailsSized (spec.look_of view.now) 0 0 buffers bytes.now error
        (W.contents writer.old) (W.contents writer.new)
        (X.contents errors.old) (X.contents errors.new)) }
{
    let mut rest = bytes;
    let mut worst = CLEAN;
    let mut number = 0;
    let mut at = 0;
    let mut left = view.limits;
    'buffers: while !rest.is_empty() {
        let Some((buffer, after)) = split_sized(rest) else {
            say(alloc, errors, "", view.name, " ends before a buffer does")?;
            return Ok(FAULTY);
        };
        let view = with_limits(view, left);
        let one = view_next(alloc, &view, number + 1, at + 4, buffer, writer, errors)?;
        worst = worst.max(one.status);
        if one.is_cut {
            return Ok(worst);
        }
        number += 1;
        at += 4 + buffer.len();
        left = one.left;
        rest = after;
    }
    Ok(worst)
}

/// Views a buffer, or several, each after its size.
fn view_held<W: Write, X: Write>(
    alloc: Global,
    view: &View<'_>,
    prefixed: bool,
    bytes: &[u8],
    writer: &mut W,
    errors: &mut X,
) -> Result<u8, CallError>
    ensures views { IfOk result (λ status. Views prefixed (spec.look_of view.now) bytes.now status
        (W.contents writer.old) (W.contents writer.new)
        (X.contents errors.old) (X.contents errors.new)) }
    ensures failed { IfErr result (λ error. spec.FailsViews prefixed (spec.look_of view.now)
        bytes.now error
        (W.contents writer.old) (W.contents writer.new)
        (X.contents errors.old) (X.contents errors.new)) }
{
    if prefixed {
        view_sized(alloc, view, bytes, writer, errors)
    } else {
        view_alone(alloc, view, bytes, writer, errors)
    }
}

/// Returns whether a table can be read at the root.
fn reads_root(alloc: Global, schema: &planus_dump::Schema, bytes: &[u8]) -> Result<bool, CallError>
    ensures { IfOk result (λ reads. spec.ReadsRoot schema.now bytes.now reads) }
{
    let mut first = Vec::new(alloc);
    let seen = view(alloc, schema, bytes, 1, usize::MAX, &mut first)?;
    Ok(!seen.has_fault)
}

/// Returns whether bytes begin with a size and a buffer of this size at whose root a table can be
/// read.
fn reads_first(alloc: Global, schema: &planus_dump::Schema, bytes: &[u8]) -> Result<bool, CallError>
    ensures { IfOk result (λ reads. spec.ReadsFirst schema.now bytes.now reads) }
{
    match split_sized(bytes) {
        Some((buffer, _)) => reads_root(alloc, schema, buffer),
        None => Ok(false),
    }
}

fn advice_of(prefixed: bool, whole: bool, first: bool) -> Option<&'static str>
    ensures { option_map (λ w. w.now) result ≡ spec.advice_of prefixed whole first }
{
    match (prefixed, whole, first) {
        (false, false, true) => Some(" may hold buffers, each after its size; see --size-prefixed"),
        (true, true, false) => Some(" may be a buffer without its size; leave out --size-prefixed"),
        _ => None,
    }
}

/// Says that a file may hold a buffer where several are viewed, or several where one is.
fn advise<X: Write>(
    alloc: Global,
    view: &View<'_>,
    prefixed: bool,
    bytes: &[u8],
    errors: &mut X,
) -> Result<(), CallError>
    ensures said { OnOk result (spec.Advises (spec.look_of view.now) prefixed bytes.now
        (X.contents errors.old) (X.contents errors.new)) }
    ensures failed { OnErr result (spec.FailsAdvising (spec.look_of view.now) prefixed bytes.now
        (X.contents errors.old) (X.contents errors.new)) }
{
    let whole = reads_root(alloc, view.shown, bytes)?;
    let first = reads_first(alloc, view.shown, bytes)?;
    match advice_of(prefixed, whole, first) {
        Some(after) => say(alloc, errors, "", view.name, after),
        None => Ok(()),
    }
}

fn view_advised<W: Write, X: Write>(
    alloc: Global,
    view: &View<'_>,
    prefixed: bool,
    bytes: &[u8],
    writer: &mut W,
    errors: &mut X,
) -> Result<u8, CallError>
    ensures views { IfOk result (λ status. spec.ViewsAdvised prefixed (spec.look_of view.now)
        bytes.now status
        (W.contents writer.old) (W.contents writer.new)
        (X.contents errors.old) (X.contents errors.new)) }
    ensures failed { IfErr result (λ error. spec.FailsAdvised prefixed
        (spec.look_of view.now) bytes.now error
        (W.contents writer.old) (W.contents writer.new)
        (X.contents errors.old) (X.contents errors.new)) }
{
    let status = view_held(alloc, view, prefixed, bytes, writer, errors)?;
    advise(alloc, view, prefixed, bytes, errors)?;
    Ok(status)
}

/// How a buffer is viewed.
#[derive(Clone, Copy)]
pub struct Viewing {
    /// The index of the root's table among the declarations.
    pub root: usize,
    /// Whether the file holds buffers, each after its size.
    pub size_prefixed: bool,
    /// How much of the file is shown.
    pub limits: Limits,
}

/// Writes what the bytes of a file hold by a schema; reports another identifier or an early end.
/// Returns the exit status: 0 where all is shown and nothing is wrong, else 1.
pub fn view_bytes<W: Write, X: Write>(
    alloc: Global,
    schema: &Schema,
    how: Viewing,
    name: &str,
    bytes: &[u8],
    writer: &mut W,
    errors: &mut X,
) -> Result<u8, CallError>
    ensures views { IfOk result (λ status. spec.ViewsBytes schema.now how name.now bytes.now status
        (W.contents writer.old) (W.contents writer.new)
        (X.contents errors.old) (X.contents errors.new)) }
    ensures failed { IfErr result (λ error. spec.FailsBytes schema.now how name.now bytes.now error
        (W.contents writer.old) (W.contents writer.new)
        (X.contents errors.old) (X.contents errors.new)) }
{
    let shown = dump_schema(alloc, schema, how.root)?;
    let view = View {
        schema,
        shown: &shown,
        limits: how.limits,
        name,
    };
    view_advised(alloc, &view, how.size_prefixed, bytes, writer, errors)
}

/// Writes what the bytes of a file hold by a schema, as the words of the call say. Returns the exit
/// status.
pub fn view_by<W: Write, X: Write>(
    alloc: Global,
    schema: &Schema,
    words: &Words<'_>,
    name: &str,
    bytes: &[u8],
    writer: &mut W,
    errors: &mut X,
) -> Result<u8, CallError>
    ensures views { IfOk result (λ status. spec.ViewsBy schema.now (words_of words.now) name.now
        bytes.now status (W.contents writer.old) (W.contents writer.new)
        (X.contents errors.old) (X.contents errors.new)) }
    ensures failed { IfErr result (λ error. spec.FailsBy schema.now (words_of words.now) name.now
        bytes.now error (W.contents writer.old) (W.contents writer.new)
        (X.contents errors.old) (X.contents errors.new)) }
{
    let Some(root) = root_of(schema, words.root) else {
        say_no_root(alloc, words.root, errors)?;
        return Ok(FAILED);
    };
    let how = Viewing {
        root,
        size_prefixed: words.size_prefixed,
        limits: Limits {
            lines: limit(words.lines, LINES),
            bytes: limit(words.bytes, BYTES),
        },
    };
    view_bytes(alloc, schema, how, name, bytes, writer, errors)
}
