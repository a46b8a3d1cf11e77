//! The command `json`: a buffer as JSON.

ghost use Rattle.std.specs.Prelude.{◌≡◌, ◌++◌, ℕ, List, Some, codes, IfOk, OnOk};
ghost use Rattle.std.specs.String.{string_bytes};
ghost use Rattle.std.specs.Io.KnownBytes.{Appends};
ghost use Rattle.planus_cli.specs.PrintingJson as spec;
ghost use Rattle.planus_cli.specs.PrintingJson.{Prints};
ghost use Rattle.planus_cli.specs.Arguments.{words_of};

use crate::arguments::{Words, limit};
use crate::identifier::check_identifier;
use crate::prefixed::{header, split_sized};
use crate::root::{root_of, say_no_root};
use crate::said::{CLEAN, FAILED, FAULTY};
use crate::shown::put_shown;
use crate::streams::{CallError, say, write_out};
use planus_inspect::dump_schema;
use planus_json::{JsonError, Layout, json};
use planus_schema::Schema;
use std::alloc::{AllocError, Global};
use std::io::Write;

/// The default of `--bytes`: four times the greatest length of a file.
pub(crate) const BYTES: usize = 67108864;

/// How the buffers of a file are printed.
#[derive(Clone, Copy)]
struct Print<'a> {
    schema: &'a Schema,
    shown: &'a planus_dump::Schema,
    layout: Layout,
    /// The greatest number of bytes for each buffer.
    most: usize,
    /// What messages call the file.
    name: &'a str,
}

/// Which buffer of several it is, and where its first byte stands in the file.
#[derive(Clone, Copy)]
struct Numbered {
    number: usize,
    at: usize,
}

/// What became of a buffer.
#[derive(Clone, Copy)]
struct Printed {
    status: u8,
    has_fault: bool,
}

fn printed_of(known: bool, fault: bool) -> Printed
    ensures { result ≡ spec.printed_of known fault }
{
    Printed {
        status: if known && !fault { CLEAN } else { FAULTY },
        has_fault: fault,
    }
}

/// Returns what stands before a fault: which buffer of several has it.
fn lead(alloc: Global, place: Option<Numbered>) -> Result<Vec<u8>, AllocError>
    ensures { IfOk result (λ text. text.items ≡ spec.lead place) }
{
    let Some(place) = place else {
        return Ok(Vec::new(alloc));
    };
    let mut text = header(alloc, place.number, place.at)?;
    text.push(b' ')?;
    Ok(text)
}

/// Returns what is said of a fault.
fn reason(alloc: Global, error: &JsonError) -> Result<String, CallError>
    ensures { IfOk result (λ text. spec.reason error.now ≡ Some (string_bytes text)) }
{
    let text = match error {
        JsonError::OutOfMemory => return Err(CallError::OutOfMemory),
        JsonError::BadSchema => return Err(CallError::BadSchema),
        JsonError::TooDeep => String::from_str(alloc, "the buffer is nested too deep")?,
        JsonError::TooLong => String::from_str(alloc, "the JSON is too long; see --bytes")?,
        JsonError::Fault(fault) => format!(in alloc; "{}: {}", fault.path, fault.message)?,
    };
    Ok(text)
}

fn fault_line(
    alloc: Global,
    name: &str,
    place: Option<Numbered>,
    reason: &str,
) -> Result<Vec<u8>, AllocError>
    ensures { IfOk result (λ line. line.items ≡ spec.fault_line name.now place reason.now) }
{
    let mut line = Vec::from_slice(alloc, b"planus: ")?;
    put_shown(&mut line, name.as_bytes())?;
    line.extend_from_slice(b": ")?;
    line.extend_from_slice(&lead(alloc, place)?)?;
    put_shown(&mut line, reason.as_bytes())?;
    line.push(b'\n')?;
    Ok(line)
}

/// Says why a buffer has no JSON.
fn say_fault<X: Write>(
    alloc: Global,
    name: &str,
    place: Option<Numbered>,
    error: &JsonError,
    errors: &mut X,
) -> Result<(), CallError>
    ensures { OnOk result (spec.SaysFault name.now place error.now (X.contents errors.old)
        (X.contents errors.new)) }
{
    let text = reason(alloc, error)?;
    let line = fault_line(alloc, name, place, text.as_str())?;
    write_out(errors, &line)
}

/// Writes a text and a line break.
fn print_line<W: Write>(text: String, writer: &mut W) -> Result<(), CallError>
    ensures { OnOk result (Appends (W.contents writer.old) (W.contents writer.new)
        (string_bytes text ++ codes "\n")) }
{
    let mut line = text;
    line.push_str("\n")?;
    write_out(writer, line.as_bytes())
}

/// Writes the JSON of a buffer and a line break, or says its fault. Returns whether it has one.
fn print_value<W: Write, X: Write>(
    alloc: Global,
    print: &Print<'_>,
    place: Option<Numbered>,
    bytes: &[u8],
    writer: &mut W,
    errors: &mut X,
) -> Result<bool, CallError>
    ensures { IfOk result (λ fault. spec.PrintsValue (spec.manner_of print.now) place bytes.now
        fault (W.contents writer.old) (W.contents writer.new)
        (X.contents errors.old) (X.contents errors.new)) }
{
    match json(alloc, print.shown, bytes, print.layout, print.most) {
        Ok(text) => {
            print_line(text, writer)?;
            Ok(false)
        }
        Err(error) => {
            say_fault(alloc, print.name, place, &error, errors)?;
            Ok(true)
        }
    }
}

fn print_one<W: Write, X: Write>(
    alloc: Global,
    print: &Print<'_>,
    place: Option<Numbered>,
    bytes: &[u8],
    writer: &mut W,
    errors: &mut X,
) -> Result<Printed, CallError>
    ensures { IfOk result (λ one. spec.PrintsOne (spec.manner_of print.now) place bytes.now one
        (W.contents writer.old) (W.contents writer.new)
        (X.contents errors.old) (X.contents errors.new)) }
{
    let known = check_identifier(alloc, print.schema, print.name, bytes, errors)?;
    let fault = print_value(alloc, print, place, bytes, writer, errors)?;
    Ok(printed_of(known, fault))
}

fn print_alone<W: Write, X: Write>(
    alloc: Global,
    print: &Print<'_>,
    bytes: &[u8],
    writer: &mut W,
    errors: &mut X,
) -> Result<u8, CallError>
    ensures { IfOk result (λ status. spec.PrintsAlone (spec.manner_of print.now) bytes.now status
        (W.contents writer.old) (W.contents writer.new)
        (X.contents errors.old) (X.contents errors.new)) }
{
    let one = print_one(alloc, print, None, bytes, writer, errors)?;
    Ok(one.status)
}

fn print_sized<W: Write, X: Write>(
    alloc: Global,
    print: &Print<'_>,
    bytes: &[u8],
    writer: &mut W,
    errors: &mut X,
) -> Result<u8, CallError>
    ensures { IfOk result (λ status. (buffers : List (List ℕ))
        × spec.PrintsSized (spec.manner_of print.now) 0 0 buffers bytes.now 0 status
        (W.contents writer.old) (W.contents writer.new)
        (X.contents errors.old) (X.contents errors.new)) }
{
    let mut rest = bytes;
    let mut worst = CLEAN;
    let mut number = 0;
    let mut at = 0;
    'buffers: while !rest.is_empty() {
        let Some((buffer, after)) = split_sized(rest) else {
            say(alloc, errors, "", print.name, " ends before a buffer does")?;
            return Ok(FAULTY);
        };
        let place = Some(Numbered {
            number: number + 1,
            at: at + 4,
        });
        let one = print_one(alloc, print, place, buffer, writer, errors)?;
        if one.has_fault {
            return Ok(FAULTY);
        }
        worst = worst.max(one.status);
        number += 1;
        at += 4 + buffer.len();
        rest = after;
    }
    Ok(worst)
}

/// Prints a buffer, or several, each after its size.
fn print_held<W: Write, X: Write>(
    alloc: Global,
    print: &Print<'_>,
    prefixed: bool,
    bytes: &[u8],
    writer: &mut W,
    errors: &mut X,
) -> Result<u8, CallError>
    ensures { IfOk result (λ status. Prints prefixed (spec.manner_of print.now) bytes.now status
        (W.contents writer.old) (W.contents writer.new)
        (X.contents errors.old) (X.contents errors.new)) }
{
    if prefixed {
        print_sized(alloc, print, bytes, writer, errors)
    } else {
        print_alone(alloc, print, bytes, writer, errors)
    }
}

fn print_bytes<W: Write, X: Write>(
    alloc: Global,
    schema: &Schema,
    words: &Words<'_>,
    root: usize,
    name: &str,
    bytes: &[u8],
    writer: &mut W,
    errors: &mut X,
) -> Result<u8, CallError>
    ensures { IfOk result (λ status. spec.PrintsBytes schema.now (words_of words.now) root name.now
        bytes.now status (W.contents writer.old) (W.contents writer.new)
        (X.contents errors.old) (X.contents errors.new)) }
{
    let shown = dump_schema(alloc, schema, root)?;
    let print = Print {
        schema,
        shown: &shown,
        layout: Layout {
            compact: words.compact,
            strict: words.strict,
        },
        most: limit(words.bytes, BYTES),
        name,
    };
    print_held(alloc, &print, words.size_prefixed, bytes, writer, errors)
}

/// Writes the bytes of a file as JSON by a schema, as the words of the call say, each buffer with a
/// line break after it. Reports the first fault, of which nothing is written. Returns the exit
/// status.
pub fn print_by<W: Write, X: Write>(
    alloc: Global,
    schema: &Schema,
    words: &Words<'_>,
    name: &str,
    bytes: &[u8],
    writer: &mut W,
    errors: &mut X,
) -> Result<u8, CallError>
    ensures { IfOk result (λ status. spec.PrintsBy schema.now (words_of words.now) name.now
        bytes.now status (W.contents writer.old) (W.contents writer.new)
        (X.contents errors.old) (X.contents errors.new)) }
{
    let Some(root) = root_of(schema, words.root) else {
        say_no_root(alloc, words.root, errors)?;
        return Ok(FAILED);
    };
    print_bytes(alloc, schema, words, root, name, bytes, writer, errors)
}
