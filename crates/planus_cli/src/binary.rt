//! The command `binary`: JSON as a buffer.

ghost use Rattle.std.specs.Prelude.{◌≡◌, Some, IfOk, IfErr, OnOk, MatchResult};
ghost use Rattle.std.specs.Option.{option_map};
ghost use Rattle.std.specs.Io.KnownBytes.{Appends};
ghost use Rattle.planus_write.specs.View.{settings_of};
ghost use Rattle.planus_cli.specs.Arguments.{words_of};
ghost use Rattle.planus_cli.specs.Files.{PutsFile};
ghost use Rattle.planus_cli.specs.Packing as spec;
ghost use Rattle.planus_cli.specs.Reports.{report_text};

use crate::arguments::{Words, limit};
use crate::files::{Files, put_file};
use crate::pack_texts::{fault_message, not_one_message, unwritten_message};
use crate::print_json::BYTES;
use crate::report::report;
use crate::root::{root_of, say_no_root};
use crate::said::{CLEAN, FAILED, FAULTY};
use crate::streams::{CallError, say, write_out};
use planus::Caches;
use planus_pack::{PackError, PackOptions, binary};
use planus_schema::Schema;
use std::alloc::Global;
use std::io::Write;

/// How a text is packed.
#[derive(Clone, Copy)]
struct Packing<'a> {
    schema: &'a Schema,
    /// The index of the root's declaration.
    root: usize,
    options: PackOptions,
    caches: Caches,
    /// The identifier of buffers, where they have one.
    id: Option<[u8; 4]>,
    /// Whether the text is one value or more, each of which is packed after its size.
    sized: bool,
}

/// Where a buffer goes.
#[derive(Clone, Copy)]
struct Target<'a> {
    /// A file, or else standard output.
    file: Option<&'a str>,
    /// The greatest number of bytes.
    most: usize,
}

/// Reports a fault at a byte of a text.
fn say_at<X: Write>(
    alloc: Global,
    name: &str,
    text: &[u8],
    at: usize,
    message: &[u8],
    errors: &mut X,
) -> Result<(), CallError>
    ensures { OnOk result (Appends (X.contents errors.old) (X.contents errors.new)
        (report_text name.now text.now at message.now)) }
{
    let report = report(alloc, name, text, at.min(text.len()), message)?;
    write_out(errors, &report)
}

/// Says why a text has no buffer.
fn say_error<X: Write>(
    alloc: Global,
    name: &str,
    text: &[u8],
    error: PackError,
    errors: &mut X,
) -> Result<(), CallError>
    ensures { OnOk result (spec.SaysError name.now text.now error (X.contents errors.old)
        (X.contents errors.new)) }
{
    match error {
        PackError::OutOfMemory => Err(CallError::OutOfMemory),
        PackError::Text { at, kind } => {
            let message = format!(in alloc; "{kind}")?;
            say_at(alloc, name, text, at, message.as_bytes(), errors)
        }
        PackError::NotOne { at } => {
            let message = not_one_message(text.len(), at);
            say_at(alloc, name, text, at, message.as_bytes(), errors)
        }
        PackError::Fault { at, kind } => {
            let message = fault_message(alloc, kind, text, at)?;
            say_at(alloc, name, text, at, &message, errors)
        }
        PackError::Replay(error) => {
            let message = unwritten_message(alloc, error)?;
            say(alloc, errors, "", name, message.as_str())
        }
    }
}

/// Writes a buffer whole to a file or to standard output.
fn write_whole<F: Files, W: Write, X: Write>(
    files: &F,
    alloc: Global,
    file: Option<&str>,
    bytes: &[u8],
    writer: &mut W,
    errors: &mut X,
) -> Result<u8, CallError>
    ensures { IfOk result (λ status. spec.WritesWhole (F.disk files.now)
        (option_map (λ w. w.now) file.entry) bytes.now status
        (W.contents writer.old) (W.contents writer.new)
        (X.contents errors.old) (X.contents errors.new)) }
{
    match file {
        Some(file) => put_file(files, alloc, file, bytes, errors),
        None => {
            write_out(writer, bytes)?;
            Ok(CLEAN)
        }
    }
}

/// Writes a buffer, or says that it is too long.
fn write_buffer<F: Files, W: Write, X: Write>(
    files: &F,
    alloc: Global,
    to: Target<'_>,
    name: &str,
    bytes: &[u8],
    writer: &mut W,
    errors: &mut X,
) -> Result<u8, CallError>
    ensures { IfOk result (λ status. spec.WritesBuffer (F.disk files.now) (spec.target_of to.entry)
        name.now bytes.now status (W.contents writer.old) (W.contents writer.new)
        (X.contents errors.old) (X.contents errors.new)) }
{
    if bytes.len() > to.most {
        say(
            alloc,
            errors,
            "",
            name,
            ": its buffer is too long; see --bytes",
        )?;
        Ok(FAULTY)
    } else {
        write_whole(files, alloc, to.file, bytes, writer, errors)
    }
}

fn packed(alloc: Global, how: Packing<'_>, text: &[u8]) -> Result<Vec<u8>, PackError>
    ensures { spec.IsPacked (spec.packing_of how.entry) text.now result }
{
    binary(
        alloc,
        how.schema,
        how.root,
        text,
        how.options,
        how.caches,
        how.id,
        how.sized,
    )
}

/// Writes the buffer of a text, or says why it has none.
fn pack_text<F: Files, W: Write, X: Write>(
    files: &F,
    alloc: Global,
    how: Packing<'_>,
    to: Target<'_>,
    name: &str,
    text: &[u8],
    writer: &mut W,
    errors: &mut X,
) -> Result<u8, CallError>
    ensures { IfOk result (λ status. spec.PacksText (F.disk files.now) (spec.packing_of how.entry)
        (spec.target_of to.entry) name.now text.now status
        (W.contents writer.old) (W.contents writer.new)
        (X.contents errors.old) (X.contents errors.new)) }
{
    match packed(alloc, how, text) {
        Ok(bytes) => write_buffer(files, alloc, to, name, &bytes, writer, errors),
        Err(error) => {
            say_error(alloc, name, text, error, errors)?;
            Ok(FAULTY)
        }
    }
}

/// Returns which contents of a buffer are written once.
fn caches_of(share: bool) -> Caches
    ensures { settings_of result ≡ spec.settings share }
{
    Caches {
        vtables: true,
        texts: share,
        bytes: share,
        ..Caches::all()
    }
}

fn options_of(words: &Words<'_>) -> PackOptions
    ensures { result ≡ spec.options_of (words_of words.now) }
{
    PackOptions {
        omit_defaults: words.omit_defaults,
        skip_unknown: words.skip_unknown,
    }
}

/// Returns the schema's identifier where it is asked for.
fn id_of(schema: &Schema, asked: bool) -> Result<Option<[u8; 4]>, CallError>
    ensures { IfOk result (λ id. id ≡ spec.id_of schema.now asked) }
{
    match &schema.statements.identifier {
        Some(identifier) if asked => match identifier.as_slice() {
            [a, b, c, d] => Ok(Some([*a, *b, *c, *d])),
            _ => Err(CallError::BadSchema),
        },
        _ => Ok(None),
    }
}

fn lacks_id(schema: &Schema, asked: bool) -> bool
    ensures { result ≡ spec.lacks_id schema.now asked }
{
    asked && schema.statements.identifier.is_none()
}

/// Packs a text as the table of this index.
fn pack_as<F: Files, W: Write, X: Write>(
    files: &F,
    alloc: Global,
    schema: &Schema,
    words: &Words<'_>,
    root: usize,
    name: &str,
    text: &[u8],
    writer: &mut W,
    errors: &mut X,
) -> Result<u8, CallError>
    ensures { IfOk result (λ status. spec.PacksAs (F.disk files.now) schema.now
        (words_of words.now) root name.now text.now status
        (W.contents writer.old) (W.contents writer.new)
        (X.contents errors.old) (X.contents errors.new)) }
{
    if lacks_id(schema, words.identifier) {
        say(
            alloc,
            errors,
            "the schema has no identifier for --identifier",
            "",
            "",
        )?;
        return Ok(FAILED);
    }
    let how = Packing {
        schema,
        root,
        options: options_of(words),
        caches: caches_of(words.share),
        id: id_of(schema, words.identifier)?,
        sized: words.size_prefixed,
    };
    let to = Target {
        file: words.output_file,
        most: limit(words.bytes, BYTES),
    };
    pack_text(files, alloc, how, to, name, text, writer, errors)
}

/// Writes the JSON of a file as a buffer by a schema, as the words of the call say. Reports the
/// first fault, and then writes nothing. Returns the exit status.
pub fn pack_by<F: Files, W: Write, X: Write>(
    files: &F,
    alloc: Global,
    schema: &Schema,
    words: &Words<'_>,
    name: &str,
    text: &[u8],
    writer: &mut W,
    errors: &mut X,
) -> Result<u8, CallError>
    ensures { IfOk result (λ status. spec.PacksBy (F.disk files.now) schema.now
        (words_of words.now) name.now text.now status
        (W.contents writer.old) (W.contents writer.new)
        (X.contents errors.old) (X.contents errors.new)) }
{
    let Some(root) = root_of(schema, words.root) else {
        say_no_root(alloc, words.root, errors)?;
        return Ok(FAILED);
    };
    pack_as(
        files, alloc, schema, words, root, name, text, writer, errors,
    )
}
