//! The commands that have a schema and a buffer or JSON, both of which are files: `view`, `json` and
//! `binary`.

ghost use Rattle.std.specs.Prelude.{◌≡◌, IfOk};
ghost use Rattle.planus_cli.specs.Arguments.{words_of};
ghost use Rattle.planus_cli.specs.Running.{ShowsBy, ShowsFile, ShowsPair, ShowsFiles};

use crate::arguments::Words;
use crate::binary::pack_by;
use crate::files::Files;
use crate::print_json::print_by;
use crate::said::FAILED;
use crate::sources::{bytes_of, schema_at};
use crate::streams::CallError;
use crate::view::view_by;
use planus_schema::Schema;
use std::alloc::Global;
use std::io::Write;

/// A command that has a schema and another file.
#[derive(Clone, Copy)]
pub enum PairCommand {
    View,
    Json,
    Binary,
}

/// Writes what the bytes of a file are by a schema: a buffer as JSON or as a view, JSON as a buffer.
/// Returns the exit status.
fn show_by<F: Files, W: Write, X: Write>(
    files: &F,
    alloc: Global,
    command: PairCommand,
    schema: &Schema,
    words: &Words<'_>,
    name: &str,
    bytes: &[u8],
    writer: &mut W,
    errors: &mut X,
) -> Result<u8, CallError>
    ensures { IfOk result (λ status. ShowsBy (F.disk files.now) command schema.now
        (words_of words.now) name.now bytes.now
        status (W.contents writer.old) (W.contents writer.new)
        (X.contents errors.old) (X.contents errors.new)) }
{
    match command {
        PairCommand::View => view_by(alloc, schema, words, name, bytes, writer, errors),
        PairCommand::Json => print_by(alloc, schema, words, name, bytes, writer, errors),
        PairCommand::Binary => { pack_by(files, alloc, schema, words, name, bytes, writer, errors) }
    }
}

/// Reads a file, and does what [`show_by`] does.
fn show_file<F: Files, W: Write, X: Write>(
    files: &F,
    alloc: Global,
    command: PairCommand,
    schema: &Schema,
    words: &Words<'_>,
    name: &str,
    writer: &mut W,
    errors: &mut X,
) -> Result<u8, CallError>
    ensures { IfOk result (λ status. ShowsFile (F.disk files.now) command schema.now
        (words_of words.now) name.now status (W.contents writer.old) (W.contents writer.new)
        (X.contents errors.old) (X.contents errors.new)) }
{
    match bytes_of(files, alloc, name, errors)? {
        Some(bytes) => show_by(
            files, alloc, command, schema, words, name, &bytes, writer, errors,
        ),
        None => Ok(FAILED),
    }
}

/// Reads a schema, and does what [`show_file`] does.
fn show_pair<F: Files, W: Write, X: Write>(
    files: &F,
    alloc: Global,
    command: PairCommand,
    words: &Words<'_>,
    schema: &str,
    buffer: &str,
    writer: &mut W,
    errors: &mut X,
) -> Result<u8, CallError>
    ensures { IfOk result (λ status. ShowsPair (F.disk files.now) command (words_of words.now)
        schema.now buffer.now status (W.contents writer.old) (W.contents writer.new)
        (X.contents errors.old) (X.contents errors.new)) }
{
    let found = schema_at(files, alloc, &words.folders, schema, errors)?;
    match &found {
        Ok(schema) => show_file(files, alloc, command, schema, words, buffer, writer, errors),
        Err(status) => Ok(*status),
    }
}

/// Does what [`show_pair`] does with the two files of the call. Returns the exit status.
pub fn show_files<F: Files, W: Write, X: Write>(
    files: &F,
    alloc: Global,
    command: PairCommand,
    words: &Words<'_>,
    writer: &mut W,
    errors: &mut X,
) -> Result<u8, CallError>
    ensures { IfOk result (λ status. ShowsFiles (F.disk files.now) command (words_of words.now)
        (words_of words.now).files status (W.contents writer.old) (W.contents writer.new)
        (X.contents errors.old) (X.contents errors.new)) }
{
    match words.files.as_slice() {
        [schema, buffer] => show_pair(
            files, alloc, command, words, *schema, *buffer, writer, errors,
        ),
        _ => Ok(FAILED),
    }
}
