//! The command `dot`: the graph of a schema.

ghost use Rattle.std.specs.Prelude.{◌≡◌, IfOk};
ghost use Rattle.std.specs.Io.KnownBytes.{Appends};
ghost use Rattle.planus_dot.specs.Graphs as spec;
ghost use Rattle.planus_cli.specs.Arguments.{words_of};
ghost use Rattle.planus_cli.specs.Drawing.{DrawsNamed, DrawsFiles};
ghost use Rattle.planus_cli.specs.Loading.{places_of};

use crate::arguments::Words;
use crate::files::Files;
use crate::said::{CLEAN, FAILED};
use crate::sources::schema_at;
use crate::streams::{CallError, write_out};
use planus_dot::graph_text;
use planus_resolve::Schema;
use std::alloc::Global;
use std::io::Write;

/// Writes the graph of a schema. Returns the exit status.
fn draw<W: Write>(alloc: Global, schema: &Schema, writer: &mut W) -> Result<u8, CallError>
    ensures { IfOk result (λ status. (status ≡ 0)
        × Appends (W.contents writer.old) (W.contents writer.new) (spec.graph_text schema.now)) }
{
    let text = graph_text(alloc, schema)?;
    write_out(writer, &text)?;
    Ok(CLEAN)
}

/// Writes the graph of what a file means. Returns the exit status.
fn draw_named<F: Files, W: Write, X: Write>(
    files: &F,
    alloc: Global,
    folders: &[&str],
    word: &str,
    writer: &mut W,
    errors: &mut X,
) -> Result<u8, CallError>
    ensures { IfOk result (λ status. DrawsNamed (places_of (F.disk files.now) folders.now) word.now
        status (W.contents writer.old) (W.contents writer.new)
        (X.contents errors.old) (X.contents errors.new)) }
{
    let found = schema_at(files, alloc, folders, word, errors)?;
    match &found {
        Ok(schema) => draw(alloc, schema, writer),
        Err(status) => Ok(*status),
    }
}

/// Writes the graph of a schema, which is a file. Returns the exit status.
pub fn draw_graph<F: Files, W: Write, X: Write>(
    files: &F,
    alloc: Global,
    words: &Words<'_>,
    writer: &mut W,
    errors: &mut X,
) -> Result<u8, CallError>
    ensures { IfOk result (λ status. DrawsFiles
        (places_of (F.disk files.now) words.now.folders.items) (words_of words.now).files status
        (W.contents writer.old) (W.contents writer.new)
        (X.contents errors.old) (X.contents errors.new)) }
{
    match words.files.as_slice() {
        [word] => draw_named(files, alloc, &words.folders, *word, writer, errors),
        _ => Ok(FAILED),
    }
}
