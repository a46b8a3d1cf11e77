//! A schema in its canonical layout, printed or written in place.

ghost use Rattle.std.specs.Prelude.{IfOk};
ghost use Rattle.planus_cli.specs.Arguments.{words_of};
ghost use Rattle.planus_cli.specs.Rewriting.{FormatsText, Rewrites};
ghost use Rattle.planus_cli.specs.Rewriting.{FormatsBy, FormatsFile};
ghost use Rattle.planus_cli.specs.Rewriting.{ComparesBytes, ComparesFile};

use crate::arguments::Words;
use crate::files::{Files, put_file};
use crate::formatted::{Formatted, Printed};
use crate::said::{CLEAN, FAILED, FAULTY, fail};
use crate::sources::{bytes_of, text_of};
use crate::streams::{CallError, say, write_out};
use crate::texts::{format, format_or_report};
use planus_syntax::after_order_mark;
use std::alloc::Global;
use std::io::Write;

/// Replaces the text of a file by its canonical text, or reports why not. Returns the exit status.
fn rewrite<F: Files, X: Write>(
    files: &F,
    alloc: Global,
    name: &str,
    text: &[u8],
    errors: &mut X,
) -> Result<u8, CallError>
    ensures { IfOk result (λ status. Rewrites (F.disk files.now) name.now text.now
        status (X.contents errors.old) (X.contents errors.new)) }
{
    match format_or_report(alloc, name, text)? {
        Formatted::Report(report) => {
            write_out(errors, &report)?;
            Ok(FAULTY)
        }
        Formatted::Text(out) => put_file(files, alloc, name, &out, errors),
    }
}

/// Writes the canonical text, or reports the first fault. Returns the exit status.
pub fn print_text<W: Write, X: Write>(
    alloc: Global,
    name: &str,
    text: &[u8],
    writer: &mut W,
    errors: &mut X,
) -> Result<u8, CallError>
    ensures { IfOk result (λ status. FormatsText name.now text.now status
        (W.contents writer.old) (W.contents writer.new)
        (X.contents errors.old) (X.contents errors.new)) }
{
    match format(alloc, name, text, writer, errors)? {
        Printed::Report => Ok(FAULTY),
        Printed::Text => Ok(CLEAN),
    }
}

/// Prints a canonical text, or writes it in place of its file. Returns the exit status.
fn format_text<F: Files, W: Write, X: Write>(
    files: &F,
    alloc: Global,
    words: &Words<'_>,
    name: &str,
    text: &[u8],
    writer: &mut W,
    errors: &mut X,
) -> Result<u8, CallError>
    ensures { IfOk result (λ status. FormatsBy (F.disk files.now) (words_of words.now) name.now
        text.now status (W.contents writer.old) (W.contents writer.new)
        (X.contents errors.old) (X.contents errors.new)) }
{
    if !words.write {
        return print_text(alloc, name, text, writer, errors);
    }
    if name == "-" {
        let why = "--write needs a file, and - is standard input";
        return fail(alloc, errors, why, "", "");
    }
    rewrite(files, alloc, name, text, errors)
}

/// Says that a file isn't formatted, or reports its first fault. Returns the exit status.
fn compare_bytes<X: Write>(
    alloc: Global,
    name: &str,
    bytes: &[u8],
    errors: &mut X,
) -> Result<u8, CallError>
    ensures { IfOk result (λ status. ComparesBytes name.now bytes.now status
        (X.contents errors.old) (X.contents errors.new)) }
{
    match format_or_report(alloc, name, after_order_mark(bytes))? {
        Formatted::Report(report) => {
            write_out(errors, &report)?;
            Ok(FAULTY)
        }
        Formatted::Text(out) => {
            if out.as_slice() == bytes {
                return Ok(CLEAN);
            }
            say(alloc, errors, "", name, " isn't formatted")?;
            Ok(FAULTY)
        }
    }
}

/// Compares a file with its canonical text. Returns the exit status.
fn compare_file<F: Files, X: Write>(
    files: &F,
    alloc: Global,
    name: &str,
    errors: &mut X,
) -> Result<u8, CallError>
    ensures { IfOk result (λ status. ComparesFile (F.disk files.now) name.now status
        (X.contents errors.old) (X.contents errors.new)) }
{
    match bytes_of(files, alloc, name, errors)? {
        Some(bytes) => compare_bytes(alloc, name, &bytes, errors),
        None => Ok(FAILED),
    }
}

/// Reads a file, and does what [`format_text`] does, or with `--check` compares it. Returns the exit
/// status.
pub fn format_file<F: Files, W: Write, X: Write>(
    files: &F,
    alloc: Global,
    words: &Words<'_>,
    name: &str,
    writer: &mut W,
    errors: &mut X,
) -> Result<u8, CallError>
    ensures { IfOk result (λ status. FormatsFile (F.disk files.now) (words_of words.now) name.now
        status (W.contents writer.old) (W.contents writer.new)
        (X.contents errors.old) (X.contents errors.new)) }
{
    if words.check {
        return compare_file(files, alloc, name, errors);
    }
    match text_of(files, alloc, name, errors)? {
        Some(text) => format_text(files, alloc, words, name, &text, writer, errors),
        None => Ok(FAILED),
    }
}
