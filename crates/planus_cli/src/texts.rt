//! What becomes of a text, and what is written of it.

ghost use Rattle.std.specs.Prelude.{◌≡◌, List, IfOk, IfErr, length};
ghost use Rattle.planus_syntax.specs.Values.{AreWhole, SchemaV, schema_pieces};
ghost use Rattle.planus_syntax.specs.Comments.{canonical, elements_of};
ghost use Rattle.planus_syntax.specs.Parsed.{LiesIn};
ghost use Rattle.planus_cli.specs.SchemaTexts.{HasText, IsFormatted, ReportsError};
ghost use Rattle.planus_cli.specs.SchemaTexts.{Prints, FailsPrinting};
ghost use Rattle.planus_syntax.specs.Spelled.{Part, AreParts, spelled, tokens_in};

use crate::formatted::{Formatted, Printed};
use crate::message::{lex_message, parse_message};
use crate::report::report;
use crate::streams::{CallError, write_out};
use planus_syntax::{SchemaError, format_text};
use std::alloc::{AllocError, Global};
use std::io::Write;

/// Fails for `OutOfMemory`, which has no place.
pub(crate) fn error_report(
    alloc: Global,
    name: &str,
    text: &[u8],
    error: SchemaError,
) -> Result<Vec<u8>, AllocError>
    requires { LiesIn (length text.now) error }
    ensures { IfOk result (λ out. ReportsError name.now text.now error out.items) }
{
    match error {
        SchemaError::OutOfMemory => Err(AllocError),
        SchemaError::Token { fault, at } => report(
            alloc,
            name,
            text,
            at,
            lex_message(fault).as_bytes(),
        ),
        SchemaError::Declaration { fault, at, .. } => {
            report(alloc, name, text, at, parse_message(fault).as_bytes())
        }
    }
}

/// Returns the canonical text, or the report of the first fault.
pub fn format_or_report(alloc: Global, name: &str, text: &[u8]) -> Result<Formatted, AllocError>
    ensures formatted { IfOk result (λ formatted. IsFormatted name.now text.now formatted) }
    // A text that spells a schema is formatted.
    ensures only { (schema : SchemaV) (parts : List Part) → AreWhole schema.declarations
        → AreParts parts → text.now ≡ spelled parts → schema_pieces schema ≡ tokens_in parts
        → IfOk result (λ formatted. HasText (canonical (elements_of parts)) formatted) }
{
    match format_text(alloc, text) {
        Ok(out) => Ok(Formatted::Text(out)),
        Err(error) => Ok(Formatted::Report(error_report(alloc, name, text, error)?)),
    }
}

/// Writes the canonical text, or reports the first fault. Returns what was written.
///
/// Fails where memory is refused or writing fails.
pub fn format<W: Write, X: Write>(
    alloc: Global,
    name: &str,
    text: &[u8],
    writer: &mut W,
    errors: &mut X,
) -> Result<Printed, CallError>
    ensures printed { IfOk result (λ printed. Prints name.now text.now printed
        (W.contents writer.old) (W.contents writer.new)
        (X.contents errors.old) (X.contents errors.new)) }
    ensures failed { IfErr result (λ error. FailsPrinting name.now text.now error
        (W.contents writer.old) (W.contents writer.new)
        (X.contents errors.old) (X.contents errors.new)) }
{
    match format_or_report(alloc, name, text)? {
        Formatted::Text(out) => {
            write_out(writer, &out)?;
            Ok(Printed::Text)
        }
        Formatted::Report(report) => {
            write_out(errors, &report)?;
            Ok(Printed::Report)
        }
    }
}
