//! A text as declarations, or the report of its first fault.

ghost use Rattle.std.specs.Prelude.{IfOk};
ghost use Rattle.planus_cli.specs.SchemaTexts.{IsParsed};

use crate::texts::error_report;
use planus_syntax::{Declaration, parse_text};
use std::alloc::{AllocError, Global};

/// What a text is.
#[derive(Drop)]
pub enum Parsed {
    Declarations(Vec<Declaration>),
    /// The report of its first fault.
    Report(Vec<u8>),
}

/// Returns the declarations of a text that reports call `name`.
pub fn parse_or_report(alloc: Global, name: &str, text: &[u8]) -> Result<Parsed, AllocError>
    ensures { IfOk result (λ parsed. IsParsed name.now text.now parsed) }
{
    match parse_text(alloc, text) {
        Ok(schema) => Ok(Parsed::Declarations(schema.declarations)),
        Err(error) => Ok(Parsed::Report(error_report(alloc, name, text, error)?)),
    }
}
