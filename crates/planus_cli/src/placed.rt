//! Places in a schema, and reports of faults there.

ghost use Rattle.std.specs.Prelude.{◌≤◌, length, IfOk};
ghost use Rattle.planus_cli.specs.SchemaTexts.{HasTokens, IsPlaceAt, ReportsAt};

use crate::report::report;
use planus_syntax::place_from_end;
use std::alloc::{AllocError, Global};

/// Returns where the word begins that is `left` tokens before the text's end.
pub(crate) fn place_of(alloc: Global, text: &[u8], left: usize) -> Result<usize, AllocError>
    requires { HasTokens text.now }
    ensures place { IfOk result (λ at. IsPlaceAt text.now left at) }
    ensures within { IfOk result (λ at. at ≤ length text.now) }
{
    match place_from_end(alloc, text, left) {
        Ok(at) => Ok(at),
        Err(_) => Err(AllocError),
    }
}

/// Returns the report of a fault at the word `left` tokens before the text's end.
pub fn placed_report(
    alloc: Global,
    name: &str,
    text: &[u8],
    left: usize,
    message: &[u8],
) -> Result<Vec<u8>, AllocError>
    requires { HasTokens text.now }
    ensures { IfOk result (λ out. ReportsAt name.now text.now left message.now out.items) }
{
    let at = place_of(alloc, text, left)?;
    report(alloc, name, text, at, message)
}
