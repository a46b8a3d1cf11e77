//! Fields of strings, stored as their place in the buffer.

ghost use Rattle.planus_foreign.specs.Calls.{Reads, Value, ValueIf};
ghost use Rattle.planus_foreign.specs.Places.{IsTextSpanField, IsTextSpanRequired};

use crate::span::Span;
use crate::status::{status_of, table_at};
use crate::values::{put, put_if};

/// Stores where the string in a slot is, if it isn't absent.
#[inline]
pub fn read_text_if(
    buffer: &[u8],
    table: usize,
    slot: usize,
    type_: &str,
    method: &str,
    out: &mut Span,
) -> u32
    ensures { Reads (λ t. IsTextSpanField t slot type_.now method.now) ValueIf
        buffer.now table out.old out.new result }
{
    match table_at(buffer, table) {
        Ok(table) => put_if(table.access::<Span>(slot, type_, method), out),
        Err(kind) => status_of(kind),
    }
}

/// Stores where the string in a slot is, which is required.
#[inline]
pub fn read_text(
    buffer: &[u8],
    table: usize,
    slot: usize,
    type_: &str,
    method: &str,
    out: &mut Span,
) -> u32
    ensures { Reads (λ t. IsTextSpanRequired t slot type_.now method.now) Value
        buffer.now table out.old out.new result }
{
    match table_at(buffer, table) {
        Ok(table) => put(table.access_required::<Span>(slot, type_, method), out),
        Err(kind) => status_of(kind),
    }
}
