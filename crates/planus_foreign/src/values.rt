//! Fields of numbers, stored as such.

ghost use Rattle.planus_foreign.specs.Calls.{Reads, Value, ValueIf};
ghost use Rattle.planus.specs.Printed.{IsPlainField, IsPlainFieldOr, IsPlainRequired};

use crate::status::{ABSENT, OK, status_of, table_at};
use planus::located::Error;
use planus::{Plain, plain_field, plain_field_or, plain_required};

#[inline]
pub(crate) fn put<T: Copy + Drop>(read: Result<T, Error<'_>>, out: &mut T) -> u32
    ensures { Value read.entry out.old out.new result }
{
    match read {
        Ok(value) => {
            *out = value;
            OK
        }
        Err(error) => status_of(error.error_kind),
    }
}

#[inline]
pub(crate) fn put_if<T: Copy + Drop>(read: Result<Option<T>, Error<'_>>, out: &mut T) -> u32
    ensures { ValueIf read.entry out.old out.new result }
{
    match read {
        Ok(Some(value)) => {
            *out = value;
            OK
        }
        Ok(None) => ABSENT,
        Err(error) => status_of(error.error_kind),
    }
}

/// Stores the field in a slot, or its default.
#[inline]
pub fn read_value_or<T: Plain + Drop>(
    buffer: &[u8],
    table: usize,
    slot: usize,
    default: T,
    type_: &str,
    method: &str,
    out: &mut T,
) -> u32
    ensures { Reads (λ t. IsPlainFieldOr T.shape default t slot type_.now method.now) Value
        buffer.now table out.old out.new result }
{
    match table_at(buffer, table) {
        Ok(table) => put(plain_field_or(&table, slot, default, type_, method), out),
        Err(kind) => status_of(kind),
    }
}

/// Stores the field in a slot, if it isn't absent.
#[inline]
pub fn read_value_if<T: Plain + Drop>(
    buffer: &[u8],
    table: usize,
    slot: usize,
    type_: &str,
    method: &str,
    out: &mut T,
) -> u32
    ensures { Reads (λ t. IsPlainField T.shape t slot type_.now method.now) ValueIf
        buffer.now table out.old out.new result }
{
    match table_at(buffer, table) {
        Ok(table) => put_if(plain_field(&table, slot, type_, method), out),
        Err(kind) => status_of(kind),
    }
}

/// Stores the field in a slot, which is required.
#[inline]
pub fn read_value<T: Plain + Drop>(
    buffer: &[u8],
    table: usize,
    slot: usize,
    type_: &str,
    method: &str,
    out: &mut T,
) -> u32
    ensures { Reads (λ t. IsPlainRequired T.shape t slot type_.now method.now) Value
        buffer.now table out.old out.new result }
{
    match table_at(buffer, table) {
        Ok(table) => put(plain_required(&table, slot, type_, method), out),
        Err(kind) => status_of(kind),
    }
}
