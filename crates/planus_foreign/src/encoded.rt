//! Fields of enums, flags and structs, stored as their bytes.

ghost use Rattle.std.specs.Prelude.{◌≡◌};
ghost use Rattle.planus_foreign.specs.Calls.{Reads, Bytes, BytesIf};
ghost use Rattle.planus.specs.Printed.{IsPlainField, IsPlainFieldOr, IsPlainRequired};

use crate::status::{ABSENT, OK, status_of, table_at};
use planus::located::Error;
use planus::{Plain, plain_field, plain_field_or, plain_required};

#[inline]
fn put<T: Plain + Drop, const N: usize>(read: Result<T, Error<'_>>, out: &mut [u8; N]) -> u32
    requires { T.SIZE ≡ N }
    ensures { Bytes T.shape read.entry out.old out.new result }
{
    match read {
        Ok(value) => {
            value.put(&mut out[..]);
            OK
        }
        Err(error) => status_of(error.error_kind),
    }
}

#[inline]
fn put_if<T: Plain + Drop, const N: usize>(
    read: Result<Option<T>, Error<'_>>,
    out: &mut [u8; N],
) -> u32
    requires { T.SIZE ≡ N }
    ensures { BytesIf T.shape read.entry out.old out.new result }
{
    match read {
        Ok(Some(value)) => {
            value.put(&mut out[..]);
            OK
        }
        Ok(None) => ABSENT,
        Err(error) => status_of(error.error_kind),
    }
}

/// Stores the bytes of the field in a slot, or of its default.
#[inline]
pub fn read_bytes_or<T: Plain + Drop, const N: usize>(
    buffer: &[u8],
    table: usize,
    slot: usize,
    default: T,
    type_: &str,
    method: &str,
    out: &mut [u8; N],
) -> u32
    requires { T.SIZE ≡ N }
    ensures { Reads (λ t. IsPlainFieldOr T.shape default t slot type_.now method.now)
        (Bytes T.shape) buffer.now table out.old out.new result }
{
    match table_at(buffer, table) {
        Ok(table) => put(plain_field_or(&table, slot, default, type_, method), out),
        Err(kind) => status_of(kind),
    }
}

/// Stores the bytes of the field in a slot, if it isn't absent.
#[inline]
pub fn read_bytes_if<T: Plain + Drop, const N: usize>(
    buffer: &[u8],
    table: usize,
    slot: usize,
    type_: &str,
    method: &str,
    out: &mut [u8; N],
) -> u32
    requires { T.SIZE ≡ N }
    ensures { Reads (λ t. IsPlainField T.shape t slot type_.now method.now)
        (BytesIf T.shape) buffer.now table out.old out.new result }
{
    match table_at(buffer, table) {
        Ok(table) => put_if(plain_field::<T>(&table, slot, type_, method), out),
        Err(kind) => status_of(kind),
    }
}

/// Stores the bytes of the field in a slot, which is required.
#[inline]
pub fn read_bytes<T: Plain + Drop, const N: usize>(
    buffer: &[u8],
    table: usize,
    slot: usize,
    type_: &str,
    method: &str,
    out: &mut [u8; N],
) -> u32
    requires { T.SIZE ≡ N }
    ensures { Reads (λ t. IsPlainRequired T.shape t slot type_.now method.now)
        (Bytes T.shape) buffer.now table out.old out.new result }
{
    match table_at(buffer, table) {
        Ok(table) => put(plain_required::<T>(&table, slot, type_, method), out),
        Err(kind) => status_of(kind),
    }
}
