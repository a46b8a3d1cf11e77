//! Fields that are copied as they are: numbers, bools, enums, flags and structs.

ghost use Rattle.planus.specs.Printed.{IsPlainRequired, IsPlainField, IsPlainFieldOr};
ghost use Rattle.planus_owned.specs.Made.{IsMadeFrom, IsMadeOf, CopiesValue};

use crate::errors::OwnError;
use planus::table_reader::Table;
use planus::{Plain, plain_field, plain_field_or, plain_required};
use planus_read::located::Error;

fn value<'n, T>(read: Result<T, Error<'n>>) -> Result<T, OwnError<'n>>
    ensures { IsMadeOf CopiesValue read.entry result }
{
    match read {
        Ok(value) => Ok(value),
        Err(error) => Err(OwnError::Read(error)),
    }
}

/// Returns the value in a slot. Fails as [`plain_required`].
pub fn own_plain<'n, T: Plain>(
    table: &Table<'_>,
    slot: usize,
    type_: &'n str,
    method: &'n str,
) -> Result<T, OwnError<'n>>
    ensures { IsMadeFrom (IsPlainRequired T.shape) CopiesValue table.now slot type_.now method.now
        result }
{
    value(plain_required(table, slot, type_, method))
}

/// Returns the value, or `None` if absent. Fails as [`plain_field`].
pub fn own_plain_if<'n, T: Plain>(
    table: &Table<'_>,
    slot: usize,
    type_: &'n str,
    method: &'n str,
) -> Result<Option<T>, OwnError<'n>>
    ensures { IsMadeFrom (IsPlainField T.shape) CopiesValue table.now slot type_.now method.now
        result }
{
    value(plain_field(table, slot, type_, method))
}

/// Returns the value, or the default if absent. Fails as [`plain_field_or`].
pub fn own_plain_or<'n, T: Plain>(
    table: &Table<'_>,
    slot: usize,
    default: T,
    type_: &'n str,
    method: &'n str,
) -> Result<T, OwnError<'n>>
    ensures { IsMadeFrom (IsPlainFieldOr T.shape default) CopiesValue table.now slot type_.now
        method.now result }
{
    value(plain_field_or(table, slot, default, type_, method))
}
