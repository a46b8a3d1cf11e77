//! Fields of tables, stored as their position: that of the reference to the table.

ghost use Rattle.std.specs.Prelude.{◌≡◌};
ghost use Rattle.planus_foreign.specs.Calls.{Reads};
ghost use Rattle.planus_foreign.specs.Places.{GivesTable, TablePosition, TablePositionIf};
ghost use Rattle.planus_foreign.specs.Places.{IsPositionField, IsPositionRequired};

use crate::position::Position;
use crate::status::{ABSENT, OK, status_of, table_at};
use planus::located::Error;

#[inline]
fn put_table(buffer: &[u8], position: usize, out: &mut usize) -> u32
    ensures { GivesTable buffer.now position out.old out.new result }
{
    match table_at(buffer, position) {
        Ok(_) => {
            *out = position;
            OK
        }
        Err(kind) => status_of(kind),
    }
}

#[inline]
fn put(buffer: &[u8], read: Result<Position, Error<'_>>, out: &mut usize) -> u32
    ensures { TablePosition buffer.now read.entry out.old out.new result }
{
    match read {
        Ok(position) => put_table(buffer, position.at, out),
        Err(error) => status_of(error.error_kind),
    }
}

#[inline]
fn put_if(buffer: &[u8], read: Result<Option<Position>, Error<'_>>, out: &mut usize) -> u32
    ensures { TablePositionIf buffer.now read.entry out.old out.new result }
{
    match read {
        Ok(Some(position)) => put_table(buffer, position.at, out),
        Ok(None) => ABSENT,
        Err(error) => status_of(error.error_kind),
    }
}

/// Stores the position of the table in a slot, if it isn't absent.
#[inline]
pub fn read_table_if(
    buffer: &[u8],
    table: usize,
    slot: usize,
    type_: &str,
    method: &str,
    out: &mut usize,
) -> u32
    ensures { Reads (λ t. IsPositionField t slot type_.now method.now)
        (TablePositionIf buffer.now) buffer.now table out.old out.new result }
{
    match table_at(buffer, table) {
        Ok(table) => put_if(buffer, table.access::<Position>(slot, type_, method), out),
        Err(kind) => status_of(kind),
    }
}

/// Stores the position of the table in a slot, which is required.
#[inline]
pub fn read_table(
    buffer: &[u8],
    table: usize,
    slot: usize,
    type_: &str,
    method: &str,
    out: &mut usize,
) -> u32
    ensures { Reads (λ t. IsPositionRequired t slot type_.now method.now)
        (TablePosition buffer.now) buffer.now table out.old out.new result }
{
    match table_at(buffer, table) {
        Ok(table) => put(
            buffer,
            table.access_required::<Position>(slot, type_, method),
            out,
        ),
        Err(kind) => status_of(kind),
    }
}
