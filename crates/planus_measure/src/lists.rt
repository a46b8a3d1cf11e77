//! Reads of vectors of tables and of unions.

use crate::reads::{WEAPON, weapon};
use crate::tables::Weapon;
use crate::works::OPERATIONS;
use planus::errors::Error;
use planus::table_reader::Table;
use planus::{
    SliceWithStartOffset, TableRead, TableReadUnionVector, TableRef, TaggedPlace, UnionVector,
    Vector,
};
use std::alloc::{AllocError, Global};

fn push_number(bytes: &mut Vec<u8>, number: u32) -> Result<(), AllocError> {
    bytes.extend_from_slice(&number.to_le_bytes())
}

/// The table is 4 bytes into the weapon's bytes.
fn push_weapons(bytes: &mut Vec<u8>) -> Result<(), AllocError> {
    push_number(bytes, OPERATIONS as u32)?;
    let mut reference = 4 * OPERATIONS as u32 + 4;
    for _ in 0..OPERATIONS {
        push_number(bytes, reference)?;
        reference = reference.saturating_sub(4);
    }
    bytes.extend_from_slice(&WEAPON)
}

pub fn finished_tables(alloc: Global) -> Result<Vec<u8>, AllocError> {
    let mut bytes = Vec::new(alloc);
    push_number(&mut bytes, 4)?;
    push_weapons(&mut bytes)?;
    Ok(bytes)
}

pub fn finished_unions(alloc: Global) -> Result<Vec<u8>, AllocError> {
    let mut bytes = Vec::new(alloc);
    push_number(&mut bytes, 8)?;
    push_number(&mut bytes, OPERATIONS as u32 + 8)?;
    push_number(&mut bytes, OPERATIONS as u32)?;
    for _ in 0..OPERATIONS {
        bytes.push(1)?;
    }
    push_weapons(&mut bytes)?;
    Ok(bytes)
}

pub fn tables(buffer: &[u8]) -> Result<usize, Error> {
    let mut sum: usize = 0;
    for item in tables_in(buffer)? {
        sum = sum.wrapping_add(weapon(item?.table)?);
    }
    Ok(sum)
}

fn tables_in(buffer: &[u8]) -> Result<Vector<'_, Result<TableRef<'_, Weapon>, Error>>, Error> {
    let slice = SliceWithStartOffset::new(buffer, 0);
    <Vector<'_, Result<TableRef<'_, Weapon>, Error>> as TableRead<'_>>::from_buffer(
        slice, 0,
    ).map_err(|kind| kind.with_error_location("Tables", "root", 0))
}

pub fn unions(buffer: &[u8]) -> Result<usize, Error> {
    let mut sum: usize = 0;
    for item in unions_in(buffer)? {
        sum = sum.wrapping_add(held(item?)?);
    }
    Ok(sum)
}

fn unions_in(buffer: &[u8]) -> Result<UnionVector<'_, TaggedPlace<'_>>, Error> {
    let slice = SliceWithStartOffset::new(buffer, 0);
    <UnionVector<'_, TaggedPlace<'_>> as TableReadUnionVector<'_>>::from_buffer(
        slice, 0, 4,
    ).map_err(|kind| kind.with_error_location("Unions", "root", 0))
}

/// 0 for a tag other than 1.
fn held(union: TaggedPlace<'_>) -> Result<usize, Error> {
    if union.tag() != 1 {
        return Ok(0);
    }
    let read = union.place().read::<Table<'_>>();
    weapon(read.map_err(|kind| kind.with_error_location("Unions", "weapon", 0))?)
}
