//! Buffers that are read.

use planus::errors::{Error, ErrorKind};
use planus::table_reader::Table;
use planus::{Place, SliceWithStartOffset, TableRead, TaggedPlace, Vector};

/// The string `Axe` in slot 0, 24 as `u16` in slot 1.
pub const WEAPON: [u8; 32] = [
    4, 0, 0, 0, 244, 255, 255, 255, 16, 0, 0, 0, 24, 0, 0, 0, 8, 0, 10, 0, 4, 0, 8, 0, 3, 0, 0, 0,
    65, 120, 101, 0,
];

/// 1 to 8 as `u16` in slots 0 to 7.
pub const NUMBERS: [u8; 44] = [
    4, 0, 0, 0, 236, 255, 255, 255, 1, 0, 2, 0, 3, 0, 4, 0, 5, 0, 6, 0, 7, 0, 8, 0, 20, 0, 20, 0,
    4, 0, 6, 0, 8, 0, 10, 0, 12, 0, 14, 0, 16, 0, 18, 0,
];

/// 80 as `u16` in slot 0, the string `Orc` in slot 1, a vector of one table in slot 3, and that
/// table as a union of tag 1 in slots 4 and 5.
pub const MONSTER: [u8; 84] = [
    4, 0, 0, 0, 236, 255, 255, 255, 40, 0, 0, 0, 28, 0, 0, 0, 40, 0, 0, 0, 80, 0, 1, 0, 16, 0, 19,
    0, 16, 0, 4, 0, 0, 0, 8, 0, 18, 0, 12, 0, 1, 0, 0, 0, 12, 0, 0, 0, 3, 0, 0, 0, 79, 114, 99, 0,
    244, 255, 255, 255, 16, 0, 0, 0, 24, 0, 0, 0, 8, 0, 10, 0, 4, 0, 8, 0, 3, 0, 0, 0, 65, 120,
    101, 0,
];

/// How the items of a vector are reached.
#[derive(Clone, Copy)]
pub enum Walk {
    Each,
    Positions,
    /// Slices of 16.
    Chunks,
    /// Windows of 4.
    Windows,
}

fn root(buffer: &[u8]) -> Result<Table<'_>, Error> {
    let slice = SliceWithStartOffset::new(buffer, 0);
    Table::from_buffer(slice, 0).map_err(|kind| kind.with_error_location("Table", "root", 0))
}

/// Returns a weapon's number plus the length of its string.
pub fn weapon(table: Table<'_>) -> Result<usize, Error> {
    let damage = table.access::<u16>(1, "Weapon", "damage")?.unwrap_or(0);
    let name = table.access::<&str>(0, "Weapon", "name")?.unwrap_or("");
    Ok(usize::from(damage) + name.len())
}

fn numbers(table: Table<'_>, count: usize) -> Result<usize, Error> {
    let mut sum: usize = 0;
    for slot in 0..count {
        let number = table.access::<u16>(slot, "Numbers", "number")?;
        sum = sum.wrapping_add(usize::from(number.unwrap_or(0)));
    }
    Ok(sum)
}

fn monster(table: Table<'_>) -> Result<usize, Error> {
    let hp = table.access::<u16>(0, "Monster", "hp")?.unwrap_or(100);
    let name = table.access_required::<&str>(1, "Monster", "name")?;
    let weapons = table.access_required::<Vector<'_, Place<'_>>>(3, "Monster", "weapons")?;
    let equipped = table.access_union_required::<TaggedPlace<'_>>(4, "Monster", "equipped")?;
    let read = usize::from(hp) + name.len();
    Ok(
        read.wrapping_add(weapons.len())
            .wrapping_add(usize::from(equipped.tag())),
    )
}

pub fn weapons(buffers: &[u8]) -> Result<usize, Error> {
    let mut sum: usize = 0;
    for buffer in buffers.chunks_exact(WEAPON.len()) {
        sum = sum.wrapping_add(weapon(root(buffer)?)?);
    }
    Ok(sum)
}

pub fn fields(buffers: &[u8], count: usize) -> Result<usize, Error> {
    let mut sum: usize = 0;
    for buffer in buffers.chunks_exact(NUMBERS.len()) {
        sum = sum.wrapping_add(numbers(root(buffer)?, count)?);
    }
    Ok(sum)
}

pub fn monsters(buffers: &[u8]) -> Result<usize, Error> {
    let mut sum: usize = 0;
    for buffer in buffers.chunks_exact(MONSTER.len()) {
        sum = sum.wrapping_add(monster(root(buffer)?)?);
    }
    Ok(sum)
}

fn sum_of(numbers: Vector<'_, u32>) -> usize {
    let mut sum: usize = 0;
    for number in numbers {
        sum = sum.wrapping_add(number as usize);
    }
    sum
}

fn sum_by_positions(numbers: Vector<'_, u32>) -> usize {
    let mut sum: usize = 0;
    for at in 0..numbers.len() {
        sum = sum.wrapping_add(numbers.get(at).unwrap_or(0) as usize);
    }
    sum
}

fn sum_by_chunks(numbers: Vector<'_, u32>) -> usize {
    let mut sum: usize = 0;
    for chunk in numbers.chunks(16) {
        sum = sum.wrapping_add(sum_of(chunk));
    }
    sum
}

fn sum_by_windows(numbers: Vector<'_, u32>) -> usize {
    let mut sum: usize = 0;
    for window in numbers.windows(4) {
        sum = sum.wrapping_add(sum_of(window));
    }
    sum
}

pub fn walked(buffer: &[u8], walk: Walk) -> Result<usize, ErrorKind> {
    let slice = SliceWithStartOffset::new(buffer, 0);
    let list = <Vector<'_, u32> as TableRead<'_>>::from_buffer(slice, 0)?;
    Ok(match walk {
        Walk::Each => sum_of(list),
        Walk::Positions => sum_by_positions(list),
        Walk::Chunks => sum_by_chunks(list),
        Walk::Windows => sum_by_windows(list),
    })
}

pub fn texts(buffer: &[u8]) -> Result<usize, Error> {
    let mut sum: usize = 0;
    for text in texts_in(buffer)? {
        sum = sum.wrapping_add(text?.len());
    }
    Ok(sum)
}

fn texts_in(buffer: &[u8]) -> Result<Vector<'_, Result<&str, Error>>, Error> {
    let slice = SliceWithStartOffset::new(buffer, 0);
    <Vector<'_, Result<&str, Error>> as TableRead<'_>>::from_buffer(slice, 0).map_err(
        |kind| kind.with_error_location("Texts", "root", 0),
    )
}
