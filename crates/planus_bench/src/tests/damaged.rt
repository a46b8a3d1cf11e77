//! Every prefix and one-byte change of a few buffers, read by every accessor.

use super::agreement::same_number;
use super::found::{lists_agree, tables_agree};
use super::plain_reader::{head, number, signed, unsigned};
use planus::{SliceWithStartOffset, TableRead};
use planus_read::array_from_buffer;
use planus_read::errors::ErrorKind;
use planus_testing::exhaust;
use std::alloc::{AllocError, Global};
use std::test::Fail;

// The weapon Axe with a damage of 24.
const WEAPON: [u8; 32] = [
    4, 0, 0, 0, 0xf4, 0xff, 0xff, 0xff, 16, 0, 0, 0, 24, 0, 0, 0, 8, 0, 10, 0, 4, 0, 8, 0, 3, 0, 0,
    0, b'A', b'x', b'e', 0,
];

// An orc with 80 hit points and this weapon, which it has equipped.
const ORC: [u8; 84] = [
    4, 0, 0, 0, 0xec, 0xff, 0xff, 0xff, 40, 0, 0, 0, 28, 0, 0, 0, 40, 0, 0, 0, 80, 0, 1, 0, 16, 0,
    19, 0, 16, 0, 4, 0, 0, 0, 8, 0, 18, 0, 12, 0, 1, 0, 0, 0, 12, 0, 0, 0, 3, 0, 0, 0, b'O', b'r',
    b'c', 0, 0xf4, 0xff, 0xff, 0xff, 16, 0, 0, 0, 24, 0, 0, 0, 8, 0, 10, 0, 4, 0, 8, 0, 3, 0, 0, 0,
    b'A', b'x', b'e', 0,
];

// Slots 0 and 1 hold a union vector of tags 1 and 2 and the strings `A` and `B`.
const LOOT: [u8; 58] = [
    4, 0, 0, 0, 0xf4, 0xff, 0xff, 0xff, 16, 0, 0, 0, 20, 0, 0, 0, 8, 0, 12, 0, 4, 0, 8, 0, 2, 0, 0,
    0, 1, 2, 0, 0, 2, 0, 0, 0, 16, 0, 0, 0, 4, 0, 0, 0, 1, 0, 0, 0, b'B', 0, 0, 0, 1, 0, 0, 0,
    b'A', 0,
];

// By flatc 2.0.8 and the builders for C++ and Python: a weapon.
const OF_OTHERS: [u8; 20] = [
    12, 0, 0, 0, 8, 0, 8, 0, 0, 0, 6, 0, 8, 0, 0, 0, 0, 0, 0x5e, 0xff,
];

// By flatc 2.0.8 and the builder for C++: a monster.
const RAIDER: [u8; 148] = [
    0x14, 0, 0, 0, 0x10, 0, 0x18, 0, 6, 0, 8, 0, 0x0c, 0, 0x10, 0, 5, 0, 0x14, 0, 0x10, 0, 0, 0, 0,
    1, 0x3d, 0, 0x58, 0, 0, 0, 0x48, 0, 0, 0, 0x18, 0, 0, 0, 0x0c, 0, 0, 0, 8, 0, 8, 0, 0, 0, 6, 0,
    8, 0, 0, 0, 0, 0, 0x0e, 0, 1, 0, 0, 0, 0x0c, 0, 0, 0, 8, 0, 0x0c, 0, 8, 0, 6, 0, 8, 0, 0, 0, 0,
    0, 0xab, 0xff, 4, 0, 0, 0, 0x0b, 0, 0, 0, 0x30, 0x41, 0x5a, 0x64, 0x71, 9, 0x6b, 0x6f, 0x6c,
    0x67, 0x76, 0, 7, 0, 0, 0, 0xed, 0x74, 0x5d, 0xf8, 0xcf, 0x4d, 0xcc, 0, 0x19, 0, 0, 0, 0x7a,
    0x71, 0x22, 0xc3, 0xa4, 0x6c, 0x41, 0x6d, 0x61, 0xc3, 0xb6, 0x73, 0x79, 0x20, 0x6d, 0x0a, 0x0a,
    0x71, 0xc3, 0xbc, 0x5c, 0x0a, 0x7a, 0x59, 0x73, 0, 0, 0,
];

const FEW_SLOTS: [usize; 3] = [0, 1, 2];

const ALL_SLOTS: [usize; 9] = [0, 1, 2, 3, 4, 5, 6, 7, 8];

// Doubled, with a little more, they overflow 16 or 64 bits.
const FAR_SLOTS: [usize; 7] = [
    32767,
    32768,
    usize::MAX / 2 - 1,
    usize::MAX / 2,
    usize::MAX / 2 + 1,
    usize::MAX - 1,
    usize::MAX,
];

fn number_agrees<'buf, T: TableRead<'buf> + Into<i128>>(
    slice: SliceWithStartOffset<'buf>,
    f: usize,
    plain: Option<i128>,
) -> bool {
    same_number(T::from_buffer(slice, f), plain)
}

fn unsigned_agree(slice: SliceWithStartOffset<'_>, f: usize) -> bool {
    let (bytes, at) = (slice.as_slice(), f as i128);
    number_agrees::<u8>(slice, f, unsigned(bytes, at, 1))
        && number_agrees::<u16>(slice, f, unsigned(bytes, at, 2))
        && number_agrees::<u32>(slice, f, unsigned(bytes, at, 4))
        && number_agrees::<u64>(slice, f, unsigned(bytes, at, 8))
}

fn signed_agree(slice: SliceWithStartOffset<'_>, f: usize) -> bool {
    let (bytes, at) = (slice.as_slice(), f as i128);
    number_agrees::<i8>(slice, f, signed(bytes, at, 1))
        && number_agrees::<i16>(slice, f, signed(bytes, at, 2))
        && number_agrees::<i32>(slice, f, signed(bytes, at, 4))
        && number_agrees::<i64>(slice, f, signed(bytes, at, 8))
}

fn truths_agree(slice: SliceWithStartOffset<'_>, f: usize) -> bool {
    let plain = number(slice.as_slice(), f as i128, 1);
    match <bool as TableRead<'_>>::from_buffer(slice, f) {
        Ok(truth) => matches!(plain, Some(number) if truth == (number != 0)),
        Err(kind) => plain.is_none() && matches!(kind, ErrorKind::InvalidOffset),
    }
}

fn numbers_agree(slice: SliceWithStartOffset<'_>, f: usize) -> bool {
    unsigned_agree(slice, f) && signed_agree(slice, f) && truths_agree(slice, f)
}

fn heads_agree(slice: SliceWithStartOffset<'_>, f: usize) -> bool {
    let start = slice.offset_from_start() as i128;
    match (
        array_from_buffer(slice, f),
        head(slice.as_slice(), f as i128),
    ) {
        (Ok((items, count)), Some(plain)) => {
            items.offset_from_start() as i128 == start.wrapping_add(plain.items)
                && count as u64 == plain.count
        }
        (Err(ErrorKind::InvalidOffset), None) => true,
        _ => false,
    }
}

fn all_agree(bytes: &[u8], f: usize, start: u32, slots: &[usize]) -> bool {
    let slice = SliceWithStartOffset::new(bytes, start as usize);
    numbers_agree(slice, f)
        && heads_agree(slice, f)
        && lists_agree(slice, f)
        && tables_agree(slice, f, slots)
}

fn prefixes_agree(bytes: &[u8], slots: &[usize]) -> Result<(), (usize, usize)> {
    let far = [usize::MAX / 2, usize::MAX - 8, usize::MAX - 1, usize::MAX];
    for len in 0..=bytes.len() {
        for f in (0..34).chain(far) {
            let agree = all_agree(&bytes[..len], f, 0, slots)
                && all_agree(&bytes[..len], f, 1000, &FAR_SLOTS);
            if !agree {
                return Err((len, f));
            }
        }
    }
    Ok(())
}

fn changes_agree(bytes: &mut [u8], slots: &[usize]) -> Result<(), (usize, usize)> {
    for at in 0..bytes.len() {
        let byte = bytes[at];
        for new in 0..=255u8 {
            bytes[at] = new;
            if !all_agree(bytes, 0, 1000, slots) || !all_agree(bytes, at, 0, &[0]) {
                return Err((at, new as usize));
            }
        }
        bytes[at] = byte;
    }
    Ok(())
}

type Differences = [Result<(), (usize, usize)>; 2];

fn differences<const N: usize>(bytes: &[u8; N], slots: &[usize]) -> Differences {
    let mut changed = *bytes;
    [
        prefixes_agree(bytes, slots),
        changes_agree(&mut changed, slots),
    ]
}

fn all_differences() -> [Differences; 5] {
    [
        differences(&WEAPON, &FEW_SLOTS),
        differences(&ORC, &ALL_SLOTS),
        differences(&LOOT, &FEW_SLOTS),
        differences(&OF_OTHERS, &FEW_SLOTS),
        differences(&RAIDER, &ALL_SLOTS),
    ]
}

fn differences_without_memory(alloc: Global) -> Result<(bool, [Differences; 5]), AllocError> {
    let mut held: Vec<Vec<u8>> = Vec::with_capacity(alloc, 262144)?;
    let exhausted = exhaust(alloc, &mut held)?;
    let found = all_differences();
    drop(held);
    Ok((exhausted, found))
}

#[test]
fn damaged_buffers_without_memory(rt: HostRuntime) -> Result<(), Fail> {
    let (exhausted, found) = differences_without_memory(rt.alloc())?;
    if !exhausted {
        println!(rt; "memory was left: this test does not apply")?;
    }
    for differences in found {
        assert!(rt; matches!(differences, [Ok(()), Ok(())]), "{differences:?}");
    }
    Ok(())
}
