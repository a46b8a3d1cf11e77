//! Values at both ends of each limit.

ghost use Rattle.std.proofs.Common.{lit≤, lit<};
ghost use Rattle.std.specs.Prelude.{◌≡◌, length, refl};
ghost use Rattle.planus_back.proofs.Multiples.{divides_multiple};
ghost use Rattle.planus_read.specs.Values.{plain};
ghost use Rattle.planus_write.specs.lemmas.FieldItemLaws.{plain_is_item};

use super::kinds::{Pair, check_slot};
use super::tables::One;
use planus::table_reader::Table;
use planus::{
    BuildError, Builder, Caches, Primitive, SliceWithStartOffset, TableWriter, TaggedPlace,
    WriteAsPrimitive,
};
use planus_back::{Promises, TooLarge};
use planus_read::errors::ErrorKind;
use planus_testing::{Test, check, check_bytes, check_eq, in_builder};
use std::marker::PhantomData;
use std::test::Fail;

struct Largest;

impl Primitive for Largest {
    ghost ALIGNMENT = { 1 };

    ghost SIZE = { 65531 };

    ghost is_layout = { record {
      power = (0, lit≤ tt, refl);
      positive = lit< tt;
      multiple = divides_multiple 1 65531 65531 refl;
    } };

    ghost is_small = { lit≤ tt };

    const ALIGNMENT: usize = 1;

    const SIZE: usize = 65531;
}

#[derive(Clone, Copy)]
struct Bytes<'a> {
    bytes: &'a [u8],
    ghost sized: { length bytes.now ≡ 65531 },
}

impl<'a> WriteAsPrimitive<Largest> for Bytes<'a> {
    ghost reach = { λ item. 0 };

    ghost encoding = { λ item place. item.bytes.now };

    ghost field = { λ item. plain (record { bytes = item.bytes.now; alignment = 1 }) };

    fn write(&self, bytes: &mut [u8], _place: u32) {
        bytes.copy_from_slice(self.bytes);
    }

    ghost is_item = { λ item. plain_is_item 65531 1 item.bytes.now item.sized (record {
      power = (0, lit≤ tt, refl);
      positive = lit< tt;
      multiple = divides_multiple 1 65531 65531 refl;
    }) };
}

fn put_largest<'b>(builder: &'b mut Builder, field: Bytes<'_>) -> Result<&'b [u8], BuildError> {
    let mut writer: TableWriter<6> = TableWriter::default();
    writer.write_entry::<Largest>(0);
    let _marker: PhantomData<Largest> = PhantomData;
    writer.finish(builder, &One { field, _marker })?;
    let root = builder.current_offset::<()>();
    builder.finish(root, None)
}

fn check_largest_bytes(test: &Test<'_>, bytes: &[u8], item: &[u8]) {
    check_eq(test, &bytes.len(), &65546, "the largest table's bytes");
    check(
        test,
        bytes.starts_with(b"\x04\0\0\0\0\0\xff\xff"),
        "its front",
    );
    check(
        test,
        bytes.ends_with(b"\0\x06\0\xff\xff\x04\0"),
        "its vtable",
    );
    match bytes.get(8..65539) {
        Some(object) => check_bytes(test, object, item, "its object"),
        None => check(test, false, "its object"),
    }
}

fn check_largest(test: &Test<'_>, builder: &mut Builder) -> Result<(), BuildError> {
    let item = vec![in test.alloc(); 0xa5; 65531]?;
    let item = item.as_slice();
    if item.len() != 65531 {
        check_eq(test, &item.len(), &65531, "the largest object");
        return Ok(());
    }
    check_largest_bytes(test, put_largest(builder, Bytes { bytes: item })?, item);
    Ok(())
}

#[test]
fn the_largest_object(rt: HostRuntime) -> Result<(), Fail> {
    let test = Test::new(&rt);
    in_builder(&test, Caches::all(), check_largest);
    test.end()
}

fn put_greatest_slot(builder: &mut Builder) -> Result<&[u8], BuildError> {
    let mut writer: TableWriter<65534> = TableWriter::default();
    writer.write_entry::<u8>(32764);
    let _marker: PhantomData<u8> = PhantomData;
    writer.finish(
        builder,
        &One {
            field: 5u8,
            _marker,
        },
    )?;
    let root = builder.current_offset::<()>();
    builder.finish(root, None)
}

fn check_slots(test: &Test<'_>, bytes: &[u8]) {
    match Table::from_buffer(SliceWithStartOffset::new(bytes, 0), 0) {
        Ok(table) => {
            check_slot(test, table, 32764, Some(5u8), "the greatest slot");
            check_slot::<u8>(test, table, 32765, None, "the slot behind it");
        }
        Err(kind) => check_eq(test, &Some(kind), &None, "a table of 32765 slots"),
    }
}

fn check_greatest_slot(test: &Test<'_>, builder: &mut Builder) -> Result<(), BuildError> {
    let front = b"\x04\0\0\0\xfa\xff\xff\xff\x05\0\xfe\xff\x05\0";
    let bytes = put_greatest_slot(builder)?;
    check_eq(test, &bytes.len(), &65544, "a table of 32765 slots");
    check(test, bytes.starts_with(front), "its front");
    check_slots(test, bytes);
    Ok(())
}

#[test]
fn the_greatest_slot(rt: HostRuntime) -> Result<(), Fail> {
    let test = Test::new(&rt);
    in_builder(&test, Caches::all(), check_greatest_slot);
    test.end()
}

const NUMBER: [u8; 16] = [4, 0, 0, 0, 0xfa, 0xff, 0xff, 0xff, 24, 0, 6, 0, 6, 0, 4, 0];

fn has_no_union(table: Table<'_>, slot: usize) -> bool {
    matches!(
        table.access_union::<TaggedPlace<'_>>(slot, "T", "m"),
        Ok(None)
    )
}

fn has_no_unions(table: Table<'_>, slot: usize) -> bool {
    matches!(
        table.access_union_vector::<Pair<'_>>(slot, "T", "m"),
        Ok(None)
    )
}

fn check_far_slot(test: &Test<'_>, slot: usize, row: &str) {
    match Table::from_buffer(SliceWithStartOffset::new(&NUMBER, 0), 0) {
        Ok(table) => {
            check_slot(test, table, 0, Some(24u16), "the first slot");
            check_slot::<u16>(test, table, slot, None, row);
            check(test, has_no_union(table, slot), row);
            check(test, has_no_unions(table, slot), row);
        }
        Err(kind) => check_eq(test, &Some(kind), &None, row),
    }
}

#[test]
fn slots_far_behind_a_vtable(rt: HostRuntime) -> Result<(), Fail> {
    let test = Test::new(&rt);
    let half = usize::MAX / 2;
    check_far_slot(&test, usize::MAX, "the last slot");
    check_far_slot(&test, half, "half of it");
    check_far_slot(&test, half + 1, "half of it and one");
    test.end()
}

fn padding(size: usize) -> Result<usize, TooLarge> {
    match Promises::new().request(2147483647, size, 0) {
        Ok((_, padding)) => Ok(padding),
        Err(TooLarge) => Err(TooLarge),
    }
}

// At the greatest place there is no room for one more byte.
#[test]
fn promises_at_the_greatest_place(rt: HostRuntime) -> Result<(), Fail> {
    let test = Test::new(&rt);
    check_eq(&test, &padding(0), &Ok(0), "no byte");
    check_eq(&test, &padding(1), &Err(TooLarge), "one byte");
    test.end()
}

// The weapon Axe with one byte changed.
fn weapon(at: usize, byte: u8) -> [u8; 32] {
    let mut bytes = *b"\x04\0\0\0\xf4\xff\xff\xff\x10\0\0\0\x18\0\0\0\
        \x08\0\x0a\0\x04\0\x08\0\x03\0\0\0Axe\0";
    if at < 32 {
        bytes[at] = byte;
    }
    bytes
}

fn root_error(bytes: &[u8]) -> Option<ErrorKind> {
    Table::from_buffer(SliceWithStartOffset::new(bytes, 0), 0).err()
}

#[test]
fn damaged_roots_of_a_weapon(rt: HostRuntime) -> Result<(), Fail> {
    let test = Test::new(&rt);
    for (at, byte, kind, row) in [
        (0, 0x20, ErrorKind::InvalidOffset, "byte 0 made 0x20"),
        (0, 0x21, ErrorKind::InvalidOffset, "byte 0 made 0x21"),
        (4, 0xf5, ErrorKind::InvalidLength, "byte 4 made 0xf5"),
        (7, 0x00, ErrorKind::InvalidOffset, "byte 7 made 0"),
        (
            16,
            0x09,
            ErrorKind::InvalidVtableLength { length: 9 },
            "byte 16 made 9",
        ),
    ] {
        check_eq(&test, &root_error(&weapon(at, byte)), &Some(kind), row);
    }
    test.end()
}

#[test]
fn a_weapon_with_a_shorter_vtable(rt: HostRuntime) -> Result<(), Fail> {
    let test = Test::new(&rt);
    let bytes = weapon(16, 0x06);
    match Table::from_buffer(SliceWithStartOffset::new(&bytes, 0), 0) {
        Ok(weapon) => {
            check_slot(&test, weapon, 0, Some("Axe"), "the name");
            check_slot::<i16>(&test, weapon, 1, None, "the damage");
        }
        Err(kind) => check_eq(&test, &Some(kind), &None, "a weapon"),
    }
    test.end()
}
