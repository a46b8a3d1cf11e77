//! The worked tables, with expected values written out.

use super::{UNIONS, WEAPON, check_fails_with};
use planus_read::errors::ErrorKind;
use planus_read::table_reader::Table;
use planus_read::{
    Place, SliceWithStartOffset, TableRead, TableReadUnionVector, TaggedPlace, array_from_buffer,
};
use planus_testing::{Test, check, check_eq, check_fails};
use std::test::Fail;

const U16_TABLE: [u8; 16] = [4, 0, 0, 0, 0xfa, 0xff, 0xff, 0xff, 24, 0, 6, 0, 6, 0, 4, 0];

const U16_TABLE_VTABLE_FIRST: [u8; 18] = [12, 0, 0, 0, 0, 0, 6, 0, 6, 0, 4, 0, 6, 0, 0, 0, 24, 0];

const HALF_UNION_VECTOR: [u8; 20] = [
    4, 0, 0, 0, 0xf8, 0xff, 0xff, 0xff, 0, 0, 0, 0, 8, 0, 8, 0, 4, 0, 0, 0,
];

const TAG_PAST_END: [u8; 16] = [
    4, 0, 0, 0, 0xfc, 0xff, 0xff, 0xff, 8, 0, 4, 0, 0xff, 0, 0, 0,
];

#[derive(Clone, Copy)]
pub struct Heads<'buf> {
    pub tags: (SliceWithStartOffset<'buf>, u32),
    pub values: (SliceWithStartOffset<'buf>, u32),
}

impl<'buf> TableReadUnionVector<'buf> for Heads<'buf> {
    ghost use Rattle.std.specs.Prelude.{⊤};

    ghost reads = { λ S start f g r. ⊤ };

    fn from_buffer(
        buffer: SliceWithStartOffset<'buf>,
        tags: usize,
        values: usize,
    ) -> Result<Heads<'buf>, ErrorKind> {
        Ok(Heads {
            tags: array_from_buffer(buffer, tags)?,
            values: array_from_buffer(buffer, values)?,
        })
    }
}

fn table_at(bytes: &[u8]) -> Result<Table<'_>, ErrorKind> {
    Table::from_buffer(SliceWithStartOffset::new(bytes, 0), 0)
}

fn check_bad_table(test: &Test<'_>, bytes: &[u8], want: ErrorKind, row: &str) {
    check_eq(test, &table_at(bytes).err(), &Some(want), row);
}

const VTABLE_OF_THREE_BYTES: [u8; 10] = [4, 0, 0, 0, 0xfc, 0xff, 0xff, 0xff, 3, 0];

pub fn check_bad_tables(test: &Test<'_>) {
    let odd = ErrorKind::InvalidVtableLength { length: 3 };
    check_bad_table(
        test,
        &[4, 0, 0, 0],
        ErrorKind::InvalidOffset,
        "a reference to the end",
    );
    check_bad_table(test, &[0, 0, 0], ErrorKind::InvalidOffset, "three bytes");
    check_bad_table(test, &VTABLE_OF_THREE_BYTES, odd, "a vtable of three bytes");
}

pub fn check_weapon(test: &Test<'_>) {
    let Ok(table) = table_at(&WEAPON) else {
        return check(test, false, "the weapon");
    };
    let name = table.access::<&str>(0, "Weapon", "name");
    let required = table.access_required::<&str>(0, "Weapon", "name");
    check_eq(test, &name, &Ok(Some("Axe")), "the name");
    check_eq(test, &required, &Ok("Axe"), "the required name");
    check_damage(test, table);
}

fn check_damage(test: &Test<'_>, table: Table<'_>) {
    let damage = table.access::<i16>(1, "Weapon", "damage");
    let required = table.access_required::<u16>(1, "Weapon", "damage");
    let none = table.access::<&str>(2, "Weapon", "none");
    let missing = table.access_required::<u16>(9, "Weapon", "none");
    check_eq(test, &damage, &Ok(Some(24)), "the damage");
    check_eq(test, &required, &Ok(24), "the required damage");
    check_eq(test, &none, &Ok(None), "no third field");
    check_fails_with(test, missing, ErrorKind::MissingRequired, "no tenth field");
}

fn check_number(test: &Test<'_>, table: Table<'_>, slot: usize, want: Option<u16>, row: &str) {
    check_eq(test, &table.access::<u16>(slot, "T", "n"), &Ok(want), row);
}

fn has_no_union(table: Table<'_>, slot: usize) -> bool {
    matches!(
        table.access_union::<TaggedPlace<'_>>(slot, "T", "u"),
        Ok(None)
    )
}

fn has_no_vector(table: Table<'_>) -> bool {
    matches!(
        table.access_union_vector::<Heads<'_>>(0, "T", "v"),
        Ok(None)
    )
}

fn check_bad_union(test: &Test<'_>, table: Table<'_>, want: ErrorKind, row: &str) {
    check_fails_with(
        test,
        table.access_union::<TaggedPlace<'_>>(0, "T", "u"),
        want,
        row,
    );
}

pub fn check_u16_table(test: &Test<'_>) {
    let (Ok(table), Ok(behind)) = (table_at(&U16_TABLE), table_at(&U16_TABLE_VTABLE_FIRST)) else {
        return check(test, false, "tables of a number");
    };
    check_number(test, table, 0, Some(24), "the number");
    check_number(test, table, 1, None, "no second number");
    check_number(
        test,
        table,
        usize::MAX,
        None,
        "no number at the greatest slot",
    );
    check_number(test, behind, 0, Some(24), "the number behind its vtable");
    check_unions_of_u16_table(test, table);
}

fn check_unions_of_u16_table(test: &Test<'_>, table: Table<'_>) {
    let odd = ErrorKind::InvalidVtableLength { length: 6 };
    check(test, has_no_union(table, 1), "no union at slot 1");
    check(
        test,
        has_no_union(table, usize::MAX),
        "no union at the greatest slot",
    );
    check_bad_union(test, table, odd, "a tag with no value");
    check(test, has_no_vector(table), "no vector of unions");
}

fn check_bad_vector(test: &Test<'_>, table: Table<'_>, row: &str) {
    let vector = table.access_union_vector::<Heads<'_>>(0, "T", "v");
    check_fails_with(test, vector, ErrorKind::InvalidOffset, row);
}

pub fn check_half_a_union_vector(test: &Test<'_>) {
    let Ok(table) = table_at(&HALF_UNION_VECTOR) else {
        return check(test, false, "half a vector of unions");
    };
    let union = table.access_union_required::<TaggedPlace<'_>>(0, "T", "u");
    check(test, has_no_union(table, 0), "no union in half a vector");
    check_fails_with(test, union, ErrorKind::MissingRequired, "no required union");
    check_bad_vector(test, table, "half a vector of unions");
}

pub fn check_fields_past_the_end(test: &Test<'_>) {
    let Ok(table) = table_at(&TAG_PAST_END) else {
        return check(test, false, "fields past the end");
    };
    let number = table.access::<u8>(0, "T", "n");
    let vector = table.access_union_vector_required::<Heads<'_>>(2, "T", "v");
    check_bad_union(test, table, ErrorKind::InvalidOffset, "a tag past the end");
    check_bad_vector(test, table, "tags past the end");
    check_fails_with(
        test,
        number,
        ErrorKind::InvalidOffset,
        "a number past the end",
    );
    check_eq(
        test,
        &table.access::<u8>(1, "T", "n"),
        &Ok(None),
        "no number",
    );
    check_fails_with(
        test,
        vector,
        ErrorKind::MissingRequired,
        "no required vector",
    );
}

fn check_hi(test: &Test<'_>, union: TaggedPlace<'_>, row: &str) {
    check_eq(test, &union.tag(), &1, row);
    check_eq(test, &union.place().read::<&str>(), &Ok("Hi"), row);
}

pub fn check_union(test: &Test<'_>) {
    let Ok(table) = table_at(&UNIONS) else {
        return check(test, false, "the table of unions");
    };
    match table.access_union::<TaggedPlace<'_>>(0, "T", "u") {
        Ok(Some(union)) => check_hi(test, union, "the union"),
        _ => check(test, false, "the union"),
    }
    match table.access_union_required::<TaggedPlace<'_>>(0, "T", "u") {
        Ok(union) => check_hi(test, union, "the required union"),
        Err(_) => check(test, false, "the required union"),
    }
}

fn check_value(test: &Test<'_>, values: SliceWithStartOffset<'_>, offset: usize, text: &str) {
    match <Place<'_> as TableRead<'_>>::from_buffer(values, offset) {
        Ok(place) => check_eq(test, &place.read::<&str>(), &Ok(text), text),
        Err(_) => check(test, false, text),
    }
}

fn check_heads(test: &Test<'_>, heads: Heads<'_>) {
    let ((tags, tag_count), (values, value_count)) = (heads.tags, heads.values);
    check_eq(test, &tag_count, &2, "the count of tags");
    check_eq(test, &value_count, &2, "the count of values");
    check_eq(test, &tags.offset_from_start(), &48, "where the tags are");
    check_eq(
        test,
        &values.offset_from_start(),
        &56,
        "where the values are",
    );
    check(test, tags.as_slice().starts_with(&[1, 2]), "the tags");
    check_value(test, values, 0, "A");
    check_value(test, values, 4, "B");
}

fn has_two_unions(table: Table<'_>) -> bool {
    matches!(
        table.access_union_vector::<Heads<'_>>(2, "T", "v"),
        Ok(Some(_))
    )
}

pub fn check_two_unions(test: &Test<'_>) {
    let Ok(table) = table_at(&UNIONS) else {
        return check(test, false, "the table of unions");
    };
    match table.access_union_vector_required::<Heads<'_>>(2, "T", "v") {
        Ok(heads) => check_heads(test, heads),
        Err(_) => check(test, false, "the required vector of unions"),
    }
    check(test, has_two_unions(table), "the vector of unions");
}

fn check_bad_name(test: &Test<'_>, bytes: &[u8]) {
    let text = "In <Weapon@4>::name(): Missing null terminator";
    match table_at(bytes) {
        Ok(table) => check_fails(test, table.access::<&str>(0, "Weapon", "name"), text),
        Err(_) => check(test, false, text),
    }
}

// The name of the type may have any lifetime.
fn check_no_price(test: &Test<'_>, weapon: Table<'_>, type_: &str) {
    let text = "In <Weapon2@4>::price(): Missing required field";
    check_fails(test, weapon.access_required::<u8>(2, type_, "price"), text);
}

fn check_bad_slots(test: &Test<'_>) {
    let (Ok(weapon), Ok(past_end)) = (table_at(&WEAPON), table_at(&TAG_PAST_END)) else {
        return check(test, false, "tables");
    };
    let union = past_end.access_union::<TaggedPlace<'_>>(0, "T", "u");
    check_no_price(test, weapon, "Weapon2");
    check_fails(test, union, "In <T@4>::u(): Invalid offset");
}

#[test]
fn errors_of_slots(rt: HostRuntime) -> Result<(), Fail> {
    let test = Test::new(&rt);
    let mut last_byte_one = WEAPON;
    last_byte_one[31] = 1;
    for bytes in [&last_byte_one, &WEAPON[..31], &WEAPON[..30]] {
        check_bad_name(&test, bytes);
    }
    check_bad_slots(&test);
    test.end()
}
