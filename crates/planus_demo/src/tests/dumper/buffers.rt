use super::{FieldParts, MONSTER, SchemaParts, WEAPON, check_dump};
use planus_dump::{DumpError, Item, Kind, Number};
use planus_testing::Test;
use std::test::Fail;

// The weapon Axe with a damage of 24; and with a last byte of 1.
const AXE: &[u8] =
    b"\x04\0\0\0\xf4\xff\xff\xff\x10\0\0\0\x18\0\0\0\x08\0\x0a\0\x04\0\x08\0\x03\0\0\0Axe\0";

const UNENDED: &[u8] =
    b"\x04\0\0\0\xf4\xff\xff\xff\x10\0\0\0\x18\0\0\0\x08\0\x0a\0\x04\0\x08\0\x03\0\0\0Axe\x01";

// An orc with hp 80, a vector of that weapon, and that weapon equipped.
const ORC: &[u8] = b"\x04\0\0\0\xec\xff\xff\xff(\0\0\0\x1c\0\0\0(\0\0\0\
      P\0\x01\0\x10\0\x13\0\x10\0\x04\0\0\0\x08\0\x12\0\x0c\0\
      \x01\0\0\0\x0c\0\0\0\x03\0\0\0Orc\0\xf4\xff\xff\xff\
      \x10\0\0\0\x18\0\0\0\x08\0\x0a\0\x04\0\x08\0\x03\0\0\0\
      Axe\0";

// The second tag of the union vector is unknown.
const KINDS: &[FieldParts<'static>] = &[
    (0, "u8", Kind::One(Item::Number(Number::U8))),
    (1, "i8", Kind::One(Item::Number(Number::I8))),
    (2, "u16", Kind::One(Item::Number(Number::U16))),
    (3, "u32", Kind::One(Item::Number(Number::U32))),
    (4, "u64", Kind::One(Item::Number(Number::U64))),
    (5, "i16", Kind::One(Item::Number(Number::I16))),
    (6, "i32", Kind::One(Item::Number(Number::I32))),
    (7, "i64", Kind::One(Item::Number(Number::I64))),
    (8, "flag", Kind::One(Item::Bool)),
    (9, "text", Kind::One(Item::Text)),
    (10, "bytes", Kind::Bytes),
    (11, "none", Kind::Bytes),
    (12, "u16s", Kind::List(Item::Number(Number::U16))),
    (13, "u32s", Kind::List(Item::Number(Number::U32))),
    (14, "u64s", Kind::List(Item::Number(Number::U64))),
    (15, "i16s", Kind::List(Item::Number(Number::I16))),
    (16, "i32s", Kind::List(Item::Number(Number::I32))),
    (17, "i64s", Kind::List(Item::Number(Number::I64))),
    (18, "flags", Kind::List(Item::Bool)),
    (19, "texts", Kind::List(Item::Text)),
    (20, "tables", Kind::List(Item::Table(0))),
    (21, "unions", Kind::UnionVector(0)),
    (23, "absent", Kind::One(Item::Text)),
];

const PARTS: SchemaParts<'static> = (&[("Empty", &[]), ("Kinds", KINDS)], &[&[(1, 0)]]);

const EVERY_KIND: &[u8] = b"8\0\0\04\0\0\0\x04\0\x05\0\x06\0\x08\0\x0c\0\x14\0\
      \x16\0\x1a\0\"\0#\0'\0+\0/\03\07\0;\0\
      ?\0C\0G\0K\0O\0S\0W\0\0\04\0\0\0\
      \x07\xfd\x01\x02p\x11\x01\0\0\0\0\0\0\x01\0\0\xfe\xff\x90\xee\
      \xfe\xff\0\0\0\0\0\xff\xff\xff\x018\0\0\0A\0\0\0C\
      \0\0\0C\0\0\0G\0\0\0K\0\0\0S\0\0\0U\
      \0\0\0Y\0\0\0a\0\0\0c\0\0\0~\0\0\0\x82\
      \0\0\0\x84\0\0\0\x08\0\0\0a\"b\\c\x0a\xc3\xa9\0\
      \x02\0\0\0\xde\xad\0\0\0\0\x02\0\0\0\x01\0\x02\0\x01\0\
      \0\0\x03\0\0\0\x01\0\0\0\xff\xff\xff\xff\xff\xff\xff\xff\x01\0\
      \0\0\xff\xff\x01\0\0\0\xfe\xff\xff\xff\x01\0\0\0\xfd\xff\xff\xff\
      \xff\xff\xff\xff\x02\0\0\0\x01\0\x02\0\0\0\x08\0\0\0\x0a\0\
      \0\0\x01\0\0\0x\0\0\0\0\0\0\x04\0\x04\0\x04\0\0\
      \0\x01\0\0\0\x1a\0\0\0\x02\0\0\0\x01\x09\x02\0\0\0\x0c\
      \0\0\0\x08\0\0\0\x04\0\x04\0\x04\0\0\0";

const EVERY_LINE: [&str; 38] = [
    "root: table Kinds",
    "root.u8 = 7",
    "root.i8 = -3",
    "root.u16 = 513",
    "root.u32 = 70000",
    "root.u64 = 1099511627776",
    "root.i16 = -2",
    "root.i32 = -70000",
    "root.i64 = -1099511627776",
    "root.flag = true",
    "root.text = \"a\\\"b\\\\c\\x0a\u{e9}\"",
    "root.bytes = bytes dead",
    "root.none = bytes",
    "root.u16s: list 2",
    "root.u16s[0] = 1",
    "root.u16s[1] = 2",
    "root.u32s: list 1",
    "root.u32s[0] = 3",
    "root.u64s: list 1",
    "root.u64s[0] = 18446744073709551615",
    "root.i16s: list 1",
    "root.i16s[0] = -1",
    "root.i32s: list 1",
    "root.i32s[0] = -2",
    "root.i64s: list 1",
    "root.i64s[0] = -3",
    "root.flags: list 2",
    "root.flags[0] = true",
    "root.flags[1] = false",
    "root.texts: list 2",
    "root.texts[0] = \"x\"",
    "root.texts[1] = \"\"",
    "root.tables: list 1",
    "root.tables[0]: table Empty",
    "root.unions: unions 2",
    "root.unions[0]: union 1",
    "root.unions[0]: table Empty",
    "root.unions[1] ! Unknown union (tag = 9)",
];

const WEAPONS: SchemaParts<'static> = (&[("Weapon", WEAPON)], &[]);

const MONSTERS: SchemaParts<'static> = (&[("Weapon", WEAPON), ("Monster", MONSTER)], &[&[(1, 0)]]);

const WEAPON_ROWS: &[(&[u8], &[&str])] = &[
    (
        AXE,
        &[
            "root: table Weapon",
            "root.name = \"Axe\"",
            "root.damage = 24",
        ],
    ),
    (
        UNENDED,
        &[
            "root: table Weapon",
            "root.name ! Missing null terminator",
            "root.damage = 24",
        ],
    ),
    (&[0, 0, 0], &["root ! Invalid offset"]),
];

#[test]
fn weapons(rt: HostRuntime) -> Result<(), Fail> {
    let test = Test::new(&rt);
    for (bytes, lines) in WEAPON_ROWS {
        check_dump(&test, WEAPONS, bytes, 3, Ok(lines));
    }
    test.end()
}

#[test]
fn a_monster(rt: HostRuntime) -> Result<(), Fail> {
    let test = Test::new(&rt);
    let lines = [
        "root: table Monster",
        "root.hp = 80",
        "root.name = \"Orc\"",
        "root.weapons: list 1",
        "root.weapons[0]: table Weapon",
        "root.weapons[0].name = \"Axe\"",
        "root.weapons[0].damage = 24",
        "root.equipped: union 1",
        "root.equipped: table Weapon",
        "root.equipped.name = \"Axe\"",
        "root.equipped.damage = 24",
    ];
    check_dump(&test, MONSTERS, ORC, 11, Ok(&lines));
    check_dump(&test, MONSTERS, ORC, 10, Err(DumpError::TooManyLines));
    test.end()
}

#[test]
fn every_kind(rt: HostRuntime) -> Result<(), Fail> {
    let test = Test::new(&rt);
    check_dump(&test, PARTS, EVERY_KIND, usize::MAX, Ok(&EVERY_LINE));
    test.end()
}
