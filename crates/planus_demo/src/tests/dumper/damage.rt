//! The walk goes on after each kind of damage.

use super::{FieldParts, SchemaParts, check_dump};
use planus_dump::{Item, Kind, Number};
use planus_testing::Test;
use std::test::Fail;

// In slot order: a number past the end; a string that isn't UTF-8; one without a zero byte; bytes
// past the end; an unknown tag; two tags and one reference; a union whose vtable, of size 22, has
// the first slot alone.
const FIELDS: &[FieldParts<'static>] = &[
    (0, "number", Kind::One(Item::Number(Number::U32))),
    (1, "text", Kind::One(Item::Text)),
    (2, "open", Kind::One(Item::Text)),
    (3, "bytes", Kind::Bytes),
    (4, "one", Kind::Union(0)),
    (6, "many", Kind::UnionVector(0)),
    (8, "half", Kind::Union(0)),
    (3, "list", Kind::List(Item::Text)),
];

const PARTS: SchemaParts<'static> = (&[("Bad", FIELDS)], &[&[(1, 0)]]);

const DAMAGED: &[u8] = b"\x1a\0\0\0\x16\0\0\0\xa0\x0f\x04\0\x08\0\x0c\0\x10\0\x11\0\
      \x15\0\x19\0\x1d\0\x16\0\0\0\x1a\0\0\0\x1c\0\0\0\x1e\0\
      \0\0\x09\x1d\0\0\0\x1d\0\0\0\x1f\0\0\0\x01\x01\0\0\0\
      \xff\0\x01\0\0\0A\x01c\0\0\0\0\0\0\0\x02\0\0\0\
      \x01\x01\x01\0\0\0\0\0\0\0";

#[test]
fn every_damage(rt: HostRuntime) -> Result<(), Fail> {
    let lines = [
        "root: table Bad",
        "root.number ! Invalid offset",
        "root.text ! Invalid utf-8",
        "root.open ! Missing null terminator",
        "root.bytes ! Invalid length",
        "root.one ! Unknown union (tag = 9)",
        "root.many ! Mismatched lengths between tag and value vectors. \
         Length of tags = 2, length of values = 1",
        "root.half ! Invalid vtable length (length = 22)",
        "root.list ! Invalid length",
    ];
    let test = Test::new(&rt);
    check_dump(&test, PARTS, DAMAGED, 9, Ok(&lines));
    test.end()
}
