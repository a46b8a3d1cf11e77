use super::{FieldParts, SchemaParts, check_dump, schema_of};
use planus_dump::{DumpError, Item, Kind, dump};
use planus_testing::{Test, check, check_eq};
use std::alloc::{AllocError, Global};
use std::test::Fail;

const NODE: &[FieldParts<'static>] = &[(0, "next", Kind::One(Item::Table(0)))];

const TWIN: &[FieldParts<'static>] = &[
    (0, "left", Kind::One(Item::Table(0))),
    (1, "right", Kind::One(Item::Table(0))),
];

const NODES: SchemaParts<'static> = (&[("Node", NODE)], &[]);

const TWINS: SchemaParts<'static> = (&[("Twin", TWIN)], &[]);

// Fields at 4 and at 8; the last table has none.
const VTABLES: &[u8] = b"\x08\0\x0c\0\x04\0\x08\0\x04\0\x04\0";

// Both fields of each table lead to the next one.
fn chain(alloc: Global, tables: u32) -> Result<Vec<u8>, AllocError> {
    let mut bytes = Vec::new(alloc);
    push_chain(&mut bytes, tables)?;
    Ok(bytes)
}

fn push_word(bytes: &mut Vec<u8>, word: u32) -> Result<(), AllocError> {
    bytes.extend_from_slice(&word.to_le_bytes())
}

fn push_chain(bytes: &mut Vec<u8>, tables: u32) -> Result<(), AllocError> {
    push_word(bytes, 4)?;
    for i in 0..tables {
        let behind = 12u32.wrapping_mul(tables - i).wrapping_add(4);
        push_word(bytes, 0u32.wrapping_sub(behind))?;
        push_word(bytes, 8)?;
        push_word(bytes, 4)?;
    }
    push_word(bytes, 0u32.wrapping_sub(12))?;
    bytes.extend_from_slice(VTABLES)
}

fn check_chain(
    test: &Test<'_>,
    tables: u32,
    want: Result<usize, DumpError>,
    row: &str,
) -> Result<(), AllocError> {
    let bytes = chain(test.alloc(), tables)?;
    let schema = schema_of(test.alloc(), NODES)?;
    let answer = match dump(test.alloc(), &schema, bytes.as_slice(), 10000) {
        Ok(lines) => Ok(lines.len()),
        Err(error) => Err(error),
    };
    check_eq(test, &answer, &want, row);
    Ok(())
}

#[test]
fn chains(rt: HostRuntime) -> Result<(), Fail> {
    let test = Test::new(&rt);
    let rows = [
        (0, Ok(1), "one table"),
        (63, Ok(64), "64 tables"),
        (64, Err(DumpError::TooDeep), "65 tables"),
    ];
    for (tables, want, row) in rows {
        check(&test, check_chain(&test, tables, want, row).is_ok(), row);
    }
    test.end()
}

fn check_dump_of_chain(
    test: &Test<'_>,
    parts: SchemaParts<'_>,
    tables: u32,
    budget: usize,
    want: Result<&[&str], DumpError>,
) {
    match chain(test.alloc(), tables) {
        Ok(bytes) => check_dump(test, parts, bytes.as_slice(), budget, want),
        Err(_) => check(test, false, "memory for a chain"),
    }
}

#[test]
fn a_short_chain(rt: HostRuntime) -> Result<(), Fail> {
    let test = Test::new(&rt);
    let lines = ["root: table Node", "root.next: table Node"];
    check_dump_of_chain(&test, NODES, 1, 2, Ok(&lines));
    test.end()
}

#[test]
fn a_table_named_twice_by_each_of_40(rt: HostRuntime) -> Result<(), Fail> {
    let test = Test::new(&rt);
    check_dump_of_chain(&test, TWINS, 40, 10000, Err(DumpError::TooManyLines));
    test.end()
}
