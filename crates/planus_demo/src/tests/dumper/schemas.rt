use super::{SchemaParts, TableParts, check_dump};
use planus_dump::{DumpError, Item, Kind, Number};
use planus_testing::Test;
use std::test::Fail;

fn check_bad(test: &Test<'_>, parts: SchemaParts<'_>) {
    check_dump(test, parts, &[0, 0, 0], 9, Err(DumpError::BadSchema));
}

const BAD_TABLES: &[&[TableParts<'static>]] = &[
    &[],
    &[("", &[])],
    &[("A-B", &[])],
    &[("\u{c4}", &[])],
    &[("A", &[(0, "", Kind::One(Item::Number(Number::U8)))])],
    &[("A", &[(0, "a b", Kind::One(Item::Number(Number::U8)))])],
    &[("A", &[(0, "a", Kind::One(Item::Table(1)))])],
    &[("A", &[(0, "a", Kind::List(Item::Table(1)))])],
];

#[test]
fn bad_tables(rt: HostRuntime) -> Result<(), Fail> {
    let test = Test::new(&rt);
    for tables in BAD_TABLES {
        check_bad(&test, (tables, &[]));
    }
    test.end()
}

const ONE: &[TableParts<'static>] = &[("A", &[(0, "a", Kind::Union(1))])];

const MANY: &[TableParts<'static>] = &[("A", &[(0, "a", Kind::UnionVector(1))])];

const GOOD: &[TableParts<'static>] = &[("A_1z", &[(0, "_", Kind::Union(0))])];

const BAD_UNIONS: &[(&[TableParts<'static>], &[(u8, usize)])] = &[
    (ONE, &[(1, 0)]),
    (MANY, &[(1, 0)]),
    (GOOD, &[(0, 0)]),
    (GOOD, &[(1, 0), (2, 0), (1, 0)]),
    (GOOD, &[(1, 1)]),
];

const GOOD_UNIONS: SchemaParts<'static> = (GOOD, &[&[(1, 0), (2, 0)]]);

#[test]
fn unions(rt: HostRuntime) -> Result<(), Fail> {
    let test = Test::new(&rt);
    for (tables, variants) in BAD_UNIONS {
        check_bad(&test, (tables, &[variants]));
    }
    check_dump(
        &test,
        GOOD_UNIONS,
        &[0, 0, 0],
        9,
        Ok(&["root ! Invalid offset"]),
    );
    test.end()
}
