use super::answers;
use super::long_scripts::{end_line, push_bytes, push_references, push_text, push_word};
use super::no_memory::check_without_memory;
use crate::mode::{field, schema};
use planus_dump::{FieldSchema, Item, Kind, Schema, TableSchema};
use planus_script::run::RunError;
use planus_testing::{Test, check, check_bytes, check_eq};
use std::alloc::{AllocError, Global};
use std::test::Fail;

fn dumped(
    alloc: Global,
    schema: &Schema,
    input: &[u8],
    printed: &mut Vec<u8>,
) -> Result<bool, RunError> {
    let mut reader = input;
    answers(alloc, Some(schema), &mut reader, printed)
}

fn check_dump(
    test: &Test<'_>,
    root: usize,
    input: &str,
    printed: &str,
    clean: bool,
) -> Result<(), AllocError> {
    let schema = schema(test.alloc(), root)?;
    let mut writer = Vec::new(test.alloc());
    let answer = dumped(test.alloc(), &schema, input.as_bytes(), &mut writer);
    check_eq(test, &answer, &Ok(clean), input);
    check_bytes(test, writer.as_slice(), printed.as_bytes(), input);
    Ok(())
}

const INPUTS: &[(usize, &str, &str, bool)] = &[
    (
        0,
        "04 00 00 00 f4 ff ff ff 10 00 00 00 18 00 00 00 \
        08 00 0a 00 04 00 08 00 03 00 00 00 41 78 65 00\n",
        "root: table Weapon\nroot.name = \"Axe\"\nroot.damage = 24\n",
        true,
    ),
    (
        0,
        "04 00 00 00 F4 FF FF FF 10 00 00 00 18 00 00 00 \
        08 00 0A 00 04 00 08 00 03 00 00 00 41 78 65 01",
        "root: table Weapon\nroot.name ! Missing null terminator\nroot.damage = 24\n",
        true,
    ),
    (1, "", "root ! Invalid offset\n", true),
    (1, "\n", "root ! Invalid offset\n", true),
    (1, "00 00 00", "root ! Invalid offset\n", true),
    (1, "00 0", "bad hex\n", false),
    (1, "00  00", "bad hex\n", false),
    (1, "00 0g\n", "bad hex\n", false),
    (2, "", "bad schema\n", false),
];

#[test]
fn inputs(rt: HostRuntime) -> Result<(), Fail> {
    let test = Test::new(&rt);
    for (root, input, printed, clean) in INPUTS {
        check(
            &test,
            check_dump(&test, *root, input, printed, *clean).is_ok(),
            input,
        );
    }
    test.end()
}

fn push_fields(alloc: Global, fields: &mut Vec<FieldSchema>) -> Result<(), AllocError> {
    fields.push(field(alloc, 0, "next", Kind::One(Item::Table(0)))?)?;
    fields.push(field(alloc, 1, "names", Kind::List(Item::Text))?)?;
    Ok(())
}

fn nodes(alloc: Global) -> Result<Schema, AllocError> {
    let mut fields = Vec::new(alloc);
    push_fields(alloc, &mut fields)?;
    let name = String::from_str(alloc, "Node")?;
    let mut tables = Vec::new(alloc);
    tables.push(TableSchema { name, fields })?;
    Ok(Schema {
        tables,
        unions: Vec::new(alloc),
        enums: Vec::new(alloc),
        structs: Vec::new(alloc),
        root: 0,
        tags_need_values: false,
    })
}

// n tables of 8 bytes, then the vtable, which the last has as its next one
fn push_chain(input: &mut Vec<u8>, tables: u32) -> Result<(), AllocError> {
    push_word(input, 4)?;
    for i in 0..tables {
        let behind = (tables - i).wrapping_mul(8);
        push_word(input, 0u32.wrapping_sub(behind) as usize)?;
        push_word(input, 4)?;
    }
    push_bytes(input, b"\x06\0\x08\0\x04\0")?;
    end_line(input)
}

fn push_names(input: &mut Vec<u8>, names: usize, letters: usize) -> Result<(), AllocError> {
    push_bytes(
        input,
        b"\x04\0\0\0\xf8\xff\xff\xff\x0c\0\0\0\x08\0\x08\0\0\0\x04\0",
    )?;
    push_word(input, names)?;
    push_references(input, names)?;
    push_text(input, letters)
}

#[derive(Clone, Copy)]
enum Input {
    Chain(u32),
    Names(usize, usize),
    Zeros(usize),
}

fn push_zeros(input: &mut Vec<u8>, count: usize) -> Result<(), AllocError> {
    for _ in 0..count {
        input.push(b'0')?;
    }
    Ok(())
}

fn push_input(input: &mut Vec<u8>, parts: Input) -> Result<(), AllocError> {
    match parts {
        Input::Chain(tables) => push_chain(input, tables),
        Input::Names(names, letters) => push_names(input, names, letters),
        Input::Zeros(count) => push_zeros(input, count),
    }
}

fn input_of(alloc: Global, parts: Input) -> Result<Vec<u8>, AllocError> {
    let mut input = Vec::new(alloc);
    push_input(&mut input, parts)?;
    Ok(input)
}

fn check_begun(
    test: &Test<'_>,
    schema: &Schema,
    input: &[u8],
    clean: bool,
    (len, first): (usize, &[u8]),
    row: &str,
) {
    let mut printed = Vec::new(test.alloc());
    let answer = dumped(test.alloc(), schema, input, &mut printed);
    let printed = printed.as_slice();
    check_eq(test, &answer, &Ok(clean), row);
    check_eq(test, &printed.len(), &len, row);
    check_bytes(
        test,
        printed.get(..first.len()).unwrap_or(printed),
        first,
        row,
    );
}

type Limit = (&'static str, Input, bool, (usize, &'static [u8]));

const FIRST: &[u8] = b"root: table Node\nroot.names: list 9998\nroot.names[0] = \"abc\"\n";

const LIMITS: &[Limit] = &[
    ("65 tables", Input::Chain(64), false, (9, b"too deep\n")),
    ("10000 lines", Input::Names(9998, 3), true, (248879, FIRST)),
    (
        "10001 lines",
        Input::Names(9999, 3),
        false,
        (15, b"too many lines\n"),
    ),
    (
        "1048576 digits",
        Input::Zeros(1048576),
        false,
        (8, b"bad hex\n"),
    ),
    (
        "1048577 digits",
        Input::Zeros(1048577),
        false,
        (16, b"script too long\n"),
    ),
];

fn check_limit(test: &Test<'_>, (row, parts, clean, printed): Limit) -> Result<(), AllocError> {
    let schema = nodes(test.alloc())?;
    let input = input_of(test.alloc(), parts)?;
    check_begun(test, &schema, input.as_slice(), clean, printed, row);
    Ok(())
}

// 64 tables deep, 10000 lines and 1048576 bytes of input are the limits.
#[test]
fn limits(rt: HostRuntime) -> Result<(), Fail> {
    let test = Test::new(&rt);
    for limit in LIMITS {
        check(&test, check_limit(&test, *limit).is_ok(), limit.0);
    }
    test.end()
}

// Where the lines don't fit in 4 MiB, `out of memory` is printed.
fn check_refused(test: &Test<'_>, schema: &Schema, input: &[u8]) {
    for (spare, want, text) in [
        (0, (Err(RunError::OutOfMemory), 2), ""),
        (4194304, (Ok(false), 1), "out of memory\n"),
    ] {
        check_without_memory(test, Some(schema), input, spare, want, text);
    }
    let printed: (usize, &[u8]) = (9223929, b"root: table Node\n");
    check_begun(test, schema, input, true, printed, "with memory");
}

fn check_names(test: &Test<'_>) -> Result<(), AllocError> {
    let schema = nodes(test.alloc())?;
    let input = input_of(test.alloc(), Input::Names(9000, 1003))?;
    check_refused(test, &schema, input.as_slice());
    Ok(())
}

#[test]
fn refused_memory(rt: HostRuntime) -> Result<(), Fail> {
    let test = Test::new(&rt);
    check(&test, check_names(&test).is_ok(), "memory for the input");
    test.end()
}
