//! Structs with arrays, of a buffer that `flatc` wrote.

use super::check_dump_of;
use planus_dump::{
    EnumSchema, FieldSchema, Fixed, Kind, Number, Schema, StructFieldSchema, StructSchema,
    TableSchema,
};
use planus_testing::{Test, check};
use std::alloc::{AllocError, Global};
use std::test::Fail;

type PartParts<'a> = (&'a str, usize, Fixed, Option<usize>);

// The struct `V` is the first of the schema, `P` the second.
const V: &[PartParts<'static>] = &[
    ("x", 0, Fixed::Number(Number::I16), None),
    ("y", 2, Fixed::Number(Number::U8), None),
];

const P: &[PartParts<'static>] = &[
    ("d", 0, Fixed::Number(Number::I16), Some(2)),
    ("e", 4, Fixed::Enum(0), Some(2)),
    ("v", 6, Fixed::Struct(0), Some(2)),
];

const BYTES: &[u8] = b"\x0c\0\0\0\0\0\x06\0\x14\0\x06\0\x06\0\0\0\0\0\
      \x03\0\xfc\xff\x02\x09\x05\0\x06\0\xf9\xff\x08\0";

const LINES: [&str; 12] = [
    "root: table T",
    "root.p: struct P",
    "root.p.d[0] = 3",
    "root.p.d[1] = -4",
    "root.p.e[0] = 2 (B)",
    "root.p.e[1] ! Unknown enum (tag = 9)",
    "root.p.v[0]: struct V",
    "root.p.v[0].x = 5",
    "root.p.v[0].y = 6",
    "root.p.v[1]: struct V",
    "root.p.v[1].x = -7",
    "root.p.v[1].y = 8",
];

fn struct_of(
    alloc: Global,
    name: &str,
    size: usize,
    parts: &[PartParts<'_>],
) -> Result<StructSchema, AllocError> {
    let mut fields = Vec::new(alloc);
    for (name, distance, fixed, count) in parts {
        fields.push(StructFieldSchema {
            distance: *distance,
            name: String::from_str(alloc, name)?,
            fixed: *fixed,
            count: *count,
        })?;
    }
    let name = String::from_str(alloc, name)?;
    Ok(StructSchema { name, size, fields })
}

fn enum_of(alloc: Global) -> Result<EnumSchema, AllocError> {
    let mut values = Vec::new(alloc);
    values.push((2, String::from_str(alloc, "B")?))?;
    Ok(EnumSchema {
        number: Number::U8,
        flags: false,
        values,
    })
}

fn table_of(alloc: Global) -> Result<TableSchema, AllocError> {
    let mut fields = Vec::new(alloc);
    fields.push(FieldSchema {
        slot: 0,
        name: String::from_str(alloc, "p")?,
        kind: Kind::Fixed(Fixed::Struct(1)),
        deprecated: false,
        required: false,
    })?;
    let name = String::from_str(alloc, "T")?;
    Ok(TableSchema { name, fields })
}

fn schema_of(alloc: Global) -> Result<Schema, AllocError> {
    let mut tables = Vec::new(alloc);
    tables.push(table_of(alloc)?)?;
    let mut enums = Vec::new(alloc);
    enums.push(enum_of(alloc)?)?;
    let mut structs = Vec::new(alloc);
    structs.push(struct_of(alloc, "V", 4, V)?)?;
    structs.push(struct_of(alloc, "P", 14, P)?)?;
    Ok(Schema {
        tables,
        unions: Vec::new(alloc),
        enums,
        structs,
        root: 0,
        tags_need_values: false,
    })
}

#[test]
fn arrays(rt: HostRuntime) -> Result<(), Fail> {
    let test = Test::new(&rt);
    match schema_of(test.alloc()) {
        Ok(schema) => check_dump_of(&test, &schema, BYTES, 12, Ok(&LINES)),
        Err(_) => check(&test, false, "memory for a schema"),
    }
    test.end()
}
