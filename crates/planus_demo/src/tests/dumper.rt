mod buffers;
mod damage;
mod deep;
mod schemas;
mod steps;
mod structs;

use planus_dump::{
    DumpError, FieldSchema, Item, Kind, Number, Schema, TableSchema, VariantKind, VariantSchema,
    dump,
};
use planus_testing::{Test, check, check_eq};
use std::alloc::{AllocError, Global};

pub type FieldParts<'a> = (usize, &'a str, Kind);

pub type TableParts<'a> = (&'a str, &'a [FieldParts<'a>]);

// The last table is the root's.
pub type SchemaParts<'a> = (&'a [TableParts<'a>], &'a [&'a [(u8, usize)]]);

pub const WEAPON: &[FieldParts<'static>] = &[
    (0, "name", Kind::One(Item::Text)),
    (1, "damage", Kind::One(Item::Number(Number::I16))),
];

pub const MONSTER: &[FieldParts<'static>] = &[
    (0, "hp", Kind::One(Item::Number(Number::I16))),
    (1, "name", Kind::One(Item::Text)),
    (2, "inventory", Kind::Bytes),
    (3, "weapons", Kind::List(Item::Table(0))),
    (4, "equipped", Kind::Union(0)),
    (6, "loot", Kind::UnionVector(0)),
];

fn table_of(alloc: Global, parts: &TableParts<'_>) -> Result<TableSchema, AllocError> {
    let mut fields = Vec::new(alloc);
    for (slot, name, kind) in parts.1 {
        let name = String::from_str(alloc, name)?;
        let (slot, kind) = (*slot, *kind);
        fields.push(FieldSchema {
            slot,
            name,
            kind,
            deprecated: false,
            required: false,
        })?;
    }
    let name = String::from_str(alloc, parts.0)?;
    Ok(TableSchema { name, fields })
}

fn tables_of(alloc: Global, parts: &[TableParts<'_>]) -> Result<Vec<TableSchema>, AllocError> {
    let mut tables = Vec::new(alloc);
    for table in parts {
        tables.push(table_of(alloc, table)?)?;
    }
    Ok(tables)
}

fn variants_of(alloc: Global, parts: &[(u8, usize)]) -> Result<Vec<VariantSchema>, AllocError> {
    let mut variants = Vec::new(alloc);
    for (tag, table) in parts {
        variants.push(VariantSchema {
            tag: *tag,
            name: String::new(alloc),
            kind: VariantKind::Table(*table),
        })?;
    }
    Ok(variants)
}

fn unions_of(
    alloc: Global,
    parts: &[&[(u8, usize)]],
) -> Result<Vec<Vec<VariantSchema>>, AllocError> {
    let mut unions = Vec::new(alloc);
    for variants in parts {
        unions.push(variants_of(alloc, variants)?)?;
    }
    Ok(unions)
}

pub fn schema_of(alloc: Global, (tables, unions): SchemaParts<'_>) -> Result<Schema, AllocError> {
    Ok(Schema {
        tables: tables_of(alloc, tables)?,
        unions: unions_of(alloc, unions)?,
        enums: Vec::new(alloc),
        structs: Vec::new(alloc),
        root: tables.len().saturating_sub(1),
        tags_need_values: false,
    })
}

pub fn check_lines(test: &Test<'_>, lines: &[String], want: &[&str]) {
    for (line, text) in lines.iter().zip(want) {
        check_eq(test, &line.as_str(), text, "a line");
    }
    check_eq(test, &lines.len(), &want.len(), "the lines");
}

fn check_dump_of(
    test: &Test<'_>,
    schema: &Schema,
    bytes: &[u8],
    budget: usize,
    want: Result<&[&str], DumpError>,
) {
    match (dump(test.alloc(), schema, bytes, budget), want) {
        (Ok(lines), Ok(want)) => check_lines(test, lines.as_slice(), want),
        (answer, want) => check_eq(test, &answer.err(), &want.err(), "a dump"),
    }
}

pub fn check_dump(
    test: &Test<'_>,
    parts: SchemaParts<'_>,
    bytes: &[u8],
    budget: usize,
    want: Result<&[&str], DumpError>,
) {
    match schema_of(test.alloc(), parts) {
        Ok(schema) => check_dump_of(test, &schema, bytes, budget, want),
        Err(_) => check(test, false, "memory for a schema"),
    }
}
