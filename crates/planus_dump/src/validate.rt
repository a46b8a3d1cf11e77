//! Whether a schema is good.
ghost use Rattle.std.specs.Prelude.{◌≡◌, length};
ghost use Rattle.std.specs.List.{list_all, list_any};
ghost use Rattle.std.specs.Prelude.{◌==◌};
ghost use Rattle.planus_dump.specs.Schemas as spec;
ghost use Rattle.planus_dump.specs.Schemas.{is_name, kind_fits};
ghost use Rattle.planus_dump.specs.Schemas.{table_fits, variants_fit};
ghost use Rattle.planus_dump.specs.Schemas.{is_name_or_none, variant_fits, variant_kind_fits};
ghost use Rattle.planus_dump.specs.Schemas.{union_fits, is_good, fixed_fits, fixed_kind_fits};
ghost use Rattle.planus_dump.specs.Schemas.{fixed_kinds_fit, struct_fits, fixed_values_fit};

use crate::schemas::{
    FieldSchema, Fixed, Item, Kind, Schema, StructSchema, TableSchema, VariantKind, VariantSchema,
};

/// Whether a name may have this byte: an ASCII letter or digit, or `_`.
pub fn is_name_byte(byte: u8) -> bool
    ensures { result ≡ spec.is_name_byte byte }
{
    matches!(byte, b'A'..=b'Z' | b'a'..=b'z' | b'0'..=b'9' | b'_')
}

fn is_name_of(name: &str) -> bool
    ensures { result ≡ is_name name.now }
{
    let bytes = name.as_bytes();
    for byte in bytes {
        if !is_name_byte(*byte) {
            return false;
        }
    }
    !bytes.is_empty()
}

fn kind_fits_in(kind: Kind, tables: usize, unions: usize) -> bool
    ensures { result ≡ kind_fits tables unions kind }
{
    match kind {
        Kind::One(Item::Table(index)) | Kind::List(Item::Table(index)) | Kind::Nested(index) => {
            index < tables
        }
        Kind::Union(index) | Kind::UnionVector(index) => index < unions,
        _ => true,
    }
}

fn table_fits_in(table: &TableSchema, tables: usize, unions: usize) -> bool
    ensures { result ≡ table_fits tables unions table.now }
{
    for field in &table.fields {
        if !is_name_of(field.name.as_str()) || !kind_fits_in(field.kind, tables, unions) {
            return false;
        }
    }
    is_name_of(table.name.as_str())
}

fn has_tag(variants: &[VariantSchema], tag: u8) -> bool
    ensures { result ≡ list_any (λ other. other.tag == tag) variants.now }
{
    for other in variants {
        if other.tag == tag {
            return true;
        }
    }
    false
}

fn is_name_or_none_of(name: &str) -> bool
    ensures { result ≡ is_name_or_none name.now }
{
    name.is_empty() || is_name_of(name)
}

fn variant_kind_fits_in(kind: VariantKind, tables: usize, structs: usize) -> bool
    ensures { result ≡ variant_kind_fits tables structs kind }
{
    match kind {
        VariantKind::Table(index) => index < tables,
        VariantKind::Struct(index) => index < structs,
        VariantKind::Text => true,
    }
}

fn variant_fits_in(
    variant: &VariantSchema,
    others: &[VariantSchema],
    tables: usize,
    structs: usize,
) -> bool
    ensures { result ≡ variant_fits tables structs variant.now others.now }
{
    variant.tag != 0
        && variant_kind_fits_in(variant.kind, tables, structs)
        && !has_tag(others, variant.tag)
        && is_name_or_none_of(variant.name.as_str())
}

fn variants_fit_in(variants: &[VariantSchema], tables: usize, structs: usize) -> bool
    ensures { result ≡ variants_fit tables structs variants.now }
{
    for (index, variant) in variants.iter().enumerate() {
        if !variant_fits_in(variant, &variants[index + 1..], tables, structs) {
            return false;
        }
    }
    true
}

fn tables_fit_in(all: &[TableSchema], tables: usize, unions: usize) -> bool
    ensures { result ≡ list_all (table_fits tables unions) all.now }
{
    for table in all {
        if !table_fits_in(table, tables, unions) {
            return false;
        }
    }
    true
}

fn unions_fit_in(all: &[Vec<VariantSchema>], tables: usize, structs: usize) -> bool
    ensures { result ≡ list_all (union_fits tables structs) all.now }
{
    for variants in all {
        if !variants_fit_in(variants.as_slice(), tables, structs) {
            return false;
        }
    }
    true
}

fn fixed_fits_in(fixed: Fixed, enums: usize, structs: usize) -> bool
    ensures { result ≡ fixed_fits enums structs fixed }
{
    match fixed {
        Fixed::Enum(index) => index < enums,
        Fixed::Struct(index) => index < structs,
        _ => true,
    }
}

fn fixed_kind_fits_in(kind: Kind, enums: usize, structs: usize) -> bool
    ensures { result ≡ fixed_kind_fits enums structs kind }
{
    match kind {
        Kind::Fixed(fixed) | Kind::FixedList(fixed) => fixed_fits_in(fixed, enums, structs),
        _ => true,
    }
}

fn fixed_kinds_fit_in(table: &TableSchema, enums: usize, structs: usize) -> bool
    ensures { result ≡ fixed_kinds_fit enums structs table.now }
{
    for field in &table.fields {
        if !fixed_kind_fits_in(field.kind, enums, structs) {
            return false;
        }
    }
    true
}

fn struct_fits_in(shape: &StructSchema, enums: usize, structs: usize) -> bool
    ensures { result ≡ struct_fits enums structs shape.now }
{
    for field in &shape.fields {
        if !is_name_of(field.name.as_str()) || !fixed_fits_in(field.fixed, enums, structs) {
            return false;
        }
    }
    is_name_of(shape.name.as_str())
}

fn structs_fit_in(all: &[StructSchema], enums: usize, structs: usize) -> bool
    ensures { result ≡ list_all (struct_fits enums structs) all.now }
{
    for shape in all {
        if !struct_fits_in(shape, enums, structs) {
            return false;
        }
    }
    true
}

fn all_fixed_kinds_fit_in(all: &[TableSchema], enums: usize, structs: usize) -> bool
    ensures { result ≡ list_all (fixed_kinds_fit enums structs) all.now }
{
    for table in all {
        if !fixed_kinds_fit_in(table, enums, structs) {
            return false;
        }
    }
    true
}

fn fixed_values_fit_in(schema: &Schema) -> bool
    ensures { result ≡ fixed_values_fit (length schema.now.enums.items)
        (length schema.now.structs.items) schema.now }
{
    let enums = schema.enums.len();
    let structs = schema.structs.len();
    all_fixed_kinds_fit_in(schema.tables.as_slice(), enums, structs)
        && structs_fit_in(schema.structs.as_slice(), enums, structs)
}

/// Whether names are names, and all that the schema names is in it.
pub fn is_good_schema(schema: &Schema) -> bool
    ensures { result ≡ is_good schema.now }
{
    let tables = schema.tables.len();
    let unions = schema.unions.len();
    schema.root < tables
        && tables_fit_in(schema.tables.as_slice(), tables, unions)
        && unions_fit_in(schema.unions.as_slice(), tables, schema.structs.len())
        && fixed_values_fit_in(schema)
}
