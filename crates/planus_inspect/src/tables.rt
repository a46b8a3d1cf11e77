//! Tables as a dump reads them.
ghost use Rattle.std.specs.Prelude.{◌≡◌, map, IfOk};
ghost use Rattle.planus_dump.specs.Shapes.{field_shape, table_shape};
ghost use Rattle.planus_inspect.specs.Shown as spec;

use crate::kinds::kind_of;
use crate::names::shown_name;
use planus_dump::{FieldSchema, TableSchema};
use planus_schema::{Body, Declared, TableField, is_union};
use std::alloc::{AllocError, Global};

fn first_slot(field: &TableField) -> usize
    ensures { result ≡ spec.first_slot field.now }
{
    if is_union(field.kind) {
        field.slot.saturating_sub(1)
    } else {
        field.slot
    }
}

fn field_schema(alloc: Global, field: &TableField) -> Result<FieldSchema, AllocError>
    ensures { IfOk result (λ shown. field_shape shown ≡ spec.field_shown field.now) }
{
    Ok(FieldSchema {
        slot: first_slot(field),
        name: shown_name(alloc, &field.name)?,
        kind: kind_of(field.kind, field.nested),
        deprecated: field.deprecated,
        required: field.required && !field.deprecated,
    })
}

fn field_schemas(alloc: Global, fields: &[TableField]) -> Result<Vec<FieldSchema>, AllocError>
    ensures { IfOk result (λ shown. map field_shape shown.items ≡ map spec.field_shown fields.now) }
{
    let mut shown = Vec::new(alloc);
    for field in fields {
        shown.push(field_schema(alloc, field)?)?;
    }
    Ok(shown)
}

fn fields_of(alloc: Global, body: &Body) -> Result<Vec<FieldSchema>, AllocError>
    ensures { IfOk result (λ shown. map field_shape shown.items ≡ spec.fields_shown body.now) }
{
    match body {
        Body::Table(table) => field_schemas(alloc, &table.fields),
        _ => Ok(Vec::new(alloc)),
    }
}

/// A table with no fields for any other declaration.
pub(crate) fn table_schema(alloc: Global, declared: &Declared) -> Result<TableSchema, AllocError>
    ensures { IfOk result (λ shown. table_shape shown ≡ spec.table_shown declared.now) }
{
    Ok(TableSchema {
        name: shown_name(alloc, &declared.name)?,
        fields: fields_of(alloc, &declared.body)?,
    })
}
