//! Structs as a dump reads them.
ghost use Rattle.std.specs.Prelude.{◌≡◌, map, IfOk};
ghost use Rattle.planus_dump.specs.Shapes.{struct_field_shape, struct_shape};
ghost use Rattle.planus_inspect.specs.Shown.{field_in_struct, struct_fields_shown, size_shown};
ghost use Rattle.planus_inspect.specs.Shown.{struct_shown};

use crate::kinds::base_fixed;
use crate::names::shown_name;
use planus_dump::{StructFieldSchema, StructSchema};
use planus_schema::{Body, Declared, StructField};
use std::alloc::{AllocError, Global};

fn field_schema(alloc: Global, field: &StructField) -> Result<StructFieldSchema, AllocError>
    ensures { IfOk result (λ shown. struct_field_shape shown ≡ field_in_struct field.now) }
{
    Ok(StructFieldSchema {
        distance: field.distance,
        name: shown_name(alloc, &field.name)?,
        fixed: base_fixed(field.base),
        count: field.count,
    })
}

fn field_schemas(
    alloc: Global,
    fields: &[StructField],
) -> Result<Vec<StructFieldSchema>, AllocError>
    ensures { IfOk result (λ shown. map struct_field_shape shown.items
        ≡ map field_in_struct fields.now) }
{
    let mut shown = Vec::new(alloc);
    for field in fields {
        shown.push(field_schema(alloc, field)?)?;
    }
    Ok(shown)
}

fn fields_of(alloc: Global, body: &Body) -> Result<Vec<StructFieldSchema>, AllocError>
    ensures { IfOk result (λ shown. map struct_field_shape shown.items
        ≡ struct_fields_shown body.now) }
{
    match body {
        Body::Struct(body) => field_schemas(alloc, &body.fields),
        _ => Ok(Vec::new(alloc)),
    }
}

fn size_of(body: &Body) -> usize
    ensures { result ≡ size_shown body.now }
{
    match body {
        Body::Struct(body) => body.size,
        _ => 0,
    }
}

/// A struct with no fields for any other declaration.
pub(crate) fn struct_schema(alloc: Global, declared: &Declared) -> Result<StructSchema, AllocError>
    ensures { IfOk result (λ shown. struct_shape shown ≡ struct_shown declared.now) }
{
    Ok(StructSchema {
        name: shown_name(alloc, &declared.name)?,
        size: size_of(&declared.body),
        fields: fields_of(alloc, &declared.body)?,
    })
}
