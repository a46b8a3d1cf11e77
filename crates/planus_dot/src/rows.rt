//! The rows of a declaration.

ghost use Rattle.std.specs.Prelude.{◌≡◌, map, IfOk};
ghost use Rattle.planus_dot.specs.Rows as spec;

use crate::row::Row;
use planus_schema::{Base, Body, EnumValue, FieldType, StructField, TableField, UnionMember};
use std::alloc::{AllocError, Global};

/// Returns the index of the declaration that a type names.
fn target_of(base: Base) -> Option<usize>
    ensures { result ≡ spec.target_of base }
{
    match base {
        Base::Scalar(_) | Base::Text => None,
        Base::Enum(index) | Base::Struct(index) | Base::Table(index) | Base::Union(index) => {
            Some(index)
        }
    }
}

/// A buffer in a byte vector refers to its root's table.
fn table_row(field: &TableField) -> Row<'_>
    ensures { spec.row_view result ≡ spec.table_row field.now }
{
    Row {
        name: &field.name,
        kind: Some(field.kind),
        count: None,
        target: field.nested.or(target_of(field.kind.base)),
    }
}

fn struct_row(field: &StructField) -> Row<'_>
    ensures { spec.row_view result ≡ spec.struct_row field.now }
{
    Row {
        name: &field.name,
        kind: Some(FieldType {
            vector: false,
            base: field.base,
        }),
        count: field.count,
        target: target_of(field.base),
    }
}

fn value_row(value: &EnumValue) -> Row<'_>
    ensures { spec.row_view result ≡ spec.value_row value.now }
{
    Row {
        name: &value.name,
        kind: None,
        count: None,
        target: None,
    }
}

fn member_row(member: &UnionMember) -> Row<'_>
    ensures { spec.row_view result ≡ spec.member_row member.now }
{
    Row {
        name: &member.name,
        kind: Some(FieldType {
            vector: false,
            base: member.base,
        }),
        count: None,
        target: target_of(member.base),
    }
}

fn table_rows<'a>(alloc: Global, fields: &'a [TableField]) -> Result<Vec<Row<'a>>, AllocError>
    ensures { IfOk result (λ rows. map spec.row_view rows.items ≡ map spec.table_row fields.now) }
{
    let mut rows = Vec::new(alloc);
    'fields: for field in fields {
        rows.push(table_row(field))?;
    }
    Ok(rows)
}

fn struct_rows<'a>(alloc: Global, fields: &'a [StructField]) -> Result<Vec<Row<'a>>, AllocError>
    ensures { IfOk result (λ rows. map spec.row_view rows.items ≡ map spec.struct_row fields.now) }
{
    let mut rows = Vec::new(alloc);
    'fields: for field in fields {
        rows.push(struct_row(field))?;
    }
    Ok(rows)
}

fn value_rows<'a>(alloc: Global, values: &'a [EnumValue]) -> Result<Vec<Row<'a>>, AllocError>
    ensures { IfOk result (λ rows. map spec.row_view rows.items ≡ map spec.value_row values.now) }
{
    let mut rows = Vec::new(alloc);
    'values: for value in values {
        rows.push(value_row(value))?;
    }
    Ok(rows)
}

fn member_rows<'a>(alloc: Global, members: &'a [UnionMember]) -> Result<Vec<Row<'a>>, AllocError>
    ensures { IfOk result (λ rows. map spec.row_view rows.items ≡ map spec.member_row members.now) }
{
    let mut rows = Vec::new(alloc);
    'members: for member in members {
        rows.push(member_row(member))?;
    }
    Ok(rows)
}

/// Returns the rows of a declaration.
pub(crate) fn rows_of(alloc: Global, body: &Body) -> Result<Vec<Row<'_>>, AllocError>
    ensures { IfOk result (λ rows. map spec.row_view rows.items ≡ spec.rows_of body.now) }
{
    match body {
        Body::Table(table) => table_rows(alloc, &table.fields),
        Body::Struct(body) => struct_rows(alloc, &body.fields),
        Body::Enum(body) => value_rows(alloc, &body.values),
        Body::Union(body) => member_rows(alloc, &body.members),
    }
}
