//! The order in which a table's fields are written.

ghost use Rattle.std.specs.Prelude.{◌≡◌, map, IfOk, OnOk, not, ◌&&◌, nat_eq, length};
ghost use Rattle.std.specs.List.{list_any};
ghost use Rattle.std.specs.List.Sorted.{IsPermutation};
ghost use Rattle.planus_schema.specs.Plans as spec;

use crate::{Base, Declared, FieldType, Table, TableField, measure_of, slots_taken};
use std::alloc::{AllocError, Global};

/// A field, its table's index, its place in the table, and its alignment in bytes.
#[derive(Clone, Copy)]
pub struct Line<'a> {
    pub table: usize,
    pub place: usize,
    pub field: &'a TableField,
    pub alignment: usize,
}

/// The fields of a table that aren't deprecated.
#[derive(Drop)]
pub struct Plan<'a> {
    pub table: usize,
    /// As they are declared.
    pub lines: Vec<Line<'a>>,
    /// By falling alignment.
    pub order: Vec<Line<'a>>,
    /// The size of the vtable in bytes.
    pub vtable_size: usize,
}

fn alignment_of(declared: &[Declared], kind: FieldType) -> usize
    ensures { result ≡ spec.alignment_of declared.now kind }
{
    if kind.vector {
        return 4;
    }
    match measure_of(declared, kind.base) {
        Some(measure) => measure.alignment,
        None => 4,
    }
}

/// Returns whether the argument of a field borrows.
pub fn is_borrowed(kind: FieldType) -> bool
    ensures { result ≡ spec.is_borrowed kind }
{
    kind.vector || kind.base == Base::Text
}

fn lines_of<'a>(
    alloc: Global,
    declared: &[Declared],
    table: usize,
    fields: &'a [TableField],
) -> Result<Vec<Line<'a>>, AllocError>
    ensures { IfOk result (λ v. map spec.line_of v.items ≡ spec.lines_from declared.now table 0
        fields.now) }
{
    let mut lines = Vec::new(alloc);
    let mut place = 0;
    'fields: for field in fields {
        if !field.deprecated {
            lines.push(Line {
                table,
                place,
                field,
                alignment: alignment_of(declared, field.kind),
            })?;
        }
        place += 1;
    }
    Ok(lines)
}

fn put_in_order(order: &mut Vec<Line<'_>>) -> Result<(), AllocError>
    ensures once { OnOk result (IsPermutation order.old.items order.new.items) }
    ensures falls { OnOk result (spec.Falls order.new.items) }
{
    order.sort_by_key(|line| usize::MAX - line.alignment)?;
    Ok(())
}

impl<'a> Plan<'a> {
    /// Returns the plan of the table whose declaration has this index.
    pub fn of(
        alloc: Global,
        declared: &[Declared],
        table: usize,
        one: &'a Table,
    ) -> Result<Plan<'a>, AllocError>
        ensures { IfOk result (λ plan. spec.IsPlan declared.now table one.now.fields.items plan) }
    {
        let lines = lines_of(alloc, declared, table, &one.fields)?;
        let mut order = Vec::from_slice(alloc, &lines)?;
        put_in_order(&mut order)?;
        let slots = slots_taken(alloc, &one.fields)?;
        Ok(Plan {
            table,
            lines,
            order,
            vtable_size: slots.len().saturating_mul(2).saturating_add(4),
        })
    }

    /// Returns whether the argument of one of the fields borrows.
    pub fn borrows(&self) -> bool
        ensures { result ≡ list_any (λ l. spec.is_borrowed l.field.now.kind) self.now.lines.items }
    {
        self.lines.iter().any(|line| is_borrowed(line.field.kind))
    }

    fn has_required(&self) -> bool
        ensures { result ≡ list_any (λ l. l.field.now.required) self.now.lines.items }
    {
        self.lines.iter().any(|line| line.field.required)
    }

    /// Returns whether there are fields and none is required.
    pub fn has_defaults(&self) -> bool
        ensures { result ≡ (not (nat_eq (length self.now.lines.items) 0)
            && not (list_any (λ l. l.field.now.required) self.now.lines.items)) }
    {
        !self.lines.is_empty() && !self.has_required()
    }
}
