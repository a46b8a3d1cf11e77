//! The lines of what is created.

ghost use Rattle.std.specs.Prelude.{◌≡◌, ◌++◌, IfOk, OnOk, if◌then◌else◌, [], take, drop};
ghost use Rattle.planus_schema.specs.Plans.{line_of};
ghost use Rattle.planus_tie.specs.Wanted as spec;

use crate::defaults::push_default;
use crate::groups::Entry;
use crate::kinds::{has_default, is_reference, is_union};
use crate::naming::Naming;
use crate::pieces::{push_base, push_number, push_str};
use planus_schema::{FieldType, Line, TableField};
use std::alloc::{AllocError, Global};

fn push_slots(out: &mut Vec<u8>, field: &TableField) -> Result<(), AllocError>
    ensures { OnOk result (out.new.items ≡ out.old.items ++ spec.slots_text field.now) }
{
    if !is_union(field.kind) {
        return push_number(out, field.slot as u64);
    }
    push_str(out, "(")?;
    push_number(out, field.slot.saturating_sub(1) as u64)?;
    push_str(out, ",")?;
    push_number(out, field.slot as u64)?;
    push_str(out, ")")
}

fn push_if(out: &mut Vec<u8>, wanted: bool, text: &str) -> Result<(), AllocError>
    ensures { OnOk result (out.new.items ≡ out.old.items ++ (if wanted then text.now else [])) }
{
    if wanted {
        push_str(out, text)?;
    }
    Ok(())
}

fn push_encoded(out: &mut Vec<u8>, naming: &Naming<'_>, kind: FieldType) -> Result<(), AllocError>
    ensures { OnOk result (out.new.items ≡ out.old.items ++ spec.encoded naming.now kind) }
{
    push_if(out, kind.vector, "Offset<List<")?;
    push_if(out, is_reference(kind.base), "Offset<")?;
    push_base(out, naming, kind.base)?;
    push_if(out, is_reference(kind.base), ">")?;
    push_if(out, kind.vector, ">>")
}

fn push_kind(out: &mut Vec<u8>, naming: &Naming<'_>, kind: FieldType) -> Result<(), AllocError>
    ensures { OnOk result (out.new.items ≡ out.old.items ++ spec.kind_text naming.now kind) }
{
    if !is_union(kind) {
        return push_encoded(out, naming, kind);
    }
    push_str(out, if kind.vector { "unions " } else { "union " })?;
    push_base(out, naming, kind.base)
}

fn push_given(out: &mut Vec<u8>, naming: &Naming<'_>, line: &Line<'_>) -> Result<(), AllocError>
    ensures { OnOk result (out.new.items ≡ out.old.items
        ++ spec.given_text naming.now (line_of line.now)) }
{
    push_str(out, "fields.")?;
    out.extend_from_slice(naming.member_of(line.table, line.place))
}

fn push_or_default(
    out: &mut Vec<u8>,
    naming: &Naming<'_>,
    line: &Line<'_>,
) -> Result<(), AllocError>
    ensures { OnOk result (out.new.items ≡ out.old.items
        ++ spec.or_default_text naming.now (line_of line.now)) }
{
    push_str(out, "OrDefault{value:")?;
    push_given(out, naming, line)?;
    push_str(out, ",default:")
}

fn push_value(out: &mut Vec<u8>, naming: &Naming<'_>, line: &Line<'_>) -> Result<(), AllocError>
    ensures { OnOk result (out.new.items ≡ out.old.items
        ++ spec.value_text naming.now (line_of line.now)) }
{
    let field = line.field;
    if has_default(field) {
        push_or_default(out, naming, line)?;
        push_default(out, naming, line)?;
        return push_str(out, "}");
    }
    if is_union(field.kind) && field.kind.vector && !field.required {
        push_or_default(out, naming, line)?;
        return push_str(out, "()}");
    }
    push_given(out, naming, line)
}

fn push_entry(out: &mut Vec<u8>, naming: &Naming<'_>, line: &Line<'_>) -> Result<(), AllocError>
    ensures { OnOk result (out.new.items ≡ out.old.items
        ++ spec.entry_text naming.now (line_of line.now)) }
{
    push_slots(out, line.field)?;
    push_str(out, ":")?;
    push_kind(out, naming, line.field.kind)?;
    push_str(out, "=")?;
    push_value(out, naming, line)?;
    push_str(out, ",")
}

fn push_entries(
    out: &mut Vec<u8>,
    naming: &Naming<'_>,
    order: &[Line<'_>],
) -> Result<(), AllocError>
    ensures { OnOk result (out.new.items ≡ out.old.items ++ spec.lines_text naming.now order.now) }
{
    for line in order {
        push_entry(out, naming, line)?;
    }
    Ok(())
}

fn push_part(
    out: &mut Vec<u8>,
    naming: &Naming<'_>,
    group: usize,
    lines: &[Line<'_>],
) -> Result<(), AllocError>
    ensures { OnOk result (out.new.items
        ≡ out.old.items ++ spec.part_text naming.now group lines.now) }
{
    if group == 0 {
        return push_entries(out, naming, lines);
    }
    push_str(out, "group group")?;
    push_number(out, group as u64)?;
    push_str(out, ",")
}

/// Returns the first of these items, this many.
pub(crate) fn front<T>(items: &[T], count: usize) -> &[T]
    ensures { result.now ≡ take count items.now }
{
    items.split_at(count.min(items.len())).0
}

/// Returns the items after these.
pub(crate) fn back<T>(items: &[T], count: usize) -> &[T]
    ensures { result.now ≡ drop count items.now }
{
    items.split_at(count.min(items.len())).1
}

fn push_parts(
    out: &mut Vec<u8>,
    naming: &Naming<'_>,
    entries: &[Entry],
    order: &[Line<'_>],
) -> Result<(), AllocError>
    ensures { OnOk result (out.new.items
        ≡ out.old.items ++ spec.parts_text naming.now entries.now order.now) }
{
    let mut rest = order;
    for entry in entries {
        push_part(out, naming, entry.group, front(rest, entry.count))?;
        rest = back(rest, entry.count);
    }
    push_entries(out, naming, rest)
}

/// Returns the list of a table's lines, and what follows it.
pub(crate) fn list_of(
    alloc: Global,
    naming: &Naming<'_>,
    table: usize,
    entries: &[Entry],
    order: &[Line<'_>],
) -> Result<Vec<u8>, AllocError>
    ensures { IfOk result (λ text. text.items
        ≡ spec.list_text naming.now table entries.now order.now) }
{
    let mut out = Vec::new(alloc);
    push_parts(&mut out, naming, entries, order)?;
    push_str(&mut out, "];create_table::<")?;
    out.extend_from_slice(naming.type_of(table))?;
    push_str(&mut out, ",_>(builder,lines)}")?;
    Ok(out)
}

/// Returns how a group's value begins.
pub(crate) fn group_mark(alloc: Global, group: usize) -> Result<Vec<u8>, AllocError>
    ensures { IfOk result (λ mark. mark.items ≡ spec.group_mark group) }
{
    let mut out = Vec::new(alloc);
    push_str(&mut out, "let group")?;
    push_number(&mut out, group as u64)?;
    push_str(&mut out, "=")?;
    Ok(out)
}

fn push_group_head(
    out: &mut Vec<u8>,
    naming: &Naming<'_>,
    table: usize,
    group: usize,
) -> Result<(), AllocError>
    ensures { OnOk result (out.new.items
        ≡ out.old.items ++ spec.group_head naming.now table group) }
{
    out.extend_from_slice(naming.type_of(table))?;
    push_number(out, group as u64)?;
    push_str(out, "FieldGroup{lines:fields![")
}

/// Returns a group's value.
pub(crate) fn group_of(
    alloc: Global,
    naming: &Naming<'_>,
    table: usize,
    group: usize,
    lines: &[Line<'_>],
) -> Result<Vec<u8>, AllocError>
    ensures { IfOk result (λ text. text.items
        ≡ spec.group_text naming.now table group lines.now) }
{
    let mut out = Vec::new(alloc);
    push_group_head(&mut out, naming, table, group)?;
    push_entries(&mut out, naming, lines)?;
    push_str(&mut out, "]};")?;
    Ok(out)
}
