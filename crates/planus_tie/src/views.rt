//! Whether the text of a verified view is its schema's.

ghost use Rattle.std.specs.Prelude.{◌≡◌, ◌++◌, IfOk, OnOk, IsTrue, Some, map, slice_get};
ghost use Rattle.std.specs.Option.{option_copied};
ghost use Rattle.planus_schema.specs.Plans.{line_of};
ghost use Rattle.planus_tie.specs.Reading as reading_spec;
ghost use Rattle.planus_tie.specs.Views as spec;

use crate::bare::bare;
use crate::calls::push_function;
use crate::defaults::push_default;
use crate::keys::have_keys;
use crate::kinds::{ending, has_default, read_slot};
use crate::naming::Naming;
use crate::pieces::{push_number, push_str};
use crate::ranks::{is_judged, rank_in};
use crate::reading::{after, body_of, if_begins, method_mark};
use planus_schema::{Base, Body, Declared, Line, Plan, Table, TableField};
use std::alloc::{AllocError, Global};

fn push_view_function(
    out: &mut Vec<u8>,
    totals: &[bool],
    field: &TableField,
) -> Result<(), AllocError>
    ensures { OnOk result (out.new.items ≡ out.old.items
        ++ spec.view_function totals.now field.now) }
{
    if !is_judged(totals, field) {
        return push_function(out, field);
    }
    push_str(out, "judged")?;
    push_str(out, ending(field))
}

fn is_flags_body(body: &Body) -> bool
    ensures { result ≡ spec.is_flags_body body.now }
{
    match body {
        Body::Enum(one) => one.flags,
        _ => false,
    }
}

fn is_flags(declared: &[Declared], index: usize) -> bool
    ensures { result ≡ spec.is_flags (slice_get declared.now index) }
{
    match declared.get(index) {
        Some(one) => is_flags_body(&one.body),
        None => false,
    }
}

pub(crate) fn is_constant(naming: &Naming<'_>, base: Base) -> bool
    ensures { result ≡ spec.is_constant naming.now base }
{
    match base {
        Base::Scalar(scalar) => scalar.is_float(),
        Base::Enum(index) => is_flags(naming.declared, index),
        _ => false,
    }
}

fn push_constant_path(
    out: &mut Vec<u8>,
    naming: &Naming<'_>,
    line: &Line<'_>,
) -> Result<(), AllocError>
    ensures { OnOk result (out.new.items ≡ out.old.items
        ++ spec.constant_path naming.now (line_of line.now)) }
{
    if !is_constant(naming, line.field.kind.base) {
        return Ok(());
    }
    push_str(out, "crate::")?;
    out.extend_from_slice(naming.module_of(line.table))?;
    push_str(out, "::")
}

fn push_view_default(
    out: &mut Vec<u8>,
    naming: &Naming<'_>,
    line: &Line<'_>,
) -> Result<(), AllocError>
    ensures { OnOk result (out.new.items ≡ out.old.items
        ++ spec.view_default naming.now (line_of line.now)) }
{
    if !has_default(line.field) {
        return Ok(());
    }
    push_str(out, ",")?;
    push_constant_path(out, naming, line)?;
    push_default(out, naming, line)
}

/// Returns the body of a field's accessor in a view.
fn view_call(
    alloc: Global,
    naming: &Naming<'_>,
    totals: &[bool],
    line: &Line<'_>,
) -> Result<Vec<u8>, AllocError>
    ensures { IfOk result (λ text. text.items
        ≡ spec.view_call naming.now totals.now (line_of line.now)) }
{
    let mut out = Vec::new(alloc);
    push_str(&mut out, "self.0.")?;
    push_view_function(&mut out, totals, line.field)?;
    push_str(&mut out, "(")?;
    push_number(&mut out, read_slot(line.field) as u64)?;
    push_view_default(&mut out, naming, line)?;
    push_str(&mut out, ")}")?;
    Ok(out)
}

fn view_in<'a>(
    alloc: Global,
    naming: &Naming<'_>,
    totals: &[bool],
    line: &Line<'_>,
    text: &'a [u8],
) -> Result<Option<&'a [u8]>, AllocError>
    ensures { IfOk result (λ rest. option_copied rest
        ≡ spec.view_in naming.now totals.now (line_of line.now) text.now) }
{
    let mark = method_mark(alloc, naming.member_of(line.table, line.place))?;
    let wanted = view_call(alloc, naming, totals, line)?;
    Ok(if_begins(body_of(&mark, text), &wanted))
}

fn have_views(
    alloc: Global,
    naming: &Naming<'_>,
    totals: &[bool],
    lines: &[Line<'_>],
    text: &[u8],
) -> Result<bool, AllocError>
    ensures { IfOk result (λ b. b ≡ spec.have_views naming.now totals.now (Some text.now)
        (map line_of lines.now)) }
{
    let mut rest = text;
    for line in lines {
        match view_in(alloc, naming, totals, line, rest)? {
            Some(found) => rest = found,
            None => return Ok(false),
        }
    }
    Ok(true)
}

fn push_kind_start(out: &mut Vec<u8>, name: &[u8]) -> Result<(), AllocError>
    ensures { OnOk result (out.new.items ≡ out.old.items ++ spec.kind_start name.now) }
{
    push_str(out, "impl planus_views::VerifiedKind for ")?;
    out.extend_from_slice(name)?;
    Ok(())
}

fn push_index(out: &mut Vec<u8>, index: usize) -> Result<(), AllocError>
    ensures { OnOk result (out.new.items ≡ out.old.items ++ spec.index_text index) }
{
    push_str(out, "{ghost schema={verified_schema};ghost index={")?;
    push_number(out, index as u64)?;
    Ok(())
}

fn kind_head(
    alloc: Global,
    naming: &Naming<'_>,
    ranks: &[usize],
    index: usize,
) -> Result<Vec<u8>, AllocError>
    ensures { IfOk result (λ text. text.items ≡ spec.kind_head naming.now ranks.now index) }
{
    let mut out = Vec::new(alloc);
    push_kind_start(&mut out, naming.type_of(index))?;
    push_index(&mut out, rank_in(ranks, index))?;
    push_str(&mut out, "};")?;
    Ok(out)
}

fn has_views(
    alloc: Global,
    naming: &Naming<'_>,
    ranks: &[usize],
    totals: &[bool],
    plan: &Plan<'_>,
    text: &[u8],
) -> Result<bool, AllocError>
    ensures { IfOk result (λ b. b ≡ spec.have_views naming.now totals.now
        (reading_spec.after (spec.kind_head naming.now ranks.now plan.now.table) text.now)
        (map line_of plan.now.lines.items)) }
{
    let head = kind_head(alloc, naming, ranks, plan.table)?;
    match after(&head, text) {
        Some(rest) => have_views(alloc, naming, totals, &plan.lines, rest),
        None => Ok(false),
    }
}

fn is_plan_viewed(
    alloc: Global,
    naming: &Naming<'_>,
    ranks: &[usize],
    totals: &[bool],
    plan: &Plan<'_>,
    text: &[u8],
) -> Result<bool, AllocError>
    ensures { IfOk result (λ b. b
        ≡ spec.is_view_tied naming.now ranks.now totals.now plan.now text.now) }
{
    if !has_views(alloc, naming, ranks, totals, plan, text)? {
        return Ok(false);
    }
    have_keys(alloc, naming, Some(totals), &plan.lines, text)
}

/// Returns whether this is the text of a table's verified view.
pub(crate) fn is_view_tied(
    alloc: Global,
    naming: &Naming<'_>,
    ranks: &[usize],
    totals: &[bool],
    index: usize,
    table: &Table,
    text: &[u8],
) -> Result<bool, AllocError>
    ensures { IfOk result (λ b. IsTrue b
        → spec.IsViewTied naming.now ranks.now totals.now index table.now text.now) }
{
    let plan = Plan::of(alloc, naming.declared, index, table)?;
    let without = bare(alloc, text)?;
    is_plan_viewed(alloc, naming, ranks, totals, &plan, &without)
}
