//! Whether the text of a table is its schema's.

ghost use Rattle.std.specs.Prelude.{◌≡◌, IfOk, IsTrue, Some, map, ◌||◌, ◌==◌};
ghost use Rattle.std.specs.Option.{option_copied};
ghost use Rattle.planus_schema.specs.Plans.{line_of};
ghost use Rattle.planus_tie.specs.Ties as spec;
ghost use Rattle.planus_tie.specs.Reading as reading_spec;
ghost use Rattle.planus_tie.specs.Wanted as wanted_spec;

use crate::bare::bare;
use crate::calls::call_of;
use crate::constants::have_constants;
use crate::entries::{back, front, group_mark, group_of, list_of};
use crate::groups::{Entry, entries_of};
use crate::keys::have_keys;
use crate::naming::Naming;
use crate::reading::{after, begins, body_of, if_begins, list_in, method_mark};
use crate::spelling::are_spelled;
use planus_schema::{Line, Plan, Table};
use std::alloc::{AllocError, Global};

fn accessor_in<'a>(
    alloc: Global,
    naming: &Naming<'_>,
    line: &Line<'_>,
    text: &'a [u8],
) -> Result<Option<&'a [u8]>, AllocError>
    ensures { IfOk result (λ rest. option_copied rest
        ≡ spec.accessor_in naming.now (line_of line.now) text.now) }
{
    let mark = method_mark(alloc, naming.member_of(line.table, line.place))?;
    let wanted = call_of(alloc, naming, line)?;
    Ok(if_begins(body_of(&mark, text), &wanted))
}

/// Returns whether a text without layout has the accessor of each of these fields.
fn have_accessors(
    alloc: Global,
    naming: &Naming<'_>,
    lines: &[Line<'_>],
    text: &[u8],
) -> Result<bool, AllocError>
    ensures { IfOk result (λ b. b
        ≡ spec.have_accessors naming.now (Some text.now) (map line_of lines.now)) }
{
    let mut rest = text;
    for line in lines {
        match accessor_in(alloc, naming, line, rest)? {
            Some(found) => rest = found,
            None => return Ok(false),
        }
    }
    Ok(true)
}

fn has_group(
    alloc: Global,
    naming: &Naming<'_>,
    table: usize,
    group: usize,
    lines: &[Line<'_>],
    text: &[u8],
) -> Result<bool, AllocError>
    ensures { IfOk result (λ b. b ≡ (group == 0 || reading_spec.begins (reading_spec.after
        (wanted_spec.group_mark group)
        text.now) (wanted_spec.group_text naming.now table group lines.now))) }
{
    if group == 0 {
        return Ok(true);
    }
    let mark = group_mark(alloc, group)?;
    let wanted = group_of(alloc, naming, table, group, lines)?;
    Ok(begins(after(&mark, text), &wanted))
}

fn have_groups(
    alloc: Global,
    naming: &Naming<'_>,
    table: usize,
    entries: &[Entry],
    order: &[Line<'_>],
    text: &[u8],
) -> Result<bool, AllocError>
    ensures { IfOk result (λ b. b
        ≡ spec.have_groups naming.now text.now table entries.now order.now) }
{
    let mut rest = order;
    for entry in entries {
        let lines = front(rest, entry.count);
        if !has_group(alloc, naming, table, entry.group, lines, text)? {
            return Ok(false);
        }
        rest = back(rest, entry.count);
    }
    Ok(true)
}

/// Returns whether it creates a table of these lines.
fn has_lines(
    alloc: Global,
    naming: &Naming<'_>,
    table: usize,
    entries: &[Entry],
    order: &[Line<'_>],
    text: &[u8],
) -> Result<bool, AllocError>
    ensures { IfOk result (λ b. b
        ≡ spec.has_lines naming.now text.now table entries.now order.now) }
{
    if !have_groups(alloc, naming, table, entries, order, text)? {
        return Ok(false);
    }
    let wanted = list_of(alloc, naming, table, entries, order)?;
    Ok(begins(list_in(text), &wanted))
}

fn is_plan_tied(
    alloc: Global,
    naming: &Naming<'_>,
    entries: &[Entry],
    plan: &Plan<'_>,
    text: &[u8],
) -> Result<bool, AllocError>
    ensures { IfOk result (λ b. b
        ≡ spec.is_plan_tied naming.now entries.now plan.now text.now) }
{
    if !are_spelled(alloc, naming, &plan.lines)? {
        return Ok(false);
    }
    if !have_accessors(alloc, naming, &plan.lines, text)? {
        return Ok(false);
    }
    if !has_lines(alloc, naming, plan.table, entries, &plan.order, text)? {
        return Ok(false);
    }
    if !have_keys(alloc, naming, None, &plan.lines, text)? {
        return Ok(false);
    }
    have_constants(alloc, naming, &plan.lines, text)
}

/// Returns whether this is the text of a table.
pub(crate) fn is_table_tied(
    alloc: Global,
    naming: &Naming<'_>,
    index: usize,
    table: &Table,
    text: &[u8],
) -> Result<bool, AllocError>
    ensures { IfOk result (λ b. IsTrue b → spec.IsTableTied naming.now index table.now text.now) }
{
    let plan = Plan::of(alloc, naming.declared, index, table)?;
    let entries = entries_of(alloc, &plan.order)?;
    let without = bare(alloc, text)?;
    is_plan_tied(alloc, naming, &entries, &plan, &without)
}
