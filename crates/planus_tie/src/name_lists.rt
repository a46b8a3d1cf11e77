//! Whether a text has the names of the schema's tables and fields.

ghost use Rattle.std.specs.Prelude.{◌≡◌, ◌++◌, IfOk, OnOk};
ghost use Rattle.planus_schema.specs.Plans.{line_of};
ghost use Rattle.planus_tie.specs.NameLists as spec;

use crate::kinds::read_slot;
use crate::naming::Naming;
use crate::pieces::{push_number, push_str};
use crate::ranks::rank_in;
use crate::reading::{after, begins, body_of};
use crate::schema::{comma_of, list_start};
use planus_schema::{Body, Declared, Line};
use std::alloc::{AllocError, Global};

fn push_table(out: &mut Vec<usize>, index: usize, body: &Body) -> Result<(), AllocError>
    ensures { OnOk result (out.new.items ≡ out.old.items ++ spec.table_in index body.now) }
{
    if let Body::Table(_) = body {
        out.push(index)?;
    }
    Ok(())
}

fn tables_of(alloc: Global, declared: &[Declared]) -> Result<Vec<usize>, AllocError>
    ensures { IfOk result (λ tables. tables.items ≡ spec.tables_from 0 declared.now) }
{
    let mut tables = Vec::new(alloc);
    let mut index = 0;
    'declared: for one in declared {
        push_table(&mut tables, index, &one.body)?;
        index += 1;
    }
    Ok(tables)
}

fn push_marked(out: &mut Vec<u8>, mark: &str, number: usize) -> Result<(), AllocError>
    ensures { OnOk result (out.new.items ≡ out.old.items ++ spec.marked_text mark.now number) }
{
    push_str(out, mark)?;
    push_number(out, number as u64)?;
    Ok(())
}

fn push_quoted(out: &mut Vec<u8>, mark: &str, name: &[u8], comma: &str) -> Result<(), AllocError>
    ensures { OnOk result (out.new.items
        ≡ out.old.items ++ spec.quoted_text mark.now name.now comma.now) }
{
    push_str(out, mark)?;
    out.extend_from_slice(name)?;
    push_str(out, "\"}")?;
    push_str(out, comma)
}

fn push_table_name(
    out: &mut Vec<u8>,
    naming: &Naming<'_>,
    ranks: &[usize],
    comma: &str,
    index: usize,
) -> Result<(), AllocError>
    ensures { OnOk result (out.new.items ≡ out.old.items
        ++ spec.table_name_text naming.now ranks.now comma.now index) }
{
    push_marked(out, "TableName{index:", rank_in(ranks, index))?;
    push_quoted(out, ",table:\"", naming.type_of(index), comma)?;
    Ok(())
}

fn push_table_names(
    out: &mut Vec<u8>,
    naming: &Naming<'_>,
    ranks: &[usize],
    comma: &str,
    tables: &[usize],
) -> Result<(), AllocError>
    ensures { OnOk result (out.new.items ≡ out.old.items
        ++ spec.table_name_texts naming.now ranks.now comma.now tables.now) }
{
    for index in tables {
        push_table_name(out, naming, ranks, comma, *index)?;
    }
    Ok(())
}

fn push_field_head(out: &mut Vec<u8>, ranks: &[usize], line: &Line<'_>) -> Result<(), AllocError>
    ensures { OnOk result (out.new.items ≡ out.old.items
        ++ spec.field_head_text ranks.now (line_of line.now)) }
{
    push_marked(out, "FieldName{table:", rank_in(ranks, line.table))?;
    push_marked(out, ",slot:", read_slot(line.field))?;
    Ok(())
}

fn push_field_name(
    out: &mut Vec<u8>,
    ranks: &[usize],
    comma: &str,
    line: &Line<'_>,
) -> Result<(), AllocError>
    ensures { OnOk result (out.new.items ≡ out.old.items
        ++ spec.field_name_text ranks.now comma.now (line_of line.now)) }
{
    push_field_head(out, ranks, line)?;
    push_quoted(out, ",field:\"", &line.field.name, comma)?;
    Ok(())
}

fn push_field_names(
    out: &mut Vec<u8>,
    ranks: &[usize],
    comma: &str,
    lines: &[Line<'_>],
) -> Result<(), AllocError>
    ensures { OnOk result (out.new.items ≡ out.old.items
        ++ spec.field_name_texts ranks.now comma.now lines.now) }
{
    for line in lines {
        push_field_name(out, ranks, comma, line)?;
    }
    Ok(())
}

fn table_names_list(
    alloc: Global,
    naming: &Naming<'_>,
    ranks: &[usize],
    tables: &[usize],
) -> Result<Vec<u8>, AllocError>
    ensures { IfOk result (λ out. out.items
        ≡ spec.table_names_list naming.now ranks.now tables.now) }
{
    let mut out = list_start(alloc, tables.len())?;
    push_table_names(&mut out, naming, ranks, comma_of(tables.len()), tables)?;
    push_str(&mut out, "];")?;
    Ok(out)
}

fn field_names_list(
    alloc: Global,
    ranks: &[usize],
    lines: &[Line<'_>],
) -> Result<Vec<u8>, AllocError>
    ensures { IfOk result (λ out. out.items ≡ spec.field_names_list ranks.now lines.now) }
{
    let mut out = list_start(alloc, lines.len())?;
    push_field_names(&mut out, ranks, comma_of(lines.len()), lines)?;
    push_str(&mut out, "];")?;
    Ok(out)
}

fn has_table_names(
    alloc: Global,
    naming: &Naming<'_>,
    ranks: &[usize],
    text: &[u8],
) -> Result<bool, AllocError>
    ensures { IfOk result (λ b. b ≡ spec.has_table_names naming.now ranks.now text.now) }
{
    let tables = tables_of(alloc, naming.declared)?;
    let wanted = table_names_list(alloc, naming, ranks, &tables)?;
    Ok(begins(
        after(b"pub const TABLE_NAMES:[TableName<'static>;", text),
        &wanted,
    ))
}

fn has_field_names(
    alloc: Global,
    ranks: &[usize],
    lines: &[Line<'_>],
    text: &[u8],
) -> Result<bool, AllocError>
    ensures { IfOk result (λ b. b ≡ spec.has_field_names ranks.now lines.now text.now) }
{
    let wanted = field_names_list(alloc, ranks, lines)?;
    Ok(begins(
        after(b"pub const FIELD_NAMES:[FieldName<'static>;", text),
        &wanted,
    ))
}

fn has_names(text: &[u8]) -> bool
    ensures { result ≡ spec.has_names text.now }
{
    begins(
        body_of(b"fn names()->", text),
        b"Names{tables:&TABLE_NAMES,fields:&FIELD_NAMES}}",
    )
}

/// Returns whether a text without layout has the schema's names, these lines' fields in turn.
pub(crate) fn is_names_text(
    alloc: Global,
    naming: &Naming<'_>,
    ranks: &[usize],
    lines: &[Line<'_>],
    text: &[u8],
) -> Result<bool, AllocError>
    ensures { IfOk result (λ b. b
        ≡ spec.is_names_text naming.now ranks.now lines.now text.now) }
{
    if !has_table_names(alloc, naming, ranks, text)? {
        return Ok(false);
    }
    if !has_field_names(alloc, ranks, lines, text)? {
        return Ok(false);
    }
    Ok(has_names(text))
}
