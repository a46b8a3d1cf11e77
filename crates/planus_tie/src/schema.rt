//! Whether a text is the schema as a value.

ghost use Rattle.std.specs.Prelude.{◌≡◌, ◌++◌, IfOk, OnOk, IsTrue, codes, decimal};
ghost use Rattle.std.specs.List.{flat_map};
ghost use Rattle.planus_schema.specs.Plans.{line_of};
ghost use Rattle.planus_tie.specs.Shapes as spec;
ghost use Rattle.planus_tie.specs.SchemaTies as schema_ties_spec;

use crate::bare::bare;
use crate::kinds::{is_bytes, read_slot, size_of};
use crate::name_lists::is_names_text;
use crate::naming::Naming;
use crate::pieces::{push_number, push_str};
use crate::ranks::rank_in;
use crate::reading::{after, begins, body_of};
use crate::shapes::{MemberType, Range, Tagged, lines_of, ranges_of, tagged_of};
use planus_schema::{Base, Declared, Line, TableField};
use std::alloc::{AllocError, Global};

fn push_plural(out: &mut Vec<u8>, name: &str, vector: bool) -> Result<(), AllocError>
    ensures { OnOk result (out.new.items ≡ out.old.items ++ spec.plural name.now vector) }
{
    push_str(out, name)?;
    push_str(out, if vector { "s" } else { "" })
}

fn push_numbered(
    out: &mut Vec<u8>,
    name: &str,
    vector: bool,
    number: usize,
) -> Result<(), AllocError>
    ensures { OnOk result (out.new.items ≡ out.old.items
        ++ spec.numbered (spec.plural name.now vector) number) }
{
    push_plural(out, name, vector)?;
    push_str(out, "(")?;
    push_number(out, number as u64)?;
    push_str(out, ")")
}

fn push_text_kind(out: &mut Vec<u8>, name: &str, vector: bool) -> Result<(), AllocError>
    ensures { OnOk result (out.new.items ≡ out.old.items
        ++ spec.value_kind (spec.plural name.now vector)) }
{
    push_str(out, "Value(ValueKind::")?;
    push_plural(out, name, vector)?;
    push_str(out, ")")
}

fn push_value_kind(
    out: &mut Vec<u8>,
    name: &str,
    vector: bool,
    number: usize,
) -> Result<(), AllocError>
    ensures { OnOk result (out.new.items ≡ out.old.items
        ++ spec.value_kind (spec.numbered (spec.plural name.now vector) number)) }
{
    push_str(out, "Value(ValueKind::")?;
    push_numbered(out, name, vector, number)?;
    push_str(out, ")")
}

fn push_base_kind(
    out: &mut Vec<u8>,
    declared: &[Declared],
    ranks: &[usize],
    base: Base,
    vector: bool,
) -> Result<(), AllocError>
    ensures { OnOk result (out.new.items ≡ out.old.items
        ++ spec.base_kind declared.now ranks.now base vector) }
{
    match base {
        Base::Text => push_text_kind(out, "Text", vector),
        Base::Table(index) => push_value_kind(out, "Table", vector, rank_in(ranks, index)),
        Base::Union(index) => push_numbered(out, "Union", vector, rank_in(ranks, index)),
        _ => push_value_kind(out, "Plain", vector, size_of(declared, base)),
    }
}

fn push_bytes_kind(
    out: &mut Vec<u8>,
    ranks: &[usize],
    nested: Option<usize>,
) -> Result<(), AllocError>
    ensures { OnOk result (out.new.items ≡ out.old.items ++ spec.bytes_kind ranks.now nested) }
{
    match nested {
        Some(root) => push_value_kind(out, "Nested", false, rank_in(ranks, root)),
        None => push_text_kind(out, "Bytes", false),
    }
}

fn push_field_kind(
    out: &mut Vec<u8>,
    declared: &[Declared],
    ranks: &[usize],
    field: &TableField,
) -> Result<(), AllocError>
    ensures { OnOk result (out.new.items ≡ out.old.items
        ++ spec.field_kind declared.now ranks.now field.now) }
{
    if is_bytes(field.kind) {
        return push_bytes_kind(out, ranks, field.nested);
    }
    push_base_kind(out, declared, ranks, field.kind.base, field.kind.vector)
}

fn push_required(out: &mut Vec<u8>, required: bool) -> Result<(), AllocError>
    ensures { OnOk result (out.new.items ≡ out.old.items ++ spec.required_text required) }
{
    push_str(out, if required { "true" } else { "false" })
}

fn push_slot(out: &mut Vec<u8>, slot: usize) -> Result<(), AllocError>
    ensures { OnOk result (out.new.items ≡ out.old.items ++ spec.slot_text slot) }
{
    push_str(out, "FieldShape{slot:")?;
    push_number(out, slot as u64)?;
    Ok(())
}

fn push_field_start(out: &mut Vec<u8>, field: &TableField) -> Result<(), AllocError>
    ensures { OnOk result (out.new.items ≡ out.old.items ++ spec.field_start field.now) }
{
    push_slot(out, read_slot(field))?;
    push_str(out, ",required:")?;
    push_required(out, field.required)
}

fn push_end(out: &mut Vec<u8>, comma: &str) -> Result<(), AllocError>
    ensures { OnOk result (out.new.items ≡ out.old.items ++ (codes "}" ++ comma.now)) }
{
    push_str(out, "}")?;
    push_str(out, comma)
}

fn push_field(
    out: &mut Vec<u8>,
    declared: &[Declared],
    ranks: &[usize],
    comma: &str,
    line: &Line<'_>,
) -> Result<(), AllocError>
    ensures { OnOk result (out.new.items ≡ out.old.items
        ++ spec.field_text declared.now ranks.now comma.now (line_of line.now)) }
{
    push_field_start(out, line.field)?;
    push_str(out, ",kind:FieldKind::")?;
    push_field_kind(out, declared, ranks, line.field)?;
    push_end(out, comma)
}

fn push_fields(
    out: &mut Vec<u8>,
    declared: &[Declared],
    ranks: &[usize],
    comma: &str,
    lines: &[Line<'_>],
) -> Result<(), AllocError>
    ensures { OnOk result (out.new.items ≡ out.old.items
        ++ spec.field_texts declared.now ranks.now comma.now lines.now) }
{
    for line in lines {
        push_field(out, declared, ranks, comma, line)?;
    }
    Ok(())
}

fn push_range_start(out: &mut Vec<u8>, first: usize) -> Result<(), AllocError>
    ensures { OnOk result (out.new.items ≡ out.old.items ++ spec.range_start first) }
{
    push_str(out, "TableShape{first:")?;
    push_number(out, first as u64)?;
    Ok(())
}

fn push_range(out: &mut Vec<u8>, comma: &str, range: &Range) -> Result<(), AllocError>
    ensures { OnOk result (out.new.items ≡ out.old.items ++ spec.range_text comma.now range.now) }
{
    push_range_start(out, range.first)?;
    push_str(out, ",count:")?;
    push_number(out, range.count as u64)?;
    push_end(out, comma)
}

fn push_ranges(out: &mut Vec<u8>, comma: &str, ranges: &[Range]) -> Result<(), AllocError>
    ensures { OnOk result (out.new.items ≡ out.old.items
        ++ flat_map (spec.range_text comma.now) ranges.now) }
{
    for range in ranges {
        push_range(out, comma, range)?;
    }
    Ok(())
}

fn push_type(out: &mut Vec<u8>, name: &str, number: usize) -> Result<(), AllocError>
    ensures { OnOk result (out.new.items ≡ out.old.items ++ spec.numbered name.now number) }
{
    push_str(out, name)?;
    push_str(out, "(")?;
    push_number(out, number as u64)?;
    push_str(out, ")")
}

fn push_member_type(out: &mut Vec<u8>, kind: MemberType) -> Result<(), AllocError>
    ensures { OnOk result (out.new.items ≡ out.old.items ++ spec.member_text kind) }
{
    match kind {
        MemberType::Table(index) => push_type(out, "Table", index),
        MemberType::Struct(size) => push_type(out, "Struct", size),
        MemberType::Text => push_str(out, "Text"),
    }
}

fn push_member(out: &mut Vec<u8>, comma: &str, member: &Tagged) -> Result<(), AllocError>
    ensures { OnOk result (out.new.items ≡ out.old.items ++ spec.tagged_text comma.now member.now) }
{
    push_str(out, "Variant{union:")?;
    push_number(out, member.union as u64)?;
    push_str(out, ",tag:")?;
    push_number(out, member.tag as u64)?;
    push_str(out, ",kind:VariantKind::")?;
    push_member_type(out, member.kind)?;
    push_end(out, comma)
}

fn push_members(out: &mut Vec<u8>, comma: &str, members: &[Tagged]) -> Result<(), AllocError>
    ensures { OnOk result (out.new.items ≡ out.old.items
        ++ flat_map (spec.tagged_text comma.now) members.now) }
{
    for member in members {
        push_member(out, comma, member)?;
    }
    Ok(())
}

pub(crate) fn comma_of(count: usize) -> &'static str
    ensures { result.now ≡ spec.comma_of count }
{
    if count == 1 { "" } else { "," }
}

pub(crate) fn list_start(alloc: Global, count: usize) -> Result<Vec<u8>, AllocError>
    ensures { IfOk result (λ out. out.items ≡ decimal count ++ codes "]=[") }
{
    let mut out = Vec::new(alloc);
    push_number(&mut out, count as u64)?;
    push_str(&mut out, "]=[")?;
    Ok(out)
}

fn fields_list(
    alloc: Global,
    declared: &[Declared],
    ranks: &[usize],
    lines: &[Line<'_>],
) -> Result<Vec<u8>, AllocError>
    ensures { IfOk result (λ out. out.items
        ≡ spec.fields_list declared.now ranks.now lines.now) }
{
    let mut out = list_start(alloc, lines.len())?;
    push_fields(&mut out, declared, ranks, comma_of(lines.len()), lines)?;
    push_str(&mut out, "];")?;
    Ok(out)
}

fn ranges_list(alloc: Global, ranges: &[Range]) -> Result<Vec<u8>, AllocError>
    ensures { IfOk result (λ out. out.items ≡ spec.ranges_list ranges.now) }
{
    let mut out = list_start(alloc, ranges.len())?;
    push_ranges(&mut out, comma_of(ranges.len()), ranges)?;
    push_str(&mut out, "];")?;
    Ok(out)
}

fn tagged_list(alloc: Global, members: &[Tagged]) -> Result<Vec<u8>, AllocError>
    ensures { IfOk result (λ out. out.items ≡ spec.tagged_list members.now) }
{
    let mut out = list_start(alloc, members.len())?;
    push_members(&mut out, comma_of(members.len()), members)?;
    push_str(&mut out, "];")?;
    Ok(out)
}

fn has_fields(
    alloc: Global,
    declared: &[Declared],
    ranks: &[usize],
    lines: &[Line<'_>],
    text: &[u8],
) -> Result<bool, AllocError>
    ensures { IfOk result (λ b. b
        ≡ spec.has_fields declared.now ranks.now lines.now text.now) }
{
    let wanted = fields_list(alloc, declared, ranks, lines)?;
    Ok(begins(after(b"pub const FIELDS:[FieldShape;", text), &wanted))
}

fn has_ranges(alloc: Global, declared: &[Declared], text: &[u8]) -> Result<bool, AllocError>
    ensures { IfOk result (λ b. b ≡ spec.has_ranges declared.now text.now) }
{
    let ranges = ranges_of(alloc, declared)?;
    let wanted = ranges_list(alloc, &ranges)?;
    Ok(begins(after(b"pub const TABLES:[TableShape;", text), &wanted))
}

fn has_tagged(
    alloc: Global,
    declared: &[Declared],
    ranks: &[usize],
    text: &[u8],
) -> Result<bool, AllocError>
    ensures { IfOk result (λ b. b ≡ spec.has_tagged declared.now ranks.now text.now) }
{
    let members = tagged_of(alloc, ranks, declared)?;
    let wanted = tagged_list(alloc, &members)?;
    Ok(begins(after(b"pub const VARIANTS:[Variant;", text), &wanted))
}

fn has_schema(text: &[u8]) -> bool
    ensures { result ≡ spec.has_schema text.now }
{
    begins(
        body_of(b"fn schema()->", text),
        b"Schema{fields:&FIELDS,tables:&TABLES,variants:&VARIANTS}}",
    )
}

fn is_schema_text(
    alloc: Global,
    naming: &Naming<'_>,
    ranks: &[usize],
    lines: &[Line<'_>],
    text: &[u8],
) -> Result<bool, AllocError>
    ensures { IfOk result (λ b. b
        ≡ schema_ties_spec.is_schema_text naming.now ranks.now lines.now text.now) }
{
    if !has_fields(alloc, naming.declared, ranks, lines, text)? {
        return Ok(false);
    }
    if !has_ranges(alloc, naming.declared, text)? {
        return Ok(false);
    }
    if !has_tagged(alloc, naming.declared, ranks, text)? {
        return Ok(false);
    }
    if !has_schema(text) {
        return Ok(false);
    }
    is_names_text(alloc, naming, ranks, lines, text)
}

/// Returns whether this is the text of the schema as a value, and of its names.
pub(crate) fn is_schema_tied(
    alloc: Global,
    naming: &Naming<'_>,
    ranks: &[usize],
    text: &[u8],
) -> Result<bool, AllocError>
    ensures { IfOk result (λ b. IsTrue b → schema_ties_spec.IsSchemaTied naming.now ranks.now
        text.now) }
{
    let lines = lines_of(alloc, naming.declared)?;
    let without = bare(alloc, text)?;
    is_schema_text(alloc, naming, ranks, &lines, &without)
}
