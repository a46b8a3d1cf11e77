//! Whether the text of a struct in parts is its schema's.

ghost use Rattle.std.specs.Prelude.{◌≡◌, ◌++◌, IfOk, OnOk, IsTrue};
ghost use Rattle.std.specs.Option.{option_copied};
ghost use Rattle.planus_tie.specs.Bare as bare_spec;
ghost use Rattle.planus_tie.specs.LongStructs as spec;

use crate::bare::bare;
use crate::entries::{back, front};
use crate::field_texts::{push_fields, push_put};
use crate::holes::{Holes, push_each, push_filled};
use crate::naming::Naming;
use crate::pieces::{push_number, push_str};
use crate::plains::push_layout;
use crate::reading::{after, after_in};
use planus_schema::Number;
use std::alloc::{AllocError, Global};

/// A part of a struct: how many fields it has, and its size in bytes.
#[derive(Clone, Copy)]
pub(crate) struct Part {
    pub(crate) count: usize,
    pub(crate) size: u64,
}

fn start_of(fields: &[Holes]) -> u64
    ensures { result ≡ spec.start_of fields.now }
{
    match fields.split_first() {
        Some((field, _)) => field.number.magnitude,
        None => 0,
    }
}

fn next_in(start: u64, size: u64, fields: &[Holes]) -> u64
    ensures { result ≡ spec.next_in start size fields.now }
{
    match fields.split_first() {
        Some((field, _)) => field.number.magnitude.saturating_sub(start),
        None => size,
    }
}

fn part_holes(start: u64, next: u64, field: Holes) -> Holes
    ensures { result ≡ spec.part_holes start next field }
{
    let offset = field.number.magnitude.saturating_sub(start);
    Holes {
        index: field.index,
        place: field.place,
        base: field.base,
        number: Number {
            negative: false,
            magnitude: offset,
        },
        size: field.size,
        alignment: field.alignment,
        count: field.count,
        padding: next
            .saturating_sub(offset)
            .saturating_sub(field.size as u64),
    }
}

fn part_fields(
    alloc: Global,
    start: u64,
    size: u64,
    fields: &[Holes],
) -> Result<Vec<Holes>, AllocError>
    ensures { IfOk result (λ part. part.items ≡ spec.part_fields start size fields.now) }
{
    let mut part = Vec::new(alloc);
    let mut rest = fields;
    'fields: while let Some((field, after)) = rest.split_first() {
        part.push(part_holes(start, next_in(start, size, after), *field))?;
        rest = after;
    }
    Ok(part)
}

#[tactic(auto, unfolding(crate::specs::LongStructs::written_text))]
fn push_written(
    out: &mut Vec<u8>,
    naming: &Naming<'_>,
    own: Holes,
    size: u64,
    fields: &[Holes],
) -> Result<(), AllocError>
    ensures { OnOk result (out.new.items ≡ out.old.items
        ++ spec.written_text naming.now own size fields.now) }
{
    push_str(out, "const SIZE: usize = ")?;
    push_number(out, size)?;
    push_str(out, "; fn put(&self, bytes: &mut [u8]) {")?;
    push_put(out, naming, own, fields)
}

#[tactic(auto, unfolding(crate::specs::LongStructs::part_text))]
fn push_part(
    out: &mut Vec<u8>,
    naming: &Naming<'_>,
    own: Holes,
    fields: &[Holes],
) -> Result<(), AllocError>
    ensures { OnOk result (out.new.items ≡ out.old.items
        ++ spec.part_text naming.now own fields.now) }
{
    push_filled(out, naming, own, "buffer, offset;")?;
    push_each(out, naming, fields, "$w,")?;
    push_filled(out, naming, own, ") } }")
}

fn written_text(
    alloc: Global,
    naming: &Naming<'_>,
    own: Holes,
    size: u64,
    fields: &[Holes],
) -> Result<Vec<u8>, AllocError>
    ensures { IfOk result (λ out. out.items
        ≡ bare_spec.bare (spec.written_text naming.now own size fields.now)) }
{
    let mut out = Vec::new(alloc);
    push_written(&mut out, naming, own, size, fields)?;
    bare(alloc, &out)
}

fn part_text(
    alloc: Global,
    naming: &Naming<'_>,
    own: Holes,
    fields: &[Holes],
) -> Result<Vec<u8>, AllocError>
    ensures { IfOk result (λ out. out.items
        ≡ bare_spec.bare (spec.part_text naming.now own fields.now)) }
{
    let mut out = Vec::new(alloc);
    push_part(&mut out, naming, own, fields)?;
    bare(alloc, &out)
}

#[tactic(auto, unfolding(crate::specs::LongStructs::behind_part))]
fn behind_part<'a>(
    alloc: Global,
    naming: &Naming<'_>,
    own: Holes,
    size: u64,
    fields: &[Holes],
    text: Option<&'a [u8]>,
) -> Result<Option<&'a [u8]>, AllocError>
    ensures { IfOk result (λ found. option_copied found
        ≡ spec.behind_part naming.now own size fields.now (option_copied text.entry)) }
{
    let written = written_text(alloc, naming, own, size, fields)?;
    let wanted = part_text(alloc, naming, own, fields)?;
    Ok(after_in(
        &wanted,
        after_in(b"read_fields!(", after_in(&written, text)),
    ))
}

// The part has the first of these fields.
fn behind_first<'a>(
    alloc: Global,
    naming: &Naming<'_>,
    own: Holes,
    part: Part,
    fields: &[Holes],
    text: Option<&'a [u8]>,
) -> Result<Option<&'a [u8]>, AllocError>
    ensures { IfOk result (λ found. option_copied found
        ≡ spec.behind_first naming.now own part fields.now (option_copied text.entry)) }
{
    let own_fields = front(fields, part.count);
    let part_fields = part_fields(alloc, start_of(fields), part.size, own_fields)?;
    behind_part(alloc, naming, own, part.size, &part_fields, text)
}

fn behind_parts<'a>(
    alloc: Global,
    naming: &Naming<'_>,
    own: Holes,
    fields: &[Holes],
    parts: &[Part],
    text: Option<&'a [u8]>,
) -> Result<Option<&'a [u8]>, AllocError>
    ensures { IfOk result (λ found. option_copied found
        ≡ spec.behind_parts naming.now own fields.now parts.now (option_copied text.entry)) }
{
    let mut found = text;
    let mut rest = fields;
    for part in parts {
        found = behind_first(alloc, naming, own, *part, rest, found)?;
        rest = back(rest, part.count);
    }
    Ok(if rest.is_empty() { found } else { None })
}

// How many fields are listed, up to `)`: paddings are `_` with a size.
fn count_at(text: &[u8]) -> usize {
    let mut count = 1usize;
    let mut rest = text;
    'bytes: while let Some((b, after)) = rest.split_first() {
        if *b == b')' {
            return count;
        }
        if *b == b',' && !after.starts_with(b"_:") {
            count = count.saturating_add(1);
        }
        rest = after;
    }
    count
}

fn number_at(text: &[u8]) -> u64 {
    let mut number = 0u64;
    for digit in text {
        if !digit.is_ascii_digit() {
            return number;
        }
        let unit = digit.saturating_sub(b'0') as u64;
        number = number.saturating_mul(10).saturating_add(unit);
    }
    number
}

// The parts that a text has, at most one for each field.
fn parts_in(alloc: Global, fields: &[Holes], text: &[u8]) -> Result<Vec<Part>, AllocError> {
    let mut parts = Vec::new(alloc);
    let mut rest = text;
    for _ in fields {
        let sized = after(b"const SIZE:usize=", rest).unwrap_or(&[]);
        if let Some(listed) = after(b"put_fields!(self,bytes;", sized) {
            let part = Part {
                count: count_at(listed),
                size: number_at(sized),
            };
            parts.push(part)?;
            rest = listed;
        }
    }
    Ok(parts)
}

#[tactic(auto, unfolding(crate::specs::LongStructs::head_text))]
fn push_head(
    out: &mut Vec<u8>,
    naming: &Naming<'_>,
    own: Holes,
    fields: &[Holes],
) -> Result<(), AllocError>
    ensures { OnOk result (out.new.items ≡ out.old.items
        ++ spec.head_text naming.now own fields.now) }
{
    push_fields(out, naming, own, fields)?;
    push_layout(out, naming, own)
}

fn head_text(
    alloc: Global,
    naming: &Naming<'_>,
    own: Holes,
    fields: &[Holes],
) -> Result<Vec<u8>, AllocError>
    ensures { IfOk result (λ out. out.items
        ≡ bare_spec.bare (spec.head_text naming.now own fields.now)) }
{
    let mut out = Vec::new(alloc);
    push_head(&mut out, naming, own, fields)?;
    bare(alloc, &out)
}

/// Returns whether a text without layout has parts with all these fields in turn.
pub(crate) fn are_in_parts(
    alloc: Global,
    naming: &Naming<'_>,
    own: Holes,
    fields: &[Holes],
    text: &[u8],
) -> Result<bool, AllocError>
    ensures { IfOk result (λ b. IsTrue b → spec.AreInParts naming.now own fields.now text.now) }
{
    let head = head_text(alloc, naming, own, fields)?;
    let behind = after(&head, text);
    let parts = parts_in(alloc, fields, behind.unwrap_or(&[]))?;
    let found = behind_parts(alloc, naming, own, fields, &parts, behind)?;
    Ok(found.is_some())
}
