//! Whether the text of a struct is its schema's.

ghost use Rattle.std.specs.Prelude.{◌≡◌, IfOk, IsTrue};
ghost use Rattle.planus_tie.specs.Structs as spec;

use crate::bare::bare;
use crate::field_texts::{push_fields, push_put, push_taken};
use crate::holes::{Holes, has_text};
use crate::long_structs::are_in_parts;
use crate::naming::Naming;
use crate::plains::{push_layout, push_read};
use planus_schema::{Base, Number, Struct, StructField};
use std::alloc::{AllocError, Global};

/// The code of more fields and paddings is in parts, each a struct.
pub const MOST_ELEMENTS: usize = 12;

fn struct_holes(index: usize, one: &Struct) -> Holes
    ensures { result ≡ spec.struct_holes index one.now }
{
    Holes {
        index,
        place: 0,
        base: Base::Struct(index),
        number: Number {
            negative: false,
            magnitude: 0,
        },
        size: one.size,
        alignment: one.alignment,
        count: None,
        padding: 0,
    }
}

fn field_holes(index: usize, place: usize, next: usize, field: &StructField) -> Holes
    ensures { result ≡ spec.field_holes index place next field.now }
{
    Holes {
        index,
        place,
        base: field.base,
        number: Number {
            negative: false,
            magnitude: field.distance as u64,
        },
        size: field.size,
        alignment: field.alignment,
        count: field.count,
        padding: next
            .saturating_sub(field.distance)
            .saturating_sub(field.size) as u64,
    }
}

fn offset_of(size: usize, fields: &[StructField]) -> usize
    ensures { result ≡ spec.offset_of size fields.now }
{
    match fields.split_first() {
        Some((field, _)) => field.distance,
        None => size,
    }
}

fn fields_of(alloc: Global, index: usize, one: &Struct) -> Result<Vec<Holes>, AllocError>
    ensures { IfOk result (λ fields. fields.items
        ≡ spec.fields_from index one.now.size 0 one.now.fields.items) }
{
    let mut fields = Vec::new(alloc);
    let mut place = 0;
    let mut rest = one.fields.as_slice();
    'fields: while let Some((field, after)) = rest.split_first() {
        let next = offset_of(one.size, after);
        fields.push(field_holes(index, place, next, field))?;
        place += 1;
        rest = after;
    }
    Ok(fields)
}

fn struct_text(
    alloc: Global,
    naming: &Naming<'_>,
    own: Holes,
    fields: &[Holes],
) -> Result<Vec<u8>, AllocError>
    ensures { IfOk result (λ out. out.items ≡ spec.struct_text naming.now own fields.now) }
{
    let mut out = Vec::new(alloc);
    push_fields(&mut out, naming, own, fields)?;
    push_layout(&mut out, naming, own)?;
    push_put(&mut out, naming, own, fields)?;
    push_read(&mut out, naming, own)?;
    push_taken(&mut out, naming, own, fields)?;
    Ok(out)
}

// With its padding, if there is some.
fn elements(field: Holes) -> usize
    ensures { result ≡ spec.elements field }
{
    if field.padding == 0 { 1 } else { 2 }
}

fn is_above(room: usize, fields: &[Holes]) -> bool
    ensures { result ≡ spec.is_above room fields.now }
{
    let mut left = room;
    let mut rest = fields;
    'fields: while let Some((field, next)) = rest.split_first() {
        let taken = elements(*field);
        if left < taken {
            return true;
        }
        left -= taken;
        rest = next;
    }
    false
}

fn is_long(fields: &[Holes]) -> bool
    ensures { result ≡ spec.is_long fields.now }
{
    is_above(MOST_ELEMENTS, fields)
}

fn is_struct_text(
    alloc: Global,
    naming: &Naming<'_>,
    own: Holes,
    fields: &[Holes],
    text: &[u8],
) -> Result<bool, AllocError>
    ensures { IfOk result (λ b. IsTrue b
        → spec.IsStructText naming.now own fields.now text.now) }
{
    if is_long(fields) {
        return are_in_parts(alloc, naming, own, fields, text);
    }
    let wanted = struct_text(alloc, naming, own, fields)?;
    has_text(alloc, text, &wanted)
}

/// Returns whether this is the text of a struct.
pub(crate) fn is_struct_tied(
    alloc: Global,
    naming: &Naming<'_>,
    index: usize,
    one: &Struct,
    text: &[u8],
) -> Result<bool, AllocError>
    ensures { IfOk result (λ b. IsTrue b → spec.IsStructTied naming.now index one.now text.now) }
{
    let fields = fields_of(alloc, index, one)?;
    let without = bare(alloc, text)?;
    is_struct_text(alloc, naming, struct_holes(index, one), &fields, &without)
}
