//! The parts of a struct of many fields: consecutive fields, each a struct that is written and read
//! in its turn.

use planus_schema::{Struct, StructField};
use planus_tie::MOST_ELEMENTS;
use std::alloc::{AllocError, Global};

/// The most fields and paddings in whose proof no answer names each.
const FEW_ELEMENTS: usize = 8;

/// The most parts of a struct.
const MOST_PARTS: usize = 16;

/// A part of a struct.
#[derive(Clone, Copy)]
pub(crate) struct Part {
    /// The places of its first field and of the one behind it.
    pub(crate) from: usize,
    pub(crate) to: usize,
    /// Where it begins in the struct, its size and its alignment, in bytes.
    pub(crate) start: usize,
    pub(crate) size: usize,
    pub(crate) alignment: usize,
}

/// Where a field of a struct begins, or else the struct ends.
pub(crate) fn start_at(one: &Struct, place: usize) -> usize {
    match one.fields.get(place) {
        Some(field) => field.distance,
        None => one.size,
    }
}

fn end_of(field: &StructField) -> usize {
    field.distance.saturating_add(field.size)
}

/// The bytes of padding between a field and a place behind it.
fn gap_behind(field: &StructField, next: usize) -> usize {
    next.saturating_sub(end_of(field))
}

/// How many fields and paddings there are between two places, with this end in bytes.
fn elements_between(one: &Struct, from: usize, to: usize, end: usize) -> usize {
    let mut count = 0usize;
    for place in from..to {
        if let Some(field) = one.fields.get(place) {
            let next = place.saturating_add(1);
            let next = if next < to { start_at(one, next) } else { end };
            let gap = gap_behind(field, next);
            count = count.saturating_add(if gap > 0 { 2 } else { 1 });
        }
    }
    count
}

fn alignment_between(one: &Struct, from: usize, to: usize) -> usize {
    let mut alignment = 1usize;
    for place in from..to {
        if let Some(field) = one.fields.get(place) {
            alignment = alignment.max(field.alignment);
        }
    }
    alignment
}

fn rest_of(bytes: usize, alignment: usize) -> usize {
    bytes.checked_rem(alignment).unwrap_or(0)
}

/// The least multiple of an alignment that isn't below.
fn multiple_from(bytes: usize, alignment: usize) -> usize {
    match rest_of(bytes, alignment) {
        0 => bytes,
        rest => bytes.saturating_sub(rest).saturating_add(alignment),
    }
}

/// The fields between two places as a struct, wherever it would stand.
fn part_between(one: &Struct, from: usize, to: usize) -> Part {
    let start = start_at(one, from);
    let alignment = alignment_between(one, from, to);
    let end = match one.fields.get(to.saturating_sub(1)) {
        Some(field) => end_of(field),
        None => start,
    };
    Part {
        from,
        to,
        start,
        size: multiple_from(end.saturating_sub(start), alignment),
        alignment,
    }
}

// It stands where its fields are, and ends before the next.
fn is_fit(one: &Struct, part: Part) -> bool {
    let end = part.start.saturating_add(part.size);
    let elements = elements_between(one, part.from, part.to, end);
    let aligned = rest_of(part.start, part.alignment) == 0;
    aligned && end <= start_at(one, part.to) && elements <= MOST_ELEMENTS
}

/// The longest part from a place on.
fn longest_from(one: &Struct, from: usize) -> Part {
    let next = from.saturating_add(1);
    let last = from.saturating_add(MOST_ELEMENTS).min(one.fields.len());
    let mut longest = part_between(one, from, next);
    for to in next..last {
        let part = part_between(one, from, to.saturating_add(1));
        if is_fit(one, part) {
            longest = part;
        }
    }
    longest
}

/// All fields of a struct.
pub(crate) fn whole(one: &Struct) -> Part {
    Part {
        from: 0,
        to: one.fields.len(),
        start: 0,
        size: one.size,
        alignment: one.alignment,
    }
}

fn elements(one: &Struct) -> usize {
    elements_between(one, 0, one.fields.len(), one.size)
}

/// Whether a struct is written and read in parts.
pub(crate) fn is_long(one: &Struct) -> bool {
    elements(one) > MOST_ELEMENTS
}

/// Whether the proof of a struct's writing names each field.
pub(crate) fn has_answer(one: &Struct) -> bool {
    elements(one) > FEW_ELEMENTS
}

/// Returns the parts of a struct.
pub(crate) fn parts_of(alloc: Global, one: &Struct) -> Result<Vec<Part>, AllocError> {
    let mut parts = Vec::new(alloc);
    let mut from = 0usize;
    for place in 0..one.fields.len() {
        if place == from {
            let part = longest_from(one, from);
            from = part.to;
            parts.push(part)?;
        }
    }
    Ok(parts)
}

/// Whether a struct has more parts than one proof takes.
pub(crate) fn has_too_many_parts(alloc: Global, one: &Struct) -> Result<bool, AllocError> {
    Ok(is_long(one) && parts_of(alloc, one)?.len() > MOST_PARTS)
}

/// What is written one after another: the fields of a part, or a struct's parts.
#[derive(Clone, Copy)]
pub(crate) struct Item {
    /// The place of the field, or that of the part.
    pub(crate) place: usize,
    pub(crate) size: usize,
    pub(crate) is_array: bool,
    /// The bytes of padding behind it.
    pub(crate) gap: usize,
}

/// Returns the fields of a part.
pub(crate) fn items_of(alloc: Global, one: &Struct, part: Part) -> Result<Vec<Item>, AllocError> {
    let mut items = Vec::new(alloc);
    let end = part.start.saturating_add(part.size);
    for place in part.from..part.to {
        if let Some(field) = one.fields.get(place) {
            let next = place.saturating_add(1);
            let next = if next < part.to {
                start_at(one, next)
            } else {
                end
            };
            items.push(Item {
                place,
                size: field.size,
                is_array: field.count.is_some(),
                gap: gap_behind(field, next),
            })?;
        }
    }
    Ok(items)
}

/// Returns the parts of a struct.
pub(crate) fn items_of_parts(
    alloc: Global,
    one: &Struct,
    parts: &[Part],
) -> Result<Vec<Item>, AllocError> {
    let mut items = Vec::new(alloc);
    for (place, part) in parts.iter().enumerate() {
        let end = part.start.saturating_add(part.size);
        items.push(Item {
            place,
            size: part.size,
            is_array: false,
            gap: start_at(one, part.to).saturating_sub(end),
        })?;
    }
    Ok(items)
}
