//! The fields of a table.

ghost use Rattle.std.specs.Prelude.{◌≡◌, ◌≤◌, length, map, OnOk};
ghost use Rattle.planus.specs.Steps.{bare_field, content_of};
ghost use Rattle.planus_pack.specs.Fields as spec;
ghost use Rattle.planus_pack.specs.Results.{Gives};

use crate::pack_error::PackError;
use crate::pack_fault::PackFault;
use planus::{Field, FieldValue};
use planus_schema::TableField;
use std::alloc::AllocError;

fn alignment_of(value: &FieldValue) -> u8
    ensures { result ≡ spec.alignment_of (content_of value.now) }
{
    match value {
        FieldValue::Number { width, .. } => *width,
        FieldValue::Plain { alignment, .. } => *alignment,
        _ => 4,
    }
}

/// Returns the place of the first field whose alignment is less.
fn place_in(alignment: u8, fields: &[Field]) -> usize
    ensures first { result ≡ spec.place_in alignment (map bare_field fields.now) }
    ensures within { result ≤ length fields.now }
{
    let mut place = 0;
    let mut rest = fields;
    'fields: while let Some((first, after)) = rest.split_first() {
        if alignment_of(&first.value) < alignment {
            return place;
        }
        place += 1;
        rest = after;
    }
    place
}

fn insert_field(fields: &mut Vec<Field>, field: Field) -> Result<(), AllocError>
    ensures { OnOk result (map bare_field fields.new.items
        ≡ spec.inserted (bare_field field) (map bare_field fields.old.items)) }
{
    let place = place_in(alignment_of(&field.value), fields);
    fields.insert(place, field)?;
    Ok(())
}

pub(crate) fn with_slot(
    at: usize,
    slot: usize,
    value: FieldValue,
    fields: &mut Vec<Field>,
) -> Result<(), PackError>
    ensures { Gives (λ _. map bare_field fields.new.items) result
        (spec.with_slot at slot (content_of value) (map bare_field fields.old.items)) }
{
    if slot <= 255 {
        let slot = slot as u16;
        insert_field(fields, Field { slot, value })?;
        Ok(())
    } else {
        let kind = PackFault::Unsupported;
        Err(PackError::Fault { at, kind })
    }
}

fn has_slot(slot: usize, fields: &[Field]) -> bool
    ensures { result ≡ spec.has_slot slot (map bare_field fields.now) }
{
    let mut rest = fields;
    'fields: while let Some((first, after)) = rest.split_first() {
        if usize::from(first.slot) == slot {
            return true;
        }
        rest = after;
    }
    false
}

/// Fails where a field is wanted that isn't given by the object at `at`.
pub(crate) fn complete(
    at: usize,
    given: &[Field],
    fields: &[TableField],
) -> Result<usize, PackError>
    ensures { Gives (λ n. n) result
        (spec.complete at (map bare_field given.now) fields.now) }
{
    let mut rest = fields;
    'fields: while let Some((first, after)) = rest.split_first() {
        if first.required && !has_slot(first.slot, given) {
            let kind = PackFault::MissingField;
            return Err(PackError::Fault { at, kind });
        }
        rest = after;
    }
    Ok(0)
}
