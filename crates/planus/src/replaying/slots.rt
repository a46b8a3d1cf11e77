//! The slots of a table of a step, and its size.
ghost use Rattle.std.specs.Prelude.{◌≡◌, ◌==◌, map, None};
ghost use Rattle.std.specs.Option.{is_none};
ghost use Rattle.std.specs.List.{list_any};
ghost use Rattle.planus.specs.Steps.{bare_field, content_of};
ghost use Rattle.planus.specs.Slots as spec;
ghost use Rattle.planus.specs.inner.Declaring.{slots_of, ChecksSlot};

use crate::replaying::faults::Why;
use crate::replaying::steps::{Field, FieldValue};

fn is_used(fields: &[Field], slot: u16) -> bool
    ensures { result ≡ list_any (λ field. field.slot == slot) fields.now }
{
    fields.iter().any(|field| field.slot == slot)
}

pub(crate) fn check_slot(fields: &[Field], slot: u16) -> Result<(), Why>
    ensures { ChecksSlot (slots_of (map bare_field fields.now)) slot result }
{
    if slot > 255 {
        Err(Why::SlotTooBig)
    } else if is_used(fields, slot) {
        Err(Why::SlotTwice)
    } else {
        Ok(())
    }
}

fn size_of(value: &FieldValue) -> usize
    ensures { result ≡ spec.size_of (content_of value.now) }
{
    match value {
        FieldValue::Number { width, .. } => *width as usize,
        FieldValue::Plain { bytes, .. } => bytes.len(),
        FieldValue::Ref(_) | FieldValue::Tags(_) | FieldValue::Values(_) => 4,
    }
}

/// Whether the fields have at most 65531 bytes together, so that their table has at most 65535.
pub(crate) fn fits_table(fields: &[Field]) -> bool
    ensures { result ≡ is_none (spec.size_fault (map bare_field fields.now)) }
{
    let mut room = 65531;
    for field in fields {
        let size = size_of(&field.value);
        if room < size {
            return false;
        }
        room -= size;
    }
    true
}
