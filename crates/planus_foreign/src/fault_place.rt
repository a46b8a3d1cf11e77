//! Where a buffer has a fault.

ghost use Rattle.std.specs.Prelude.{◌≡◌};
ghost use Rattle.planus_foreign.specs.Verifies as spec;

use planus_verify::FieldPlace;

/// Stands for a place that there isn't.
pub const NOWHERE: usize = usize::MAX;

/// The field with a fault: the index of its table in the schema, where the table begins in bytes
/// from the buffer's start, and the field's slot; and the index of the item, of an item of a vector,
/// else [`NOWHERE`]. Of a root that can't be read all four are `NOWHERE`.
#[repr(C)]
#[derive(Clone, Copy)]
pub struct FaultPlace {
    pub table: usize,
    pub start: usize,
    pub slot: usize,
    pub item: usize,
}

/// Returns the place of a root that can't be read.
pub(crate) fn at_root() -> FaultPlace
    ensures { result ≡ spec.at_root }
{
    FaultPlace {
        table: NOWHERE,
        start: NOWHERE,
        slot: NOWHERE,
        item: NOWHERE,
    }
}

/// Returns the place of a field, or of an item.
pub(crate) fn at_field(place: FieldPlace) -> FaultPlace
    ensures { result ≡ spec.at_field place }
{
    FaultPlace {
        table: place.table,
        start: place.start,
        slot: place.slot,
        item: match place.item {
            Some(item) => item,
            None => NOWHERE,
        },
    }
}
