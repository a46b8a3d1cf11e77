//! Where a search ends.

ghost use Rattle.std.specs.Prelude.{◌≡◌, true, false, IfSome, IfNone, ℕ};
ghost use Rattle.planus_read.specs.Places.{place_bytes, place_offset};
ghost use Rattle.planus_read.specs.Slices.{slice_bytes, slice_start};
ghost use Rattle.planus_read.specs.Tables.{table_object, table_slots, table_start};
ghost use Rattle.planus_verify.specs.Schemas.{shapes};
ghost use Rattle.planus_verify.specs.Soughts.{ItemFails, VectorFails, KindFails, FieldEnds};
ghost use Rattle.planus_verify.specs.Soughts.{FieldsEnd, ends_of};
ghost use Rattle.planus_verify.specs.declared.fault.FieldPlace.{FieldPlace};

use crate::fault::FieldPlace;
use crate::readings::text_is_there;
use crate::schema::{FieldKind, FieldShape, Schema, ValueKind};
use crate::sought::Sought;
use crate::walk::fields_at;
use planus_read::table_reader::Table;
use planus_read::{Place, SliceWithStartOffset, TableRead};
use planus_view::Vector;

// Whether a place is of a table.
fn is_at(place: FieldPlace, index: usize, table: Table<'_>) -> bool
    ensures here { result ≡ true → (place.table ≡ index)
        × (place.start ≡ table_start table.entry) }
    ensures elsewhere { result ≡ false → place.table ≡ index
        → place.start ≡ table_start table.entry → ⊥ }
{
    place.table == index && place.start == table.object().offset_from_start()
}

fn item_fails(kind: ValueKind, at: Place<'_>) -> bool
    ensures fails { result ≡ true → ItemFails kind (place_bytes at.entry) (place_offset at.entry) }
    ensures reads { result ≡ false
        → ItemFails kind (place_bytes at.entry) (place_offset at.entry) → ⊥ }
{
    match kind {
        ValueKind::Tables(_) => match at.read::<Table<'_>>() {
            Ok(_) => false,
            Err(_) => true,
        },
        ValueKind::Texts => match text_is_there(at) {
            Ok(()) => false,
            Err(_) => true,
        },
        ValueKind::Plain(_)
        | ValueKind::Text
        | ValueKind::Bytes
        | ValueKind::Plains(_)
        | ValueKind::Table(_)
        | ValueKind::Nested(_) => false,
    }
}

fn first_failing(
    kind: ValueKind,
    buffer: SliceWithStartOffset<'_>,
    offset: usize,
    begin: usize,
) -> Option<usize>
    ensures some { IfSome result (λ i. VectorFails begin kind (slice_bytes buffer.entry)
        (slice_start buffer.entry) offset i) }
    ensures none { IfNone result ((i : ℕ) → VectorFails begin kind (slice_bytes buffer.entry)
        (slice_start buffer.entry) offset i → ⊥) }
{
    let items = match <Vector<'_, Place<'_>> as TableRead<'_>>::from_buffer(buffer, offset) {
        Ok(items) => items,
        Err(_) => return None,
    };
    if items.items().offset_from_start() != begin {
        return None;
    }
    for i in 0..items.len() {
        if item_fails(kind, items.get_unchecked(i)) {
            return Some(i);
        }
    }
    None
}

fn failing_item(
    kind: FieldKind,
    buffer: SliceWithStartOffset<'_>,
    offset: usize,
    begin: usize,
) -> Option<usize>
    ensures some { IfSome result (λ i. KindFails begin kind (slice_bytes buffer.entry)
        (slice_start buffer.entry) offset i) }
    ensures none { IfNone result ((i : ℕ) → KindFails begin kind (slice_bytes buffer.entry)
        (slice_start buffer.entry) offset i → ⊥) }
{
    match kind {
        FieldKind::Value(kind) => first_failing(kind, buffer, offset, begin),
        FieldKind::Union(_) | FieldKind::Unions(_) => None,
    }
}

fn item_of(field: &FieldShape, begin: usize, index: usize, table: Table<'_>) -> Option<FieldPlace>
    ensures some { IfSome result (λ last. FieldEnds begin index (table_object table.entry)
        (table_slots table.entry) (table_start table.entry) field.now last) }
    ensures none { IfNone result ((last : FieldPlace) → FieldEnds begin index
        (table_object table.entry) (table_slots table.entry) (table_start table.entry) field.now last
        → ⊥) }
{
    let offset = table.slot_offset(field.slot);
    if offset == 0 {
        return None;
    }
    let object = table.object();
    match failing_item(field.kind, object, offset, begin) {
        Some(item) => Some(FieldPlace {
            table: index,
            start: object.offset_from_start(),
            slot: field.slot,
            item: Some(item),
        }),
        None => None,
    }
}

fn item_in(
    fields: &[FieldShape],
    begin: usize,
    index: usize,
    table: Table<'_>,
) -> Option<FieldPlace>
    ensures some { IfSome result (λ last. FieldsEnd begin index (table_object table.entry)
        (table_slots table.entry) (table_start table.entry) fields.now last) }
    ensures none { IfNone result ((last : FieldPlace) → FieldsEnd begin index
        (table_object table.entry) (table_slots table.entry) (table_start table.entry) fields.now last
        → ⊥) }
{
    for field in fields {
        if let Some(last) = item_of(field, begin, index, table) {
            return Some(last);
        }
    }
    None
}

/// Returns what is sought, if it is of this table, which has this index in the schema.
pub(crate) fn end_at(
    schema: &Schema<'_>,
    sought: Sought,
    index: usize,
    table: Table<'_>,
) -> Option<FieldPlace>
    ensures some { IfSome result (λ last. ends_of (shapes schema.now) sought last index
        (table_object table.entry) (table_slots table.entry) (table_start table.entry)) }
    ensures none { IfNone result ((last : FieldPlace) → ends_of (shapes schema.now) sought last index
        (table_object table.entry) (table_slots table.entry) (table_start table.entry) → ⊥) }
{
    match sought {
        Sought::Field(place) => {
            if is_at(place, index, table) {
                Some(place)
            } else {
                None
            }
        }
        Sought::Item(begin) => item_in(fields_at(schema, index), begin, index, table),
    }
}
