//! The search for a place, by a walk over tables that passes over what can't be read.

ghost use Rattle.std.specs.Prelude.{Bool};
ghost use Rattle.planus_read.specs.Places.{place_bytes, place_start, place_offset};
ghost use Rattle.planus_read.specs.Places.{tagged_tag, tagged_place};
ghost use Rattle.planus_read.specs.Slices.{slice_bytes, slice_start};
ghost use Rattle.planus_read.specs.Tables.{table_object, table_slots, table_start};
ghost use Rattle.planus_verify.specs.Schemas.{shapes, variant_in};
ghost use Rattle.planus_verify.specs.Searches.{SearchesTable, SearchesFields, SearchesField};
ghost use Rattle.planus_verify.specs.Searches.{SearchesSteps, Puts, Extends};
ghost use Rattle.planus_verify.specs.Soughts.{ends_of};
ghost use Rattle.planus_verify.specs.Steps.{field_steps, value_steps, variant_steps};
ghost use Rattle.planus_verify.specs.Steps.{reference_steps, place_faults};
ghost use Rattle.planus_verify.specs.Steps.{union_field_steps, unions_field_steps};
ghost use Rattle.planus_verify.specs.declared.fault.Fault.{Fault};
ghost use Rattle.planus_verify.specs.declared.schema.ValueKind.TheVariants as value;

use crate::ends::end_at;
use crate::fault::FieldPlace;
use crate::schema::{FieldKind, FieldShape, Schema, ValueKind, VariantKind};
use crate::search_end::SearchEnd;
use crate::sought::Sought;
use crate::walk::{fields_at, variant_kind};
use planus_read::table_reader::Table;
use planus_read::{Place, SliceWithStartOffset, TableRead, TaggedPlace};
use planus_view::{UnionVector, Vector};
use std::alloc::Global;

/// What is searched for, and by which schema.
#[derive(Drop)]
pub(crate) struct Search<'s> {
    pub schema: Schema<'s>,
    pub sought: Sought,
    pub alloc: Global,
}

// What leads to a place is found before the place: trails are in reverse.
fn put(mut trail: Vec<FieldPlace>, place: FieldPlace) -> SearchEnd
    ensures { Puts trail.items place result }
{
    match trail.push(place) {
        Ok(()) => SearchEnd::Found(trail),
        Err(_) => SearchEnd::NoMemory,
    }
}

fn extended(found: Result<usize, SearchEnd>, place: FieldPlace) -> Result<usize, SearchEnd>
    ensures { Extends place found result }
{
    match found {
        Err(SearchEnd::Found(trail)) => Err(put(trail, place)),
        other => other,
    }
}

/// Searches a table, with all tables to which it leads. `depth` says how many tables may stand one
/// in the other, `left` how many may be reached; returns how many may be after it, if the place
/// isn't found.
#[cycle(search)]
pub(crate) fn search_table(
    search: &Search<'_>,
    index: usize,
    table: Table<'_>,
    depth: u8,
    left: usize,
) -> Result<usize, SearchEnd>
    ensures { SearchesTable (shapes search.now.schema) (ends_of (shapes search.now.schema) search.now.sought) depth index
        (table_object table.entry) (table_slots table.entry) (table_start table.entry) left result }
{
    if depth == 0 {
        return Ok(left);
    }
    if left == 0 {
        return Err(SearchEnd::TooMany);
    }
    if let Some(last) = end_at(&search.schema, search.sought, index, table) {
        return Err(put(Vec::new(search.alloc), last));
    }
    let fields = fields_at(&search.schema, index);
    search_fields(search, fields, index, table, depth - 1, left - 1)
}

#[cycle(search)]
fn search_fields(
    search: &Search<'_>,
    fields: &[FieldShape],
    index: usize,
    table: Table<'_>,
    depth: u8,
    before: usize,
) -> Result<usize, SearchEnd>
    ensures { SearchesFields (shapes search.now.schema) (ends_of (shapes search.now.schema) search.now.sought) depth index
        (table_object table.entry) (table_slots table.entry) (table_start table.entry)
        fields.now before result }
{
    let mut left = before;
    for field in fields {
        left = search_field(search, field, index, table, depth, left)?;
    }
    Ok(left)
}

#[cycle(search)]
fn search_field(
    search: &Search<'_>,
    field: &FieldShape,
    index: usize,
    table: Table<'_>,
    depth: u8,
    left: usize,
) -> Result<usize, SearchEnd>
    ensures { SearchesField (shapes search.now.schema) (ends_of (shapes search.now.schema) search.now.sought) depth
        (field_steps (shapes search.now.schema).variants index (table_object table.entry)
        (table_slots table.entry) (table_start table.entry) field.now) left result }
{
    let slot = field.slot;
    let place = FieldPlace {
        table: index,
        start: table.object().offset_from_start(),
        slot,
        item: None,
    };
    match field.kind {
        FieldKind::Value(kind) => {
            let offset = table.slot_offset(slot);
            if offset == 0 {
                return Ok(left);
            }
            search_value(search, kind, table.object(), offset, place, depth, left)
        }
        FieldKind::Union(union) => search_union(search, union, table, place, depth, left),
        FieldKind::Unions(union) => search_unions(search, union, table, place, depth, left),
    }
}

#[cycle(search)]
fn search_value(
    search: &Search<'_>,
    kind: ValueKind,
    buffer: SliceWithStartOffset<'_>,
    offset: usize,
    place: FieldPlace,
    depth: u8,
    left: usize,
) -> Result<usize, SearchEnd>
    ensures { SearchesField (shapes search.now.schema) (ends_of (shapes search.now.schema) search.now.sought) depth
        (value_steps (place_faults place) kind (slice_bytes buffer.entry)
        (slice_start buffer.entry) offset) left result }
{
    let at = Place::new(buffer, offset);
    match kind {
        ValueKind::Table(index) => search_reference(search, index, at, place, depth, left),
        ValueKind::Tables(index) => {
            search_tables(search, index, buffer, offset, place, depth, left)
        }
        ValueKind::Nested(index) => search_nested(search, index, at, place, depth, left),
        ValueKind::Plain(_) => Ok(left),
        ValueKind::Text => Ok(left),
        ValueKind::Bytes => Ok(left),
        ValueKind::Plains(_) => Ok(left),
        ValueKind::Texts => Ok(left),
    }
}

#[cycle(search)]
fn search_reference(
    search: &Search<'_>,
    index: usize,
    at: Place<'_>,
    place: FieldPlace,
    depth: u8,
    left: usize,
) -> Result<usize, SearchEnd>
    ensures { SearchesSteps (shapes search.now.schema) (ends_of (shapes search.now.schema) search.now.sought) depth
        (reference_steps (Fault.Field place) index (place_bytes at.entry) (place_start at.entry)
        (place_offset at.entry)) left result }
{
    match at.read::<Table<'_>>() {
        Ok(table) => extended(search_table(search, index, table, depth, left), place),
        Err(_) => Ok(left),
    }
}

#[cycle(search)]
fn search_tables(
    search: &Search<'_>,
    index: usize,
    buffer: SliceWithStartOffset<'_>,
    offset: usize,
    place: FieldPlace,
    depth: u8,
    before: usize,
) -> Result<usize, SearchEnd>
    ensures { SearchesField (shapes search.now.schema) (ends_of (shapes search.now.schema) search.now.sought) depth
        (value_steps (place_faults place) (value.Tables index) (slice_bytes buffer.entry)
        (slice_start buffer.entry) offset) before result }
{
    let items = match <Vector<'_, Place<'_>> as TableRead<'_>>::from_buffer(buffer, offset) {
        Ok(items) => items,
        Err(_) => return Ok(before),
    };
    let mut left = before;
    for i in 0..items.len() {
        let at = items.get_unchecked(i);
        left = search_reference(search, index, at, place.at(i), depth, left)?;
    }
    Ok(left)
}

#[cycle(search)]
fn search_nested(
    search: &Search<'_>,
    index: usize,
    at: Place<'_>,
    place: FieldPlace,
    depth: u8,
    left: usize,
) -> Result<usize, SearchEnd>
    ensures { SearchesField (shapes search.now.schema) (ends_of (shapes search.now.schema) search.now.sought) depth
        (value_steps (place_faults place) (value.Nested index) (place_bytes at.entry)
        (place_start at.entry) (place_offset at.entry)) left result }
{
    match at.read::<&[u8]>() {
        Ok(bytes) => {
            let root = Place::new(SliceWithStartOffset::new(bytes, 0), 0);
            search_reference(search, index, root, place, depth, left)
        }
        Err(_) => Ok(left),
    }
}

#[cycle(search)]
fn search_variant(
    search: &Search<'_>,
    union: usize,
    tagged: TaggedPlace<'_>,
    place: FieldPlace,
    depth: u8,
    left: usize,
) -> Result<usize, SearchEnd>
    ensures { SearchesSteps (shapes search.now.schema) (ends_of (shapes search.now.schema) search.now.sought) depth
        (variant_steps (Fault.Field place)
        (variant_in (shapes search.now.schema).variants union (tagged_tag tagged.entry))
        (place_bytes (tagged_place tagged.entry)) (place_start (tagged_place tagged.entry))
        (place_offset (tagged_place tagged.entry))) left result }
{
    match variant_kind(search.schema.variants, union, tagged.tag()) {
        Some(VariantKind::Table(index)) => {
            search_reference(search, index, tagged.place(), place, depth, left)
        }
        Some(VariantKind::Text) => Ok(left),
        Some(VariantKind::Struct(_)) => Ok(left),
        None => Ok(left),
    }
}

#[cycle(search)]
fn search_union(
    search: &Search<'_>,
    union: usize,
    table: Table<'_>,
    place: FieldPlace,
    depth: u8,
    left: usize,
) -> Result<usize, SearchEnd>
    ensures { (required : Bool) → SearchesField (shapes search.now.schema) (ends_of (shapes search.now.schema) search.now.sought) depth
        (union_field_steps (shapes search.now.schema).variants (place_faults place) required union
        place.slot (table_object table.entry) (table_slots table.entry) (table_start table.entry))
        left result }
{
    match table.access_union::<TaggedPlace<'_>>(place.slot, "", "") {
        Ok(Some(tagged)) => search_variant(search, union, tagged, place, depth, left),
        Ok(None) => Ok(left),
        Err(_) => Ok(left),
    }
}

#[cycle(search)]
fn search_unions(
    search: &Search<'_>,
    union: usize,
    table: Table<'_>,
    place: FieldPlace,
    depth: u8,
    before: usize,
) -> Result<usize, SearchEnd>
    ensures { (required : Bool) → SearchesField (shapes search.now.schema) (ends_of (shapes search.now.schema) search.now.sought) depth
        (unions_field_steps (shapes search.now.schema).variants (place_faults place) required union
        place.slot (table_object table.entry) (table_slots table.entry) (table_start table.entry))
        before result }
{
    let items = match table.access_union_vector::<UnionVector<'_, TaggedPlace<'_>>>(
        place.slot, "", "",
    ) {
        Ok(Some(items)) => items,
        Ok(None) => return Ok(before),
        Err(_) => return Ok(before),
    };
    let mut left = before;
    for i in 0..items.len() {
        let Ok(tagged) = items.get_unchecked(i) else {
            unreachable!()
        };
        left = search_variant(search, union, tagged, place.at(i), depth, left)?;
    }
    Ok(left)
}
