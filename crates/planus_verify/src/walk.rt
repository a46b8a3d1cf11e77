//! The walk over tables.

ghost use Rattle.std.specs.Prelude.{◌≡◌, Some, take, drop};
ghost use Rattle.planus_read.specs.Places.{place_bytes, place_start, place_offset};
ghost use Rattle.planus_read.specs.Places.{tagged_tag, tagged_place};
ghost use Rattle.planus_read.specs.Slices.{slice_bytes, slice_start};
ghost use Rattle.planus_read.specs.Tables.{table_object, table_slots, table_start};
ghost use Rattle.planus_verify.specs.Schemas.{shapes, fields_of, variant_in};
ghost use Rattle.planus_verify.specs.Steps.{fields_steps, field_steps, value_steps, variant_steps};
ghost use Rattle.planus_verify.specs.Steps.{reference_steps, text_steps};
ghost use Rattle.planus_verify.specs.Steps.{union_field_steps, unions_field_steps, place_faults};
ghost use Rattle.planus_verify.specs.Walks.{NoTable, InOrder, Walks, tested_as, absent_as};

use crate::fault::{Fault, FieldPlace};
use crate::readings::{
    bytes_are_there, plain_is_there, plains_are_there, struct_is_there, text_is_there,
};
use crate::schema::{FieldKind, FieldShape, Schema, ValueKind, Variant, VariantKind};
use planus_read::errors::ErrorKind;
use planus_read::table_reader::Table;
use planus_read::{Place, SliceWithStartOffset, TableRead, TaggedPlace};
use planus_view::{UnionVector, Vector};

fn some_fields(all: &[FieldShape], first: usize, count: usize) -> &[FieldShape]
    ensures { result.now ≡ take count (drop first all.now) }
{
    if first > all.len() {
        return &[];
    }
    let rest = &all[first..];
    if count > rest.len() {
        return rest;
    }
    &rest[..count]
}

pub(crate) fn fields_at<'s>(schema: &Schema<'s>, index: usize) -> &'s [FieldShape]
    ensures { result.now ≡ fields_of (shapes schema.now) index }
{
    match schema.tables.get(index) {
        Some(shape) => some_fields(schema.fields, shape.first, shape.count),
        None => &[],
    }
}

pub(crate) fn variant_kind(variants: &[Variant], union: usize, tag: u8) -> Option<VariantKind>
    ensures { result ≡ variant_in variants.now union tag }
{
    for variant in variants {
        if variant.union == union && variant.tag == tag {
            return Some(variant.kind);
        }
    }
    None
}

fn tested(place: FieldPlace, read: Result<(), ErrorKind>, left: usize) -> Result<usize, Fault>
    ensures { result ≡ tested_as place left read }
{
    match read {
        Ok(()) => Ok(left),
        Err(kind) => Err(Fault::Field(place, kind)),
    }
}

fn absent(required: bool, place: FieldPlace, left: usize) -> Result<usize, Fault>
    ensures { result ≡ absent_as place required left }
{
    if required {
        return Err(Fault::Field(place, ErrorKind::MissingRequired));
    }
    Ok(left)
}

impl FieldPlace {
    pub(crate) fn at(self, item: usize) -> FieldPlace
        ensures { result ≡ record {
          table = self.table;
          start = self.start;
          slot = self.slot;
          item = Some item;
        } }
    {
        FieldPlace {
            item: Some(item),
            ..self
        }
    }
}

fn verify_text(at: Place<'_>, place: FieldPlace, left: usize) -> Result<usize, Fault>
    ensures { InOrder NoTable (text_steps (Fault.Field place) (place_bytes at.entry)
        (place_offset at.entry)) left result }
{
    tested(place, text_is_there(at), left)
}

fn verify_texts(
    buffer: SliceWithStartOffset<'_>,
    offset: usize,
    place: FieldPlace,
    before: usize,
) -> Result<usize, Fault>
    ensures { InOrder NoTable (value_steps (place_faults place) ValueKind.Texts
        (slice_bytes buffer.entry) (slice_start buffer.entry) offset) before result }
{
    let items = match <Vector<'_, Place<'_>> as TableRead<'_>>::from_buffer(buffer, offset) {
        Ok(items) => items,
        Err(kind) => return Err(Fault::Field(place, kind)),
    };
    let mut left = before;
    for i in 0..items.len() {
        left = verify_text(items.get_unchecked(i), place.at(i), left)?;
    }
    Ok(left)
}

/// Verifies a table by the fields of the one at an index of the schema, with all tables to which it
/// leads. `depth` says how many tables may stand one in the other, `left` how many may be entered;
/// returns how many may be entered after it.
#[cycle(walk)]
pub(crate) fn verify_table(
    schema: &Schema<'_>,
    index: usize,
    table: Table<'_>,
    depth: u8,
    left: usize,
) -> Result<usize, Fault>
    ensures { Walks (shapes schema.now) depth index (table_object table.entry)
        (table_slots table.entry) (table_start table.entry) left result }
{
    if depth == 0 {
        return Err(Fault::TooDeep);
    }
    if left == 0 {
        return Err(Fault::TooMany);
    }
    let fields = fields_at(schema, index);
    verify_fields(schema, fields, index, table, depth - 1, left - 1)
}

#[cycle(walk)]
fn verify_fields(
    schema: &Schema<'_>,
    fields: &[FieldShape],
    index: usize,
    table: Table<'_>,
    depth: u8,
    before: usize,
) -> Result<usize, Fault>
    ensures { InOrder (Walks (shapes schema.now) depth) (fields_steps (shapes schema.now).variants
        index (table_object table.entry) (table_slots table.entry) (table_start table.entry)
        fields.now) before result }
{
    let mut left = before;
    for field in fields {
        left = verify_field(schema, field, index, table, depth, left)?;
    }
    Ok(left)
}

/// Verifies a field of a table.
#[cycle(walk)]
pub(crate) fn verify_field(
    schema: &Schema<'_>,
    field: &FieldShape,
    index: usize,
    table: Table<'_>,
    depth: u8,
    left: usize,
) -> Result<usize, Fault>
    ensures { InOrder (Walks (shapes schema.now) depth) (field_steps (shapes schema.now).variants
        index (table_object table.entry) (table_slots table.entry) (table_start table.entry)
        field.now) left result }
{
    let slot = field.slot;
    let place = FieldPlace {
        table: index,
        start: table.object().offset_from_start(),
        slot,
        item: None,
    };
    match field.kind {
        FieldKind::Value(kind) => {
            let offset = table.slot_offset(slot);
            if offset == 0 {
                return absent(field.required, place, left);
            }
            verify_value(schema, kind, table.object(), offset, place, depth, left)
        }
        FieldKind::Union(union) => {
            verify_union(schema, union, field.required, table, place, depth, left)
        }
        FieldKind::Unions(union) => {
            verify_unions(schema, union, field.required, table, place, depth, left)
        }
    }
}

#[cycle(walk)]
fn verify_value(
    schema: &Schema<'_>,
    kind: ValueKind,
    buffer: SliceWithStartOffset<'_>,
    offset: usize,
    place: FieldPlace,
    depth: u8,
    left: usize,
) -> Result<usize, Fault>
    ensures { InOrder (Walks (shapes schema.now) depth) (value_steps (place_faults place)
        kind (slice_bytes buffer.entry) (slice_start buffer.entry) offset) left result }
{
    let at = Place::new(buffer, offset);
    match kind {
        ValueKind::Plain(size) => tested(place, plain_is_there(buffer, offset, size), left),
        ValueKind::Text => verify_text(at, place, left),
        ValueKind::Bytes => tested(place, bytes_are_there(at), left),
        ValueKind::Plains(size) => tested(place, plains_are_there(buffer, offset, size), left),
        ValueKind::Texts => verify_texts(buffer, offset, place, left),
        ValueKind::Table(index) => verify_reference(schema, index, at, place, depth, left),
        ValueKind::Tables(index) => {
            verify_tables(schema, index, buffer, offset, place, depth, left)
        }
        ValueKind::Nested(index) => verify_nested(schema, index, at, place, depth, left),
    }
}

/// Verifies the table to which a reference leads.
#[cycle(walk)]
pub(crate) fn verify_reference(
    schema: &Schema<'_>,
    index: usize,
    at: Place<'_>,
    place: FieldPlace,
    depth: u8,
    left: usize,
) -> Result<usize, Fault>
    ensures { InOrder (Walks (shapes schema.now) depth) (reference_steps (Fault.Field place)
        index (place_bytes at.entry) (place_start at.entry) (place_offset at.entry)) left result }
{
    match at.read::<Table<'_>>() {
        Ok(table) => verify_table(schema, index, table, depth, left),
        Err(kind) => Err(Fault::Field(place, kind)),
    }
}

#[cycle(walk)]
fn verify_tables(
    schema: &Schema<'_>,
    index: usize,
    buffer: SliceWithStartOffset<'_>,
    offset: usize,
    place: FieldPlace,
    depth: u8,
    before: usize,
) -> Result<usize, Fault>
    ensures { InOrder (Walks (shapes schema.now) depth) (value_steps (place_faults place)
        (ValueKind.Tables index) (slice_bytes buffer.entry) (slice_start buffer.entry) offset)
        before result }
{
    let items = match <Vector<'_, Place<'_>> as TableRead<'_>>::from_buffer(buffer, offset) {
        Ok(items) => items,
        Err(kind) => return Err(Fault::Field(place, kind)),
    };
    let mut left = before;
    for i in 0..items.len() {
        let at = items.get_unchecked(i);
        left = verify_reference(schema, index, at, place.at(i), depth, left)?;
    }
    Ok(left)
}

#[cycle(walk)]
fn verify_nested(
    schema: &Schema<'_>,
    index: usize,
    at: Place<'_>,
    place: FieldPlace,
    depth: u8,
    left: usize,
) -> Result<usize, Fault>
    ensures { InOrder (Walks (shapes schema.now) depth) (value_steps (place_faults place)
        (ValueKind.Nested index) (place_bytes at.entry) (place_start at.entry)
        (place_offset at.entry)) left result }
{
    match at.read::<&[u8]>() {
        Ok(bytes) => {
            let root = Place::new(SliceWithStartOffset::new(bytes, 0), 0);
            verify_reference(schema, index, root, place, depth, left)
        }
        Err(kind) => Err(Fault::Field(place, kind)),
    }
}

#[cycle(walk)]
fn verify_variant(
    schema: &Schema<'_>,
    union: usize,
    tagged: TaggedPlace<'_>,
    place: FieldPlace,
    depth: u8,
    left: usize,
) -> Result<usize, Fault>
    ensures { InOrder (Walks (shapes schema.now) depth) (variant_steps (Fault.Field place)
        (variant_in (shapes schema.now).variants union (tagged_tag tagged.entry))
        (place_bytes (tagged_place tagged.entry)) (place_start (tagged_place tagged.entry))
        (place_offset (tagged_place tagged.entry))) left result }
{
    let at = tagged.place();
    match variant_kind(schema.variants, union, tagged.tag()) {
        Some(VariantKind::Table(index)) => verify_reference(schema, index, at, place, depth, left),
        Some(VariantKind::Text) => verify_text(at, place, left),
        Some(VariantKind::Struct(size)) => tested(place, struct_is_there(at, size), left),
        None => Ok(left),
    }
}

#[cycle(walk)]
fn verify_union(
    schema: &Schema<'_>,
    union: usize,
    required: bool,
    table: Table<'_>,
    place: FieldPlace,
    depth: u8,
    left: usize,
) -> Result<usize, Fault>
    ensures { InOrder (Walks (shapes schema.now) depth) (union_field_steps
        (shapes schema.now).variants (place_faults place) required union place.slot
        (table_object table.entry) (table_slots table.entry) (table_start table.entry))
        left result }
{
    match table.access_union::<TaggedPlace<'_>>(place.slot, "", "") {
        Ok(Some(tagged)) => verify_variant(schema, union, tagged, place, depth, left),
        Ok(None) => absent(required, place, left),
        Err(error) => Err(Fault::Field(place, error.error_kind)),
    }
}

#[cycle(walk)]
fn verify_unions(
    schema: &Schema<'_>,
    union: usize,
    required: bool,
    table: Table<'_>,
    place: FieldPlace,
    depth: u8,
    before: usize,
) -> Result<usize, Fault>
    ensures { InOrder (Walks (shapes schema.now) depth) (unions_field_steps
        (shapes schema.now).variants (place_faults place) required union place.slot
        (table_object table.entry) (table_slots table.entry) (table_start table.entry))
        before result }
{
    let items = match table.access_union_vector::<UnionVector<'_, TaggedPlace<'_>>>(
        place.slot, "", "",
    ) {
        Ok(Some(items)) => items,
        Ok(None) => return absent(required, place, before),
        Err(error) => return Err(Fault::Field(place, error.error_kind)),
    };
    let mut left = before;
    for i in 0..items.len() {
        let Ok(tagged) = items.get_unchecked(i) else {
            unreachable!()
        };
        left = verify_variant(schema, union, tagged, place.at(i), depth, left)?;
    }
    Ok(left)
}
