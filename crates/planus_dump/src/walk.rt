//! The walk over all tables that are reached from one.
#![tactic(auto, using(crate::proofs::Fed::fed_refused))]

ghost use Rattle.std.specs.Prelude.{◌≡◌, ◌-◌, IfOk, slice_get};
ghost use Rattle.std.specs.String.{string_bytes};
ghost use Rattle.planus_read.specs.Places.{place_bytes, place_offset, tagged_tag, tagged_place};
ghost use Rattle.planus_dump.specs.Lines as lines_spec;
ghost use Rattle.planus_dump.specs.Answers.{table_at, vector_at};
ghost use Rattle.planus_dump.specs.Events as spec;
ghost use Rattle.planus_dump.specs.ReadingViews.{table_seen, found_events, unions_seen};
ghost use Rattle.planus_dump.specs.inner.Feeding.{Feeds};
ghost use Rattle.std.specs.Prelude.{Some, Ok, false};
ghost use Rattle.std.specs.Option.{option_map};

use crate::fixed::{dump_led, dump_value, dump_values, number_size};
use crate::line_sink::LineSink;
use crate::lines::Lines;
use crate::readings::{
    Found, field_place, item_found, leaf_found, lone_tag, read_table, read_union, read_values,
};
use crate::schemas::{FieldSchema, Item, Kind, Schema, TableSchema, VariantKind, VariantSchema};
use crate::sink_error::SinkError;
use crate::unions::{Unions, read_unions};
use crate::values::{Leaf, Value};
use planus::errors::ErrorKind;
use planus::table_reader::Table;
use planus::{Place, SliceWithStartOffset, TaggedPlace};
use std::alloc::{AllocError, Global};

#[cycle(walk)]
pub fn dump_table<L: Lines>(
    schema: &Schema,
    out: &mut LineSink<L>,
    left: usize,
    path: &str,
    index: usize,
    place: Place<'_>,
) -> Result<(), SinkError>
    ensures { Feeds L.takes L.breaks out.old
        (spec.events schema.now left index (place_bytes place.entry) (place_offset place.entry)
        path.now) result out.new }
{
    if left == 0 {
        out.put_deep();
        return Ok(());
    }
    match schema.tables.get(index) {
        None => Ok(()),
        Some(shape) => dump_shape(schema, out, left - 1, path, shape, place),
    }
}

#[cycle(walk)]
fn dump_shape<L: Lines>(
    schema: &Schema,
    out: &mut LineSink<L>,
    left: usize,
    path: &str,
    shape: &TableSchema,
    place: Place<'_>,
) -> Result<(), SinkError>
    ensures { Feeds L.takes L.breaks out.old
        (spec.table_events (spec.events schema.now left) schema.now shape.now path.now
        (table_at (place_bytes place.entry) (place_offset place.entry))) result out.new }
{
    let table = match read_table(place) {
        Ok(table) => table,
        Err(kind) => return out.put_fault(path, kind),
    };
    out.put_table(path, shape.name.as_str())?;
    for field in &shape.fields {
        if out.is_stopped() {
            return Ok(());
        }
        dump_field(schema, out, left, path, table, field)?;
    }
    Ok(())
}

/// The bytes of an item in a vector.
pub fn stride_of(item: Item) -> usize
    ensures { result ≡ spec.stride_of item }
{
    match item {
        Item::Number(number) => number_size(number),
        Item::Bool => 1,
        Item::Text | Item::Table(_) => 4,
    }
}

/// Returns the path of a field.
pub fn field_path(alloc: Global, path: &str, field: &FieldSchema) -> Result<String, AllocError>
    ensures { IfOk result (λ text. string_bytes text
        ≡ lines_spec.field_path path.now (spec.field_label field.now)) }
{
    if field.deprecated {
        format!(in alloc; "{path}.{} (deprecated)", field.name)
    } else {
        format!(in alloc; "{path}.{}", field.name)
    }
}

#[cycle(walk)]
fn dump_field<L: Lines>(
    schema: &Schema,
    out: &mut LineSink<L>,
    left: usize,
    path: &str,
    table: Table<'_>,
    field: &FieldSchema,
) -> Result<(), SinkError>
    ensures { Feeds L.takes L.breaks out.old
        (spec.kind_events (spec.events schema.now left) schema.now field.now.required field.now.kind
        field.now.slot (table_seen table.entry)
        (lines_spec.field_path path.now (spec.field_label field.now))) result out.new }
{
    let path = field_path(out.alloc, path, field)?;
    dump_kind(schema, out, left, path.as_str(), table, field)
}

fn dump_absent<L: Lines>(out: &mut LineSink<L>, path: &str, required: bool) -> Result<(), SinkError>
    ensures { Feeds L.takes L.breaks out.old
        (spec.absent_events required path.now) result out.new }
{
    if required {
        out.put_fault(path, ErrorKind::MissingRequired)
    } else {
        Ok(())
    }
}

/// The tag of a union without a value, where the schema takes that for wrong.
pub fn wrong_tag(schema: &Schema, table: Table<'_>, slot: usize) -> Option<u8>
    ensures { result ≡ spec.wrong_tag schema.now (table_seen table.entry) slot }
{
    if schema.tags_need_values {
        lone_tag(table, slot)
    } else {
        None
    }
}

fn dump_no_union<L: Lines>(
    schema: &Schema,
    out: &mut LineSink<L>,
    path: &str,
    table: Table<'_>,
    field: &FieldSchema,
) -> Result<(), SinkError>
    ensures { Feeds L.takes L.breaks out.old
        (spec.no_union_events field.now.required path.now
        (spec.wrong_tag schema.now (table_seen table.entry) field.now.slot)) result out.new }
{
    match wrong_tag(schema, table, field.slot) {
        Some(tag) => out.put_lone_tag(path, tag),
        None => dump_absent(out, path, field.required),
    }
}

#[cycle(walk)]
fn dump_kind<L: Lines>(
    schema: &Schema,
    out: &mut LineSink<L>,
    left: usize,
    path: &str,
    table: Table<'_>,
    field: &FieldSchema,
) -> Result<(), SinkError>
    ensures { Feeds L.takes L.breaks out.old
        (spec.kind_events (spec.events schema.now left) schema.now field.now.required field.now.kind
        field.now.slot (table_seen table.entry) path.now) result out.new }
{
    match field.kind {
        Kind::Union(index) => match read_union(table, field.slot) {
            Ok(None) => dump_no_union(schema, out, path, table, field),
            Ok(Some(tagged)) => dump_union(schema, out, left, path, index, tagged),
            Err(kind) => out.put_fault(path, kind),
        },
        Kind::UnionVector(index) => match read_unions(table, field.slot) {
            Ok(None) => dump_absent(out, path, field.required),
            Ok(Some(unions)) => dump_unions(schema, out, left, path, index, unions),
            Err(kind) => out.put_fault(path, kind),
        },
        kind => match field_place(table, field.slot) {
            None => dump_absent(out, path, field.required),
            Some(place) => match kind {
                Kind::Fixed(fixed) => dump_value(schema, out, path, fixed, place),
                Kind::FixedList(fixed) => dump_values(schema, out, path, fixed, place),
                kind => dump_place(schema, out, left, path, kind, place),
            },
        },
    }
}

#[cycle(walk)]
fn dump_found<L: Lines>(
    schema: &Schema,
    out: &mut LineSink<L>,
    left: usize,
    path: &str,
    found: Found<'_>,
) -> Result<(), SinkError>
    ensures { Feeds L.takes L.breaks out.old
        (found_events (spec.events schema.now left) path.now found.entry) result out.new }
{
    match found {
        Found::Value(value) => out.put_value(path, value),
        Found::Fault(kind) => out.put_fault(path, kind),
        Found::Table(index, place) => dump_table(schema, out, left, path, index, place),
    }
}

#[cycle(walk)]
fn dump_nested<L: Lines>(
    schema: &Schema,
    out: &mut LineSink<L>,
    left: usize,
    path: &str,
    index: usize,
    content: &[u8],
) -> Result<(), SinkError>
    ensures { Feeds L.takes L.breaks out.old
        (spec.buffer_events (spec.events schema.now left) index path.now content.now
        (table_at content.now 0)) result out.new }
{
    let root = Place::new(SliceWithStartOffset::new(content, 0), 0);
    match read_table(root) {
        Ok(_) => dump_table(schema, out, left, path, index, root),
        Err(_) => out.put_value(path, Value::Bytes(content)),
    }
}

#[cycle(walk)]
fn dump_place<L: Lines>(
    schema: &Schema,
    out: &mut LineSink<L>,
    left: usize,
    path: &str,
    kind: Kind,
    place: Place<'_>,
) -> Result<(), SinkError>
    ensures { Feeds L.takes L.breaks out.old
        (spec.place_events (spec.events schema.now left) kind
        (place_bytes place.entry) (place_offset place.entry) path.now) result out.new }
{
    match kind {
        Kind::One(item) => dump_found(schema, out, left, path, item_found(place, item)),
        Kind::Bytes => dump_found(schema, out, left, path, leaf_found(place, Leaf::Bytes)),
        Kind::List(item) => dump_items(schema, out, left, path, item, place),
        Kind::Nested(index) => match place.read::<&[u8]>() {
            Ok(content) => dump_nested(schema, out, left, path, index, content),
            Err(kind) => out.put_fault(path, kind),
        },
        Kind::Union(_) | Kind::UnionVector(_) | Kind::Fixed(_) | Kind::FixedList(_) => Ok(()),
    }
}

#[cycle(walk)]
fn dump_items<L: Lines>(
    schema: &Schema,
    out: &mut LineSink<L>,
    left: usize,
    path: &str,
    item: Item,
    place: Place<'_>,
) -> Result<(), SinkError>
    ensures { Feeds L.takes L.breaks out.old
        (spec.list_events (spec.events schema.now left) item path.now
        (vector_at (spec.stride_of item) (place_bytes place.entry) (place_offset place.entry)))
        result out.new }
{
    let stride = stride_of(item);
    let (slice, count) = match read_values(place, stride) {
        Ok(values) => values,
        Err(kind) => return out.put_fault(path, kind),
    };
    out.put_list(path, count)?;
    for i in 0..count {
        if out.is_stopped() {
            return Ok(());
        }
        let path = format!(in out.alloc; "{path}[{i}]")?;
        let found = item_found(Place::new(slice, i * stride), item);
        dump_found(schema, out, left, path.as_str(), found)?;
    }
    Ok(())
}

#[cycle(walk)]
fn dump_member<L: Lines>(
    schema: &Schema,
    out: &mut LineSink<L>,
    left: usize,
    path: &str,
    kind: VariantKind,
    place: Place<'_>,
) -> Result<(), SinkError>
    ensures { Feeds L.takes L.breaks out.old
        (spec.member_events (spec.events schema.now left) schema.now kind
        (place_bytes place.entry) (place_offset place.entry) path.now) result out.new }
{
    match kind {
        VariantKind::Table(index) => dump_table(schema, out, left, path, index, place),
        VariantKind::Struct(index) => dump_led(schema, out, path, index, place),
        VariantKind::Text => dump_found(schema, out, left, path, leaf_found(place, Leaf::Text)),
    }
}

#[cycle(walk)]
fn dump_union<L: Lines>(
    schema: &Schema,
    out: &mut LineSink<L>,
    left: usize,
    path: &str,
    index: usize,
    tagged: TaggedPlace<'_>,
) -> Result<(), SinkError>
    ensures { let place = tagged_place tagged.entry in
        Feeds L.takes L.breaks out.old
        (spec.union_events (spec.events schema.now left) schema.now
        (slice_get schema.now.unions.items index)
        (tagged_tag tagged.entry) (place_bytes place) (place_offset place) path.now) result out.new }
{
    let variants = match schema.unions.get(index) {
        None => return Ok(()),
        Some(variants) => variants,
    };
    let tag = tagged.tag();
    match variant_with(variants.as_slice(), tag) {
        Some(variant) => {
            out.put_union(path, tag, variant.name.as_str())?;
            dump_member(schema, out, left, path, variant.kind, tagged.place())
        }
        None => out.put_fault(path, ErrorKind::UnknownUnionTag { tag }),
    }
}

#[cycle(walk)]
fn dump_unions<L: Lines>(
    schema: &Schema,
    out: &mut LineSink<L>,
    left: usize,
    path: &str,
    index: usize,
    unions: Unions<'_>,
) -> Result<(), SinkError>
    ensures { Feeds L.takes L.breaks out.old
        (spec.unions_events (spec.events schema.now left) schema.now false index path.now
        (Ok (Some (unions_seen unions.entry)))) result out.new }
{
    let count = unions.len();
    out.put_unions(path, count)?;
    for i in 0..count {
        if out.is_stopped() {
            return Ok(());
        }
        let tagged = match unions.get(i) {
            None => return Ok(()),
            Some(tagged) => tagged,
        };
        let path = format!(in out.alloc; "{path}[{i}]")?;
        dump_union(schema, out, left, path.as_str(), index, tagged)?;
    }
    Ok(())
}

/// The variant with this tag.
pub fn variant_with(variants: &[VariantSchema], tag: u8) -> Option<&VariantSchema>
    ensures { option_map (λ variant. variant.now) result ≡ spec.variant_of variants.now tag }
{
    for variant in variants {
        if variant.tag == tag {
            return Some(variant);
        }
    }
    None
}
