#![tactic(auto, using(crate::proofs::Fed::fed_refused))]

ghost use Rattle.std.specs.Prelude.{◌≡◌, ◌+◌, ◌-◌, ◌*◌, ◌^◌, min};
ghost use Rattle.std.specs.Int.{byte_len, w32};
ghost use Rattle.planus_read.specs.Places.{place_bytes, place_offset};
ghost use Rattle.planus_read.specs.Slices.{slice_bytes};
ghost use Rattle.planus_dump.specs.Answers.{bits_at, vector_at};
ghost use Rattle.planus_dump.specs.Events as spec;
ghost use Rattle.planus_dump.specs.inner.Feeding.{Feeds};
ghost use Rattle.std.specs.Prelude.{Some};

use crate::enums::names_of;
use crate::line_sink::LineSink;
use crate::lines::Lines;
use crate::readings::{
    double_at, led_place, read_bits, read_values, single_at, slice_from, value_at,
};
use crate::schemas::{EnumSchema, Fixed, Number, Schema, StructFieldSchema, StructSchema};
use crate::sink_error::SinkError;
use crate::values::Leaf;
use planus::{Place, SliceWithStartOffset};

const GREATEST_NESTING: usize = 64;

/// The bytes of an integer.
pub fn number_size(number: Number) -> usize
    ensures { result ≡ byte_len (spec.number_width number) }
{
    match number {
        Number::U8 | Number::I8 => 1,
        Number::U16 | Number::I16 => 2,
        Number::U32 | Number::I32 => 4,
        Number::U64 | Number::I64 => 8,
    }
}

/// The bytes of a value.
pub fn fixed_size(schema: &Schema, fixed: Fixed) -> usize
    ensures { result ≡ spec.fixed_size schema.now fixed }
{
    match fixed {
        Fixed::Number(number) => number_size(number),
        Fixed::Bool => 1,
        Fixed::F32 => 4,
        Fixed::F64 => 8,
        Fixed::Enum(index) => match schema.enums.get(index) {
            Some(shape) => number_size(shape.number),
            None => 1,
        },
        Fixed::Struct(index) => match schema.structs.get(index) {
            Some(shape) => shape.size,
            None => 1,
        },
    }
}

fn dump_leaf<L: Lines>(
    out: &mut LineSink<L>,
    path: &str,
    leaf: Leaf,
    place: Place<'_>,
) -> Result<(), SinkError>
    ensures { Feeds L.takes L.breaks out.old
        (spec.leaf_events leaf (place_bytes place.entry) (place_offset place.entry) path.now) result
        out.new }
{
    match value_at(place, leaf) {
        Ok(value) => out.put_value(path, value),
        Err(kind) => out.put_fault(path, kind),
    }
}

fn dump_enum<L: Lines>(
    out: &mut LineSink<L>,
    path: &str,
    shape: &EnumSchema,
    place: Place<'_>,
) -> Result<(), SinkError>
    ensures { Feeds L.takes L.breaks out.old
        (spec.enum_events (Some shape.now)
        (place_bytes place.entry) (place_offset place.entry) path.now) result out.new }
{
    let value = match value_at(place, Leaf::Number(shape.number)) {
        Ok(value) => value,
        Err(kind) => return out.put_fault(path, kind),
    };
    let number = match read_bits(place, shape.number) {
        Ok(number) => number,
        Err(kind) => return out.put_fault(path, kind),
    };
    let names = names_of(out.alloc, shape, number)?;
    if names.is_empty() && !shape.flags {
        return out.put_unknown(path, value);
    }
    out.put_named(path, value, names.as_str())
}

#[cycle(fixed)]
fn dump_fixed<L: Lines>(
    schema: &Schema,
    out: &mut LineSink<L>,
    left: usize,
    path: &str,
    fixed: Fixed,
    place: Place<'_>,
) -> Result<(), SinkError>
    ensures { Feeds L.takes L.breaks out.old
        (spec.fixed_events schema.now (spec.structs schema.now left) fixed
        (place_bytes place.entry) (place_offset place.entry) path.now) result out.new }
{
    match fixed {
        Fixed::Number(number) => dump_leaf(out, path, Leaf::Number(number), place),
        Fixed::Bool => dump_leaf(out, path, Leaf::Bool, place),
        Fixed::F32 => match single_at(place) {
            Ok(bits) => out.put_float(path, bits),
            Err(kind) => out.put_fault(path, kind),
        },
        Fixed::F64 => match double_at(place) {
            Ok(bits) => out.put_float(path, bits),
            Err(kind) => out.put_fault(path, kind),
        },
        Fixed::Enum(index) => match schema.enums.get(index) {
            Some(shape) => dump_enum(out, path, shape, place),
            None => Ok(()),
        },
        Fixed::Struct(index) => dump_struct(schema, out, left, path, index, place),
    }
}

#[cycle(fixed)]
fn dump_struct<L: Lines>(
    schema: &Schema,
    out: &mut LineSink<L>,
    left: usize,
    path: &str,
    index: usize,
    place: Place<'_>,
) -> Result<(), SinkError>
    ensures { Feeds L.takes L.breaks out.old
        (spec.structs schema.now left index
        (place_bytes place.entry) (place_offset place.entry) path.now) result out.new }
{
    if left == 0 {
        out.put_deep();
        return Ok(());
    }
    match schema.structs.get(index) {
        Some(shape) => dump_struct_shape(schema, out, left - 1, path, shape, place),
        None => Ok(()),
    }
}

/// Values one after another, the first of them at an offset of the slice.
#[derive(Clone, Copy)]
pub struct Items<'buf> {
    value: Fixed,
    slice: SliceWithStartOffset<'buf>,
    first: usize,
    count: usize,
}

/// No byte is at `usize::MAX` or after it, so that is where items past it are.
fn item_place<'buf>(items: Items<'buf>, index: usize, size: usize) -> Place<'buf>
    ensures bytes { place_bytes result ≡ slice_bytes items.entry.slice }
    ensures offset { place_offset result ≡ min (items.entry.first + index * size) (2 ^ 64 - 1) }
{
    Place::new(
        items.slice,
        index.saturating_mul(size).saturating_add(items.first),
    )
}

#[cycle(fixed)]
fn dump_fixed_items<L: Lines>(
    schema: &Schema,
    out: &mut LineSink<L>,
    left: usize,
    path: &str,
    items: Items<'_>,
) -> Result<(), SinkError>
    ensures { Feeds L.takes L.breaks out.old
        (spec.values_events schema.now (spec.structs schema.now left) items.entry.value
        (slice_bytes items.entry.slice) items.entry.first path.now items.entry.count 0)
        result out.new }
{
    let size = fixed_size(schema, items.value);
    for i in 0..items.count {
        if out.is_stopped() {
            return Ok(());
        }
        let path = format!(in out.alloc; "{path}[{i}]")?;
        let place = item_place(items, i, size);
        dump_fixed(schema, out, left, path.as_str(), items.value, place)?;
    }
    Ok(())
}

#[cycle(fixed)]
fn dump_struct_field<L: Lines>(
    schema: &Schema,
    out: &mut LineSink<L>,
    left: usize,
    path: &str,
    field: &StructFieldSchema,
    slice: SliceWithStartOffset<'_>,
) -> Result<(), SinkError>
    ensures { Feeds L.takes L.breaks out.old
        (spec.counted_events schema.now (spec.structs schema.now left) field.now.count
        field.now.fixed
        (slice_bytes slice.entry) field.now.distance path.now) result out.new }
{
    let value = field.fixed;
    let first = field.distance;
    match field.count {
        Some(count) => {
            let items = Items {
                value,
                slice,
                first,
                count,
            };
            dump_fixed_items(schema, out, left, path, items)
        }
        None => dump_fixed(schema, out, left, path, value, Place::new(slice, first)),
    }
}

#[cycle(fixed)]
fn dump_struct_shape<L: Lines>(
    schema: &Schema,
    out: &mut LineSink<L>,
    left: usize,
    path: &str,
    shape: &StructSchema,
    place: Place<'_>,
) -> Result<(), SinkError>
    ensures { Feeds L.takes L.breaks out.old
        (spec.struct_events schema.now (spec.structs schema.now left) (Some shape.now)
        (place_bytes place.entry) (place_offset place.entry) path.now) result out.new }
{
    let slice = match slice_from(place, shape.size) {
        Ok(slice) => slice,
        Err(kind) => return out.put_fault(path, kind),
    };
    out.put_struct(path, shape.name.as_str())?;
    for field in &shape.fields {
        if out.is_stopped() {
            return Ok(());
        }
        let path = format!(in out.alloc; "{path}.{}", field.name)?;
        dump_struct_field(schema, out, left, path.as_str(), field, slice)?;
    }
    Ok(())
}

pub fn dump_value<L: Lines>(
    schema: &Schema,
    out: &mut LineSink<L>,
    path: &str,
    fixed: Fixed,
    place: Place<'_>,
) -> Result<(), SinkError>
    ensures { Feeds L.takes L.breaks out.old
        (spec.value_events schema.now fixed
        (place_bytes place.entry) (place_offset place.entry) path.now) result out.new }
{
    dump_fixed(schema, out, GREATEST_NESTING, path, fixed, place)
}

/// Dumps the struct to which the reference at a place leads.
pub fn dump_led<L: Lines>(
    schema: &Schema,
    out: &mut LineSink<L>,
    path: &str,
    index: usize,
    place: Place<'_>,
) -> Result<(), SinkError>
    ensures { Feeds L.takes L.breaks out.old
        (spec.led_events schema.now index (place_bytes place.entry) (place_offset place.entry)
        path.now
        (bits_at w32 (place_bytes place.entry) (place_offset place.entry))) result out.new }
{
    match led_place(place) {
        Ok(target) => dump_value(schema, out, path, Fixed::Struct(index), target),
        Err(kind) => out.put_fault(path, kind),
    }
}

pub fn dump_values<L: Lines>(
    schema: &Schema,
    out: &mut LineSink<L>,
    path: &str,
    fixed: Fixed,
    place: Place<'_>,
) -> Result<(), SinkError>
    ensures { Feeds L.takes L.breaks out.old
        (spec.fixed_list_events schema.now fixed path.now (vector_at (spec.fixed_size schema.now
        fixed)
        (place_bytes place.entry) (place_offset place.entry))) result out.new }
{
    let (slice, count) = match read_values(place, fixed_size(schema, fixed)) {
        Ok(values) => values,
        Err(kind) => return out.put_fault(path, kind),
    };
    out.put_list(path, count)?;
    let items = Items {
        value: fixed,
        slice,
        first: 0,
        count,
    };
    dump_fixed_items(schema, out, GREATEST_NESTING, path, items)
}
