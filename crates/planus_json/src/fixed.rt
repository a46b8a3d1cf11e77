//! Values of a fixed size.
#![tactic(auto, using(crate::proofs::Printing::printed_refused))]

ghost use Rattle.std.specs.Prelude.{◌≡◌, ◌+◌, ◌-◌, ◌*◌, ◌^◌, ◌∷◌, ◌++◌, [], min, Some};
ghost use Rattle.std.specs.Int.{byte_len, w32};
ghost use Rattle.std.specs.String.{string_bytes};
ghost use Rattle.planus_read.specs.Places.{place_bytes, place_offset};
ghost use Rattle.planus_read.specs.Slices.{slice_bytes};
ghost use Rattle.planus_dump.specs.Answers.{bits_at, vector_at};
ghost use Rattle.planus_dump.specs.Events as dump_spec;
ghost use Rattle.planus_dump.specs.Lines.{field_path, item_path};
ghost use Rattle.planus_json.specs.Json as json;
ghost use Rattle.planus_json.specs.Trees as spec;
ghost use Rattle.planus_json.specs.inner.Printing.{Prints};

use crate::enums::{is_unnamed, spaced_names};
use crate::json_error::JsonError;
use crate::leaves::{print_number, print_truth};
use crate::printer::{Printer, inner_line};
use crate::readings::number_at;
use planus::{Place, SliceWithStartOffset};
use planus_dump::readings::{double_at, led_place, read_bits, read_values, single_at, slice_from};
use planus_dump::{EnumSchema, Fixed, Schema, StructFieldSchema, StructSchema, fixed_size};

const GREATEST_NESTING: usize = 64;

fn print_enum(
    out: &mut Printer,
    path: &str,
    line: &str,
    shape: &EnumSchema,
    place: Place<'_>,
) -> Result<(), JsonError>
    ensures { Prints out.old (json.tokens line.now (spec.enum_tree (Some shape.now)
        (place_bytes place.entry) (place_offset place.entry) path.now)) result out.new }
{
    let value = match number_at(place, shape.number) {
        Ok(value) => value,
        Err(kind) => return out.put_fault(path, kind),
    };
    let number = match read_bits(place, shape.number) {
        Ok(number) => number,
        Err(kind) => return out.put_fault(path, kind),
    };
    if is_unnamed(shape, number) {
        return out.put_scalar(value);
    }
    match spaced_names(out.alloc, shape, number)? {
        Some(names) => out.put_string(names.as_str()),
        None => out.put_scalar(value),
    }
}

#[cycle(fixed)]
fn print_fixed(
    schema: &Schema,
    out: &mut Printer,
    left: usize,
    path: &str,
    line: &str,
    fixed: Fixed,
    place: Place<'_>,
) -> Result<(), JsonError>
    ensures { Prints out.old (json.tokens line.now
        (spec.fixed_tree schema.now (spec.structs schema.now left) fixed
        (place_bytes place.entry) (place_offset place.entry) path.now)) result out.new }
{
    match fixed {
        Fixed::Number(number) => print_number(out, path, line, number, place),
        Fixed::Bool => print_truth(out, path, line, place),
        Fixed::F32 => match single_at(place) {
            Ok(bits) => out.put_float(bits),
            Err(kind) => out.put_fault(path, kind),
        },
        Fixed::F64 => match double_at(place) {
            Ok(bits) => out.put_float(bits),
            Err(kind) => out.put_fault(path, kind),
        },
        Fixed::Enum(index) => match schema.enums.get(index) {
            Some(shape) => print_enum(out, path, line, shape, place),
            None => Ok(()),
        },
        Fixed::Struct(index) => print_struct(schema, out, left, path, line, index, place),
    }
}

#[cycle(fixed)]
fn print_struct(
    schema: &Schema,
    out: &mut Printer,
    left: usize,
    path: &str,
    line: &str,
    index: usize,
    place: Place<'_>,
) -> Result<(), JsonError>
    ensures { Prints out.old (json.tokens line.now (spec.structs schema.now left index
        (place_bytes place.entry) (place_offset place.entry) path.now)) result out.new }
{
    if left == 0 {
        return out.put_deep();
    }
    match schema.structs.get(index) {
        Some(shape) => print_struct_shape(schema, out, left - 1, path, line, shape, place),
        None => Ok(()),
    }
}

#[cycle(fixed)]
fn print_struct_shape(
    schema: &Schema,
    out: &mut Printer,
    left: usize,
    path: &str,
    line: &str,
    shape: &StructSchema,
    place: Place<'_>,
) -> Result<(), JsonError>
    ensures { Prints out.old (json.tokens line.now
        (spec.struct_tree schema.now (spec.structs schema.now left) (Some shape.now)
        (place_bytes place.entry) (place_offset place.entry) path.now)) result out.new }
{
    let slice = match slice_from(place, shape.size) {
        Ok(slice) => slice,
        Err(kind) => return out.put_fault(path, kind),
    };
    let inner = inner_line(out.alloc, line)?;
    out.put_open("{")?;
    let fields = shape.fields.as_slice();
    print_struct_fields(schema, out, left, path, inner.as_str(), fields, slice)?;
    out.put_close(line, "}")
}

#[cycle(fixed)]
fn print_struct_fields(
    schema: &Schema,
    out: &mut Printer,
    left: usize,
    path: &str,
    line: &str,
    fields: &[StructFieldSchema],
    slice: SliceWithStartOffset<'_>,
) -> Result<(), JsonError>
    ensures { Prints out.old (json.members_tokens line.now
        (spec.struct_members schema.now (spec.structs schema.now left) fields.now
        (slice_bytes slice.entry) path.now)) result out.new }
{
    for field in fields {
        print_struct_member(schema, out, left, path, line, field, slice)?;
    }
    Ok(())
}

#[cycle(fixed)]
fn print_struct_member(
    schema: &Schema,
    out: &mut Printer,
    left: usize,
    path: &str,
    line: &str,
    field: &StructFieldSchema,
    slice: SliceWithStartOffset<'_>,
) -> Result<(), JsonError>
    ensures { Prints out.old (json.begins line.now
        ∷ json.plain (json.label line.now (string_bytes field.now.name))
        ∷ json.tokens line.now (spec.counted_tree schema.now (spec.structs schema.now left)
        field.now.count field.now.fixed (slice_bytes slice.entry) field.now.distance
        (field_path path.now (string_bytes field.now.name)))) result out.new }
{
    let path = format!(in out.alloc; "{path}.{}", field.name)?;
    out.put_name(line, field.name.as_str())?;
    print_struct_field(schema, out, left, path.as_str(), line, field, slice)
}

#[cycle(fixed)]
fn print_struct_field(
    schema: &Schema,
    out: &mut Printer,
    left: usize,
    path: &str,
    line: &str,
    field: &StructFieldSchema,
    slice: SliceWithStartOffset<'_>,
) -> Result<(), JsonError>
    ensures { Prints out.old (json.tokens line.now (spec.counted_tree schema.now
        (spec.structs schema.now left) field.now.count field.now.fixed
        (slice_bytes slice.entry) field.now.distance path.now)) result out.new }
{
    let value = field.fixed;
    let first = field.distance;
    match field.count {
        Some(count) => {
            let items = Items {
                value,
                slice,
                first,
                count,
            };
            print_fixed_list(schema, out, left, path, line, items)
        }
        None => print_fixed(
            schema,
            out,
            left,
            path,
            line,
            value,
            Place::new(slice, first),
        ),
    }
}

/// Values one after another, the first of them at an offset of the slice.
#[derive(Clone, Copy)]
pub struct Items<'buf> {
    value: Fixed,
    slice: SliceWithStartOffset<'buf>,
    first: usize,
    count: usize,
}

/// No byte is at `usize::MAX` or after it, so that is where items past it are.
fn item_place<'buf>(items: Items<'buf>, index: usize, size: usize) -> Place<'buf>
    ensures bytes { place_bytes result ≡ slice_bytes items.entry.slice }
    ensures offset { place_offset result ≡ min (items.entry.first + index * size) (2 ^ 64 - 1) }
{
    Place::new(
        items.slice,
        index.saturating_mul(size).saturating_add(items.first),
    )
}

#[cycle(fixed)]
fn print_fixed_list(
    schema: &Schema,
    out: &mut Printer,
    left: usize,
    path: &str,
    line: &str,
    items: Items<'_>,
) -> Result<(), JsonError>
    ensures { Prints out.old (json.tokens line.now (spec.list
        (spec.values_trees schema.now (spec.structs schema.now left) items.entry.value
        (slice_bytes items.entry.slice) items.entry.first path.now items.entry.count 0)))
        result out.new }
{
    let inner = inner_line(out.alloc, line)?;
    out.put_open("[")?;
    print_fixed_items(schema, out, left, path, inner.as_str(), items)?;
    out.put_close(line, "]")
}

#[cycle(fixed)]
fn print_fixed_items(
    schema: &Schema,
    out: &mut Printer,
    left: usize,
    path: &str,
    line: &str,
    items: Items<'_>,
) -> Result<(), JsonError>
    ensures { Prints out.old (json.items_tokens line.now
        (spec.values_trees schema.now (spec.structs schema.now left) items.entry.value
        (slice_bytes items.entry.slice) items.entry.first path.now items.entry.count 0))
        result out.new }
{
    for i in 0..items.count {
        print_fixed_item(schema, out, left, path, line, items, i)?;
    }
    Ok(())
}

#[cycle(fixed)]
fn print_fixed_item(
    schema: &Schema,
    out: &mut Printer,
    left: usize,
    path: &str,
    line: &str,
    items: Items<'_>,
    i: usize,
) -> Result<(), JsonError>
    ensures { Prints out.old (json.begins line.now ∷ json.tokens line.now
        (spec.fixed_tree schema.now (spec.structs schema.now left) items.entry.value
        (slice_bytes items.entry.slice)
        (items.entry.first + i * dump_spec.fixed_size schema.now items.entry.value)
        (item_path path.now i))) result out.new }
{
    let path = format!(in out.alloc; "{path}[{i}]")?;
    let place = item_place(items, i, fixed_size(schema, items.value));
    out.put_next(line)?;
    print_fixed(schema, out, left, path.as_str(), line, items.value, place)
}

pub fn print_value(
    schema: &Schema,
    out: &mut Printer,
    path: &str,
    line: &str,
    fixed: Fixed,
    place: Place<'_>,
) -> Result<(), JsonError>
    ensures { Prints out.old (json.tokens line.now (spec.value_tree schema.now fixed
        (place_bytes place.entry) (place_offset place.entry) path.now)) result out.new }
{
    print_fixed(schema, out, GREATEST_NESTING, path, line, fixed, place)
}

/// Prints the struct to which the reference at a place leads.
pub fn print_led(
    schema: &Schema,
    out: &mut Printer,
    path: &str,
    line: &str,
    index: usize,
    place: Place<'_>,
) -> Result<(), JsonError>
    ensures { Prints out.old (json.tokens line.now (spec.led_tree schema.now index
        (place_bytes place.entry) (place_offset place.entry) path.now
        (bits_at w32 (place_bytes place.entry) (place_offset place.entry)))) result out.new }
{
    match led_place(place) {
        Ok(target) => print_value(schema, out, path, line, Fixed::Struct(index), target),
        Err(kind) => out.put_fault(path, kind),
    }
}

pub fn print_values(
    schema: &Schema,
    out: &mut Printer,
    path: &str,
    line: &str,
    fixed: Fixed,
    place: Place<'_>,
) -> Result<(), JsonError>
    ensures { Prints out.old (json.tokens line.now (spec.fixed_list_tree schema.now fixed path.now
        (vector_at (dump_spec.fixed_size schema.now fixed) (place_bytes place.entry)
        (place_offset place.entry)))) result out.new }
{
    let (slice, count) = match read_values(place, fixed_size(schema, fixed)) {
        Ok(values) => values,
        Err(kind) => return out.put_fault(path, kind),
    };
    let items = Items {
        value: fixed,
        slice,
        first: 0,
        count,
    };
    print_fixed_list(schema, out, GREATEST_NESTING, path, line, items)
}
