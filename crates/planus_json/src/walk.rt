//! The walk over all tables that are reached from one.
#![tactic(auto, using(crate::proofs::Printing::printed_refused))]

ghost use Rattle.std.specs.Prelude.{◌≡◌, ◌-◌, ◌*◌, ◌≤◌, ◌∷◌, ◌++◌, [], slice_get, slice_index};
ghost use Rattle.std.specs.Prelude.{Some, Ok, false};
ghost use Rattle.std.specs.Int.{w32};
ghost use Rattle.std.specs.String.{string_bytes};
ghost use Rattle.planus_read.specs.Places.{place_bytes, place_offset, tagged_tag, tagged_place};
ghost use Rattle.planus_read.specs.Slices.{slice_bytes};
ghost use Rattle.planus_dump.specs.Answers.{table_at, vector_at, bits_at};
ghost use Rattle.planus_dump.specs.Events as dump_spec;
ghost use Rattle.planus_dump.specs.Lines.{field_path, item_path};
ghost use Rattle.planus_dump.specs.Tests.{fault_text};
ghost use Rattle.planus_dump.specs.ReadingViews.{table_seen, unions_seen};
ghost use Rattle.planus_json.specs.Json as json;
ghost use Rattle.planus_json.specs.Trees as spec;
ghost use Rattle.planus_json.specs.inner.Printing.{Prints};

use crate::fixed::{print_led, print_value, print_values};
use crate::json_error::JsonError;
use crate::leaves::{print_byte_list, print_bytes, print_number, print_text, print_truth};
use crate::printer::{Printer, inner_line};
use crate::readings::bytes_at;
use crate::unions::{print_union_type, print_unions_type};
use planus::errors::ErrorKind;
use planus::table_reader::Table;
use planus::{Place, SliceWithStartOffset, TaggedPlace};
use planus_dump::readings::{field_place, read_table, read_union, read_values};
use planus_dump::unions::{Unions, read_unions};
use planus_dump::{
    FieldSchema, Item, Kind, Number, Schema, TableSchema, VariantKind, field_path, stride_of,
    variant_with, wrong_tag,
};

#[cycle(walk)]
pub fn print_table(
    schema: &Schema,
    out: &mut Printer,
    left: usize,
    path: &str,
    line: &str,
    index: usize,
    place: Place<'_>,
) -> Result<(), JsonError>
    ensures { Prints out.old (json.tokens line.now (spec.tree schema.now left index
        (place_bytes place.entry) (place_offset place.entry) path.now)) result out.new }
{
    if left == 0 {
        return out.put_deep();
    }
    match schema.tables.get(index) {
        None => Ok(()),
        Some(shape) => print_shape(schema, out, left - 1, path, line, shape, place),
    }
}

#[cycle(walk)]
fn print_shape(
    schema: &Schema,
    out: &mut Printer,
    left: usize,
    path: &str,
    line: &str,
    shape: &TableSchema,
    place: Place<'_>,
) -> Result<(), JsonError>
    ensures { Prints out.old (json.tokens line.now (spec.table_tree (spec.tree schema.now left)
        schema.now shape.now path.now (table_at (place_bytes place.entry)
        (place_offset place.entry)))) result out.new }
{
    let table = match read_table(place) {
        Ok(table) => table,
        Err(kind) => return out.put_fault(path, kind),
    };
    let inner = inner_line(out.alloc, line)?;
    out.put_open("{")?;
    let fields = shape.fields.as_slice();
    print_fields(schema, out, left, path, inner.as_str(), table, fields)?;
    out.put_close(line, "}")
}

#[cycle(walk)]
fn print_fields(
    schema: &Schema,
    out: &mut Printer,
    left: usize,
    path: &str,
    line: &str,
    table: Table<'_>,
    fields: &[FieldSchema],
) -> Result<(), JsonError>
    ensures { Prints out.old (json.members_tokens line.now (spec.fields_members
        (spec.tree schema.now left) schema.now (table_seen table.entry) path.now fields.now))
        result out.new }
{
    for field in fields {
        print_field(schema, out, left, path, line, table, field)?;
    }
    Ok(())
}

#[cycle(walk)]
fn print_field(
    schema: &Schema,
    out: &mut Printer,
    left: usize,
    path: &str,
    line: &str,
    table: Table<'_>,
    field: &FieldSchema,
) -> Result<(), JsonError>
    ensures { Prints out.old (json.members_tokens line.now (spec.kind_members
        (spec.tree schema.now left) schema.now field.now.required field.now.kind field.now.slot
        (table_seen table.entry) (string_bytes field.now.name)
        (field_path path.now (dump_spec.field_label field.now)))) result out.new }
{
    let path = field_path(out.alloc, path, field)?;
    print_kind(schema, out, left, path.as_str(), line, table, field)
}

fn print_absent(
    out: &mut Printer,
    path: &str,
    line: &str,
    field: &FieldSchema,
) -> Result<(), JsonError>
    ensures { Prints out.old (json.members_tokens line.now (spec.absent_members field.now.required
        (string_bytes field.now.name) path.now)) result out.new }
{
    if field.required {
        out.put_name(line, field.name.as_str())?;
        out.put_fault(path, ErrorKind::MissingRequired)
    } else {
        Ok(())
    }
}

fn print_no_union(
    schema: &Schema,
    out: &mut Printer,
    path: &str,
    line: &str,
    table: Table<'_>,
    field: &FieldSchema,
) -> Result<(), JsonError>
    ensures { Prints out.old (json.members_tokens line.now (spec.no_union_members
        field.now.required (string_bytes field.now.name) path.now
        (dump_spec.wrong_tag schema.now (table_seen table.entry) field.now.slot))) result out.new }
{
    match wrong_tag(schema, table, field.slot) {
        Some(tag) => {
            out.put_name(line, field.name.as_str())?;
            out.put_lone_tag(path, tag)
        }
        None => print_absent(out, path, line, field),
    }
}

fn print_named_fault(
    out: &mut Printer,
    path: &str,
    line: &str,
    field: &FieldSchema,
    kind: ErrorKind,
) -> Result<(), JsonError>
    ensures { Prints out.old (json.members_tokens line.now (spec.member
        (string_bytes field.now.name) (spec.fault path.now (fault_text kind)) spec.empty)) result
        out.new }
{
    out.put_name(line, field.name.as_str())?;
    out.put_fault(path, kind)
}

#[cycle(walk)]
fn print_kind(
    schema: &Schema,
    out: &mut Printer,
    left: usize,
    path: &str,
    line: &str,
    table: Table<'_>,
    field: &FieldSchema,
) -> Result<(), JsonError>
    ensures { Prints out.old (json.members_tokens line.now (spec.kind_members
        (spec.tree schema.now left) schema.now field.now.required field.now.kind field.now.slot
        (table_seen table.entry) (string_bytes field.now.name) path.now)) result out.new }
{
    match field.kind {
        Kind::Union(index) => match read_union(table, field.slot) {
            Ok(None) => print_no_union(schema, out, path, line, table, field),
            Ok(Some(tagged)) => {
                print_union_members(schema, out, left, path, line, field, index, tagged)
            }
            Err(kind) => print_named_fault(out, path, line, field, kind),
        },
        Kind::UnionVector(index) => match read_unions(table, field.slot) {
            Ok(None) => print_absent(out, path, line, field),
            Ok(Some(unions)) => {
                print_unions_members(schema, out, left, path, line, field, index, unions)
            }
            Err(kind) => print_named_fault(out, path, line, field, kind),
        },
        kind => match field_place(table, field.slot) {
            None => print_absent(out, path, line, field),
            Some(place) => print_present(schema, out, left, path, line, field, kind, place),
        },
    }
}

#[cycle(walk)]
fn print_present(
    schema: &Schema,
    out: &mut Printer,
    left: usize,
    path: &str,
    line: &str,
    field: &FieldSchema,
    kind: Kind,
    place: Place<'_>,
) -> Result<(), JsonError>
    ensures { Prints out.old (json.members_tokens line.now (spec.member
        (string_bytes field.now.name) (spec.place_tree (spec.tree schema.now left) schema.now kind
        (place_bytes place.entry) (place_offset place.entry) path.now) spec.empty)) result
        out.new }
{
    out.put_name(line, field.name.as_str())?;
    print_place(schema, out, left, path, line, kind, place)
}

#[cycle(walk)]
fn print_nested(
    schema: &Schema,
    out: &mut Printer,
    left: usize,
    path: &str,
    line: &str,
    index: usize,
    content: &[u8],
) -> Result<(), JsonError>
    ensures { Prints out.old (json.tokens line.now (spec.buffer_tree (spec.tree schema.now left)
        index path.now content.now (table_at content.now 0))) result out.new }
{
    let root = Place::new(SliceWithStartOffset::new(content, 0), 0);
    match read_table(root) {
        Ok(_) => print_table(schema, out, left, path, line, index, root),
        Err(_) => print_byte_list(out, line, content),
    }
}

#[cycle(walk)]
fn print_item(
    schema: &Schema,
    out: &mut Printer,
    left: usize,
    path: &str,
    line: &str,
    item: Item,
    place: Place<'_>,
) -> Result<(), JsonError>
    ensures { Prints out.old (json.tokens line.now (spec.item_tree (spec.tree schema.now left) item
        (place_bytes place.entry) (place_offset place.entry) path.now)) result out.new }
{
    match item {
        Item::Number(number) => print_number(out, path, line, number, place),
        Item::Bool => print_truth(out, path, line, place),
        Item::Text => print_text(out, path, line, place),
        Item::Table(index) => print_table(schema, out, left, path, line, index, place),
    }
}

#[cycle(walk)]
fn print_place(
    schema: &Schema,
    out: &mut Printer,
    left: usize,
    path: &str,
    line: &str,
    kind: Kind,
    place: Place<'_>,
) -> Result<(), JsonError>
    ensures { Prints out.old (json.tokens line.now (spec.place_tree (spec.tree schema.now left)
        schema.now kind (place_bytes place.entry) (place_offset place.entry) path.now)) result
        out.new }
{
    match kind {
        Kind::One(item) => print_item(schema, out, left, path, line, item, place),
        Kind::Bytes => print_bytes(out, path, line, place),
        Kind::List(item) => print_list(schema, out, left, path, line, item, place),
        Kind::Fixed(fixed) => print_value(schema, out, path, line, fixed, place),
        Kind::FixedList(fixed) => print_values(schema, out, path, line, fixed, place),
        Kind::Nested(index) => match bytes_at(place) {
            Ok(content) => print_nested(schema, out, left, path, line, index, content),
            Err(kind) => out.put_fault(path, kind),
        },
        Kind::Union(_) | Kind::UnionVector(_) => Ok(()),
    }
}

#[cycle(walk)]
fn print_list(
    schema: &Schema,
    out: &mut Printer,
    left: usize,
    path: &str,
    line: &str,
    item: Item,
    place: Place<'_>,
) -> Result<(), JsonError>
    ensures { Prints out.old (json.tokens line.now (spec.list_tree (spec.tree schema.now left) item
        path.now (vector_at (dump_spec.stride_of item) (place_bytes place.entry)
        (place_offset place.entry)))) result out.new }
{
    let (slice, count) = match read_values(place, stride_of(item)) {
        Ok(values) => values,
        Err(kind) => return out.put_fault(path, kind),
    };
    let inner = inner_line(out.alloc, line)?;
    out.put_open("[")?;
    print_items(schema, out, left, path, inner.as_str(), item, slice, count)?;
    out.put_close(line, "]")
}

#[cycle(walk)]
fn print_items(
    schema: &Schema,
    out: &mut Printer,
    left: usize,
    path: &str,
    line: &str,
    item: Item,
    slice: SliceWithStartOffset<'_>,
    count: usize,
) -> Result<(), JsonError>
    requires { count * dump_spec.stride_of item ≤ usize.MAX }
    ensures { Prints out.old (json.items_tokens line.now (spec.items_trees
        (spec.tree schema.now left) item (slice_bytes slice.entry) path.now count 0)) result
        out.new }
{
    for i in 0..count {
        let place = Place::new(slice, i * stride_of(item));
        print_list_item(schema, out, left, path, line, item, i, place)?;
    }
    Ok(())
}

#[cycle(walk)]
fn print_list_item(
    schema: &Schema,
    out: &mut Printer,
    left: usize,
    path: &str,
    line: &str,
    item: Item,
    i: usize,
    place: Place<'_>,
) -> Result<(), JsonError>
    ensures { Prints out.old (json.begins line.now ∷ json.tokens line.now (spec.item_tree
        (spec.tree schema.now left) item (place_bytes place.entry) (place_offset place.entry)
        (item_path path.now i))) result out.new }
{
    let path = format!(in out.alloc; "{path}[{i}]")?;
    out.put_next(line)?;
    print_item(schema, out, left, path.as_str(), line, item, place)
}

#[cycle(walk)]
fn print_member(
    schema: &Schema,
    out: &mut Printer,
    left: usize,
    path: &str,
    line: &str,
    kind: VariantKind,
    place: Place<'_>,
) -> Result<(), JsonError>
    ensures { Prints out.old (json.tokens line.now (spec.member_tree (spec.tree schema.now left)
        schema.now kind (place_bytes place.entry) (place_offset place.entry) path.now)) result
        out.new }
{
    match kind {
        VariantKind::Table(index) => print_table(schema, out, left, path, line, index, place),
        VariantKind::Struct(index) => print_led(schema, out, path, line, index, place),
        VariantKind::Text => print_text(out, path, line, place),
    }
}

#[cycle(walk)]
fn print_union(
    schema: &Schema,
    out: &mut Printer,
    left: usize,
    path: &str,
    line: &str,
    index: usize,
    tagged: TaggedPlace<'_>,
) -> Result<(), JsonError>
    ensures { let place = tagged_place tagged.entry in
        Prints out.old (json.tokens line.now (spec.union_tree (spec.tree schema.now left) schema.now
        (slice_get schema.now.unions.items index) (tagged_tag tagged.entry) (place_bytes place)
        (place_offset place) path.now)) result out.new }
{
    let variants = match schema.unions.get(index) {
        None => return Ok(()),
        Some(variants) => variants,
    };
    let tag = tagged.tag();
    match variant_with(variants.as_slice(), tag) {
        Some(variant) => {
            print_member(schema, out, left, path, line, variant.kind, tagged.place())
        }
        None => out.put_fault(path, ErrorKind::UnknownUnionTag { tag }),
    }
}

#[cycle(walk)]
fn print_union_value(
    schema: &Schema,
    out: &mut Printer,
    left: usize,
    path: &str,
    line: &str,
    field: &FieldSchema,
    index: usize,
    tagged: TaggedPlace<'_>,
) -> Result<(), JsonError>
    ensures { let place = tagged_place tagged.entry in
        Prints out.old (json.members_tokens line.now (spec.member (string_bytes field.now.name)
        (spec.union_tree (spec.tree schema.now left) schema.now
        (slice_get schema.now.unions.items index) (tagged_tag tagged.entry) (place_bytes place)
        (place_offset place) path.now) spec.empty)) result out.new }
{
    out.put_name(line, field.name.as_str())?;
    print_union(schema, out, left, path, line, index, tagged)
}

#[cycle(walk)]
fn print_union_members(
    schema: &Schema,
    out: &mut Printer,
    left: usize,
    path: &str,
    line: &str,
    field: &FieldSchema,
    index: usize,
    tagged: TaggedPlace<'_>,
) -> Result<(), JsonError>
    ensures { let place = tagged_place tagged.entry in
        let name = string_bytes field.now.name in
        let variants = slice_get schema.now.unions.items index in
        Prints out.old (json.members_tokens line.now
        (spec.member (spec.type_name name) (spec.type_tree variants (tagged_tag tagged.entry))
        (spec.member name (spec.union_tree (spec.tree schema.now left) schema.now variants
        (tagged_tag tagged.entry) (place_bytes place) (place_offset place) path.now) spec.empty)))
        result out.new }
{
    print_union_type(schema, out, line, field, index, tagged.tag())?;
    print_union_value(schema, out, left, path, line, field, index, tagged)
}

#[cycle(walk)]
fn print_unions_item(
    schema: &Schema,
    out: &mut Printer,
    left: usize,
    path: &str,
    line: &str,
    index: usize,
    i: usize,
    tagged: TaggedPlace<'_>,
) -> Result<(), JsonError>
    ensures { let place = tagged_place tagged.entry in
        Prints out.old (json.begins line.now ∷ json.tokens line.now (spec.union_tree
        (spec.tree schema.now left) schema.now (slice_get schema.now.unions.items index)
        (tagged_tag tagged.entry) (place_bytes place) (place_offset place) (item_path path.now i)))
        result out.new }
{
    let path = format!(in out.alloc; "{path}[{i}]")?;
    out.put_next(line)?;
    print_union(schema, out, left, path.as_str(), line, index, tagged)
}

#[cycle(walk)]
fn print_unions_items(
    schema: &Schema,
    out: &mut Printer,
    left: usize,
    path: &str,
    line: &str,
    index: usize,
    unions: Unions<'_>,
) -> Result<(), JsonError>
    ensures { Prints out.old (json.items_tokens line.now (spec.unions_trees
        (spec.tree schema.now left) schema.now index (unions_seen unions.entry) path.now
        (unions_seen unions.entry).count 0)) result out.new }
{
    for i in 0..unions.len() {
        match unions.get(i) {
            None => return Ok(()),
            Some(tagged) => {
                print_unions_item(schema, out, left, path, line, index, i, tagged)?;
            }
        }
    }
    Ok(())
}

#[cycle(walk)]
fn print_unions(
    schema: &Schema,
    out: &mut Printer,
    left: usize,
    path: &str,
    line: &str,
    index: usize,
    unions: Unions<'_>,
) -> Result<(), JsonError>
    ensures { Prints out.old (json.tokens line.now (spec.list (spec.unions_trees
        (spec.tree schema.now left) schema.now index (unions_seen unions.entry) path.now
        (unions_seen unions.entry).count 0))) result out.new }
{
    let inner = inner_line(out.alloc, line)?;
    out.put_open("[")?;
    print_unions_items(schema, out, left, path, inner.as_str(), index, unions)?;
    out.put_close(line, "]")
}

#[cycle(walk)]
fn print_unions_value(
    schema: &Schema,
    out: &mut Printer,
    left: usize,
    path: &str,
    line: &str,
    field: &FieldSchema,
    index: usize,
    unions: Unions<'_>,
) -> Result<(), JsonError>
    ensures { Prints out.old (json.members_tokens line.now (spec.member
        (string_bytes field.now.name) (spec.list (spec.unions_trees (spec.tree schema.now left)
        schema.now index (unions_seen unions.entry) path.now (unions_seen unions.entry).count 0))
        spec.empty)) result out.new }
{
    out.put_name(line, field.name.as_str())?;
    print_unions(schema, out, left, path, line, index, unions)
}

#[cycle(walk)]
fn print_unions_members(
    schema: &Schema,
    out: &mut Printer,
    left: usize,
    path: &str,
    line: &str,
    field: &FieldSchema,
    index: usize,
    unions: Unions<'_>,
) -> Result<(), JsonError>
    ensures { Prints out.old (json.members_tokens line.now (spec.unions_members
        (spec.tree schema.now left) schema.now false index (string_bytes field.now.name) path.now
        (Ok (Some (unions_seen unions.entry))))) result out.new }
{
    print_unions_type(schema, out, line, field, index, &unions)?;
    print_unions_value(schema, out, left, path, line, field, index, unions)
}
