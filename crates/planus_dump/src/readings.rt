//! What is at a place, or in the slots of a table.
ghost use Rattle.std.specs.Prelude.{◌≡◌, List, ℕ};
ghost use Rattle.std.specs.Int.{w8, w32, w64};
ghost use Rattle.planus_read.specs.Bytes.{Num};
ghost use Rattle.planus_read.specs.Places.{place_bytes, place_offset};
ghost use Rattle.planus_read.specs.Tables.{table_object};
ghost use Rattle.planus_dump.specs.Lines.{value_text};
ghost use Rattle.planus_dump.specs.Answers as spec;
ghost use Rattle.planus_dump.specs.Events.{TableEvents, leaf_events, number_width};
ghost use Rattle.planus_dump.specs.ReadingViews.{answer_seen, table_seen};
ghost use Rattle.planus_dump.specs.ReadingViews.{SeesUnion, SeesPlace, IsFound, found_events};
ghost use Rattle.planus_dump.specs.ReadingViews.{IsSliceFrom, IsFloat, SeesLed, values_seen};

use crate::line::Bits;
use crate::schemas::{Item, Number};
use crate::values::{Leaf, Value};
use planus::errors::ErrorKind;
use planus::table_reader::Table;
use planus::{Place, SliceWithStartOffset, TableRead, TaggedPlace};
use planus_read::array_from_buffer;

/// The reader's name, in locations that a dump doesn't print.
pub const TYPE: &str = "Table";

/// The reader's method, likewise.
pub const METHOD: &str = "dump";

/// A value, its error, or a table by its index in the schema.
#[derive(Clone, Copy)]
pub enum Found<'buf> {
    Value(Value<'buf>),
    Fault(ErrorKind),
    Table(usize, Place<'buf>),
}

fn text_at<'buf>(place: Place<'buf>) -> Result<Value<'buf>, ErrorKind>
    ensures { answer_seen value_text result
        ≡ spec.leaf_at Leaf.Text (place_bytes place.entry) (place_offset place.entry) }
{
    match place.read::<&'buf str>() {
        Ok(text) => Ok(Value::Text(text)),
        Err(kind) => Err(kind),
    }
}

fn number_at<'buf>(place: Place<'buf>, number: Number) -> Result<Value<'buf>, ErrorKind>
    ensures { answer_seen value_text result
        ≡ spec.leaf_at (Leaf.Number number) (place_bytes place.entry) (place_offset place.entry) }
{
    match number {
        Number::U8 => Ok(Value::Unsigned(u64::from(place.read::<u8>()?))),
        Number::U16 => Ok(Value::Unsigned(u64::from(place.read::<u16>()?))),
        Number::U32 => Ok(Value::Unsigned(u64::from(place.read::<u32>()?))),
        Number::U64 => Ok(Value::Unsigned(place.read::<u64>()?)),
        Number::I8 => Ok(Value::Signed(i64::from(place.read::<i8>()?))),
        Number::I16 => Ok(Value::Signed(i64::from(place.read::<i16>()?))),
        Number::I32 => Ok(Value::Signed(i64::from(place.read::<i32>()?))),
        Number::I64 => Ok(Value::Signed(place.read::<i64>()?)),
    }
}

/// Reads a scalar.
pub fn value_at<'buf>(place: Place<'buf>, leaf: Leaf) -> Result<Value<'buf>, ErrorKind>
    ensures { answer_seen value_text result
        ≡ spec.leaf_at leaf (place_bytes place.entry) (place_offset place.entry) }
{
    match leaf {
        Leaf::Number(number) => number_at(place, number),
        Leaf::Bool => Ok(Value::Truth(place.read::<bool>()?)),
        Leaf::Text => text_at(place),
        Leaf::Bytes => Ok(Value::Bytes(place.read::<&'buf [u8]>()?)),
    }
}

/// Reads a scalar.
pub fn leaf_found<'buf>(place: Place<'buf>, leaf: Leaf) -> Found<'buf>
    ensures { (E : TableEvents) (path : List ℕ) → found_events E path result
        ≡ leaf_events leaf (place_bytes place.entry) (place_offset place.entry) path }
{
    match value_at(place, leaf) {
        Ok(value) => Found::Value(value),
        Err(kind) => Found::Fault(kind),
    }
}

/// Reads an item, but for a table.
pub fn item_found<'buf>(place: Place<'buf>, item: Item) -> Found<'buf>
    ensures { IsFound item (place_bytes place.entry) (place_offset place.entry) result }
{
    match item {
        Item::Number(number) => leaf_found(place, Leaf::Number(number)),
        Item::Bool => leaf_found(place, Leaf::Bool),
        Item::Text => leaf_found(place, Leaf::Text),
        Item::Table(index) => Found::Table(index, place),
    }
}

/// A place that is read as itself.
#[derive(Clone, Copy)]
pub struct Position<'buf> {
    slice: SliceWithStartOffset<'buf>,
    offset: usize,
}

impl<'buf> TableRead<'buf> for Position<'buf> {
    ghost use Rattle.planus_dump.specs.ReadingViews.{IsPosition};

    ghost reads = { λ S start f r. IsPosition S f r };

    fn from_buffer(
        slice: SliceWithStartOffset<'buf>,
        offset: usize,
    ) -> Result<Position<'buf>, ErrorKind> {
        Ok(Position { slice, offset })
    }
}

/// Returns the bytes from a place on, if they are at least so many.
pub fn slice_from<'buf>(
    place: Place<'buf>,
    size: usize,
) -> Result<SliceWithStartOffset<'buf>, ErrorKind>
    ensures { IsSliceFrom (place_bytes place.entry) (place_offset place.entry) size result }
{
    let position = place.read::<Position<'buf>>()?;
    let slice = position.slice.advance(position.offset)?;
    if slice.len() < size {
        return Err(ErrorKind::InvalidOffset);
    }
    Ok(slice)
}

/// Returns the place to which the reference at a place leads.
pub fn led_place<'buf>(place: Place<'buf>) -> Result<Place<'buf>, ErrorKind>
    ensures { SeesLed (place_bytes place.entry) (place_offset place.entry)
        (spec.bits_at w32 (place_bytes place.entry) (place_offset place.entry)) result }
{
    let reference = place.read::<u32>()?;
    let position = place.read::<Position<'buf>>()?;
    Ok(Place::new(position.slice, position.offset + reference as usize))
}

/// Returns the bytes of a vector from its first item on, and the number of its items, of this size.
pub fn read_values<'buf>(
    place: Place<'buf>,
    size: usize,
) -> Result<(SliceWithStartOffset<'buf>, usize), ErrorKind>
    ensures { answer_seen values_seen result
        ≡ spec.vector_at size (place_bytes place.entry) (place_offset place.entry) }
{
    let position = place.read::<Position<'buf>>()?;
    let (slice, count) = array_from_buffer(position.slice, position.offset)?;
    let count = count as usize;
    match count.checked_mul(size) {
        Some(all) if all <= slice.len() => Ok((slice, count)),
        _ => Err(ErrorKind::InvalidLength),
    }
}

/// Reads the bits of an integer.
pub fn read_bits(place: Place<'_>, number: Number) -> Result<u64, ErrorKind>
    ensures { answer_seen (λ bits. bits) result
        ≡ spec.bits_at (number_width number) (place_bytes place.entry) (place_offset place.entry) }
{
    match number {
        Number::U8 | Number::I8 => Ok(u64::from(place.read::<u8>()?)),
        Number::U16 | Number::I16 => Ok(u64::from(place.read::<u16>()?)),
        Number::U32 | Number::I32 => Ok(u64::from(place.read::<u32>()?)),
        Number::U64 | Number::I64 => place.read::<u64>(),
    }
}

/// Reads the bits of a 32-bit float.
pub fn single_at(place: Place<'_>) -> Result<Bits, ErrorKind>
    ensures { IsFloat Bits.F32 (spec.bits_at w32 (place_bytes place.entry)
        (place_offset place.entry))
        result }
{
    Ok(Bits::F32(place.read::<u32>()?))
}

/// Reads the bits of a 64-bit float.
pub fn double_at(place: Place<'_>) -> Result<Bits, ErrorKind>
    ensures { IsFloat Bits.F64 (spec.bits_at w64 (place_bytes place.entry)
        (place_offset place.entry))
        result }
{
    Ok(Bits::F64(place.read::<u64>()?))
}

/// Reads the table to which the reference at a place leads.
pub fn read_table(place: Place<'_>) -> Result<Table<'_>, ErrorKind>
    ensures { answer_seen table_seen result
        ≡ spec.table_at (place_bytes place.entry) (place_offset place.entry) }
{
    place.read::<Table<'_>>()
}

/// Returns the place of a field, unless it is absent.
pub fn field_place<'buf>(table: Table<'buf>, slot: usize) -> Option<Place<'buf>>
    ensures { SeesPlace (table_seen table.entry) slot result }
{
    match table.access::<Place<'buf>>(slot, TYPE, METHOD) {
        Ok(place) => place,
        Err(_) => unreachable!(),
    }
}

/// Reads the union in a slot and the next, unless it is absent.
pub fn read_union<'buf>(
    table: Table<'buf>,
    slot: usize,
) -> Result<Option<TaggedPlace<'buf>>, ErrorKind>
    ensures { SeesUnion (table_object table.entry) (spec.union_at (table_seen table.entry) slot)
        result }
{
    match table.access_union::<TaggedPlace<'buf>>(slot, TYPE, METHOD) {
        Ok(tagged) => Ok(tagged),
        Err(error) => Err(error.error_kind),
    }
}

fn tag_at(place: Place<'_>) -> Option<u8>
    ensures { result ≡ spec.some_tag (Num (place_bytes place.entry) (place_offset place.entry) w8) }
{
    match place.read::<u8>() {
        Ok(tag) if tag != 0 => Some(tag),
        _ => None,
    }
}

/// The tag of a union without a value.
pub fn lone_tag(table: Table<'_>, slot: usize) -> Option<u8>
    ensures { result ≡ spec.lone_tag (table_seen table.entry) slot }
{
    let offset = table.slot_offset(slot);
    if offset == 0 || table.slot_offset(slot + 1) != 0 {
        return None;
    }
    tag_at(Place::new(table.object(), offset))
}
