//! Unions `Berth`.

ghost use Rattle.std.specs.Prelude.{◌≡◌, codes};
ghost use Rattle.planus.specs.Printed.{ReadsVariants};
ghost use Rattle.quay.specs.Berth.{berth_variants};

use crate::boat::{Boat, BoatRef};
use crate::load::Load;
use crate::plate::Plate;
use planus::errors::ErrorKind;
use planus::{
    Offset, PlainRef, SliceWithStartOffset, TableRead, TableReadUnion, Text, UnionOffset,
    VectorReadUnion, read_plain_ref, read_view,
};

/// The kind of one of some types.
pub struct Berth;

impl Berth {
    /// Returns the variant `Boat` with the table at this offset.
    pub fn from_boat(table: Offset<Boat>) -> UnionOffset<Berth>
        ensures tag { result.tag ≡ 1 }
        ensures offset { result.offset.distance ≡ table.distance }
    {
        UnionOffset::new(1, table.downcast())
    }

    /// Returns the variant `Waiting` with the struct at this offset.
    pub fn from_waiting(value: Offset<Load>) -> UnionOffset<Berth>
        ensures tag { result.tag ≡ 2 }
        ensures offset { result.offset.distance ≡ value.distance }
    {
        UnionOffset::new(2, value.downcast())
    }

    /// Returns the variant `Empty` with the struct at this offset.
    pub fn from_empty(value: Offset<Plate>) -> UnionOffset<Berth>
        ensures tag { result.tag ≡ 3 }
        ensures offset { result.offset.distance ≡ value.distance }
    {
        UnionOffset::new(3, value.downcast())
    }

    /// Returns the variant `Note` with the string at this offset.
    pub fn from_note(text: Offset<Text>) -> UnionOffset<Berth>
        ensures tag { result.tag ≡ 4 }
        ensures offset { result.offset.distance ≡ text.distance }
    {
        UnionOffset::new(4, text.downcast())
    }
}

/// One in a buffer.
#[derive(Clone, Copy, Debug)]
pub enum BerthRef<'a> {
    Boat(BoatRef<'a>),
    Waiting(PlainRef<'a, Load>),
    Empty(PlainRef<'a, Plate>),
    Note(&'a str),
}

impl<'a> TableReadUnion<'a> for BerthRef<'a> {
    ghost reads = { ReadsVariants berth_variants };

    fn from_buffer(
        buffer: SliceWithStartOffset<'a>,
        tag: u8,
        offset: usize,
    ) -> Result<BerthRef<'a>, ErrorKind> {
        match tag {
            1 => Ok(BerthRef::Boat(read_view(buffer, offset)?)),
            2 => Ok(BerthRef::Waiting(read_plain_ref(buffer, offset)?)),
            3 => Ok(BerthRef::Empty(read_plain_ref(buffer, offset)?)),
            4 => Ok(BerthRef::Note(TableRead::from_buffer(buffer, offset)?)),
            _ => Err(ErrorKind::UnknownUnionTag { tag }),
        }
    }
}

impl<'a> VectorReadUnion<'a> for BerthRef<'a> {
    ghost name = { codes "[Berth]" };

    fn vector_name() -> &'static str
        ensures { result.now ≡ codes "[Berth]" }
    {
        "[Berth]"
    }
}
