//! Fields and items whose reading is chosen later.

ghost use Rattle.std.specs.Prelude.{◌≡◌};
ghost use Rattle.planus_read.specs.Clauses.{Answer};
ghost use Rattle.planus_read.specs.Slices.{slice_bytes, slice_start};

use crate::errors::ErrorKind;
use crate::slice_helpers::SliceWithStartOffset;
use crate::traits::{Stride, TableRead, TableReadUnion, VectorRead, VectorReadUnion};

const VECTOR_NAME: &str = "[union]";

/// Where a field, or an item of 4 bytes, is encoded. Nothing is tested until it is read.
#[derive(Clone, Copy, Debug)]
pub struct Place<'buf> {
    buffer: SliceWithStartOffset<'buf>,
    offset: usize,
}

/// A union's tag, 0 for none, and where its reference is encoded. Neither is tested.
#[derive(Clone, Copy, Debug)]
pub struct TaggedPlace<'buf> {
    tag: u8,
    place: Place<'buf>,
}

impl<'buf> Place<'buf> {
    ghost use Rattle.planus_read.specs.Places.{place_bytes, place_start, place_offset};

    /// Returns the place at the offset in bytes.
    #[inline]
    pub fn new(buffer: SliceWithStartOffset<'buf>, offset: usize) -> Place<'buf>
        ensures bytes { place_bytes result ≡ slice_bytes buffer.entry }
        ensures begin { place_start result ≡ slice_start buffer.entry }
        ensures offset { place_offset result ≡ offset }
    {
        Place { buffer, offset }
    }

    /// Returns the value of type `T` that is encoded here.
    #[inline]
    pub fn read<T: TableRead<'buf>>(&self) -> Result<T, ErrorKind>
        ensures { T.reads (place_bytes self.now) (place_start self.now)
            (place_offset self.now) result }
    {
        T::from_buffer(self.buffer, self.offset)
    }
}

impl<'buf> TableRead<'buf> for Place<'buf> {
    ghost use Rattle.planus_read.specs.Places.{place_reading};

    ghost reads = { λ S start f r. Answer (place_reading S start f) r };

    #[inline]
    fn from_buffer(
        buffer: SliceWithStartOffset<'buf>,
        offset: usize,
    ) -> Result<Place<'buf>, ErrorKind> {
        Ok(Place { buffer, offset })
    }
}

impl<'buf> Stride for Place<'buf> {
    type Stands = u32;
}

impl<'buf> VectorRead<'buf> for Place<'buf> {
    ghost use Rattle.planus_read.specs.Places.{IsPlace};

    ghost gives = { λ S start f x. IsPlace S start f x };

    #[inline]
    fn from_buffer(buffer: SliceWithStartOffset<'buf>, offset: usize) -> Place<'buf> {
        Place { buffer, offset }
    }
}

impl<'buf> TaggedPlace<'buf> {
    ghost use Rattle.planus_read.specs.Places.{tagged_tag, tagged_place};

    /// Returns the union's tag.
    #[inline]
    pub fn tag(&self) -> u8
        ensures { result ≡ tagged_tag self.now }
    {
        self.tag
    }

    /// Returns where the union's reference is encoded.
    #[inline]
    pub fn place(&self) -> Place<'buf>
        ensures { result ≡ tagged_place self.now }
    {
        self.place
    }
}

impl<'buf> TableReadUnion<'buf> for TaggedPlace<'buf> {
    ghost use Rattle.planus_read.specs.Places.{tagged_place_reading};

    ghost reads = { λ S start tag f r. Answer (tagged_place_reading S start tag f) r };

    #[inline]
    fn from_buffer(
        buffer: SliceWithStartOffset<'buf>,
        tag: u8,
        offset: usize,
    ) -> Result<TaggedPlace<'buf>, ErrorKind> {
        Ok(TaggedPlace {
            tag,
            place: Place { buffer, offset },
        })
    }
}

impl<'buf> VectorReadUnion<'buf> for TaggedPlace<'buf> {
    ghost use Rattle.planus_read.specs.Items.{unions_name};

    ghost name = { unions_name };

    #[inline]
    fn vector_name() -> &'static str
        ensures { result.now ≡ unions_name }
    {
        VECTOR_NAME
    }
}
