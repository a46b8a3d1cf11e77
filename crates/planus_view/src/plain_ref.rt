//! Values of a fixed layout that stand by themselves, to which a reference leads.

ghost use Rattle.std.specs.Prelude.{◌≡◌, ◌≤◌, length};
ghost use Rattle.planus_read.specs.Slices.{slice_bytes};

use planus_read::errors::ErrorKind;
use planus_read::{Plain, PlainTotal, SliceWithStartOffset, VectorRead};
use std::alloc::AllocError;
use std::fmt;
use std::marker::PhantomData;

/// A value of a fixed layout to which a reference leads, as that of a union to a struct. All its
/// bytes are in the buffer; [`PlainRef::get`] reads it.
pub struct PlainRef<'a, T: Plain> {
    bytes: SliceWithStartOffset<'a>,
    _marker: PhantomData<T>,
    ghost inside: { T.SIZE ≤ length (slice_bytes bytes) },
}

impl<'a, T: Plain> Clone for PlainRef<'a, T> {
    ghost use Rattle.std.specs.Prelude.{⊤};

    ghost is_clone = { λ view copy. copy ≡ view };

    ghost is_infallible = { λ _. ⊤ };

    #[inline]
    fn clone(&self) -> Result<Self, AllocError> {
        Ok(*self)
    }
}

impl<'a, T: Plain> Copy for PlainRef<'a, T> {}

impl<'a, T: Plain> PlainRef<'a, T> {
    ghost use Rattle.std.specs.Prelude.{IfOk, Ok};
    ghost use Rattle.planus_read.specs.Bytes.{BytesStand};
    ghost use Rattle.planus_read.specs.Clauses.{AllHold, Answer};
    ghost use Rattle.planus_read.specs.Plain.{own_reading};
    ghost use Rattle.planus_read.specs.Slices.{slice_start};
    ghost use Rattle.planus_read.specs.Reading.{plain_ref_clauses};
    ghost use Rattle.planus_view.specs.PlainRefs.{plain_slice, reads_plain_ref};

    #[inline(always)]
    pub(crate) fn new(bytes: SliceWithStartOffset<'a>) -> PlainRef<'a, T>
        requires { T.SIZE ≤ length (slice_bytes bytes) }
        ensures { plain_slice result ≡ bytes.entry }
    {
        PlainRef {
            bytes,
            _marker: PhantomData,
        }
    }

    /// Returns the value to which the reference at the offset leads, without tests. Requires all
    /// clauses of its reading to hold.
    #[inline(always)]
    #[must_use]
    pub fn from_buffer_unchecked(buffer: SliceWithStartOffset<'a>, offset: usize) -> PlainRef<'a, T>
        requires { AllHold (plain_ref_clauses T.SIZE (slice_bytes buffer) offset) }
        ensures { reads_plain_ref plain_slice T.SIZE (slice_bytes buffer.entry)
            (slice_start buffer.entry) offset (Ok result) }
    {
        let reference = <u32 as VectorRead<'a>>::from_buffer(buffer, offset) as usize;
        PlainRef::new(buffer.unchecked_advance(offset + reference))
    }

    /// Returns the value, or the error of its own reading. Tests no bounds.
    #[inline]
    pub fn get(&self) -> Result<T, ErrorKind>
        ensures answer { let S = slice_bytes (plain_slice self.now) in
            Answer (own_reading T.shape S 0) result }
        ensures fits { IfOk result (T.shape).fits }
        ensures read_back { let S = slice_bytes (plain_slice self.now) in
            (x : T) → (T.shape).fits x → BytesStand S 0 ((T.shape).encoded x) → result ≡ Ok x }
    {
        T::read(self.bytes, 0)
    }
}

impl<'a, T: PlainTotal> PlainRef<'a, T> {
    ghost use Rattle.planus_read.specs.Bytes.{BytesStand};
    ghost use Rattle.planus_view.specs.PlainRefs.{plain_slice};

    /// Returns the value, whose read has no error.
    #[inline]
    pub fn value(&self) -> T
        ensures there { (T.shape).There (slice_bytes (plain_slice self.now)) 0 result }
        ensures read_back { let S = slice_bytes (plain_slice self.now) in
            (x : T) → (T.shape).fits x → BytesStand S 0 ((T.shape).encoded x) → result ≡ x }
    {
        <T as VectorRead<'a>>::from_buffer(self.bytes, 0)
    }
}

impl<'a, T: Plain + fmt::Debug> fmt::Debug for PlainRef<'a, T> {
    fn fmt<W: fmt::Write>(&self, f: &mut fmt::Formatter<W>) -> fmt::Result {
        match self.get() {
            Ok(value) => value.fmt(f),
            Err(error) => error.fmt(f),
        }
    }
}
