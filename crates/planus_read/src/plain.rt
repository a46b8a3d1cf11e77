//! Values of a fixed layout.

ghost use Rattle.std.specs.Prelude.{◌≡◌, ◌≤◌, ◌+◌, ℕ, List, length, IfOk};
ghost use Rattle.planus_read.specs.Clauses.{Answer, FirstBroken};
ghost use Rattle.planus_read.specs.declared.errors.ErrorKind.{ErrorKind};
ghost use Rattle.planus_read.specs.Items.{item_method, plain_name};
ghost use Rattle.planus_read.specs.Located.{Located};
ghost use Rattle.planus_read.specs.Slices.{slice_bytes};
ghost use Rattle.planus_read.specs.Plain.{Shape, own_reading, plain_reading};

use crate::errors::{Error, ErrorKind};
use crate::located::{ITEM_METHOD, locate};
use crate::slice_helpers::SliceWithStartOffset;
use crate::traits::{ReadError, Stride, TableRead, VectorRead, VectorReadInner};

const VECTOR_NAME: &str = "[plain]";

/// A value of a fixed layout, stored in place. In the format a struct's fields are each at a
/// multiple of their alignment, with zeros between and after them.
///
/// For a struct the ghost member `shape` is `struct_shape` of `specs/Structs.antt`, without a
/// proof.
pub trait Plain: Copy {
    ghost ALIGNMENT: { ℕ };

    ghost SIZE: { ℕ };

    ghost shape: { Shape Self SIZE ALIGNMENT };

    /// The alignment in bytes.
    const ALIGNMENT: usize;

    /// The size in bytes.
    const SIZE: usize;

    /// Writes the value's bytes over the given ones.
    fn put(&self, bytes: &mut [u8])
        requires { length bytes.old ≡ SIZE }
        ensures encoded { bytes.new ≡ (shape).encoded self.now }
        ensures fits { (shape).fits self.now };

    /// Returns the value at the offset in bytes. Requires all its bytes to be in the slice.
    fn read(buffer: SliceWithStartOffset<'_>, offset: usize) -> Result<Self, ErrorKind>
        requires { offset + SIZE ≤ length (slice_bytes buffer) }
        ensures answer { Answer (own_reading shape (slice_bytes buffer.entry) offset) result }
        ensures fits { IfOk result (shape).fits };
}

/// A value whose read has no error. As an item, any other is read as a `Result`.
pub trait PlainTotal: Plain + Stride<Stands = Self> {
    ghost never_fails: { (S : List ℕ) (f : ℕ) (e : ErrorKind)
        → FirstBroken ((Self.shape).clauses S f) e → ⊥ };
}

impl<'buf, T: Plain> TableRead<'buf> for T {
    ghost reads = { λ S start f r. Answer (plain_reading T.shape S f) r };

    #[inline]
    fn from_buffer(buffer: SliceWithStartOffset<'buf>, offset: usize) -> Result<T, ErrorKind> {
        match offset.checked_add(T::SIZE) {
            Some(end) if end <= buffer.len() => T::read(buffer, offset),
            _ => Err(ErrorKind::InvalidOffset),
        }
    }
}

impl<'buf, T: PlainTotal> VectorRead<'buf> for T {
    ghost gives = { λ S start f x. (T.shape).There S f x };

    #[inline]
    fn from_buffer(buffer: SliceWithStartOffset<'buf>, offset: usize) -> T {
        match T::read(buffer, offset) {
            Ok(value) => value,
            Err(_) => unreachable!(),
        }
    }
}

impl<T: Plain> ReadError for T {
    type Error = Error;
}

impl<'buf, T: Plain + Stride<Stands = T>> VectorReadInner<'buf> for T {
    ghost gives = { λ S start f r.
        Located (Answer (plain_reading T.shape S f)) plain_name item_method start r };

    #[inline]
    fn from_buffer(buffer: SliceWithStartOffset<'buf>, offset: usize) -> Result<T, Error> {
        let value = <T as TableRead<'buf>>::from_buffer(buffer, offset);
        locate(value, VECTOR_NAME, ITEM_METHOD, buffer.offset_from_start())
    }
}
