//! What can be read.

ghost use Rattle.std.specs.Prelude.{◌≡◌, ◌≤◌, ◌+◌, ℕ, List, length, Result as std_result};
ghost use Rattle.planus_read.specs.declared.errors.ErrorKind.{ErrorKind};
ghost use Rattle.planus_read.specs.declared.located.Error.{Error};
ghost use Rattle.planus_read.specs.Slices.{slice_bytes, slice_start};
ghost use Rattle.planus_read.specs.Items.{item_method};
ghost use Rattle.planus_read.specs.Located.{Located};

use crate::Result;
use crate::errors::ErrorKind;
use crate::located::{self, ITEM_METHOD, locate};
use crate::plain::Plain;
use crate::slice_helpers::SliceWithStartOffset;

/// What can be read as the root of a buffer.
pub trait ReadAsRoot<'a>: Sized {
    ghost reads_root: { List ℕ → std_result Self Error → Type 0 };

    /// Returns the view of the root of a whole buffer.
    fn read_as_root(slice: &'a [u8]) -> Result<Self>
        ensures { reads_root slice.entry.now result };
}

/// What can be read as the root of a slice.
pub trait ReadSliceAsRoot<'a>: Sized {
    ghost reads_root: { List ℕ → ℕ → std_result Self Error → Type 0 };

    /// Returns the view of the slice's root. Errors are as of [`ReadAsRoot::read_as_root`], at the
    /// offset at which the slice starts.
    fn read_slice_as_root(slice: SliceWithStartOffset<'a>) -> Result<Self>
        ensures { reads_root (slice_bytes slice.entry) (slice_start slice.entry) result };
}

/// What can be read as a field. Fails with [`ErrorKind::InvalidOffset`] if the field, or the count
/// that it refers to, isn't in the slice. Then a [`crate::Plain`] fails as its `read`, a `&str`
/// with [`ErrorKind::MissingNullTerminator`] or [`ErrorKind::InvalidUtf8`], a byte vector with
/// [`ErrorKind::InvalidLength`], and a [`crate::table_reader::Table`] as its `from_buffer`.
/// [`crate::Place`] tests nothing.
pub trait TableRead<'buf>: Sized {
    ghost reads: { List ℕ → ℕ → ℕ → std_result Self ErrorKind → Type 0 };

    /// Returns the field at the offset in bytes.
    fn from_buffer(
        buffer: SliceWithStartOffset<'buf>,
        offset: usize,
    ) -> std::result::Result<Self, ErrorKind>
        ensures { reads (slice_bytes buffer.entry) (slice_start buffer.entry) offset result };
}

/// What can be read as a union field. An unknown tag is [`ErrorKind::UnknownUnionTag`], except for
/// [`crate::TaggedPlace`].
pub trait TableReadUnion<'buf>: Sized {
    ghost reads: { List ℕ → ℕ → ℕ → ℕ → std_result Self ErrorKind → Type 0 };

    /// Returns the union with this tag whose reference is at the offset in bytes.
    fn from_buffer(
        buffer: SliceWithStartOffset<'buf>,
        tag: u8,
        offset: usize,
    ) -> std::result::Result<Self, ErrorKind>
        ensures { reads (slice_bytes buffer.entry) (slice_start buffer.entry) tag offset result };
}

/// What can be read as a union vector.
pub trait TableReadUnionVector<'buf>: Sized {
    ghost reads: { List ℕ → ℕ → ℕ → ℕ → std_result Self ErrorKind → Type 0 };

    /// Returns the union vector whose references are at the offsets in bytes.
    fn from_buffer(
        buffer: SliceWithStartOffset<'buf>,
        tags_offset: usize,
        values_offset: usize,
    ) -> std::result::Result<Self, ErrorKind>
        ensures { reads (slice_bytes buffer.entry) (slice_start buffer.entry)
            tags_offset values_offset result };
}

/// What can be an item of a vector.
pub trait Stride: Sized {
    /// What the vector stores for an item: itself, or a reference, a `u32`.
    type Stands: Plain;

    /// Returns the size of an item in bytes.
    final fn stride() -> usize
        ensures { result ≡ Self.Stands.SIZE }
    {
        <Self::Stands as Plain>::SIZE
    }
}

/// An item that is read without an error. A `Result` converts the error of the [`VectorReadInner`]
/// that it wraps.
pub trait VectorRead<'buf>: Stride {
    ghost gives: { List ℕ → ℕ → ℕ → Self → Type 0 };

    /// Returns the item at the offset in bytes, which must be in the slice.
    fn from_buffer(buffer: SliceWithStartOffset<'buf>, offset: usize) -> Self
        requires { offset + Self.Stands.SIZE ≤ length (slice_bytes buffer) }
        ensures { gives (slice_bytes buffer.entry) (slice_start buffer.entry) offset result };
}

/// The error of an item whose read may fail.
pub trait ReadError {
    /// What the read returns if it fails.
    type Error;
}

/// An item whose read may fail. The error of a `&str` names `[str]` and `get`, that of a fixed
/// layout `[plain]`.
pub trait VectorReadInner<'buf>: Stride + ReadError {
    ghost gives: { List ℕ → ℕ → ℕ → std_result Self Self.Error → Type 0 };

    /// Returns the item at the offset in bytes, which must be in the slice, unlike what it refers
    /// to.
    fn from_buffer(
        buffer: SliceWithStartOffset<'buf>,
        offset: usize,
    ) -> std::result::Result<Self, Self::Error>
        requires { offset + Self.Stands.SIZE ≤ length (slice_bytes buffer) }
        ensures { gives (slice_bytes buffer.entry) (slice_start buffer.entry) offset result };
}

/// What can be read as an item of a union vector.
pub trait VectorReadUnion<'buf>: TableReadUnion<'buf> {
    ghost name: { List ℕ };

    /// Returns the vector type's name in errors.
    fn vector_name() -> &'static str
        ensures { result.now ≡ name };

    /// Returns the union with this tag whose reference is at the offset in bytes. Errors are at the
    /// slice's start.
    final fn from_buffer<'n>(
        buffer: SliceWithStartOffset<'buf>,
        tag: u8,
        offset: usize,
    ) -> std::result::Result<Self, located::Error<'n>>
        ensures { let S = slice_bytes buffer.entry in let start = slice_start buffer.entry in
            Located (Self.reads S start tag offset) name item_method start result }
    {
        let value = <Self as TableReadUnion<'buf>>::from_buffer(buffer, tag, offset);
        let (name, method): (&'n str, &'n str) = (Self::vector_name(), ITEM_METHOD);
        locate(value, name, method, buffer.offset_from_start())
    }
}
