//! Zero-copy readers of flatbuffers, and definitions of what is encoded where. Start with
//! [`ReadAsRoot`] and [`TableRead`].
#![tactic(auto)]

mod arrays;
pub mod errors;
mod heads;
mod impls;
pub mod laws;
pub mod located;
mod place;
mod plain;
mod signed_bytes;
mod signed_items;
mod size_prefixed;
mod slice_helpers;
pub mod table_reader;
mod traits;
mod unchecked;

pub use arrays::{put_array, read_array};
pub use errors::Error;
pub use heads::array_from_buffer;
pub use impls::known_or;
pub use place::{Place, TaggedPlace};
pub use plain::{Plain, PlainTotal};
pub use signed_bytes::SignedBytes;
pub use signed_items::SignedItems;
pub use size_prefixed::{has_identifier, read_size_prefixed};
pub use slice_helpers::{ArrayWithStartOffset, SliceWithStartOffset};
pub use traits::{
    ReadAsRoot, ReadError, ReadSliceAsRoot, Stride, TableRead, TableReadUnion,
    TableReadUnionVector, VectorRead, VectorReadInner, VectorReadUnion,
};
pub use unchecked::{array_unchecked, bytes_unchecked, text_unchecked};

/// The result of a read that names its location.
pub type Result<T> = std::result::Result<T, Error>;

/// A type that has no value.
#[derive(Clone, Copy)]
pub enum Void {}
