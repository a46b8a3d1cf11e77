//! The builder of flatbuffers. Start at [`Builder`].
#![tactic(auto)]

mod apart;
mod backing;
pub mod builder;
mod by_ref;
mod byte_lists;
pub mod caches;
pub mod errors;
mod first_distances;
mod impls;
pub mod laws;
mod list_part;
mod lists;
mod markers;
mod object_writer;
pub mod offset;
mod sharing;
pub mod table_writer;
mod text_part;
pub mod traits;
pub mod union_offset;
pub mod union_vector_offset;
mod unions;
mod written;

pub use apart::Apart;
pub use builder::Builder;
pub use by_ref::ByRef;
pub use byte_lists::{ByteList, SignedList};
pub use caches::Caches;
pub use errors::BuildError;
pub use markers::{Initialized, Uninitialized};
pub use object_writer::{ObjectFill, ObjectWriter};
pub use offset::{List, Offset, Text};
pub use table_writer::TableWriter;
pub use traits::{
    Primitive, VectorWrite, WriteAsOffset, WriteAsPrimitive, WriteAsUnion, WriteAsUnionVector,
};
pub use union_offset::UnionOffset;
pub use union_vector_offset::UnionVectorOffset;
