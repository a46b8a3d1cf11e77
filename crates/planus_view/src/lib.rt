//! Vectors and union vectors in a buffer, by index and by iterators. Start with [`Vector`] and
//! [`VectorOf`].
#![tactic(auto)]

mod copies;
mod cuts;
mod index;
mod item_errors;
mod items;
pub mod laws;
mod plain_ref;
mod read_plain;
mod sub_views;
mod union_vector;
pub mod union_vectors;
mod vector;
mod vector_of;
pub mod vectors;
mod view;

pub use copies::FromItem;
pub use cuts::{ByChunks, ByChunksExact, ByRChunks, ByRChunksExact, ByWindows, Cut};
pub use index::{ViewIndex, ViewIndex as VectorIndex};
pub use items::Items;
pub use plain_ref::PlainRef;
pub use read_plain::read_plain_ref;
pub use sub_views::SubViews;
pub use union_vector::{UnionSliceView, UnionVector};
pub use vector::{SliceView, Vector};
pub use vector_of::VectorOf;
pub use view::{ReadView, View};

/// Why items can't be copied.
pub type CopyError = copies::CopyError<'static>;
