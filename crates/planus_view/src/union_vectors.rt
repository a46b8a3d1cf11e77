//! The names of planus for union vectors.

use crate::cuts::{ByChunks, ByChunksExact, ByRChunks, ByRChunksExact, ByWindows};
use crate::items::Items;
use crate::sub_views::SubViews;
pub use crate::union_vector::UnionVector;

/// An iterator over items.
pub type Iter<'buf, T> = Items<UnionVector<'buf, T>>;

/// An iterator over sub-vectors from the front.
pub type Chunks<'buf, T> = SubViews<UnionVector<'buf, T>, ByChunks>;

/// An iterator over sub-vectors from the back.
pub type RChunks<'buf, T> = SubViews<UnionVector<'buf, T>, ByRChunks>;

/// An iterator over sub-vectors of exactly a size from the front.
pub type ChunksExact<'buf, T> = SubViews<UnionVector<'buf, T>, ByChunksExact>;

/// An iterator over sub-vectors of exactly a size from the back.
pub type RChunksExact<'buf, T> = SubViews<UnionVector<'buf, T>, ByRChunksExact>;

/// An iterator over all sub-vectors of exactly a size.
pub type Windows<'buf, T> = SubViews<UnionVector<'buf, T>, ByWindows>;
