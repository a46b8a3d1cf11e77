//! The names of planus for vectors.

use crate::cuts::{ByChunks, ByChunksExact, ByRChunks, ByRChunksExact, ByWindows};
use crate::items::Items;
use crate::sub_views::SubViews;
pub use crate::vector::Vector;

/// An iterator over items.
pub type Iter<'buf, T> = Items<Vector<'buf, T>>;

/// An iterator over sub-vectors from the front.
pub type Chunks<'buf, T> = SubViews<Vector<'buf, T>, ByChunks>;

/// An iterator over sub-vectors from the back.
pub type RChunks<'buf, T> = SubViews<Vector<'buf, T>, ByRChunks>;

/// An iterator over sub-vectors of exactly a size from the front.
pub type ChunksExact<'buf, T> = SubViews<Vector<'buf, T>, ByChunksExact>;

/// An iterator over sub-vectors of exactly a size from the back.
pub type RChunksExact<'buf, T> = SubViews<Vector<'buf, T>, ByRChunksExact>;

/// An iterator over all sub-vectors of exactly a size.
pub type Windows<'buf, T> = SubViews<Vector<'buf, T>, ByWindows>;
