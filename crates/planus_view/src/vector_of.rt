//! The methods of vectors.

ghost use Rattle.std.specs.Prelude.{◌≡◌, ◌<◌, ◌≤◌, ◌==◌, IfOk, IfErr};

use crate::copies::{Conversion, CopyError, copy_items};
use crate::cuts::{ByChunks, ByChunksExact, ByRChunks, ByRChunksExact, ByWindows};
use crate::index::ViewIndex;
use crate::items::Items;
use crate::sub_views::SubViews;
use crate::view::{ReadView, View};
use std::alloc::Global;
use std::fmt;

/// The items of a view, which are read when they are asked for.
#[derive(Clone, Copy)]
pub struct VectorOf<V> {
    pub(crate) view: V,
}

impl<V: View> View for VectorOf<V> {
    ghost use Rattle.planus_view.specs.Vectors.{count_in, IsSubVector};

    ghost count = { count_in V.count };

    ghost is_sub_view = { IsSubVector V.is_sub_view };

    ghost sub_view_count = { λ v u lo hi is. V.sub_view_count v.view u.view lo hi is };

    ghost sub_view_twice = { λ v u w lo hi a b is also.
        V.sub_view_twice v.view u.view w.view lo hi a b is also };

    #[inline]
    fn len(&self) -> usize {
        self.view.len()
    }

    #[inline]
    fn sub_view(&self, lo: usize, hi: usize) -> VectorOf<V> {
        VectorOf {
            view: self.view.sub_view(lo, hi),
        }
    }
}

impl<V: ReadView> ReadView for VectorOf<V> {
    type Item = V::Item;

    type Copied = V::Copied;

    ghost use Rattle.planus_view.specs.Vectors.{IsItemIn};

    ghost is_item = { IsItemIn V.is_item };

    #[inline]
    fn item(&self, position: usize) -> V::Item {
        self.view.item(position)
    }
}

impl<V: View> VectorOf<V> {
    ghost use Rattle.planus_view.specs.ItemsLeft.{IsOverAll};
    ghost use Rattle.planus_view.specs.Ranges.{chunks, rchunks, chunks_exact, rchunks_exact};
    ghost use Rattle.planus_view.specs.Ranges.{windows};
    ghost use Rattle.planus_view.specs.RangesLeft.{IsOverRanges};
    ghost use Rattle.planus_view.specs.Splits.{SplitAt, SplitsAt};
    ghost use Rattle.planus_view.specs.Vectors.{count_in, IsSubVector};

    /// Returns `true` if there are no items.
    #[inline]
    #[must_use]
    pub fn is_empty(&self) -> bool
        ensures { result ≡ (count_in V.count self.now == 0) }
    {
        self.view.len() == 0
    }

    /// Returns the number of items.
    #[inline]
    #[must_use]
    pub fn len(&self) -> usize
        ensures { result ≡ count_in V.count self.now }
    {
        self.view.len()
    }

    /// Returns the item at an index, or the sub-vector at a range, or `None` out of bounds.
    #[inline]
    #[must_use]
    pub fn get<I: ViewIndex<VectorOf<V>>>(&self, index: I) -> Option<I::Output>
        ensures { I.gets self.now index result }
    {
        index.get(self)
    }

    /// Returns the item or the sub-vector at an index in bounds.
    #[inline]
    #[must_use]
    pub fn get_unchecked<I: ViewIndex<VectorOf<V>>>(&self, index: I) -> I::Output
        requires { I.fits self.now index }
        ensures { I.is_there self.now index result }
    {
        index.get_unchecked(self)
    }

    /// Returns the first `mid` items and the others, or `None` if there are fewer.
    #[inline]
    #[must_use]
    pub fn split_at(&self, mid: usize) -> Option<(VectorOf<V>, VectorOf<V>)>
        ensures { SplitsAt (count_in V.count) (IsSubVector V.is_sub_view) self.now mid result }
    {
        if mid > self.len() {
            return None;
        }
        Some(self.split_at_unchecked(mid))
    }

    /// Returns the first `mid` items and the others.
    #[inline]
    #[must_use]
    pub fn split_at_unchecked(&self, mid: usize) -> (VectorOf<V>, VectorOf<V>)
        requires { mid ≤ count_in V.count self.now }
        ensures { SplitAt (count_in V.count) (IsSubVector V.is_sub_view) self.now mid result }
    {
        (self.sub_view(0, mid), self.sub_view(mid, self.len()))
    }

    /// Returns an iterator over the items.
    #[inline]
    #[must_use]
    pub fn iter(&self) -> Items<VectorOf<V>>
        ensures { IsOverAll self.now result }
    {
        Items::new(*self)
    }

    /// Returns an iterator over sub-vectors of `size` items from the front; the last may be
    /// shorter.
    #[inline]
    #[must_use]
    pub fn chunks(&self, size: usize) -> SubViews<VectorOf<V>, ByChunks>
        requires { 0 < size }
        ensures { IsOverRanges self.now size (chunks (count_in V.count self.now) size) result }
    {
        SubViews::new(*self, size)
    }

    /// Returns an iterator over sub-vectors of `size` items from the back; the last may be shorter.
    #[inline]
    #[must_use]
    pub fn rchunks(&self, size: usize) -> SubViews<VectorOf<V>, ByRChunks>
        requires { 0 < size }
        ensures { IsOverRanges self.now size (rchunks (count_in V.count self.now) size) result }
    {
        SubViews::new(*self, size)
    }

    /// Returns an iterator over sub-vectors of exactly `size` items from the front; `remainder` has
    /// the others.
    #[inline]
    #[must_use]
    pub fn chunks_exact(&self, size: usize) -> SubViews<VectorOf<V>, ByChunksExact>
        requires { 0 < size }
        ensures { IsOverRanges self.now size
            (chunks_exact (count_in V.count self.now) size) result }
    {
        SubViews::new(*self, size)
    }

    /// Returns an iterator over sub-vectors of exactly `size` items from the back; `remainder` has
    /// the others.
    #[inline]
    #[must_use]
    pub fn rchunks_exact(&self, size: usize) -> SubViews<VectorOf<V>, ByRChunksExact>
        requires { 0 < size }
        ensures { IsOverRanges self.now size
            (rchunks_exact (count_in V.count self.now) size) result }
    {
        SubViews::new(*self, size)
    }

    /// Returns an iterator over all sub-vectors of exactly `size` items.
    #[inline]
    #[must_use]
    pub fn windows(&self, size: usize) -> SubViews<VectorOf<V>, ByWindows>
        requires { 0 < size }
        ensures { IsOverRanges self.now size (windows (count_in V.count self.now) size) result }
    {
        SubViews::new(*self, size)
    }
}

impl<V: ReadView> VectorOf<V> {
    ghost use Rattle.planus_view.specs.Indexes.{GetsItem};
    ghost use Rattle.planus_view.specs.Splits.{FirstAndRest, LastAndRest, LastItem};
    ghost use Rattle.planus_view.specs.Vectors.{count_in, IsSubVector, IsItemIn};

    /// Returns the first item, if any.
    #[inline]
    #[must_use]
    pub fn first(&self) -> Option<V::Item>
        ensures { GetsItem (count_in V.count) (IsItemIn V.is_item) self.now 0 result }
    {
        self.get(0usize)
    }

    /// Returns the last item, if any.
    #[inline]
    #[must_use]
    pub fn last(&self) -> Option<V::Item>
        ensures { LastItem (count_in V.count) (IsItemIn V.is_item) self.now result }
    {
        let last = self.len().checked_sub(1)?;
        Some(self.item(last))
    }

    /// Returns the first item and the others, if any.
    #[inline]
    #[must_use]
    pub fn split_first(&self) -> Option<(V::Item, VectorOf<V>)>
        ensures { FirstAndRest (count_in V.count) (IsSubVector V.is_sub_view) (IsItemIn V.is_item)
            self.now result }
    {
        let len = self.len();
        if len == 0 {
            return None;
        }
        Some((self.item(0), self.sub_view(1, len)))
    }

    /// Returns the last item and the others, if any.
    #[inline]
    #[must_use]
    pub fn split_last(&self) -> Option<(V::Item, VectorOf<V>)>
        ensures { LastAndRest (count_in V.count) (IsSubVector V.is_sub_view) (IsItemIn V.is_item)
            self.now result }
    {
        let last = self.len().checked_sub(1)?;
        Some((self.item(last), self.sub_view(0, last)))
    }
}

impl<V: ReadView> VectorOf<V>
where
    V::Item: Drop,
{
    ghost use Rattle.planus_view.specs.Copies.{AreAllConverted, IsRefusal};
    ghost use Rattle.planus_view.specs.Vectors.{count_in, IsSubVector, IsItemIn};

    /// Returns all items, converted, or the first error: of a conversion, in a union vector
    /// [`CopyError::Read`], or [`CopyError::OutOfMemory`]. Memory is allocated once.
    pub fn to_vec<'n, O: Drop>(&self, alloc: Global) -> Result<Vec<O>, CopyError<'n>>
    where
        V::Copied: Conversion<V::Item, O>,
        ensures all { IfOk result (λ copies. AreAllConverted (IsSubVector V.is_sub_view)
            (IsItemIn V.is_item) V.Copied.gives self.now (count_in V.count self.now) copies.items) }
        ensures refused { IfErr result (λ e. IsRefusal (IsSubVector V.is_sub_view)
            (IsItemIn V.is_item) V.Copied.gives self.now (count_in V.count self.now) e) }
    {
        copy_items::<VectorOf<V>, O, V::Copied>(alloc, self)
    }
}

impl<V: ReadView> IntoIterator for VectorOf<V> {
    type Item = V::Item;

    type IntoIter = Items<VectorOf<V>>;

    ghost use Rattle.planus_view.specs.ItemsLeft.{IsOverAll};

    ghost into_iter_gives = { λ vector items. IsOverAll vector items };

    #[inline]
    fn into_iter(self) -> Items<VectorOf<V>> {
        self.iter()
    }
}

impl<'a, V: ReadView> IntoIterator for &'a VectorOf<V> {
    type Item = V::Item;

    type IntoIter = Items<VectorOf<V>>;

    ghost use Rattle.planus_view.specs.ItemsLeft.{IsOverAll};

    ghost into_iter_gives = { λ vector items. IsOverAll vector.now items };

    #[inline]
    fn into_iter(self) -> Items<VectorOf<V>> {
        self.iter()
    }
}

impl<V: ReadView> fmt::Debug for VectorOf<V>
where
    V::Item: fmt::Debug + Drop,
{
    fn fmt<W: fmt::Write>(&self, f: &mut fmt::Formatter<W>) -> fmt::Result {
        f.debug_list().entries(self.iter()).finish()
    }
}
