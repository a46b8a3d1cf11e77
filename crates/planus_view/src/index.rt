//! Indexes of views.

ghost use Rattle.std.specs.Prelude.{◌≡◌, ℕ, ◌<◌, ◌≤◌, Option};
ghost use Rattle.std.specs.declared.ops.Bound.{Bound};
ghost use Rattle.std.specs.declared.ops.Bound.TheVariants.{Included, Excluded, Unbounded};
ghost use Rattle.planus_view.specs.Indexes.{GetsSubView, GetsItem, start_of, end_of};

use crate::view::{ReadView, View};
use std::ops::{Bound, Range, RangeFrom, RangeFull, RangeInclusive, RangeTo, RangeToInclusive};

/// Seals [`ViewIndex`], since no other crate can name it.
pub trait Sealed {}

impl Sealed for usize {}

impl<R: PositionRange> Sealed for R {}

/// A position, a range of positions, or two bounds of one.
pub trait ViewIndex<V: View>: Sealed {
    /// The item or the sub-view.
    type Output;

    ghost gets: { V → Self → Option Self.Output → Type 0 };

    ghost fits: { V → Self → Type 0 };

    ghost is_there: { V → Self → Self.Output → Type 0 };

    /// Returns the item or sub-view, or `None` out of bounds.
    fn get(self, view: &V) -> Option<Self::Output>
        ensures { gets view.now self result };

    /// Returns the item or sub-view, which must be in bounds.
    fn get_unchecked(self, view: &V) -> Self::Output
        requires { fits view.now self }
        ensures { is_there view.now self result };
}

impl<V: ReadView> ViewIndex<V> for usize {
    type Output = V::Item;

    ghost gets = { λ v i r. GetsItem V.count V.is_item v i r };

    ghost fits = { λ v i. i < V.count v };

    ghost is_there = { λ v i x. V.is_item v i x };

    #[inline]
    fn get(self, view: &V) -> Option<V::Item> {
        if self >= view.len() {
            return None;
        }
        Some(view.item(self))
    }

    #[inline]
    fn get_unchecked(self, view: &V) -> V::Item {
        view.item(self)
    }
}

pub trait PositionRange {
    ghost bounds: { Self → Bound ℕ × Bound ℕ };

    fn bounds(self) -> (Bound<usize>, Bound<usize>)
        ensures { result ≡ bounds self };
}

impl PositionRange for Range<usize> {
    ghost bounds = { λ range. (Included range.start, Excluded range.end) };

    #[inline]
    fn bounds(self) -> (Bound<usize>, Bound<usize>) {
        (Bound::Included(self.start), Bound::Excluded(self.end))
    }
}

impl PositionRange for RangeFull {
    ghost bounds = { λ range. (Unbounded, Unbounded) };

    #[inline]
    fn bounds(self) -> (Bound<usize>, Bound<usize>) {
        (Bound::Unbounded, Bound::Unbounded)
    }
}

impl PositionRange for RangeFrom<usize> {
    ghost bounds = { λ range. (Included range.start, Unbounded) };

    #[inline]
    fn bounds(self) -> (Bound<usize>, Bound<usize>) {
        (Bound::Included(self.start), Bound::Unbounded)
    }
}

impl PositionRange for RangeTo<usize> {
    ghost bounds = { λ range. (Unbounded, Excluded range.end) };

    #[inline]
    fn bounds(self) -> (Bound<usize>, Bound<usize>) {
        (Bound::Unbounded, Bound::Excluded(self.end))
    }
}

impl PositionRange for RangeInclusive<usize> {
    ghost bounds = { λ range. (Included range.start, Included range.end) };

    #[inline]
    fn bounds(self) -> (Bound<usize>, Bound<usize>) {
        (Bound::Included(*self.start()), Bound::Included(*self.end()))
    }
}

impl PositionRange for RangeToInclusive<usize> {
    ghost bounds = { λ range. (Unbounded, Included range.end) };

    #[inline]
    fn bounds(self) -> (Bound<usize>, Bound<usize>) {
        (Bound::Unbounded, Bound::Included(self.end))
    }
}

impl PositionRange for (Bound<usize>, Bound<usize>) {
    ghost bounds = { λ range. range };

    #[inline]
    fn bounds(self) -> (Bound<usize>, Bound<usize>) {
        self
    }
}

impl<V: View, R: PositionRange> ViewIndex<V> for R {
    type Output = V;

    ghost gets = { λ v i r. GetsSubView V.count V.is_sub_view v
        (start_of (R.bounds i).0) (end_of (V.count v) (R.bounds i).1) r };

    ghost fits = { λ v i. (start_of (R.bounds i).0 ≤ end_of (V.count v) (R.bounds i).1)
        × (end_of (V.count v) (R.bounds i).1 ≤ V.count v) };

    ghost is_there = { λ v i u. V.is_sub_view v
        (start_of (R.bounds i).0) (end_of (V.count v) (R.bounds i).1) u };

    #[inline]
    fn get(self, view: &V) -> Option<V> {
        let count = view.len();
        let (start, end) = self.bounds();
        let lo = match start {
            Bound::Included(n) => n,
            Bound::Excluded(n) => n.checked_add(1)?,
            Bound::Unbounded => 0,
        };
        let hi = match end {
            Bound::Included(n) => n.checked_add(1)?,
            Bound::Excluded(n) => n,
            Bound::Unbounded => count,
        };
        if lo > hi || hi > count {
            return None;
        }
        Some(view.sub_view(lo, hi))
    }

    #[inline]
    fn get_unchecked(self, view: &V) -> V {
        let count = view.len();
        let (start, end) = self.bounds();
        let lo = match start {
            Bound::Included(n) => n,
            Bound::Excluded(n) => n + 1,
            Bound::Unbounded => 0,
        };
        let hi = match end {
            Bound::Included(n) => n + 1,
            Bound::Excluded(n) => n,
            Bound::Unbounded => count,
        };
        view.sub_view(lo, hi)
    }
}
