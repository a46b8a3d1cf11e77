//! Iterators over sub-views.

ghost use Rattle.std.specs.Prelude.{◌≡◌, ℕ, ◌+◌, ◌-◌, ◌<◌, ◌≤◌, length, slice_get, Some, IfSome};
ghost use Rattle.std.specs.Prelude.{⊤};
ghost use Rattle.std.specs.Iterator.{at_most, UpTo};
ghost use Rattle.std.specs.Iterator.SizeHint.{IsWithinCount};

use crate::cuts::{ByChunksExact, ByRChunksExact, Cut};
use crate::view::View;
use std::alloc::AllocError;
use std::iter::FusedIterator;
use std::marker::PhantomData;

/// An iterator over the sub-views of a view.
#[derive(Debug, Drop)]
pub struct SubViews<V: View, C: Cut> {
    whole: V,
    size: usize,
    front: usize,
    back: usize,
    // How many positions the ranges before `front` leave.
    rest: usize,
    _marker: PhantomData<C>,
    ghost positive: { 0 < size },
    ghost order: { front ≤ back },
    ghost inside: { back ≤ length (C.ranges (V.count whole) size) },
    ghost behind: { rest ≡ C.rest (V.count whole) size front },
}

impl<V: View, C: Cut> SubViews<V, C> {
    ghost use Rattle.planus_view.specs.RangesLeft.{whole_of, size_of, ranges_of, IsOverRanges};

    /// Creates an iterator over all sub-views.
    #[inline]
    #[tactic(auto, using(crate::proofs::LeftOf::all_left))]
    pub fn new(whole: V, size: usize) -> Self
        requires { 0 < size }
        ensures { IsOverRanges whole size (C.ranges (V.count whole) size) result }
    {
        let back = C::count(whole.len(), size);
        SubViews {
            whole,
            size,
            front: 0,
            back,
            rest: C::rest_behind(whole.len(), size, 0),
            _marker: PhantomData,
        }
    }

    #[inline]
    fn at_range(&self, i: usize, left: usize) -> V
        requires inside { i < length (ranges_of self.now) }
        requires left { left ≡ C.rest (V.count (whole_of self.now)) (size_of self.now) i }
        ensures { (range : ℕ × ℕ) × (slice_get (ranges_of self.now) i ≡ Some range)
            × V.is_sub_view (whole_of self.now) range.0 range.1 result }
    {
        let (begin, end) = C::range(self.whole.len(), self.size, i, left);
        self.whole.sub_view(begin, end)
    }
}

impl<V: View, C: Cut> Iterator for SubViews<V, C> {
    type Item = V;

    ghost use Rattle.planus_view.specs.RangesLeft.{left_of, TakesFirst};

    ghost next_gives = { λ s r t. TakesFirst s r t };

    ghost remaining = { λ s. at_most (length (left_of s)) };

    #[inline]
    fn next(&mut self) -> Option<V> {
        if self.front == self.back {
            return None;
        }
        let sub_view = self.at_range(self.front, self.rest);
        self.rest = C::rest_after(self.whole.len(), self.size, self.front, self.rest);
        self.front += 1;
        Some(sub_view)
    }

    #[inline]
    fn size_hint(&self) -> (usize, Option<usize>)
        ensures lower { IsWithinCount result.0 (at_most (length (left_of self.now))) }
        ensures upper { IfSome result.1 (UpTo (at_most (length (left_of self.now)))) }
        ensures exact { (result.0 ≡ length (left_of self.now))
            × (result.1 ≡ Some (length (left_of self.now))) }
    {
        let len = self.len();
        (len, Some(len))
    }
}

impl<V: View, C: Cut> DoubleEndedIterator for SubViews<V, C> {
    ghost use Rattle.planus_view.specs.RangesLeft.{TakesLast};

    ghost next_back_gives = { λ s r t. TakesLast s r t };

    #[inline]
    fn next_back(&mut self) -> Option<V> {
        if self.front == self.back {
            return None;
        }
        self.back -= 1;
        let left = C::rest_behind(self.whole.len(), self.size, self.back);
        Some(self.at_range(self.back, left))
    }
}

impl<V: View, C: Cut> ExactSizeIterator for SubViews<V, C> {
    #[inline]
    #[tactic(auto, using(crate::proofs::LeftOf::left_length))]
    fn len(&self) -> usize {
        self.back - self.front
    }
}

impl<V: View, C: Cut> FusedIterator for SubViews<V, C> {}

impl<V: View, C: Cut> Clone for SubViews<V, C> {
    ghost use Rattle.planus_view.specs.RangesLeft.{IsCopy};

    ghost is_clone = { λ s t. IsCopy s t };

    ghost is_infallible = { λ _. ⊤ };

    #[inline]
    fn clone(&self) -> Result<Self, AllocError> {
        Ok(SubViews {
            whole: self.whole,
            size: self.size,
            front: self.front,
            back: self.back,
            rest: self.rest,
            _marker: self._marker,
        })
    }
}

impl<V: View, C: Cut> SubViews<V, C> {
    ghost use Rattle.planus_view.specs.RangesLeft.{left_of, TakesFirst, TakesLast};
    ghost use Rattle.planus_view.specs.RangesLeft.{SkipsFront, SkipsBack};
    ghost use Rattle.planus_view.specs.declared.sub_views.SubViews.{SubViews};

    #[inline]
    #[tactic(auto, using(crate::proofs::LeftOf::front_skipped))]
    fn skip_front(&mut self, skipped: usize)
        ensures { SkipsFront skipped self.old self.new }
    {
        self.front += skipped.min(self.back - self.front);
        self.rest = C::rest_behind(self.whole.len(), self.size, self.front);
    }

    #[inline]
    #[tactic(auto, using(crate::proofs::LeftOf::back_skipped))]
    fn skip_back(&mut self, skipped: usize)
        ensures { SkipsBack skipped self.old self.new }
    {
        self.back -= skipped.min(self.back - self.front);
    }

    /// Skips up to `skipped` sub-views and returns the next one.
    #[inline]
    pub fn nth(&mut self, skipped: usize) -> Option<V>
        ensures { (mid : SubViews V C V.View C.Cut) × SkipsFront skipped self.old mid
            × TakesFirst mid result self.new }
    {
        self.skip_front(skipped);
        self.next()
    }

    /// Skips up to `skipped` sub-views at the back and returns the one before.
    #[inline]
    pub fn nth_back(&mut self, skipped: usize) -> Option<V>
        ensures { (mid : SubViews V C V.View C.Cut) × SkipsBack skipped self.old mid
            × TakesLast mid result self.new }
    {
        self.skip_back(skipped);
        self.next_back()
    }

    /// Returns the last sub-view that is left.
    #[inline]
    pub fn last(mut self) -> Option<V>
        ensures { (after : SubViews V C V.View C.Cut) × TakesLast self result after }
    {
        self.next_back()
    }

    /// Returns the number of sub-views left.
    #[inline]
    pub fn count(self) -> usize
        ensures { result ≡ length (left_of self) }
    {
        self.len()
    }
}

impl<V: View> SubViews<V, ByChunksExact> {
    ghost use Rattle.planus_view.specs.RangesLeft.{whole_of, size_of};
    ghost use Rattle.planus_view.specs.Ranges.{remainder};

    /// Returns what remains after all exact chunks, whatever was taken of them.
    #[must_use]
    pub fn remainder(&self) -> V
        ensures { let whole = whole_of self.now in let n = V.count whole in
            V.is_sub_view whole (n - remainder n (size_of self.now)) n result }
    {
        let len = self.whole.len();
        self.whole.sub_view(len - len % self.size, len)
    }
}

impl<V: View> SubViews<V, ByRChunksExact> {
    ghost use Rattle.planus_view.specs.RangesLeft.{whole_of, size_of};
    ghost use Rattle.planus_view.specs.Ranges.{remainder};

    /// Returns what remains before all exact chunks, whatever was taken of them.
    #[must_use]
    pub fn remainder(&self) -> V
        ensures { let whole = whole_of self.now in
            V.is_sub_view whole 0 (remainder (V.count whole) (size_of self.now)) result }
    {
        self.whole.sub_view(0, self.whole.len() % self.size)
    }
}
