//! Iterators over items.

ghost use Rattle.std.specs.Prelude.{◌≡◌, ◌+◌, ◌-◌, ◌<◌, ◌≤◌, min, Some, IfSome, ⊤};
ghost use Rattle.std.specs.Iterator.{at_most, UpTo};
ghost use Rattle.std.specs.Iterator.SizeHint.{IsWithinCount};

use crate::view::{ReadView, View};
use std::alloc::AllocError;
use std::iter::FusedIterator;

/// An iterator over items, which are read when they are asked for. An error has the start of what
/// is left.
#[derive(Debug, Drop)]
pub struct Items<V: View> {
    whole: V,
    front: usize,
    back: usize,
    ghost order: { front ≤ back },
    ghost inside: { back ≤ V.count whole },
}

impl<V: View> Items<V> {
    ghost use Rattle.planus_view.specs.ItemsLeft.{front_of, back_of, count_left, IsLeft};
    ghost use Rattle.planus_view.specs.ItemsLeft.{IsOverAll};

    /// Creates an iterator over all items.
    #[inline]
    pub fn new(whole: V) -> Self
        ensures { IsOverAll whole result }
    {
        let back = whole.len();
        Items {
            whole,
            front: 0,
            back,
        }
    }

    #[inline]
    fn skip_front(&mut self, skipped: usize)
        ensures { IsLeft self.old (front_of self.old + min skipped (count_left self.old))
            (back_of self.old) self.new }
    {
        self.front += skipped.min(self.back - self.front);
    }

    #[inline]
    fn skip_back(&mut self, skipped: usize)
        ensures { IsLeft self.old (front_of self.old)
            (back_of self.old - min skipped (count_left self.old)) self.new }
    {
        self.back -= skipped.min(self.back - self.front);
    }
}

impl<V: ReadView> Iterator for Items<V> {
    type Item = V::Item;

    ghost use Rattle.planus_view.specs.ItemsLeft.{count_left, ReadsFirst};

    ghost next_gives = { λ s r t. ReadsFirst V.is_item s r t };

    ghost remaining = { λ s. at_most (count_left s) };

    #[inline]
    fn next(&mut self) -> Option<V::Item> {
        if self.front == self.back {
            return None;
        }
        let left = self.whole.sub_view(self.front, self.back);
        self.front += 1;
        Some(left.item(0))
    }

    #[inline]
    fn size_hint(&self) -> (usize, Option<usize>)
        ensures lower { IsWithinCount result.0 (at_most (count_left self.now)) }
        ensures upper { IfSome result.1 (UpTo (at_most (count_left self.now))) }
        ensures exact { (result.0 ≡ count_left self.now)
            × (result.1 ≡ Some (count_left self.now)) }
    {
        let len = self.len();
        (len, Some(len))
    }
}

impl<V: ReadView> DoubleEndedIterator for Items<V> {
    ghost use Rattle.planus_view.specs.ItemsLeft.{ReadsLast};

    ghost next_back_gives = { λ s r t. ReadsLast V.is_item s r t };

    #[inline]
    fn next_back(&mut self) -> Option<V::Item> {
        if self.front == self.back {
            return None;
        }
        let left = self.whole.sub_view(self.front, self.back);
        self.back -= 1;
        Some(left.item(self.back - self.front))
    }
}

impl<V: ReadView> ExactSizeIterator for Items<V> {
    #[inline]
    fn len(&self) -> usize {
        self.back - self.front
    }
}

impl<V: ReadView> FusedIterator for Items<V> {}

impl<V: View> Clone for Items<V> {
    ghost use Rattle.planus_view.specs.ItemsLeft.{front_of, back_of, IsLeft};

    ghost is_clone = { λ s t. IsLeft s (front_of s) (back_of s) t };

    ghost is_infallible = { λ _. ⊤ };

    #[inline]
    fn clone(&self) -> Result<Self, AllocError> {
        Ok(Items {
            whole: self.whole,
            front: self.front,
            back: self.back,
        })
    }
}

impl<V: ReadView> Items<V> {
    ghost use Rattle.planus_view.specs.declared.items.Items.{Items};
    ghost use Rattle.planus_view.specs.ItemsLeft.{front_of, back_of, count_left, IsLeft};
    ghost use Rattle.planus_view.specs.ItemsLeft.{ReadsFirst, ReadsLast};

    /// Skips up to `skipped` items and returns the next one.
    #[inline]
    pub fn nth(&mut self, skipped: usize) -> Option<V::Item>
        ensures { (mid : Items V V.View) × IsLeft self.old
            (front_of self.old + min skipped (count_left self.old)) (back_of self.old) mid
            × ReadsFirst V.is_item mid result self.new }
    {
        self.skip_front(skipped);
        self.next()
    }

    /// Skips up to `skipped` items at the back and returns the one before.
    #[inline]
    pub fn nth_back(&mut self, skipped: usize) -> Option<V::Item>
        ensures { (mid : Items V V.View) × IsLeft self.old (front_of self.old)
            (back_of self.old - min skipped (count_left self.old)) mid
            × ReadsLast V.is_item mid result self.new }
    {
        self.skip_back(skipped);
        self.next_back()
    }

    /// Returns the last item that is left.
    #[inline]
    pub fn last(mut self) -> Option<V::Item>
        ensures { (after : Items V V.View) × ReadsLast V.is_item self result after }
    {
        self.next_back()
    }

    /// Returns the number of items left.
    #[inline]
    pub fn count(self) -> usize
        ensures { result ≡ count_left self }
    {
        self.len()
    }
}
