//! Iterators over verified vectors.

ghost use Rattle.std.specs.Prelude.{◌≡◌, ℕ, ◌-◌, ◌<◌, ◌≤◌, Some, IfSome, ⊤};
ghost use Rattle.std.specs.Iterator.{at_most, UpTo};
ghost use Rattle.std.specs.Iterator.SizeHint.{IsWithinCount};

use std::alloc::AllocError;
use std::iter::FusedIterator;

/// A vector whose items are all verified.
pub trait VerifiedVector: Copy {
    ghost count: { Self → ℕ };

    /// Returns the number of items.
    fn len(&self) -> usize
        ensures { result ≡ count self.now };
}

/// A verified vector whose items are read without an error.
pub trait ReadVerified: VerifiedVector {
    /// What an item is read as.
    type Item;

    ghost is_item: { Self → ℕ → Self.Item → Type 0 };

    /// Returns the item at an index in bounds.
    fn item(&self, index: usize) -> Self::Item
        requires { index < Self.count self.now }
        ensures { is_item self.now index result };
}

/// An iterator over the items of a verified vector, which are read when they are asked for.
#[derive(Drop)]
pub struct VerifiedItems<V: VerifiedVector> {
    whole: V,
    front: usize,
    back: usize,
    ghost order: { front ≤ back },
    ghost inside: { back ≤ V.count whole },
}

impl<V: VerifiedVector> VerifiedItems<V> {
    ghost use Rattle.planus_views.specs.Items.{IsOverAll};

    /// Creates an iterator over all items.
    #[inline(always)]
    pub fn new(whole: V) -> Self
        ensures { IsOverAll whole result }
    {
        let back = whole.len();
        VerifiedItems {
            whole,
            front: 0,
            back,
        }
    }
}

impl<V: ReadVerified> Iterator for VerifiedItems<V> {
    type Item = V::Item;

    ghost use Rattle.planus_views.specs.Items.{count_left, TakesFirst};

    ghost next_gives = { λ s r t. TakesFirst V.is_item s r t };

    ghost remaining = { λ s. at_most (count_left s) };

    #[inline(always)]
    fn next(&mut self) -> Option<V::Item> {
        if self.front == self.back {
            return None;
        }
        let item = self.whole.item(self.front);
        self.front += 1;
        Some(item)
    }

    #[inline(always)]
    fn size_hint(&self) -> (usize, Option<usize>)
        ensures lower { IsWithinCount result.0 (at_most (count_left self.now)) }
        ensures upper { IfSome result.1 (UpTo (at_most (count_left self.now))) }
        ensures exact { (result.0 ≡ count_left self.now)
            × (result.1 ≡ Some (count_left self.now)) }
    {
        let len = self.len();
        (len, Some(len))
    }
}

impl<V: ReadVerified> DoubleEndedIterator for VerifiedItems<V> {
    ghost use Rattle.planus_views.specs.Items.{TakesLast};

    ghost next_back_gives = { λ s r t. TakesLast V.is_item s r t };

    #[inline(always)]
    fn next_back(&mut self) -> Option<V::Item> {
        if self.front == self.back {
            return None;
        }
        self.back -= 1;
        Some(self.whole.item(self.back))
    }
}

impl<V: ReadVerified> ExactSizeIterator for VerifiedItems<V> {
    #[inline(always)]
    fn len(&self) -> usize {
        self.back - self.front
    }
}

impl<V: ReadVerified> FusedIterator for VerifiedItems<V> {}

impl<V: VerifiedVector> Clone for VerifiedItems<V> {
    ghost use Rattle.planus_views.specs.Items.{front_of, back_of, IsLeft};

    ghost is_clone = { λ s t. IsLeft s (front_of s) (back_of s) t };

    ghost is_infallible = { λ _. ⊤ };

    #[inline]
    fn clone(&self) -> Result<Self, AllocError> {
        Ok(VerifiedItems {
            whole: self.whole,
            front: self.front,
            back: self.back,
        })
    }
}
