//! Keys that are looked up.

ghost use Rattle.std.specs.Prelude.{◌≡◌};
ghost use Rattle.std.specs.declared.cmp.Ordering.{Ordering};

use std::cmp::Ordering;

/// A key that is looked up among keys of type `K`.
pub trait Probe<K> {
    ghost order: { Self → K → Ordering };

    /// Returns how the key of an item compares with this one: `Less` where it is less.
    fn compare(&self, key: &K) -> Ordering
        ensures { result ≡ order self.now key.now };
}

impl<K: Ord> Probe<K> for K {
    ghost order = { λ probe key. K.cmp key probe };

    fn compare(&self, key: &K) -> Ordering {
        key.cmp(self)
    }
}
