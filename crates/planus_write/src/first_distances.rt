//! The distances of the first contents of a kind.
ghost use Rattle.std.specs.Prelude.{◌≡◌, ◌≤◌, ◌++◌, ℕ, List, [], ◌∷◌, true, false, take};

use std::marker::Model;

/// Up to this many contents, comparing each is faster than hashing.
const GREATEST_COUNT: usize = 16;

#[derive(Drop)]
pub(crate) struct FirstDistances {
    distances: [u32; 16],
    count: usize,
}

impl Model for FirstDistances {
    ghost Value = { List ℕ };

    ghost view = { λ a. take a.count a.distances };

    ghost invariant = { λ a. a.count ≤ 16 };
}

impl FirstDistances {
    pub(crate) fn new() -> FirstDistances
        ensures { result ≡ [] }
    {
        FirstDistances {
            distances: [0; 16],
            count: 0,
        }
    }

    #[inline]
    pub(crate) fn as_slice(&self) -> &[u32]
        ensures { result.now ≡ self.now }
    {
        &self.distances[..self.count]
    }

    #[inline]
    pub(crate) fn push(&mut self, distance: u32) -> bool
        ensures pushed { result ≡ true → self.new ≡ self.old ++ distance ∷ [] }
        ensures full { result ≡ false → self.new ≡ self.old }
    {
        if self.count == GREATEST_COUNT {
            return false;
        }
        self.distances[self.count] = distance;
        self.count += 1;
        true
    }

    #[inline]
    pub(crate) fn clear(&mut self)
        ensures { self.new ≡ [] }
    {
        self.count = 0;
    }
}
