//! Strings that are looked up.

ghost use Rattle.std.specs.Cmp.Lexicographic.{slice_cmp};
ghost use Rattle.std.specs.Ordering.{nat_cmp};

use crate::probe::Probe;
use std::cmp::Ordering;

/// A string that is looked up among strings that live longer or shorter. They compare by their bytes,
/// and where one is the beginning of the other, the shorter is less.
#[derive(Clone, Copy)]
pub struct TextKey<'k>(pub &'k str);

impl<'k, 'a> Probe<&'a str> for TextKey<'k> {
    ghost order = { λ probe key. slice_cmp nat_cmp key.now probe.0.now };

    fn compare(&self, key: &&'a str) -> Ordering {
        str::cmp(*key, self.0)
    }
}
