//! The places of a struct's fields.

ghost use Rattle.std.specs.Prelude.{◌≡◌, ◌≤◌, ◌<◌, true, max};
ghost use Rattle.planus_schema.specs.Layouts as spec;

use crate::schema::{Struct, StructField};

/// Returns the least multiple of an alignment from `at` on.
pub fn next_multiple(at: usize, alignment: usize) -> usize
    requires from { at ≤ 65535 }
    requires some { 0 < alignment }
    requires small { alignment ≤ 32 }
    ensures next { spec.IsNext alignment at result }
    ensures is { result ≡ spec.next_multiple alignment at }
{
    let over = at % alignment;
    if over == 0 {
        at
    } else {
        at + (alignment - over)
    }
}

/// Returns the greater of two numbers.
pub fn greater(a: usize, b: usize) -> usize
    ensures { result ≡ max a b }
{
    a.max(b)
}

/// Returns whether this is a power of two up to 32.
pub fn is_alignment(n: usize) -> bool
    ensures { result ≡ spec.is_alignment n }
{
    n == 1 || n == 2 || n == 4 || n == 8 || n == 16 || n == 32
}

/// Fields of a struct, their end, and their greatest alignment.
#[derive(Drop)]
pub struct Layout {
    pub fields: Vec<StructField>,
    pub end: usize,
    pub alignment: usize,
}

impl Layout {
    /// Returns the struct, padded to this alignment.
    pub fn finished(self, alignment: usize) -> Struct
        requires end { self.end ≤ 65535 }
        requires aligned { spec.is_alignment alignment ≡ true }
        ensures fields { result.fields.items ≡ self.fields.items }
        ensures alignment { result.alignment ≡ alignment }
        ensures size { spec.IsNext alignment self.end result.size }
        ensures is { result.size ≡ spec.next_multiple alignment self.end }
    {
        Struct {
            size: next_multiple(self.end, alignment),
            fields: self.fields,
            alignment,
        }
    }
}
