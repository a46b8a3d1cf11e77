//! Values of which equal ones are the same.

ghost use Rattle.std.specs.Prelude.{◌≡◌, true};

use planus_read::Plain;

/// A value of a fixed layout of which equal ones are the same, and so have the same bytes. Floats,
/// and structs with floats, have equal values that aren't: 0.0 equals -0.0.
pub trait Exact: Plain + PartialEq {
    /// A theorem: equal values are the same.
    fn equal_is_same(a: Self, b: Self)
        ensures { Self.eq a b ≡ true → a ≡ b };
}

impl Exact for u8 {
    fn equal_is_same(a: u8, b: u8) {}
}

impl Exact for u16 {
    fn equal_is_same(a: u16, b: u16) {}
}

impl Exact for u32 {
    fn equal_is_same(a: u32, b: u32) {}
}

impl Exact for u64 {
    fn equal_is_same(a: u64, b: u64) {}
}

impl Exact for i8 {
    fn equal_is_same(a: i8, b: i8) {}
}

impl Exact for i16 {
    fn equal_is_same(a: i16, b: i16) {}
}

impl Exact for i32 {
    fn equal_is_same(a: i32, b: i32) {}
}

impl Exact for i64 {
    fn equal_is_same(a: i64, b: i64) {}
}

impl Exact for bool {
    fn equal_is_same(a: bool, b: bool) {}
}
