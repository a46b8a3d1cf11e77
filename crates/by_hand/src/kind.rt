//! The kind of a site, of the schema `enum Kind : uint8 { Car = 0, Bike = 1, Ship = 2 }`.
ghost use Rattle.by_hand.specs.Kinds.{kind_shape};

use planus::errors::ErrorKind;
use planus::{Plain, PlainField, SliceWithStartOffset, Stride, read_variant};

/// What a site is.
#[derive(Clone, Copy, Debug, PartialEq)]
pub enum Kind {
    Car = 0,
    Bike = 1,
    Ship = 2,
}

impl Plain for Kind {
    ghost ALIGNMENT = { 1 };

    ghost SIZE = { 1 };

    ghost shape = { kind_shape };

    const ALIGNMENT: usize = 1;

    const SIZE: usize = 1;

    fn put(&self, bytes: &mut [u8]) {
        (*self as u8).put(bytes);
    }

    fn read(buffer: SliceWithStartOffset<'_>, offset: usize) -> Result<Kind, ErrorKind> {
        read_variant!(u8, buffer, offset; Kind::Car, Kind::Bike, Kind::Ship)
    }
}

impl Stride for Kind {
    type Stands = Kind;
}

impl PlainField for Kind {}
