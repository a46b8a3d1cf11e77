//! Enum `Kind`.

ghost use Rattle.std.specs.Prelude.{◌≡◌};
ghost use Rattle.owned_ships.specs.Kind.{kind_is};
ghost use Rattle.owned_ships.specs.Kind.{kind_shape};

use planus::errors::ErrorKind;
use planus::{Plain, PlainField, SliceWithStartOffset, Stride, read_variant};

/// What a ship is.
#[derive(Clone, Copy, Debug, PartialEq)]
pub enum Kind {
    Car = 0,
    Bike = 1,
    /// It floats.
    Ship = 2,
}

impl Kind {
    /// Returns its number.
    pub fn number(self) -> u8
        ensures { result ≡ (kind_is self).number }
    {
        match self {
            Kind::Car => 0,
            Kind::Bike => 1,
            Kind::Ship => 2,
        }
    }
}

impl Plain for Kind {
    ghost ALIGNMENT = { 1 };

    ghost SIZE = { 1 };

    ghost shape = { kind_shape };

    const ALIGNMENT: usize = 1;

    const SIZE: usize = 1;

    fn put(&self, bytes: &mut [u8]) {
        self.number().put(bytes);
    }

    fn read(buffer: SliceWithStartOffset<'_>, offset: usize) -> Result<Kind, ErrorKind> {
        read_variant!(u8, buffer, offset; Kind::Car, Kind::Bike, Kind::Ship)
    }
}

impl Stride for Kind {
    type Stands = Kind;
}

impl PlainField for Kind {}
