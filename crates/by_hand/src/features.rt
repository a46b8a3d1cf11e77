//! The features of a site, of the schema `enum Features : uint8 (bit_flags) { Water, Power, Road
//! }`.
ghost use Rattle.std.specs.Prelude.{◌≡◌, ◌==◌, bit_and, bit_or};
ghost use Rattle.by_hand.specs.Structs.{features_shape};

use planus::errors::ErrorKind;
use planus::{Plain, PlainField, SliceWithStartOffset, put_fields, read_fields};

/// A set of features. Unnamed bits are kept.
#[derive(Clone, Copy, Debug, PartialEq)]
pub struct Features {
    pub bits: u8,
}

impl Features {
    pub const NOTHING: Features = Features { bits: 0 };

    pub const WATER: Features = Features { bits: 1 };

    pub const POWER: Features = Features { bits: 2 };

    pub const ROAD: Features = Features { bits: 4 };

    /// Returns whether the set has all of these.
    pub fn has(&self, others: Features) -> bool
        ensures { result ≡ (bit_and self.now.bits others.bits == others.bits) }
    {
        self.bits & others.bits == others.bits
    }

    /// Returns these and the others.
    pub fn with(&self, others: Features) -> Features
        ensures { result.bits ≡ bit_or self.now.bits others.bits }
    {
        Features {
            bits: self.bits | others.bits,
        }
    }
}

impl Plain for Features {
    ghost ALIGNMENT = { 1 };

    ghost SIZE = { 1 };

    ghost shape = { features_shape };

    const ALIGNMENT: usize = 1;

    const SIZE: usize = 1;

    fn put(&self, bytes: &mut [u8]) {
        put_fields!(self, bytes; bits: 1);
    }

    fn read(buffer: SliceWithStartOffset<'_>, offset: usize) -> Result<Features, ErrorKind> {
        read_fields!(Features, buffer, offset; bits)
    }
}

impl PlainField for Features {}
