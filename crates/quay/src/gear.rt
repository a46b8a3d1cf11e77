//! Enum `Gear`.

ghost use Rattle.std.specs.Prelude.{◌≡◌};
ghost use Rattle.quay.specs.Gear.{gear_is};
ghost use Rattle.quay.specs.Gear.{gear_shape};

use planus::errors::ErrorKind;
use planus::{Exact, Plain, PlainField, SliceWithStartOffset, Stride, read_variant};

/// One of some values.
#[derive(Clone, Copy, Debug, PartialEq, Eq, PartialOrd, Ord)]
pub enum Gear {
    Hook = 0,
    Grab = 1,
    Magnet = 2,
    other_ = 100,
}

impl Gear {
    /// Returns its number.
    pub fn number(self) -> i8
        ensures { result ≡ (gear_is self).number }
    {
        match self {
            Gear::Hook => 0,
            Gear::Grab => 1,
            Gear::Magnet => 2,
            Gear::other_ => 100,
        }
    }
}

impl Plain for Gear {
    ghost ALIGNMENT = { 1 };

    ghost SIZE = { 1 };

    ghost shape = { gear_shape };

    const ALIGNMENT: usize = 1;

    const SIZE: usize = 1;

    fn put(&self, bytes: &mut [u8]) {
        self.number().put(bytes);
    }

    fn read(buffer: SliceWithStartOffset<'_>, offset: usize) -> Result<Gear, ErrorKind> {
        read_variant!(i8, buffer, offset; Gear::Hook, Gear::Grab, Gear::Magnet, Gear::other_)
    }
}

impl Stride for Gear {
    type Stands = Gear;
}

impl PlainField for Gear {}

impl Exact for Gear {
    fn equal_is_same(this: Gear, other: Gear) {}
}
