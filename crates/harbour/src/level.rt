//! Enum `Level`.

ghost use Rattle.std.specs.Prelude.{◌≡◌};
ghost use Rattle.harbour.specs.Level.{level_is};
ghost use Rattle.harbour.specs.Level.{level_shape};

use planus::errors::ErrorKind;
use planus::{Exact, Plain, PlainField, SliceWithStartOffset, Stride, read_variant};

/// One of some values.
#[derive(Clone, Copy, Debug, PartialEq)]
pub enum Level {
    Low = -300,
    Mid = 0,
    High = 300,
}

impl Level {
    /// Returns its number.
    pub fn number(self) -> i16
        ensures { result ≡ (level_is self).number }
    {
        match self {
            Level::Low => -300,
            Level::Mid => 0,
            Level::High => 300,
        }
    }
}

impl Plain for Level {
    ghost ALIGNMENT = { 2 };

    ghost SIZE = { 2 };

    ghost shape = { level_shape };

    const ALIGNMENT: usize = 2;

    const SIZE: usize = 2;

    fn put(&self, bytes: &mut [u8]) {
        self.number().put(bytes);
    }

    fn read(buffer: SliceWithStartOffset<'_>, offset: usize) -> Result<Level, ErrorKind> {
        read_variant!(i16, buffer, offset; Level::Low, Level::Mid, Level::High)
    }
}

impl Stride for Level {
    type Stands = Level;
}

impl PlainField for Level {}

impl Exact for Level {
    fn equal_is_same(this: Level, other: Level) {}
}
