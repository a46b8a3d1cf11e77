//! Flags `Needs`.

ghost use Rattle.std.specs.Prelude.{◌≡◌, ◌==◌, ◌∷◌, [], bit_and, bit_or};
ghost use Rattle.harbour.specs.Needs.{needs_shape};

use planus::errors::ErrorKind;
use planus::{
    Exact, Plain, PlainField, PlainTotal, SliceWithStartOffset, Stride, put_fields, read_fields,
};

/// What a ship needs in a harbour.
/// Bits without a name are kept.
#[derive(Clone, Copy, PartialEq)]
pub struct Needs {
    /// The bits.
    pub bits: u16,
}

impl Needs {
    /// None of them.
    pub const NOTHING: Needs = Needs { bits: 0 };
    /// `Water`.
    pub const WATER: Needs = Needs { bits: 1 };
    /// `Power`.
    pub const POWER: Needs = Needs { bits: 2 };

    /// Returns whether all of these are in the set.
    pub fn has(&self, others: Needs) -> bool
        ensures { result ≡ (bit_and self.now.bits others.bits == others.bits) }
    {
        self.bits & others.bits == others.bits
    }

    /// Returns these and the others.
    pub fn with(&self, others: Needs) -> Needs
        ensures { result.bits ≡ bit_or self.now.bits others.bits }
    {
        Needs {
            bits: self.bits | others.bits,
        }
    }

    /// Returns each of them.
    pub fn each() -> [Needs; 2]
        ensures { result ≡ record { bits = 1 } ∷ record { bits = 2 } ∷ [] }
    {
        [Needs::WATER, Needs::POWER]
    }
}

impl Plain for Needs {
    ghost ALIGNMENT = { 2 };

    ghost SIZE = { 2 };

    ghost shape = { needs_shape };

    const ALIGNMENT: usize = 2;

    const SIZE: usize = 2;

    fn put(&self, bytes: &mut [u8]) {
        put_fields!(self, bytes; bits: 2);
    }

    fn read(buffer: SliceWithStartOffset<'_>, offset: usize) -> Result<Needs, ErrorKind> {
        read_fields!(Needs, buffer, offset; bits)
    }
}

impl Stride for Needs {
    type Stands = Needs;
}

impl PlainField for Needs {}

impl PlainTotal for Needs {
    ghost never_fails = { λ S f e broken. broken };
}

impl Exact for Needs {
    fn equal_is_same(this: Needs, other: Needs) {}
}

impl std::fmt::Debug for Needs {
    fn fmt<W: std::fmt::Write>(&self, f: &mut std::fmt::Formatter<W>) -> std::fmt::Result {
        let names: [(&str, u64); 2] = [("WATER", 1), ("POWER", 2)];
        planus_views::show_flags(f, "Needs", self.bits as u64, &names)
    }
}
