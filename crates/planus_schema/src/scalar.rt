//! Scalar types.

ghost use Rattle.std.specs.Prelude.{◌≡◌};
ghost use Rattle.planus_schema.specs.Numbers as spec;

use crate::number::Number;

/// A scalar type.
#[derive(Clone, Copy, PartialEq, Eq)]
pub enum Scalar {
    Bool,
    Byte,
    UByte,
    Short,
    UShort,
    Int,
    UInt,
    Long,
    ULong,
    Float,
    Double,
}

impl Scalar {
    /// Returns the size in bytes, which is the alignment too.
    pub fn size(self) -> usize
        ensures { result ≡ spec.scalar_size self }
    {
        match self {
            Scalar::Bool | Scalar::Byte | Scalar::UByte => 1,
            Scalar::Short | Scalar::UShort => 2,
            Scalar::Int | Scalar::UInt | Scalar::Float => 4,
            Scalar::Long | Scalar::ULong | Scalar::Double => 8,
        }
    }

    /// Returns whether it is `float` or `double`.
    pub fn is_float(self) -> bool
        ensures { result ≡ spec.is_float self }
    {
        match self {
            Scalar::Float | Scalar::Double => true,
            _ => false,
        }
    }

    /// Returns whether it is `bool`.
    pub fn is_bool(self) -> bool
        ensures { result ≡ spec.is_bool self }
    {
        match self {
            Scalar::Bool => true,
            _ => false,
        }
    }

    /// Returns whether the type holds this integer; a float type only 0.
    pub fn fits(self, number: Number) -> bool
        ensures { result ≡ spec.fits self number }
    {
        if number.negative {
            number.magnitude <= least(self)
        } else {
            number.magnitude <= greatest(self)
        }
    }
}

fn greatest(scalar: Scalar) -> u64
    ensures { result ≡ spec.greatest scalar }
{
    match scalar {
        Scalar::Bool => 1,
        Scalar::Byte => 127,
        Scalar::UByte => 255,
        Scalar::Short => 32767,
        Scalar::UShort => 65535,
        Scalar::Int => 2147483647,
        Scalar::UInt => 4294967295,
        Scalar::Long => 9223372036854775807,
        Scalar::ULong => 18446744073709551615,
        Scalar::Float | Scalar::Double => 0,
    }
}

fn least(scalar: Scalar) -> u64
    ensures { result ≡ spec.least scalar }
{
    match scalar {
        Scalar::Byte => 128,
        Scalar::Short => 32768,
        Scalar::Int => 2147483648,
        Scalar::Long => 9223372036854775808,
        _ => 0,
    }
}
