//! Floats of schemas' texts, by their bits.

ghost use Rattle.std.specs.Prelude.{◌≡◌};
ghost use Rattle.planus_conform.specs.Floats as spec;
ghost use lib.Ieee.{binary32, binary64};

use planus_schema::{Base, Scalar};
use std::num::{f32_to_bits_with_nan, f64_to_bits_with_nan};

fn single_bits(text: &[u8]) -> Option<u64>
    ensures { result ≡ spec.bits_in binary32 text.now }
{
    match std::str::from_utf8(text) {
        Ok(text) => match text.parse::<f32>() {
            Ok(x) => Some(f32_to_bits_with_nan(x) as u64),
            Err(_) => None,
        },
        Err(_) => None,
    }
}

fn double_bits(text: &[u8]) -> Option<u64>
    ensures { result ≡ spec.bits_in binary64 text.now }
{
    match std::str::from_utf8(text) {
        Ok(text) => match text.parse::<f64>() {
            Ok(x) => Some(f64_to_bits_with_nan(x)),
            Err(_) => None,
        },
        Err(_) => None,
    }
}

/// Returns the bits of the float of this type that a text is, if it is one and not hexadecimal.
pub(crate) fn float_bits(base: Base, text: &[u8]) -> Option<u64>
    ensures { result ≡ spec.float_bits base text.now }
{
    match base {
        Base::Scalar(Scalar::Float) => single_bits(text),
        Base::Scalar(Scalar::Double) => double_bits(text),
        _ => None,
    }
}
