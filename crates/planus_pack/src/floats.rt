//! Floats of words.

ghost use Rattle.std.specs.Prelude.{◌≡◌};
ghost use Rattle.std.specs.Option.{option_map};
ghost use lib.Ieee.{binary32, binary64};
ghost use Rattle.planus_json_syntax.specs.Values.{json_view};
ghost use Rattle.planus_pack.specs.Floats as spec;
ghost use Rattle.planus_pack.specs.Results.{Gives};

use crate::numbers::{fitting, integer_at, integer_in, natural};
use crate::pack_error::PackError;
use crate::pack_fault::PackFault;
use crate::values::word_of;
use planus_json_syntax::Json;
use planus_schema::{Number, Scalar};
use std::num::{f32_to_bits_with_nan, f64_to_bits_with_nan};

fn single_bits(text: &str) -> Option<u64>
    ensures { result ≡ spec.bits_of binary32 text.now }
{
    match text.parse::<f32>() {
        Ok(x) => Some(u64::from(f32_to_bits_with_nan(x))),
        Err(_) => None,
    }
}

fn double_bits(text: &str) -> Option<u64>
    ensures { result ≡ spec.bits_of binary64 text.now }
{
    match text.parse::<f64>() {
        Ok(x) => Some(f64_to_bits_with_nan(x)),
        Err(_) => None,
    }
}

pub(crate) fn float_bits(scalar: Scalar, text: &str) -> Option<u64>
    ensures { result ≡ spec.float_bits scalar text.now }
{
    match scalar {
        Scalar::Float => single_bits(text),
        Scalar::Double => double_bits(text),
        _ => None,
    }
}

fn after_bits(word: &[u8]) -> Option<&[u8]>
    ensures { option_map (λ w. w.now) result ≡ spec.after_bits word.now }
{
    match word.split_at_checked(5) {
        Some((front, rest)) if front == b"bits ".as_slice() => Some(rest),
        _ => None,
    }
}

fn raw(scalar: Scalar) -> Scalar
    ensures { result ≡ spec.raw scalar }
{
    match scalar {
        Scalar::Float => Scalar::UInt,
        _ => Scalar::ULong,
    }
}

/// Returns the bits of a float.
fn float_at(scalar: Scalar, json: &Json) -> Result<Number, PackError>
    ensures { Gives (λ n. n) result (spec.float_at scalar (json_view json.now)) }
{
    let (at, kind) = (json.at, PackFault::NotANumber);
    let Some(text) = word_of(&json.value) else {
        return Err(PackError::Fault { at, kind });
    };
    if let Some(digits) = after_bits(text.as_bytes()) {
        return match integer_in(digits) {
            Some(number) => fitting(raw(scalar), at, number),
            None => Err(PackError::Fault { at, kind }),
        };
    }
    match float_bits(scalar, text) {
        Some(bits) => Ok(natural(bits)),
        None => Err(PackError::Fault { at, kind }),
    }
}

/// Returns the number or the bits of a scalar.
pub(crate) fn scalar_at(scalar: Scalar, json: &Json) -> Result<Number, PackError>
    ensures { Gives (λ n. n) result (spec.scalar_at scalar (json_view json.now)) }
{
    if scalar.is_float() {
        float_at(scalar, json)
    } else {
        integer_at(scalar, json)
    }
}
