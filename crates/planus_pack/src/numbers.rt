//! Numbers of words.

ghost use Rattle.std.specs.Prelude.{◌≡◌, ◌++◌, OnOk};
ghost use Rattle.planus_json_syntax.specs.Values.{json_view};
ghost use Rattle.planus_pack.specs.Numbers as spec;
ghost use Rattle.planus_pack.specs.Results.{Gives};

use crate::pack_error::PackError;
use crate::pack_fault::PackFault;
use crate::values::word_of;
use planus_json_syntax::Json;
use planus_schema::{Enum, EnumValue, Number, Scalar, integer, is_hexadecimal, without_sign};
use std::alloc::AllocError;

fn has_digits(word: &[u8]) -> bool
    ensures { result ≡ spec.has_digits word.now }
{
    let digits = without_sign(word);
    let mark = if is_hexadecimal(digits) { 2 } else { 0 };
    mark < digits.len()
}

pub(crate) fn integer_in(word: &[u8]) -> Option<Number>
    ensures { result ≡ spec.integer_in word.now }
{
    if has_digits(word) {
        integer(word)
    } else {
        None
    }
}

pub(crate) fn natural(magnitude: u64) -> Number
    ensures { result ≡ spec.natural magnitude }
{
    Number {
        negative: false,
        magnitude,
    }
}

fn number_in(scalar: Scalar, word: &[u8]) -> Option<Number>
    ensures { result ≡ spec.number_in scalar word.now }
{
    if scalar.is_bool() && word == b"true".as_slice() {
        Some(natural(1))
    } else if scalar.is_bool() && word == b"false".as_slice() {
        Some(natural(0))
    } else {
        integer_in(word)
    }
}

pub(crate) fn fitting(scalar: Scalar, at: usize, number: Number) -> Result<Number, PackError>
    ensures { Gives (λ n. n) result (spec.fitting scalar at number) }
{
    if scalar.fits(number) {
        Ok(number)
    } else {
        let kind = PackFault::OutOfRange;
        Err(PackError::Fault { at, kind })
    }
}

/// Returns the number of a scalar that is no float.
pub(crate) fn integer_at(scalar: Scalar, json: &Json) -> Result<Number, PackError>
    ensures { Gives (λ n. n) result (spec.integer_at scalar (json_view json.now)) }
{
    let (at, kind) = (json.at, PackFault::NotANumber);
    let Some(word) = word_of(&json.value) else {
        return Err(PackError::Fault { at, kind });
    };
    match number_in(scalar, word.as_bytes()) {
        Some(number) => fitting(scalar, at, number),
        None => Err(PackError::Fault { at, kind }),
    }
}

fn value_named(name: &[u8], values: &[EnumValue]) -> Option<Number>
    ensures { result ≡ spec.value_named name.now values.now }
{
    let mut rest = values;
    'values: while let Some((first, after)) = rest.split_first() {
        if first.name.as_slice() == name {
            return Some(first.number);
        }
        rest = after;
    }
    None
}

/// Returns the bits so far and those of a flag, if each name is one's.
fn with_flag(values: &[EnumValue], bits: Option<u64>, name: &str) -> Option<u64>
    ensures { result ≡ spec.with_flag values.now bits name.now }
{
    let bits = bits?;
    if name.is_empty() {
        return Some(bits);
    }
    match value_named(name.as_bytes(), values) {
        Some(flag) => Some(bits | flag.magnitude),
        None => None,
    }
}

/// Returns the flags of a text, with spaces between their names.
fn flags_named(text: &str, values: &[EnumValue]) -> Option<Number>
    ensures { result ≡ spec.flags_named text.now values.now }
{
    let mut bits = Some(0);
    'names: for name in text.split(' ') {
        bits = with_flag(values, bits, name);
    }
    some_flags(bits)
}

fn some_flags(bits: Option<u64>) -> Option<Number>
    ensures { result ≡ spec.some_flags bits }
{
    match bits {
        Some(0) | None => None,
        Some(bits) => Some(natural(bits)),
    }
}

fn named(one: &Enum, text: &str) -> Option<Number>
    ensures { result ≡ spec.named one.now text.now }
{
    if one.flags {
        flags_named(text, &one.values)
    } else {
        value_named(text.as_bytes(), &one.values)
    }
}

/// Returns the number of an enum's value, or of a set of flags.
pub(crate) fn enum_at(one: &Enum, json: &Json) -> Result<Number, PackError>
    ensures { Gives (λ n. n) result (spec.enum_at one.now (json_view json.now)) }
{
    let (at, kind) = (json.at, PackFault::UnknownName);
    let Some(text) = word_of(&json.value) else {
        return Err(PackError::Fault { at, kind });
    };
    if let Some(number) = named(one, text) {
        return Ok(number);
    }
    match integer_in(text.as_bytes()) {
        Some(number) => fitting(one.scalar, at, number),
        None => Err(PackError::Fault { at, kind }),
    }
}

/// Returns two's complement, in 64 bits.
pub(crate) fn bits(number: Number) -> u64
    ensures { result ≡ spec.bits number }
{
    if number.negative && 0 < number.magnitude {
        u64::MAX - number.magnitude + 1
    } else {
        number.magnitude
    }
}

/// Adds the lowest bytes of a number.
pub(crate) fn push_number(
    bytes: &mut Vec<u8>,
    size: usize,
    number: Number,
) -> Result<(), AllocError>
    ensures { OnOk result (bytes.new.items ≡ bytes.old.items ++ spec.number_bytes size number) }
{
    let whole = bits(number).to_le_bytes();
    match whole.split_at_checked(size) {
        Some((low, _)) => bytes.extend_from_slice(low),
        None => bytes.extend_from_slice(&whole),
    }
}
