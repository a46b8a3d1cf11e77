//! Lines as text, floats printed.
ghost use Rattle.std.specs.Prelude.{◌≡◌, ◌↔◌, ◌++◌, IfOk, map, codes, IsTrue};
ghost use Rattle.std.specs.Fmt.{decimal};
ghost use Rattle.std.specs.String.{string_bytes};
ghost use Rattle.planus_dump.specs.Dumped.{Shows, AreShown};
ghost use Rattle.planus_dump.specs.Floats.{number_of, ReadsBackTo, IsNan, IsInfinite, IsFinite};
ghost use Rattle.planus_dump.specs.Floats.{infinity_text, PrintsFloat};
ghost use Rattle.planus_dump.specs.inner.Shown.{event_of};

use crate::line::{Bits, Line};
use std::alloc::{AllocError, Global};
use std::num::{
    f32_from_bits_with_nan, f32_to_bits_with_nan, f64_from_bits_with_nan, f64_to_bits_with_nan,
};

const F32_SIGN: u32 = 0x8000_0000;

const F64_SIGN: u64 = 0x8000_0000_0000_0000;

const F32_INFINITE: u32 = 0x7f80_0000;

const F64_INFINITE: u64 = 0x7ff0_0000_0000_0000;

/// Whether they are of no number.
pub fn is_nan(bits: Bits) -> bool
    ensures { IsTrue result ↔ IsNan bits }
{
    match bits {
        Bits::F32(bits) => F32_INFINITE < bits % F32_SIGN,
        Bits::F64(bits) => F64_INFINITE < bits % F64_SIGN,
    }
}

/// Whether they are of an infinite number.
pub fn is_infinite(bits: Bits) -> bool
    ensures { IsTrue result ↔ IsInfinite bits }
{
    match bits {
        Bits::F32(bits) => bits % F32_SIGN == F32_INFINITE,
        Bits::F64(bits) => bits % F64_SIGN == F64_INFINITE,
    }
}

/// The text of an infinite number.
pub fn infinity(bits: Bits) -> &'static str
    ensures { result.now ≡ infinity_text bits }
{
    let is_positive = match bits {
        Bits::F32(bits) => bits % F32_SIGN == bits,
        Bits::F64(bits) => bits % F64_SIGN == bits,
    };
    if is_positive { "inf" } else { "-inf" }
}

/// Returns the decimal that `std` prints.
pub fn decimal_text(alloc: Global, bits: Bits) -> Result<String, AllocError> {
    match bits {
        Bits::F32(bits) => {
            let x = f32_from_bits_with_nan(bits);
            format!(in alloc; "{x:?}")
        }
        Bits::F64(bits) => {
            let x = f64_from_bits_with_nan(bits);
            format!(in alloc; "{x:?}")
        }
    }
}

/// Whether a decimal reads back to the same bits.
pub fn reads_back(text: &str, bits: Bits) -> bool
    ensures { IsTrue result → ReadsBackTo bits text.now }
{
    match bits {
        Bits::F32(bits) => match text.parse::<f32>() {
            Ok(x) => f32_to_bits_with_nan(x) == bits,
            Err(_) => false,
        },
        Bits::F64(bits) => match text.parse::<f64>() {
            Ok(x) => f64_to_bits_with_nan(x) == bits,
            Err(_) => false,
        },
    }
}

fn bits_text(alloc: Global, bits: Bits) -> Result<String, AllocError>
    ensures { IfOk result (λ text. string_bytes text ≡ codes "bits " ++ decimal (number_of bits)) }
{
    match bits {
        Bits::F32(bits) => format!(in alloc; "bits {bits}"),
        Bits::F64(bits) => format!(in alloc; "bits {bits}"),
    }
}

/// Returns a decimal that reads back to the same bits, the one that `std` prints, or the bits where
/// that one doesn't.
fn finite_text(alloc: Global, bits: Bits) -> Result<String, AllocError>
    requires { IsFinite bits }
    ensures { IfOk result (λ text. PrintsFloat bits (string_bytes text)) }
{
    let text = decimal_text(alloc, bits)?;
    if reads_back(text.as_str(), bits) {
        return Ok(text);
    }
    bits_text(alloc, bits)
}

fn float_text(alloc: Global, bits: Bits) -> Result<String, AllocError>
    ensures { IfOk result (λ text. PrintsFloat bits (string_bytes text)) }
{
    if is_nan(bits) {
        return String::from_str(alloc, "nan");
    }
    if is_infinite(bits) {
        return String::from_str(alloc, infinity(bits));
    }
    finite_text(alloc, bits)
}

/// Returns a line as text.
pub fn line_text(alloc: Global, line: Line) -> Result<String, AllocError>
    ensures { IfOk result (λ text. Shows (event_of line) (string_bytes text)) }
{
    match line {
        Line::Text(text) | Line::Fault(text) => Ok(text),
        Line::Float(path, bits) => {
            let text = float_text(alloc, bits)?;
            format!(in alloc; "{path} = {text}")
        }
    }
}

/// Returns lines as texts.
pub fn line_texts(alloc: Global, lines: Vec<Line>) -> Result<Vec<String>, AllocError>
    ensures { IfOk result (λ texts. AreShown (map event_of lines.items)
        (map string_bytes texts.items)) }
{
    let mut texts = Vec::new(alloc);
    for line in lines {
        let text = line_text(alloc, line)?;
        texts.push(text)?;
    }
    Ok(texts)
}
