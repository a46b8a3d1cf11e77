//! Floats.
ghost use Rattle.std.specs.Prelude.{IfOk};
ghost use Rattle.std.specs.String.{string_bytes};
ghost use Rattle.std.specs.Prelude.{◌≡◌, ◌++◌, codes};
ghost use Rattle.std.specs.Fmt.{decimal};
ghost use Rattle.planus_dump.specs.Floats.{number_of};
ghost use Rattle.planus_json.specs.Json.{strictly, IsFloatText};

use planus_dump::Bits;
use planus_dump::floats::{decimal_text, infinity, is_infinite, is_nan, reads_back};
use std::alloc::{AllocError, Global};

fn strict_text(alloc: Global, text: &str, strict: bool) -> Result<String, AllocError>
    ensures { IfOk result (λ given. string_bytes given ≡ strictly strict text.now) }
{
    if strict {
        format!(in alloc; "\"{text}\"")
    } else {
        String::from_str(alloc, text)
    }
}

fn bits_text(alloc: Global, bits: Bits) -> Result<String, AllocError>
    ensures { IfOk result (λ text. string_bytes text
        ≡ codes "\"bits " ++ (decimal (number_of bits) ++ codes "\"")) }
{
    match bits {
        Bits::F32(bits) => format!(in alloc; "\"bits {bits}\""),
        Bits::F64(bits) => format!(in alloc; "\"bits {bits}\""),
    }
}

/// Returns a float as JSON has it.
pub fn float_text(alloc: Global, bits: Bits, strict: bool) -> Result<String, AllocError>
    ensures { IfOk result (λ text. IsFloatText strict bits (string_bytes text)) }
{
    if is_nan(bits) {
        return strict_text(alloc, "nan", strict);
    }
    if is_infinite(bits) {
        return strict_text(alloc, infinity(bits), strict);
    }
    let text = decimal_text(alloc, bits)?;
    if reads_back(text.as_str(), bits) {
        return Ok(text);
    }
    bits_text(alloc, bits)
}
