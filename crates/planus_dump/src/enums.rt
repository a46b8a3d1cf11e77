//! Numbers of enums.
ghost use Rattle.std.specs.Prelude.{◌≡◌, IfOk};
ghost use Rattle.std.specs.String.{string_bytes};
ghost use Rattle.planus_dump.specs.Lines.{names_text};
ghost use Rattle.planus_dump.specs.Events as spec;

use crate::schemas::EnumSchema;
use std::alloc::{AllocError, Global};

/// Whether a number is this value, or has this flag.
pub fn has_value(flags: bool, number: u64, value: u64) -> bool
    ensures { result ≡ spec.has_value flags number value }
{
    if flags {
        value != 0 && number / value % 2 == 1
    } else {
        number == value
    }
}

/// Returns the names of a number in parentheses, or nothing.
pub fn names_of(alloc: Global, shape: &EnumSchema, number: u64) -> Result<String, AllocError>
    ensures { IfOk result (λ text. string_bytes text ≡ names_text
        (spec.names_in shape.now.flags number shape.now.values.items)) }
{
    let mut text = String::new(alloc);
    for (value, name) in &shape.values {
        if has_value(shape.flags, number, *value) {
            text.push_str(if text.is_empty() { " (" } else { " | " })?;
            text.push_str(name)?;
        }
    }
    if !text.is_empty() {
        text.push(')')?;
    }
    Ok(text)
}
