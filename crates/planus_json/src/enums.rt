//! The names of an enum's number.
ghost use Rattle.std.specs.Prelude.{◌≡◌, IfOk};
ghost use Rattle.std.specs.Option.{option_map};
ghost use Rattle.std.specs.String.{string_bytes};
ghost use Rattle.planus_dump.specs.Events.{names_in};
ghost use Rattle.planus_json.specs.Trees as spec;

use planus_dump::EnumSchema;
use planus_dump::enums::has_value;
use std::alloc::{AllocError, Global};

fn bits_left(shape: &EnumSchema, number: u64) -> u64
    ensures { result ≡ spec.bits_left number number shape.now.values.items }
{
    let mut left = number;
    for (value, _) in &shape.values {
        if has_value(true, number, *value) {
            left = left.saturating_sub(*value);
        }
    }
    left
}

pub fn is_unnamed(shape: &EnumSchema, number: u64) -> bool
    ensures { result ≡ spec.is_unnamed shape.now number }
{
    shape.flags && bits_left(shape, number) != 0
}

pub fn spaced_names(
    alloc: Global,
    shape: &EnumSchema,
    number: u64,
) -> Result<Option<String>, AllocError>
    ensures { IfOk result (λ names. option_map string_bytes names
        ≡ spec.spaced_names (names_in shape.now.flags number shape.now.values.items)) }
{
    let mut text = String::new(alloc);
    let mut is_first = true;
    for (value, name) in &shape.values {
        if has_value(shape.flags, number, *value) {
            if !is_first {
                text.push_str(" ")?;
            }
            text.push_str(name)?;
            is_first = false;
        }
    }
    if is_first {
        return Ok(None);
    }
    Ok(Some(text))
}
