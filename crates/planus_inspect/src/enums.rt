//! Enums as a dump reads them.
ghost use Rattle.std.specs.Prelude.{◌≡◌, map, IfOk};
ghost use Rattle.std.specs.String.{string_bytes};
ghost use Rattle.planus_dump.specs.Shapes.{enum_shape};
ghost use Rattle.planus_inspect.specs.Shown as spec;

use crate::kinds::scalar_number;
use crate::names::shown_name;
use planus_dump::{EnumSchema, Number as NumberType};
use planus_schema::{Body, Declared, EnumValue, Number, Scalar};
use std::alloc::{AllocError, Global};

fn low_bytes(size: usize, number: u64) -> u64
    ensures { result ≡ spec.low_bytes size number }
{
    if size == 1 {
        number % 256
    } else if size == 2 {
        number % 65536
    } else if size == 4 {
        number % 4294967296
    } else {
        number
    }
}

fn bits_of(size: usize, number: Number) -> u64
    ensures { result ≡ spec.bits_of size number }
{
    if number.negative && number.magnitude != 0 {
        low_bytes(size, u64::MAX - (number.magnitude - 1))
    } else {
        low_bytes(size, number.magnitude)
    }
}

fn values_of(
    alloc: Global,
    scalar: Scalar,
    values: &[EnumValue],
) -> Result<Vec<(u64, String)>, AllocError>
    ensures { IfOk result (λ shown. map (λ value. (value.0, string_bytes value.1)) shown.items
        ≡ map (spec.value_shown scalar) values.now) }
{
    let mut shown = Vec::new(alloc);
    for value in values {
        let name = shown_name(alloc, &value.name)?;
        shown.push((bits_of(scalar.size(), value.number), name))?;
    }
    Ok(shown)
}

/// An enum with no values for any other declaration.
pub(crate) fn enum_schema(alloc: Global, declared: &Declared) -> Result<EnumSchema, AllocError>
    ensures { IfOk result (λ shown. enum_shape shown ≡ spec.enum_shown declared.now) }
{
    match &declared.body {
        Body::Enum(body) => Ok(EnumSchema {
            number: scalar_number(body.scalar),
            flags: body.flags,
            values: values_of(alloc, body.scalar, &body.values)?,
        }),
        _ => Ok(EnumSchema {
            number: NumberType::U8,
            flags: false,
            values: Vec::new(alloc),
        }),
    }
}
