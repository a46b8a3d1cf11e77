//! The defaults of fields.

ghost use Rattle.std.specs.Prelude.{◌≡◌, ◌++◌, OnOk, codes};
ghost use Rattle.std.specs.List.{slice_get};
ghost use Rattle.planus_schema.specs.Plans.{line_of};
ghost use Rattle.planus_tie.specs.Wanted as spec;

use crate::kinds::has_default;
use crate::naming::Naming;
use crate::pieces::{push_capitals, push_number, push_str};
use planus_schema::{Base, Body, EnumValue, Line, Number, Scalar, Value};
use std::alloc::AllocError;

/// Returns the integer of a default; it is 0 where none is given.
pub fn default_number(default: &Option<Value>) -> Number
    ensures { result ≡ spec.default_number default.now }
{
    match default {
        Some(Value::Integer(number)) => *number,
        _ => Number {
            negative: false,
            magnitude: 0,
        },
    }
}

pub(crate) fn push_integer(out: &mut Vec<u8>, number: Number) -> Result<(), AllocError>
    ensures { OnOk result (out.new.items ≡ out.old.items ++ spec.integer_text number) }
{
    push_str(out, if number.negative { "-" } else { "" })?;
    push_number(out, number.magnitude)
}

fn push_truth(out: &mut Vec<u8>, number: Number) -> Result<(), AllocError>
    ensures { OnOk result (out.new.items ≡ out.old.items ++ spec.truth_text number) }
{
    push_str(
        out,
        if number.magnitude == 0 {
            "false"
        } else {
            "true"
        },
    )
}

fn push_constant(out: &mut Vec<u8>, name: &[u8]) -> Result<(), AllocError>
    ensures { OnOk result (out.new.items ≡ out.old.items ++ spec.constant_text name.now) }
{
    push_str(out, "DEFAULT_")?;
    push_capitals(out, name)
}

fn push_scalar(
    out: &mut Vec<u8>,
    scalar: Scalar,
    name: &[u8],
    number: Number,
) -> Result<(), AllocError>
    ensures { OnOk result (out.new.items ≡ out.old.items ++ spec.scalar_default scalar name.now
        number) }
{
    match scalar {
        Scalar::Bool => push_truth(out, number),
        Scalar::Float | Scalar::Double => push_constant(out, name),
        _ => push_integer(out, number),
    }
}

fn is_same(a: Number, b: Number) -> bool
    ensures { result ≡ spec.is_same a b }
{
    a.negative == b.negative && a.magnitude == b.magnitude
}

fn place_of(number: Number, values: &[EnumValue]) -> usize
    ensures { result ≡ spec.place_of number values.now }
{
    let mut place = 0;
    'values: for value in values {
        if is_same(value.number, number) {
            return place;
        }
        place += 1;
    }
    place
}

fn push_variant(
    out: &mut Vec<u8>,
    naming: &Naming<'_>,
    index: usize,
    place: usize,
) -> Result<(), AllocError>
    ensures { OnOk result (out.new.items ≡ out.old.items ++ (spec.type_of naming.now index
        ++ (codes "::" ++ spec.member_of naming.now index place))) }
{
    out.extend_from_slice(naming.type_of(index))?;
    push_str(out, "::")?;
    out.extend_from_slice(naming.member_of(index, place))
}

fn push_enum(
    out: &mut Vec<u8>,
    naming: &Naming<'_>,
    index: usize,
    name: &[u8],
    number: Number,
) -> Result<(), AllocError>
    ensures { OnOk result (out.new.items ≡ out.old.items ++ spec.enum_default naming.now index
        (slice_get naming.now.declared.now index) name.now number) }
{
    match naming.declared.get(index) {
        Some(declared) => match &declared.body {
            Body::Enum(one) if one.flags => push_constant(out, name),
            Body::Enum(one) => push_variant(out, naming, index, place_of(number, &one.values)),
            _ => Ok(()),
        },
        None => Ok(()),
    }
}

/// Adds the default of a field.
pub(crate) fn push_default(
    out: &mut Vec<u8>,
    naming: &Naming<'_>,
    line: &Line<'_>,
) -> Result<(), AllocError>
    ensures { OnOk result (out.new.items ≡ out.old.items
        ++ spec.default_text naming.now (line_of line.now)) }
{
    let name = naming.member_of(line.table, line.place);
    let number = default_number(&line.field.default);
    match line.field.kind.base {
        Base::Scalar(scalar) => push_scalar(out, scalar, name, number),
        Base::Enum(index) => push_enum(out, naming, index, name, number),
        _ => Ok(()),
    }
}

/// Adds the argument of the default, where there is one.
pub(crate) fn push_default_argument(
    out: &mut Vec<u8>,
    naming: &Naming<'_>,
    line: &Line<'_>,
) -> Result<(), AllocError>
    ensures { OnOk result (out.new.items ≡ out.old.items
        ++ spec.default_argument naming.now (line_of line.now)) }
{
    if has_default(line.field) {
        push_default(out, naming, line)?;
        push_str(out, ",")?;
    }
    Ok(())
}
