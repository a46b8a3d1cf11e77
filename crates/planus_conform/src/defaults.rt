//! Whether absent fields have the same value.

ghost use Rattle.std.specs.Prelude.{◌≡◌, Some};
ghost use Rattle.std.specs.Option.{option_map};
ghost use Rattle.planus_schema.specs.Numbers as numbers_spec;
ghost use Rattle.planus_resolve.specs.Defaults.{value_of};
ghost use Rattle.planus_resolve.specs.Tables as tables_spec;
ghost use Rattle.planus_conform.specs.Reads as reads_spec;
ghost use Rattle.planus_conform.specs.Defaults as spec;
ghost use Rattle.planus_conform.specs.Floats as floats_spec;

use crate::floats::float_bits;
use crate::types::same_truth;
use planus_schema::{Base, FieldType, Number, TableField, Value};

fn is_number(kind: FieldType) -> bool
    ensures { result ≡ tables_spec.is_number kind }
{
    match kind.base {
        Base::Scalar(_) | Base::Enum(_) => !kind.vector,
        _ => false,
    }
}

fn is_nothing(kind: FieldType, default: &Option<Value>) -> bool
    ensures { result ≡ reads_spec.is_nothing kind (option_map value_of default.now) }
{
    match default {
        None => !is_number(kind),
        Some(Value::Absent) => true,
        Some(_) => false,
    }
}

fn zero() -> Number
    ensures { result ≡ numbers_spec.zero_number }
{
    Number {
        negative: false,
        magnitude: 0,
    }
}

/// Returns whether these are one number.
pub fn same_number(a: Number, b: Number) -> bool
    ensures { result ≡ spec.same_number a b }
{
    same_truth(a.negative, b.negative) && a.magnitude == b.magnitude
}

fn same_value(a: &Value, b: &Value) -> bool
    ensures { result ≡ spec.same_value (value_of a.now) (value_of b.now) }
{
    match (a, b) {
        (Value::Absent, Value::Absent) => true,
        (Value::Integer(a), Value::Integer(b)) => same_number(*a, *b),
        (Value::Float(a), Value::Float(b)) => a.as_slice() == b.as_slice(),
        (Value::Text(a), Value::Text(b)) => a.as_slice() == b.as_slice(),
        (Value::EmptyVector, Value::EmptyVector) => true,
        _ => false,
    }
}

/// Returns the bits of a default of this type, if it is a float and not hexadecimal.
fn value_bits(base: Base, value: &Value) -> Option<u64>
    ensures { result ≡ floats_spec.value_bits base (value_of value.now) }
{
    match value {
        Value::Float(text) => float_bits(base, text),
        _ => None,
    }
}

fn same_written(f: Base, g: Base, a: &Value, b: &Value) -> bool
    ensures { result ≡ spec.same_given (floats_spec.default_as f (value_of a.now))
        (floats_spec.default_as g (value_of b.now)) }
{
    match (value_bits(f, a), value_bits(g, b)) {
        (Some(a), Some(b)) => a == b,
        (None, None) => same_value(a, b),
        _ => false,
    }
}

fn same_given(f: Base, g: Base, a: &Option<Value>, b: &Option<Value>) -> bool
    ensures { result ≡ spec.same_given (reads_spec.given f (option_map value_of a.now))
        (reads_spec.given g (option_map value_of b.now)) }
{
    let zero = Value::Integer(zero());
    match (a, b) {
        (Some(a), Some(b)) => same_written(f, g, a, b),
        (Some(a), None) => same_written(f, g, a, &zero),
        (None, Some(b)) => same_written(f, g, &zero, b),
        (None, None) => true,
    }
}

/// Returns whether the fields have the same value where they are absent.
pub(crate) fn same_default(f: &TableField, g: &TableField) -> bool
    ensures { result ≡ spec.same_default f.now g.now }
{
    let f_nothing = is_nothing(f.kind, &f.default);
    let g_nothing = is_nothing(g.kind, &g.default);
    if f_nothing || g_nothing {
        f_nothing && g_nothing
    } else {
        same_given(f.kind.base, g.kind.base, &f.default, &g.default)
    }
}
