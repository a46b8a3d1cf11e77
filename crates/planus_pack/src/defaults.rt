//! What fields hold where they are absent.

ghost use Rattle.std.specs.Prelude.{◌≡◌};
ghost use Rattle.std.specs.Option.{option_map};
ghost use Rattle.planus.specs.Steps.{content_of};
ghost use Rattle.planus_pack.specs.Defaults as spec;

use crate::floats::float_bits;
use crate::lookup::enum_at;
use crate::numbers::{bits, natural};
use planus::FieldValue;
use planus_schema::{Base, Declared, Number, Scalar, TableField, Value};

/// Returns the scalar as which a value is written.
pub(crate) fn scalar_of(declared: &[Declared], base: Base) -> Option<Scalar>
    ensures { result ≡ spec.scalar_of declared.now base }
{
    match base {
        Base::Scalar(scalar) => Some(scalar),
        Base::Enum(index) => match enum_at(declared, index) {
            Some(one) => Some(one.scalar),
            None => None,
        },
        _ => None,
    }
}

fn text_said(word: &[u8]) -> Option<&str>
    ensures { option_map (λ t. t.now) result ≡ spec.text_said word.now }
{
    match std::str::from_utf8(word) {
        Ok(text) => Some(text),
        Err(_) => None,
    }
}

/// Returns the bits of a float as a schema has it.
fn float_said(scalar: Scalar, text: Option<&str>) -> Option<Number>
    ensures { result ≡ spec.float_said scalar (option_map (λ t. t.now) text.entry) }
{
    let Some(text) = text else {
        return None;
    };
    match float_bits(scalar, text) {
        Some(bits) => Some(natural(bits)),
        None => None,
    }
}

/// Returns the number of an absent field, if it has one.
pub(crate) fn default_number(scalar: Scalar, default: Option<&Value>) -> Option<Number>
    ensures { result ≡ spec.default_number scalar (option_map (λ v. v.now) default.entry) }
{
    match default {
        None => Some(natural(0)),
        Some(Value::Integer(number)) => Some(*number),
        Some(Value::Float(word)) => float_said(scalar, text_said(word)),
        Some(_) => None,
    }
}

/// Returns whether these are the bytes of a number.
fn is_number(scalar: Scalar, content: &[u8], number: Option<Number>) -> bool
    ensures { result ≡ spec.is_number scalar content.now number }
{
    let Some(number) = number else {
        return false;
    };
    let whole = bits(number).to_le_bytes();
    match whole.split_at_checked(scalar.size()) {
        Some((low, _)) => content == low,
        None => content == whole.as_slice(),
    }
}

fn is_absence(field: &TableField, content: &[u8], scalar: Option<Scalar>) -> bool
    ensures { result ≡ spec.is_absence field.now content.now scalar }
{
    match scalar {
        Some(scalar) => {
            let number = default_number(scalar, field.default.as_ref());
            is_number(scalar, content, number)
        }
        None => false,
    }
}

/// Returns whether a field's absence reads as this: a number, a truth or an enum's, bit for bit.
pub(crate) fn is_default(declared: &[Declared], field: &TableField, value: &FieldValue) -> bool
    ensures { result ≡ spec.is_default declared.now field.now (content_of value.now) }
{
    match value {
        FieldValue::Plain { bytes, .. } => {
            is_absence(field, bytes, scalar_of(declared, field.kind.base))
        }
        _ => false,
    }
}
