//! The defaults of fields.

use crate::context::{Context, is_signed, scalar_name};
use crate::printer::Printer;
use crate::types::has_default;
use planus_schema::{
    Base, Body, Enum, Number, Scalar, TableField, Value, is_hexadecimal, without_sign,
};

pub(crate) fn default_number(field: &TableField) -> Number {
    planus_tie::default_number(&field.default)
}

/// Whether a field's default is the zero of its type.
pub(crate) fn is_zero(field: &TableField) -> bool {
    match (field.kind.base, &field.default) {
        (Base::Scalar(_), None) => true,
        (Base::Scalar(_), Some(Value::Integer(number))) => number.magnitude == 0,
        _ => false,
    }
}

fn place_of(one: &Enum, number: Number) -> usize {
    for (place, value) in one.values.iter().enumerate() {
        if value.number == number {
            return place;
        }
    }
    one.values.len()
}

pub(crate) fn default_place(context: &Context<'_>, index: usize, field: &TableField) -> usize {
    match context.body(index) {
        Some(Body::Enum(one)) => place_of(one, default_number(field)),
        _ => 0,
    }
}

pub(crate) fn has_constant(context: &Context<'_>, field: &TableField) -> bool {
    has_default(field)
        && match field.kind.base {
            Base::Scalar(scalar) => scalar.is_float(),
            Base::Enum(index) => context.is_flags(index),
            _ => false,
        }
}

/// Whether a field's default is told by its type's `==`.
pub(crate) fn is_judged(field: &TableField) -> bool {
    has_default(field)
        && match field.kind.base {
            Base::Scalar(Scalar::Bool | Scalar::Float | Scalar::Double) => true,
            Base::Scalar(_) => false,
            _ => true,
        }
}

pub(crate) fn default_value(context: &Context<'_>, field: &TableField) -> &'static str {
    match field.kind.base {
        Base::Scalar(Scalar::Bool) if default_number(field).magnitude == 0 => "false",
        Base::Scalar(Scalar::Bool) => "true",
        Base::Scalar(Scalar::Float | Scalar::Double) => "$F",
        Base::Enum(index) if context.is_flags(index) => "$t {^bits: $l^}",
        Base::Enum(_) => "$t::$e",
        _ => "$l",
    }
}

pub(crate) fn default(context: &Context<'_>, field: &TableField) -> &'static str {
    if has_constant(context, field) {
        "DEFAULT_$N"
    } else {
        default_value(context, field)
    }
}

pub(crate) fn default_clause(context: &Context<'_>, field: &TableField) -> &'static str {
    match field.kind.base {
        Base::Enum(index) if context.is_flags(index) => "(record { bits = $l })",
        Base::Enum(_) => "$h_value.$e",
        Base::Scalar(scalar) if scalar.is_float() && is_finite(field) => "$H",
        Base::Scalar(scalar) if is_signed(scalar) => "($L)",
        _ => default(context, field),
    }
}

fn is_digit(byte: Option<&u8>) -> bool {
    match byte {
        Some(byte) => byte.is_ascii_digit(),
        None => false,
    }
}

// What follows the type of a float that isn't written in digits.
fn float_word(text: &[u8]) -> &'static str {
    let negative = text.first() == Some(&b'-');
    let sign = negative || text.first() == Some(&b'+');
    match text.get(sign as usize) {
        Some(b'n' | b'N') => "::NAN",
        Some(b'i' | b'I') if negative => "::NEG_INFINITY",
        Some(b'i' | b'I') => "::INFINITY",
        _ => "",
    }
}

fn is_finite(field: &TableField) -> bool {
    match &field.default {
        Some(Value::Float(text)) => float_word(text).is_empty(),
        _ => true,
    }
}

/// Whether clauses have the name of a field's constant, for want of a value.
pub(crate) fn is_named_in_clauses(context: &Context<'_>, field: &TableField) -> bool {
    has_constant(context, field) && !is_finite(field)
}

impl<'a> Printer<'a> {
    // A float as code has it: with digits on both sides of its point.
    fn put_digits(&mut self, text: &[u8]) {
        let mut whole = true;
        let mut digit = false;
        for (at, byte) in text.iter().enumerate() {
            match *byte {
                b'.' => {
                    let more = is_digit(text.get(at.saturating_add(1)));
                    self.put_str(if digit { "." } else { "0." });
                    self.put_str(if more { "" } else { "0" });
                    whole = false;
                }
                b'+' if at == 0 => {}
                letter => {
                    whole = whole && letter != b'e' && letter != b'E';
                    self.put_char(letter as char);
                }
            }
            digit = byte.is_ascii_digit();
        }
        self.put_str(if whole { ".0" } else { "" });
    }

    pub(crate) fn put_float(&mut self, scalar: Scalar, field: &TableField) {
        match &field.default {
            Some(Value::Float(text)) => {
                let word = float_word(text);
                if is_hexadecimal(without_sign(text)) {
                    self.put_hex_float(text);
                } else if word.is_empty() {
                    self.put_digits(text);
                } else {
                    self.put_str(scalar_name(scalar));
                    self.put_str(word);
                }
            }
            _ => {
                let number = default_number(field);
                self.put_str(if number.negative { "-" } else { "" });
                self.put_number(number.magnitude);
                self.put_str(".0");
            }
        }
    }
}
