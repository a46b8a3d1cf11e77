//! Defaults.

ghost use Rattle.std.specs.Prelude.{◌≡◌, [], true, not, map, IfOk, Some, None};
ghost use Rattle.std.specs.Option.{option_map};
ghost use Rattle.std.specs.List.{list_any};
ghost use Rattle.planus_syntax.specs.Values.{path_of, literal_of, variant_of, enumeration_of};
ghost use Rattle.planus_resolve.specs.Names as names_spec;
ghost use Rattle.planus_resolve.specs.Wrong.{Tells, when};
ghost use Rattle.planus_resolve.specs.WrongTables.{wrong_default};
ghost use Rattle.planus_resolve.specs.Defaults as spec;
ghost use Rattle.planus_resolve.specs.Enums as enums_spec;
ghost use Rattle.planus_resolve.specs.Defaults.{value_of};
ghost use Rattle.planus_schema.specs.Numbers.{integer_said};
ghost use Rattle.planus_syntax.specs.Values.{names_of};

use crate::attributes::has;
use crate::enums::{number_of, same_number, value_of as settled};
use crate::fault::{DeclarationError, FaultKind, or_return, wrong};
use crate::heads::Heads;
use crate::integers::integer_at;
use crate::kind::item_of_head;
use crate::words::cut_words;
use planus_schema::{
    Base, FieldType, Number, Scalar, Value, integer, is_hexadecimal, without_sign,
};
use planus_syntax::{
    Enumeration, Item, Literal, Path, Variant, between_quotes, is_float_name, is_number,
    string_text,
};
use std::alloc::{AllocError, Global};

fn lone_word(path: &Path) -> Option<&[u8]>
    ensures { option_map (λ w. w.now) result ≡ spec.lone_word (path_of path.now) }
{
    if path.more.is_empty() {
        Some(&path.first)
    } else {
        None
    }
}

fn is_null(word: &[u8]) -> bool
    ensures { result ≡ spec.is_null word.now }
{
    word == b"null".as_slice()
}

fn float_of(alloc: Global, word: &[u8]) -> Result<Option<Value>, AllocError>
    ensures { IfOk result (λ o. option_map value_of o ≡ Some (spec.float word.now)) }
{
    let word = or_return!(Vec::from_slice(alloc, word));
    Ok(Some(Value::Float(word)))
}

fn has_exponent(digits: &[u8]) -> bool
    ensures { result ≡ spec.has_exponent digits.now }
{
    digits.iter().any(|b| *b == b'p' || *b == b'P')
}

fn bool_number(digits: &[u8]) -> Option<Value>
    ensures { option_map value_of result ≡ spec.bool_number (integer_said digits.now) }
{
    match integer(digits) {
        Some(number) if Scalar::UByte.fits(number) => Some(Value::Integer(Number {
            negative: false,
            magnitude: if number.magnitude == 0 { 0 } else { 1 },
        })),
        _ => None,
    }
}

fn named_bool(word: &[u8]) -> Option<Value>
    ensures { option_map value_of result ≡ spec.named_bool word.now }
{
    if word == b"true".as_slice() {
        Some(Value::Integer(Number {
            negative: false,
            magnitude: 1,
        }))
    } else if word == b"false".as_slice() {
        Some(Value::Integer(Number {
            negative: false,
            magnitude: 0,
        }))
    } else {
        None
    }
}

fn scalar_number(alloc: Global, scalar: Scalar, digits: &[u8]) -> Result<Option<Value>, AllocError>
    ensures { IfOk result (λ o. option_map value_of o ≡ spec.scalar_number scalar digits.now) }
{
    if scalar.is_float() {
        if is_hexadecimal(without_sign(digits)) && !has_exponent(digits) {
            Ok(None)
        } else {
            float_of(alloc, digits)
        }
    } else if scalar.is_bool() {
        Ok(bool_number(digits))
    } else {
        match integer(digits) {
            Some(number) if scalar.fits(number) => Ok(Some(Value::Integer(number))),
            _ => Ok(None),
        }
    }
}

fn scalar_word(alloc: Global, scalar: Scalar, word: &[u8]) -> Result<Option<Value>, AllocError>
    ensures { IfOk result (λ o. option_map value_of o ≡ spec.scalar_word scalar word.now) }
{
    if is_null(word) {
        Ok(Some(Value::Absent))
    } else if scalar.is_float() {
        if is_float_name(word) {
            float_of(alloc, word)
        } else {
            Ok(None)
        }
    } else if scalar.is_bool() {
        Ok(named_bool(word))
    } else {
        Ok(None)
    }
}

fn scalar_quoted(alloc: Global, scalar: Scalar, text: &[u8]) -> Result<Option<Value>, AllocError>
    ensures { IfOk result (λ o. option_map value_of o ≡ spec.scalar_quoted scalar text.now) }
{
    if is_number(text) {
        scalar_number(alloc, scalar, text)
    } else {
        scalar_word(alloc, scalar, text)
    }
}

fn scalar_default(
    alloc: Global,
    scalar: Scalar,
    literal: &Literal,
) -> Result<Option<Value>, AllocError>
    ensures { IfOk result (λ o. option_map value_of o
        ≡ spec.scalar_default scalar (literal_of literal.now)) }
{
    match literal {
        Literal::Number(digits) => scalar_number(alloc, scalar, digits),
        Literal::Name(path) => match lone_word(path) {
            Some(word) => scalar_word(alloc, scalar, word),
            None => Ok(None),
        },
        Literal::Text(string) => scalar_quoted(alloc, scalar, between_quotes(string)),
        Literal::EmptyVector => Ok(None),
    }
}

fn value_named(variants: &[Variant], name: &[u8], flags: bool) -> Option<Number>
    ensures { result ≡ spec.value_named name.now flags None (map variant_of variants.now) }
{
    let mut previous = None;
    let mut rest = variants;
    'variants: while let Some((variant, after)) = rest.split_first() {
        let number = match number_of(previous, variant) {
            Some(number) => number,
            None => return None,
        };
        if variant.name.as_slice() == name {
            return settled(flags, number);
        }
        previous = Some(number);
        rest = after;
    }
    None
}

fn has_value(variants: &[Variant], number: Number) -> bool
    ensures { result ≡ list_any (λ v. enums_spec.same_number v number)
        (enums_spec.numbers_said None (map variant_of variants.now)) }
{
    let mut previous = None;
    let mut rest = variants;
    'variants: while let Some((variant, after)) = rest.split_first() {
        let value = match number_of(previous, variant) {
            Some(value) => value,
            None => return false,
        };
        if same_number(value, number) {
            return true;
        }
        previous = Some(value);
        rest = after;
    }
    false
}

fn named_value(declared: &Enumeration, name: &[u8], flags: bool) -> Option<Number>
    ensures { result ≡ spec.value_named name.now flags None
        (enums_spec.variants_or_none (enumeration_of declared.now).variants) }
{
    if !declared.variants.is_empty() {
        value_named(&declared.variants, name, flags)
    } else if name == b"NONE".as_slice() {
        settled(
            flags,
            Number {
                negative: false,
                magnitude: 0,
            },
        )
    } else {
        None
    }
}

fn is_value(declared: &Enumeration, number: Number) -> bool
    ensures { result ≡ list_any (λ v. enums_spec.same_number v number)
        (enums_spec.numbers_said None (enums_spec.variants_or_none (enumeration_of
        declared.now).variants)) }
{
    if declared.variants.is_empty() {
        !number.negative && number.magnitude == 0
    } else {
        has_value(&declared.variants, number)
    }
}

/// Of an enum of this integer type.
fn is_among_values(scalar: Option<Scalar>, declared: &Enumeration, number: Number) -> bool
    ensures { result ≡ spec.is_among_values scalar (enumeration_of declared.now) number }
{
    if has(&declared.attributes, b"bit_flags") {
        match scalar {
            Some(scalar) => scalar.fits(number),
            None => false,
        }
    } else {
        is_value(declared, number)
    }
}

fn value_name<'a>(declared: &Enumeration, path: &'a Path) -> Option<&'a [u8]>
    ensures { option_map (λ w. w.now) result
        ≡ spec.value_name (enumeration_of declared.now) (path_of path.now) }
{
    match path.more.as_slice() {
        [] => Some(&path.first),
        [name] if path.first.as_slice() == declared.name.as_slice() => Some(name),
        _ => None,
    }
}

fn value_in(declared: &Enumeration, name: &[u8]) -> Option<Value>
    ensures { option_map value_of result
        ≡ spec.value_in (enumeration_of declared.now) (Some name.now) }
{
    let flags = has(&declared.attributes, b"bit_flags");
    match named_value(declared, name, flags) {
        Some(number) => Some(Value::Integer(number)),
        None => None,
    }
}

fn enum_named(declared: &Enumeration, path: &Path) -> Option<Value>
    ensures { option_map value_of result
        ≡ spec.enum_named (enumeration_of declared.now) (path_of path.now) }
{
    match value_name(declared, path) {
        Some(name) => value_in(declared, name),
        None => None,
    }
}

fn enum_number(scalar: Option<Scalar>, declared: &Enumeration, digits: &[u8]) -> Option<Value>
    ensures { option_map value_of result
        ≡ spec.number_default scalar (enumeration_of declared.now) (integer_said digits.now) }
{
    match integer(digits) {
        Some(number) if is_among_values(scalar, declared, number) => Some(Value::Integer(number)),
        _ => None,
    }
}

fn flags_named(declared: &Enumeration, words: &[Vec<u8>]) -> Option<u64>
    ensures { result ≡ spec.flags_named (enumeration_of declared.now) (names_of words.now) }
{
    let mut total = 0;
    'words: for word in words {
        match named_value(declared, word, true) {
            Some(number) => total |= number.magnitude,
            None => return None,
        }
    }
    Some(total)
}

fn flags_default(
    alloc: Global,
    declared: &Enumeration,
    text: &[u8],
) -> Result<Option<Value>, AllocError>
    ensures { IfOk result (λ o. option_map value_of o
        ≡ spec.as_flags (spec.flags_named (enumeration_of declared.now)
        (names_spec.cut_words [] text.now))) }
{
    let words = or_return!(cut_words(alloc, text));
    match flags_named(declared, &words) {
        Some(magnitude) => Ok(Some(Value::Integer(Number {
            negative: false,
            magnitude,
        }))),
        None => Ok(None),
    }
}

fn enum_quoted(
    alloc: Global,
    scalar: Option<Scalar>,
    declared: &Enumeration,
    text: &[u8],
) -> Result<Option<Value>, AllocError>
    ensures { IfOk result (λ o. option_map value_of o
        ≡ spec.enum_quoted scalar (enumeration_of declared.now) text.now) }
{
    if is_number(text) {
        Ok(enum_number(scalar, declared, text))
    } else if is_null(text) {
        Ok(Some(Value::Absent))
    } else if has(&declared.attributes, b"bit_flags") {
        flags_default(alloc, declared, text)
    } else {
        Ok(value_in(declared, text))
    }
}

fn enum_word(declared: &Enumeration, path: &Path) -> Option<Value>
    ensures { option_map value_of result
        ≡ spec.null_or (spec.lone_word (path_of path.now))
        (spec.enum_named (enumeration_of declared.now) (path_of path.now)) }
{
    match lone_word(path) {
        Some(word) if is_null(word) => Some(Value::Absent),
        _ => enum_named(declared, path),
    }
}

fn enum_default(
    alloc: Global,
    scalar: Option<Scalar>,
    declared: &Enumeration,
    literal: &Literal,
) -> Result<Option<Value>, AllocError>
    ensures { IfOk result (λ o. option_map value_of o
        ≡ spec.enum_default scalar (enumeration_of declared.now) (literal_of literal.now)) }
{
    match literal {
        Literal::Number(digits) => Ok(enum_number(scalar, declared, digits)),
        Literal::Name(path) => Ok(enum_word(declared, path)),
        Literal::Text(string) => enum_quoted(alloc, scalar, declared, between_quotes(string)),
        Literal::EmptyVector => Ok(None),
    }
}

fn enum_at<'b>(heads: &'b Heads, index: usize) -> Option<&'b Enumeration>
    ensures { option_map (λ e. enumeration_of e.now) result
        ≡ spec.enum_at (names_spec.item_at (map names_spec.head_of heads.now) index) }
{
    match item_of_head(heads, index) {
        Some(Item::Enum(declared)) => Some(declared),
        _ => None,
    }
}

pub(crate) fn literal_default(
    alloc: Global,
    heads: &Heads,
    integers: &[Option<Scalar>],
    kind: FieldType,
    literal: &Literal,
) -> Result<Option<Value>, AllocError>
    requires { integers.now ≡ enums_spec.integers_of (map names_spec.head_of heads.now) }
    ensures { IfOk result (λ o. spec.some_default (option_map value_of o)
        ≡ spec.default_said (map names_spec.head_of heads.now) kind (Some
        (literal_of literal.now))) }
{
    match (kind.base, literal) {
        (_, Literal::EmptyVector) if kind.vector => Ok(Some(Value::EmptyVector)),
        _ if kind.vector => Ok(None),
        (Base::Scalar(scalar), _) => scalar_default(alloc, scalar, literal),
        (Base::Text, Literal::Text(string)) => {
            let text = or_return!(string_text(alloc, string));
            Ok(Some(Value::Text(text)))
        }
        (Base::Enum(index), _) => match enum_at(heads, index) {
            Some(declared) => enum_default(alloc, integer_at(integers, index), declared, literal),
            None => Ok(None),
        },
        _ => Ok(None),
    }
}

fn zero_default(
    alloc: Global,
    heads: &Heads,
    integers: &[Option<Scalar>],
    base: Base,
    left: usize,
) -> Result<Option<Value>, DeclarationError>
    requires { integers.now ≡ enums_spec.integers_of (map names_spec.head_of heads.now) }
    ensures value { IfOk result (λ o. spec.zero_default (map names_spec.head_of heads.now) base
        ≡ Some (option_map value_of o)) }
    ensures wrong { Tells (when (not (names_spec.is_set (spec.zero_default
        (map names_spec.head_of heads.now) base)))
        FaultKind.UnknownValue left) result }
{
    let zero = Number {
        negative: false,
        magnitude: 0,
    };
    match base {
        Base::Scalar(scalar) if scalar.is_float() => {
            let zero = or_return!(Vec::from_slice(alloc, b"0"), DeclarationError::OutOfMemory);
            Ok(Some(Value::Float(zero)))
        }
        Base::Scalar(_) => Ok(Some(Value::Integer(zero))),
        Base::Enum(index) => match enum_at(heads, index) {
            Some(declared) if is_among_values(integer_at(integers, index), declared, zero) => {
                Ok(Some(Value::Integer(zero)))
            }
            _ => Err(wrong(FaultKind::UnknownValue, left)),
        },
        _ => Ok(None),
    }
}

pub(crate) fn default_of(
    alloc: Global,
    heads: &Heads,
    integers: &[Option<Scalar>],
    kind: FieldType,
    literal: &Option<Literal>,
    left: usize,
) -> Result<Option<Value>, DeclarationError>
    requires { integers.now ≡ enums_spec.integers_of (map names_spec.head_of heads.now) }
    ensures value { IfOk result (λ o. spec.default_said (map names_spec.head_of heads.now) kind
        (option_map literal_of literal.now) ≡ Some (option_map value_of o)) }
    ensures wrong { Tells (wrong_default (map names_spec.head_of heads.now) kind left literal.now)
        result }
{
    match literal {
        Some(literal) => {
            let value = or_return!(
                literal_default(alloc, heads, integers, kind, literal),
                DeclarationError::OutOfMemory
            );
            match value {
                Some(_) => Ok(value),
                None => Err(wrong(FaultKind::WrongDefault, left)),
            }
        }
        None if kind.vector => Ok(None),
        None => zero_default(alloc, heads, integers, kind.base, left),
    }
}
