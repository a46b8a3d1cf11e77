//! Enums.

ghost use Rattle.std.specs.Prelude.{◌≡◌, ◌<◌, ◌∷◌, true, false, map, IfOk, IfSome, [], Some, None};
ghost use Rattle.std.specs.Prelude.{if◌then◌else◌};
ghost use Rattle.planus_syntax.specs.Values.{variant_of, enumeration_of};
ghost use Rattle.planus_resolve.specs.Enums as spec;
ghost use Rattle.planus_resolve.specs.Wrong.{Tells};
ghost use Rattle.planus_resolve.specs.inner.Numbers.{AreNumbers};
ghost use Rattle.planus_resolve.specs.WrongEnums.{wrong_value, wrong_names};
ghost use Rattle.planus_resolve.specs.WrongEnums.{wrong_values, wrong_enum};
ghost use Rattle.planus_schema.specs.Distinct.{AreDistinct};

use crate::attributes::has;
use crate::fault::{DeclarationError, FaultKind, or_return, wrong};
use crate::names::{copied, take_key};
use crate::taken::Taken;
use planus_schema::{Enum, EnumValue, Number, Scalar, following, integer};
use planus_syntax::{Enumeration, Variant};
use std::alloc::{AllocError, Global};
use std::collections::BTreeMap;

pub(crate) fn number_of(previous: Option<Number>, variant: &Variant) -> Option<Number>
    ensures { result ≡ spec.number_said previous (variant_of variant.now).value }
{
    match &variant.value {
        Some(digits) => integer(digits),
        None => match previous {
            Some(number) => following(number),
            None => Some(Number {
                negative: false,
                magnitude: 0,
            }),
        },
    }
}

pub(crate) fn value_of(flags: bool, number: Number) -> Option<Number>
    ensures { result ≡ spec.settled_said flags number }
{
    if !flags {
        Some(number)
    } else if !number.negative && number.magnitude < 64 {
        Some(Number {
            negative: false,
            magnitude: 1 << number.magnitude,
        })
    } else {
        None
    }
}

pub(crate) fn same_number(a: Number, b: Number) -> bool
    ensures { result ≡ spec.same_number a b }
{
    (if a.negative { b.negative } else { !b.negative }) && a.magnitude == b.magnitude
}

fn add_value(
    alloc: Global,
    scalar: Scalar,
    taken: &mut Taken,
    values: &mut Vec<EnumValue>,
    variant: &Variant,
    number: Number,
) -> Result<(), DeclarationError>
    requires { AreNumbers taken.old (map spec.number_of_value values.old.items) }
    ensures taken { IfOk result (λ _. AreNumbers taken.new (map spec.number_of_value
        values.new.items)) }
    ensures added { IfOk result (λ _. spec.IsValueAdded scalar (variant_of variant.now) number
        values.old.items values.new.items) }
    ensures wrong { Tells (wrong_value scalar (map spec.number_of_value values.old.items)
        variant.now
        (Some number)) result }
{
    if !scalar.fits(number) {
        return Err(wrong(FaultKind::ValueOutOfRange, variant.left));
    }
    let new = or_return!(taken.take(number), DeclarationError::OutOfMemory);
    if !new {
        return Err(wrong(FaultKind::ValueTaken, variant.left));
    }
    let name = or_return!(
        Vec::from_slice(alloc, &variant.name),
        DeclarationError::OutOfMemory
    );
    let docs = or_return!(copied(alloc, &variant.docs), DeclarationError::OutOfMemory);
    values.push(EnumValue { name, docs, number })?;
    Ok(())
}

fn check_names(alloc: Global, variants: &[Variant]) -> Result<(), DeclarationError>
    ensures distinct { IfOk result (λ _. AreDistinct (map (λ v. v.name)
        (map variant_of variants.now))) }
    ensures wrong { Tells (wrong_names [] variants.now) result }
{
    let mut names = BTreeMap::new(alloc);
    'variants: for variant in variants {
        let new = or_return!(
            take_key(&mut names, &variant.name),
            DeclarationError::OutOfMemory
        );
        if !new {
            return Err(wrong(FaultKind::ValueNameTaken, variant.left));
        }
    }
    Ok(())
}

fn enum_values(
    alloc: Global,
    scalar: Scalar,
    flags: bool,
    variants: &[Variant],
) -> Result<Vec<EnumValue>, DeclarationError>
    ensures says { IfOk result (λ values. spec.AreValues scalar flags (map variant_of variants.now)
        values.items) }
    ensures wrong { Tells (wrong_values scalar flags None [] variants.now) result }
{
    let mut taken = Taken::new(alloc);
    let mut values = Vec::new(alloc);
    let mut previous = None;
    'variants: for variant in variants {
        let number = match number_of(previous, variant) {
            Some(number) => number,
            None => return Err(wrong(FaultKind::ValueOutOfRange, variant.left)),
        };
        let value = match value_of(flags, number) {
            Some(value) => value,
            None => return Err(wrong(FaultKind::ValueOutOfRange, variant.left)),
        };
        or_return!(add_value(alloc, scalar, &mut taken, &mut values, variant, value));
        previous = Some(number);
    }
    Ok(values)
}

fn none_number(flags: bool) -> Number
    ensures { result ≡ record { negative = false; magnitude = if flags then 1 else 0 } }
{
    Number {
        negative: false,
        magnitude: if flags { 1 } else { 0 },
    }
}

fn none_alone(alloc: Global, scalar: Scalar, flags: bool) -> Result<Vec<EnumValue>, AllocError>
    requires { spec.is_integer_type scalar ≡ true }
    ensures says { IfOk result (λ values. spec.AreValues scalar flags (spec.none_variant ∷ [])
        values.items) }
{
    let name = or_return!(Vec::from_slice(alloc, b"NONE"));
    let number = none_number(flags);
    let mut values = Vec::new(alloc);
    values.push(EnumValue {
        name,
        docs: Vec::new(alloc),
        number,
    })?;
    Ok(values)
}

fn values_or_none(
    alloc: Global,
    scalar: Scalar,
    flags: bool,
    variants: &[Variant],
) -> Result<Vec<EnumValue>, DeclarationError>
    requires { spec.is_integer_type scalar ≡ true }
    ensures says { IfOk result (λ values. spec.AreValues scalar flags
        (spec.variants_or_none (map variant_of variants.now)) values.items) }
    ensures wrong { Tells (wrong_values scalar flags None [] variants.now) result }
{
    if variants.is_empty() {
        let values = or_return!(
            none_alone(alloc, scalar, flags),
            DeclarationError::OutOfMemory
        );
        return Ok(values);
    }
    enum_values(alloc, scalar, flags, variants)
}

/// Returns an enum of this integer type.
pub(crate) fn enum_of(
    alloc: Global,
    integer: Option<Scalar>,
    declared: &Enumeration,
) -> Result<Enum, DeclarationError>
    requires { IfSome integer (λ s. spec.is_integer_type s ≡ true) }
    ensures says { IfOk result (λ e. spec.SaysEnum integer (enumeration_of declared.now) e) }
    ensures sound { IfOk result (λ e. spec.IsEnum e) }
    ensures wrong { Tells (wrong_enum integer declared.now) result }
{
    let flags = has(&declared.attributes, b"bit_flags");
    let scalar = match integer {
        Some(scalar) => scalar,
        None => return Err(wrong(FaultKind::NoIntegerType, declared.base.left)),
    };
    or_return!(check_names(alloc, &declared.variants));
    let values = or_return!(values_or_none(alloc, scalar, flags, &declared.variants));
    Ok(Enum {
        scalar,
        flags,
        values,
    })
}
