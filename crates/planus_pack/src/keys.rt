//! Vectors of tables that have a key, in the order of their keys.

ghost use Rattle.std.specs.Prelude.{◌≡◌, [], map, slice_get, IfOk, OnOk};
ghost use Rattle.std.specs.Option.{option_map};
ghost use Rattle.planus.specs.Steps.{bare_field, bare_step, content_of};
ghost use Rattle.planus_pack.specs.Keys as spec;

use crate::defaults::{default_number, scalar_of};
use crate::lookup::table_at;
use crate::numbers::push_number;
use planus::{Field, FieldValue, Step};
use planus_schema::{Base, Declared, Number, Scalar, TableField, is_key};
use std::alloc::{AllocError, Global};
use std::collections::BTreeSet;

fn is_signed(scalar: Scalar) -> bool
    ensures { result ≡ spec.is_signed scalar }
{
    scalar.fits(Number {
        negative: true,
        magnitude: 1,
    })
}

fn complemented(alloc: Global, bytes: &[u8]) -> Result<Vec<u8>, AllocError>
    ensures { IfOk result (λ v. v.items ≡ map spec.complement bytes.now) }
{
    let mut all = Vec::new(alloc);
    let mut rest = bytes;
    'bytes: while let Some((first, after)) = rest.split_first() {
        all.push(255 - *first)?;
        rest = after;
    }
    Ok(all)
}

fn signed_key(alloc: Global, bytes: &[u8]) -> Result<Vec<u8>, AllocError>
    ensures { IfOk result (λ v. v.items ≡ spec.signed_key bytes.now) }
{
    let mut key = Vec::new(alloc);
    if let Some((first, rest)) = bytes.split_first() {
        key.push(first.wrapping_add(128))?;
        key.extend_from_slice(rest)?;
    }
    Ok(key)
}

fn float_key(alloc: Global, bytes: &[u8]) -> Result<Vec<u8>, AllocError>
    ensures { IfOk result (λ v. v.items ≡ spec.float_key bytes.now) }
{
    match bytes.split_first() {
        Some((first, _)) if *first >= 128 => complemented(alloc, bytes),
        _ => signed_key(alloc, bytes),
    }
}

/// Returns bytes whose order is that of the numbers, of the bytes of a number.
fn number_key(alloc: Global, scalar: Scalar, content: &[u8]) -> Result<Vec<u8>, AllocError>
    ensures { IfOk result (λ v. v.items ≡ spec.number_key scalar content.now) }
{
    let mut key = Vec::from_slice(alloc, content)?;
    key.reverse();
    if scalar.is_float() {
        float_key(alloc, &key)
    } else if is_signed(scalar) {
        signed_key(alloc, &key)
    } else {
        Ok(key)
    }
}

/// Returns what the first field with this slot holds.
fn field_in(slot: usize, fields: &[Field]) -> Option<&FieldValue>
    ensures { option_map (λ v. content_of v.now) result
        ≡ spec.field_in slot (map bare_field fields.now) }
{
    let mut rest = fields;
    'fields: while let Some((first, after)) = rest.split_first() {
        if usize::from(first.slot) == slot {
            return Some(&first.value);
        }
        rest = after;
    }
    None
}

fn fields_in(step: Option<&Step>) -> &[Field]
    ensures { map bare_field result.now
        ≡ spec.fields_in (option_map (λ s. bare_step s.now) step.entry) }
{
    match step {
        Some(Step::Table(fields)) => fields,
        _ => &[],
    }
}

fn text_in(step: Option<&Step>) -> &[u8]
    ensures { result.now ≡ spec.text_in (option_map (λ s. bare_step s.now) step.entry) }
{
    match step {
        Some(Step::Text(text)) => text.as_bytes(),
        _ => &[],
    }
}

fn plain_or<'a>(absent: &'a [u8], value: Option<&'a FieldValue>) -> &'a [u8]
    ensures { result.now
        ≡ spec.plain_or absent.now (option_map (λ v. content_of v.now) value.entry) }
{
    match value {
        Some(FieldValue::Plain { bytes, .. }) => bytes,
        _ => absent,
    }
}

fn step_at(steps: &[Step], number: usize) -> Option<&Step>
    ensures { option_map (λ s. bare_step s.now) result
        ≡ slice_get (map bare_step steps.now) number }
{
    steps.get(number)
}

fn referred<'a>(steps: &'a [Step], value: Option<&FieldValue>) -> Option<&'a Step>
    ensures { option_map (λ s. bare_step s.now) result ≡ spec.referred (map bare_step steps.now)
        (option_map (λ v. content_of v.now) value.entry) }
{
    match value {
        Some(FieldValue::Ref(number)) => step_at(steps, *number),
        _ => None,
    }
}

fn absent_bytes(alloc: Global, scalar: Scalar, field: &TableField) -> Result<Vec<u8>, AllocError>
    ensures { IfOk result (λ v. v.items ≡ spec.absent_bytes scalar field.now) }
{
    let mut bytes = Vec::new(alloc);
    if let Some(number) = default_number(scalar, field.default.as_ref()) {
        push_number(&mut bytes, scalar.size(), number)?;
    }
    Ok(bytes)
}

/// Returns the key, in a field, of the table that the step of this number puts.
fn key_of(
    alloc: Global,
    declared: &[Declared],
    steps: &[Step],
    field: &TableField,
    number: usize,
) -> Result<Vec<u8>, AllocError>
    ensures { IfOk result (λ v. v.items
        ≡ spec.key_of declared.now (map bare_step steps.now) field.now number) }
{
    let value = field_in(field.slot, fields_in(step_at(steps, number)));
    match scalar_of(declared, field.kind.base) {
        Some(scalar) => {
            let absent = absent_bytes(alloc, scalar, field)?;
            number_key(alloc, scalar, plain_or(&absent, value))
        }
        None => Vec::from_slice(alloc, text_in(referred(steps, value))),
    }
}

fn first_key(fields: &[TableField]) -> Option<&TableField>
    ensures { option_map (λ f. f.now) result ≡ spec.first_key fields.now }
{
    let mut rest = fields;
    'fields: while let Some((first, after)) = rest.split_first() {
        if is_key(first) {
            return Some(first);
        }
        rest = after;
    }
    None
}

/// Returns the field by which tables of this type are ordered.
fn key_field(declared: &[Declared], base: Base) -> Option<&TableField>
    ensures { option_map (λ f. f.now) result ≡ spec.key_field declared.now base }
{
    let Base::Table(index) = base else {
        return None;
    };
    match table_at(declared, index) {
        Some(table) => first_key(&table.fields),
        None => None,
    }
}

/// Returns the steps' numbers with their tables' keys, in order.
fn in_order(
    alloc: Global,
    declared: &[Declared],
    steps: &[Step],
    field: &TableField,
    numbers: &[usize],
) -> Result<BTreeSet<(Vec<u8>, usize)>, AllocError>
    ensures { IfOk result (λ set. map spec.keyed_view set.keys
        ≡ spec.in_order declared.now (map bare_step steps.now) field.now [] numbers.now) }
{
    let mut set = BTreeSet::new(alloc);
    let mut rest = numbers;
    'numbers: while let Some((first, after)) = rest.split_first() {
        let key = key_of(alloc, declared, steps, field, *first)?;
        set.insert((key, *first))?;
        rest = after;
    }
    Ok(set)
}

fn numbers_of(alloc: Global, set: BTreeSet<(Vec<u8>, usize)>) -> Result<Vec<usize>, AllocError>
    ensures { IfOk result (λ v. v.items ≡ map spec.number (map spec.keyed_view set.keys)) }
{
    let mut rest = set;
    let mut numbers = Vec::new(alloc);
    'keys: while let Some(first) = rest.pop_first() {
        numbers.push(first.1)?;
    }
    Ok(numbers)
}

/// Returns the steps' numbers in the order of their tables' keys, if these have one.
pub(crate) fn in_key_order(
    alloc: Global,
    declared: &[Declared],
    base: Base,
    steps: &[Step],
    numbers: Vec<usize>,
) -> Result<Vec<usize>, AllocError>
    ensures { IfOk result (λ v. v.items
        ≡ spec.in_key_order declared.now base (map bare_step steps.now) numbers.items) }
{
    match key_field(declared, base) {
        Some(field) => numbers_of(alloc, in_order(alloc, declared, steps, field, &numbers)?),
        None => Ok(numbers),
    }
}
