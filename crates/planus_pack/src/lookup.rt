//! Names and indices in a schema.

ghost use Rattle.std.specs.Prelude.{◌≡◌, map, slice_get};
ghost use Rattle.std.specs.Option.{option_map};
ghost use Rattle.planus_json_syntax.specs.Values.{json_view, member_view};
ghost use Rattle.planus_pack.specs.Lookup as spec;

use crate::numbers::integer_in;
use crate::values::is_null;
use planus_json_syntax::{Json, Member};
use planus_schema::{
    Body, Declared, Enum, Number, Struct, StructField, Table, TableField, Union, UnionMember,
    is_union,
};

fn declared_at(declared: &[Declared], index: usize) -> Option<&Declared>
    ensures { option_map (λ d. d.now) result ≡ slice_get declared.now index }
{
    declared.get(index)
}

fn enum_of(body: &Body) -> Option<&Enum>
    ensures { option_map (λ x. x.now) result ≡ spec.enum_of body.now }
{
    match body {
        Body::Enum(one) => Some(one),
        _ => None,
    }
}

fn struct_of(body: &Body) -> Option<&Struct>
    ensures { option_map (λ x. x.now) result ≡ spec.struct_of body.now }
{
    match body {
        Body::Struct(one) => Some(one),
        _ => None,
    }
}

fn table_of(body: &Body) -> Option<&Table>
    ensures { option_map (λ x. x.now) result ≡ spec.table_of body.now }
{
    match body {
        Body::Table(one) => Some(one),
        _ => None,
    }
}

fn union_of(body: &Body) -> Option<&Union>
    ensures { option_map (λ x. x.now) result ≡ spec.union_of body.now }
{
    match body {
        Body::Union(one) => Some(one),
        _ => None,
    }
}

pub(crate) fn enum_at(declared: &[Declared], index: usize) -> Option<&Enum>
    ensures { option_map (λ x. x.now) result ≡ spec.enum_at declared.now index }
{
    match declared_at(declared, index) {
        Some(one) => enum_of(&one.body),
        None => None,
    }
}

pub(crate) fn struct_at(declared: &[Declared], index: usize) -> Option<&Struct>
    ensures { option_map (λ x. x.now) result ≡ spec.struct_at declared.now index }
{
    match declared_at(declared, index) {
        Some(one) => struct_of(&one.body),
        None => None,
    }
}

pub(crate) fn table_at(declared: &[Declared], index: usize) -> Option<&Table>
    ensures { option_map (λ x. x.now) result ≡ spec.table_at declared.now index }
{
    match declared_at(declared, index) {
        Some(one) => table_of(&one.body),
        None => None,
    }
}

pub(crate) fn union_at(declared: &[Declared], index: usize) -> Option<&Union>
    ensures { option_map (λ x. x.now) result ≡ spec.union_at declared.now index }
{
    match declared_at(declared, index) {
        Some(one) => union_of(&one.body),
        None => None,
    }
}

fn is_type_key(name: &[u8], key: &[u8]) -> bool
    ensures { result ≡ spec.is_type_key name.now key.now }
{
    match key.split_at_checked(name.len()) {
        Some((front, rest)) => front == name && rest == b"_type".as_slice(),
        None => false,
    }
}

fn is_type_of(key: &[u8], field: &TableField) -> bool
    ensures { result ≡ spec.is_type_of key.now field.now }
{
    is_union(field.kind) && is_type_key(&field.name, key)
}

/// Returns the first field with this name.
pub(crate) fn field_named<'a>(key: &[u8], fields: &'a [TableField]) -> Option<&'a TableField>
    ensures { option_map (λ f. f.now) result ≡ spec.field_named key.now fields.now }
{
    let mut rest = fields;
    'fields: while let Some((first, after)) = rest.split_first() {
        if first.name.as_slice() == key {
            return Some(first);
        }
        rest = after;
    }
    None
}

/// Returns the first union of whose type this is the key.
pub(crate) fn union_typed<'a>(key: &[u8], fields: &'a [TableField]) -> Option<&'a TableField>
    ensures { option_map (λ f. f.now) result ≡ spec.union_typed key.now fields.now }
{
    let mut rest = fields;
    'fields: while let Some((first, after)) = rest.split_first() {
        if is_type_of(key, first) {
            return Some(first);
        }
        rest = after;
    }
    None
}

pub(crate) fn is_struct_field(key: &[u8], fields: &[StructField]) -> bool
    ensures { result ≡ spec.is_struct_field key.now fields.now }
{
    let mut rest = fields;
    'fields: while let Some((first, after)) = rest.split_first() {
        if first.name.as_slice() == key {
            return true;
        }
        rest = after;
    }
    false
}

/// Returns what is given as the type of a union.
pub(crate) fn type_given<'a>(name: &[u8], members: &'a [Member]) -> Option<&'a Json>
    ensures { option_map (λ j. json_view j.now) result
        ≡ spec.type_given name.now (map member_view members.now) }
{
    let mut rest = members;
    'members: while let Some((first, after)) = rest.split_first() {
        if is_type_key(name, first.key.as_bytes()) && !is_null(&first.value.value) {
            return Some(&first.value);
        }
        rest = after;
    }
    None
}

/// Returns whether a word says that a union has no value.
pub(crate) fn is_no_member(word: &[u8]) -> bool
    ensures { result ≡ spec.is_no_member word.now }
{
    if word == b"NONE".as_slice() {
        return true;
    }
    match integer_in(word) {
        Some(number) => number.magnitude == 0,
        None => false,
    }
}

fn is_number(tag: u8, number: Option<Number>) -> bool
    ensures { result ≡ spec.is_number tag number }
{
    match number {
        Some(number) => !number.negative && number.magnitude == u64::from(tag),
        None => false,
    }
}

/// Returns the first member with this name or number.
pub(crate) fn member_called<'a>(word: &[u8], members: &'a [UnionMember]) -> Option<&'a UnionMember>
    ensures { option_map (λ m. m.now) result ≡ spec.member_called word.now members.now }
{
    let number = integer_in(word);
    let mut rest = members;
    'members: while let Some((first, after)) = rest.split_first() {
        if first.name.as_slice() == word || is_number(first.tag, number) {
            return Some(first);
        }
        rest = after;
    }
    None
}
