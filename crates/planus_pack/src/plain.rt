//! Values of a fixed size, as bytes.

ghost use Rattle.std.specs.Prelude.{◌≡◌, length, map, OnOk};
ghost use Rattle.planus_json_syntax.specs.Values.{json_view, member_view};
ghost use Rattle.planus_pack.specs.Plain as spec;
ghost use Rattle.planus_pack.specs.Results.{Gives};

use crate::floats::scalar_at;
use crate::lookup::{enum_at, is_struct_field, struct_at};
use crate::numbers::{enum_at as number_of_enum, push_number};
use crate::pack_error::PackError;
use crate::pack_fault::PackFault;
use crate::values::{given, items_of, members_of};
use planus_json_syntax::{Json, Member};
use planus_schema::{Base, Declared, Enum, Scalar, Struct, StructField};
use std::alloc::AllocError;

fn place_of(key: &[u8], members: &[Member]) -> Option<usize>
    ensures { result ≡ spec.place_of key.now (map member_view members.now) }
{
    let mut rest = members;
    'members: while let Some((first, after)) = rest.split_first() {
        if first.key.as_bytes() == key {
            return Some(first.at);
        }
        rest = after;
    }
    None
}

/// Fails where a key stands again.
fn each_once(members: &[Member]) -> Result<usize, PackError>
    ensures { Gives (λ n. n) result (spec.each_once (map member_view members.now)) }
{
    let mut rest = members;
    'members: while let Some((first, after)) = rest.split_first() {
        if let Some(at) = place_of(first.key.as_bytes(), after) {
            let kind = PackFault::GivenTwice;
            return Err(PackError::Fault { at, kind });
        }
        rest = after;
    }
    Ok(0)
}

fn each_known(fields: &[StructField], members: &[Member]) -> Result<usize, PackError>
    ensures { Gives (λ n. n) result (spec.each_known fields.now (map member_view members.now)) }
{
    let mut rest = members;
    'members: while let Some((first, after)) = rest.split_first() {
        if !is_struct_field(first.key.as_bytes(), fields) {
            let (at, kind) = (first.at, PackFault::UnknownKey);
            return Err(PackError::Fault { at, kind });
        }
        rest = after;
    }
    Ok(0)
}

fn push_zeros(bytes: &mut Vec<u8>, count: usize) -> Result<(), AllocError>
    ensures { OnOk result (bytes.new.items ≡ spec.with_zeros count bytes.old.items) }
{
    let mut left = count;
    'zeros: while 0 < left {
        bytes.push(0)?;
        left -= 1;
    }
    Ok(())
}

fn pad(bytes: &mut Vec<u8>, start: usize, distance: usize) -> Result<(), AllocError>
    ensures { OnOk result (bytes.new.items ≡ spec.padded start distance bytes.old.items) }
{
    let there = bytes.len().saturating_sub(start);
    push_zeros(bytes, distance.saturating_sub(there))
}

fn with_scalar(scalar: Scalar, bytes: &mut Vec<u8>, json: &Json) -> Result<(), PackError>
    ensures { Gives (λ _. bytes.new.items) result
        (spec.with_scalar scalar bytes.old.items (json_view json.now)) }
{
    let number = or_return!(scalar_at(scalar, json));
    push_number(bytes, scalar.size(), number)?;
    Ok(())
}

fn with_enum(one: &Enum, bytes: &mut Vec<u8>, json: &Json) -> Result<(), PackError>
    ensures { Gives (λ _. bytes.new.items) result
        (spec.with_enum one.now bytes.old.items (json_view json.now)) }
{
    let number = or_return!(number_of_enum(one, json));
    push_number(bytes, one.scalar.size(), number)?;
    Ok(())
}

/// Adds a value of this type; structs in it nest to this depth.
#[cycle(plain)]
pub(crate) fn with_plain(
    declared: &[Declared],
    depth: usize,
    base: Base,
    bytes: &mut Vec<u8>,
    json: &Json,
) -> Result<(), PackError>
    ensures { Gives (λ _. bytes.new.items) result
        (spec.with_plain declared.now depth base bytes.old.items (json_view json.now)) }
{
    let (at, kind) = (json.at, PackFault::Unsupported);
    match base {
        Base::Scalar(scalar) => with_scalar(scalar, bytes, json),
        Base::Enum(index) => match enum_at(declared, index) {
            Some(one) => with_enum(one, bytes, json),
            None => Err(PackError::Fault { at, kind }),
        },
        Base::Struct(index) => with_struct(declared, depth, index, bytes, json),
        _ => Err(PackError::Fault { at, kind }),
    }
}

/// Adds the items of a list.
#[cycle(plain)]
pub(crate) fn with_each(
    declared: &[Declared],
    depth: usize,
    base: Base,
    bytes: &mut Vec<u8>,
    items: &[Json],
) -> Result<(), PackError>
    ensures { Gives (λ _. bytes.new.items) result (spec.with_each
        (spec.with_plain declared.now depth base) bytes.old.items (map json_view items.now)) }
{
    let mut rest = items;
    'items: while let Some((first, after)) = rest.split_first() {
        or_return!(with_plain(declared, depth, base, bytes, first));
        rest = after;
    }
    Ok(())
}

#[cycle(plain)]
fn with_array(
    declared: &[Declared],
    depth: usize,
    base: Base,
    count: usize,
    bytes: &mut Vec<u8>,
    json: &Json,
) -> Result<(), PackError>
    ensures { Gives (λ _. bytes.new.items) result (spec.with_array
        (spec.with_plain declared.now depth base) count bytes.old.items (json_view json.now)) }
{
    let at = json.at;
    let Some(items) = items_of(&json.value) else {
        let kind = PackFault::WrongKind;
        return Err(PackError::Fault { at, kind });
    };
    if items.len() != count {
        let kind = PackFault::WrongLength;
        return Err(PackError::Fault { at, kind });
    }
    with_each(declared, depth, base, bytes, items)
}

#[cycle(plain)]
fn with_value(
    declared: &[Declared],
    depth: usize,
    field: &StructField,
    bytes: &mut Vec<u8>,
    json: &Json,
) -> Result<(), PackError>
    ensures { Gives (λ _. bytes.new.items) result
        (spec.with_value (spec.with_plain declared.now depth field.now.base) field.now.count
        bytes.old.items (json_view json.now)) }
{
    match field.count {
        Some(count) => with_array(declared, depth, field.base, count, bytes, json),
        None => with_plain(declared, depth, field.base, bytes, json),
    }
}

/// Adds a field of the struct that begins at `start`.
#[cycle(plain)]
fn with_field(
    declared: &[Declared],
    depth: usize,
    at: usize,
    members: &[Member],
    start: usize,
    field: &StructField,
    bytes: &mut Vec<u8>,
) -> Result<(), PackError>
    ensures { Gives (λ _. bytes.new.items) result
        (spec.with_field declared.now (spec.with_struct declared.now depth) at
        (map member_view members.now) start field.now bytes.old.items) }
{
    let Some(json) = given(&field.name, members) else {
        let kind = PackFault::MissingField;
        return Err(PackError::Fault { at, kind });
    };
    pad(bytes, start, field.distance)?;
    with_value(declared, depth, field, bytes, json)
}

#[cycle(plain)]
fn with_fields(
    declared: &[Declared],
    depth: usize,
    at: usize,
    members: &[Member],
    start: usize,
    fields: &[StructField],
    bytes: &mut Vec<u8>,
) -> Result<(), PackError>
    ensures { Gives (λ _. bytes.new.items) result
        (spec.with_fields declared.now (spec.with_struct declared.now depth) at
        (map member_view members.now) start fields.now bytes.old.items) }
{
    let mut rest = fields;
    'fields: while let Some((first, after)) = rest.split_first() {
        or_return!(with_field(declared, depth, at, members, start, first, bytes));
        rest = after;
    }
    Ok(())
}

/// Adds a struct; others in it nest to this depth.
#[cycle(plain)]
fn with_struct_of(
    declared: &[Declared],
    depth: usize,
    one: &Struct,
    bytes: &mut Vec<u8>,
    json: &Json,
) -> Result<(), PackError>
    ensures { Gives (λ _. bytes.new.items) result
        (spec.with_struct_of declared.now (spec.with_struct declared.now depth) one.now
        bytes.old.items (json_view json.now)) }
{
    let (at, kind) = (json.at, PackFault::WrongKind);
    let Some(members) = members_of(&json.value) else {
        return Err(PackError::Fault { at, kind });
    };
    or_return!(each_known(&one.fields, members));
    or_return!(each_once(members));
    let start = bytes.len();
    or_return!(with_fields(declared, depth, at, members, start, &one.fields, bytes));
    pad(bytes, start, one.size)?;
    Ok(())
}

#[cycle(plain)]
fn with_struct_at(
    declared: &[Declared],
    depth: usize,
    index: usize,
    bytes: &mut Vec<u8>,
    json: &Json,
) -> Result<(), PackError>
    ensures { Gives (λ _. bytes.new.items) result
        (spec.with_struct_at declared.now (spec.with_struct declared.now depth) index
        bytes.old.items (json_view json.now)) }
{
    match struct_at(declared, index) {
        Some(one) => with_struct_of(declared, depth, one, bytes, json),
        None => {
            let (at, kind) = (json.at, PackFault::Unsupported);
            Err(PackError::Fault { at, kind })
        }
    }
}

#[cycle(plain)]
fn with_struct(
    declared: &[Declared],
    depth: usize,
    index: usize,
    bytes: &mut Vec<u8>,
    json: &Json,
) -> Result<(), PackError>
    ensures { Gives (λ _. bytes.new.items) result
        (spec.with_struct declared.now depth index bytes.old.items (json_view json.now)) }
{
    if depth == 0 {
        let (at, kind) = (json.at, PackFault::TooDeep);
        return Err(PackError::Fault { at, kind });
    }
    with_struct_at(declared, depth - 1, index, bytes, json)
}
