//! The types of unions.

ghost use Rattle.std.specs.Prelude.{◌≡◌, List, map};
ghost use Rattle.std.specs.Option.{option_map};
ghost use Rattle.planus.specs.Steps.{bare_field};
ghost use Rattle.planus_json_syntax.specs.Values.{json_view, member_view};
ghost use Rattle.planus_pack.specs.Fields.{FieldV};
ghost use Rattle.planus_pack.specs.Parts.{object_view};
ghost use Rattle.planus_pack.specs.Results.{Gives};
ghost use Rattle.planus_pack.specs.Unions as spec;

use crate::fields::with_slot;
use crate::lookup::{is_no_member, member_called, union_at};
use crate::object::Object;
use crate::pack_error::PackError;
use crate::pack_fault::PackFault;
use crate::values::{given, is_null, stands_again, word_of};
use planus::{Field, FieldValue};
use planus_json_syntax::{Json, Member};
use planus_schema::{Base, Declared, FieldType, TableField, Union, UnionMember};

/// Returns the member that a union's type names, if any.
pub(crate) fn chosen<'a>(one: &'a Union, json: &Json) -> Result<Option<&'a UnionMember>, PackError>
    ensures { Gives (option_map (λ m. m.now)) result
        (spec.chosen one.now (json_view json.now)) }
{
    let (at, kind) = (json.at, PackFault::UnknownName);
    let Some(text) = word_of(&json.value) else {
        return Err(PackError::Fault { at, kind });
    };
    let word = text.as_bytes();
    if is_no_member(word) {
        return Ok(None);
    }
    match member_called(word, &one.members) {
        Some(member) => Ok(Some(member)),
        None => Err(PackError::Fault { at, kind }),
    }
}

fn union_index(base: Base) -> Option<usize>
    ensures { result ≡ spec.union_index base }
{
    match base {
        Base::Union(index) => Some(index),
        _ => None,
    }
}

/// Returns the union of a field, or of its vector.
pub(crate) fn union_in(declared: &[Declared], kind: FieldType) -> Option<&Union>
    ensures { option_map (λ u. u.now) result ≡ spec.union_in declared.now kind }
{
    match union_index(kind.base) {
        Some(index) => union_at(declared, index),
        None => None,
    }
}

fn gives(name: &[u8], object: &Object<'_>) -> bool
    ensures { result ≡ spec.gives name.now (object_view object.now) }
{
    given(name, object.members).is_some()
}

/// Adds the type of a union, whose key is at `at`; the object has to give a value for it.
fn type_slot(
    object: &Object<'_>,
    at: usize,
    field: &TableField,
    fields: &mut Vec<Field>,
    member: Option<&UnionMember>,
) -> Result<(), PackError>
    ensures { Gives (λ _. map bare_field fields.new.items) result
        (spec.type_slot (object_view object.now) at field.now (map bare_field fields.old.items)
        (option_map (λ m. m.now) member.entry)) }
{
    let Some(member) = member else {
        return Ok(());
    };
    if !gives(&field.name, object) {
        let (at, kind) = (object.at, PackFault::LoneUnion);
        return Err(PackError::Fault { at, kind });
    }
    let value = FieldValue::Number {
        width: 1,
        value: u64::from(member.tag),
    };
    with_slot(at, field.slot.saturating_sub(1), value, fields)
}

/// The types of a vector of unions are written where its values are.
fn types_beside(object: &Object<'_>, field: &TableField) -> Result<(), PackError>
    ensures { (fields : List FieldV) → Gives (λ _. fields) result
        (spec.types_beside (object_view object.now) field.now fields) }
{
    if gives(&field.name, object) {
        Ok(())
    } else {
        let (at, kind) = (object.at, PackFault::LoneUnion);
        Err(PackError::Fault { at, kind })
    }
}

/// Adds both parts of a vector of unions.
pub(crate) fn with_unions(
    at: usize,
    slot: usize,
    number: usize,
    fields: &mut Vec<Field>,
) -> Result<(), PackError>
    ensures { Gives (λ _. map bare_field fields.new.items) result
        (spec.with_unions at slot number (map bare_field fields.old.items)) }
{
    or_return!(with_slot(at, slot.saturating_sub(1), FieldValue::Tags(number), fields));
    with_slot(at, slot, FieldValue::Values(number), fields)
}

fn type_of(
    declared: &[Declared],
    object: &Object<'_>,
    fields: &mut Vec<Field>,
    member: &Member,
    field: &TableField,
) -> Result<(), PackError>
    ensures { Gives (λ _. map bare_field fields.new.items) result
        (spec.type_of declared.now (object_view object.now) (map bare_field fields.old.items)
        (member_view member.now) field.now) }
{
    if field.kind.vector {
        return types_beside(object, field);
    }
    let json = &member.value;
    let Some(one) = union_in(declared, field.kind) else {
        let (at, kind) = (json.at, PackFault::Unsupported);
        return Err(PackError::Fault { at, kind });
    };
    let named = or_return!(chosen(one, json));
    type_slot(object, member.at, field, fields, named)
}

/// Adds a member whose key is that of the type of a union.
pub(crate) fn with_type(
    declared: &[Declared],
    object: &Object<'_>,
    fields: &mut Vec<Field>,
    member: &Member,
    field: &TableField,
) -> Result<(), PackError>
    ensures { Gives (λ _. map bare_field fields.new.items) result
        (spec.with_type declared.now (object_view object.now) (map bare_field fields.old.items)
        (member_view member.now) field.now) }
{
    if is_null(&member.value.value) {
        return Ok(());
    }
    if stands_again(member, object.members) {
        let (at, kind) = (member.at, PackFault::GivenTwice);
        return Err(PackError::Fault { at, kind });
    }
    type_of(declared, object, fields, member, field)
}
