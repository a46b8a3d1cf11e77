//! What changes a user's code alone.

ghost use Rattle.std.specs.Prelude.{◌≡◌, ◌++◌, IfOk, OnOk};
ghost use Rattle.std.specs.Option.{option_map};
ghost use Rattle.planus_resolve.specs.Defaults.{value_of};
ghost use Rattle.planus_conform.specs.Notes as spec;

use crate::breaks::{Break, Change, Place, Way};
use crate::conform::body_if;
use crate::defaults::same_number;
use crate::enums::value_change;
use crate::fields::{field_change, field_in};
use crate::matching::{match_at, matches_of};
use crate::rename::Rename;
use crate::structs::{part_change, part_in};
use crate::unions::{member_change, member_in};
use crate::ways::{change_if, meets_old, note};
use planus_schema::{
    Body, Declared, EnumValue, Number, Schema, StructField, TableField, UnionMember, Value,
};
use std::alloc::{AllocError, Global};

fn unless_broken(broken: Option<Change>, note: Option<Change>) -> Option<Change>
    ensures { result ≡ spec.unless_broken broken note }
{
    match broken {
        Some(_) => None,
        None => note,
    }
}

fn has_field(fields: &[TableField], name: &[u8]) -> bool
    ensures { result ≡ spec.has_field fields.now name.now }
{
    fields
        .iter()
        .any(|f| f.name.as_slice() == name && !f.deprecated)
}

fn is_respelled(old: &Option<Value>, new: &Option<Value>) -> bool
    ensures { result ≡ spec.is_respelled (option_map value_of old.now)
        (option_map value_of new.now) }
{
    match (old, new) {
        (Some(Value::Float(old)), Some(Value::Float(new))) => old.as_slice() != new.as_slice(),
        _ => false,
    }
}

fn kept_note(before: &[TableField], f: &TableField, g: &TableField) -> Option<Change>
    ensures { result ≡ spec.kept_note before.now f.now g.now }
{
    if !has_field(before, &g.name) {
        Some(Change::Renamed)
    } else {
        change_if(
            is_respelled(&f.default, &g.default),
            Change::DefaultRespelled,
        )
    }
}

fn field_note_to(before: &[TableField], f: &TableField, g: Option<&TableField>) -> Option<Change>
    ensures { result ≡ spec.field_note_to before.now f.now (option_map (λ g. g.now) g.entry) }
{
    let Some(g) = g else {
        return None;
    };
    if g.deprecated {
        None
    } else {
        kept_note(before, f, g)
    }
}

fn field_note(
    way: Way,
    matches: &[Option<usize>],
    fields: &[TableField],
    before: &[TableField],
    f: &TableField,
) -> Option<Change>
    ensures { result ≡ spec.field_note way matches.now fields.now before.now f.now }
{
    if f.deprecated {
        return None;
    }
    unless_broken(
        field_change(way, matches, fields, f),
        field_note_to(before, f, field_in(fields, f.slot)),
    )
}

fn note_fields(
    notes: &mut Vec<Break>,
    way: Way,
    matches: &[Option<usize>],
    declaration: usize,
    fields: &[TableField],
    before: &[TableField],
) -> Result<(), AllocError>
    ensures { OnOk result (notes.new.items ≡ notes.old.items
        ++ spec.field_notes way matches.now declaration fields.now before.now before.now) }
{
    'fields: for f in before {
        note(
            notes,
            Place::Field(declaration, f.slot),
            field_note(way, matches, fields, before, f),
        )?;
    }
    Ok(())
}

fn has_part(fields: &[StructField], name: &[u8]) -> bool
    ensures { result ≡ spec.has_part fields.now name.now }
{
    fields.iter().any(|f| f.name.as_slice() == name)
}

fn part_note_to(before: &[StructField], g: Option<&StructField>) -> Option<Change>
    ensures { result ≡ spec.part_note_to before.now (option_map (λ g. g.now) g.entry) }
{
    match g {
        Some(g) => change_if(!has_part(before, &g.name), Change::Renamed),
        None => None,
    }
}

fn part_note(
    matches: &[Option<usize>],
    fields: &[StructField],
    before: &[StructField],
    f: &StructField,
) -> Option<Change>
    ensures { result ≡ spec.part_note matches.now fields.now before.now f.now }
{
    unless_broken(
        part_change(matches, fields, f),
        part_note_to(before, part_in(fields, f.distance)),
    )
}

fn note_parts(
    notes: &mut Vec<Break>,
    matches: &[Option<usize>],
    declaration: usize,
    fields: &[StructField],
    before: &[StructField],
) -> Result<(), AllocError>
    ensures { OnOk result (notes.new.items ≡ notes.old.items
        ++ spec.part_notes matches.now declaration fields.now before.now before.now) }
{
    'fields: for f in before {
        note(
            notes,
            Place::Part(declaration, f.distance),
            part_note(matches, fields, before, f),
        )?;
    }
    Ok(())
}

fn value_in(values: &[EnumValue], number: Number) -> Option<&EnumValue>
    ensures { option_map (λ u. u.now) result ≡ spec.value_in values.now number }
{
    'values: for value in values {
        if same_number(number, value.number) {
            return Some(value);
        }
    }
    None
}

fn has_value(values: &[EnumValue], name: &[u8]) -> bool
    ensures { result ≡ spec.has_value values.now name.now }
{
    values.iter().any(|v| v.name.as_slice() == name)
}

fn value_note_to(before: &[EnumValue], u: Option<&EnumValue>) -> Option<Change>
    ensures { result ≡ spec.value_note_to before.now (option_map (λ u. u.now) u.entry) }
{
    match u {
        Some(u) => change_if(!has_value(before, &u.name), Change::Renamed),
        None => None,
    }
}

fn value_note(
    met: bool,
    values: &[EnumValue],
    before: &[EnumValue],
    v: &EnumValue,
) -> Option<Change>
    ensures { result ≡ spec.value_note met values.now before.now v.now }
{
    unless_broken(
        value_change(met, values, v),
        value_note_to(before, value_in(values, v.number)),
    )
}

fn note_values(
    notes: &mut Vec<Break>,
    met: bool,
    declaration: usize,
    values: &[EnumValue],
    before: &[EnumValue],
) -> Result<(), AllocError>
    ensures { OnOk result (notes.new.items ≡ notes.old.items
        ++ spec.value_notes met declaration values.now before.now before.now) }
{
    'values: for v in before {
        note(
            notes,
            Place::Value(declaration, v.number),
            value_note(met, values, before, v),
        )?;
    }
    Ok(())
}

fn has_member(members: &[UnionMember], name: &[u8]) -> bool
    ensures { result ≡ spec.has_member members.now name.now }
{
    members.iter().any(|a| a.name.as_slice() == name)
}

fn member_note_to(before: &[UnionMember], b: Option<&UnionMember>) -> Option<Change>
    ensures { result ≡ spec.member_note_to before.now (option_map (λ b. b.now) b.entry) }
{
    match b {
        Some(b) => change_if(!has_member(before, &b.name), Change::Renamed),
        None => None,
    }
}

fn member_note(
    met: bool,
    matches: &[Option<usize>],
    members: &[UnionMember],
    before: &[UnionMember],
    a: &UnionMember,
) -> Option<Change>
    ensures { result ≡ spec.member_note met matches.now members.now before.now a.now }
{
    unless_broken(
        member_change(met, matches, members, a),
        member_note_to(before, member_in(members, a.tag)),
    )
}

fn note_members(
    notes: &mut Vec<Break>,
    met: bool,
    matches: &[Option<usize>],
    declaration: usize,
    members: &[UnionMember],
    before: &[UnionMember],
) -> Result<(), AllocError>
    ensures { OnOk result (notes.new.items ≡ notes.old.items
        ++ spec.member_notes met matches.now declaration members.now before.now before.now) }
{
    'members: for a in before {
        note(
            notes,
            Place::Member(declaration, a.tag),
            member_note(met, matches, members, before, a),
        )?;
    }
    Ok(())
}

fn note_kind(
    notes: &mut Vec<Break>,
    way: Way,
    matches: &[Option<usize>],
    index: usize,
    before: &Body,
    after: &Body,
) -> Result<(), AllocError>
    ensures { OnOk result (notes.new.items
        ≡ notes.old.items ++ spec.notes_to way matches.now index before.now after.now) }
{
    match (before, after) {
        (Body::Table(before), Body::Table(after)) => {
            note_fields(notes, way, matches, index, &after.fields, &before.fields)
        }
        (Body::Struct(before), Body::Struct(after)) => {
            note_parts(notes, matches, index, &after.fields, &before.fields)
        }
        (Body::Enum(before), Body::Enum(after)) => {
            let met = meets_old(way) && !before.flags;
            note_values(notes, met, index, &after.values, &before.values)
        }
        (Body::Union(before), Body::Union(after)) => {
            let met = meets_old(way);
            note_members(notes, met, matches, index, &after.members, &before.members)
        }
        _ => Ok(()),
    }
}

fn note_body(
    notes: &mut Vec<Break>,
    way: Way,
    matches: &[Option<usize>],
    index: usize,
    before: &Body,
    after: Option<&Body>,
) -> Result<(), AllocError>
    ensures { OnOk result (notes.new.items ≡ notes.old.items
        ++ spec.body_notes way matches.now index before.now (option_map
        (λ b. b.now) after.entry)) }
{
    match after {
        Some(after) => note_kind(notes, way, matches, index, before, after),
        None => Ok(()),
    }
}

fn note_declared(
    notes: &mut Vec<Break>,
    way: Way,
    matches: &[Option<usize>],
    new: &[Declared],
    index: usize,
    one: &Declared,
) -> Result<(), AllocError>
    ensures { OnOk result (notes.new.items
        ≡ notes.old.items ++ spec.declared_notes way matches.now new.now index one.now) }
{
    let after = body_if(new, match_at(matches, index));
    note_body(notes, way, matches, index, &one.body, after)
}

fn note_all(
    notes: &mut Vec<Break>,
    way: Way,
    matches: &[Option<usize>],
    old: &[Declared],
    new: &[Declared],
) -> Result<(), AllocError>
    ensures { OnOk result (notes.new.items
        ≡ notes.old.items ++ spec.notes_from way matches.now new.now 0 old.now) }
{
    let mut index = 0;
    'declared: for one in old {
        note_declared(notes, way, matches, new, index, one)?;
        index += 1;
    }
    Ok(())
}

/// Returns what changes a user's code alone where the new schema replaces the old one: of each part
/// of the old schema that doesn't break, whether it has another name, or else a default that is written
/// otherwise.
pub fn notes_of(
    alloc: Global,
    way: Way,
    renames: &[Rename],
    old: &Schema,
    new: &Schema,
) -> Result<Vec<Break>, AllocError>
    ensures { IfOk result (λ found. found.items ≡ spec.notes_of way renames.now old.now new.now) }
{
    let matches = matches_of(alloc, renames, &old.declarations, &new.declarations)?;
    let mut notes = Vec::new(alloc);
    note_all(
        &mut notes,
        way,
        &matches,
        &old.declarations,
        &new.declarations,
    )?;
    Ok(notes)
}
