//! The words of schemas that a break is about: a declaration, or a part of one.

ghost use Rattle.std.specs.Prelude.{◌≡◌, position};
ghost use Rattle.std.specs.Option.{option_map};
ghost use Rattle.planus_cli.specs.Parts as spec;

use planus_conform::{Break, Change, Place, Rename, body_if, named, renamed, same_number};
use planus_schema::{
    Body, Declared, EnumValue, Number, Schema, StructField, TableField, UnionMember,
};

/// A declaration by its index, and a part of it by its index.
#[derive(Clone, Copy)]
pub struct Word {
    pub declaration: Option<usize>,
    /// A field, a value or a member.
    pub part: Option<usize>,
}

fn at_slot(fields: &[TableField], slot: usize) -> Option<usize>
    ensures { result ≡ position (spec.has_slot slot) fields.now }
{
    fields.iter().position(|f| f.slot == slot)
}

fn at_distance(fields: &[StructField], distance: usize) -> Option<usize>
    ensures { result ≡ position (spec.has_distance distance) fields.now }
{
    fields.iter().position(|f| f.distance == distance)
}

fn at_number(values: &[EnumValue], number: Number) -> Option<usize>
    ensures { result ≡ position (spec.has_number number) values.now }
{
    values.iter().position(|v| same_number(v.number, number))
}

fn at_tag(members: &[UnionMember], tag: u8) -> Option<usize>
    ensures { result ≡ position (spec.has_tag tag) members.now }
{
    members.iter().position(|m| m.tag == tag)
}

/// Returns the index of the part that has this place.
fn part_at(body: &Body, place: Place) -> Option<usize>
    ensures { result ≡ spec.part_at body.now place }
{
    match (body, place) {
        (Body::Table(table), Place::Field(_, slot)) => at_slot(&table.fields, slot),
        (Body::Struct(body), Place::Part(_, distance)) => at_distance(&body.fields, distance),
        (Body::Enum(body), Place::Value(_, number)) => at_number(&body.values, number),
        (Body::Union(body), Place::Member(_, tag)) => at_tag(&body.members, tag),
        _ => None,
    }
}

fn field_named(fields: &[TableField], name: &[u8]) -> Option<usize>
    ensures { result ≡ position (spec.is_field name.now) fields.now }
{
    fields.iter().position(|f| f.name.as_slice() == name)
}

fn struct_field_named(fields: &[StructField], name: &[u8]) -> Option<usize>
    ensures { result ≡ position (spec.is_part name.now) fields.now }
{
    fields.iter().position(|f| f.name.as_slice() == name)
}

fn value_named(values: &[EnumValue], name: &[u8]) -> Option<usize>
    ensures { result ≡ position (spec.is_value name.now) values.now }
{
    values.iter().position(|v| v.name.as_slice() == name)
}

fn member_named(members: &[UnionMember], name: &[u8]) -> Option<usize>
    ensures { result ≡ position (spec.is_member name.now) members.now }
{
    members.iter().position(|m| m.name.as_slice() == name)
}

/// Returns the index of the part that has this name.
fn part_named(body: &Body, name: &[u8]) -> Option<usize>
    ensures { result ≡ spec.part_named body.now name.now }
{
    match body {
        Body::Table(table) => field_named(&table.fields, name),
        Body::Struct(body) => struct_field_named(&body.fields, name),
        Body::Enum(body) => value_named(&body.values, name),
        Body::Union(body) => member_named(&body.members, name),
    }
}

fn part_name(body: &Body, index: usize) -> Option<&[u8]>
    ensures { option_map (λ w. w.now) result ≡ spec.part_name body.now index }
{
    match body {
        Body::Table(table) => match table.fields.get(index) {
            Some(field) => Some(&field.name),
            None => None,
        },
        Body::Struct(body) => match body.fields.get(index) {
            Some(field) => Some(&field.name),
            None => None,
        },
        Body::Enum(body) => match body.values.get(index) {
            Some(value) => Some(&value.name),
            None => None,
        },
        Body::Union(body) => match body.members.get(index) {
            Some(member) => Some(&member.name),
            None => None,
        },
    }
}

fn is_required(body: &Body, index: usize) -> bool
    ensures { result ≡ spec.is_required body.now index }
{
    match body {
        Body::Table(table) => match table.fields.get(index) {
            Some(field) => field.required,
            None => false,
        },
        _ => false,
    }
}

/// Returns the declaration of the old schema that a place is in.
fn declaration_in(place: Place) -> Option<usize>
    ensures { result ≡ spec.declaration_in place }
{
    match place {
        Place::Declaration(index)
        | Place::Field(index, _)
        | Place::Part(index, _)
        | Place::Value(index, _)
        | Place::Member(index, _) => Some(index),
        Place::Root | Place::Identifier => None,
    }
}

/// Returns the declaration of the new schema that is that of the old one.
fn declaration_after(
    renames: &[Rename],
    old: &[Declared],
    new: &[Declared],
    index: Option<usize>,
) -> Option<usize>
    ensures { result ≡ spec.declaration_after renames.now old.now new.now index }
{
    match declared_name(old, index) {
        Some(name) => named(new, renamed(renames, name)),
        None => None,
    }
}

fn declared_name(declared: &[Declared], index: Option<usize>) -> Option<&[u8]>
    ensures { option_map (λ w. w.now) result ≡ spec.declared_name declared.now index }
{
    match index {
        Some(index) => match declared.get(index) {
            Some(one) => Some(&one.name),
            None => None,
        },
        None => None,
    }
}

fn part_if(body: Option<&Body>, place: Place) -> Option<usize>
    ensures { result ≡ spec.part_if (option_map (λ b. b.now) body.entry) place }
{
    match body {
        Some(body) => part_at(body, place),
        None => None,
    }
}

/// Returns the name of a part.
fn name_if(body: Option<&Body>, part: Option<usize>) -> Option<&[u8]>
    ensures { option_map (λ w. w.now) result
        ≡ spec.name_if (option_map (λ b. b.now) body.entry) part }
{
    match (body, part) {
        (Some(body), Some(part)) => part_name(body, part),
        _ => None,
    }
}

fn is_moved(change: Change) -> bool
    ensures { result ≡ spec.is_moved change }
{
    matches!(change, Change::Moved)
}

/// Returns what is to be reported in the old schema.
pub(crate) fn old_word(old: &[Declared], one: Break) -> Word
    ensures { result ≡ spec.old_word old.now one }
{
    let declaration = declaration_in(one.place);
    let part = part_if(body_if(old, declaration), one.place);
    Word { declaration, part }
}

/// Returns the part of the new declaration that is that of the old one: by its place, or by the name
/// of what is moved.
fn part_after(body: Option<&Body>, name: Option<&[u8]>, one: Break) -> Option<usize>
    ensures { result ≡ spec.part_after (option_map (λ b. b.now) body.entry)
        (option_map (λ w. w.now) name.entry) one }
{
    match (body, name) {
        (Some(body), Some(name)) if is_moved(one.change) => part_named(body, name),
        (Some(body), _) => part_at(body, one.place),
        (None, _) => None,
    }
}

/// Returns what is to be reported in the new schema.
pub(crate) fn new_word(renames: &[Rename], old: &[Declared], new: &[Declared], one: Break) -> Word
    ensures { result ≡ spec.new_word renames.now old.now new.now one }
{
    let before = old_word(old, one);
    let name = name_if(body_if(old, before.declaration), before.part);
    let declaration = declaration_after(renames, old, new, before.declaration);
    let part = part_after(body_if(new, declaration), name, one);
    Word { declaration, part }
}

/// Returns what a statement says: the name of the root, or the identifier.
fn stated_name(schema: &Schema, place: Place) -> Option<&[u8]>
    ensures { option_map (λ w. w.now) result ≡ spec.stated_name schema.now place }
{
    match place {
        Place::Root => declared_name(&schema.declarations, schema.statements.root),
        Place::Identifier => match &schema.statements.identifier {
            Some(identifier) => Some(identifier),
            None => None,
        },
        _ => None,
    }
}

/// Returns the name of a part in the new schema, or else in the old one.
pub(crate) fn part_told<'a>(
    old: &'a Schema,
    before: Word,
    new: &'a Schema,
    after: Word,
) -> Option<&'a [u8]>
    ensures { option_map (λ w. w.now) result ≡ spec.part_told old.now before new.now after }
{
    let old_body = body_if(&old.declarations, before.declaration);
    let new_body = body_if(&new.declarations, after.declaration);
    name_if(new_body, after.part).or(name_if(old_body, before.part))
}

/// Returns the name of a declaration in the new schema, or else in the old one.
pub(crate) fn declaration_told<'a>(
    old: &'a Schema,
    before: Word,
    new: &'a Schema,
    after: Word,
) -> Option<&'a [u8]>
    ensures { option_map (λ w. w.now) result ≡ spec.declaration_told old.now before new.now after }
{
    declared_name(&new.declarations, after.declaration).or(declared_name(
        &old.declarations,
        before.declaration,
    ))
}

/// Returns what a statement says in the new schema, or else in the old one.
fn statement_told<'a>(old: &'a Schema, new: &'a Schema, place: Place) -> Option<&'a [u8]>
    ensures { option_map (λ w. w.now) result ≡ spec.statement_told old.now new.now place }
{
    stated_name(new, place).or(stated_name(old, place))
}

/// Returns the name that a message begins with: that of the part; where there is none, that of the
/// declaration, or what the statement says.
pub(crate) fn subject<'a>(
    old: &'a Schema,
    before: Word,
    new: &'a Schema,
    after: Word,
    place: Place,
) -> &'a [u8]
    ensures { result.now ≡ spec.subject old.now before new.now after place }
{
    part_told(old, before, new, after)
        .or(declaration_told(old, before, new, after))
        .or(statement_told(old, new, place))
        .unwrap_or(&[])
}

/// Returns whether a word is a field that is `required`.
pub(crate) fn is_needed(declared: &[Declared], word: Word) -> bool
    ensures { result ≡ spec.is_needed declared.now word }
{
    match (body_if(declared, word.declaration), word.part) {
        (Some(body), Some(part)) => is_required(body, part),
        _ => false,
    }
}
