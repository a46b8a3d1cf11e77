//! Tables, and what their fields hold.

ghost use Rattle.std.specs.Prelude.{◌≡◌, ◌≤◌, [], map, IfOk};
ghost use Rattle.planus.specs.Steps.{bare_field, bare_step, content_of};
ghost use Rattle.planus_json_syntax.specs.Values.{json_view, member_view, value_view};
ghost use Rattle.planus_pack.specs.Tables as spec;
ghost use Rattle.planus_pack.specs.Lookup.{union_typed as type_of};
ghost use Rattle.planus_pack.specs.Parts.{object_view};
ghost use Rattle.planus_pack.specs.Results.{Gives};
ghost use Rattle.planus_pack.specs.Rules.{rules_of};

use crate::defaults::is_default;
use crate::fields::{complete, with_slot};
use crate::keys::in_key_order;
use crate::lookup::{field_named, table_at, type_given, union_typed};
use crate::object::Object;
use crate::pack_error::PackError;
use crate::pack_fault::PackFault;
use crate::pack_options::PackOptions;
use crate::plain::{with_each, with_plain};
use crate::rules::Rules;
use crate::unions::{chosen, union_in, with_type, with_unions};
use crate::values::{is_null, items_of, members_of, stands_again, text_of};
use planus::{Field, FieldValue, Step};
use planus_json_syntax::{Json, Member, Value};
use planus_schema::{
    Base, Declared, FieldType, Measure, Schema, Table, TableField, Union, is_union, measure_of,
};
use std::alloc::Global;

/// How deep tables and structs nest.
const MOST_DEPTH: usize = 64;

fn put(steps: &mut Vec<Step>, step: Step) -> Result<usize, PackError>
    ensures { Gives (λ n. (map bare_step steps.new.items, n)) result
        (spec.put (map bare_step steps.old.items) (bare_step step)) }
{
    let number = steps.len();
    steps.push(step)?;
    Ok(number)
}

fn is_plain(base: Base) -> bool
    ensures { result ≡ spec.is_plain base }
{
    match base {
        Base::Scalar(_) | Base::Enum(_) | Base::Struct(_) => true,
        _ => false,
    }
}

fn measured(declared: &[Declared], at: usize, base: Base) -> Result<Measure, PackError>
    ensures gives { Gives (λ m. m) result (spec.measured declared.now at base) }
    ensures small { IfOk result (λ m. m.alignment ≤ 16) }
{
    match measure_of(declared, base) {
        Some(measure) if measure.alignment <= 16 => Ok(measure),
        _ => {
            let kind = PackFault::Unsupported;
            Err(PackError::Fault { at, kind })
        }
    }
}

fn plain_value(
    alloc: Global,
    declared: &[Declared],
    base: Base,
    json: &Json,
) -> Result<(u8, Vec<u8>), PackError>
    ensures { Gives (λ x. (x.0, x.1.items)) result
        (spec.plain_value declared.now base (json_view json.now)) }
{
    let measure = or_return!(measured(declared, json.at, base));
    let mut bytes = Vec::new(alloc);
    or_return!(with_plain(declared, MOST_DEPTH, base, &mut bytes, json));
    Ok((measure.alignment as u8, bytes))
}

fn plain_step(measure: Measure, bytes: Vec<u8>) -> Step
    requires { measure.alignment ≤ 16 }
    ensures { bare_step result ≡ spec.plain_step measure bytes.items }
{
    if measure.size == 1 {
        Step::Bytes(bytes)
    } else {
        Step::Plains {
            alignment: measure.alignment as u8,
            size: measure.size,
            bytes,
        }
    }
}

fn plain_items(
    alloc: Global,
    declared: &[Declared],
    base: Base,
    at: usize,
    items: &[Json],
) -> Result<Step, PackError>
    ensures { Gives bare_step result
        (spec.plain_items declared.now base at (map json_view items.now)) }
{
    let measure = or_return!(measured(declared, at, base));
    let mut bytes = Vec::new(alloc);
    or_return!(with_each(declared, MOST_DEPTH, base, &mut bytes, items));
    Ok(plain_step(measure, bytes))
}

fn put_text(alloc: Global, steps: &mut Vec<Step>, json: &Json) -> Result<usize, PackError>
    ensures { Gives (λ n. (map bare_step steps.new.items, n)) result
        (spec.put_text (map bare_step steps.old.items) (json_view json.now)) }
{
    match text_of(&json.value) {
        Some(text) => {
            let text = String::from_str(alloc, text)?;
            put(steps, Step::Text(text))
        }
        None => {
            let (at, kind) = (json.at, PackFault::WrongKind);
            Err(PackError::Fault { at, kind })
        }
    }
}

fn put_struct(
    alloc: Global,
    declared: &[Declared],
    base: Base,
    steps: &mut Vec<Step>,
    json: &Json,
) -> Result<usize, PackError>
    ensures { Gives (λ n. (map bare_step steps.new.items, n)) result
        (spec.put_struct declared.now base (map bare_step steps.old.items) (json_view json.now)) }
{
    let (alignment, bytes) = or_return!(plain_value(alloc, declared, base, json));
    put(steps, Step::Struct { alignment, bytes })
}

/// Puts a value that is referred to; tables are children in it to this depth.
#[cycle(tables)]
fn refer(
    alloc: Global,
    rules: &Rules<'_>,
    depth: usize,
    base: Base,
    steps: &mut Vec<Step>,
    json: &Json,
) -> Result<usize, PackError>
    ensures { Gives (λ n. (map bare_step steps.new.items, n)) result (spec.refer (rules_of rules.now)
        (spec.with_table (rules_of rules.now) depth) base
        (map bare_step steps.old.items) (json_view json.now)) }
{
    match base {
        Base::Text => put_text(alloc, steps, json),
        Base::Struct(_) => put_struct(alloc, rules.declared, base, steps, json),
        Base::Table(index) => with_table(alloc, rules, depth, index, steps, json),
        _ => {
            let (at, kind) = (json.at, PackFault::Unsupported);
            Err(PackError::Fault { at, kind })
        }
    }
}

#[cycle(tables)]
fn refer_each(
    alloc: Global,
    rules: &Rules<'_>,
    depth: usize,
    base: Base,
    steps: &mut Vec<Step>,
    items: &[Json],
) -> Result<Vec<usize>, PackError>
    ensures { Gives (λ found. (map bare_step steps.new.items, found.items)) result
        (spec.refer_each (rules_of rules.now)
        (spec.with_table (rules_of rules.now) depth) base
        (map bare_step steps.old.items) [] (map json_view items.now)) }
{
    let mut found = Vec::new(alloc);
    let mut rest = items;
    'items: while let Some((first, after)) = rest.split_first() {
        let number = or_return!(refer(alloc, rules, depth, base, steps, first));
        found.push(number)?;
        rest = after;
    }
    Ok(found)
}

#[cycle(tables)]
fn vector(
    alloc: Global,
    rules: &Rules<'_>,
    depth: usize,
    base: Base,
    steps: &mut Vec<Step>,
    json: &Json,
) -> Result<usize, PackError>
    ensures { Gives (λ n. (map bare_step steps.new.items, n)) result (spec.vector (rules_of rules.now)
        (spec.with_table (rules_of rules.now) depth) base
        (map bare_step steps.old.items) (json_view json.now)) }
{
    let Some(items) = items_of(&json.value) else {
        let (at, kind) = (json.at, PackFault::WrongKind);
        return Err(PackError::Fault { at, kind });
    };
    if is_plain(base) {
        let step = or_return!(plain_items(alloc, rules.declared, base, json.at, items));
        return put(steps, step);
    }
    let found = or_return!(refer_each(alloc, rules, depth, base, steps, items));
    let ordered = in_key_order(alloc, rules.declared, base, steps, found)?;
    put(steps, Step::Refs(ordered))
}

/// Returns what a field holds that is no union.
#[cycle(tables)]
fn content(
    alloc: Global,
    rules: &Rules<'_>,
    depth: usize,
    kind: FieldType,
    steps: &mut Vec<Step>,
    json: &Json,
) -> Result<FieldValue, PackError>
    ensures { Gives (λ value. (map bare_step steps.new.items, content_of value)) result
        (spec.content (rules_of rules.now)
        (spec.with_table (rules_of rules.now) depth) kind
        (map bare_step steps.old.items) (json_view json.now)) }
{
    if kind.vector {
        let number = or_return!(vector(alloc, rules, depth, kind.base, steps, json));
        return Ok(FieldValue::Ref(number));
    }
    if is_plain(kind.base) {
        let (alignment, bytes) = or_return!(plain_value(alloc, rules.declared, kind.base, json));
        return Ok(FieldValue::Plain { alignment, bytes });
    }
    let number = or_return!(refer(alloc, rules, depth, kind.base, steps, json));
    Ok(FieldValue::Ref(number))
}

#[cycle(tables)]
fn union_value(
    alloc: Global,
    rules: &Rules<'_>,
    depth: usize,
    object: &Object<'_>,
    field: &TableField,
    one: &Union,
    steps: &mut Vec<Step>,
    json: &Json,
) -> Result<FieldValue, PackError>
    ensures { Gives (λ value. (map bare_step steps.new.items, content_of value)) result
        (spec.union_value (rules_of rules.now)
        (spec.with_table (rules_of rules.now) depth)
        (object_view object.now) field.now one.now
        (map bare_step steps.old.items) (json_view json.now)) }
{
    let (at, kind) = (object.at, PackFault::LoneUnion);
    let Some(named) = type_given(&field.name, object.members) else {
        return Err(PackError::Fault { at, kind });
    };
    let Some(member) = or_return!(chosen(one, named)) else {
        return Err(PackError::Fault { at, kind });
    };
    let number = or_return!(refer(alloc, rules, depth, member.base, steps, json));
    Ok(FieldValue::Ref(number))
}

/// Returns an item of a vector of unions: its tag, and the number of its value.
#[cycle(tables)]
fn union_item(
    alloc: Global,
    rules: &Rules<'_>,
    depth: usize,
    one: &Union,
    steps: &mut Vec<Step>,
    named: &Json,
    json: &Json,
) -> Result<(u8, usize), PackError>
    ensures { Gives (λ item. (map bare_step steps.new.items, item)) result
        (spec.union_item (rules_of rules.now)
        (spec.with_table (rules_of rules.now) depth) one.now
        (map bare_step steps.old.items) (json_view named.now) (json_view json.now)) }
{
    let Some(member) = or_return!(chosen(one, named)) else {
        let (at, kind) = (named.at, PackFault::Unsupported);
        return Err(PackError::Fault { at, kind });
    };
    let number = or_return!(refer(alloc, rules, depth, member.base, steps, json));
    Ok((member.tag, number))
}

#[cycle(tables)]
fn union_items(
    alloc: Global,
    rules: &Rules<'_>,
    depth: usize,
    one: &Union,
    steps: &mut Vec<Step>,
    types: &[Json],
    items: &[Json],
) -> Result<Vec<(u8, usize)>, PackError>
    ensures { Gives (λ found. (map bare_step steps.new.items, found.items)) result
        (spec.union_items (rules_of rules.now)
        (spec.with_table (rules_of rules.now) depth) one.now
        (map bare_step steps.old.items) [] (map json_view types.now) (map json_view items.now)) }
{
    let mut found = Vec::new(alloc);
    let mut named = types;
    let mut rest = items;
    'types: while let Some((first, after)) = named.split_first() {
        let Some((item, others)) = rest.split_first() else {
            return Ok(found);
        };
        let one = or_return!(union_item(alloc, rules, depth, one, steps, first, item));
        found.push(one)?;
        named = after;
        rest = others;
    }
    Ok(found)
}

/// Puts a vector of unions.
#[cycle(tables)]
fn union_vector(
    alloc: Global,
    rules: &Rules<'_>,
    depth: usize,
    object: &Object<'_>,
    field: &TableField,
    one: &Union,
    steps: &mut Vec<Step>,
    json: &Json,
) -> Result<usize, PackError>
    ensures { Gives (λ n. (map bare_step steps.new.items, n)) result (spec.union_vector (rules_of rules.now)
        (spec.with_table (rules_of rules.now) depth)
        (object_view object.now) field.now one.now
        (map bare_step steps.old.items) (json_view json.now)) }
{
    let Some(named) = type_given(&field.name, object.members) else {
        let (at, kind) = (object.at, PackFault::LoneUnion);
        return Err(PackError::Fault { at, kind });
    };
    let Some(types) = items_of(&named.value) else {
        let (at, kind) = (named.at, PackFault::WrongKind);
        return Err(PackError::Fault { at, kind });
    };
    let at = json.at;
    let Some(items) = items_of(&json.value) else {
        let kind = PackFault::WrongKind;
        return Err(PackError::Fault { at, kind });
    };
    if types.len() != items.len() {
        let kind = PackFault::WrongLength;
        return Err(PackError::Fault { at, kind });
    }
    let found = or_return!(union_items(alloc, rules, depth, one, steps, types, items));
    put(steps, Step::Unions(found))
}

/// Returns whether a field's buffer is given by an object.
fn is_nested(field: &TableField, value: &Value) -> bool
    ensures { result ≡ spec.is_nested field.now (value_view value.now) }
{
    field.nested.is_some() && members_of(value).is_some()
}

#[cycle(tables)]
fn field_value(
    alloc: Global,
    rules: &Rules<'_>,
    depth: usize,
    object: &Object<'_>,
    field: &TableField,
    steps: &mut Vec<Step>,
    json: &Json,
) -> Result<FieldValue, PackError>
    ensures { Gives (λ value. (map bare_step steps.new.items, content_of value)) result
        (spec.field_value (rules_of rules.now)
        (spec.with_table (rules_of rules.now) depth)
        (object_view object.now) field.now
        (map bare_step steps.old.items) (json_view json.now)) }
{
    let (at, kind) = (json.at, PackFault::Unsupported);
    if is_nested(field, &json.value) {
        return Err(PackError::Fault { at, kind });
    }
    if !is_union(field.kind) {
        return content(alloc, rules, depth, field.kind, steps, json);
    }
    match union_in(rules.declared, field.kind) {
        Some(one) => union_value(alloc, rules, depth, object, field, one, steps, json),
        None => Err(PackError::Fault { at, kind }),
    }
}

/// Returns whether a field is left out, as its absence reads the same.
fn is_omitted(rules: &Rules<'_>, field: &TableField, value: &FieldValue) -> bool
    ensures { result ≡ spec.is_omitted (rules_of rules.now) field.now (content_of value.now) }
{
    rules.options.omit_defaults && is_default(rules.declared, field, value)
}

fn slotted(
    rules: &Rules<'_>,
    at: usize,
    field: &TableField,
    value: FieldValue,
    fields: &mut Vec<Field>,
) -> Result<(), PackError>
    ensures { Gives (λ _. map bare_field fields.new.items) result
        (spec.slotted (rules_of rules.now) at field.now (content_of value)
        (map bare_field fields.old.items)) }
{
    if is_omitted(rules, field, &value) {
        return Ok(());
    }
    with_slot(at, field.slot, value, fields)
}

/// Adds a vector of unions.
#[cycle(tables)]
fn unions_member(
    alloc: Global,
    rules: &Rules<'_>,
    depth: usize,
    object: &Object<'_>,
    steps: &mut Vec<Step>,
    fields: &mut Vec<Field>,
    member: &Member,
    field: &TableField,
) -> Result<(), PackError>
    ensures { Gives (λ _. (map bare_step steps.new.items, map bare_field fields.new.items)) result
        (spec.unions_member (rules_of rules.now)
        (spec.with_table (rules_of rules.now) depth)
        (object_view object.now) (map bare_step steps.old.items)
        (map bare_field fields.old.items) (member_view member.now) field.now) }
{
    let json = &member.value;
    let Some(one) = union_in(rules.declared, field.kind) else {
        let (at, kind) = (json.at, PackFault::Unsupported);
        return Err(PackError::Fault { at, kind });
    };
    let number = or_return!(union_vector(alloc, rules, depth, object, field, one, steps, json));
    with_unions(member.at, field.slot, number, fields)
}

/// Adds a member that gives a field.
#[cycle(tables)]
fn given_value(
    alloc: Global,
    rules: &Rules<'_>,
    depth: usize,
    object: &Object<'_>,
    steps: &mut Vec<Step>,
    fields: &mut Vec<Field>,
    member: &Member,
    field: &TableField,
) -> Result<(), PackError>
    ensures { Gives (λ _. (map bare_step steps.new.items, map bare_field fields.new.items)) result
        (spec.given_value (rules_of rules.now)
        (spec.with_table (rules_of rules.now) depth)
        (object_view object.now) (map bare_step steps.old.items)
        (map bare_field fields.old.items) (member_view member.now) field.now) }
{
    if is_union(field.kind) && field.kind.vector {
        return unions_member(alloc, rules, depth, object, steps, fields, member, field);
    }
    let json = &member.value;
    let value = or_return!(field_value(alloc, rules, depth, object, field, steps, json));
    slotted(rules, member.at, field, value, fields)
}

/// Adds a member whose key is the name of a field.
#[cycle(tables)]
fn with_value(
    alloc: Global,
    rules: &Rules<'_>,
    depth: usize,
    object: &Object<'_>,
    steps: &mut Vec<Step>,
    fields: &mut Vec<Field>,
    member: &Member,
    field: &TableField,
) -> Result<(), PackError>
    ensures { Gives (λ _. (map bare_step steps.new.items, map bare_field fields.new.items)) result
        (spec.with_value (rules_of rules.now)
        (spec.with_table (rules_of rules.now) depth)
        (object_view object.now) (map bare_step steps.old.items)
        (map bare_field fields.old.items) (member_view member.now) field.now) }
{
    if is_null(&member.value.value) {
        return Ok(());
    }
    if stands_again(member, object.members) {
        let (at, kind) = (member.at, PackFault::GivenTwice);
        return Err(PackError::Fault { at, kind });
    }
    given_value(alloc, rules, depth, object, steps, fields, member, field)
}

/// Returns whether a key is skipped where no field has it.
fn is_skipped(options: PackOptions, key: &[u8]) -> bool
    ensures { result ≡ spec.is_skipped options key.now }
{
    options.skip_unknown || key == b"$schema".as_slice()
}

/// Adds a member whose key is no field's name.
fn other_member(
    rules: &Rules<'_>,
    object: &Object<'_>,
    table: &[TableField],
    fields: &mut Vec<Field>,
    member: &Member,
) -> Result<(), PackError>
    ensures { Gives (λ _. map bare_field fields.new.items) result
        (spec.other_member (rules_of rules.now) (object_view object.now)
        (map bare_field fields.old.items) (member_view member.now)
        (type_of (member_view member.now).key table.now)) }
{
    let key = member.key.as_bytes();
    match union_typed(key, table) {
        Some(field) => with_type(rules.declared, object, fields, member, field),
        None if is_skipped(rules.options, key) => Ok(()),
        None => {
            let (at, kind) = (member.at, PackFault::UnknownKey);
            Err(PackError::Fault { at, kind })
        }
    }
}

#[cycle(tables)]
fn with_member(
    alloc: Global,
    rules: &Rules<'_>,
    depth: usize,
    object: &Object<'_>,
    table: &[TableField],
    steps: &mut Vec<Step>,
    fields: &mut Vec<Field>,
    member: &Member,
) -> Result<(), PackError>
    ensures { Gives (λ _. (map bare_step steps.new.items, map bare_field fields.new.items)) result
        (spec.with_member (rules_of rules.now)
        (spec.with_table (rules_of rules.now) depth)
        (object_view object.now) table.now (map bare_step steps.old.items)
        (map bare_field fields.old.items) (member_view member.now)) }
{
    match field_named(member.key.as_bytes(), table) {
        Some(field) => with_value(alloc, rules, depth, object, steps, fields, member, field),
        None => other_member(rules, object, table, fields, member),
    }
}

#[cycle(tables)]
fn with_members(
    alloc: Global,
    rules: &Rules<'_>,
    depth: usize,
    object: &Object<'_>,
    table: &[TableField],
    steps: &mut Vec<Step>,
) -> Result<Vec<Field>, PackError>
    ensures { Gives (λ fields. (map bare_step steps.new.items, map bare_field fields.items)) result
        (spec.with_members (rules_of rules.now)
        (spec.with_table (rules_of rules.now) depth)
        (object_view object.now) table.now (map bare_step steps.old.items) []
        (object_view object.now).members) }
{
    let mut fields = Vec::new(alloc);
    let mut rest = object.members;
    'members: while let Some((first, after)) = rest.split_first() {
        or_return!(with_member(
            alloc,
            rules,
            depth,
            object,
            table,
            steps,
            &mut fields,
            first,
        ));
        rest = after;
    }
    Ok(fields)
}

#[cycle(tables)]
fn table_of(
    alloc: Global,
    rules: &Rules<'_>,
    depth: usize,
    table: &Table,
    steps: &mut Vec<Step>,
    json: &Json,
) -> Result<usize, PackError>
    ensures { Gives (λ n. (map bare_step steps.new.items, n)) result (spec.table_of (rules_of rules.now)
        (spec.with_table (rules_of rules.now) depth) table.now
        (map bare_step steps.old.items) (json_view json.now)) }
{
    let (at, kind) = (json.at, PackFault::WrongKind);
    let Some(members) = members_of(&json.value) else {
        return Err(PackError::Fault { at, kind });
    };
    let object = Object { at, members };
    let fields = or_return!(with_members(alloc, rules, depth, &object, &table.fields, steps,));
    or_return!(complete(at, &fields, &table.fields));
    put(steps, Step::Table(fields))
}

#[cycle(tables)]
fn table_in(
    alloc: Global,
    rules: &Rules<'_>,
    depth: usize,
    index: usize,
    steps: &mut Vec<Step>,
    json: &Json,
) -> Result<usize, PackError>
    ensures { Gives (λ n. (map bare_step steps.new.items, n)) result (spec.table_in (rules_of rules.now)
        (spec.with_table (rules_of rules.now) depth) index
        (map bare_step steps.old.items) (json_view json.now)) }
{
    match table_at(rules.declared, index) {
        Some(table) => table_of(alloc, rules, depth, table, steps, json),
        None => {
            let (at, kind) = (json.at, PackFault::Unsupported);
            Err(PackError::Fault { at, kind })
        }
    }
}

#[cycle(tables)]
fn with_table(
    alloc: Global,
    rules: &Rules<'_>,
    depth: usize,
    index: usize,
    steps: &mut Vec<Step>,
    json: &Json,
) -> Result<usize, PackError>
    ensures { Gives (λ n. (map bare_step steps.new.items, n)) result
        (spec.with_table (rules_of rules.now) depth index
        (map bare_step steps.old.items) (json_view json.now)) }
{
    if depth == 0 {
        let (at, kind) = (json.at, PackFault::TooDeep);
        return Err(PackError::Fault { at, kind });
    }
    table_in(alloc, rules, depth - 1, index, steps, json)
}

/// Returns the steps by which [`planus::replay`] writes the table that an object means: the last
/// writes it. `root` is the index of the table's declaration.
///
/// Children are written in the order of the text, vectors in the order given, but for those of
/// tables with a key, which are sorted by it: the first of equal ones first. A member that is `null` is as if absent; a field that equals its default is
/// written, unless the options leave it out. A deprecated field is as any other. The member
/// `"$schema"` of a table is skipped.
///
/// Fails with the first fault of the value: of a table's object that of its members in the order of
/// the text, then what is missing. With [`PackFault::Unsupported`] for an object in place of a
/// nested buffer's bytes, `NONE` in a vector of unions, a slot above 255 and an alignment above 16.
pub fn steps_of(
    alloc: Global,
    schema: &Schema,
    root: usize,
    value: &Json,
    options: PackOptions,
) -> Result<Vec<Step>, PackError>
    // Exactly the steps that the value means, or its first fault, unless memory is refused.
    ensures { Gives (λ steps. map bare_step steps.items) result
        (spec.steps_of (spec.rules schema.now options) root (json_view value.now)) }
{
    let mut steps = Vec::new(alloc);
    let rules = Rules {
        declared: &schema.declarations,
        options,
    };
    or_return!(with_table(alloc, &rules, MOST_DEPTH, root, &mut steps, value));
    Ok(steps)
}
