//! Tables.

ghost use Rattle.std.specs.Prelude.{◌≡◌, ◌≤◌, ◌+◌, ◌∷◌, [], true, false, not, ◌&&◌, ◌||◌, map};
ghost use Rattle.std.specs.Prelude.{IfOk, List, Some, codes, ◌++◌};
ghost use Rattle.planus_syntax.specs.Values.{names_of, field_of, record_of, attribute_of};
ghost use Rattle.planus_syntax.specs.Values.{kind_of};
ghost use Rattle.planus_resolve.specs.inner.Read.{IsFieldRead, AreFieldsRead, AreNamesRead};
ghost use Rattle.planus_resolve.specs.inner.Scopes.{scope_heads, scope_space, HasIntegers};
ghost use Rattle.planus_resolve.specs.Names as names_spec;
ghost use Rattle.planus_resolve.specs.Tables as spec;
ghost use Rattle.planus_resolve.specs.inner.Index.{IsTaken};
ghost use Rattle.planus_syntax.specs.Values.{Name};
ghost use Rattle.planus_resolve.specs.Wrong.{Tells, first, when};
ghost use Rattle.planus_resolve.specs.WrongTables.{wrong_law, wrong_nested, wrong_field};
ghost use Rattle.planus_resolve.specs.WrongTables.{wrong_field_type};
ghost use Rattle.planus_resolve.specs.WrongTables.{wrong_fields, wrong_table_body, are_among};

use crate::attributes::{has, setting};
use crate::defaults::default_of;
use crate::expected::Expected;
use crate::fault::{DeclarationError, FaultKind, or_return, wrong};
use crate::kind::{head_base, is_array, type_of};
use crate::lookup::{Wanted, found};
use crate::names::{copied, take_key};
use crate::scope::Scope;
use crate::slots::{check_slots, field_slot, has_ids};
use planus_schema::{Base, FieldType, Scalar, Table, TableField, is_union, width};
use planus_syntax::{Attribute, Field, Literal, Record, between_quotes};
use std::alloc::{AllocError, Global};
use std::collections::BTreeMap;

fn is_number(kind: FieldType) -> bool
    ensures { result ≡ spec.is_number kind }
{
    match kind.base {
        Base::Scalar(_) | Base::Enum(_) => !kind.vector,
        _ => false,
    }
}

fn may_be_key(kind: FieldType) -> bool
    ensures { result ≡ spec.may_be_key kind }
{
    match kind.base {
        Base::Scalar(_) | Base::Enum(_) | Base::Text => !kind.vector,
        _ => false,
    }
}

fn is_bytes(kind: FieldType) -> bool
    ensures { result ≡ spec.is_bytes kind }
{
    match kind.base {
        Base::Scalar(Scalar::UByte) => kind.vector,
        _ => false,
    }
}

fn is_required(kind: FieldType, field: &Field) -> bool
    ensures { result ≡ spec.is_required kind (field_of field.now) }
{
    has(&field.attributes, b"required")
        || (has(&field.attributes, b"key") && matches!(kind.base, Base::Text))
}

fn check_lawful(
    kind: FieldType,
    required: bool,
    key: bool,
    nested: Option<usize>,
    left: usize,
) -> Result<(), DeclarationError>
    ensures lawful { IfOk result (λ _. (not (required && spec.is_number kind)
        && (not key || spec.may_be_key kind) && (not (names_spec.is_set nested) || spec.is_bytes
        kind)) ≡ true) }
    ensures wrong { Tells (wrong_law required key (names_spec.is_set nested) kind left) result }
{
    if required && is_number(kind) {
        Err(wrong(FaultKind::RequiredScalar, left))
    } else if key && !may_be_key(kind) {
        Err(wrong(FaultKind::WrongKey, left))
    } else if nested.is_some() && !is_bytes(kind) {
        Err(wrong(FaultKind::WrongNested, left))
    } else {
        Ok(())
    }
}

fn table_named(scope: &Scope, text: &[u8], left: usize) -> Result<usize, DeclarationError>
    ensures named { IfOk result (λ i. names_spec.base_found (scope_heads scope.now)
        (names_spec.found (scope_heads scope.now) names_spec.as_record (scope_space scope.now)
        (text.now ∷ []))
        ≡ Some (Base.Table i)) }
    ensures wrong { Tells (when (not (names_spec.is_set (names_spec.table_in (spec.table_found
        (scope_heads scope.now)
        (scope_space scope.now) (Some text.now))))) FaultKind.NestedIsNoTable left) result }
{
    let index = or_return!(
        found(scope, Wanted::Record, text, &[]),
        DeclarationError::OutOfMemory
    );
    match index {
        Some(index) => match head_base(scope.heads, index) {
            Some(Base::Table(table)) => Ok(table),
            _ => Err(wrong(FaultKind::NestedIsNoTable, left)),
        },
        None => Err(wrong(FaultKind::NestedIsNoTable, left)),
    }
}

fn nested_of(scope: &Scope, attributes: &[Attribute]) -> Result<Option<usize>, DeclarationError>
    ensures says { IfOk result (λ o. spec.NestedIs (scope_heads scope.now) (scope_space scope.now)
        (names_spec.setting (codes "nested_flatbuffer") (map attribute_of attributes.now)) o) }
    ensures set { IfOk result (λ o. names_spec.is_set o
        ≡ names_spec.has (codes "nested_flatbuffer") (map attribute_of attributes.now)) }
    ensures wrong { Tells (wrong_nested (scope_heads scope.now) (scope_space scope.now)
        (names_spec.attribute_named (codes "nested_flatbuffer") attributes.now)) result }
{
    match setting(attributes, b"nested_flatbuffer") {
        Some(attribute) => match &attribute.value {
            Some(Literal::Text(string)) => {
                let name = between_quotes(string);
                let table = or_return!(table_named(scope, name, attribute.label.left));
                Ok(Some(table))
            }
            _ => Err(wrong(FaultKind::NestedIsNoTable, attribute.label.left)),
        },
        None => Ok(None),
    }
}

/// Returns the type of a field, which is no array.
fn field_type(scope: &Scope, field: &Field) -> Result<FieldType, DeclarationError>
    ensures named { IfOk result (λ t. names_spec.type_named (scope_heads scope.now)
        (scope_space scope.now)
        (kind_of field.now.kind) ≡ Some t) }
    ensures array { IfOk result (λ _. names_spec.is_array (kind_of field.now.kind) ≡ false) }
    ensures wrong { Tells (wrong_field_type (scope_heads scope.now) (scope_space scope.now)
        field.now) result }
{
    if is_array(&field.kind) {
        return Err(wrong(FaultKind::ArrayInTable, field.left));
    }
    type_of(scope, &field.kind, Expected::AnyType)
}

fn table_field(
    scope: &Scope,
    field: &Field,
    ids: bool,
    next: usize,
) -> Result<TableField, DeclarationError>
    requires next { next ≤ 65535 }
    requires integers { HasIntegers scope.now }
    ensures read { IfOk result (λ f. IsFieldRead (scope_heads scope.now) (scope_space scope.now)
        ids next field.now f) }
    ensures wrong { Tells (wrong_field (scope_heads scope.now) (scope_space scope.now) ids next
        field.now) result }
{
    let attributes = field.attributes.as_slice();
    let kind = or_return!(field_type(scope, field));
    let slot = or_return!(field_slot(field, kind, ids, next));
    let default = or_return!(default_of(
        scope.alloc,
        scope.heads,
        scope.integers,
        kind,
        &field.default,
        field.left
    ));
    let nested = or_return!(nested_of(scope, attributes));
    let required = is_required(kind, field);
    let key = has(attributes, b"key");
    or_return!(check_lawful(kind, required, key, nested, field.left));
    let deprecated = has(attributes, b"deprecated");
    let name = or_return!(
        Vec::from_slice(scope.alloc, &field.name),
        DeclarationError::OutOfMemory
    );
    let docs = or_return!(
        copied(scope.alloc, &field.docs),
        DeclarationError::OutOfMemory
    );
    Ok(TableField {
        name,
        docs,
        kind,
        slot,
        default,
        required,
        deprecated,
        key,
        nested,
    })
}

/// The names that the types of these fields have if they are unions.
fn type_names(alloc: Global, fields: &[Field]) -> Result<Vec<Vec<u8>>, AllocError>
    ensures { IfOk result (λ v. names_of v.items
        ≡ map (λ f. spec.type_name f.name.items) fields.now) }
{
    let mut names = Vec::new(alloc);
    'fields: for field in fields {
        let mut name = or_return!(Vec::from_slice(alloc, &field.name));
        or_return!(name.extend_from_slice(b"_type"));
        names.push(name)?;
    }
    Ok(names)
}

/// Adds the name of a field, and before it that of a union's type; returns whether they were new.
fn take_names<'n>(
    names: &mut BTreeMap<&'n [u8], usize>,
    kind: FieldType,
    name: &'n [u8],
    type_name: &'n [u8],
) -> Result<bool, AllocError>
    requires { type_name.now ≡ spec.type_name name.now }
    ensures new { (list : List Name) → IsTaken names.old list
        → IfOk result (λ new. new ≡ not (are_among list (spec.names_for kind name.now))) }
    ensures taken { (list : List Name) → IsTaken names.old list
        → IfOk result (λ new. new ≡ true → IsTaken names.new (list ++ spec.names_for kind name.now)) }
{
    if is_union(kind) {
        let new = or_return!(take_key(names, type_name));
        if !new {
            return Ok(false);
        }
    }
    take_key(names, name)
}

fn add_names<'n>(
    names: &mut BTreeMap<&'n [u8], usize>,
    key: bool,
    field: &TableField,
    name: &'n [u8],
    type_name: &'n [u8],
    left: usize,
) -> Result<bool, DeclarationError>
    requires own { field.now.name.items ≡ name.now }
    requires typed { type_name.now ≡ spec.type_name name.now }
    ensures read { (list : List Name) → IsTaken names.old list
        → IfOk result (λ k. AreNamesRead list names.new field.now key k) }
    ensures wrong { (list : List Name) → IsTaken names.old list → Tells (first
        (when (are_among list (spec.names_taken field.now)) FaultKind.FieldNameTaken left)
        (when (field.now.key && key) FaultKind.SecondKey left)) result }
{
    let new = or_return!(
        take_names(names, field.kind, name, type_name),
        DeclarationError::OutOfMemory
    );
    if !new {
        return Err(wrong(FaultKind::FieldNameTaken, left));
    }
    if field.key && key {
        return Err(wrong(FaultKind::SecondKey, left));
    }
    Ok(key || field.key)
}

fn table_fields(
    scope: &Scope,
    declared: &[Field],
    ids: bool,
) -> Result<Vec<TableField>, DeclarationError>
    requires { HasIntegers scope.now }
    ensures read { IfOk result (λ v. AreFieldsRead (scope_heads scope.now) (scope_space scope.now)
        ids declared.now v.items) }
    ensures wrong { Tells (wrong_fields (scope_heads scope.now) (scope_space scope.now) ids 0 false
        [] declared.now) result }
{
    let types = or_return!(
        type_names(scope.alloc, declared),
        DeclarationError::OutOfMemory
    );
    let mut fields = Vec::new(scope.alloc);
    let mut names = BTreeMap::new(scope.alloc);
    let mut next = 0;
    let mut key = false;
    let mut index = 0;
    'fields: for declaration in declared {
        if next > 65535 {
            return Err(wrong(FaultKind::TooManySlots, declaration.left));
        }
        let field = or_return!(table_field(scope, declaration, ids, next));
        key = or_return!(add_names(
            &mut names,
            key,
            &field,
            &declaration.name,
            &types[index],
            declaration.left
        ));
        next += width(field.kind);
        fields.push(field)?;
        index += 1;
    }
    Ok(fields)
}

pub(crate) fn table_of(
    scope: &Scope,
    declared: &Record,
    left: usize,
) -> Result<Table, DeclarationError>
    requires { HasIntegers scope.now }
    ensures says { IfOk result (λ t. spec.SaysTable (scope_heads scope.now) (scope_space scope.now)
        (record_of declared.now) t) }
    ensures sound { IfOk result (λ t. spec.IsTableBody t) }
    ensures wrong { Tells (wrong_table_body (scope_heads scope.now) (scope_space scope.now)
        declared.now left) result }
{
    let ids = has_ids(&declared.fields);
    let fields = or_return!(table_fields(scope, &declared.fields, ids));
    or_return!(check_slots(scope.alloc, &fields, left));
    Ok(Table { fields })
}
