//! The places of a struct's fields.

ghost use Rattle.std.specs.Prelude.{◌≡◌, ◌≤◌, ◌<◌, ◌+◌, true, false, map, IfOk, Some, None};
ghost use Rattle.std.specs.Prelude.{[], codes, not};
ghost use Rattle.std.specs.Option.{option_map};
ghost use Rattle.planus_syntax.specs.Values.{field_of, attribute_of, literal_of};
ghost use Rattle.planus_resolve.specs.inner.Read.{IsMeasureRead, IsStructFieldRead};
ghost use Rattle.planus_resolve.specs.inner.Read.{IsLayoutRead, IsStructRead};
ghost use Rattle.planus_resolve.specs.inner.Scopes.{scope_heads, scope_space, HasIntegers};
ghost use Rattle.planus_resolve.specs.Names as names_spec;
ghost use Rattle.planus_schema.specs.Layouts as layouts_spec;
ghost use Rattle.planus_resolve.specs.Defaults.{value_of, some_default};
ghost use Rattle.planus_resolve.specs.Structs as structs_spec;
ghost use Rattle.planus_schema.specs.Numbers.{integer_said};
ghost use Rattle.planus_resolve.specs.Wrong.{Tells, when};
ghost use Rattle.planus_resolve.specs.WrongStructs as spec;

use crate::attributes::{has, setting};
use crate::defaults::literal_default;
use crate::expected::Expected;
use crate::fault::{DeclarationError, FaultKind, or_return, wrong};
use crate::kind::type_of;
use crate::names::{copied, take_key};
use crate::scope::Scope;
use planus_schema::{
    Base, Declared, FieldType, Layout, Measure, Struct, StructField, Value, greater, integer,
    is_alignment, measure_of, next_multiple,
};
use planus_syntax::{Attribute, Field, Kind, Literal, Record, between_quotes, is_number};
use std::collections::BTreeMap;

fn is_zero(value: &Option<Value>) -> bool
    ensures { result ≡ structs_spec.is_zero_said (some_default (option_map value_of value.now)) }
{
    match value {
        Some(Value::Integer(number)) => number.magnitude == 0,
        Some(Value::Float(word)) => word.as_slice() == b"0".as_slice(),
        _ => false,
    }
}

fn check_zero(
    scope: &Scope,
    kind: FieldType,
    literal: &Option<Literal>,
    left: usize,
) -> Result<(), DeclarationError>
    requires { HasIntegers scope.now }
    ensures zero { IfOk result (λ _. structs_spec.is_zero_default (scope_heads scope.now) kind
        (option_map literal_of literal.now) ≡ true) }
    ensures wrong { Tells (when (not (structs_spec.is_zero_default (scope_heads scope.now) kind
        (option_map literal_of literal.now))) FaultKind.DefaultInStruct left) result }
{
    let literal = match literal {
        Some(literal) => literal,
        None => return Ok(()),
    };
    let value = or_return!(
        literal_default(scope.alloc, scope.heads, scope.integers, kind, literal),
        DeclarationError::OutOfMemory
    );
    if is_zero(&value) {
        Ok(())
    } else {
        Err(wrong(FaultKind::DefaultInStruct, left))
    }
}

fn base_in_struct(scope: &Scope, field: &Field) -> Result<Base, DeclarationError>
    requires { HasIntegers scope.now }
    ensures kind { IfOk result (λ b. names_spec.type_named (scope_heads scope.now)
        (scope_space scope.now)
        (field_of field.now).kind ≡ Some (record { vector = false; base = b })) }
    ensures plain { IfOk result (λ _. structs_spec.is_plain (field_of field.now) ≡ true) }
    ensures zero { IfOk result (λ b. structs_spec.is_zero_default (scope_heads scope.now)
        (record { vector = false; base = b }) (field_of field.now).default ≡ true) }
    ensures wrong { Tells (spec.wrong_plain (scope_heads scope.now) (scope_space scope.now)
        field.now)
        result }
{
    if has(&field.attributes, b"required") || has(&field.attributes, b"deprecated") {
        return Err(wrong(FaultKind::AttributeInStruct, field.left));
    }
    let expected = Expected::InStruct {
        index: scope.begun.saturating_sub(1),
    };
    let kind = or_return!(type_of(scope, &field.kind, expected));
    if kind.vector {
        return Err(wrong(FaultKind::NoStructField, field.left));
    }
    or_return!(check_zero(scope, kind, &field.default, field.left));
    Ok(kind.base)
}

#[tactic(auto, using(crate::proofs::MeasureLemmas::among))]
fn measure_in_struct(
    bodies: &[Declared],
    base: Base,
    left: usize,
) -> Result<Measure, DeclarationError>
    ensures read { IfOk result (λ m. IsMeasureRead bodies.now base m) }
    ensures wrong { Tells (spec.wrong_measure base left (spec.measure_among
        (spec.measures_of bodies.now) base))
        result }
{
    match measure_of(bodies, base) {
        Some(measure)
            if 0 < measure.alignment && measure.alignment <= 32 && measure.size <= 65535 => {
            Ok(measure)
        }
        Some(_) => Err(wrong(FaultKind::StructTooLarge, left)),
        None => match base {
            Base::Enum(_) | Base::Struct(_) => Err(wrong(FaultKind::DeclaredLater, left)),
            _ => Err(wrong(FaultKind::NoStructField, left)),
        },
    }
}

/// Returns the number of an array's items; fails if the array has a default or is a `key`.
fn count_in_struct(field: &Field) -> Result<Option<usize>, DeclarationError>
    ensures count { IfOk result (λ c. structs_spec.count_said (field_of field.now).kind ≡ Some c) }
    ensures default { IfOk result (λ _. names_spec.is_array (field_of field.now).kind ≡ true
        → (field_of field.now).default ≡ None) }
    ensures key { IfOk result (λ _. names_spec.is_array (field_of field.now).kind ≡ true
        → names_spec.has (codes "key") (field_of field.now).attributes ≡ false) }
    ensures small { IfOk result (λ c. structs_spec.items_in c ≤ 65535) }
    ensures wrong { Tells (spec.wrong_array field.now field.now.kind) result }
{
    let Kind::Array(_, digits) = &field.kind else {
        return Ok(None);
    };
    let count = match natural(digits) {
        Some(number) if 1 <= number && number <= 65535 => number as usize,
        _ => return Err(wrong(FaultKind::ArrayCount, field.left)),
    };
    if field.default.is_some() {
        return Err(wrong(FaultKind::DefaultInStruct, field.left));
    }
    if has(&field.attributes, b"key") {
        return Err(wrong(FaultKind::WrongKey, field.left));
    }
    Ok(Some(count))
}

fn items_in(count: Option<usize>) -> usize
    ensures { result ≡ structs_spec.items_in count }
{
    match count {
        Some(count) => count,
        None => 1,
    }
}

/// Returns the size of all items together, and their alignment.
fn measure_of_items(count: Option<usize>, item: Measure) -> Measure
    requires count { structs_spec.items_in count ≤ 65535 }
    requires size { item.size ≤ 65535 }
    ensures measure { result ≡ spec.measure_of_items count item }
    ensures fits { result.size ≤ 4294836225 }
{
    Measure {
        size: items_in(count) * item.size,
        alignment: item.alignment,
    }
}

fn struct_field(
    scope: &Scope,
    bodies: &[Declared],
    field: &Field,
    at: usize,
) -> Result<StructField, DeclarationError>
    requires at { at ≤ 65535 }
    requires integers { HasIntegers scope.now }
    ensures read { IfOk result (λ f. IsStructFieldRead (scope_heads scope.now)
        (scope_space scope.now) bodies.now at field.now f) }
    ensures wrong { Tells (spec.wrong_struct_field (scope_heads scope.now) (scope_space scope.now)
        (spec.measures_of bodies.now) at field.now) result }
{
    let base = or_return!(base_in_struct(scope, field));
    let count = or_return!(count_in_struct(field));
    let item = or_return!(measure_in_struct(bodies, base, field.left));
    let measure = measure_of_items(count, item);
    let distance = next_multiple(at, measure.alignment);
    if distance + measure.size > 65535 {
        return Err(wrong(FaultKind::StructTooLarge, field.left));
    }
    let name = or_return!(
        Vec::from_slice(scope.alloc, &field.name),
        DeclarationError::OutOfMemory
    );
    let docs = or_return!(
        copied(scope.alloc, &field.docs),
        DeclarationError::OutOfMemory
    );
    Ok(StructField {
        name,
        docs,
        base,
        count,
        distance,
        size: measure.size,
        alignment: measure.alignment,
    })
}

fn struct_fields(
    scope: &Scope,
    bodies: &[Declared],
    declared: &[Field],
) -> Result<Layout, DeclarationError>
    requires { HasIntegers scope.now }
    ensures read { IfOk result (λ l. IsLayoutRead (scope_heads scope.now) (scope_space scope.now)
        bodies.now declared.now l) }
    ensures wrong { Tells (spec.wrong_struct_fields (scope_heads scope.now) (scope_space scope.now)
        (spec.measures_of bodies.now) 0 [] declared.now) result }
{
    let mut fields = Vec::new(scope.alloc);
    let mut names = BTreeMap::new(scope.alloc);
    let mut end = 0;
    let mut alignment = 1;
    'fields: for declaration in declared {
        let field = or_return!(struct_field(scope, bodies, declaration, end));
        let new = or_return!(
            take_key(&mut names, &declaration.name),
            DeclarationError::OutOfMemory
        );
        if !new {
            return Err(wrong(FaultKind::FieldNameTaken, declaration.left));
        }
        end = field.distance + field.size;
        alignment = greater(alignment, field.alignment);
        fields.push(field)?;
    }
    Ok(Layout {
        fields,
        end,
        alignment,
    })
}

fn natural(digits: &[u8]) -> Option<u64>
    ensures { result ≡ structs_spec.natural_of (integer_said digits.now) }
{
    match integer(digits) {
        Some(number) if !number.negative => Some(number.magnitude),
        _ => None,
    }
}

pub(crate) fn setting_number(attribute: &Attribute) -> Option<u64>
    ensures { result ≡ structs_spec.number_in (attribute_of attribute.now).value }
{
    match &attribute.value {
        Some(Literal::Number(digits)) => natural(digits),
        Some(Literal::Text(string)) => {
            let text = between_quotes(string);
            if is_number(text) { natural(text) } else { None }
        }
        _ => None,
    }
}

fn alignment_of(
    attributes: &[Attribute],
    greatest: usize,
    left: usize,
) -> Result<usize, DeclarationError>
    ensures said { IfOk result (λ n. structs_spec.alignment_said
        (names_spec.setting (codes "force_align") (map attribute_of attributes.now)) greatest
        ≡ Some n) }
    ensures aligned { IfOk result (λ n. layouts_spec.is_alignment n ≡ true) }
    ensures greatest { IfOk result (λ n. greatest ≤ n) }
    ensures wrong { Tells (spec.wrong_alignment greatest left
        (names_spec.attribute_named (codes "force_align") attributes.now)) result }
{
    let (alignment, at) = match setting(attributes, b"force_align") {
        Some(attribute) => match setting_number(attribute) {
            Some(number) if number <= 32 => (number as usize, attribute.label.left),
            _ => return Err(wrong(FaultKind::WrongAlignment, attribute.label.left)),
        },
        None => (greatest, left),
    };
    if is_alignment(alignment) && greatest <= alignment {
        Ok(alignment)
    } else {
        Err(wrong(FaultKind::WrongAlignment, at))
    }
}

pub(crate) fn struct_of(
    scope: &Scope,
    bodies: &[Declared],
    declared: &Record,
    left: usize,
) -> Result<Struct, DeclarationError>
    requires { HasIntegers scope.now }
    ensures read { IfOk result (λ s. IsStructRead (scope_heads scope.now) (scope_space scope.now)
        bodies.now declared.now s) }
    ensures wrong { Tells (spec.wrong_struct (scope_heads scope.now) (scope_space scope.now)
        (spec.measures_of bodies.now) declared.now left) result }
{
    if declared.fields.is_empty() {
        return Err(wrong(FaultKind::EmptyStruct, left));
    }
    let layout = or_return!(struct_fields(scope, bodies, &declared.fields));
    let alignment = or_return!(alignment_of(&declared.attributes, layout.alignment, left));
    Ok(layout.finished(alignment))
}
