//! Checks of attributes and services.

ghost use Rattle.planus_resolve.specs.inner.Scopes.{scope_heads, scope_space};
ghost use Rattle.std.specs.Prelude.{◌≡◌, ◌++◌, ◌∷◌, [], List, IfOk, OnOk};
ghost use Rattle.planus_syntax.specs.Values.{Name, names_of};
ghost use Rattle.planus_resolve.specs.inner.Index.{IsTaken};
ghost use Rattle.planus_resolve.specs.Wrong.{Tells};
ghost use Rattle.planus_resolve.specs.WrongServices as spec;

use crate::attribute_names::AttributeNames;
use crate::fault::{DeclarationError, FaultKind, or_return, wrong};
use crate::kind::table_at;
use crate::lookup::Wanted;
use crate::names::take_key;
use crate::scope::Scope;
use crate::words::cut_words;
use planus_syntax::{Attribute, Declaration, Field, Item, Method, label_name};
use std::alloc::{AllocError, Global};
use std::collections::BTreeMap;

/// The attributes of the language, of printed code, of one language, and of services.
const BUILT_IN: &[u8] = b"bit_flags deprecated flexbuffer force_align hash id key \
    nested_flatbuffer original_order required native_custom_alloc native_default native_inline \
    native_type native_type_pack_name private shared cpp_ptr_type cpp_ptr_type_get \
    cpp_str_flex_ctor cpp_str_type cpp_type csharp_partial idempotent streaming";

#[tactic(auto, unfolding(crate::specs::WrongServices::built_in))]
fn built_in(alloc: Global) -> Result<Vec<Vec<u8>>, AllocError>
    ensures { IfOk result (λ v. names_of v.items ≡ spec.built_in) }
{
    cut_words(alloc, BUILT_IN)
}

fn add_customs(
    alloc: Global,
    known: &mut Vec<Vec<u8>>,
    declarations: &[Declaration],
) -> Result<(), AllocError>
    ensures { OnOk result (names_of known.new.items
        ≡ names_of known.old.items ++ spec.customs_in declarations.now) }
{
    'declarations: for declaration in declarations {
        if let Item::Attribute(label) = &declaration.item {
            let name = or_return!(label_name(alloc, label));
            known.push(name)?;
        }
    }
    Ok(())
}

pub(crate) fn known_attributes(
    alloc: Global,
    files: &[Vec<Declaration>],
) -> Result<Vec<Vec<u8>>, AllocError>
    ensures { IfOk result (λ v. names_of v.items ≡ spec.known_attributes files.now) }
{
    let mut known = or_return!(built_in(alloc));
    'files: for declarations in files {
        or_return!(add_customs(alloc, &mut known, declarations));
    }
    Ok(known)
}

fn check_attributes(
    alloc: Global,
    known: &AttributeNames,
    attributes: &[Attribute],
) -> Result<(), DeclarationError>
    ensures { Tells (spec.wrong_attributes known.now attributes.now) result }
{
    'attributes: for attribute in attributes {
        let label = &attribute.label;
        let name = or_return!(label_name(alloc, label), DeclarationError::OutOfMemory);
        if !known.has(&name) {
            return Err(wrong(FaultKind::UnknownAttribute, label.left));
        }
    }
    Ok(())
}

fn check_fields(
    alloc: Global,
    known: &AttributeNames,
    fields: &[Field],
) -> Result<(), DeclarationError>
    ensures { Tells (spec.wrong_in_fields known.now fields.now) result }
{
    'fields: for field in fields {
        or_return!(check_attributes(alloc, known, &field.attributes));
    }
    Ok(())
}

fn check_method<'n>(
    scope: &Scope,
    known: &AttributeNames,
    names: &mut BTreeMap<&'n [u8], usize>,
    method: &'n Method,
) -> Result<(), DeclarationError>
    ensures taken { (list : List Name) → IsTaken names.old list
        → OnOk result (IsTaken names.new (list ++ method.now.name.items ∷ [])) }
    ensures wrong { (list : List Name) → IsTaken names.old list
        → Tells (spec.wrong_method (scope_heads scope.now) (scope_space scope.now)
        known.now list method.now) result }
{
    let new = or_return!(take_key(names, &method.name), DeclarationError::OutOfMemory);
    if !new {
        return Err(wrong(FaultKind::MethodNameTaken, method.left));
    }
    let kind = FaultKind::MethodIsNoTable;
    or_return!(table_at(scope, Wanted::AnyType, &method.request, kind));
    or_return!(table_at(scope, Wanted::AnyType, &method.response, kind));
    check_attributes(scope.alloc, known, &method.attributes)
}

fn check_methods(
    scope: &Scope,
    known: &AttributeNames,
    methods: &[Method],
) -> Result<(), DeclarationError>
    ensures { Tells (spec.wrong_methods (scope_heads scope.now) (scope_space scope.now)
        known.now [] methods.now) result }
{
    let mut names = BTreeMap::new(scope.alloc);
    'methods: for method in methods {
        or_return!(check_method(scope, known, &mut names, method));
    }
    Ok(())
}

pub(crate) fn check_item(
    scope: &Scope,
    known: &AttributeNames,
    item: &Item,
) -> Result<(), DeclarationError>
    ensures { Tells (spec.wrong_item (scope_heads scope.now) (scope_space scope.now)
        known.now item.now) result }
{
    match item {
        Item::Table(body) | Item::Struct(body) => {
            or_return!(check_attributes(scope.alloc, known, &body.attributes));
            check_fields(scope.alloc, known, &body.fields)
        }
        Item::Enum(body) => check_attributes(scope.alloc, known, &body.attributes),
        Item::Union(body) => check_attributes(scope.alloc, known, &body.attributes),
        Item::Service(service) => {
            or_return!(check_attributes(scope.alloc, known, &service.attributes));
            check_methods(scope, known, &service.methods)
        }
        _ => Ok(()),
    }
}
