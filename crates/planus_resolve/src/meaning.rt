//! The meaning of files.

ghost use Rattle.std.specs.Prelude.{◌≡◌, [], ◌∷◌, ◌++◌, ◌≤◌, ◌+◌, map, length, Some, IfOk, IfErr, OnOk};
ghost use Rattle.planus_syntax.specs.Values.{declarations_of};
ghost use Rattle.planus_resolve.specs.Names.{head_of, heads_of, space_of, space_at, index_of};
ghost use Rattle.planus_schema.specs.Distinct.{AreDistinct};
ghost use Rattle.planus_resolve.specs.inner.Read.{IsBodyRead, IsToldOf};
ghost use Rattle.planus_resolve.specs.Schemas.{IsDeclared, AreDeclared, Means};
ghost use Rattle.planus_resolve.specs.Schemas.{HoldsFaults, IsAppended};
ghost use Rattle.planus_resolve.specs.Sound.{IsSound};
ghost use Rattle.planus_schema.specs.Layouts.{measure_of_body};
ghost use Rattle.planus_resolve.specs.Wrong.{Tells};
ghost use Rattle.planus_resolve.specs.Enums.{integers_of};
ghost use Rattle.planus_resolve.specs.WrongStructs.{measures_of};
ghost use Rattle.planus_resolve.specs.Faults as spec;

use crate::enums::enum_of;
use crate::expected::Expected;
use crate::fault::{DeclarationError, Fault, FaultKind, ResolveError, note, or_return, wrong};
use crate::head::{Head, heads};
use crate::heads::Heads;
use crate::integers::{integer_at, integers};
use crate::names::copied;
use crate::scope::Scope;
use crate::statements::statements;
use crate::structs::struct_of;
use crate::tables::table_of;
use crate::unions::union_of;
use crate::waiting::check_uses;
use planus_schema::{Body, Declared, Scalar, Schema, Struct, Table, is_first};
use planus_syntax::{Declaration, Item};
use std::alloc::{AllocError, Global};

fn body_of(
    alloc: Global,
    heads: &Heads,
    integers: &[Option<Scalar>],
    declared: &[Declared],
    head: &Head,
) -> Result<Body, DeclarationError>
    requires { integers.now ≡ integers_of (map head_of heads.now) }
    ensures read { IfOk result (λ b. IsBodyRead (map head_of heads.now)
        (space_at (space_of head.now.space) (length declared.now + 1)) declared.now
        head.now.declaration.now.item b) }
    ensures wrong { Tells (spec.wrong_body (map head_of heads.now)
        (space_at (space_of head.now.space) (length declared.now + 1)) (measures_of declared.now)
        (spec.name_left head.now.declaration.now)
        head.now.declaration.now.item) result }
{
    let left = head.declaration.left.saturating_sub(1);
    let scope = Scope {
        alloc,
        heads,
        integers,
        space: head.space,
        begun: declared.len() + 1,
    };
    match &head.declaration.item {
        Item::Table(record) => {
            let table = or_return!(table_of(&scope, record, left));
            Ok(Body::Table(table))
        }
        Item::Struct(record) => {
            let body = or_return!(struct_of(&scope, declared, record, left));
            Ok(Body::Struct(body))
        }
        Item::Enum(body) => {
            let integer = integer_at(integers, declared.len());
            let body = or_return!(enum_of(alloc, integer, body));
            Ok(Body::Enum(body))
        }
        Item::Union(body) => {
            let body = or_return!(union_of(&scope, body));
            Ok(Body::Union(body))
        }
        _ => Err(wrong(FaultKind::UnknownType(Expected::AnyType), left)),
    }
}

/// Returns the body of a declaration with a fault, so that the others can be checked.
fn stand_in(alloc: Global, item: &Item) -> Body
    ensures { measure_of_body (Some result) ≡ spec.byte_measure item.now }
{
    match item {
        Item::Struct(_) | Item::Enum(_) => Body::Struct(Struct {
            fields: Vec::new(alloc),
            size: 1,
            alignment: 1,
        }),
        _ => Body::Table(Table {
            fields: Vec::new(alloc),
        }),
    }
}

fn add_body(
    alloc: Global,
    declared: &mut Vec<Declared>,
    head: &Head,
    body: Body,
) -> Result<(), AllocError>
    ensures appended { OnOk result (IsAppended (head_of head.now) body declared.old.items
        declared.new.items) }
    ensures measures { OnOk result (measures_of declared.new.items
        ≡ measures_of declared.old.items ++ measure_of_body (Some body) ∷ []) }
{
    let name = or_return!(Vec::from_slice(alloc, &head.name));
    let docs = or_return!(copied(alloc, &head.declaration.docs));
    let added = Declared {
        name,
        docs,
        file: head.file,
        body,
    };
    declared.push(added)?;
    Ok(())
}

fn add_declared(
    alloc: Global,
    heads: &Heads,
    integers: &[Option<Scalar>],
    declared: &mut Vec<Declared>,
    head: &Head,
    faults: &mut Vec<Fault>,
) -> Result<(), AllocError>
    requires few { length faults.old.items ≤ 20 }
    requires integers { integers.now ≡ integers_of (map head_of heads.now) }
    ensures says { OnOk result (faults.new.items ≡ [] → IsDeclared (map head_of heads.now)
        (head_of head.now) declared.old.items declared.new.items) }
    ensures kept { OnOk result (faults.new.items ≡ [] → faults.old.items ≡ []) }
    ensures most { OnOk result (length faults.new.items ≤ 20) }
    ensures measures { OnOk result (measures_of declared.new.items
        ≡ measures_of declared.old.items ++ spec.measure_placed (map head_of heads.now)
        (measures_of declared.old.items) (spec.placed_of head.now) ∷ []) }
    ensures adds { OnOk result (spec.Adds (spec.body_fault (map head_of heads.now)
        (measures_of declared.old.items) (spec.placed_of head.now)) faults.old.items
        faults.new.items) }
{
    match body_of(alloc, heads, integers, declared, head) {
        Ok(body) => add_body(alloc, declared, head, body),
        Err(error) => {
            or_return!(note(faults, head.file, error));
            let body = stand_in(alloc, &head.declaration.item);
            add_body(alloc, declared, head, body)
        }
    }
}

fn declarations(
    alloc: Global,
    heads: &Heads,
    integers: &[Option<Scalar>],
    faults: &mut Vec<Fault>,
) -> Result<Vec<Declared>, AllocError>
    requires few { length faults.old.items ≤ 20 }
    requires integers { integers.now ≡ integers_of (map head_of heads.now) }
    ensures says { IfOk result (λ v. faults.new.items ≡ [] → AreDeclared (map head_of heads.now)
        (map head_of heads.now) v.items) }
    ensures kept { OnOk result (faults.new.items ≡ [] → faults.old.items ≡ []) }
    ensures most { OnOk result (length faults.new.items ≤ 20) }
    ensures adds { OnOk result (spec.Adds (spec.body_faults (map head_of heads.now) []
        (map spec.placed_of heads.now)) faults.old.items faults.new.items) }
{
    let mut declared = Vec::new(alloc);
    'heads: for head in heads.as_slice() {
        or_return!(add_declared(alloc, heads, integers, &mut declared, head, faults));
    }
    Ok(declared)
}

fn check_name(
    heads: &Heads,
    index: usize,
    head: &Head,
    faults: &mut Vec<Fault>,
) -> Result<(), AllocError>
    requires { length faults.old.items ≤ 20 }
    ensures first { OnOk result (faults.new.items ≡ [] → index_of (map head_of heads.now)
        (head_of head.now).name ≡ Some index) }
    ensures kept { OnOk result (faults.new.items ≡ [] → faults.old.items ≡ []) }
    ensures most { OnOk result (length faults.new.items ≤ 20) }
    ensures adds { OnOk result (spec.Adds (spec.name_fault (map head_of heads.now) index
        (spec.placed_of head.now)) faults.old.items faults.new.items) }
{
    if is_first(heads.index_of(&head.name), index) {
        Ok(())
    } else {
        note(
            faults,
            head.file,
            wrong(
                FaultKind::NameTaken,
                head.declaration.left.saturating_sub(1),
            ),
        )
    }
}

fn check_names(heads: &Heads, faults: &mut Vec<Fault>) -> Result<(), AllocError>
    requires { length faults.old.items ≤ 20 }
    ensures distinct { OnOk result (faults.new.items ≡ [] → AreDistinct (map (λ h. h.name)
        (map head_of heads.now))) }
    ensures kept { OnOk result (faults.new.items ≡ [] → faults.old.items ≡ []) }
    ensures most { OnOk result (length faults.new.items ≤ 20) }
    ensures adds { OnOk result (spec.Adds (spec.name_faults (map head_of heads.now) 0
        (map spec.placed_of heads.now)) faults.old.items faults.new.items) }
{
    let mut index = 0;
    'heads: for head in heads.as_slice() {
        or_return!(check_name(heads, index, head, faults));
        index += 1;
    }
    Ok(())
}

/// Fails with these faults in order, if there are any.
fn refuse(mut faults: Vec<Fault>) -> Result<(), ResolveError>
    requires { length faults.items ≤ 20 }
    ensures none { OnOk result (faults.items ≡ []) }
    ensures told { IfErr result (λ e. IsToldOf faults.items e) }
{
    if faults.is_empty() {
        return Ok(());
    }
    or_return!(
        faults.sort_by_key(|fault| (fault.file, usize::MAX - fault.left)),
        ResolveError::OutOfMemory
    );
    Err(ResolveError::Faults(faults))
}

/// Returns the meaning of files whose declarations are these.
fn meaning_of(
    alloc: Global,
    heads: &Heads,
    files: &[Vec<Declaration>],
) -> Result<Schema, ResolveError>
    requires heads { map head_of heads.now ≡ heads_of (map (λ f. declarations_of f.items) files.now) }
    requires placed { map spec.placed_of heads.now ≡ spec.placed_from 0 files.now }
    ensures means { IfOk result (λ s. Means (map (λ f. declarations_of f.items) files.now) s) }
    ensures none { OnOk result (spec.faults_found files.now ≡ []) }
    ensures faults { IfErr result (λ e. HoldsFaults e) }
    ensures exact { IfErr result (λ e. spec.IsExact files.now e) }
{
    let mut faults = Vec::new(alloc);
    or_return!(check_names(heads, &mut faults), ResolveError::OutOfMemory);
    let integers = or_return!(integers(alloc, heads), ResolveError::OutOfMemory);
    let declarations = or_return!(
        declarations(alloc, heads, &integers, &mut faults),
        ResolveError::OutOfMemory
    );
    let statements = or_return!(
        statements(alloc, heads, files, &mut faults),
        ResolveError::OutOfMemory
    );
    or_return!(
        check_uses(alloc, heads, files, &mut faults),
        ResolveError::OutOfMemory
    );
    or_return!(refuse(faults));
    Ok(Schema {
        declarations,
        statements,
    })
}

/// Returns the meaning of files. An included file has to be before those that include it, since a
/// struct holds only structs and enums that are declared before it.
///
/// Fails with up to twenty faults.
pub fn resolve(alloc: Global, files: &[Vec<Declaration>]) -> Result<Schema, ResolveError>
    ensures means { IfOk result (λ s. Means (map (λ f. declarations_of f.items) files.now) s) }
    // A schema is sound, whatever it was read from.
    ensures sound { IfOk result (λ s. IsSound s) }
    // A good schema is returned, and a bad one fails with exactly its faults.
    ensures none { OnOk result (spec.faults_found files.now ≡ []) }
    ensures faults { IfErr result (λ e. HoldsFaults e) }
    ensures exact { IfErr result (λ e. spec.IsExact files.now e) }
    ensures within { IfErr result (λ e. spec.AreWithin (length files.now) e) }
{
    let list = or_return!(heads(alloc, files), ResolveError::OutOfMemory);
    let heads = or_return!(Heads::new(alloc, &list), ResolveError::OutOfMemory);
    meaning_of(alloc, &heads, files)
}
