//! The type that a name refers to.

ghost use Rattle.std.specs.Prelude.{◌≡◌, true, map, IfOk, Some};
ghost use Rattle.std.specs.Option.{option_map};
ghost use Rattle.planus_syntax.specs.Values.{path_of, kind_of, item_of};
ghost use Rattle.planus_resolve.specs.inner.Scopes.{scope_heads, scope_space};
ghost use Rattle.planus_resolve.specs.Names as spec;
ghost use Rattle.planus_resolve.specs.Wrong.{Tells, wrong_base, wrong_fit, wrong_kind, wrong_table};
ghost use Rattle.planus_resolve.specs.Fitting.{fits};

use crate::expected::Expected;
use crate::fault::{DeclarationError, FaultKind, or_return, wrong};
use crate::head::item_base;
use crate::heads::Heads;
use crate::lookup::{Wanted, found};
use crate::scalar_names::scalar_named;
use crate::scope::Scope;
use planus_schema::{Base, FieldType};
use planus_syntax::{Item, Kind, Path};
use std::alloc::{AllocError, Global};

pub(crate) fn plain_base(path: &Path) -> Option<Base>
    ensures { result ≡ spec.plain_base (path_of path.now) }
{
    if !path.more.is_empty() {
        return None;
    }
    if path.first.as_slice() == b"string".as_slice() {
        return Some(Base::Text);
    }
    match scalar_named(&path.first) {
        Some(scalar) => Some(Base::Scalar(scalar)),
        None => None,
    }
}

pub(crate) fn item_of_head<'b>(heads: &'b Heads, index: usize) -> Option<&'b Item>
    ensures { option_map (λ i. item_of i.now) result ≡ spec.item_at (map spec.head_of heads.now)
        index }
{
    match heads.get(index) {
        Some(head) => Some(&head.declaration.item),
        None => None,
    }
}

pub(crate) fn head_base(heads: &Heads, index: usize) -> Option<Base>
    ensures { result ≡ spec.base_of_head (spec.item_at (map spec.head_of heads.now) index) index }
{
    match item_of_head(heads, index) {
        Some(item) => item_base(item, index),
        None => None,
    }
}

pub(crate) fn base_named(
    scope: &Scope,
    wanted: Wanted,
    path: &Path,
) -> Result<Option<Base>, AllocError>
    ensures { IfOk result (λ o. o ≡ spec.base_as (scope_heads scope.now) (spec.used_as wanted)
        (scope_space scope.now) (path_of path.now)) }
{
    if let Some(base) = plain_base(path) {
        return Ok(Some(base));
    }
    match or_return!(found(scope, wanted, &path.first, &path.more)) {
        Some(index) => Ok(head_base(scope.heads, index)),
        None => Ok(None),
    }
}

fn base_of(
    scope: &Scope,
    wanted: Wanted,
    path: &Path,
    expected: Expected,
) -> Result<Base, DeclarationError>
    ensures named { IfOk result (λ b. spec.base_as (scope_heads scope.now) (spec.used_as wanted)
        (scope_space scope.now) (path_of path.now) ≡ Some b) }
    ensures wrong { Tells (wrong_base expected (scope_heads scope.now) (spec.used_as wanted)
        (scope_space scope.now) path.now) result }
{
    match or_return!(
        base_named(scope, wanted, path),
        DeclarationError::OutOfMemory
    ) {
        Some(base) => Ok(base),
        None => Err(wrong(FaultKind::UnknownType(expected), path.left)),
    }
}

pub(crate) fn is_array(kind: &Kind) -> bool
    ensures { result ≡ spec.is_array (kind_of kind.now) }
{
    match kind {
        Kind::Array(_, _) => true,
        _ => false,
    }
}

/// Returns the type of a field; for an array, the type of its items.
pub(crate) fn type_of(
    scope: &Scope,
    kind: &Kind,
    expected: Expected,
) -> Result<FieldType, DeclarationError>
    ensures named { IfOk result (λ t. spec.type_named (scope_heads scope.now)
        (scope_space scope.now) (kind_of kind.now) ≡ Some t) }
    ensures wrong { Tells (wrong_kind expected (scope_heads scope.now) (scope_space scope.now)
        kind.now) result }
{
    let (vector, path) = match kind {
        Kind::Single(path) => (false, path),
        Kind::Vector(path) => (true, path),
        Kind::Array(path, _) => (false, path),
    };
    let base = or_return!(base_of(scope, Wanted::AnyType, path, expected));
    Ok(FieldType { vector, base })
}

pub(crate) fn table_at(
    scope: &Scope,
    wanted: Wanted,
    path: &Path,
    kind: FaultKind,
) -> Result<usize, DeclarationError>
    ensures named { IfOk result (λ i. spec.base_as (scope_heads scope.now) (spec.used_as wanted)
        (scope_space scope.now) (path_of path.now) ≡ Some (Base.Table i)) }
    ensures wrong { Tells (wrong_table kind (scope_heads scope.now) (spec.used_as wanted)
        (scope_space scope.now) path.now) result }
{
    match base_of(scope, wanted, path, Expected::Table) {
        Ok(Base::Table(index)) => Ok(index),
        Ok(_) => Err(wrong(kind, path.left)),
        Err(error) => Err(error),
    }
}

/// Returns the type that a name refers to, if it may stand there.
pub(crate) fn base_at(
    scope: &Scope,
    wanted: Wanted,
    path: &Path,
    expected: Expected,
    kind: FaultKind,
) -> Result<Base, DeclarationError>
    ensures named { IfOk result (λ b. spec.base_as (scope_heads scope.now) (spec.used_as wanted)
        (scope_space scope.now) (path_of path.now) ≡ Some b) }
    ensures fits { IfOk result (λ b. fits expected b ≡ true) }
    ensures wrong { Tells (wrong_fit kind expected (scope_heads scope.now) (spec.used_as wanted)
        (scope_space scope.now) path.now) result }
{
    match base_of(scope, wanted, path, expected) {
        Ok(base) if expected.fits(base) => Ok(base),
        Ok(_) => Err(wrong(kind, path.left)),
        Err(error) => Err(error),
    }
}
