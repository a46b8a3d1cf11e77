//! The declaration that a name refers to.

ghost use Rattle.std.specs.Prelude.{◌≡◌, ◌++◌, ◌∷◌, take, length, map, IfOk, ◌≤◌};
ghost use Rattle.planus_syntax.specs.Values.{names_of};
ghost use Rattle.planus_resolve.specs.inner.Scopes.{scope_heads, scope_space};
ghost use Rattle.planus_resolve.specs.Names as spec;

use crate::awaited::Awaited;
use crate::fault::or_return;
use crate::head::{depth, dotted_name};
use crate::heads::Heads;
use crate::scope::Scope;
use std::alloc::AllocError;

/// How a name is used.
#[derive(Clone, Copy)]
pub(crate) enum Wanted {
    /// The type of a field or of a method, or a union's member after an alias.
    AnyType,
    /// A union's member without an alias, or a nested buffer.
    Record,
    /// A root.
    Root,
}

/// Enums and unions, or tables and structs, that are known where a name is used, or that follow.
#[derive(Clone, Copy)]
pub(crate) enum Sought {
    EarlierChoice,
    EarlierRecord,
    LaterRecord,
    LaterChoice,
    /// Tables and structs that are known, or that a use of their full name awaits.
    Known,
}

/// Returns what is awaited at this index.
pub(crate) fn at(list: &[Option<Awaited>], index: Option<usize>) -> Option<Awaited>
    ensures { result ≡ spec.at_index list.now index }
{
    match index {
        Some(index) => match list.get(index) {
            Some(awaited) => *awaited,
            None => None,
        },
        None => None,
    }
}

fn is_sought(
    heads: &Heads,
    begun: usize,
    full: &[Option<Awaited>],
    sought: Sought,
    index: usize,
) -> bool
    ensures { result ≡ spec.is_sought (map spec.head_of heads.now) begun full.now
        (spec.group_of sought) index }
{
    let choice = heads.is_choice(index);
    match sought {
        Sought::EarlierChoice => choice && index < begun,
        Sought::EarlierRecord => !choice && index < begun,
        Sought::LaterRecord => !choice && index >= begun,
        Sought::LaterChoice => choice && index >= begun,
        Sought::Known => !choice && index < begun || at(full, Some(index)).is_some(),
    }
}

fn found_at(
    scope: &Scope,
    full: &[Option<Awaited>],
    sought: Sought,
    count: usize,
    first: &[u8],
    more: &[Vec<u8>],
) -> Result<Option<usize>, AllocError>
    requires { count ≤ length (spec.space_of scope.now.space) }
    ensures { IfOk result (λ o. o ≡ spec.named_if (scope_heads scope.now)
        (spec.is_sought (scope_heads scope.now) scope.now.begun full.now (spec.group_of sought))
        (take count (spec.space_of scope.now.space) ++ first.now ∷ names_of more.now)) }
{
    let name = or_return!(dotted_name(scope.alloc, scope.space, count, first, more));
    match scope.heads.index_of(&name) {
        Some(index) if is_sought(scope.heads, scope.begun, full, sought, index) => Ok(Some(index)),
        _ => Ok(None),
    }
}

fn found_outwards(
    scope: &Scope,
    full: &[Option<Awaited>],
    sought: Sought,
    first: &[u8],
    more: &[Vec<u8>],
) -> Result<Option<usize>, AllocError>
    ensures { IfOk result (λ o. o ≡ spec.found_from (scope_heads scope.now)
        (spec.is_sought (scope_heads scope.now) scope.now.begun full.now (spec.group_of sought))
        (spec.space_of scope.now.space) (first.now ∷ names_of more.now)
        (length (spec.space_of scope.now.space))) }
{
    let mut count = depth(scope.space);
    'spaces: while count > 0 {
        if let Some(index) = or_return!(found_at(scope, full, sought, count, first, more)) {
            return Ok(Some(index));
        }
        count -= 1;
    }
    found_at(scope, full, sought, 0, first, more)
}

fn found_for_root(
    scope: &Scope,
    full: &[Option<Awaited>],
    sought: Sought,
    first: &[u8],
    more: &[Vec<u8>],
) -> Result<Option<usize>, AllocError>
    ensures { IfOk result (λ o. o ≡ spec.found_root (scope_heads scope.now)
        (spec.is_sought (scope_heads scope.now) scope.now.begun full.now (spec.group_of sought))
        (spec.space_of scope.now.space) (first.now ∷ names_of more.now)) }
{
    if let Some(index) = or_return!(found_at(scope, full, sought, 0, first, more)) {
        return Ok(Some(index));
    }
    found_at(scope, full, sought, depth(scope.space), first, more)
}

pub(crate) fn found_by(
    scope: &Scope,
    full: &[Option<Awaited>],
    wanted: Wanted,
    sought: Sought,
    first: &[u8],
    more: &[Vec<u8>],
) -> Result<Option<usize>, AllocError>
    ensures { IfOk result (λ o. o ≡ spec.found_by (scope_heads scope.now)
        (spec.is_sought (scope_heads scope.now) scope.now.begun full.now (spec.group_of sought))
        (spec.used_as wanted)
        (spec.space_of scope.now.space) (first.now ∷ names_of more.now)) }
{
    match wanted {
        Wanted::AnyType | Wanted::Record => found_outwards(scope, full, sought, first, more),
        Wanted::Root => found_for_root(scope, full, sought, first, more),
    }
}

fn order_of(wanted: Wanted) -> [Sought; 4]
    ensures { map spec.group_of result ≡ spec.order_of (spec.used_as wanted) }
{
    match wanted {
        Wanted::AnyType => [
            Sought::EarlierChoice,
            Sought::EarlierRecord,
            Sought::LaterRecord,
            Sought::LaterChoice,
        ],
        Wanted::Record | Wanted::Root => [
            Sought::EarlierRecord,
            Sought::LaterRecord,
            Sought::EarlierChoice,
            Sought::LaterChoice,
        ],
    }
}

/// Returns the index of the declaration that these words refer to.
#[tactic(auto, unfolding(crate::specs::Names::found))]
pub(crate) fn found(
    scope: &Scope,
    wanted: Wanted,
    first: &[u8],
    more: &[Vec<u8>],
) -> Result<Option<usize>, AllocError>
    ensures { IfOk result (λ o. o ≡ spec.found (scope_heads scope.now) (spec.used_as wanted)
        (scope_space scope.now) (first.now ∷ names_of more.now)) }
{
    let order = order_of(wanted);
    let mut rest = order.as_slice();
    'order: while let Some((sought, after)) = rest.split_first() {
        if let Some(index) = or_return!(found_by(scope, &[], wanted, *sought, first, more)) {
            return Ok(Some(index));
        }
        rest = after;
    }
    Ok(None)
}
