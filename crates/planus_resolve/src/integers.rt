//! The integer types of enums.

ghost use Rattle.std.specs.Prelude.{◌≡◌, map, slice_get, IfOk};
ghost use Rattle.planus_resolve.specs.Names.{head_of, space_of};
ghost use Rattle.planus_resolve.specs.Enums as spec;
ghost use Rattle.planus_resolve.specs.Enums.{integers_of};

use crate::fault::or_return;
use crate::head::Head;
use crate::heads::Heads;
use crate::kind::base_named;
use crate::lookup::Wanted;
use crate::scope::Scope;
use planus_schema::{Base, Scalar};
use planus_syntax::Item;
use std::alloc::{AllocError, Global};

pub(crate) fn integer_at(integers: &[Option<Scalar>], index: usize) -> Option<Scalar>
    ensures { result ≡ spec.flattened (slice_get integers.now index) }
{
    match integers.get(index) {
        Some(integer) => *integer,
        None => None,
    }
}

fn integer_in(integers: &[Option<Scalar>], base: Option<Base>) -> Option<Scalar>
    ensures { result ≡ spec.integer_in integers.now base }
{
    match base {
        Some(Base::Scalar(scalar)) if !scalar.is_float() && !scalar.is_bool() => Some(scalar),
        Some(Base::Enum(index)) => integer_at(integers, index),
        _ => None,
    }
}

/// Returns the integer type of a declaration that is an enum; `integers` are those before.
fn integer_of(
    alloc: Global,
    heads: &Heads,
    integers: &[Option<Scalar>],
    head: &Head,
) -> Result<Option<Scalar>, AllocError>
    ensures { IfOk result (λ o. o ≡ spec.integer_of (map head_of heads.now) integers.now
        (space_of head.now.space) (head_of head.now).declaration.item) }
{
    let Item::Enum(declared) = &head.declaration.item else {
        return Ok(None);
    };
    let scope = Scope {
        alloc,
        heads,
        integers,
        space: head.space,
        begun: integers.len() + 1,
    };
    let base = or_return!(base_named(&scope, Wanted::AnyType, &declared.base));
    Ok(integer_in(integers, base))
}

/// Returns the integer type of each declaration that is an enum.
#[tactic(auto, unfolding(crate::specs::Enums::integers_of))]
pub(crate) fn integers(alloc: Global, heads: &Heads) -> Result<Vec<Option<Scalar>>, AllocError>
    ensures { IfOk result (λ v. v.items ≡ integers_of (map head_of heads.now)) }
{
    let mut integers = Vec::new(alloc);
    'heads: for head in heads.as_slice() {
        let integer = or_return!(integer_of(alloc, heads, &integers, head));
        integers.push(integer)?;
    }
    Ok(integers)
}
