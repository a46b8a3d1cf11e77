//! Unions as a dump reads them.
ghost use Rattle.std.specs.Prelude.{◌≡◌, map, IfOk};
ghost use Rattle.planus_dump.specs.Shapes.{variant_shape};
ghost use Rattle.planus_inspect.specs.Shown.{member_kind, member_shown, union_shown};

use crate::names::shown_name;
use planus_dump::{VariantKind, VariantSchema};
use planus_schema::{Base, Body, Declared, UnionMember};
use std::alloc::{AllocError, Global};

fn variant_kind(base: Base) -> VariantKind
    ensures { result ≡ member_kind base }
{
    match base {
        Base::Table(index) => VariantKind::Table(index),
        Base::Struct(index) => VariantKind::Struct(index),
        Base::Scalar(_) | Base::Text | Base::Enum(_) | Base::Union(_) => VariantKind::Text,
    }
}

fn variant_schema(alloc: Global, member: &UnionMember) -> Result<VariantSchema, AllocError>
    ensures { IfOk result (λ shown. variant_shape shown ≡ member_shown member.now) }
{
    Ok(VariantSchema {
        tag: member.tag,
        name: shown_name(alloc, &member.name)?,
        kind: variant_kind(member.base),
    })
}

fn members_of(alloc: Global, members: &[UnionMember]) -> Result<Vec<VariantSchema>, AllocError>
    ensures { IfOk result (λ shown. map variant_shape shown.items ≡ map member_shown members.now) }
{
    let mut shown = Vec::new(alloc);
    for member in members {
        shown.push(variant_schema(alloc, member)?)?;
    }
    Ok(shown)
}

/// No variants for any other declaration.
pub(crate) fn union_schema(
    alloc: Global,
    declared: &Declared,
) -> Result<Vec<VariantSchema>, AllocError>
    ensures { IfOk result (λ shown. map variant_shape shown.items ≡ union_shown declared.now) }
{
    match &declared.body {
        Body::Union(body) => members_of(alloc, &body.members),
        _ => Ok(Vec::new(alloc)),
    }
}
