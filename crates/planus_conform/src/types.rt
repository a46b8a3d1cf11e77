//! Whether types are the same.

ghost use Rattle.std.specs.Prelude.{◌≡◌, ◌==◌};
ghost use Rattle.planus_conform.specs.Types as spec;

use crate::matching::are_matched;
use planus_schema::{Base, FieldType, Scalar, StructField};

fn scalar_code(scalar: Scalar) -> u8
    ensures { result ≡ spec.scalar_code scalar }
{
    match scalar {
        Scalar::Bool => 0,
        Scalar::Byte => 1,
        Scalar::UByte => 2,
        Scalar::Short => 3,
        Scalar::UShort => 4,
        Scalar::Int => 5,
        Scalar::UInt => 6,
        Scalar::Long => 7,
        Scalar::ULong => 8,
        Scalar::Float => 9,
        Scalar::Double => 10,
    }
}

pub(crate) fn same_scalar(a: Scalar, b: Scalar) -> bool
    ensures { result ≡ (spec.scalar_code a == spec.scalar_code b) }
{
    scalar_code(a) == scalar_code(b)
}

pub(crate) fn same_base(matches: &[Option<usize>], a: Base, b: Base) -> bool
    ensures { result ≡ spec.same_base matches.now a b }
{
    match (a, b) {
        (Base::Scalar(s), Base::Scalar(t)) => same_scalar(s, t),
        (Base::Text, Base::Text) => true,
        (Base::Enum(i), Base::Enum(j)) => are_matched(matches, i, j),
        (Base::Struct(i), Base::Struct(j)) => are_matched(matches, i, j),
        (Base::Table(i), Base::Table(j)) => are_matched(matches, i, j),
        (Base::Union(i), Base::Union(j)) => are_matched(matches, i, j),
        _ => false,
    }
}

pub(crate) fn same_truth(a: bool, b: bool) -> bool
    ensures { result ≡ spec.same_truth a b }
{
    if a { b } else { !b }
}

pub(crate) fn same_type(matches: &[Option<usize>], t: FieldType, u: FieldType) -> bool
    ensures { result ≡ spec.same_type matches.now t u }
{
    same_truth(t.vector, u.vector) && same_base(matches, t.base, u.base)
}

fn same_count(a: Option<usize>, b: Option<usize>) -> bool
    ensures { result ≡ spec.same_count a b }
{
    match (a, b) {
        (None, None) => true,
        (Some(a), Some(b)) => a == b,
        _ => false,
    }
}

pub(crate) fn same_part(matches: &[Option<usize>], f: &StructField, g: &StructField) -> bool
    ensures { result ≡ spec.same_part matches.now f.now g.now }
{
    same_base(matches, f.base, g.base) && same_count(f.count, g.count)
}
