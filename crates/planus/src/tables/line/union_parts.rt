//! The tag of a union and the reference to its value.
ghost use Rattle.std.specs.Prelude.{◌≡◌};
ghost use Rattle.std.specs.Option.{option_map};

use planus_write::{Offset, UnionOffset};

#[inline(always)]
pub(crate) fn tag_of<T>(union: &Option<UnionOffset<T>>) -> Option<u8>
    ensures { result ≡ option_map (λ union. union.tag) union.now }
{
    match union {
        None => None,
        Some(union) => Some(union.tag()),
    }
}

#[inline(always)]
pub(crate) fn value_of<T>(union: &Option<UnionOffset<T>>) -> Option<Offset<()>>
    ensures { result ≡ option_map (λ union. union.offset) union.now }
{
    match union {
        None => None,
        Some(union) => Some(union.offset()),
    }
}
