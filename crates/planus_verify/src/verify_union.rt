//! How unions are verified.

ghost use Rattle.std.specs.Prelude.{◌≡◌, Some};
ghost use Rattle.planus_read.specs.Places.{place_bytes, place_start, place_offset};
ghost use Rattle.planus_read.specs.declared.errors.ErrorKind.{ErrorKind};
ghost use Rattle.planus_verify.specs.Passes.{StepsPass};
ghost use Rattle.planus_verify.specs.Schemas.{variant_in};
ghost use Rattle.planus_verify.specs.Steps.{variant_steps};
ghost use Rattle.planus_verify.specs.Walks.{Walks};
ghost use Rattle.planus_verify.specs.declared.fault.Fault.{Fault};
ghost use Rattle.planus_verify.specs.declared.schema.VariantKind.TheVariants as variant_kind;

use crate::passes::{reference_passes, text_at_passes};
use crate::readings::struct_is_there;
use crate::union_kind::UnionKind;
use crate::verify_table::Verify;
use planus_read::Place;

/// How unions of a kind are verified.
pub trait VerifyUnion: UnionKind {
    /// Verifies the union of this tag whose reference is at a place, as
    /// [`crate::Verify::pass`] does a table: `None` says nothing. A tag that the schema doesn't have
    /// passes.
    fn pass_member(tag: u8, at: Place<'_>, depth: u8, left: usize) -> Option<usize>
        ensures { (here : ErrorKind → Fault) → StepsPass (Walks Self.schema depth) (variant_steps here
            (variant_in Self.schema.variants Self.union tag) (place_bytes at.entry) (place_start at.entry)
            (place_offset at.entry)) left result };
}

/// Verifies a union whose tag is that of a variant with tables of kind `L`.
#[inline(always)]
pub fn member_passes<U: UnionKind, L: Verify>(
    tag: u8,
    variant: u8,
    at: Place<'_>,
    depth: u8,
    left: usize,
) -> Option<usize>
    requires same { L.schema ≡ U.schema }
    requires tag { tag ≡ variant }
    requires variant { variant_in U.schema.variants U.union variant ≡ Some (variant_kind.Table L.index) }
    ensures { (here : ErrorKind → Fault) → StepsPass (Walks U.schema depth) (variant_steps here
        (variant_in U.schema.variants U.union tag) (place_bytes at.entry) (place_start at.entry)
        (place_offset at.entry)) left result }
{
    reference_passes::<L>(at, depth, left)
}

/// Verifies a union whose tag is that of a variant with strings.
#[inline(always)]
pub fn text_member_passes<U: UnionKind>(
    tag: u8,
    variant: u8,
    at: Place<'_>,
    depth: u8,
    left: usize,
) -> Option<usize>
    requires tag { tag ≡ variant }
    requires variant { variant_in U.schema.variants U.union variant ≡ Some variant_kind.Text }
    ensures { (here : ErrorKind → Fault) → StepsPass (Walks U.schema depth) (variant_steps here
        (variant_in U.schema.variants U.union tag) (place_bytes at.entry) (place_start at.entry)
        (place_offset at.entry)) left result }
{
    if text_at_passes(at) {
        return Some(left);
    }
    None
}

/// Verifies a union whose tag is that of a variant with structs of this size in bytes.
#[inline(always)]
pub fn struct_member_passes<U: UnionKind>(
    tag: u8,
    variant: u8,
    size: usize,
    at: Place<'_>,
    depth: u8,
    left: usize,
) -> Option<usize>
    requires tag { tag ≡ variant }
    requires variant { variant_in U.schema.variants U.union variant
        ≡ Some (variant_kind.Struct size) }
    ensures { (here : ErrorKind → Fault) → StepsPass (Walks U.schema depth) (variant_steps here
        (variant_in U.schema.variants U.union tag) (place_bytes at.entry) (place_start at.entry)
        (place_offset at.entry)) left result }
{
    if struct_is_there(at, size).is_ok() {
        return Some(left);
    }
    None
}
