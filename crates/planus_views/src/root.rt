//! Verified roots.

ghost use Rattle.std.specs.Prelude.{ℕ, List, Ok, Err, IfOk, IfErr};
ghost use Rattle.planus.specs.Roots.{IsRoot};
ghost use Rattle.planus_verify.specs.Walks.{RootWalks};
ghost use Rattle.planus_views.specs.Buffers.{VerifiesTable};
ghost use Rattle.planus_views.specs.Fields.{TableHolds};
ghost use Rattle.planus_views.specs.Nested.{ReturnsRoot};

use crate::view_of::ViewOf;
use planus::SliceWithStartOffset;
use planus::table_reader::Table;
use planus_verify::{Fault, Limits, VerifiedKind, root_passes, verify_kind, verify_read};

/// Verifies the root of a whole buffer with all that it leads to, and returns its view.
#[inline(always)]
pub fn verify_root<'a, V: ViewOf<'a>>(bytes: &'a [u8], limits: Limits) -> Result<V, Fault>
    ensures root { (name : List ℕ)
        → IfOk result (λ view. IsRoot V.Kind name V.table bytes.entry.now (Ok view)) }
    ensures passed { IfOk result (λ view. (left : ℕ) × RootWalks V.Kind.schema V.Kind.index
        limits.depth limits.tables bytes.entry.now (Ok left)) }
    ensures fault { IfErr result (λ found. RootWalks V.Kind.schema V.Kind.index limits.depth
        limits.tables bytes.entry.now (Err found)) }
{
    match root_passes::<V::Kind>(bytes, limits) {
        Some(table) => Ok(V::of_verified(table)),
        None => walked_root(bytes, limits),
    }
}

/// As [`verify_root`], by a walk over the schema, which finds the fault.
#[cold]
#[inline(never)]
fn walked_root<'a, V: ViewOf<'a>>(bytes: &'a [u8], limits: Limits) -> Result<V, Fault>
    ensures root { (name : List ℕ)
        → IfOk result (λ view. IsRoot V.Kind name V.table bytes.entry.now (Ok view)) }
    ensures passed { IfOk result (λ view. (left : ℕ) × RootWalks V.Kind.schema V.Kind.index
        limits.depth limits.tables bytes.entry.now (Ok left)) }
    ensures fault { IfErr result (λ found. RootWalks V.Kind.schema V.Kind.index limits.depth
        limits.tables bytes.entry.now (Err found)) }
{
    match verify_kind::<V::Kind>(bytes, limits) {
        Ok(table) => Ok(V::of_verified(table)),
        Err(fault) => Err(fault),
    }
}

/// Verifies a table that was read with all that it leads to, and returns its view. The limits are
/// those of this table and what it leads to.
pub fn verify_table<'a, V: ViewOf<'a>>(table: Table<'a>, limits: Limits) -> Result<V, Fault>
    ensures { VerifiesTable V.table V.Kind.schema V.Kind.index limits table.entry result }
{
    match verify_read::<V::Kind>(table, limits) {
        Ok(()) => Ok(V::of_verified(table)),
        Err(fault) => Err(fault),
    }
}

/// Returns the view of the root of a whole buffer. Requires it to be verified.
#[inline(always)]
pub(crate) fn root_unchecked<'a, V: ViewOf<'a>>(bytes: &'a [u8]) -> V
    requires { ∥ ((n : ℕ) × TableHolds V.Kind.schema n V.Kind.index 0 bytes.now 0) ∥₁ }
    ensures { ReturnsRoot V.Kind V.table bytes.entry.now result }
{
    let buffer = SliceWithStartOffset::new(bytes, 0);
    V::of_verified(Table::from_buffer_unchecked(buffer, 0))
}
