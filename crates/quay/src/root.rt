//! The root of a buffer.

ghost use Rattle.std.specs.Prelude.{ℕ, List, codes, IfOk, IfErr, None, Ok, Err};
ghost use Rattle.planus.specs.Printed.{IsRoot, IsSizedRoot};
ghost use Rattle.planus_views.specs.Printed.{view_table, RootWalks, IsVerifiedSized, VerifiesRoot};
ghost use Rattle.planus_views.specs.Printed.{IsWhereBy, IsWhereFaultBy, default_limits};
ghost use Rattle.quay.specs.Verified.{verified_schema};
ghost use Rattle.quay.specs.Verified.{verified_names};
ghost use Rattle.quay.specs.declared.quay.Quay.{Quay};
ghost use Rattle.quay.specs.declared.verified.quay.QuayView.{QuayView};

use crate::quay::{Quay, QuayRef};
use crate::verified::quay::QuayView;
use planus::{read_root, read_sized_root};

/// Reads the root of a buffer.
pub fn read_as_root(bytes: &[u8]) -> planus::Result<QuayRef<'_>>
    ensures { IsRoot Quay (codes "[QuayRef]") (λ view. view.0) bytes.now result }
{
    read_root(bytes)
}

/// Reads the root of the first of these size-prefixed buffers, and returns what follows it too.
pub fn read_size_prefixed_as_root(bytes: &[u8]) -> planus::Result<(QuayRef<'_>, &[u8])>
    ensures { IsSizedRoot (codes "[QuayRef]") (λ view. view.0) bytes.now result }
{
    read_sized_root(bytes)
}

/// Verifies the root of a buffer with all that it leads to, within limits, and returns its view, whose
/// accessors don't fail.
pub fn verify_as_root(
    bytes: &[u8],
    limits: planus_views::Limits,
) -> Result<QuayView<'_>, planus_views::Fault>
    ensures root { (name : List ℕ) → IfOk result (λ view. IsRoot Quay name
        (λ (view : QuayView). view_table view.0) bytes.now (Ok view)) }
    ensures passed { IfOk result (λ view. (left : ℕ) × RootWalks verified_schema 3 limits.depth
        limits.tables bytes.now (Ok left)) }
    ensures fault { IfErr result (λ found. RootWalks verified_schema 3 limits.depth limits.tables
        bytes.now (Err found)) }
{
    planus_views::verify_root(bytes, limits)
}

/// Verifies the root of the first of these size-prefixed buffers as [`verify_as_root`], and returns
/// what follows the buffer too. The limits are those of one buffer.
pub fn verify_size_prefixed_as_root(
    bytes: &[u8],
    limits: planus_views::Limits,
) -> Result<(QuayView<'_>, &[u8]), planus_views::BufferFault>
    ensures { IsVerifiedSized (VerifiesRoot Quay (λ (view : QuayView). view_table view.0)
        verified_schema 3 limits) None bytes.now result }
{
    planus_views::verify_sized_buffer(bytes, limits, None)
}

/// Returns the names of the fields that lead from the root of a buffer to what an error of its
/// accessors is of, as `crew[3].name`, or `None` if none do within the default limits.
pub fn where_is(
    alloc: std::alloc::Global,
    error: &planus::Error,
    bytes: &[u8],
) -> Result<Option<planus_views::FieldPath>, std::alloc::AllocError>
    ensures { IsWhereBy verified_schema verified_names 3 default_limits error.now bytes.now
        result }
{
    let names = crate::verified::names();
    let limits = planus_views::Limits::default();
    planus_views::where_is::<Quay>(alloc, &names, error, bytes, limits)
}

/// The same of a fault of verification.
pub fn where_fault_is(
    alloc: std::alloc::Global,
    fault: &planus_views::Fault,
    bytes: &[u8],
) -> Result<Option<planus_views::FieldPath>, std::alloc::AllocError>
    ensures { IsWhereFaultBy verified_schema verified_names 3 default_limits fault.now bytes.now
        result }
{
    let names = crate::verified::names();
    let limits = planus_views::Limits::default();
    planus_views::where_fault_is::<Quay>(alloc, &names, fault, bytes, limits)
}
