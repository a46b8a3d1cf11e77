//! The root of a buffer.

ghost use Rattle.std.specs.Prelude.{◌↔◌, ◌∷◌, [], ℕ, List, codes, IfOk, IfErr, IsTrue, Some, None};
ghost use Rattle.std.specs.Prelude.{Ok, Err};
ghost use Rattle.std.specs.Borrow.{sem};
ghost use Rattle.planus.specs.Printed.{BytesStand, IsPrefixed, FinishGives, SizedFinishGives};
ghost use Rattle.planus.specs.Printed.{EndsAs, FinishLeaves, SizedFinishLeaves, IsIn, IsPrepared};
ghost use Rattle.planus.specs.Printed.{IsRoot, IsSizedRoot};
ghost use Rattle.planus_views.specs.Printed.{view_table, RootWalks, IsVerifiedBuffer};
ghost use Rattle.planus_views.specs.Printed.{IsVerifiedSized, VerifiesRoot, IsWhereBy};
ghost use Rattle.planus_views.specs.Printed.{IsWhereFaultBy, default_limits};
ghost use Rattle.harbour.specs.Verified.{verified_schema};
ghost use Rattle.harbour.specs.Verified.{verified_names};
ghost use Rattle.harbour.specs.declared.ship.Ship.{Ship};
ghost use Rattle.harbour.specs.declared.verified.ship.ShipView.{ShipView};

use crate::FILE_IDENTIFIER;
use crate::ship::{Ship, ShipRef};
use crate::verified::ship::ShipView;
use planus::{BuildError, Builder, Offset, read_root, read_sized_root};

/// Reads the root of a buffer.
pub fn read_as_root(bytes: &[u8]) -> planus::Result<ShipRef<'_>>
    ensures { IsRoot Ship (codes "[ShipRef]") (λ view. view.0) bytes.now result }
{
    read_root(bytes)
}

/// Reads the root of the first of these size-prefixed buffers, and returns what follows it too.
pub fn read_size_prefixed_as_root(bytes: &[u8]) -> planus::Result<(ShipRef<'_>, &[u8])>
    ensures { IsSizedRoot (codes "[ShipRef]") (λ view. view.0) bytes.now result }
{
    read_sized_root(bytes)
}

/// Verifies the root of a buffer with all that it leads to, within limits, and returns its view, whose
/// accessors don't fail.
pub fn verify_as_root(
    bytes: &[u8],
    limits: planus_views::Limits,
) -> Result<ShipView<'_>, planus_views::Fault>
    ensures root { (name : List ℕ) → IfOk result (λ view. IsRoot Ship name
        (λ (view : ShipView). view_table view.0) bytes.now (Ok view)) }
    ensures passed { IfOk result (λ view. (left : ℕ) × RootWalks verified_schema 2 limits.depth
        limits.tables bytes.now (Ok left)) }
    ensures fault { IfErr result (λ found. RootWalks verified_schema 2 limits.depth limits.tables
        bytes.now (Err found)) }
{
    planus_views::verify_root(bytes, limits)
}

/// Verifies the root of the first of these size-prefixed buffers as [`verify_as_root`], and returns
/// what follows the buffer too. The limits are those of one buffer.
pub fn verify_size_prefixed_as_root(
    bytes: &[u8],
    limits: planus_views::Limits,
) -> Result<(ShipView<'_>, &[u8]), planus_views::BufferFault>
    ensures { IsVerifiedSized (VerifiesRoot Ship (λ (view : ShipView). view_table view.0)
        verified_schema 2 limits) None bytes.now result }
{
    planus_views::verify_sized_buffer(bytes, limits, None)
}

/// As [`verify_as_root`], of a buffer with the file identifier: fails if the buffer lacks it.
pub fn verify_buffer(
    bytes: &[u8],
    limits: planus_views::Limits,
) -> Result<ShipView<'_>, planus_views::BufferFault>
    ensures { IsVerifiedBuffer (VerifiesRoot Ship (λ (view : ShipView). view_table view.0)
        verified_schema 2 limits) (Some (83 ∷ 72 ∷ 73 ∷ 80 ∷ [])) bytes.now result }
{
    planus_views::verify_buffer(bytes, limits, Some(FILE_IDENTIFIER))
}

/// As [`verify_size_prefixed_as_root`], of a buffer with the file identifier.
pub fn verify_size_prefixed_buffer(
    bytes: &[u8],
    limits: planus_views::Limits,
) -> Result<(ShipView<'_>, &[u8]), planus_views::BufferFault>
    ensures { IsVerifiedSized (VerifiesRoot Ship (λ (view : ShipView). view_table view.0)
        verified_schema 2 limits) (Some (83 ∷ 72 ∷ 73 ∷ 80 ∷ [])) bytes.now result }
{
    planus_views::verify_sized_buffer(bytes, limits, Some(FILE_IDENTIFIER))
}

/// Returns the names of the fields that lead from the root of a buffer to what an error of its
/// accessors is of, as `crew[3].name`, or `None` if none do within the default limits.
pub fn where_is(
    alloc: std::alloc::Global,
    error: &planus::Error,
    bytes: &[u8],
) -> Result<Option<planus_views::FieldPath>, std::alloc::AllocError>
    ensures { IsWhereBy verified_schema verified_names 2 default_limits error.now bytes.now
        result }
{
    let names = crate::verified::names();
    let limits = planus_views::Limits::default();
    planus_views::where_is::<Ship>(alloc, &names, error, bytes, limits)
}

/// The same of a fault of verification.
pub fn where_fault_is(
    alloc: std::alloc::Global,
    fault: &planus_views::Fault,
    bytes: &[u8],
) -> Result<Option<planus_views::FieldPath>, std::alloc::AllocError>
    ensures { IsWhereFaultBy verified_schema verified_names 2 default_limits fault.now bytes.now
        result }
{
    let names = crate::verified::names();
    let limits = planus_views::Limits::default();
    planus_views::where_fault_is::<Ship>(alloc, &names, fault, bytes, limits)
}

/// Finishes a buffer with this root and the file identifier, as [`Builder::finish`].
pub fn finish_root(builder: &mut Builder, root: Offset<Ship>) -> Result<&[u8], BuildError>
    requires { IsIn builder.old root }
    ensures bytes { IfOk result (λ bytes. FinishGives (IsPrepared root)
        (Some (83 ∷ 72 ∷ 73 ∷ 80 ∷ [])) builder.old bytes.now) }
    ensures* after { sem 𝓛 (EndsAs builder.entry (FinishLeaves (IsPrepared root)
        (Some (83 ∷ 72 ∷ 73 ∷ 80 ∷ [])) builder.old result)) }
{
    builder.finish(root, Some(FILE_IDENTIFIER))
}

/// The same after the size of what follows, as [`Builder::finish_size_prefixed`].
pub fn finish_root_size_prefixed(
    builder: &mut Builder,
    root: Offset<Ship>,
) -> Result<&[u8], BuildError>
    requires { IsIn builder.old root }
    ensures bytes { IfOk result (λ bytes. SizedFinishGives (IsPrepared root)
        (Some (83 ∷ 72 ∷ 73 ∷ 80 ∷ [])) builder.old bytes.now) }
    ensures size { IfOk result (λ bytes. IsPrefixed bytes.now) }
    ensures* after { sem 𝓛 (EndsAs builder.entry (SizedFinishLeaves (IsPrepared root)
        (Some (83 ∷ 72 ∷ 73 ∷ 80 ∷ [])) builder.old result)) }
{
    builder.finish_size_prefixed(root, Some(FILE_IDENTIFIER))
}

/// Returns whether a buffer has the file identifier; of one after its size, pass what follows it.
pub fn has_identifier(bytes: &[u8]) -> bool
    ensures { IsTrue result ↔ BytesStand bytes.now 4 (83 ∷ 72 ∷ 73 ∷ 80 ∷ []) }
{
    planus::has_identifier(bytes, FILE_IDENTIFIER)
}
