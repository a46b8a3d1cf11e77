//! The functions of the root.

use crate::at::At;
use crate::context::Context;
use crate::printer::Piece::Once;
use crate::printer::Printer;

const READ: &str = "\
/// Reads the root of a buffer.
pub fn read_as_root(^bytes: &[u8]^) -> planus::Result<$TRef<'_>>
    ensures {~IsRoot~$T~(codes \"[$TRef]\")~(λ view. view.0)~bytes.now~result }
{
    read_root(bytes)
}
";

const READ_SIZED: &str = "
/// Reads the root of the first of these size-prefixed buffers, and returns what follows it too.
pub fn read_size_prefixed_as_root(^bytes: &[u8]^) -> planus::Result<($TRef<'_>, &[u8])>
    ensures {~IsSizedRoot~(codes \"[$TRef]\")~(λ view. view.0)~bytes.now~result }
{
    read_sized_root(bytes)
}
";

const VERIFY: &str = "
/// Verifies the root of a buffer with all that it leads to, within limits, and returns its view, whose
/// accessors don't fail.
pub fn verify_as_root(^bytes: &[u8],^limits: planus_views::Limits^) -> \
     %Result<$TView<'_>, planus_views::Fault>
    ensures root { (name : List ℕ) →~IfOk~result~(λ view.~IsRoot~$T~name~\
     (λ (view : $TView). view_table view.0)~bytes.now~(Ok view)) }
    ensures passed { IfOk~result~(λ view. (left : ℕ) ×~RootWalks~verified_schema~$a~limits.depth~\
     limits.tables~bytes.now~(Ok left)) }
    ensures fault { IfErr~result~(λ found.~RootWalks~verified_schema~$a~limits.depth~\
     limits.tables~bytes.now~(Err found)) }
{
    planus_views::verify_root(bytes, limits)
}
";

const WHERE: &str = "
/// Returns the names of the fields that lead from the root of a buffer to what an error of its
/// accessors is of, as `crew[3].name`, or `None` if none do within the default limits.
pub fn where_is(^alloc: std::alloc::Global,^error: &planus::Error,^bytes: &[u8]^) -> \
     %Result<Option<planus_views::FieldPath>, std::alloc::AllocError>
    ensures {~IsWhereBy~verified_schema~verified_names~$a~default_limits~error.now~bytes.now~\
     result }
{
    let names = crate::verified::names();
    let limits = planus_views::Limits::default();
    planus_views::where_is::<$T>(^alloc,^&names,^error,^bytes,^limits^)
}

/// The same of a fault of verification.
pub fn where_fault_is(^alloc: std::alloc::Global,^fault: &planus_views::Fault,^bytes: &[u8]^) -> \
     %Result<Option<planus_views::FieldPath>, std::alloc::AllocError>
    ensures {~IsWhereFaultBy~verified_schema~verified_names~$a~default_limits~fault.now~bytes.now~\
     result }
{
    let names = crate::verified::names();
    let limits = planus_views::Limits::default();
    planus_views::where_fault_is::<$T>(^alloc,^&names,^fault,^bytes,^limits^)
}
";

const FINISH: &str = "
/// Finishes a buffer with this root and the file identifier, as [`Builder::finish`].
pub fn finish_root(^builder: &mut Builder,^root: Offset<$T>^) -> %Result<&[u8], BuildError>
    requires { IsIn builder.old root }
    ensures bytes {~IfOk~result~(λ bytes.~FinishGives~(IsPrepared root)~\
     (Some ($I))~builder.old~bytes.now) }
    ensures* after {~sem~𝓛~(EndsAs~builder.entry~(FinishLeaves~(IsPrepared root)~\
     (Some ($I))~builder.old~result)) }
{
    builder.finish(root, Some(FILE_IDENTIFIER))
}
";

const FINISH_SIZED: &str = "
/// The same after the size of what follows, as [`Builder::finish_size_prefixed`].
pub fn finish_root_size_prefixed(^builder: &mut Builder,^root: Offset<$T>^) \
     -> %Result<&[u8], BuildError>
    requires { IsIn builder.old root }
    ensures bytes {~IfOk~result~(λ bytes.~SizedFinishGives~(IsPrepared root)~\
     (Some ($I))~builder.old~bytes.now) }
    ensures size { IfOk result (λ bytes. IsPrefixed bytes.now) }
    ensures* after {~sem~𝓛~(EndsAs~builder.entry~(SizedFinishLeaves~(IsPrepared root)~\
     (Some ($I))~builder.old~result)) }
{
    builder.finish_size_prefixed(root, Some(FILE_IDENTIFIER))
}
";

const CHECK: &str = "
/// Returns whether a buffer has the file identifier; of one after its size, pass what follows it.
pub fn has_identifier(bytes: &[u8]) -> bool
    ensures { IsTrue result ↔ BytesStand bytes.now 4 ($I) }
{
    planus::has_identifier(bytes, FILE_IDENTIFIER)
}
";

/// Prints the functions that read and finish a buffer by its root.
pub(crate) fn print_root<'a>(context: &'a Context<'a>, at: At) -> Printer<'a> {
    let mut printer = Printer::new(context);
    printer.put_pieces(&[Once(READ), Once(READ_SIZED)], at);
    if context.verified {
        printer.put(VERIFY, at);
        printer.put_verified_buffers(at);
        printer.put(WHERE, at);
    }
    if context.identifier.is_some() {
        printer.put_pieces(&[Once(FINISH), Once(FINISH_SIZED), Once(CHECK)], at);
    }
    printer
}
