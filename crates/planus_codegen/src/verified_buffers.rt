//! The functions that verify buffers with a size before them or a file identifier.

use crate::at::At;
use crate::printer::Printer;

const VERIFY_SIZED: &str = "
/// Verifies the root of the first of these size-prefixed buffers as [`verify_as_root`], and returns
/// what follows the buffer too. The limits are those of one buffer.
pub fn verify_size_prefixed_as_root(^bytes: &[u8],^limits: planus_views::Limits^) -> \
     %Result<($TView<'_>, &[u8]), planus_views::BufferFault>
    ensures {~IsVerifiedSized~(VerifiesRoot~$T~(λ (view : $TView). view_table view.0)~\
     verified_schema~$a~limits)~None~bytes.now~result }
{
    planus_views::verify_sized_buffer(bytes, limits, None)
}
";

const VERIFY_IDENTIFIED: &str = "
/// As [`verify_as_root`], of a buffer with the file identifier: fails if the buffer lacks it.
pub fn verify_buffer(^bytes: &[u8],^limits: planus_views::Limits^) -> \
     %Result<$TView<'_>, planus_views::BufferFault>
    ensures {~IsVerifiedBuffer~(VerifiesRoot~$T~(λ (view : $TView). view_table view.0)~\
     verified_schema~$a~limits)~(Some ($I))~bytes.now~result }
{
    planus_views::verify_buffer(bytes, limits, Some(FILE_IDENTIFIER))
}

/// As [`verify_size_prefixed_as_root`], of a buffer with the file identifier.
pub fn verify_size_prefixed_buffer(^bytes: &[u8],^limits: planus_views::Limits^) -> \
     %Result<($TView<'_>, &[u8]), planus_views::BufferFault>
    ensures {~IsVerifiedSized~(VerifiesRoot~$T~(λ (view : $TView). view_table view.0)~\
     verified_schema~$a~limits)~(Some ($I))~bytes.now~result }
{
    planus_views::verify_sized_buffer(bytes, limits, Some(FILE_IDENTIFIER))
}
";

impl<'a> Printer<'a> {
    pub(crate) fn put_verified_buffers(&mut self, at: At) {
        self.put(VERIFY_SIZED, at);
        if self.context.identifier.is_some() {
            self.put(VERIFY_IDENTIFIED, at);
        }
    }
}
