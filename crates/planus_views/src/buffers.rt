//! Verified roots of buffers that have a size before them or a file identifier.

ghost use Rattle.std.specs.Prelude.{◌↔◌, IsTrue};
ghost use Rattle.planus_views.specs.Buffers.{IsIdentified, IsVerifiedBuffer, IsVerifiedSized};
ghost use Rattle.planus_views.specs.Buffers.{VerifiesRoot};

use crate::buffer_fault::BufferFault;
use crate::root::verify_root;
use crate::view_of::ViewOf;
use planus::{has_identifier, read_size_prefixed};
use planus_verify::Limits;

fn is_identified(bytes: &[u8], identifier: Option<[u8; 4]>) -> bool
    ensures { IsTrue result ↔ IsIdentified identifier bytes.now }
{
    match identifier {
        Some(identifier) => has_identifier(bytes, identifier),
        None => true,
    }
}

/// Verifies a whole buffer, and returns the view of its root: first that the file identifier is
/// there, if one is asked for, and then as [`verify_root`].
pub fn verify_buffer<'a, V: ViewOf<'a>>(
    bytes: &'a [u8],
    limits: Limits,
    identifier: Option<[u8; 4]>,
) -> Result<V, BufferFault>
    ensures { IsVerifiedBuffer (VerifiesRoot V.Kind V.table V.Kind.schema V.Kind.index limits)
        identifier bytes.entry.now result }
{
    if !is_identified(bytes, identifier) {
        return Err(BufferFault::Identifier);
    }
    match verify_root::<V>(bytes, limits) {
        Ok(view) => Ok(view),
        Err(fault) => Err(BufferFault::Content(fault)),
    }
}

/// Verifies the first of these size-prefixed buffers as [`verify_buffer`], and returns the view of
/// its root and the bytes after the buffer. The limits are those of one buffer.
pub fn verify_sized_buffer<'a, V: ViewOf<'a>>(
    bytes: &'a [u8],
    limits: Limits,
    identifier: Option<[u8; 4]>,
) -> Result<(V, &'a [u8]), BufferFault>
    ensures { IsVerifiedSized (VerifiesRoot V.Kind V.table V.Kind.schema V.Kind.index limits)
        identifier bytes.entry.now result }
{
    let (content, rest) = match read_size_prefixed(bytes) {
        Ok(read) => read,
        Err(kind) => return Err(BufferFault::Size(kind)),
    };
    match verify_buffer::<V>(content.as_slice(), limits, identifier) {
        Ok(view) => Ok((view, rest)),
        Err(fault) => Err(fault),
    }
}
