//! Size-prefixed buffers and file identifiers.

ghost use Rattle.std.specs.Prelude.{◌↔◌, IsTrue};
ghost use Rattle.planus_read.specs.Bytes.{BytesStand};
ghost use Rattle.planus_read.specs.Clauses.{Answer, shown};
ghost use Rattle.planus_read.specs.SizePrefixed.{ShowsPrefixed, prefixed_reading};

use crate::errors::ErrorKind;
use crate::slice_helpers::SliceWithStartOffset;
use crate::traits::TableRead;

/// Returns the first size-prefixed buffer, as the slice after its size, and the bytes after it.
/// Fails with [`ErrorKind::InvalidOffset`] if there are fewer than 4 bytes, and with
/// [`ErrorKind::InvalidLength`] if fewer than the size follow.
#[inline]
pub fn read_size_prefixed<'buf>(
    bytes: &'buf [u8],
) -> Result<(SliceWithStartOffset<'buf>, &'buf [u8]), ErrorKind>
    ensures { Answer (shown ShowsPrefixed (prefixed_reading bytes.now)) result }
{
    let whole = SliceWithStartOffset::new(bytes, 0);
    let size = <u32 as TableRead<'buf>>::from_buffer(whole, 0)? as usize;
    let behind = &bytes[4..];
    if size > behind.len() {
        return Err(ErrorKind::InvalidLength);
    }
    let (content, rest) = behind.split_at(size);
    Ok((SliceWithStartOffset::new(content, 4), rest))
}

/// Returns whether the file identifier is at offset 4. For a size-prefixed buffer, pass the bytes
/// after the size.
#[inline]
pub fn has_identifier(bytes: &[u8], identifier: [u8; 4]) -> bool
    ensures { IsTrue result ↔ BytesStand bytes.now 4 identifier }
{
    bytes.len() >= 8 && bytes[4..8] == identifier[..]
}
