//! Heads of vectors and strings: a reference, and its count.

ghost use Rattle.std.specs.Prelude.{◌≡◌};
ghost use Rattle.planus_read.specs.Clauses.{Answer, shown};
ghost use Rattle.planus_read.specs.Heads.{ShowsItems};
ghost use Rattle.planus_read.specs.Slices.{slice_bytes, slice_start};
ghost use Rattle.planus_read.specs.Reading.{head_reading};

use crate::errors::ErrorKind;
use crate::slice_helpers::SliceWithStartOffset;
use crate::traits::TableRead;

/// Returns the bytes of a vector from its first item on, and its count, or
/// [`ErrorKind::InvalidOffset`].
pub fn array_from_buffer<'buf>(
    buffer: SliceWithStartOffset<'buf>,
    offset: usize,
) -> Result<(SliceWithStartOffset<'buf>, u32), ErrorKind>
    ensures { let S = slice_bytes buffer.entry in let start = slice_start buffer.entry in
        Answer (shown (ShowsItems S start) (head_reading S offset)) result }
{
    let value = <u32 as TableRead<'buf>>::from_buffer(buffer, offset)?;
    let target = offset + value as usize;
    let count = <u32 as TableRead<'buf>>::from_buffer(buffer, target)?;
    let items = buffer.unchecked_advance(target + 4);
    Ok((items, count))
}
