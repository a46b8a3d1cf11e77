//! Reading a value of a fixed layout that stands by itself.

ghost use Rattle.planus_read.specs.Slices.{slice_bytes, slice_start};
ghost use Rattle.planus_view.specs.PlainRefs.{plain_slice, reads_plain_ref};

use crate::plain_ref::PlainRef;
use planus_read::errors::ErrorKind;
use planus_read::{Plain, SliceWithStartOffset, TableRead};

/// Returns the value to which the reference at the offset leads, or [`ErrorKind::InvalidOffset`] if
/// the reference or a byte of the value isn't in the slice.
#[inline]
pub fn read_plain_ref<'a, T: Plain>(
    buffer: SliceWithStartOffset<'a>,
    offset: usize,
) -> Result<PlainRef<'a, T>, ErrorKind>
    ensures { reads_plain_ref plain_slice T.SIZE (slice_bytes buffer.entry)
        (slice_start buffer.entry) offset result }
{
    let reference = <u32 as TableRead<'a>>::from_buffer(buffer, offset)?;
    let position = offset + reference as usize;
    match position.checked_add(T::SIZE) {
        Some(end) if end <= buffer.len() => {
            Ok(PlainRef::new(buffer.unchecked_advance(position)))
        }
        _ => Err(ErrorKind::InvalidOffset),
    }
}
