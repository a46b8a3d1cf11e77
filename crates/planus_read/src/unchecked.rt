//! Reads without tests, where all clauses of the reading hold.

ghost use Rattle.std.specs.Prelude.{◌≡◌, [], ◌+◌, drop, Ok};
ghost use Rattle.planus_read.specs.Clauses.{AllHold, Answer, shown};
ghost use Rattle.planus_read.specs.Slices.{slice_bytes, slice_start, ShowsBytes};
ghost use Rattle.planus_read.specs.Reading.{target, head_clauses, items_at, count_at};
ghost use Rattle.planus_read.specs.Reading.{text_clauses, text_reading};
ghost use Rattle.planus_read.specs.Reading.{byte_list_clauses, byte_list_reading};

use crate::slice_helpers::SliceWithStartOffset;
use crate::traits::VectorRead;

/// Returns the bytes of a vector from its first item on, and its count. Requires the clauses of its
/// head to hold.
#[inline(always)]
pub fn array_unchecked<'buf>(
    buffer: SliceWithStartOffset<'buf>,
    offset: usize,
) -> (SliceWithStartOffset<'buf>, usize)
    requires { AllHold (head_clauses (slice_bytes buffer) offset []) }
    ensures bytes { slice_bytes result.0 ≡ drop
        (items_at (slice_bytes buffer.entry) offset) (slice_bytes buffer.entry) }
    ensures start { slice_start result.0 ≡ slice_start buffer.entry
        + items_at (slice_bytes buffer.entry) offset }
    ensures count { result.1 ≡ count_at (slice_bytes buffer.entry) offset }
{
    let value = <u32 as VectorRead<'buf>>::from_buffer(buffer, offset) as usize;
    let target = offset + value;
    let count = <u32 as VectorRead<'buf>>::from_buffer(buffer, target) as usize;
    (buffer.unchecked_advance(target + 4), count)
}

/// Returns the bytes of a byte vector. Requires all clauses of its reading to hold.
#[inline(always)]
pub fn bytes_unchecked<'buf>(buffer: SliceWithStartOffset<'buf>, offset: usize) -> &'buf [u8]
    requires { AllHold (byte_list_clauses (slice_bytes buffer) offset) }
    ensures { Answer (shown ShowsBytes (byte_list_reading (slice_bytes buffer.entry) offset))
        (Ok result) }
{
    let (items, count) = array_unchecked(buffer, offset);
    let items = items.as_slice();
    &items[..count]
}

/// Returns the bytes of a string. Requires all clauses of its reading to hold, UTF-8 among them.
#[inline(always)]
pub fn text_unchecked<'buf>(buffer: SliceWithStartOffset<'buf>, offset: usize) -> &'buf str
    requires { AllHold (text_clauses (slice_bytes buffer) offset) }
    ensures { Answer (shown ShowsBytes (text_reading (slice_bytes buffer.entry) offset))
        (Ok result) }
{
    let (items, count) = array_unchecked(buffer, offset);
    let items = items.as_slice();
    let bytes = &items[..count];
    unsafe { std::str::from_utf8_unchecked(bytes) }
}
