//! Whether a value is there.

ghost use Rattle.planus_read.specs.Places.{place_bytes, place_offset};
ghost use Rattle.planus_read.specs.Reading.{vector_clauses, byte_list_clauses, text_clauses};
ghost use Rattle.planus_read.specs.Slices.{slice_bytes};
ghost use Rattle.planus_read.specs.Reading.{plain_ref_clauses};
ghost use Rattle.planus_verify.specs.Steps.{plain_clauses};
ghost use Rattle.planus_verify.specs.Walks.{IsTested};

use crate::struct_room::StructRoom;
use planus_read::errors::ErrorKind;
use planus_read::{Place, SliceWithStartOffset, array_from_buffer};

/// Tests a value of this size in bytes.
#[inline]
pub(crate) fn plain_is_there(
    buffer: SliceWithStartOffset<'_>,
    offset: usize,
    size: usize,
) -> Result<(), ErrorKind>
    ensures { IsTested (plain_clauses (slice_bytes buffer.entry) offset size) result }
{
    match offset.checked_add(size) {
        Some(end) if end <= buffer.len() => Ok(()),
        _ => Err(ErrorKind::InvalidOffset),
    }
}

/// Tests a vector of values of this size in bytes.
#[inline]
pub(crate) fn plains_are_there(
    buffer: SliceWithStartOffset<'_>,
    offset: usize,
    size: usize,
) -> Result<(), ErrorKind>
    ensures { IsTested (vector_clauses (slice_bytes buffer.entry) offset size) result }
{
    let (items, count) = array_from_buffer(buffer, offset)?;
    match (count as usize).checked_mul(size) {
        Some(all) if all <= items.len() => Ok(()),
        _ => Err(ErrorKind::InvalidLength),
    }
}

/// Tests a string.
#[inline]
pub(crate) fn text_is_there(at: Place<'_>) -> Result<(), ErrorKind>
    ensures { IsTested (text_clauses (place_bytes at.entry) (place_offset at.entry)) result }
{
    let _text = at.read::<&str>()?;
    Ok(())
}

/// Tests the struct of this size in bytes to which a reference leads.
#[inline]
pub(crate) fn struct_is_there(at: Place<'_>, size: usize) -> Result<(), ErrorKind>
    ensures { IsTested (plain_ref_clauses size (place_bytes at.entry) (place_offset at.entry))
        result }
{
    match at.read::<StructRoom>() {
        Ok(room) if size <= room.bytes => Ok(()),
        Ok(_) => Err(ErrorKind::InvalidOffset),
        Err(kind) => Err(kind),
    }
}

/// Tests a byte vector.
#[inline]
pub(crate) fn bytes_are_there(at: Place<'_>) -> Result<(), ErrorKind>
    ensures { IsTested (byte_list_clauses (place_bytes at.entry) (place_offset at.entry)) result }
{
    let _bytes = at.read::<&[u8]>()?;
    Ok(())
}
