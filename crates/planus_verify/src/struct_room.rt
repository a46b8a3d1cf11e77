//! Bytes from a reference's target on.

ghost use Rattle.planus_verify.specs.Rooms.{IsRoom};

use planus_read::errors::ErrorKind;
use planus_read::{SliceWithStartOffset, TableRead};

/// How many bytes there are from those on to which a reference leads.
#[derive(Clone, Copy)]
pub(crate) struct StructRoom {
    pub bytes: usize,
}

impl<'b> TableRead<'b> for StructRoom {
    ghost reads = { λ S start f r. IsRoom S f r };

    #[inline(always)]
    fn from_buffer(
        buffer: SliceWithStartOffset<'b>,
        offset: usize,
    ) -> Result<StructRoom, ErrorKind> {
        let value = <u32 as TableRead<'b>>::from_buffer(buffer, offset)?;
        let rest = buffer.advance(offset + value as usize)?;
        Ok(StructRoom { bytes: rest.len() })
    }
}
