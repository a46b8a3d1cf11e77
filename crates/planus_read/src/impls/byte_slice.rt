//! Byte vectors as fields.

ghost use Rattle.std.specs.Prelude.{◌≡◌};
ghost use Rattle.planus_read.specs.Clauses.{Answer, shown};
ghost use Rattle.planus_read.specs.Slices.{ShowsBytes};
ghost use Rattle.planus_read.specs.Reading.{byte_list_reading};

use crate::errors::ErrorKind;
use crate::heads::array_from_buffer;
use crate::slice_helpers::SliceWithStartOffset;
use crate::traits::TableRead;

impl<'buf> TableRead<'buf> for &'buf [u8] {
    ghost reads = { λ S start f r. Answer (shown ShowsBytes (byte_list_reading S f)) r };

    #[inline]
    fn from_buffer(
        buffer: SliceWithStartOffset<'buf>,
        offset: usize,
    ) -> Result<&'buf [u8], ErrorKind> {
        let (items, count) = array_from_buffer(buffer, offset)?;
        let items = items.as_slice();
        let count = count as usize;
        if count > items.len() {
            return Err(ErrorKind::InvalidLength);
        }
        Ok(&items[..count])
    }
}
