//! Strings as fields and items.

ghost use Rattle.std.specs.Prelude.{◌≡◌, IfOk, IfErr};
ghost use Rattle.planus_read.specs.Located.{Located};
ghost use Rattle.planus_read.specs.Clauses.{Answer, shown, FirstBroken};
ghost use Rattle.planus_read.specs.Slices.{ShowsBytes};
ghost use Rattle.planus_read.specs.Reading.{text_reading};
ghost use Rattle.planus_read.specs.Heads.{IsTextOf, text_of_clauses};

use crate::errors::{Error, ErrorKind};
use crate::heads::array_from_buffer;
use crate::located::{ITEM_METHOD, locate};
use crate::slice_helpers::SliceWithStartOffset;
use crate::traits::{ReadError, Stride, TableRead, VectorReadInner};

const VECTOR_NAME: &str = "[str]";

#[inline]
fn text_of(items: &[u8], count: usize) -> Result<&str, ErrorKind>
    ensures text { IfOk result (λ text. IsTextOf items.now count text.now) }
    ensures error { IfErr result (λ e. FirstBroken (text_of_clauses items.now count) e) }
{
    if count >= items.len() || items[count] != 0 {
        return Err(ErrorKind::MissingNullTerminator);
    }
    Ok(std::str::from_utf8(&items[..count])?)
}

impl<'buf> TableRead<'buf> for &'buf str {
    ghost reads = { λ S start f r. Answer (shown ShowsBytes (text_reading S f)) r };

    #[inline]
    fn from_buffer(
        buffer: SliceWithStartOffset<'buf>,
        offset: usize,
    ) -> Result<&'buf str, ErrorKind> {
        let (items, count) = array_from_buffer(buffer, offset)?;
        text_of(items.as_slice(), count as usize)
    }
}

impl<'buf> Stride for &'buf str {
    type Stands = u32;
}

impl<'buf> ReadError for &'buf str {
    type Error = Error;
}

impl<'buf> VectorReadInner<'buf> for &'buf str {
    ghost use Rattle.planus_read.specs.Items.{texts_name, item_method};

    ghost gives = { λ S start f r.
        Located (Answer (shown ShowsBytes (text_reading S f))) texts_name item_method start r };

    #[inline]
    fn from_buffer(buffer: SliceWithStartOffset<'buf>, offset: usize) -> Result<&'buf str, Error> {
        let text = <&'buf str as TableRead<'buf>>::from_buffer(buffer, offset);
        locate(text, VECTOR_NAME, ITEM_METHOD, buffer.offset_from_start())
    }
}
