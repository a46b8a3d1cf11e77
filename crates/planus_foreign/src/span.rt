//! Where bytes or items are.

ghost use Rattle.planus_foreign.specs.Places as spec;

use planus::errors::ErrorKind;
use planus::{SliceWithStartOffset, TableRead};
use planus_read::array_from_buffer;

/// Bytes, or items, of a buffer: the position of the first byte and their number.
#[repr(C)]
#[derive(Clone, Copy)]
pub struct Span {
    pub at: usize,
    pub len: usize,
}

/// A string without its null.
impl<'a> TableRead<'a> for Span {
    ghost reads = { λ S start f r. spec.IsTextSpan S start f r };

    #[inline]
    fn from_buffer(buffer: SliceWithStartOffset<'a>, offset: usize) -> Result<Span, ErrorKind> {
        let text = match <&str as TableRead<'_>>::from_buffer(buffer, offset) {
            Ok(text) => text,
            Err(kind) => return Err(kind),
        };
        match array_from_buffer(buffer, offset) {
            Ok(head) => Ok(Span {
                at: head.0.offset_from_start(),
                len: text.len(),
            }),
            Err(kind) => Err(kind),
        }
    }
}
