//! Tests of strings.

ghost use Rattle.std.specs.Prelude.{◌≡◌, true, IfOk, IfSome};
ghost use Rattle.planus_read.specs.Clauses.{AllHold};
ghost use Rattle.planus_read.specs.Heads.{IsTextOf};
ghost use Rattle.planus_read.specs.Reading.{text_clauses};
ghost use Rattle.planus_read.specs.Slices.{slice_bytes};

use planus_read::errors::ErrorKind;
use planus_read::{SliceWithStartOffset, Stride, TableRead, VectorRead, array_from_buffer};

/// Whether a string is one.
#[derive(Clone, Copy)]
pub(crate) struct TextTest {
    pub passes: bool,
}

/// Returns the bytes of a string that these items begin with, or `None` if it isn't one. Most are
/// ASCII, which is tested eight bytes at a time.
#[inline(always)]
fn text_in(items: &[u8], count: usize) -> Option<&[u8]>
    ensures { IfSome result (λ text. IsTextOf items.now count text.now) }
{
    if count >= items.len() || items[count] != 0 {
        return None;
    }
    let text = &items[..count];
    if text.is_ascii() {
        return Some(text);
    }
    match std::str::from_utf8(text) {
        Ok(_) => Some(text),
        Err(_) => None,
    }
}

/// Whether a string passes.
#[inline(always)]
pub(crate) fn text_passes(buffer: SliceWithStartOffset<'_>, offset: usize) -> bool
    ensures { result ≡ true → AllHold (text_clauses (slice_bytes buffer.entry) offset) }
{
    match array_from_buffer(buffer, offset) {
        Ok((items, count)) => text_in(items.as_slice(), count as usize).is_some(),
        Err(_) => false,
    }
}

impl<'b> TableRead<'b> for TextTest {
    ghost reads = { λ S start f r. IfOk r (λ test. test.passes ≡ true
        → AllHold (text_clauses S f)) };

    #[inline(always)]
    fn from_buffer(buffer: SliceWithStartOffset<'b>, offset: usize) -> Result<TextTest, ErrorKind> {
        Ok(TextTest {
            passes: text_passes(buffer, offset),
        })
    }
}

impl Stride for TextTest {
    type Stands = u32;
}

impl<'b> VectorRead<'b> for TextTest {
    ghost gives = { λ S start f test. test.passes ≡ true → AllHold (text_clauses S f) };

    #[inline(always)]
    fn from_buffer(buffer: SliceWithStartOffset<'b>, offset: usize) -> TextTest {
        TextTest {
            passes: text_passes(buffer, offset),
        }
    }
}
