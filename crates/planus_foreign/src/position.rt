//! Where a reference is.

ghost use Rattle.planus_foreign.specs.Places as spec;

use planus::errors::ErrorKind;
use planus::{SliceWithStartOffset, TableRead};

/// The position of a field in the buffer.
#[derive(Clone, Copy)]
pub struct Position {
    pub at: usize,
}

impl<'a> TableRead<'a> for Position {
    ghost reads = { λ S start f r. spec.IsPosition S start f r };

    #[inline]
    fn from_buffer(buffer: SliceWithStartOffset<'a>, offset: usize) -> Result<Position, ErrorKind> {
        match buffer.offset_from_start().checked_add(offset) {
            Some(at) => Ok(Position { at }),
            None => Err(ErrorKind::InvalidOffset),
        }
    }
}
