//! A union's tag and value.

ghost use Rattle.std.specs.Prelude.{◌≡◌, codes};
ghost use Rattle.planus_foreign.specs.Places as spec;

use planus::errors::ErrorKind;
use planus::{SliceWithStartOffset, TableReadUnion, VectorReadUnion};

/// A union: the position of the reference to its value, and its tag.
#[repr(C)]
#[derive(Clone, Copy)]
pub struct Member {
    pub at: usize,
    pub tag: u8,
}

impl<'a> TableReadUnion<'a> for Member {
    ghost reads = { spec.IsMember };

    #[inline]
    fn from_buffer(
        buffer: SliceWithStartOffset<'a>,
        tag: u8,
        offset: usize,
    ) -> Result<Member, ErrorKind> {
        match buffer.offset_from_start().checked_add(offset) {
            Some(at) => Ok(Member { at, tag }),
            None => Err(ErrorKind::InvalidOffset),
        }
    }
}

impl<'a> VectorReadUnion<'a> for Member {
    ghost name = { codes "[union]" };

    fn vector_name() -> &'static str
        ensures { result.now ≡ codes "[union]" }
    {
        "[union]"
    }
}
