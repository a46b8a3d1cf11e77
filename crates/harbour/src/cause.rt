//! Unions `Cause`.

ghost use Rattle.std.specs.Prelude.{◌≡◌, codes};
ghost use Rattle.planus.specs.Printed.{ReadsVariants};
ghost use Rattle.harbour.specs.Cause.{cause_variants};

use crate::entry::{Entry, EntryRef};
use crate::origin::{Origin, OriginRef};
use planus::errors::ErrorKind;
use planus::{
    Offset, SliceWithStartOffset, TableReadUnion, UnionOffset, VectorReadUnion, read_view,
};

/// Why something is in a log.
pub struct Cause;

impl Cause {
    /// Returns the variant `Entry` with the table at this offset.
    pub fn from_entry(table: Offset<Entry>) -> UnionOffset<Cause>
        ensures tag { result.tag ≡ 1 }
        ensures offset { result.offset.distance ≡ table.distance }
    {
        UnionOffset::new(1, table.downcast())
    }

    /// Returns the variant `Origin` with the table at this offset.
    pub fn from_origin(table: Offset<Origin>) -> UnionOffset<Cause>
        ensures tag { result.tag ≡ 2 }
        ensures offset { result.offset.distance ≡ table.distance }
    {
        UnionOffset::new(2, table.downcast())
    }
}

/// One in a buffer.
#[derive(Clone, Copy, Debug)]
pub enum CauseRef<'a> {
    Entry(EntryRef<'a>),
    Origin(OriginRef<'a>),
}

impl<'a> TableReadUnion<'a> for CauseRef<'a> {
    ghost reads = { ReadsVariants cause_variants };

    fn from_buffer(
        buffer: SliceWithStartOffset<'a>,
        tag: u8,
        offset: usize,
    ) -> Result<CauseRef<'a>, ErrorKind> {
        match tag {
            1 => Ok(CauseRef::Entry(read_view(buffer, offset)?)),
            2 => Ok(CauseRef::Origin(read_view(buffer, offset)?)),
            _ => Err(ErrorKind::UnknownUnionTag { tag }),
        }
    }
}

impl<'a> VectorReadUnion<'a> for CauseRef<'a> {
    ghost name = { codes "[Cause]" };

    fn vector_name() -> &'static str
        ensures { result.now ≡ codes "[Cause]" }
    {
        "[Cause]"
    }
}
