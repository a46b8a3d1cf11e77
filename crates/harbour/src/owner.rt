//! Unions `Owner`.

ghost use Rattle.std.specs.Prelude.{◌≡◌, codes};
ghost use Rattle.planus.specs.Printed.{ReadsVariants};
ghost use Rattle.harbour.specs.Owner.{owner_variants};

use crate::company::{Company, CompanyRef};
use crate::person::{Person, PersonRef};
use planus::errors::ErrorKind;
use planus::{
    Offset, SliceWithStartOffset, TableReadUnion, UnionOffset, VectorReadUnion, read_view,
};

/// The kind of one of some tables.
pub struct Owner;

impl Owner {
    /// Returns the variant `Person` with the table at this offset.
    pub fn from_person(table: Offset<Person>) -> UnionOffset<Owner>
        ensures tag { result.tag ≡ 1 }
        ensures offset { result.offset.distance ≡ table.distance }
    {
        UnionOffset::new(1, table.downcast())
    }

    /// Returns the variant `Firm` with the table at this offset.
    pub fn from_firm(table: Offset<Company>) -> UnionOffset<Owner>
        ensures tag { result.tag ≡ 2 }
        ensures offset { result.offset.distance ≡ table.distance }
    {
        UnionOffset::new(2, table.downcast())
    }
}

/// One in a buffer.
#[derive(Clone, Copy, Debug)]
pub enum OwnerRef<'a> {
    Person(PersonRef<'a>),
    Firm(CompanyRef<'a>),
}

impl<'a> TableReadUnion<'a> for OwnerRef<'a> {
    ghost reads = { ReadsVariants owner_variants };

    fn from_buffer(
        buffer: SliceWithStartOffset<'a>,
        tag: u8,
        offset: usize,
    ) -> Result<OwnerRef<'a>, ErrorKind> {
        match tag {
            1 => Ok(OwnerRef::Person(read_view(buffer, offset)?)),
            2 => Ok(OwnerRef::Firm(read_view(buffer, offset)?)),
            _ => Err(ErrorKind::UnknownUnionTag { tag }),
        }
    }
}

impl<'a> VectorReadUnion<'a> for OwnerRef<'a> {
    ghost name = { codes "[Owner]" };

    fn vector_name() -> &'static str
        ensures { result.now ≡ codes "[Owner]" }
    {
        "[Owner]"
    }
}
