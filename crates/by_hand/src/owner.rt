//! The owner of a fleet, of the schema `union Owner { name: string, boat: Boat }`.
ghost use Rattle.std.specs.Prelude.{◌≡◌, codes};
ghost use Rattle.planus.specs.Unions.{ReadsVariants};
ghost use Rattle.by_hand.specs.Owners.{owner_variants};

use crate::boat::BoatRef;
use planus::errors::ErrorKind;
use planus::{SliceWithStartOffset, TableRead, TableReadUnion, VectorReadUnion};

/// The kind of an owner.
pub struct Owner;

/// An owner in a buffer.
#[derive(Clone, Copy)]
pub enum OwnerRef<'a> {
    Name(&'a str),
    Boat(BoatRef<'a>),
}

impl<'a> TableReadUnion<'a> for OwnerRef<'a> {
    ghost reads = { ReadsVariants owner_variants };

    fn from_buffer(
        buffer: SliceWithStartOffset<'a>,
        tag: u8,
        offset: usize,
    ) -> Result<OwnerRef<'a>, ErrorKind> {
        match tag {
            1 => Ok(OwnerRef::Name(TableRead::from_buffer(buffer, offset)?)),
            2 => Ok(OwnerRef::Boat(TableRead::from_buffer(buffer, offset)?)),
            _ => Err(ErrorKind::UnknownUnionTag { tag }),
        }
    }
}

impl<'a> VectorReadUnion<'a> for OwnerRef<'a> {
    ghost name = { codes "[Owner]" };

    fn vector_name() -> &'static str
        ensures { result.now ≡ codes "[Owner]" }
    {
        "[Owner]"
    }
}
