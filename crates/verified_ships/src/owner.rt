//! Unions `Owner`.

ghost use Rattle.planus.specs.Printed.{ReadsVariants};
ghost use Rattle.verified_ships.specs.Owner.{owner_variants, checked_owner};

use crate::company::{Company, CompanyView};
use crate::person::{Person, PersonView};
use planus::Place;
use planus_views::{Member, OfUnion, UnionKind, UnionOf, VerifyUnion, member_passes};

/// The kind of one of some tables.
pub struct Owner;

impl UnionKind for Owner {
    ghost use Rattle.verified_ships.specs.Schema.{ships_schema};

    ghost schema = { ships_schema };

    ghost union = { 0 };
}

impl VerifyUnion for Owner {
    fn pass_member(tag: u8, at: Place<'_>, depth: u8, left: usize) -> Option<usize> {
        match tag {
            1 => member_passes::<Owner, Person>(tag, 1, at, depth, left),
            2 => member_passes::<Owner, Company>(tag, 2, at, depth, left),
            _ => Some(left),
        }
    }
}

/// A verified one in a buffer.
#[derive(Clone, Copy)]
pub enum OwnerView<'a> {
    Person(PersonView<'a>),
    Firm(CompanyView<'a>),
    /// A tag that the schema doesn't have.
    Unknown(u8),
}

impl<'a> OfUnion for OwnerView<'a> {
    type Kind = Owner;
}

impl<'a> UnionOf<'a> for OwnerView<'a> {
    ghost reads = { ReadsVariants owner_variants };

    ghost checked = { checked_owner };

    fn of_member(member: Member<'a>) -> OwnerView<'a> {
        match member.tag() {
            1 => OwnerView::Person(member.table::<Owner, PersonView<'a>>(1)),
            2 => OwnerView::Firm(member.table::<Owner, CompanyView<'a>>(2)),
            tag => OwnerView::Unknown(tag),
        }
    }
}
