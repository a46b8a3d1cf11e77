//! Verified unions `Owner`.

ghost use Rattle.planus.specs.Printed.{ReadsVariants};
ghost use Rattle.harbour.specs.Verified.{verified_schema};
ghost use Rattle.harbour.specs.Owner.{owner_view_variants};
ghost use Rattle.harbour.specs.Owner.{owner_checked};

use crate::company::Company;
use crate::owner::Owner;
use crate::person::Person;
use crate::verified::company::CompanyView;
use crate::verified::person::PersonView;

impl planus_views::UnionKind for Owner {
    ghost schema = { verified_schema };

    ghost union = { 0 };
}

/// A verified one in a buffer.
#[derive(Clone, Copy, Debug)]
pub enum OwnerView<'a> {
    Person(PersonView<'a>),
    Firm(CompanyView<'a>),
    /// A tag that the schema doesn't have.
    Unknown(u8),
}

impl<'a> planus_views::OfUnion for OwnerView<'a> {
    type Kind = Owner;
}

impl<'a> planus_views::UnionOf<'a> for OwnerView<'a> {
    ghost reads = { ReadsVariants owner_view_variants };

    ghost checked = { owner_checked };

    fn of_member(member: planus_views::Member<'a>) -> OwnerView<'a> {
        match member.tag() {
            1 => OwnerView::Person(member.table::<Owner, _>(1)),
            2 => OwnerView::Firm(member.table::<Owner, _>(2)),
            tag => OwnerView::Unknown(tag),
        }
    }
}

impl planus_views::VerifyUnion for Owner {
    fn pass_member(tag: u8, at: planus::Place<'_>, depth: u8, left: usize) -> Option<usize> {
        match tag {
            1 => planus_views::member_passes::<Owner, Person>(tag, 1, at, depth, left),
            2 => planus_views::member_passes::<Owner, Company>(tag, 2, at, depth, left),
            _ => Some(left),
        }
    }
}
