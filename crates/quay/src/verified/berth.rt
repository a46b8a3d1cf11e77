//! Verified unions `Berth`.

ghost use Rattle.planus.specs.Printed.{ReadsVariants};
ghost use Rattle.quay.specs.Verified.{verified_schema};
ghost use Rattle.quay.specs.Berth.{berth_view_variants};
ghost use Rattle.quay.specs.Berth.{berth_checked};

use crate::berth::Berth;
use crate::boat::Boat;
use crate::load::Load;
use crate::plate::Plate;
use crate::verified::boat::BoatView;
use planus::PlainRef;

impl planus_views::UnionKind for Berth {
    ghost schema = { verified_schema };

    ghost union = { 0 };
}

/// A verified one in a buffer.
#[derive(Clone, Copy, Debug)]
pub enum BerthView<'a> {
    Boat(BoatView<'a>),
    Waiting(PlainRef<'a, Load>),
    Empty(PlainRef<'a, Plate>),
    Note(&'a str),
    /// A tag that the schema doesn't have.
    Unknown(u8),
}

impl<'a> planus_views::OfUnion for BerthView<'a> {
    type Kind = Berth;
}

impl<'a> planus_views::UnionOf<'a> for BerthView<'a> {
    ghost reads = { ReadsVariants berth_view_variants };

    ghost checked = { berth_checked };

    fn of_member(member: planus_views::Member<'a>) -> BerthView<'a> {
        match member.tag() {
            1 => BerthView::Boat(member.table::<Berth, _>(1)),
            2 => BerthView::Waiting(member.plain::<Berth, _>(2)),
            3 => BerthView::Empty(member.plain::<Berth, _>(3)),
            4 => BerthView::Note(member.text::<Berth>(4)),
            tag => BerthView::Unknown(tag),
        }
    }
}

impl planus_views::VerifyUnion for Berth {
    fn pass_member(tag: u8, at: planus::Place<'_>, depth: u8, left: usize) -> Option<usize> {
        match tag {
            1 => planus_views::member_passes::<Berth, Boat>(tag, 1, at, depth, left),
            2 => planus_views::struct_member_passes::<Berth>(tag, 2, 16, at, depth, left),
            3 => planus_views::struct_member_passes::<Berth>(tag, 3, 5, at, depth, left),
            4 => planus_views::text_member_passes::<Berth>(tag, 4, at, depth, left),
            _ => Some(left),
        }
    }
}
