//! Verified unions `Cause`.

ghost use Rattle.planus.specs.Printed.{ReadsVariants};
ghost use Rattle.harbour.specs.Verified.{verified_schema};
ghost use Rattle.harbour.specs.Cause.{cause_view_variants};
ghost use Rattle.harbour.specs.Cause.{cause_checked};

use crate::cause::Cause;
use crate::entry::Entry;
use crate::origin::Origin;
use crate::verified::entry::EntryView;
use crate::verified::origin::OriginView;

impl planus_views::UnionKind for Cause {
    ghost schema = { verified_schema };

    ghost union = { 1 };
}

/// A verified one in a buffer.
#[derive(Clone, Copy, Debug)]
pub enum CauseView<'a> {
    Entry(EntryView<'a>),
    Origin(OriginView<'a>),
    /// A tag that the schema doesn't have.
    Unknown(u8),
}

impl<'a> planus_views::OfUnion for CauseView<'a> {
    type Kind = Cause;
}

impl<'a> planus_views::UnionOf<'a> for CauseView<'a> {
    ghost reads = { ReadsVariants cause_view_variants };

    ghost checked = { cause_checked };

    fn of_member(member: planus_views::Member<'a>) -> CauseView<'a> {
        match member.tag() {
            1 => CauseView::Entry(member.table::<Cause, _>(1)),
            2 => CauseView::Origin(member.table::<Cause, _>(2)),
            tag => CauseView::Unknown(tag),
        }
    }
}

impl planus_views::VerifyUnion for Cause {
    fn pass_member(tag: u8, at: planus::Place<'_>, depth: u8, left: usize) -> Option<usize> {
        match tag {
            1 => planus_views::member_passes::<Cause, Entry>(tag, 1, at, depth, left),
            2 => planus_views::member_passes::<Cause, Origin>(tag, 2, at, depth, left),
            _ => Some(left),
        }
    }
}
