//! Verified tables `Slip`.

ghost use Rattle.planus_views.specs.Printed.{view_table};
ghost use Rattle.quay.specs.Verified.{verified_schema};
ghost use Rattle.quay.specs.Verified.{verified_whole};

use crate::berth::Berth;
use crate::slip::{Slip, SlipRef};
use crate::verified::berth::BerthView;
use planus::table_reader::Table;

impl planus_views::VerifiedKind for Slip {
    ghost schema = { verified_schema };

    ghost index = { 2 };

    ghost whole = { verified_whole };

    fn schema() -> planus_views::Schema<'static> {
        crate::verified::schema()
    }

    fn index() -> usize {
        2
    }
}

/// A verified one in a buffer.
#[derive(Clone, Copy)]
pub struct SlipView<'a>(planus_views::View<'a, Slip>);

impl<'a> planus_views::OfKind for SlipView<'a> {
    type Kind = Slip;
}

impl<'a> planus_views::ViewOf<'a> for SlipView<'a> {
    ghost table = { λ view. view_table view.0 };

    fn of_verified(read: Table<'a>) -> SlipView<'a> {
        SlipView(planus_views::View::new(read))
    }
}

impl planus_views::Verify for Slip {
    fn pass(table: Table<'_>, depth: u8, left: usize) -> Option<usize> {
        let fields = planus_views::Entered::<Slip>::new(table, depth)?;
        let left = fields.counted(left)?;
        let left = fields.union::<Berth>(0, true, left)?;
        Some(left)
    }
}

impl<'a> SlipView<'a> {
    ghost use Rattle.std.specs.Prelude.{◌≡◌};
    ghost use Rattle.planus.specs.Printed.{IsUnionRequired, ReadsVariants};
    ghost use Rattle.planus_views.specs.Printed.{view_table, ReturnsAs};
    ghost use Rattle.quay.specs.Berth.{berth_view_variants};
    ghost use Rattle.quay.specs.Berth.{berth_checked};

    /// Returns `berth`.
    pub fn berth(&self) -> BerthView<'a>
        ensures { ReturnsAs (IsUnionRequired (ReadsVariants berth_view_variants)
            (view_table self.now.0) 0) (view_table self.now.0) (berth_checked result) }
    {
        self.0.union_required(0)
    }

    /// Returns the view that tests what it reads.
    pub fn checked(&self) -> SlipRef<'a>
        ensures { result.0 ≡ view_table self.now.0 }
    {
        planus::TableView::of_table(self.0.table())
    }
}

impl<'a> std::fmt::Debug for SlipView<'a> {
    fn fmt<W: std::fmt::Write>(&self, f: &mut std::fmt::Formatter<W>) -> std::fmt::Result {
        let checked: SlipRef<'a> = planus::TableView::of_table(self.0.table());
        f.debug_tuple("SlipView").field(&checked).finish()
    }
}

impl<'a> SlipRef<'a> {
    ghost use Rattle.planus_views.specs.Printed.{view_table, VerifiesTable};
    ghost use Rattle.quay.specs.Verified.{verified_schema};
    ghost use Rattle.quay.specs.declared.verified.slip.SlipView.{SlipView};

    /// Verifies this table with all that it leads to, within limits, and returns its view, whose
    /// accessors don't fail.
    pub fn verify(&self, limits: planus_views::Limits) -> Result<SlipView<'a>, planus_views::Fault>
        ensures { VerifiesTable (λ (view : SlipView). view_table view.0) verified_schema 2 limits
            self.now.0 result }
    {
        planus_views::verify_table(self.0, limits)
    }
}
