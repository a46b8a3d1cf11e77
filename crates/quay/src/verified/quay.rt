//! Verified tables `Quay`.

ghost use Rattle.planus_views.specs.Printed.{view_table};
ghost use Rattle.quay.specs.Verified.{verified_schema};
ghost use Rattle.quay.specs.Verified.{verified_whole};

use crate::berth::Berth;
use crate::boat::Boat;
use crate::crane::Crane;
use crate::dive::Dive;
use crate::fee::Fee;
use crate::plate::Plate;
use crate::quay::{Quay, QuayRef};
use crate::slip::Slip;
use crate::verified::berth::BerthView;
use crate::verified::boat::BoatView;
use crate::verified::fee::FeeView;
use crate::verified::slip::SlipView;
use planus::Vector;
use planus::table_reader::Table;

impl planus_views::VerifiedKind for Quay {
    ghost schema = { verified_schema };

    ghost index = { 3 };

    ghost whole = { verified_whole };

    fn schema() -> planus_views::Schema<'static> {
        crate::verified::schema()
    }

    fn index() -> usize {
        3
    }
}

/// A verified one in a buffer.
#[derive(Clone, Copy)]
pub struct QuayView<'a>(planus_views::View<'a, Quay>);

impl<'a> planus_views::OfKind for QuayView<'a> {
    type Kind = Quay;
}

impl<'a> planus_views::ViewOf<'a> for QuayView<'a> {
    ghost table = { λ view. view_table view.0 };

    fn of_verified(read: Table<'a>) -> QuayView<'a> {
        QuayView(planus_views::View::new(read))
    }
}

impl planus_views::Verify for Quay {
    fn pass(table: Table<'_>, depth: u8, left: usize) -> Option<usize> {
        let fields = planus_views::Entered::<Quay>::new(table, depth)?;
        let left = fields.counted(left)?;
        let left = fields.value(0, true, planus_views::ValueKind::Text, left)?;
        let left = fields.value(1, false, planus_views::ValueKind::Plain(5), left)?;
        let left = fields.value(2, false, planus_views::ValueKind::Plains(56), left)?;
        let left = fields.union::<Berth>(3, false, left)?;
        let left = fields.unions::<Berth>(5, false, left)?;
        let left = fields.tables::<Boat>(7, false, left)?;
        let left = fields.tables::<Fee>(8, false, left)?;
        let left = fields.value(9, false, planus_views::ValueKind::Plains(56), left)?;
        let left = fields.tables::<Slip>(10, false, left)?;
        Some(left)
    }
}

impl<'a> QuayView<'a> {
    ghost use Rattle.std.specs.Prelude.{◌≡◌};
    ghost use Rattle.planus.specs.Printed.{IsPlainVector, IsTextRequired, IsTableVector};
    ghost use Rattle.planus.specs.Printed.{IsPlainField, IsUnionField, IsUnionVector};
    ghost use Rattle.planus.specs.Printed.{ReadsVariants};
    ghost use Rattle.planus_views.specs.Printed.{view_table, checked_tables, checked_unions};
    ghost use Rattle.planus_views.specs.Printed.{Returns, ReturnsAs, checked_option, option_map};
    ghost use Rattle.quay.specs.Berth.{berth_view_variants};
    ghost use Rattle.quay.specs.Berth.{berth_checked};
    ghost use Rattle.quay.specs.declared.berth.Berth.{Berth};
    ghost use Rattle.quay.specs.declared.boat.Boat.{Boat};
    ghost use Rattle.quay.specs.declared.fee.Fee.{Fee};
    ghost use Rattle.quay.specs.Plate.{plate_shape};
    ghost use Rattle.quay.specs.declared.slip.Slip.{Slip};

    /// Returns `name`.
    pub fn name(&self) -> &'a str
        ensures { Returns (IsTextRequired (view_table self.now.0) 0) result }
    {
        self.0.text_required(0)
    }

    /// Returns `plate`.
    pub fn plate(&self) -> Option<Plate>
        ensures { Returns (IsPlainField plate_shape (view_table self.now.0) 1) result }
    {
        self.0.plain_field(1)
    }

    /// Returns `cranes`.
    pub fn cranes(&self) -> Option<Vector<'a, planus::Result<Crane>>>
        ensures { Returns (IsPlainVector (view_table self.now.0) 2) result }
    {
        self.0.plain_vector(2)
    }

    /// Returns `first`.
    pub fn first(&self) -> Option<BerthView<'a>>
        ensures { ReturnsAs (λ type_ method. IsUnionField (ReadsVariants berth_view_variants)
            (view_table self.now.0) 3 type_ method Berth) (view_table self.now.0)
            (checked_option berth_checked result) }
    {
        self.0.union_field(3)
    }

    /// Returns `berths`.
    pub fn berths(&self) -> Option<planus_views::Unions<'a, BerthView<'a>>>
        ensures { Returns (IsUnionVector (view_table self.now.0) 5)
            (option_map (λ all. checked_unions all) result) }
    {
        self.0.union_vector(5)
    }

    /// Returns `boats`.
    pub fn boats(&self) -> Option<planus_views::Tables<'a, BoatView<'a>>>
        ensures { Returns (IsTableVector Boat (view_table self.now.0) 7)
            (option_map (λ all. checked_tables all) result) }
    {
        self.0.table_vector(7)
    }

    /// Returns `fees`.
    pub fn fees(&self) -> Option<planus_views::Tables<'a, FeeView<'a>>>
        ensures { Returns (IsTableVector Fee (view_table self.now.0) 8)
            (option_map (λ all. checked_tables all) result) }
    {
        self.0.table_vector(8)
    }

    /// Returns `dives`.
    pub fn dives(&self) -> Option<Vector<'a, planus::Result<Dive>>>
        ensures { Returns (IsPlainVector (view_table self.now.0) 9) result }
    {
        self.0.plain_vector(9)
    }

    /// Returns `slips`.
    pub fn slips(&self) -> Option<planus_views::Tables<'a, SlipView<'a>>>
        ensures { Returns (IsTableVector Slip (view_table self.now.0) 10)
            (option_map (λ all. checked_tables all) result) }
    {
        self.0.table_vector(10)
    }

    /// Returns the view that tests what it reads.
    pub fn checked(&self) -> QuayRef<'a>
        ensures { result.0 ≡ view_table self.now.0 }
    {
        planus::TableView::of_table(self.0.table())
    }
}

impl<'a> std::fmt::Debug for QuayView<'a> {
    fn fmt<W: std::fmt::Write>(&self, f: &mut std::fmt::Formatter<W>) -> std::fmt::Result {
        let checked: QuayRef<'a> = planus::TableView::of_table(self.0.table());
        f.debug_tuple("QuayView").field(&checked).finish()
    }
}

impl<'a> QuayRef<'a> {
    ghost use Rattle.planus_views.specs.Printed.{view_table, VerifiesTable};
    ghost use Rattle.quay.specs.Verified.{verified_schema};
    ghost use Rattle.quay.specs.declared.verified.quay.QuayView.{QuayView};

    /// Verifies this table with all that it leads to, within limits, and returns its view, whose
    /// accessors don't fail.
    pub fn verify(&self, limits: planus_views::Limits) -> Result<QuayView<'a>, planus_views::Fault>
        ensures { VerifiesTable (λ (view : QuayView). view_table view.0) verified_schema 3 limits
            self.now.0 result }
    {
        planus_views::verify_table(self.0, limits)
    }
}
