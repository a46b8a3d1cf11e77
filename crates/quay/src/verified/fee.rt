//! Verified tables `Fee`.

ghost use Rattle.planus_views.specs.Printed.{view_table};
ghost use Rattle.quay.specs.Verified.{verified_schema};
ghost use Rattle.quay.specs.Verified.{verified_whole};

use crate::fee::{Fee, FeeRef};
use crate::gear::Gear;
use planus::errors::ErrorKind;
use planus::table_reader::Table;

impl planus_views::VerifiedKind for Fee {
    ghost schema = { verified_schema };

    ghost index = { 1 };

    ghost whole = { verified_whole };

    fn schema() -> planus_views::Schema<'static> {
        crate::verified::schema()
    }

    fn index() -> usize {
        1
    }
}

/// A verified one in a buffer.
#[derive(Clone, Copy)]
pub struct FeeView<'a>(planus_views::View<'a, Fee>);

impl<'a> planus_views::OfKind for FeeView<'a> {
    type Kind = Fee;
}

impl<'a> planus_views::ViewOf<'a> for FeeView<'a> {
    ghost table = { λ view. view_table view.0 };

    fn of_verified(read: Table<'a>) -> FeeView<'a> {
        FeeView(planus_views::View::new(read))
    }
}

impl planus_views::Verify for Fee {
    fn pass(table: Table<'_>, depth: u8, left: usize) -> Option<usize> {
        let fields = planus_views::Entered::<Fee>::new(table, depth)?;
        let left = fields.counted(left)?;
        let left = fields.value(0, false, planus_views::ValueKind::Plain(1), left)?;
        let left = fields.value(1, false, planus_views::ValueKind::Plain(4), left)?;
        Some(left)
    }
}

impl<'a> FeeView<'a> {
    ghost use Rattle.std.specs.Prelude.{◌≡◌};
    ghost use Rattle.planus.specs.Printed.{u32_shape, IsPlainFieldOr};
    ghost use Rattle.planus_views.specs.Printed.{view_table, Returns, ReturnsAs};
    ghost use Rattle.quay.specs.Gear.{gear_shape};
    ghost use Rattle.quay.specs.declared.gear.Gear.TheVariants as gear_value;

    /// Returns `gear`.
    pub fn gear(&self) -> Result<Gear, ErrorKind>
        ensures { ReturnsAs (IsPlainFieldOr gear_shape gear_value.Hook (view_table self.now.0) 0)
            (view_table self.now.0) result }
    {
        self.0.judged_field_or(0, Gear::Hook)
    }

    /// Returns `euros`.
    pub fn euros(&self) -> u32
        ensures { Returns (IsPlainFieldOr u32_shape 0 (view_table self.now.0) 1) result }
    {
        self.0.plain_field_or(1, 0)
    }

    /// Returns the view that tests what it reads.
    pub fn checked(&self) -> FeeRef<'a>
        ensures { result.0 ≡ view_table self.now.0 }
    {
        planus::TableView::of_table(self.0.table())
    }
}

impl<'a> std::fmt::Debug for FeeView<'a> {
    fn fmt<W: std::fmt::Write>(&self, f: &mut std::fmt::Formatter<W>) -> std::fmt::Result {
        let checked: FeeRef<'a> = planus::TableView::of_table(self.0.table());
        f.debug_tuple("FeeView").field(&checked).finish()
    }
}

impl<'a> FeeRef<'a> {
    ghost use Rattle.planus_views.specs.Printed.{view_table, VerifiesTable};
    ghost use Rattle.quay.specs.Verified.{verified_schema};
    ghost use Rattle.quay.specs.declared.verified.fee.FeeView.{FeeView};

    /// Verifies this table with all that it leads to, within limits, and returns its view, whose
    /// accessors don't fail.
    pub fn verify(&self, limits: planus_views::Limits) -> Result<FeeView<'a>, planus_views::Fault>
        ensures { VerifiesTable (λ (view : FeeView). view_table view.0) verified_schema 1 limits
            self.now.0 result }
    {
        planus_views::verify_table(self.0, limits)
    }
}

impl<'a> planus_keys::KeyOf<FeeView<'a>> for Fee {
    ghost use Rattle.planus.specs.Printed.{IsPlainFieldOr};
    ghost use Rattle.planus_views.specs.Printed.{view_table, ReturnsAs};
    ghost use Rattle.quay.specs.Gear.{gear_shape};
    ghost use Rattle.quay.specs.declared.gear.Gear.TheVariants as gear_value;

    type Key = Gear;

    type Error = ErrorKind;

    ghost is_key = { λ _ view key. ReturnsAs (IsPlainFieldOr gear_shape gear_value.Hook
        (view_table view.0) 0) (view_table view.0) key };

    fn key(&self, view: &FeeView<'a>) -> Result<Gear, ErrorKind> {
        view.gear()
    }
}
