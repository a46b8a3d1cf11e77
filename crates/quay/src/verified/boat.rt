//! Verified tables `Boat`.

ghost use Rattle.planus_views.specs.Printed.{view_table};
ghost use Rattle.quay.specs.Verified.{verified_schema};
ghost use Rattle.quay.specs.Verified.{verified_whole};

use crate::boat::{Boat, BoatRef};
use planus::errors::ErrorKind;
use planus::table_reader::Table;

impl planus_views::VerifiedKind for Boat {
    ghost schema = { verified_schema };

    ghost index = { 0 };

    ghost whole = { verified_whole };

    fn schema() -> planus_views::Schema<'static> {
        crate::verified::schema()
    }

    fn index() -> usize {
        0
    }
}

/// A verified one in a buffer.
#[derive(Clone, Copy)]
pub struct BoatView<'a>(planus_views::View<'a, Boat>);

impl<'a> planus_views::OfKind for BoatView<'a> {
    type Kind = Boat;
}

impl<'a> planus_views::ViewOf<'a> for BoatView<'a> {
    ghost table = { λ view. view_table view.0 };

    fn of_verified(read: Table<'a>) -> BoatView<'a> {
        BoatView(planus_views::View::new(read))
    }
}

impl planus_views::Verify for Boat {
    fn pass(table: Table<'_>, depth: u8, left: usize) -> Option<usize> {
        let fields = planus_views::Entered::<Boat>::new(table, depth)?;
        let left = fields.counted(left)?;
        let left = fields.value(0, true, planus_views::ValueKind::Text, left)?;
        Some(left)
    }
}

impl<'a> BoatView<'a> {
    ghost use Rattle.std.specs.Prelude.{◌≡◌};
    ghost use Rattle.planus.specs.Printed.{IsTextRequired};
    ghost use Rattle.planus_views.specs.Printed.{view_table, Returns};

    /// Returns `name`.
    pub fn name(&self) -> &'a str
        ensures { Returns (IsTextRequired (view_table self.now.0) 0) result }
    {
        self.0.text_required(0)
    }

    /// Returns the view that tests what it reads.
    pub fn checked(&self) -> BoatRef<'a>
        ensures { result.0 ≡ view_table self.now.0 }
    {
        planus::TableView::of_table(self.0.table())
    }
}

impl<'a> std::fmt::Debug for BoatView<'a> {
    fn fmt<W: std::fmt::Write>(&self, f: &mut std::fmt::Formatter<W>) -> std::fmt::Result {
        let checked: BoatRef<'a> = planus::TableView::of_table(self.0.table());
        f.debug_tuple("BoatView").field(&checked).finish()
    }
}

impl<'a> BoatRef<'a> {
    ghost use Rattle.planus_views.specs.Printed.{view_table, VerifiesTable};
    ghost use Rattle.quay.specs.Verified.{verified_schema};
    ghost use Rattle.quay.specs.declared.verified.boat.BoatView.{BoatView};

    /// Verifies this table with all that it leads to, within limits, and returns its view, whose
    /// accessors don't fail.
    pub fn verify(&self, limits: planus_views::Limits) -> Result<BoatView<'a>, planus_views::Fault>
        ensures { VerifiesTable (λ (view : BoatView). view_table view.0) verified_schema 0 limits
            self.now.0 result }
    {
        planus_views::verify_table(self.0, limits)
    }
}

impl<'a> planus_keys::KeyOf<BoatView<'a>> for Boat {
    ghost use Rattle.std.specs.Prelude.{IsOkAnd};
    ghost use Rattle.planus.specs.Printed.{IsTextRequired};
    ghost use Rattle.planus_views.specs.Printed.{view_table, Returns};

    type Key = &'a str;

    type Error = ErrorKind;

    ghost is_key = { λ _ view key. IsOkAnd key (Returns (IsTextRequired (view_table view.0) 0)) };

    fn key(&self, view: &BoatView<'a>) -> Result<&'a str, ErrorKind> {
        Ok(view.name())
    }
}
