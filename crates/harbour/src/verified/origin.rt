//! Verified tables `Origin`.

ghost use Rattle.planus_views.specs.Printed.{view_table};
ghost use Rattle.harbour.specs.Verified.{verified_schema};
ghost use Rattle.harbour.specs.Verified.{verified_whole};

use crate::origin::{Origin, OriginRef};
use planus::table_reader::Table;

impl planus_views::VerifiedKind for Origin {
    ghost schema = { verified_schema };

    ghost index = { 5 };

    ghost whole = { verified_whole };

    fn schema() -> planus_views::Schema<'static> {
        crate::verified::schema()
    }

    fn index() -> usize {
        5
    }
}

/// A verified one in a buffer.
#[derive(Clone, Copy)]
pub struct OriginView<'a>(planus_views::View<'a, Origin>);

impl<'a> planus_views::OfKind for OriginView<'a> {
    type Kind = Origin;
}

impl<'a> planus_views::ViewOf<'a> for OriginView<'a> {
    ghost table = { λ view. view_table view.0 };

    fn of_verified(read: Table<'a>) -> OriginView<'a> {
        OriginView(planus_views::View::new(read))
    }
}

impl planus_views::Verify for Origin {
    fn pass(table: Table<'_>, depth: u8, left: usize) -> Option<usize> {
        let fields = planus_views::Entered::<Origin>::new(table, depth)?;
        let left = fields.counted(left)?;
        let left = fields.value(0, false, planus_views::ValueKind::Text, left)?;
        let left = fields.value(1, false, planus_views::ValueKind::Plain(2), left)?;
        Some(left)
    }
}

impl<'a> OriginView<'a> {
    ghost use Rattle.std.specs.Prelude.{◌≡◌};
    ghost use Rattle.planus.specs.Printed.{u16_shape, IsTextField, IsPlainFieldOr};
    ghost use Rattle.planus_views.specs.Printed.{view_table, Returns};

    /// Returns `host`.
    pub fn host(&self) -> Option<&'a str>
        ensures { Returns (IsTextField (view_table self.now.0) 0) result }
    {
        self.0.text_field(0)
    }

    /// Returns `port`.
    pub fn port(&self) -> u16
        ensures { Returns (IsPlainFieldOr u16_shape 0 (view_table self.now.0) 1) result }
    {
        self.0.plain_field_or(1, 0)
    }

    /// Returns the view that tests what it reads.
    pub fn checked(&self) -> OriginRef<'a>
        ensures { result.0 ≡ view_table self.now.0 }
    {
        planus::TableView::of_table(self.0.table())
    }
}

impl<'a> std::fmt::Debug for OriginView<'a> {
    fn fmt<W: std::fmt::Write>(&self, f: &mut std::fmt::Formatter<W>) -> std::fmt::Result {
        let checked: OriginRef<'a> = planus::TableView::of_table(self.0.table());
        f.debug_tuple("OriginView").field(&checked).finish()
    }
}

impl<'a> OriginRef<'a> {
    ghost use Rattle.planus_views.specs.Printed.{view_table, VerifiesTable};
    ghost use Rattle.harbour.specs.Verified.{verified_schema};
    ghost use Rattle.harbour.specs.declared.verified.origin.OriginView.{OriginView};

    /// Verifies this table with all that it leads to, within limits, and returns its view, whose
    /// accessors don't fail.
    pub fn verify(
        &self,
        limits: planus_views::Limits,
    ) -> Result<OriginView<'a>, planus_views::Fault>
        ensures { VerifiesTable (λ (view : OriginView). view_table view.0) verified_schema 5 limits
            self.now.0 result }
    {
        planus_views::verify_table(self.0, limits)
    }
}
