//! Verified tables `Company`.

ghost use Rattle.planus_views.specs.Printed.{view_table};
ghost use Rattle.harbour.specs.Verified.{verified_schema};
ghost use Rattle.harbour.specs.Verified.{verified_whole};

use crate::company::{Company, CompanyRef};
use planus::table_reader::Table;

impl planus_views::VerifiedKind for Company {
    ghost schema = { verified_schema };

    ghost index = { 1 };

    ghost whole = { verified_whole };

    fn schema() -> planus_views::Schema<'static> {
        crate::verified::schema()
    }

    fn index() -> usize {
        1
    }
}

/// A verified one in a buffer.
#[derive(Clone, Copy)]
pub struct CompanyView<'a>(planus_views::View<'a, Company>);

impl<'a> planus_views::OfKind for CompanyView<'a> {
    type Kind = Company;
}

impl<'a> planus_views::ViewOf<'a> for CompanyView<'a> {
    ghost table = { λ view. view_table view.0 };

    fn of_verified(read: Table<'a>) -> CompanyView<'a> {
        CompanyView(planus_views::View::new(read))
    }
}

impl planus_views::Verify for Company {
    fn pass(table: Table<'_>, depth: u8, left: usize) -> Option<usize> {
        let fields = planus_views::Entered::<Company>::new(table, depth)?;
        let left = fields.counted(left)?;
        let left = fields.value(0, false, planus_views::ValueKind::Text, left)?;
        let left = fields.value(1, false, planus_views::ValueKind::Bytes, left)?;
        Some(left)
    }
}

impl<'a> CompanyView<'a> {
    ghost use Rattle.std.specs.Prelude.{◌≡◌};
    ghost use Rattle.planus.specs.Printed.{IsTextField, IsBytesField};
    ghost use Rattle.planus_views.specs.Printed.{view_table, Returns};

    /// Returns `title`.
    pub fn title(&self) -> Option<&'a str>
        ensures { Returns (IsTextField (view_table self.now.0) 0) result }
    {
        self.0.text_field(0)
    }

    /// Returns `vat`.
    pub fn vat(&self) -> Option<&'a [u8]>
        ensures { Returns (IsBytesField (view_table self.now.0) 1) result }
    {
        self.0.bytes_field(1)
    }

    /// Returns the view that tests what it reads.
    pub fn checked(&self) -> CompanyRef<'a>
        ensures { result.0 ≡ view_table self.now.0 }
    {
        planus::TableView::of_table(self.0.table())
    }
}

impl<'a> std::fmt::Debug for CompanyView<'a> {
    fn fmt<W: std::fmt::Write>(&self, f: &mut std::fmt::Formatter<W>) -> std::fmt::Result {
        let checked: CompanyRef<'a> = planus::TableView::of_table(self.0.table());
        f.debug_tuple("CompanyView").field(&checked).finish()
    }
}

impl<'a> CompanyRef<'a> {
    ghost use Rattle.planus_views.specs.Printed.{view_table, VerifiesTable};
    ghost use Rattle.harbour.specs.Verified.{verified_schema};
    ghost use Rattle.harbour.specs.declared.verified.company.CompanyView.{CompanyView};

    /// Verifies this table with all that it leads to, within limits, and returns its view, whose
    /// accessors don't fail.
    pub fn verify(
        &self,
        limits: planus_views::Limits,
    ) -> Result<CompanyView<'a>, planus_views::Fault>
        ensures { VerifiesTable (λ (view : CompanyView). view_table view.0) verified_schema 1
            limits self.now.0 result }
    {
        planus_views::verify_table(self.0, limits)
    }
}
