//! Verified tables `Person`.

ghost use Rattle.planus_views.specs.Printed.{view_table};
ghost use Rattle.harbour.specs.Verified.{verified_schema};
ghost use Rattle.harbour.specs.Verified.{verified_whole};

use crate::person::{Person, PersonRef};
use planus::table_reader::Table;

impl planus_views::VerifiedKind for Person {
    ghost schema = { verified_schema };

    ghost index = { 0 };

    ghost whole = { verified_whole };

    fn schema() -> planus_views::Schema<'static> {
        crate::verified::schema()
    }

    fn index() -> usize {
        0
    }
}

/// A verified one in a buffer.
#[derive(Clone, Copy)]
pub struct PersonView<'a>(planus_views::View<'a, Person>);

impl<'a> planus_views::OfKind for PersonView<'a> {
    type Kind = Person;
}

impl<'a> planus_views::ViewOf<'a> for PersonView<'a> {
    ghost table = { λ view. view_table view.0 };

    fn of_verified(read: Table<'a>) -> PersonView<'a> {
        PersonView(planus_views::View::new(read))
    }
}

impl planus_views::Verify for Person {
    fn pass(table: Table<'_>, depth: u8, left: usize) -> Option<usize> {
        let fields = planus_views::Entered::<Person>::new(table, depth)?;
        let left = fields.counted(left)?;
        let left = fields.value(0, true, planus_views::ValueKind::Text, left)?;
        let left = fields.value(1, false, planus_views::ValueKind::Plain(1), left)?;
        Some(left)
    }
}

impl<'a> PersonView<'a> {
    ghost use Rattle.std.specs.Prelude.{◌≡◌};
    ghost use Rattle.planus.specs.Printed.{u8_shape, IsTextRequired, IsPlainFieldOr};
    ghost use Rattle.planus_views.specs.Printed.{view_table, Returns};

    /// Returns `name`.
    pub fn name(&self) -> &'a str
        ensures { Returns (IsTextRequired (view_table self.now.0) 0) result }
    {
        self.0.text_required(0)
    }

    /// Returns `age`.
    pub fn age(&self) -> u8
        ensures { Returns (IsPlainFieldOr u8_shape 18 (view_table self.now.0) 1) result }
    {
        self.0.plain_field_or(1, 18)
    }

    /// Returns the view that tests what it reads.
    pub fn checked(&self) -> PersonRef<'a>
        ensures { result.0 ≡ view_table self.now.0 }
    {
        planus::TableView::of_table(self.0.table())
    }
}

impl<'a> std::fmt::Debug for PersonView<'a> {
    fn fmt<W: std::fmt::Write>(&self, f: &mut std::fmt::Formatter<W>) -> std::fmt::Result {
        let checked: PersonRef<'a> = planus::TableView::of_table(self.0.table());
        f.debug_tuple("PersonView").field(&checked).finish()
    }
}

impl<'a> PersonRef<'a> {
    ghost use Rattle.planus_views.specs.Printed.{view_table, VerifiesTable};
    ghost use Rattle.harbour.specs.Verified.{verified_schema};
    ghost use Rattle.harbour.specs.declared.verified.person.PersonView.{PersonView};

    /// Verifies this table with all that it leads to, within limits, and returns its view, whose
    /// accessors don't fail.
    pub fn verify(
        &self,
        limits: planus_views::Limits,
    ) -> Result<PersonView<'a>, planus_views::Fault>
        ensures { VerifiesTable (λ (view : PersonView). view_table view.0) verified_schema 0 limits
            self.now.0 result }
    {
        planus_views::verify_table(self.0, limits)
    }
}
