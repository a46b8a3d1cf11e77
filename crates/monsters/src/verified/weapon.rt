//! Verified tables `Weapon`.

ghost use Rattle.planus_views.specs.Printed.{view_table};
ghost use Rattle.monsters.specs.Verified.{verified_schema};
ghost use Rattle.monsters.specs.Verified.{verified_whole};

use crate::weapon::{Weapon, WeaponRef};
use planus::table_reader::Table;

impl planus_views::VerifiedKind for Weapon {
    ghost schema = { verified_schema };

    ghost index = { 0 };

    ghost whole = { verified_whole };

    fn schema() -> planus_views::Schema<'static> {
        crate::verified::schema()
    }

    fn index() -> usize {
        0
    }
}

/// A verified one in a buffer.
#[derive(Clone, Copy)]
pub struct WeaponView<'a>(planus_views::View<'a, Weapon>);

impl<'a> planus_views::OfKind for WeaponView<'a> {
    type Kind = Weapon;
}

impl<'a> planus_views::ViewOf<'a> for WeaponView<'a> {
    ghost table = { λ view. view_table view.0 };

    fn of_verified(read: Table<'a>) -> WeaponView<'a> {
        WeaponView(planus_views::View::new(read))
    }
}

impl planus_views::Verify for Weapon {
    fn pass(table: Table<'_>, depth: u8, left: usize) -> Option<usize> {
        let fields = planus_views::Entered::<Weapon>::new(table, depth)?;
        let left = fields.counted(left)?;
        let left = fields.value(0, false, planus_views::ValueKind::Text, left)?;
        let left = fields.value(1, false, planus_views::ValueKind::Plain(2), left)?;
        Some(left)
    }
}

impl<'a> WeaponView<'a> {
    ghost use Rattle.std.specs.Prelude.{◌≡◌, pos};
    ghost use Rattle.planus.specs.Printed.{i16_shape, IsTextField, IsPlainFieldOr};
    ghost use Rattle.planus_views.specs.Printed.{view_table, Returns};

    /// Returns `name`.
    pub fn name(&self) -> Option<&'a str>
        ensures { Returns (IsTextField (view_table self.now.0) 0) result }
    {
        self.0.text_field(0)
    }

    /// Returns `damage`.
    pub fn damage(&self) -> i16
        ensures { Returns (IsPlainFieldOr i16_shape (pos 0) (view_table self.now.0) 1) result }
    {
        self.0.plain_field_or(1, 0)
    }

    /// Returns the view that tests what it reads.
    pub fn checked(&self) -> WeaponRef<'a>
        ensures { result.0 ≡ view_table self.now.0 }
    {
        planus::TableView::of_table(self.0.table())
    }
}

impl<'a> std::fmt::Debug for WeaponView<'a> {
    fn fmt<W: std::fmt::Write>(&self, f: &mut std::fmt::Formatter<W>) -> std::fmt::Result {
        let checked: WeaponRef<'a> = planus::TableView::of_table(self.0.table());
        f.debug_tuple("WeaponView").field(&checked).finish()
    }
}

impl<'a> WeaponRef<'a> {
    ghost use Rattle.planus_views.specs.Printed.{view_table, VerifiesTable};
    ghost use Rattle.monsters.specs.Verified.{verified_schema};
    ghost use Rattle.monsters.specs.declared.verified.weapon.WeaponView.{WeaponView};

    /// Verifies this table with all that it leads to, within limits, and returns its view, whose
    /// accessors don't fail.
    pub fn verify(
        &self,
        limits: planus_views::Limits,
    ) -> Result<WeaponView<'a>, planus_views::Fault>
        ensures { VerifiesTable (λ (view : WeaponView). view_table view.0) verified_schema 0 limits
            self.now.0 result }
    {
        planus_views::verify_table(self.0, limits)
    }
}
