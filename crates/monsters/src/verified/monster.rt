//! Verified tables `Monster`.

ghost use Rattle.planus_views.specs.Printed.{view_table};
ghost use Rattle.monsters.specs.Verified.{verified_schema};
ghost use Rattle.monsters.specs.Verified.{verified_whole};

use crate::equipment::Equipment;
use crate::monster::{Monster, MonsterRef};
use crate::verified::equipment::EquipmentView;
use crate::verified::weapon::WeaponView;
use crate::weapon::Weapon;
use planus::table_reader::Table;

impl planus_views::VerifiedKind for Monster {
    ghost schema = { verified_schema };

    ghost index = { 1 };

    ghost whole = { verified_whole };

    fn schema() -> planus_views::Schema<'static> {
        crate::verified::schema()
    }

    fn index() -> usize {
        1
    }
}

/// A verified one in a buffer.
#[derive(Clone, Copy)]
pub struct MonsterView<'a>(planus_views::View<'a, Monster>);

impl<'a> planus_views::OfKind for MonsterView<'a> {
    type Kind = Monster;
}

impl<'a> planus_views::ViewOf<'a> for MonsterView<'a> {
    ghost table = { λ view. view_table view.0 };

    fn of_verified(read: Table<'a>) -> MonsterView<'a> {
        MonsterView(planus_views::View::new(read))
    }
}

impl planus_views::Verify for Monster {
    fn pass(table: Table<'_>, depth: u8, left: usize) -> Option<usize> {
        let fields = planus_views::Entered::<Monster>::new(table, depth)?;
        let left = fields.counted(left)?;
        let left = fields.value(0, false, planus_views::ValueKind::Plain(2), left)?;
        let left = fields.value(1, true, planus_views::ValueKind::Text, left)?;
        let left = fields.value(2, false, planus_views::ValueKind::Bytes, left)?;
        let left = fields.tables::<Weapon>(3, false, left)?;
        let left = fields.union::<Equipment>(4, false, left)?;
        let left = fields.unions::<Equipment>(6, false, left)?;
        Some(left)
    }
}

impl<'a> MonsterView<'a> {
    ghost use Rattle.std.specs.Prelude.{◌≡◌, pos};
    ghost use Rattle.planus.specs.Printed.{i16_shape, IsTextRequired, IsBytesField, IsTableVector};
    ghost use Rattle.planus.specs.Printed.{IsPlainFieldOr, IsUnionField, IsUnionVector};
    ghost use Rattle.planus.specs.Printed.{ReadsVariants};
    ghost use Rattle.planus_views.specs.Printed.{view_table, checked_tables, checked_unions};
    ghost use Rattle.planus_views.specs.Printed.{Returns, ReturnsAs, checked_option, option_map};
    ghost use Rattle.monsters.specs.Equipment.{equipment_view_variants};
    ghost use Rattle.monsters.specs.Equipment.{equipment_checked};
    ghost use Rattle.monsters.specs.declared.equipment.Equipment.{Equipment};
    ghost use Rattle.monsters.specs.declared.weapon.Weapon.{Weapon};

    /// Returns `hp`.
    pub fn hp(&self) -> i16
        ensures { Returns (IsPlainFieldOr i16_shape (pos 100) (view_table self.now.0) 0) result }
    {
        self.0.plain_field_or(0, 100)
    }

    /// Returns `name`.
    pub fn name(&self) -> &'a str
        ensures { Returns (IsTextRequired (view_table self.now.0) 1) result }
    {
        self.0.text_required(1)
    }

    /// Returns `inventory`.
    pub fn inventory(&self) -> Option<&'a [u8]>
        ensures { Returns (IsBytesField (view_table self.now.0) 2) result }
    {
        self.0.bytes_field(2)
    }

    /// Returns `weapons`.
    pub fn weapons(&self) -> Option<planus_views::Tables<'a, WeaponView<'a>>>
        ensures { Returns (IsTableVector Weapon (view_table self.now.0) 3)
            (option_map (λ all. checked_tables all) result) }
    {
        self.0.table_vector(3)
    }

    /// Returns `equipped`.
    pub fn equipped(&self) -> Option<EquipmentView<'a>>
        ensures { ReturnsAs (λ type_ method. IsUnionField (ReadsVariants equipment_view_variants)
            (view_table self.now.0) 4 type_ method Equipment) (view_table self.now.0)
            (checked_option equipment_checked result) }
    {
        self.0.union_field(4)
    }

    /// Returns `loot`.
    pub fn loot(&self) -> Option<planus_views::Unions<'a, EquipmentView<'a>>>
        ensures { Returns (IsUnionVector (view_table self.now.0) 6)
            (option_map (λ all. checked_unions all) result) }
    {
        self.0.union_vector(6)
    }

    /// Returns the view that tests what it reads.
    pub fn checked(&self) -> MonsterRef<'a>
        ensures { result.0 ≡ view_table self.now.0 }
    {
        planus::TableView::of_table(self.0.table())
    }
}

impl<'a> std::fmt::Debug for MonsterView<'a> {
    fn fmt<W: std::fmt::Write>(&self, f: &mut std::fmt::Formatter<W>) -> std::fmt::Result {
        let checked: MonsterRef<'a> = planus::TableView::of_table(self.0.table());
        f.debug_tuple("MonsterView").field(&checked).finish()
    }
}

impl<'a> MonsterRef<'a> {
    ghost use Rattle.planus_views.specs.Printed.{view_table, VerifiesTable};
    ghost use Rattle.monsters.specs.Verified.{verified_schema};
    ghost use Rattle.monsters.specs.declared.verified.monster.MonsterView.{MonsterView};

    /// Verifies this table with all that it leads to, within limits, and returns its view, whose
    /// accessors don't fail.
    pub fn verify(
        &self,
        limits: planus_views::Limits,
    ) -> Result<MonsterView<'a>, planus_views::Fault>
        ensures { VerifiesTable (λ (view : MonsterView). view_table view.0) verified_schema 1
            limits self.now.0 result }
    {
        planus_views::verify_table(self.0, limits)
    }
}
