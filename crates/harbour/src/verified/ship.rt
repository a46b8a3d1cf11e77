//! Verified tables `Ship`.

ghost use Rattle.planus_views.specs.Printed.{view_table};
ghost use Rattle.harbour.specs.Verified.{verified_schema};
ghost use Rattle.harbour.specs.Verified.{verified_whole};

use crate::fix::Fix;
use crate::kind::Kind;
use crate::level::Level;
use crate::needs::Needs;
use crate::owner::Owner;
use crate::pos::Pos;
use crate::ship::{Ship, ShipRef};
use crate::verified::owner::OwnerView;
use planus::Vector;
use planus::errors::ErrorKind;
use planus::table_reader::Table;

impl planus_views::VerifiedKind for Ship {
    ghost schema = { verified_schema };

    ghost index = { 2 };

    ghost whole = { verified_whole };

    fn schema() -> planus_views::Schema<'static> {
        crate::verified::schema()
    }

    fn index() -> usize {
        2
    }
}

/// A verified one in a buffer.
#[derive(Clone, Copy)]
pub struct ShipView<'a>(planus_views::View<'a, Ship>);

impl<'a> planus_views::OfKind for ShipView<'a> {
    type Kind = Ship;
}

impl<'a> planus_views::ViewOf<'a> for ShipView<'a> {
    ghost table = { λ view. view_table view.0 };

    fn of_verified(read: Table<'a>) -> ShipView<'a> {
        ShipView(planus_views::View::new(read))
    }
}

impl planus_views::Verify for Ship {
    fn pass(table: Table<'_>, depth: u8, left: usize) -> Option<usize> {
        let fields = planus_views::Entered::<Ship>::new(table, depth)?;
        let left = fields.counted(left)?;
        let left = fields.value(0, true, planus_views::ValueKind::Text, left)?;
        let left = fields.value(1, false, planus_views::ValueKind::Plain(2), left)?;
        let left = fields.value(2, false, planus_views::ValueKind::Plains(4), left)?;
        let left = fields.value(3, false, planus_views::ValueKind::Plain(1), left)?;
        let left = fields.value(4, false, planus_views::ValueKind::Plain(2), left)?;
        let left = fields.value(5, false, planus_views::ValueKind::Plain(2), left)?;
        let left = fields.value(6, false, planus_views::ValueKind::Plain(12), left)?;
        let left = fields.value(7, false, planus_views::ValueKind::Plains(12), left)?;
        let left = fields.value(8, false, planus_views::ValueKind::Plain(4), left)?;
        let left = fields.value(9, false, planus_views::ValueKind::Plain(2), left)?;
        let left = fields.value(10, false, planus_views::ValueKind::Plain(1), left)?;
        let left = fields.value(11, false, planus_views::ValueKind::Plain(1), left)?;
        let left = fields.value(12, false, planus_views::ValueKind::Plain(4), left)?;
        let left = fields.value(13, false, planus_views::ValueKind::Bytes, left)?;
        let left = fields.value(14, false, planus_views::ValueKind::Texts, left)?;
        let left = fields.walked(
            15,
            false,
            planus_views::FieldKind::Value(planus_views::ValueKind::Table(2)),
            left,
        )?;
        let left = fields.walked(
            16,
            false,
            planus_views::FieldKind::Value(planus_views::ValueKind::Tables(2)),
            left,
        )?;
        let left = fields.value(17, false, planus_views::ValueKind::Plains(1), left)?;
        let left = fields.union::<Owner>(18, false, left)?;
        let left = fields.unions::<Owner>(20, false, left)?;
        let left = fields.value(23, false, planus_views::ValueKind::Plain(8), left)?;
        let left = fields.value(24, false, planus_views::ValueKind::Plains(8), left)?;
        let left = fields.value(25, false, planus_views::ValueKind::Plains(1), left)?;
        let left = fields.value(26, true, planus_views::ValueKind::Plain(24), left)?;
        let left = fields.value(27, false, planus_views::ValueKind::Plain(1), left)?;
        let left = fields.value(28, false, planus_views::ValueKind::Plains(1), left)?;
        Some(left)
    }
}

impl<'a> ShipView<'a> {
    ghost use Rattle.std.specs.Prelude.{◌≡◌, pos, negsuc, true, false};
    ghost use Rattle.planus.specs.Printed.{of_bits, binary32, u16_shape, i16_shape, i32_shape};
    ghost use Rattle.planus.specs.Printed.{i64_shape, bool_shape, f32_shape, IsPlainVector};
    ghost use Rattle.planus.specs.Printed.{IsPlainRequired, IsTextRequired, IsBytesField};
    ghost use Rattle.planus.specs.Printed.{IsTextVector, IsTableField, IsTableVector};
    ghost use Rattle.planus.specs.Printed.{IsPlainField, IsPlainFieldOr, IsUnionField};
    ghost use Rattle.planus.specs.Printed.{IsUnionVector, ReadsVariants};
    ghost use Rattle.planus_views.specs.Printed.{view_table, checked_texts, checked_tables};
    ghost use Rattle.planus_views.specs.Printed.{checked_unions, Returns, ReturnsAs};
    ghost use Rattle.planus_views.specs.Printed.{checked_option, option_map};
    ghost use Rattle.harbour.specs.Fix.{fix_shape};
    ghost use Rattle.harbour.specs.Kind.{kind_shape};
    ghost use Rattle.harbour.specs.declared.kind.Kind.TheVariants as kind_value;
    ghost use Rattle.harbour.specs.Level.{level_shape};
    ghost use Rattle.harbour.specs.declared.level.Level.TheVariants as level_value;
    ghost use Rattle.harbour.specs.Needs.{needs_shape};
    ghost use Rattle.harbour.specs.Owner.{owner_view_variants};
    ghost use Rattle.harbour.specs.Owner.{owner_checked};
    ghost use Rattle.harbour.specs.declared.owner.Owner.{Owner};
    ghost use Rattle.harbour.specs.Pos.{pos_shape};
    ghost use Rattle.harbour.specs.declared.ship.Ship.{Ship};
    ghost use Rattle.harbour.specs.declared.verified.ship.ShipView.{ShipView};

    /// Its name.
    pub fn name(&self) -> &'a str
        ensures { Returns (IsTextRequired (view_table self.now.0) 0) result }
    {
        self.0.text_required(0)
    }

    /// Returns `hull`.
    pub fn hull(&self) -> u16
        ensures { Returns (IsPlainFieldOr u16_shape 100 (view_table self.now.0) 1) result }
    {
        self.0.plain_field_or(1, 100)
    }

    /// Returns `cargo`.
    pub fn cargo(&self) -> Option<Vector<'a, u32>>
        ensures { Returns (IsPlainVector (view_table self.now.0) 2) result }
    {
        self.0.plain_vector(2)
    }

    /// Returns `kind`.
    pub fn kind(&self) -> Result<Kind, ErrorKind>
        ensures { ReturnsAs (IsPlainFieldOr kind_shape kind_value.Bike (view_table self.now.0) 3)
            (view_table self.now.0) result }
    {
        self.0.judged_field_or(3, Kind::Bike)
    }

    /// Returns `level`.
    pub fn level(&self) -> Result<Level, ErrorKind>
        ensures { ReturnsAs (IsPlainFieldOr level_shape level_value.Mid (view_table self.now.0) 4)
            (view_table self.now.0) result }
    {
        self.0.judged_field_or(4, Level::Mid)
    }

    /// Returns `needs`.
    pub fn needs(&self) -> Needs
        ensures { Returns (IsPlainFieldOr needs_shape (record { bits = 1 }) (view_table self.now.0)
            5) result }
    {
        self.0.plain_field_or(5, crate::ship::DEFAULT_NEEDS)
    }

    /// Returns `home`.
    pub fn home(&self) -> Option<Pos>
        ensures { Returns (IsPlainField pos_shape (view_table self.now.0) 6) result }
    {
        self.0.plain_field(6)
    }

    /// Returns `track`.
    pub fn track(&self) -> Option<Vector<'a, Pos>>
        ensures { Returns (IsPlainVector (view_table self.now.0) 7) result }
    {
        self.0.plain_vector(7)
    }

    /// Returns `heat`.
    pub fn heat(&self) -> f32
        ensures { Returns (IsPlainFieldOr f32_shape (of_bits binary32 1069547520)
            (view_table self.now.0) 8) result }
    {
        self.0.plain_field_or(8, crate::ship::DEFAULT_HEAT)
    }

    /// Returns `depth`.
    pub fn depth(&self) -> i16
        ensures { Returns (IsPlainFieldOr i16_shape (negsuc 4) (view_table self.now.0) 9) result }
    {
        self.0.plain_field_or(9, -5)
    }

    /// Returns `open`.
    pub fn open(&self) -> bool
        ensures { Returns (IsPlainFieldOr bool_shape true (view_table self.now.0) 10) result }
    {
        self.0.plain_field_or(10, true)
    }

    /// Returns `shut`.
    pub fn shut(&self) -> bool
        ensures { Returns (IsPlainFieldOr bool_shape false (view_table self.now.0) 11) result }
    {
        self.0.plain_field_or(11, false)
    }

    /// Returns `maybe`.
    pub fn maybe(&self) -> Option<i32>
        ensures { Returns (IsPlainField i32_shape (view_table self.now.0) 12) result }
    {
        self.0.plain_field(12)
    }

    /// Returns `photo`.
    pub fn photo(&self) -> Option<&'a [u8]>
        ensures { Returns (IsBytesField (view_table self.now.0) 13) result }
    {
        self.0.bytes_field(13)
    }

    /// Returns `names`.
    pub fn names(&self) -> Option<planus_views::Texts<'a>>
        ensures { Returns (IsTextVector (view_table self.now.0) 14)
            (option_map (λ all. checked_texts all) result) }
    {
        self.0.text_vector(14)
    }

    /// Returns `mate`.
    pub fn mate(&self) -> Option<ShipView<'a>>
        ensures { Returns (IsTableField Ship (λ (view : ShipView). view_table view.0)
            (view_table self.now.0) 15) result }
    {
        self.0.table_field(15)
    }

    /// Returns `consorts`.
    pub fn consorts(&self) -> Option<planus_views::Tables<'a, ShipView<'a>>>
        ensures { Returns (IsTableVector Ship (view_table self.now.0) 16)
            (option_map (λ all. checked_tables all) result) }
    {
        self.0.table_vector(16)
    }

    /// Returns `kinds`.
    pub fn kinds(&self) -> Option<Vector<'a, planus::Result<Kind>>>
        ensures { Returns (IsPlainVector (view_table self.now.0) 17) result }
    {
        self.0.plain_vector(17)
    }

    /// Returns `owner`.
    pub fn owner(&self) -> Option<OwnerView<'a>>
        ensures { ReturnsAs (λ type_ method. IsUnionField (ReadsVariants owner_view_variants)
            (view_table self.now.0) 18 type_ method Owner) (view_table self.now.0)
            (checked_option owner_checked result) }
    {
        self.0.union_field(18)
    }

    /// Returns `shares`.
    pub fn shares(&self) -> Option<planus_views::Unions<'a, OwnerView<'a>>>
        ensures { Returns (IsUnionVector (view_table self.now.0) 20)
            (option_map (λ all. checked_unions all) result) }
    {
        self.0.union_vector(20)
    }

    /// Returns `tall`.
    pub fn tall(&self) -> i64
        ensures { Returns (IsPlainFieldOr i64_shape (pos 0) (view_table self.now.0) 23) result }
    {
        self.0.plain_field_or(23, 0)
    }

    /// Returns `temps`.
    pub fn temps(&self) -> Option<Vector<'a, f64>>
        ensures { Returns (IsPlainVector (view_table self.now.0) 24) result }
    {
        self.0.plain_vector(24)
    }

    /// Returns `deltas`.
    pub fn deltas(&self) -> Option<Vector<'a, i8>>
        ensures { Returns (IsPlainVector (view_table self.now.0) 25) result }
    {
        self.0.plain_vector(25)
    }

    /// Returns `fix`.
    pub fn fix(&self) -> Result<Fix, ErrorKind>
        ensures { ReturnsAs (IsPlainRequired fix_shape (view_table self.now.0) 26)
            (view_table self.now.0) result }
    {
        self.0.judged_required(26)
    }

    /// Returns `which`.
    pub fn which(&self) -> Result<Option<Kind>, ErrorKind>
        ensures { ReturnsAs (IsPlainField kind_shape (view_table self.now.0) 27)
            (view_table self.now.0) result }
    {
        self.0.judged_field(27)
    }

    /// Returns `flags`.
    pub fn flags(&self) -> Option<Vector<'a, bool>>
        ensures { Returns (IsPlainVector (view_table self.now.0) 28) result }
    {
        self.0.plain_vector(28)
    }

    /// Returns the view that tests what it reads.
    pub fn checked(&self) -> ShipRef<'a>
        ensures { result.0 ≡ view_table self.now.0 }
    {
        planus::TableView::of_table(self.0.table())
    }
}

impl<'a> std::fmt::Debug for ShipView<'a> {
    fn fmt<W: std::fmt::Write>(&self, f: &mut std::fmt::Formatter<W>) -> std::fmt::Result {
        let checked: ShipRef<'a> = planus::TableView::of_table(self.0.table());
        f.debug_tuple("ShipView").field(&checked).finish()
    }
}

impl<'a> ShipRef<'a> {
    ghost use Rattle.planus_views.specs.Printed.{view_table, VerifiesTable};
    ghost use Rattle.harbour.specs.Verified.{verified_schema};
    ghost use Rattle.harbour.specs.declared.verified.ship.ShipView.{ShipView};

    /// Verifies this table with all that it leads to, within limits, and returns its view, whose
    /// accessors don't fail.
    pub fn verify(&self, limits: planus_views::Limits) -> Result<ShipView<'a>, planus_views::Fault>
        ensures { VerifiesTable (λ (view : ShipView). view_table view.0) verified_schema 2 limits
            self.now.0 result }
    {
        planus_views::verify_table(self.0, limits)
    }
}
