//! Tables `Ship`.

ghost use Rattle.std.specs.Prelude.{◌≡◌, codes};
ghost use Rattle.std.specs.Option.{option_map};
ghost use Rattle.planus.specs.Printed.{u16_shape, IsTextRequired, IsPlainFieldOr, IsPlainVector};
ghost use Rattle.planus.specs.Printed.{IsBytesField, IsTextVector, IsTableField, IsTableVector};
ghost use Rattle.planus_views.specs.Views.{view_table};
ghost use Rattle.planus_views.specs.CheckedVectors.{checked_tables, checked_texts};
ghost use Rattle.planus_views.specs.Vectors.{Returns};
ghost use Rattle.planus_views.specs.Members.{ReturnsAs, checked_option};
ghost use Rattle.planus.specs.Printed.{IsUnionField, ReadsVariants, IsPlainField};

use crate::kind::Kind;
use crate::owner::{Owner, OwnerView};
use crate::schema::schema;
use planus::errors::ErrorKind;
use planus::table_reader::Table;
use planus::{TableKind, TableWriter, Vector};
use planus_views::{
    Entered, FieldKind, OfKind, Schema, Tables, Texts, ValueKind, VerifiedKind, Verify, View,
    ViewOf,
};

/// The kind of `Ship`.
pub struct Ship;

impl TableKind for Ship {
    type Writer = TableWriter<62>;

    ghost name = { codes "[ShipRef]" };

    fn name() -> &'static str {
        "[ShipRef]"
    }
}

impl VerifiedKind for Ship {
    ghost use Rattle.std.proofs.Common.{refl};
    ghost use Rattle.verified_ships.specs.Schema.{ships_schema};

    ghost schema = { ships_schema };

    ghost index = { 0 };

    ghost whole = { refl };

    fn schema() -> Schema<'static> {
        schema()
    }

    fn index() -> usize {
        0
    }
}

impl Verify for Ship {
    fn pass(table: Table<'_>, depth: u8, left: usize) -> Option<usize> {
        let fields = Entered::<Ship>::new(table, depth)?;
        let left = fields.counted(left)?;
        let left = fields.value(0, true, ValueKind::Text, left)?;
        let left = fields.value(1, false, ValueKind::Plain(2), left)?;
        let left = fields.value(2, false, ValueKind::Plains(4), left)?;
        let left = fields.value(3, false, ValueKind::Plain(1), left)?;
        let left = fields.value(13, false, ValueKind::Bytes, left)?;
        let left = fields.value(14, false, ValueKind::Texts, left)?;
        let left = fields.walked(15, false, FieldKind::Value(ValueKind::Table(0)), left)?;
        let left = fields.walked(16, false, FieldKind::Value(ValueKind::Tables(0)), left)?;
        let left = fields.value(17, false, ValueKind::Plains(1), left)?;
        let left = fields.union::<Owner>(18, false, left)?;
        let left = fields.value(27, false, ValueKind::Plain(1), left)?;
        Some(left)
    }
}

/// A verified one in a buffer.
#[derive(Clone, Copy)]
pub struct ShipView<'a>(View<'a, Ship>);

impl<'a> OfKind for ShipView<'a> {
    type Kind = Ship;
}

impl<'a> ViewOf<'a> for ShipView<'a> {
    ghost table = { λ view. view_table view.0 };

    fn of_verified(read: Table<'a>) -> ShipView<'a> {
        ShipView(View::new(read))
    }
}

impl<'a> ShipView<'a> {
    ghost use Rattle.verified_ships.specs.declared.ship.Ship.{Ship};
    ghost use Rattle.verified_ships.specs.declared.ship.ShipView.{ShipView};
    ghost use Rattle.verified_ships.specs.declared.owner.Owner.{Owner};
    ghost use Rattle.verified_ships.specs.Owner.{owner_variants, checked_owner};
    ghost use Rattle.verified_ships.specs.Kind.{kind_shape};
    ghost use Rattle.verified_ships.specs.declared.kind.Kind.TheVariants as kind_value;

    /// Returns `name`.
    pub fn name(&self) -> &'a str
        ensures { Returns (IsTextRequired (view_table self.now.0) 0) result }
    {
        self.0.text_required(0)
    }

    /// Returns `hull`.
    pub fn hull(&self) -> u16
        ensures { Returns (IsPlainFieldOr u16_shape 100 (view_table self.now.0) 1) result }
    {
        self.0.plain_field_or(1, 100)
    }

    /// Returns `cargo`.
    pub fn cargo(&self) -> Option<Vector<'a, u32>>
        ensures { Returns (IsPlainVector (view_table self.now.0) 2) result }
    {
        self.0.plain_vector(2)
    }

    /// Returns `kind`.
    pub fn kind(&self) -> Result<Kind, ErrorKind>
        ensures { ReturnsAs (IsPlainFieldOr kind_shape kind_value.Bike (view_table self.now.0) 3)
            (view_table self.now.0) result }
    {
        self.0.judged_field_or(3, Kind::Bike)
    }

    /// Returns `photo`.
    pub fn photo(&self) -> Option<&'a [u8]>
        ensures { Returns (IsBytesField (view_table self.now.0) 13) result }
    {
        self.0.bytes_field(13)
    }

    /// Returns `names`.
    pub fn names(&self) -> Option<Texts<'a>>
        ensures { Returns (IsTextVector (view_table self.now.0) 14)
            (option_map (λ texts. checked_texts texts) result) }
    {
        self.0.text_vector(14)
    }

    /// Returns `mate`.
    pub fn mate(&self) -> Option<ShipView<'a>>
        ensures { Returns (IsTableField Ship (λ (view : ShipView). view_table view.0) (view_table self.now.0) 15) result }
    {
        self.0.table_field(15)
    }

    /// Returns `consorts`.
    pub fn consorts(&self) -> Option<Tables<'a, ShipView<'a>>>
        ensures { Returns (IsTableVector Ship (view_table self.now.0) 16)
            (option_map (λ tables. checked_tables tables) result) }
    {
        self.0.table_vector(16)
    }

    /// Returns `kinds`.
    pub fn kinds(&self) -> Option<Vector<'a, planus::Result<Kind>>>
        ensures { Returns (IsPlainVector (view_table self.now.0) 17) result }
    {
        self.0.plain_vector(17)
    }

    /// Returns `owner`.
    pub fn owner(&self) -> Option<OwnerView<'a>>
        ensures { ReturnsAs (λ type_ method. IsUnionField (ReadsVariants owner_variants)
            (view_table self.now.0) 18 type_ method Owner) (view_table self.now.0)
            (checked_option checked_owner result) }
    {
        self.0.union_field(18)
    }

    /// Returns `which`.
    pub fn which(&self) -> Result<Option<Kind>, ErrorKind>
        ensures { ReturnsAs (IsPlainField kind_shape (view_table self.now.0) 27)
            (view_table self.now.0) result }
    {
        self.0.judged_field(27)
    }
}
