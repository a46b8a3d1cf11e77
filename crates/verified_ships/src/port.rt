//! Tables `Port`.

ghost use Rattle.planus.specs.Printed.{IsUnionRequired, ReadsVariants};
ghost use Rattle.planus_views.specs.Views.{view_table};
ghost use Rattle.planus.specs.Printed.{IsTableVectorRequired, IsTextVectorRequired};
ghost use Rattle.planus.specs.Printed.{IsPlainVectorRequired, IsBytesRequired};
ghost use Rattle.planus_views.specs.Members.{ReturnsAs};
ghost use Rattle.planus_views.specs.CheckedVectors.{checked_tables, checked_texts};
ghost use Rattle.planus_views.specs.Vectors.{Returns};

use crate::owner::{Owner, OwnerView};
use crate::schema::schema;
use crate::ship::{Ship, ShipView};
use planus::Vector;
use planus::table_reader::Table;
use planus_views::{
    Entered, OfKind, Schema, Tables, Texts, ValueKind, VerifiedKind, Verify, View, ViewOf,
};

/// The kind of `Port`.
pub struct Port;

impl VerifiedKind for Port {
    ghost use Rattle.std.proofs.Common.{refl};
    ghost use Rattle.verified_ships.specs.Schema.{ships_schema};

    ghost schema = { ships_schema };

    ghost index = { 3 };

    ghost whole = { refl };

    fn schema() -> Schema<'static> {
        schema()
    }

    fn index() -> usize {
        3
    }
}

impl Verify for Port {
    fn pass(table: Table<'_>, depth: u8, left: usize) -> Option<usize> {
        let fields = Entered::<Port>::new(table, depth)?;
        let left = fields.counted(left)?;
        let left = fields.union::<Owner>(0, true, left)?;
        let left = fields.tables::<Ship>(2, true, left)?;
        let left = fields.value(3, true, ValueKind::Texts, left)?;
        let left = fields.value(6, true, ValueKind::Plains(2), left)?;
        let left = fields.value(7, true, ValueKind::Bytes, left)?;
        Some(left)
    }
}

/// A verified one in a buffer.
#[derive(Clone, Copy)]
pub struct PortView<'a>(View<'a, Port>);

impl<'a> OfKind for PortView<'a> {
    type Kind = Port;
}

impl<'a> ViewOf<'a> for PortView<'a> {
    ghost table = { λ view. view_table view.0 };

    fn of_verified(read: Table<'a>) -> PortView<'a> {
        PortView(View::new(read))
    }
}

impl<'a> PortView<'a> {
    ghost use Rattle.verified_ships.specs.Owner.{owner_variants, checked_owner};
    ghost use Rattle.verified_ships.specs.declared.ship.Ship.{Ship};

    /// Returns `owner`.
    pub fn owner(&self) -> OwnerView<'a>
        ensures { ReturnsAs (IsUnionRequired (ReadsVariants owner_variants)
            (view_table self.now.0) 0) (view_table self.now.0) (checked_owner result) }
    {
        self.0.union_required(0)
    }

    /// Returns `ships`.
    pub fn ships(&self) -> Tables<'a, ShipView<'a>>
        ensures { Returns (IsTableVectorRequired Ship (view_table self.now.0) 2)
            (checked_tables result) }
    {
        self.0.table_vector_required(2)
    }

    /// Returns `berths`.
    pub fn berths(&self) -> Texts<'a>
        ensures { Returns (IsTextVectorRequired (view_table self.now.0) 3) (checked_texts result) }
    {
        self.0.text_vector_required(3)
    }

    /// Returns `soundings`.
    pub fn soundings(&self) -> Vector<'a, u16>
        ensures { Returns (IsPlainVectorRequired (view_table self.now.0) 6) result }
    {
        self.0.plain_vector_required(6)
    }

    /// Returns `chart`.
    pub fn chart(&self) -> &'a [u8]
        ensures { Returns (IsBytesRequired (view_table self.now.0) 7) result }
    {
        self.0.bytes_required(7)
    }
}
