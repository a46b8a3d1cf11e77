//! Verified tables `Port`.

ghost use Rattle.planus_views.specs.Printed.{view_table};
ghost use Rattle.harbour.specs.Verified.{verified_schema};
ghost use Rattle.harbour.specs.Verified.{verified_whole};

use crate::gauge::Gauge;
use crate::owner::Owner;
use crate::port::{Port, PortRef};
use crate::ship::Ship;
use crate::signal::Signal;
use crate::verified::owner::OwnerView;
use crate::verified::ship::ShipView;
use planus::Vector;
use planus::errors::ErrorKind;
use planus::table_reader::Table;

impl planus_views::VerifiedKind for Port {
    ghost schema = { verified_schema };

    ghost index = { 3 };

    ghost whole = { verified_whole };

    fn schema() -> planus_views::Schema<'static> {
        crate::verified::schema()
    }

    fn index() -> usize {
        3
    }
}

/// A verified one in a buffer.
#[derive(Clone, Copy)]
pub struct PortView<'a>(planus_views::View<'a, Port>);

impl<'a> planus_views::OfKind for PortView<'a> {
    type Kind = Port;
}

impl<'a> planus_views::ViewOf<'a> for PortView<'a> {
    ghost table = { λ view. view_table view.0 };

    fn of_verified(read: Table<'a>) -> PortView<'a> {
        PortView(planus_views::View::new(read))
    }
}

impl planus_views::Verify for Port {
    fn pass(table: Table<'_>, depth: u8, left: usize) -> Option<usize> {
        let fields = planus_views::Entered::<Port>::new(table, depth)?;
        let left = fields.counted(left)?;
        let left = fields.union::<Owner>(0, true, left)?;
        let left = fields.tables::<Ship>(2, true, left)?;
        let left = fields.value(3, true, planus_views::ValueKind::Texts, left)?;
        let left = fields.unions::<Owner>(4, true, left)?;
        let left = fields.value(6, true, planus_views::ValueKind::Plains(2), left)?;
        let left = fields.value(7, true, planus_views::ValueKind::Bytes, left)?;
        let left = fields.value(8, false, planus_views::ValueKind::Plain(8), left)?;
        let left = fields.value(9, false, planus_views::ValueKind::Plain(1), left)?;
        Some(left)
    }
}

impl<'a> PortView<'a> {
    ghost use Rattle.std.specs.Prelude.{◌≡◌};
    ghost use Rattle.planus.specs.Printed.{IsPlainVectorRequired, IsBytesRequired};
    ghost use Rattle.planus.specs.Printed.{IsTextVectorRequired, IsTableVectorRequired};
    ghost use Rattle.planus.specs.Printed.{IsPlainField, IsPlainFieldOr, IsUnionRequired};
    ghost use Rattle.planus.specs.Printed.{IsUnionVectorRequired, ReadsVariants};
    ghost use Rattle.planus_views.specs.Printed.{view_table, checked_texts, checked_tables};
    ghost use Rattle.planus_views.specs.Printed.{checked_unions, Returns, ReturnsAs};
    ghost use Rattle.harbour.specs.Gauge.{gauge_shape};
    ghost use Rattle.harbour.specs.Owner.{owner_view_variants};
    ghost use Rattle.harbour.specs.Owner.{owner_checked};
    ghost use Rattle.harbour.specs.declared.ship.Ship.{Ship};
    ghost use Rattle.harbour.specs.Signal.{signal_shape};
    ghost use Rattle.harbour.specs.declared.signal.Signal.TheVariants as signal_value;

    /// Returns `owner`.
    pub fn owner(&self) -> OwnerView<'a>
        ensures { ReturnsAs (IsUnionRequired (ReadsVariants owner_view_variants)
            (view_table self.now.0) 0) (view_table self.now.0) (owner_checked result) }
    {
        self.0.union_required(0)
    }

    /// Returns `ships`.
    pub fn ships(&self) -> planus_views::Tables<'a, ShipView<'a>>
        ensures { Returns (IsTableVectorRequired Ship (view_table self.now.0) 2)
            (checked_tables result) }
    {
        self.0.table_vector_required(2)
    }

    /// Returns `berths`.
    pub fn berths(&self) -> planus_views::Texts<'a>
        ensures { Returns (IsTextVectorRequired (view_table self.now.0) 3) (checked_texts result) }
    {
        self.0.text_vector_required(3)
    }

    /// Returns `shares`.
    pub fn shares(&self) -> planus_views::Unions<'a, OwnerView<'a>>
        ensures { Returns (IsUnionVectorRequired (view_table self.now.0) 4)
            (checked_unions result) }
    {
        self.0.union_vector_required(4)
    }

    /// Returns `soundings`.
    pub fn soundings(&self) -> Vector<'a, u16>
        ensures { Returns (IsPlainVectorRequired (view_table self.now.0) 6) result }
    {
        self.0.plain_vector_required(6)
    }

    /// Returns `chart`.
    pub fn chart(&self) -> &'a [u8]
        ensures { Returns (IsBytesRequired (view_table self.now.0) 7) result }
    {
        self.0.bytes_required(7)
    }

    /// Returns `gauge`.
    pub fn gauge(&self) -> Option<Gauge>
        ensures { Returns (IsPlainField gauge_shape (view_table self.now.0) 8) result }
    {
        self.0.plain_field(8)
    }

    /// What it hoists.
    pub fn hoisted(&self) -> Result<Signal, ErrorKind>
        ensures { ReturnsAs (IsPlainFieldOr signal_shape signal_value.Quebec
            (view_table self.now.0) 9) (view_table self.now.0) result }
    {
        self.0.judged_field_or(9, Signal::Quebec)
    }

    /// Returns the view that tests what it reads.
    pub fn checked(&self) -> PortRef<'a>
        ensures { result.0 ≡ view_table self.now.0 }
    {
        planus::TableView::of_table(self.0.table())
    }
}

impl<'a> std::fmt::Debug for PortView<'a> {
    fn fmt<W: std::fmt::Write>(&self, f: &mut std::fmt::Formatter<W>) -> std::fmt::Result {
        let checked: PortRef<'a> = planus::TableView::of_table(self.0.table());
        f.debug_tuple("PortView").field(&checked).finish()
    }
}

impl<'a> PortRef<'a> {
    ghost use Rattle.planus_views.specs.Printed.{view_table, VerifiesTable};
    ghost use Rattle.harbour.specs.Verified.{verified_schema};
    ghost use Rattle.harbour.specs.declared.verified.port.PortView.{PortView};

    /// Verifies this table with all that it leads to, within limits, and returns its view, whose
    /// accessors don't fail.
    pub fn verify(&self, limits: planus_views::Limits) -> Result<PortView<'a>, planus_views::Fault>
        ensures { VerifiesTable (λ (view : PortView). view_table view.0) verified_schema 3 limits
            self.now.0 result }
    {
        planus_views::verify_table(self.0, limits)
    }
}
