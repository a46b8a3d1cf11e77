//! Verified tables `Manifest`.

ghost use Rattle.planus_views.specs.Printed.{view_table};
ghost use Rattle.harbour.specs.Verified.{verified_schema};
ghost use Rattle.harbour.specs.Verified.{verified_whole};

use crate::gauge::Gauge;
use crate::kind::Kind;
use crate::level::Level;
use crate::manifest::{Manifest, ManifestRef};
use crate::needs::Needs;
use crate::owner::Owner;
use crate::person::Person;
use crate::pos::Pos;
use crate::ship::Ship;
use crate::signal::Signal;
use crate::verified::owner::OwnerView;
use crate::verified::person::PersonView;
use crate::verified::ship::ShipView;
use planus::Vector;
use planus::errors::ErrorKind;
use planus::table_reader::Table;

impl planus_views::VerifiedKind for Manifest {
    ghost schema = { verified_schema };

    ghost index = { 4 };

    ghost whole = { verified_whole };

    fn schema() -> planus_views::Schema<'static> {
        crate::verified::schema()
    }

    fn index() -> usize {
        4
    }
}

/// A verified one in a buffer.
#[derive(Clone, Copy)]
pub struct ManifestView<'a>(planus_views::View<'a, Manifest>);

impl<'a> planus_views::OfKind for ManifestView<'a> {
    type Kind = Manifest;
}

impl<'a> planus_views::ViewOf<'a> for ManifestView<'a> {
    ghost table = { λ view. view_table view.0 };

    fn of_verified(read: Table<'a>) -> ManifestView<'a> {
        ManifestView(planus_views::View::new(read))
    }
}

impl planus_views::Verify for Manifest {
    fn pass(table: Table<'_>, depth: u8, left: usize) -> Option<usize> {
        let fields = planus_views::Entered::<Manifest>::new(table, depth)?;
        let left = fields.counted(left)?;
        let left = fields.value(0, false, planus_views::ValueKind::Plain(8), left)?;
        let left = fields.value(1, false, planus_views::ValueKind::Plain(8), left)?;
        let left = fields.value(2, false, planus_views::ValueKind::Plain(8), left)?;
        let left = fields.value(3, false, planus_views::ValueKind::Plain(4), left)?;
        let left = fields.value(4, false, planus_views::ValueKind::Plain(4), left)?;
        let left = fields.value(5, false, planus_views::ValueKind::Plain(4), left)?;
        let left = fields.value(6, false, planus_views::ValueKind::Plain(2), left)?;
        let left = fields.value(7, false, planus_views::ValueKind::Plain(2), left)?;
        let left = fields.value(8, false, planus_views::ValueKind::Plain(1), left)?;
        let left = fields.value(9, false, planus_views::ValueKind::Plain(1), left)?;
        let left = fields.value(10, false, planus_views::ValueKind::Plain(1), left)?;
        let left = fields.value(11, false, planus_views::ValueKind::Plain(1), left)?;
        let left = fields.value(12, false, planus_views::ValueKind::Plain(1), left)?;
        let left = fields.value(13, false, planus_views::ValueKind::Plain(2), left)?;
        let left = fields.value(14, false, planus_views::ValueKind::Plain(2), left)?;
        let left = fields.value(15, false, planus_views::ValueKind::Plain(1), left)?;
        let left = fields.value(16, false, planus_views::ValueKind::Plain(8), left)?;
        let left = fields.value(17, false, planus_views::ValueKind::Plain(8), left)?;
        let left = fields.value(18, false, planus_views::ValueKind::Plain(4), left)?;
        let left = fields.value(19, false, planus_views::ValueKind::Plain(1), left)?;
        let left = fields.value(20, false, planus_views::ValueKind::Plain(1), left)?;
        let left = fields.value(21, false, planus_views::ValueKind::Plain(12), left)?;
        let left = fields.value(22, true, planus_views::ValueKind::Plain(8), left)?;
        let left = fields.value(23, true, planus_views::ValueKind::Text, left)?;
        let left = fields.value(24, false, planus_views::ValueKind::Text, left)?;
        let left = fields.value(25, false, planus_views::ValueKind::Bytes, left)?;
        let left = fields.value(26, true, planus_views::ValueKind::Bytes, left)?;
        let left = fields.value(27, false, planus_views::ValueKind::Plains(8), left)?;
        let left = fields.value(28, true, planus_views::ValueKind::Plains(4), left)?;
        let left = fields.value(29, false, planus_views::ValueKind::Plains(2), left)?;
        let left = fields.value(30, false, planus_views::ValueKind::Plains(1), left)?;
        let left = fields.value(31, false, planus_views::ValueKind::Plains(1), left)?;
        let left = fields.value(32, false, planus_views::ValueKind::Plains(12), left)?;
        let left = fields.value(33, false, planus_views::ValueKind::Texts, left)?;
        let left = fields.value(34, true, planus_views::ValueKind::Texts, left)?;
        let left = fields.table::<Ship>(35, true, left)?;
        let left = fields.walked(
            36,
            false,
            planus_views::FieldKind::Value(planus_views::ValueKind::Table(4)),
            left,
        )?;
        let left = fields.tables::<Person>(37, false, left)?;
        let left = fields.walked(
            38,
            true,
            planus_views::FieldKind::Value(planus_views::ValueKind::Tables(4)),
            left,
        )?;
        let left = fields.union::<Owner>(39, false, left)?;
        let left = fields.union::<Owner>(41, true, left)?;
        let left = fields.unions::<Owner>(43, false, left)?;
        Some(left)
    }
}

impl<'a> ManifestView<'a> {
    ghost use Rattle.std.specs.Prelude.{◌≡◌, negsuc, true, false};
    ghost use Rattle.planus.specs.Printed.{of_bits, binary32, binary64, u8_shape, u16_shape};
    ghost use Rattle.planus.specs.Printed.{u32_shape, u64_shape, i8_shape, i16_shape, i32_shape};
    ghost use Rattle.planus.specs.Printed.{i64_shape, bool_shape, f32_shape, f64_shape};
    ghost use Rattle.planus.specs.Printed.{IsPlainVector, IsPlainVectorRequired, IsPlainRequired};
    ghost use Rattle.planus.specs.Printed.{IsTextField, IsTextRequired, IsBytesField};
    ghost use Rattle.planus.specs.Printed.{IsBytesRequired, IsTextVector, IsTextVectorRequired};
    ghost use Rattle.planus.specs.Printed.{IsTableField, IsTableRequired, IsTableVector};
    ghost use Rattle.planus.specs.Printed.{IsTableVectorRequired, IsPlainField, IsPlainFieldOr};
    ghost use Rattle.planus.specs.Printed.{IsUnionField, IsUnionRequired, IsUnionVector};
    ghost use Rattle.planus.specs.Printed.{ReadsVariants};
    ghost use Rattle.planus_views.specs.Printed.{view_table, checked_texts, checked_tables};
    ghost use Rattle.planus_views.specs.Printed.{checked_unions, Returns, ReturnsAs};
    ghost use Rattle.planus_views.specs.Printed.{checked_option, option_map};
    ghost use Rattle.harbour.specs.Gauge.{gauge_shape};
    ghost use Rattle.harbour.specs.Kind.{kind_shape};
    ghost use Rattle.harbour.specs.declared.kind.Kind.TheVariants as kind_value;
    ghost use Rattle.harbour.specs.Level.{level_shape};
    ghost use Rattle.harbour.specs.declared.level.Level.TheVariants as level_value;
    ghost use Rattle.harbour.specs.declared.manifest.Manifest.{Manifest};
    ghost use Rattle.harbour.specs.declared.verified.manifest.ManifestView.{ManifestView};
    ghost use Rattle.harbour.specs.Needs.{needs_shape};
    ghost use Rattle.harbour.specs.Owner.{owner_view_variants};
    ghost use Rattle.harbour.specs.Owner.{owner_checked};
    ghost use Rattle.harbour.specs.declared.owner.Owner.{Owner};
    ghost use Rattle.harbour.specs.declared.person.Person.{Person};
    ghost use Rattle.harbour.specs.Pos.{pos_shape};
    ghost use Rattle.harbour.specs.declared.ship.Ship.{Ship};
    ghost use Rattle.harbour.specs.declared.verified.ship.ShipView.{ShipView};
    ghost use Rattle.harbour.specs.Signal.{signal_shape};
    ghost use Rattle.harbour.specs.declared.signal.Signal.TheVariants as signal_value;

    /// Returns `number`.
    pub fn number(&self) -> u64
        ensures { Returns (IsPlainFieldOr u64_shape 1 (view_table self.now.0) 0) result }
    {
        self.0.plain_field_or(0, 1)
    }

    /// Returns `issued`.
    pub fn issued(&self) -> i64
        ensures { Returns (IsPlainFieldOr i64_shape (negsuc 0) (view_table self.now.0) 1) result }
    {
        self.0.plain_field_or(1, -1)
    }

    /// Returns `weight`.
    pub fn weight(&self) -> f64
        ensures { Returns (IsPlainFieldOr f64_shape (of_bits binary64 4602678819172646912)
            (view_table self.now.0) 2) result }
    {
        self.0.plain_field_or(2, crate::manifest::DEFAULT_WEIGHT)
    }

    /// Returns `worth`.
    pub fn worth(&self) -> f32
        ensures { Returns (IsPlainFieldOr f32_shape (of_bits binary32 0) (view_table self.now.0) 3)
            result }
    {
        self.0.plain_field_or(3, crate::manifest::DEFAULT_WORTH)
    }

    /// Returns `boxes`.
    pub fn boxes(&self) -> u32
        ensures { Returns (IsPlainFieldOr u32_shape 12 (view_table self.now.0) 4) result }
    {
        self.0.plain_field_or(4, 12)
    }

    /// Returns `debt`.
    pub fn debt(&self) -> i32
        ensures { Returns (IsPlainFieldOr i32_shape (negsuc 6) (view_table self.now.0) 5) result }
    {
        self.0.plain_field_or(5, -7)
    }

    /// Returns `pages`.
    pub fn pages(&self) -> u16
        ensures { Returns (IsPlainFieldOr u16_shape 3 (view_table self.now.0) 6) result }
    {
        self.0.plain_field_or(6, 3)
    }

    /// Returns `shift`.
    pub fn shift(&self) -> i16
        ensures { Returns (IsPlainFieldOr i16_shape (negsuc 1) (view_table self.now.0) 7) result }
    {
        self.0.plain_field_or(7, -2)
    }

    /// Returns `tier`.
    pub fn tier(&self) -> u8
        ensures { Returns (IsPlainFieldOr u8_shape 1 (view_table self.now.0) 8) result }
    {
        self.0.plain_field_or(8, 1)
    }

    /// Returns `lean`.
    pub fn lean(&self) -> i8
        ensures { Returns (IsPlainFieldOr i8_shape (negsuc 0) (view_table self.now.0) 9) result }
    {
        self.0.plain_field_or(9, -1)
    }

    /// Returns `sealed`.
    pub fn sealed(&self) -> bool
        ensures { Returns (IsPlainFieldOr bool_shape true (view_table self.now.0) 10) result }
    {
        self.0.plain_field_or(10, true)
    }

    /// Returns `opened`.
    pub fn opened(&self) -> bool
        ensures { Returns (IsPlainFieldOr bool_shape false (view_table self.now.0) 11) result }
    {
        self.0.plain_field_or(11, false)
    }

    /// Returns `kind`.
    pub fn kind(&self) -> Result<Kind, ErrorKind>
        ensures { ReturnsAs (IsPlainFieldOr kind_shape kind_value.Car (view_table self.now.0) 12)
            (view_table self.now.0) result }
    {
        self.0.judged_field_or(12, Kind::Car)
    }

    /// Returns `level`.
    pub fn level(&self) -> Result<Level, ErrorKind>
        ensures { ReturnsAs (IsPlainFieldOr level_shape level_value.High (view_table self.now.0)
            13) (view_table self.now.0) result }
    {
        self.0.judged_field_or(13, Level::High)
    }

    /// Returns `needs`.
    pub fn needs(&self) -> Needs
        ensures { Returns (IsPlainFieldOr needs_shape (record { bits = 2 }) (view_table self.now.0)
            14) result }
    {
        self.0.plain_field_or(14, crate::manifest::DEFAULT_NEEDS)
    }

    /// Returns `signal`.
    pub fn signal(&self) -> Result<Signal, ErrorKind>
        ensures { ReturnsAs (IsPlainFieldOr signal_shape signal_value.Alfa (view_table self.now.0)
            15) (view_table self.now.0) result }
    {
        self.0.judged_field_or(15, Signal::Alfa)
    }

    /// Returns `rank`.
    pub fn rank(&self) -> Option<u64>
        ensures { Returns (IsPlainField u64_shape (view_table self.now.0) 16) result }
    {
        self.0.plain_field(16)
    }

    /// Returns `margin`.
    pub fn margin(&self) -> Option<f64>
        ensures { Returns (IsPlainField f64_shape (view_table self.now.0) 17) result }
    {
        self.0.plain_field(17)
    }

    /// Returns `dues`.
    pub fn dues(&self) -> Option<i32>
        ensures { Returns (IsPlainField i32_shape (view_table self.now.0) 18) result }
    {
        self.0.plain_field(18)
    }

    /// Returns `paid`.
    pub fn paid(&self) -> Option<bool>
        ensures { Returns (IsPlainField bool_shape (view_table self.now.0) 19) result }
    {
        self.0.plain_field(19)
    }

    /// Returns `grade`.
    pub fn grade(&self) -> Result<Option<Kind>, ErrorKind>
        ensures { ReturnsAs (IsPlainField kind_shape (view_table self.now.0) 20)
            (view_table self.now.0) result }
    {
        self.0.judged_field(20)
    }

    /// Returns `berth`.
    pub fn berth(&self) -> Option<Pos>
        ensures { Returns (IsPlainField pos_shape (view_table self.now.0) 21) result }
    {
        self.0.plain_field(21)
    }

    /// Returns `gauge`.
    pub fn gauge(&self) -> Gauge
        ensures { Returns (IsPlainRequired gauge_shape (view_table self.now.0) 22) result }
    {
        self.0.plain_required(22)
    }

    /// Returns `title`.
    pub fn title(&self) -> &'a str
        ensures { Returns (IsTextRequired (view_table self.now.0) 23) result }
    {
        self.0.text_required(23)
    }

    /// Returns `note`.
    pub fn note(&self) -> Option<&'a str>
        ensures { Returns (IsTextField (view_table self.now.0) 24) result }
    {
        self.0.text_field(24)
    }

    /// Returns `scan`.
    pub fn scan(&self) -> Option<&'a [u8]>
        ensures { Returns (IsBytesField (view_table self.now.0) 25) result }
    {
        self.0.bytes_field(25)
    }

    /// Returns `stamp`.
    pub fn stamp(&self) -> &'a [u8]
        ensures { Returns (IsBytesRequired (view_table self.now.0) 26) result }
    {
        self.0.bytes_required(26)
    }

    /// Returns `weights`.
    pub fn weights(&self) -> Option<Vector<'a, f64>>
        ensures { Returns (IsPlainVector (view_table self.now.0) 27) result }
    {
        self.0.plain_vector(27)
    }

    /// Returns `counts`.
    pub fn counts(&self) -> Vector<'a, u32>
        ensures { Returns (IsPlainVectorRequired (view_table self.now.0) 28) result }
    {
        self.0.plain_vector_required(28)
    }

    /// Returns `offsets`.
    pub fn offsets(&self) -> Option<Vector<'a, i16>>
        ensures { Returns (IsPlainVector (view_table self.now.0) 29) result }
    {
        self.0.plain_vector(29)
    }

    /// Returns `marks`.
    pub fn marks(&self) -> Option<Vector<'a, bool>>
        ensures { Returns (IsPlainVector (view_table self.now.0) 30) result }
    {
        self.0.plain_vector(30)
    }

    /// Returns `kinds`.
    pub fn kinds(&self) -> Option<Vector<'a, planus::Result<Kind>>>
        ensures { Returns (IsPlainVector (view_table self.now.0) 31) result }
    {
        self.0.plain_vector(31)
    }

    /// Returns `track`.
    pub fn track(&self) -> Option<Vector<'a, Pos>>
        ensures { Returns (IsPlainVector (view_table self.now.0) 32) result }
    {
        self.0.plain_vector(32)
    }

    /// Returns `labels`.
    pub fn labels(&self) -> Option<planus_views::Texts<'a>>
        ensures { Returns (IsTextVector (view_table self.now.0) 33)
            (option_map (λ all. checked_texts all) result) }
    {
        self.0.text_vector(33)
    }

    /// Returns `holders`.
    pub fn holders(&self) -> planus_views::Texts<'a>
        ensures { Returns (IsTextVectorRequired (view_table self.now.0) 34)
            (checked_texts result) }
    {
        self.0.text_vector_required(34)
    }

    /// Returns `ship`.
    pub fn ship(&self) -> ShipView<'a>
        ensures { Returns (IsTableRequired Ship (λ (view : ShipView). view_table view.0)
            (view_table self.now.0) 35) result }
    {
        self.0.table_required(35)
    }

    /// Returns `next`.
    pub fn next(&self) -> Option<ManifestView<'a>>
        ensures { Returns (IsTableField Manifest (λ (view : ManifestView). view_table view.0)
            (view_table self.now.0) 36) result }
    {
        self.0.table_field(36)
    }

    /// Returns `persons`.
    pub fn persons(&self) -> Option<planus_views::Tables<'a, PersonView<'a>>>
        ensures { Returns (IsTableVector Person (view_table self.now.0) 37)
            (option_map (λ all. checked_tables all) result) }
    {
        self.0.table_vector(37)
    }

    /// Returns `parts`.
    pub fn parts(&self) -> planus_views::Tables<'a, ManifestView<'a>>
        ensures { Returns (IsTableVectorRequired Manifest (view_table self.now.0) 38)
            (checked_tables result) }
    {
        self.0.table_vector_required(38)
    }

    /// Returns `owner`.
    pub fn owner(&self) -> Option<OwnerView<'a>>
        ensures { ReturnsAs (λ type_ method. IsUnionField (ReadsVariants owner_view_variants)
            (view_table self.now.0) 39 type_ method Owner) (view_table self.now.0)
            (checked_option owner_checked result) }
    {
        self.0.union_field(39)
    }

    /// Returns `payer`.
    pub fn payer(&self) -> OwnerView<'a>
        ensures { ReturnsAs (IsUnionRequired (ReadsVariants owner_view_variants)
            (view_table self.now.0) 41) (view_table self.now.0) (owner_checked result) }
    {
        self.0.union_required(41)
    }

    /// Returns `owners`.
    pub fn owners(&self) -> Option<planus_views::Unions<'a, OwnerView<'a>>>
        ensures { Returns (IsUnionVector (view_table self.now.0) 43)
            (option_map (λ all. checked_unions all) result) }
    {
        self.0.union_vector(43)
    }

    /// Returns the view that tests what it reads.
    pub fn checked(&self) -> ManifestRef<'a>
        ensures { result.0 ≡ view_table self.now.0 }
    {
        planus::TableView::of_table(self.0.table())
    }
}

impl<'a> std::fmt::Debug for ManifestView<'a> {
    fn fmt<W: std::fmt::Write>(&self, f: &mut std::fmt::Formatter<W>) -> std::fmt::Result {
        let checked: ManifestRef<'a> = planus::TableView::of_table(self.0.table());
        f.debug_tuple("ManifestView").field(&checked).finish()
    }
}

impl<'a> ManifestRef<'a> {
    ghost use Rattle.planus_views.specs.Printed.{view_table, VerifiesTable};
    ghost use Rattle.harbour.specs.Verified.{verified_schema};
    ghost use Rattle.harbour.specs.declared.verified.manifest.ManifestView.{ManifestView};

    /// Verifies this table with all that it leads to, within limits, and returns its view, whose
    /// accessors don't fail.
    pub fn verify(
        &self,
        limits: planus_views::Limits,
    ) -> Result<ManifestView<'a>, planus_views::Fault>
        ensures { VerifiesTable (λ (view : ManifestView). view_table view.0) verified_schema 4
            limits self.now.0 result }
    {
        planus_views::verify_table(self.0, limits)
    }
}
