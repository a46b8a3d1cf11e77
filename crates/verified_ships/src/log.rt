//! Tables `Log`.

ghost use Rattle.std.specs.Option.{option_map};
ghost use Rattle.planus.specs.Printed.{IsPlainRequired, IsUnionVector, IsUnionVectorRequired};
ghost use Rattle.planus.specs.Printed.{IsBytesField, IsBytesRequired};
ghost use Rattle.planus_views.specs.CheckedVectors.{checked_unions};
ghost use Rattle.planus_views.specs.Members.{ReturnsAs};
ghost use Rattle.planus_views.specs.Nested.{IsNestedField, IsNestedRequired};
ghost use Rattle.planus_views.specs.Vectors.{Returns};
ghost use Rattle.planus_views.specs.Views.{view_table};

use crate::gauge::Gauge;
use crate::mark::Mark;
use crate::owner::{Owner, OwnerView};
use crate::person::{Person, PersonView};
use crate::schema::schema;
use planus::errors::ErrorKind;
use planus::table_reader::Table;
use planus_views::{
    Entered, OfKind, Schema, Unions, ValueKind, VerifiedKind, Verify, View, ViewOf,
};

/// The kind of `Log`.
pub struct Log;

impl VerifiedKind for Log {
    ghost use Rattle.std.proofs.Common.{refl};
    ghost use Rattle.verified_ships.specs.Schema.{ships_schema};

    ghost schema = { ships_schema };

    ghost index = { 4 };

    ghost whole = { refl };

    fn schema() -> Schema<'static> {
        schema()
    }

    fn index() -> usize {
        4
    }
}

impl Verify for Log {
    fn pass(table: Table<'_>, depth: u8, left: usize) -> Option<usize> {
        let fields = Entered::<Log>::new(table, depth)?;
        let left = fields.counted(left)?;
        let left = fields.value(0, true, ValueKind::Plain(4), left)?;
        let left = fields.value(1, true, ValueKind::Plain(1), left)?;
        let left = fields.unions::<Owner>(2, false, left)?;
        let left = fields.unions::<Owner>(4, true, left)?;
        let left = fields.nested::<Person>(6, false, left)?;
        let left = fields.nested::<Person>(7, true, left)?;
        Some(left)
    }
}

/// A verified one in a buffer.
#[derive(Clone, Copy)]
pub struct LogView<'a>(View<'a, Log>);

impl<'a> OfKind for LogView<'a> {
    type Kind = Log;
}

impl<'a> ViewOf<'a> for LogView<'a> {
    ghost table = { λ view. view_table view.0 };

    fn of_verified(read: Table<'a>) -> LogView<'a> {
        LogView(View::new(read))
    }
}

impl<'a> LogView<'a> {
    ghost use Rattle.verified_ships.specs.Gauge.{gauge_shape};
    ghost use Rattle.verified_ships.specs.Mark.{mark_shape};
    ghost use Rattle.verified_ships.specs.declared.person.Person.{Person};
    ghost use Rattle.verified_ships.specs.declared.person.PersonView.{PersonView};

    /// Returns `gauge`.
    pub fn gauge(&self) -> Gauge
        ensures { Returns (IsPlainRequired gauge_shape (view_table self.now.0) 0) result }
    {
        self.0.plain_required(0)
    }

    /// Returns `mark`.
    pub fn mark(&self) -> Result<Mark, ErrorKind>
        ensures { ReturnsAs (IsPlainRequired mark_shape (view_table self.now.0) 1)
            (view_table self.now.0) result }
    {
        self.0.judged_required(1)
    }

    /// Returns `shares`.
    pub fn shares(&self) -> Option<Unions<'a, OwnerView<'a>>>
        ensures { Returns (IsUnionVector (view_table self.now.0) 2)
            (option_map (λ unions. checked_unions unions) result) }
    {
        self.0.union_vector(2)
    }

    /// Returns `heirs`.
    pub fn heirs(&self) -> Unions<'a, OwnerView<'a>>
        ensures { Returns (IsUnionVectorRequired (view_table self.now.0) 4) (checked_unions result) }
    {
        self.0.union_vector_required(4)
    }

    /// Returns `author`, a buffer.
    pub fn author(&self) -> Option<&'a [u8]>
        ensures { Returns (IsBytesField (view_table self.now.0) 6) result }
    {
        self.0.bytes_field(6)
    }

    /// Returns the root of `author`.
    pub fn author_root(&self) -> Option<PersonView<'a>>
        ensures { IsNestedField Person (λ (view : PersonView). view_table view.0)
            (view_table self.now.0) 6 result }
    {
        self.0.nested_field(6)
    }

    /// Returns `keeper`, a buffer.
    pub fn keeper(&self) -> &'a [u8]
        ensures { Returns (IsBytesRequired (view_table self.now.0) 7) result }
    {
        self.0.bytes_required(7)
    }

    /// Returns the root of `keeper`.
    pub fn keeper_root(&self) -> PersonView<'a>
        ensures { IsNestedRequired Person (λ (view : PersonView). view_table view.0)
            (view_table self.now.0) 7 result }
    {
        self.0.nested_required(7)
    }
}
