//! Tables `Company`.

ghost use Rattle.planus.specs.Printed.{IsTextField, IsBytesField};
ghost use Rattle.planus_views.specs.Views.{view_table};
ghost use Rattle.planus_views.specs.Vectors.{Returns};

use crate::schema::schema;
use planus::table_reader::Table;
use planus_views::{OfKind, Schema, VerifiedKind, Verify, View, ViewOf};

/// The kind of `Company`.
pub struct Company;

impl VerifiedKind for Company {
    ghost use Rattle.std.proofs.Common.{refl};
    ghost use Rattle.verified_ships.specs.Schema.{ships_schema};

    ghost schema = { ships_schema };

    ghost index = { 2 };

    ghost whole = { refl };

    fn schema() -> Schema<'static> {
        schema()
    }

    fn index() -> usize {
        2
    }
}

// It is verified by a walk over the schema.
impl Verify for Company {}

/// A verified one in a buffer.
#[derive(Clone, Copy)]
pub struct CompanyView<'a>(View<'a, Company>);

impl<'a> OfKind for CompanyView<'a> {
    type Kind = Company;
}

impl<'a> ViewOf<'a> for CompanyView<'a> {
    ghost table = { λ view. view_table view.0 };

    fn of_verified(read: Table<'a>) -> CompanyView<'a> {
        CompanyView(View::new(read))
    }
}

impl<'a> CompanyView<'a> {
    /// Returns `title`.
    pub fn title(&self) -> Option<&'a str>
        ensures { Returns (IsTextField (view_table self.now.0) 0) result }
    {
        self.0.text_field(0)
    }

    /// Returns `vat`.
    pub fn vat(&self) -> Option<&'a [u8]>
        ensures { Returns (IsBytesField (view_table self.now.0) 1) result }
    {
        self.0.bytes_field(1)
    }
}
