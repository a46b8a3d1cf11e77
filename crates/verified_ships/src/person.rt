//! Tables `Person`.

ghost use Rattle.planus.specs.Printed.{u8_shape, IsTextRequired, IsPlainFieldOr};
ghost use Rattle.planus_views.specs.Views.{view_table};
ghost use Rattle.planus_views.specs.Vectors.{Returns};

use crate::schema::schema;
use planus::table_reader::Table;
use planus_views::{Entered, OfKind, Schema, ValueKind, VerifiedKind, Verify, View, ViewOf};

/// The kind of `Person`.
pub struct Person;

impl VerifiedKind for Person {
    ghost use Rattle.std.proofs.Common.{refl};
    ghost use Rattle.verified_ships.specs.Schema.{ships_schema};

    ghost schema = { ships_schema };

    ghost index = { 1 };

    ghost whole = { refl };

    fn schema() -> Schema<'static> {
        schema()
    }

    fn index() -> usize {
        1
    }
}

impl Verify for Person {
    fn pass(table: Table<'_>, depth: u8, left: usize) -> Option<usize> {
        let fields = Entered::<Person>::new(table, depth)?;
        let left = fields.counted(left)?;
        let left = fields.value(0, true, ValueKind::Text, left)?;
        let left = fields.value(1, false, ValueKind::Plain(1), left)?;
        Some(left)
    }
}

/// A verified one in a buffer.
#[derive(Clone, Copy)]
pub struct PersonView<'a>(View<'a, Person>);

impl<'a> OfKind for PersonView<'a> {
    type Kind = Person;
}

impl<'a> ViewOf<'a> for PersonView<'a> {
    ghost table = { λ view. view_table view.0 };

    fn of_verified(read: Table<'a>) -> PersonView<'a> {
        PersonView(View::new(read))
    }
}

impl<'a> PersonView<'a> {
    /// Returns `name`.
    pub fn name(&self) -> &'a str
        ensures { Returns (IsTextRequired (view_table self.now.0) 0) result }
    {
        self.0.text_required(0)
    }

    /// Returns `age`.
    pub fn age(&self) -> u8
        ensures { Returns (IsPlainFieldOr u8_shape 18 (view_table self.now.0) 1) result }
    {
        self.0.plain_field_or(1, 18)
    }
}
