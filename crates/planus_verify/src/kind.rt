//! Kinds of tables of a schema.

ghost use Rattle.std.specs.Prelude.{◌≡◌, ℕ, true};
ghost use Rattle.planus_verify.specs.Schemas.{Shapes, shapes};
ghost use Rattle.planus_verify.specs.Whole.{is_kind};

use crate::schema::Schema;

/// A kind of table with its place in a schema.
pub trait VerifiedKind {
    ghost schema: { Shapes };

    ghost index: { ℕ };

    // its lists fit together, and the table is one of them
    ghost whole: { is_kind schema index ≡ true };

    /// Returns the schema.
    fn schema() -> Schema<'static>
        ensures { shapes result ≡ schema };

    /// Returns the index of the table in the schema.
    fn index() -> usize
        ensures { result ≡ index };
}
