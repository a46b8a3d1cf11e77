//! Kinds of unions of a schema.

ghost use Rattle.std.specs.Prelude.{ℕ};
ghost use Rattle.planus_verify.specs.Schemas.{Shapes};

/// A kind of union with its place in a schema.
pub trait UnionKind {
    ghost schema: { Shapes };

    ghost union: { ℕ };
}
