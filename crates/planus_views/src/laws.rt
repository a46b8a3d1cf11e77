//! Laws of written tables. Each function is a theorem.

ghost use Rattle.planus_verify.specs.Schemas.{Shapes};
ghost use Rattle.planus_views.specs.Written.{WrittenIsVerified, WrittenPasses};

/// A table that was written as a schema says is verified, by each reference that leads to it; as a
/// root it is refused by a limit alone, which is passed.
pub fn what_was_written_verifies()
    ensures verified { (schema : Shapes) → WrittenIsVerified schema }
    ensures passes { (schema : Shapes) → WrittenPasses schema }
{}
