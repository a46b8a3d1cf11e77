//! Laws of verification. The functions are theorems.

ghost use Rattle.std.specs.Prelude.{ℕ, List};
ghost use Rattle.planus_verify.specs.Laws.{PassedIsVerified, VerifiedPasses};
ghost use Rattle.planus_verify.specs.Schemas.{Shapes};

/// What passes is verified to the depth that was allowed, and the tables that it has were counted.
pub fn passed_is_verified()
    ensures { (schema : Shapes) (depth t : ℕ) (S V : List ℕ) (start left : ℕ)
        → PassedIsVerified schema depth t S V start left }
{}

/// What is verified to some depth is refused by a limit alone, which is passed.
pub fn verified_passes()
    ensures { (schema : Shapes) (depth t : ℕ) (S V : List ℕ) (start left : ℕ)
        → VerifiedPasses schema depth t S V start left }
{}
