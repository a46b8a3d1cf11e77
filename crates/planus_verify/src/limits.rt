//! Limits of verification.

ghost use Rattle.std.specs.Prelude.{◌≡◌};

/// How far verification goes.
#[derive(Clone, Copy, Debug, PartialEq, Eq)]
pub struct Limits {
    /// How many tables may stand one in the other, the root included.
    pub depth: u8,
    /// How many tables may be reached, each as often as it is.
    pub tables: usize,
}

impl Default for Limits {
    ghost is_default = { λ limits. limits ≡ record { depth = 64; tables = 1000000 } };

    /// Returns the limits of the verifier of flatc's code: a depth of 64, and 1000000 tables.
    fn default() -> Limits {
        Limits {
            depth: 64,
            tables: 1_000_000,
        }
    }
}
