//! Records of which it is said what they are made of.

ghost use Rattle.std.specs.Prelude.{◌≡◌, ℕ};
ghost use Rattle.planus_owned.specs.Records.{Owning};
ghost use Rattle.planus_owned.specs.Records.Owning.{too_deep};

/// A record that is made of a table.
///
/// The ghost member `owned` says of what, where so many tables may lie within each other, the record's
/// own included: of nothing at 0, by `spent`.
pub trait Owned: Sized {
    ghost owned: { ℕ → Owning Self };

    ghost spent: { owned 0 ≡ too_deep };
}
