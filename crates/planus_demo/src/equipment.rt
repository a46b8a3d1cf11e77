//! A union of one variant, as in generated code:
//!
//! ```text
//! union Equipment { Weapon }
//! ```

ghost use Rattle.std.specs.Prelude.{◌≤◌, length, IfOk};
ghost use Rattle.planus_write.specs.State.{Grows};
ghost use Rattle.planus_demo.specs.Variants.{WritesVariant};

use crate::weapon::Weapon;
use planus::{BuildError, Builder, UnionOffset, WriteAsOffset};

/// The kind of a union of equipment.
pub struct Equipment;

impl Equipment {
    /// Writes a weapon, unless it is written already. Returns it as equipment, with tag 1.
    /// Requirements and errors are those of [`WriteAsOffset::prepare`].
    pub fn create_weapon<W: WriteAsOffset<Weapon> + Drop>(
        builder: &mut Builder,
        weapon: W,
    ) -> Result<UnionOffset<Equipment>, BuildError>
        requires { W.may weapon builder.old }
        ensures written { WritesVariant 1 (W.outcome weapon) builder.old result builder.new }
        ensures grows { Grows builder.old builder.new }
        ensures reached { IfOk result (λ union. union.offset.distance ≤ length builder.new.bytes) }
    {
        let weapon = weapon.prepare(builder)?;
        Ok(UnionOffset::new(1, weapon.downcast()))
    }
}
