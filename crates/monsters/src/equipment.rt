//! Unions `Equipment`.

ghost use Rattle.std.specs.Prelude.{◌≡◌, codes};
ghost use Rattle.planus.specs.Printed.{ReadsVariants};
ghost use Rattle.monsters.specs.Equipment.{equipment_variants};

use crate::weapon::{Weapon, WeaponRef};
use planus::errors::ErrorKind;
use planus::{
    Offset, SliceWithStartOffset, TableReadUnion, UnionOffset, VectorReadUnion, read_view,
};

/// The kind of one of some tables.
pub struct Equipment;

impl Equipment {
    /// Returns the variant `Weapon` with the table at this offset.
    pub fn from_weapon(table: Offset<Weapon>) -> UnionOffset<Equipment>
        ensures tag { result.tag ≡ 1 }
        ensures offset { result.offset.distance ≡ table.distance }
    {
        UnionOffset::new(1, table.downcast())
    }
}

/// One in a buffer.
#[derive(Clone, Copy, Debug)]
pub enum EquipmentRef<'a> {
    Weapon(WeaponRef<'a>),
}

impl<'a> TableReadUnion<'a> for EquipmentRef<'a> {
    ghost reads = { ReadsVariants equipment_variants };

    fn from_buffer(
        buffer: SliceWithStartOffset<'a>,
        tag: u8,
        offset: usize,
    ) -> Result<EquipmentRef<'a>, ErrorKind> {
        match tag {
            1 => Ok(EquipmentRef::Weapon(read_view(buffer, offset)?)),
            _ => Err(ErrorKind::UnknownUnionTag { tag }),
        }
    }
}

impl<'a> VectorReadUnion<'a> for EquipmentRef<'a> {
    ghost name = { codes "[Equipment]" };

    fn vector_name() -> &'static str
        ensures { result.now ≡ codes "[Equipment]" }
    {
        "[Equipment]"
    }
}
