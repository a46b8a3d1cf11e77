ghost use Rattle.std.specs.Prelude.{◌≡◌, codes};

use crate::weapon::WeaponRef;
use planus::errors::ErrorKind;
use planus::{SliceWithStartOffset, TableRead, TableReadUnion, VectorReadUnion};

/// Equipment in a buffer: a weapon.
#[derive(Clone, Copy)]
pub enum EquipmentRef<'a> {
    /// A weapon, by tag 1.
    Weapon(WeaponRef<'a>),
}

impl<'a> TableReadUnion<'a> for EquipmentRef<'a> {
    ghost use Rattle.planus_demo.specs.Equipments.{ReadsEquipment};

    ghost reads = { ReadsEquipment };

    fn from_buffer(
        buffer: SliceWithStartOffset<'a>,
        tag: u8,
        offset: usize,
    ) -> Result<EquipmentRef<'a>, ErrorKind> {
        match tag {
            1 => Ok(EquipmentRef::Weapon(TableRead::from_buffer(buffer, offset)?)),
            _ => Err(ErrorKind::UnknownUnionTag { tag }),
        }
    }
}

impl<'a> VectorReadUnion<'a> for EquipmentRef<'a> {
    ghost name = { codes "[Equipment]" };

    fn vector_name() -> &'static str
        ensures { result.now ≡ codes "[Equipment]" }
    {
        "[Equipment]"
    }
}
