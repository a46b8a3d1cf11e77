//! Verified unions `Equipment`.

ghost use Rattle.planus.specs.Printed.{ReadsVariants};
ghost use Rattle.monsters.specs.Verified.{verified_schema};
ghost use Rattle.monsters.specs.Equipment.{equipment_view_variants};
ghost use Rattle.monsters.specs.Equipment.{equipment_checked};

use crate::equipment::Equipment;
use crate::verified::weapon::WeaponView;
use crate::weapon::Weapon;

impl planus_views::UnionKind for Equipment {
    ghost schema = { verified_schema };

    ghost union = { 0 };
}

/// A verified one in a buffer.
#[derive(Clone, Copy, Debug)]
pub enum EquipmentView<'a> {
    Weapon(WeaponView<'a>),
    /// A tag that the schema doesn't have.
    Unknown(u8),
}

impl<'a> planus_views::OfUnion for EquipmentView<'a> {
    type Kind = Equipment;
}

impl<'a> planus_views::UnionOf<'a> for EquipmentView<'a> {
    ghost reads = { ReadsVariants equipment_view_variants };

    ghost checked = { equipment_checked };

    fn of_member(member: planus_views::Member<'a>) -> EquipmentView<'a> {
        match member.tag() {
            1 => EquipmentView::Weapon(member.table::<Equipment, _>(1)),
            tag => EquipmentView::Unknown(tag),
        }
    }
}

impl planus_views::VerifyUnion for Equipment {
    fn pass_member(tag: u8, at: planus::Place<'_>, depth: u8, left: usize) -> Option<usize> {
        match tag {
            1 => planus_views::member_passes::<Equipment, Weapon>(tag, 1, at, depth, left),
            _ => Some(left),
        }
    }
}
