//! The worked buffer of an orc is what the printed code writes and reads.

use monsters::{
    Create, Equipment, EquipmentRef, Monster, MonsterFields, MonsterRef, Weapon, WeaponFields,
    WeaponRef, read_as_root,
};
use planus::{BuildError, Builder};
use std::alloc::Global;

// 80 hit points, and an axe with a damage of 24 in hand.
pub const ORC: [u8; 84] = [
    0x04, 0x00, 0x00, 0x00, 0xec, 0xff, 0xff, 0xff, 0x28, 0x00, 0x00, 0x00, 0x1c, 0x00, 0x00, 0x00,
    0x28, 0x00, 0x00, 0x00, 0x50, 0x00, 0x01, 0x00, 0x10, 0x00, 0x13, 0x00, 0x10, 0x00, 0x04, 0x00,
    0x00, 0x00, 0x08, 0x00, 0x12, 0x00, 0x0c, 0x00, 0x01, 0x00, 0x00, 0x00, 0x0c, 0x00, 0x00, 0x00,
    0x03, 0x00, 0x00, 0x00, 0x4f, 0x72, 0x63, 0x00, 0xf4, 0xff, 0xff, 0xff, 0x10, 0x00, 0x00, 0x00,
    0x18, 0x00, 0x00, 0x00, 0x08, 0x00, 0x0a, 0x00, 0x04, 0x00, 0x08, 0x00, 0x03, 0x00, 0x00, 0x00,
    0x41, 0x78, 0x65, 0x00,
];

fn is_axe(weapon: &WeaponRef<'_>) -> bool {
    matches!(weapon.name(), Ok(Some("Axe"))) && matches!(weapon.damage(), Ok(24))
}

fn is_orc(orc: &MonsterRef<'_>) -> bool {
    let axe = match orc.weapons() {
        Ok(Some(weapons)) => weapons.get(0),
        _ => None,
    };
    matches!(orc.hp(), Ok(80))
        && matches!(orc.name(), Ok("Orc"))
        && matches!(orc.inventory(), Ok(None))
        && matches!(axe, Some(Ok(axe)) if is_axe(&axe))
        && matches!(orc.equipped(), Ok(Some(EquipmentRef::Weapon(axe))) if is_axe(&axe))
        && matches!(orc.loot(), Ok(None))
}

fn writes_orc(builder: &mut Builder) -> Result<bool, BuildError> {
    let axe = WeaponFields {
        name: Some("Axe"),
        damage: 24,
    };
    let axe = Weapon::create(builder, axe)?;
    let orc = MonsterFields {
        hp: 80,
        name: "Orc",
        inventory: None,
        weapons: Some(&[axe]),
        equipped: Some(Equipment::from_weapon(axe)),
        loot: &[],
    };
    let orc = Monster::create(builder, orc)?;
    Ok(builder.finish(orc, None)? == &ORC[..])
}

fn in_builder(alloc: Global) -> bool {
    match Builder::new(alloc) {
        Ok(mut builder) => matches!(writes_orc(&mut builder), Ok(true)),
        Err(_) => false,
    }
}

#[test]
fn orc_is_written(rt: HostRuntime) {
    assert!(rt; in_builder(rt.alloc()));
}

#[test]
fn orc_is_read(rt: HostRuntime) {
    assert!(rt; matches!(read_as_root(&ORC), Ok(orc) if is_orc(&orc)));
}
