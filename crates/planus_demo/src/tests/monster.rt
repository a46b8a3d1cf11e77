ghost use Rattle.std.specs.Prelude.{◌≤◌, length, IsTrue};

use super::finish_with;
use super::settings::{SETTINGS, setting};
use super::weapon::{WeaponRow, check_item, check_weapon, weapon};
use crate::equipment::Equipment;
use crate::equipment_ref::EquipmentRef;
use crate::monster::{Monster, MonsterRef};
use planus::errors::ErrorKind;
use planus::{
    BuildError, Builder, ByteList, Caches, DefaultValue, Error, Offset, ReadAsRoot, UnionOffset,
    UnionVector, WriteAsDefault,
};
use planus_testing::{
    Test, check, check_bytes, check_distance, check_eq, check_fails, check_prints, in_builder,
};
use std::test::Fail;

type Done = Result<(), BuildError>;

// 80 hit points, and an axe with a damage of 24 in hand.
const ORC: [u8; 84] = [
    0x04, 0x00, 0x00, 0x00, 0xec, 0xff, 0xff, 0xff, 0x28, 0x00, 0x00, 0x00, 0x1c, 0x00, 0x00, 0x00,
    0x28, 0x00, 0x00, 0x00, 0x50, 0x00, 0x01, 0x00, 0x10, 0x00, 0x13, 0x00, 0x10, 0x00, 0x04, 0x00,
    0x00, 0x00, 0x08, 0x00, 0x12, 0x00, 0x0c, 0x00, 0x01, 0x00, 0x00, 0x00, 0x0c, 0x00, 0x00, 0x00,
    0x03, 0x00, 0x00, 0x00, 0x4f, 0x72, 0x63, 0x00, 0xf4, 0xff, 0xff, 0xff, 0x10, 0x00, 0x00, 0x00,
    0x18, 0x00, 0x00, 0x00, 0x08, 0x00, 0x0a, 0x00, 0x04, 0x00, 0x08, 0x00, 0x03, 0x00, 0x00, 0x00,
    0x41, 0x78, 0x65, 0x00,
];

// Its 100 hit points are left out.
const GOBLIN: &[u8] = b"\x04\0\0\0\xf8\xff\xff\xff\x0c\0\0\0\x08\0\x08\0\0\0\x04\0\x03\0\0\0Gob\0";

pub fn has(builder: &Builder, distance: u32) -> bool
    ensures { IsTrue result → distance ≤ length builder.now.bytes }
{
    distance as usize <= builder.len()
}

fn orc(builder: &mut Builder) -> Result<Offset<Monster>, BuildError> {
    let axe = weapon(builder, "Axe", 24)?;
    if !has(builder, axe.distance()) {
        return Err(BuildError::TooLarge);
    }
    let equipped = Equipment::create_weapon(builder, axe)?;
    if !has(builder, axe.distance()) || !has(builder, equipped.offset().distance()) {
        return Err(BuildError::TooLarge);
    }
    Monster::create(builder, 80i16, "Orc", (), [axe], equipped, ())
}

fn elf(builder: &mut Builder) -> Result<Offset<Monster>, BuildError> {
    let axe = weapon(builder, "Axe", 24)?;
    let bow = weapon(builder, "Bow", 12)?;
    let first = UnionOffset::new(1, axe.downcast());
    let second = UnionOffset::new(1, bow.downcast());
    if axe.distance() != 28
        || !has(builder, first.offset().distance())
        || !has(builder, second.offset().distance())
    {
        return Err(BuildError::TooLarge);
    }
    let inventory = ByteList(&[1, 2, 3]);
    Monster::create(builder, 7i16, "Elf", inventory, (), (), [first, second])
}

fn hoarder(builder: &mut Builder) -> Result<Offset<Monster>, BuildError> {
    let axe = weapon(builder, "Axe", 24)?;
    let unknown: UnionOffset<Equipment> = UnionOffset::new(2, axe.downcast());
    if !has(builder, unknown.offset().distance()) {
        return Err(BuildError::TooLarge);
    }
    Monster::create(builder, DefaultValue, "Gob", (), (), (), [unknown])
}

fn check_orc(test: &Test<'_>, builder: &mut Builder, row: &str) -> Done {
    let orc = orc(builder)?;
    check_bytes(test, finish_with(builder, orc)?, &ORC, row);
    check_distance(test, orc, 80, row);
    Ok(())
}

// No two strings and no two vtables of an orc are equal.
#[test]
fn an_orc_written(rt: HostRuntime) -> Result<(), Fail> {
    let test = Test::new(&rt);
    for number in 0..8 {
        let row = SETTINGS[number].0;
        in_builder(
            &test,
            setting(number, 1),
            |test, builder| check_orc(test, builder, row),
        );
    }
    test.end()
}

fn check_monster(test: &Test<'_>, monster: MonsterRef<'_>, hp: i16, name: &str) {
    check_eq(test, &monster.hp(), &Ok(hp), name);
    check_eq(test, &monster.name(), &Ok(name), name);
}

fn check_orc_read(test: &Test<'_>) {
    match MonsterRef::read_as_root(&ORC) {
        Ok(orc) => {
            check_monster(test, orc, 80, "Orc");
            check_eq(test, &orc.inventory(), &Ok(None), "no inventory");
            check(test, matches!(orc.loot(), Ok(None)), "no loot");
        }
        Err(error) => check_eq(test, &Some(error), &None, "an orc"),
    }
}

#[test]
fn an_orc_read(rt: HostRuntime) -> Result<(), Fail> {
    let test = Test::new(&rt);
    check_orc_read(&test);
    test.end()
}

pub fn check_held(test: &Test<'_>, equipment: EquipmentRef<'_>, want: WeaponRow, row: &str) {
    match equipment {
        EquipmentRef::Weapon(weapon) => check_weapon(test, weapon, want, row),
    }
}

const AN_AXE: WeaponRow = (Some("Axe"), 24);

fn check_its_weapons(test: &Test<'_>, monster: MonsterRef<'_>) {
    match monster.weapons() {
        Ok(Some(weapons)) => {
            check_eq(test, &weapons.len(), &1, "one weapon");
            check_item(test, weapons.get(0usize), AN_AXE, "one weapon");
        }
        _ => check(test, false, "weapons"),
    }
}

pub fn check_equipped(test: &Test<'_>, monster: MonsterRef<'_>, want: WeaponRow, row: &str) {
    match monster.equipped() {
        Ok(Some(equipped)) => check_held(test, equipped, want, row),
        _ => check(test, false, row),
    }
}

#[test]
fn its_weapons(rt: HostRuntime) -> Result<(), Fail> {
    let test = Test::new(&rt);
    match MonsterRef::read_as_root(&ORC) {
        Ok(orc) => {
            check_its_weapons(&test, orc);
            check_equipped(&test, orc, AN_AXE, "the equipped weapon");
        }
        Err(error) => check_eq(&test, &Some(error), &None, "an orc"),
    }
    test.end()
}

fn check_inventory(test: &Test<'_>, elf: MonsterRef<'_>) {
    let inventory = [1, 2, 3];
    check_monster(test, elf, 7, "Elf");
    check_eq(
        test,
        &elf.inventory(),
        &Ok(Some(inventory.as_slice())),
        "an inventory",
    );
    check(test, matches!(elf.weapons(), Ok(None)), "no weapons");
    check(test, matches!(elf.equipped(), Ok(None)), "nothing equipped");
}

fn check_loot_item(
    test: &Test<'_>,
    item: Option<planus::Result<EquipmentRef<'_>>>,
    want: WeaponRow,
    row: &str,
) {
    match item {
        Some(Ok(equipment)) => check_held(test, equipment, want, row),
        Some(Err(error)) => check_eq(test, &Some(error), &None, row),
        None => check(test, false, row),
    }
}

pub fn check_loot<'a>(
    test: &Test<'_>,
    loot: UnionVector<'a, EquipmentRef<'a>>,
    want: &[WeaponRow],
    row: &str,
) {
    let mut items = loot.iter();
    for weapon in want {
        check_loot_item(test, items.next(), *weapon, row);
    }
    check(test, items.next().is_none(), row);
    check_eq(test, &loot.len(), &want.len(), row);
}

fn check_loot_of_elf(test: &Test<'_>, elf: MonsterRef<'_>) {
    match elf.loot() {
        Ok(Some(loot)) => check_loot(test, loot, &[AN_AXE, (Some("Bow"), 12)], "loot"),
        _ => check(test, false, "loot"),
    }
}

fn check_elf(test: &Test<'_>, builder: &mut Builder) -> Done {
    let elf = elf(builder)?;
    match MonsterRef::read_as_root(finish_with(builder, elf)?) {
        Ok(elf) => {
            check_inventory(test, elf);
            check_loot_of_elf(test, elf);
        }
        Err(error) => check_eq(test, &Some(error), &None, "an elf"),
    }
    Ok(())
}

fn check_elf_twice(test: &Test<'_>, builder: &mut Builder) -> Done {
    check_elf(test, builder)?;
    builder.clear();
    check_elf(test, builder)
}

#[test]
fn inventory_and_loot(rt: HostRuntime) -> Result<(), Fail> {
    let test = Test::new(&rt);
    for number in 0..8 {
        in_builder(&test, setting(number, 1), check_elf_twice);
    }
    test.end()
}

fn check_goblin<H: WriteAsDefault<i16, i16> + Drop>(
    test: &Test<'_>,
    builder: &mut Builder,
    hp: H,
) -> Done
    requires { H.may hp builder.old }
{
    let goblin = Monster::create(builder, hp, "Gob", (), (), (), ())?;
    let bytes = finish_with(builder, goblin)?;
    check_bytes(test, bytes, GOBLIN, "a goblin");
    match MonsterRef::read_as_root(bytes) {
        Ok(monster) => check_monster(test, monster, 100, "Gob"),
        Err(error) => check_eq(test, &Some(error), &None, "a goblin"),
    }
    Ok(())
}

fn check_goblins(test: &Test<'_>, builder: &mut Builder) -> Done {
    check_goblin(test, builder, DefaultValue)?;
    builder.clear();
    check_goblin(test, builder, 100i16)
}

#[test]
fn hit_points_left_out(rt: HostRuntime) -> Result<(), Fail> {
    let test = Test::new(&rt);
    in_builder(&test, Caches::all(), check_goblins);
    test.end()
}

fn check_unknown_tag(test: &Test<'_>, bytes: &[u8]) {
    let text = "In <Monster@4>::equipped(): Unknown union (tag = 2)";
    let Ok(orc) = MonsterRef::read_as_root(bytes) else {
        return check(test, false, text);
    };
    match orc.equipped() {
        Ok(_) => check(test, false, text),
        Err(error) => {
            check_prints(test, &error, text);
            check_eq(
                test,
                &error.error_kind,
                &ErrorKind::UnknownUnionTag { tag: 2 },
                text,
            );
        }
    }
}

#[test]
fn an_unknown_tag(rt: HostRuntime) -> Result<(), Fail> {
    let test = Test::new(&rt);
    let mut bytes = ORC;
    bytes[22] = 2;
    check_unknown_tag(&test, &bytes);
    test.end()
}

fn check_error(
    test: &Test<'_>,
    error: Error,
    kind: ErrorKind,
    (type_, method, byte_offset): (&str, &str, usize),
) {
    let at = error.source_location;
    check_eq(test, &error.error_kind, &kind, method);
    check_eq(test, &at.type_, &type_, method);
    check_eq(test, &at.method, &method, method);
    check_eq(test, &at.byte_offset, &byte_offset, method);
}

const NAMELESS: &[u8] = b"\x04\0\0\0\xfc\xff\xff\xff\x04\0\x04\0";

fn check_missing_name(test: &Test<'_>) {
    let Ok(monster) = MonsterRef::read_as_root(NAMELESS) else {
        return check(test, false, "a nameless monster");
    };
    match monster.name() {
        Ok(name) => check_eq(test, &Some(name), &None, "no name"),
        Err(error) => {
            check_error(
                test,
                error,
                ErrorKind::MissingRequired,
                ("Monster", "name", 4),
            );
        }
    }
}

#[test]
fn a_missing_name(rt: HostRuntime) -> Result<(), Fail> {
    let test = Test::new(&rt);
    check_missing_name(&test);
    test.end()
}

// The references of the weapons start at 0x2c.
fn check_damaged_weapon(test: &Test<'_>, bytes: &[u8]) {
    let Ok(orc) = MonsterRef::read_as_root(bytes) else {
        return check(test, false, "an orc");
    };
    let Ok(Some(weapons)) = orc.weapons() else {
        return check(test, false, "its weapons");
    };
    match weapons.get(0usize) {
        Some(Err(error)) => {
            check_error(
                test,
                error,
                ErrorKind::InvalidOffset,
                ("[Weapon]", "get", 0x2c),
            );
        }
        _ => check(test, false, "a damaged weapon"),
    }
}

// The axe's vtable would begin before the buffer.
#[test]
fn a_damaged_weapon(rt: HostRuntime) -> Result<(), Fail> {
    let test = Test::new(&rt);
    let mut bytes = ORC;
    bytes[0x3b] = 0x7f;
    check_damaged_weapon(&test, &bytes);
    test.end()
}

// The references start 40 bytes before the end of 92, at 0x34.
fn check_unknown_loot(test: &Test<'_>, bytes: &[u8]) {
    let text = "In <[Equipment]@34>::get(): Unknown union (tag = 2)";
    let Ok(goblin) = MonsterRef::read_as_root(bytes) else {
        return check(test, false, "a goblin");
    };
    let Ok(Some(loot)) = goblin.loot() else {
        return check(test, false, "its loot");
    };
    match loot.get(0usize) {
        Some(item) => check_fails(test, item, text),
        None => check(test, false, text),
    }
}

fn check_hoarder(test: &Test<'_>, builder: &mut Builder) -> Done {
    let goblin = hoarder(builder)?;
    check_unknown_loot(test, finish_with(builder, goblin)?);
    Ok(())
}

#[test]
fn an_unknown_tag_in_a_list(rt: HostRuntime) -> Result<(), Fail> {
    let test = Test::new(&rt);
    in_builder(&test, Caches::all(), check_hoarder);
    test.end()
}

#[test]
fn damaged_bytes(rt: HostRuntime) -> Result<(), Fail> {
    let test = Test::new(&rt);
    let text = "In <[MonsterRef]@0>::read_as_root(): Invalid offset";
    check_fails(&test, MonsterRef::read_as_root(&[0, 0, 0]), text);
    test.end()
}
