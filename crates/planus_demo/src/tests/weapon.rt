ghost use Rattle.std.specs.Prelude.{List};
ghost use Rattle.planus_write.specs.Tables.{Declared};
ghost use Rattle.planus_write.specs.TableWriting.{WasTold};

use super::finish_with;
use crate::weapon::{Weapon, WeaponRef};
use planus::errors::ErrorKind;
use planus::{
    BuildError, Builder, Caches, DefaultValue, Error, Offset, OrDefault, ReadAsRoot,
    ReadSliceAsRoot, Required, SliceWithStartOffset, TableRead, TableRef, TableWriter, Text,
    Vector, read_size_prefixed, variant,
};
use planus_testing::{Test, check, check_bytes, check_eq, check_fails, in_builder};
use std::fmt::Debug;
use std::test::Fail;

type Done = Result<(), BuildError>;

pub type WeaponRow = (Option<&'static str>, i16);

// The weapon Axe with a damage of 24, finished.
const AXE: &[u8] =
    b"\x04\0\0\0\xf4\xff\xff\xff\x10\0\0\0\x18\0\0\0\x08\0\x0a\0\x04\0\x08\0\x03\0\0\0Axe\0";

// With a last byte of 1, without the last byte, and without the last two.
const DAMAGED: [&[u8]; 3] = [
    b"\x04\0\0\0\xf4\xff\xff\xff\x10\0\0\0\x18\0\0\0\x08\0\x0a\0\x04\0\x08\0\x03\0\0\0Axe\x01",
    b"\x04\0\0\0\xf4\xff\xff\xff\x10\0\0\0\x18\0\0\0\x08\0\x0a\0\x04\0\x08\0\x03\0\0\0Axe",
    b"\x04\0\0\0\xf4\xff\xff\xff\x10\0\0\0\x18\0\0\0\x08\0\x0a\0\x04\0\x08\0\x03\0\0\0Ax",
];

pub fn weapon(
    builder: &mut Builder,
    name: &str,
    damage: i16,
) -> Result<Offset<Weapon>, BuildError> {
    Weapon::create(builder, name, damage)
}

pub fn check_weapon(test: &Test<'_>, weapon: WeaponRef<'_>, want: WeaponRow, row: &str) {
    check_eq(test, &weapon.name(), &Ok(want.0), row);
    check_eq(test, &weapon.damage(), &Ok(want.1), row);
}

pub fn check_item(
    test: &Test<'_>,
    item: Option<planus::Result<WeaponRef<'_>>>,
    want: WeaponRow,
    row: &str,
) {
    match item {
        Some(Ok(weapon)) => check_weapon(test, weapon, want, row),
        Some(Err(error)) => check_eq(test, &Some(error), &None, row),
        None => check(test, false, row),
    }
}

pub fn check_weapons<'a>(
    test: &Test<'_>,
    weapons: Vector<'a, planus::Result<WeaponRef<'a>>>,
    want: &[WeaponRow],
    row: &str,
) {
    let mut items = weapons.iter();
    for weapon in want {
        check_item(test, items.next(), *weapon, row);
    }
    check(test, items.next().is_none(), row);
    check_eq(test, &weapons.len(), &want.len(), row);
}

fn check_finish(
    test: &Test<'_>,
    builder: &mut Builder,
    root: Offset<Weapon>,
    want: &[u8],
    values: WeaponRow,
    row: &str,
) -> Done {
    let bytes = finish_with(builder, root)?;
    check_bytes(test, bytes, want, row);
    check_root(test, bytes, values, row);
    Ok(())
}

pub fn check_root(test: &Test<'_>, bytes: &[u8], want: WeaponRow, row: &str) {
    match WeaponRef::read_as_root(bytes) {
        Ok(weapon) => check_weapon(test, weapon, want, row),
        Err(error) => check_eq(test, &Some(error), &None, row),
    }
}

fn check_axe(test: &Test<'_>, builder: &mut Builder) -> Done {
    let axe = weapon(builder, "Axe", 24)?;
    check_finish(test, builder, axe, AXE, (Some("Axe"), 24), "an axe")
}

#[test]
fn an_axe(rt: HostRuntime) -> Result<(), Fail> {
    let test = Test::new(&rt);
    in_builder(&test, Caches::all(), check_axe);
    test.end()
}

// The word leads to the vtable after it, which has no slots.
fn check_no_fields(test: &Test<'_>, builder: &mut Builder) -> Done {
    let unnamed: Option<&str> = None;
    let nothing = Weapon::create(builder, unnamed, 0i16)?;
    let want = b"\x04\0\0\0\xfc\xff\xff\xff\x04\0\x04\0";
    check_finish(test, builder, nothing, want, (None, 0), "no fields")
}

fn check_no_name(test: &Test<'_>, builder: &mut Builder) -> Done {
    let unnamed = Weapon::create(builder, (), -3i16)?;
    let want = b"\x04\0\0\0\xfa\xff\xff\xff\xfd\xff\x08\0\x06\0\0\0\x04\0";
    check_finish(test, builder, unnamed, want, (None, -3), "no name")
}

fn check_no_damage(test: &Test<'_>, builder: &mut Builder) -> Done {
    let harmless = Weapon::create(builder, Some("Feather"), DefaultValue)?;
    let want = b"\x04\0\0\0\xf6\xff\xff\xff\x0c\0\0\0\0\0\x06\0\x08\0\x04\0\x07\0\0\0Feather\0";
    check_finish(
        test,
        builder,
        harmless,
        want,
        (Some("Feather"), 0),
        "no damage",
    )
}

#[test]
fn fields_left_out(rt: HostRuntime) -> Result<(), Fail> {
    let test = Test::new(&rt);
    in_builder(&test, Caches::all(), check_no_fields);
    in_builder(&test, Caches::all(), check_no_name);
    in_builder(&test, Caches::all(), check_no_damage);
    test.end()
}

fn check_damaged(test: &Test<'_>, bytes: &[u8]) {
    let text = "In <Weapon@4>::name(): Missing null terminator";
    match WeaponRef::read_as_root(bytes) {
        Ok(weapon) => {
            check_fails(test, weapon.name(), text);
            check_eq(
                test,
                &weapon.damage(),
                &Ok(24),
                "the damage beside a damaged name",
            );
        }
        Err(_) => check(test, false, text),
    }
}

#[test]
fn damaged_bytes(rt: HostRuntime) -> Result<(), Fail> {
    let test = Test::new(&rt);
    for bytes in DAMAGED {
        check_damaged(&test, bytes);
    }
    let text = "In <[WeaponRef]@0>::read_as_root(): Invalid offset";
    check_fails(&test, WeaponRef::read_as_root(&[0, 0, 0]), text);
    test.end()
}

// The axe, size-prefixed, and a size before no root.
const SIZED: &[u8] =
    b" \0\0\0\x04\0\0\0\xf4\xff\xff\xff\x10\0\0\0\x18\0\0\0\x08\0\x0a\0\x04\0\x08\0\x03\0\0\0Axe\0";

const NO_ROOT: &[u8] = b"\x03\0\0\0\0\0\0";

fn sized_weapon(bytes: &[u8]) -> Option<planus::Result<TableRef<'_, Weapon>>> {
    match read_size_prefixed(bytes) {
        Ok((slice, _rest)) => Some(ReadSliceAsRoot::read_slice_as_root(slice)),
        Err(_) => None,
    }
}

fn check_sized(test: &Test<'_>) {
    match sized_weapon(SIZED) {
        Some(Ok(axe)) => {
            let damage = axe.table.access::<i16>(1, "Weapon", "damage");
            check_eq(test, &damage, &Ok(Some(24)), "the damage behind a size");
        }
        _ => check(test, false, "an axe behind a size"),
    }
}

fn check_no_root(test: &Test<'_>) {
    let text = "In <[WeaponRef]@4>::read_as_root(): Invalid offset";
    match sized_weapon(NO_ROOT) {
        Some(answer) => check_fails(test, answer, text),
        None => check(test, false, text),
    }
}

#[test]
fn weapons_behind_their_size(rt: HostRuntime) -> Result<(), Fail> {
    let test = Test::new(&rt);
    check_sized(&test);
    check_no_root(&test);
    test.end()
}

fn check_shown<T: Debug>(test: &Test<'_>, value: &T, begins: &str) {
    match format!(in test.alloc(); "{value:?}") {
        Ok(shown) => check(test, shown.as_str().starts_with(begins), shown.as_str()),
        Err(_) => check(test, false, begins),
    }
}

fn check_values(test: &Test<'_>) {
    let damage = OrDefault {
        value: 24i16,
        default: 0i16,
    };
    check_shown(test, &Required("Axe"), "Required(\"Axe\")");
    check_shown(test, &damage, "OrDefault { value: 24, default: 0 }");
    check_shown(test, &variant!(1: Text = "Axe"), "Variant { value: \"Axe\"");
    match sized_weapon(SIZED) {
        Some(Ok(axe)) => check_shown(test, &axe, "TableRef { table: "),
        _ => check(test, false, "an axe behind a size"),
    }
}

#[test]
fn what_is_written_is_shown(rt: HostRuntime) -> Result<(), Fail> {
    let test = Test::new(&rt);
    check_values(&test);
    test.end()
}

fn check_axe_and_bow(test: &Test<'_>, bytes: &[u8]) {
    let whole = SliceWithStartOffset::new(bytes, 0);
    let list: Result<Vector<'_, Result<WeaponRef<'_>, Error>>, ErrorKind> = TableRead::from_buffer(
        whole, 0,
    );
    let want = [(Some("Axe"), 24), (Some("Bow"), 12)];
    match list {
        Ok(weapons) => check_weapons(test, weapons, &want, "an axe and a bow"),
        Err(kind) => check_eq(test, &Some(kind), &None, "an axe and a bow"),
    }
}

fn check_list(test: &Test<'_>, builder: &mut Builder) -> Done {
    let axe = weapon(builder, "Axe", 24)?;
    let bow = weapon(builder, "Bow", 12)?;
    let length = builder.len();
    if axe.distance() as usize > length || bow.distance() as usize > length {
        return Err(BuildError::TooLarge);
    }
    let list = [axe, bow];
    check_axe_and_bow(test, builder.finish(&list[..], None)?);
    Ok(())
}

#[test]
fn a_list_of_weapons(rt: HostRuntime) -> Result<(), Fail> {
    let test = Test::new(&rt);
    in_builder(&test, Caches::all(), check_list);
    test.end()
}

fn was_told(writer: &TableWriter<8>)
    ensures { (declared : List Declared) × WasTold writer.now declared }
{
    writer.was_told();
}

#[test]
fn a_writer_was_told(_rt: HostRuntime) {
    let mut writer: TableWriter<8> = TableWriter::default();
    was_told(&writer);
    writer.write_entry::<u16>(0);
    was_told(&writer);
}
