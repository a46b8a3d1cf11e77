use super::finish_with;
use super::monster::has;
use super::other_builders::{MonsterRow, check_root};
use super::weapon::weapon;
use crate::monster::Monster;
use planus::{BuildError, Builder, ByteList, Caches, Offset, UnionOffset};
use planus_testing::{Test, check_bytes, check_eq, in_builder};
use std::test::Fail;

pub fn setting(number: usize, hash_mask: u64) -> Caches {
    Caches {
        vtables: number & 1 != 0,
        texts: number & 2 != 0,
        bytes: number & 4 != 0,
        hash_mask,
    }
}

fn armed(
    builder: &mut Builder,
    name: &str,
    inventory: &[u8],
) -> Result<Offset<Monster>, BuildError> {
    let axe = weapon(builder, "Axe", 24)?;
    let bow = weapon(builder, "Bow", 12)?;
    let equipped = UnionOffset::new(1, axe.downcast());
    let other = UnionOffset::new(1, bow.downcast());
    if !has(builder, axe.distance()) || !has(builder, bow.distance()) {
        return Err(BuildError::TooLarge);
    }
    let inventory = ByteList(inventory);
    Monster::create(
        builder,
        80i16,
        name,
        inventory,
        [axe, bow],
        equipped,
        [other, equipped],
    )
}

// The first and the last are equal, the second has a weapon's name.
fn three(builder: &mut Builder) -> Result<&[u8], BuildError> {
    armed(builder, "Orc", &[1, 2, 3])?;
    armed(builder, "Axe", &[7])?;
    let last = armed(builder, "Orc", &[1, 2, 3])?;
    finish_with(builder, last)
}

const LAST: MonsterRow = MonsterRow {
    hp: 80,
    name: "Orc",
    inventory: &[1, 2, 3],
    weapons: Some(&[(Some("Axe"), 24), (Some("Bow"), 12)]),
    equipped: (Some("Axe"), 24),
    loot: Some(&[(Some("Bow"), 12), (Some("Axe"), 24)]),
};

// Each setting's length. A vtable that is found saves 8 bytes for each of six weapons, and 20 for a
// monster; a string or a byte vector 8.
pub const SETTINGS: [(&str, usize); 8] = [
    ("no caches", 472),
    ("vtables", 392),
    ("strings", 424),
    ("vtables and strings", 344),
    ("byte vectors", 464),
    ("vtables and byte vectors", 384),
    ("strings and byte vectors", 416),
    ("all caches", 336),
];

fn check_three(
    test: &Test<'_>,
    builder: &mut Builder,
    bytes: &mut Vec<u8>,
) -> Result<(), BuildError> {
    let written = three(builder)?;
    bytes.extend_from_slice(written)?;
    check_root(test, written, LAST);
    Ok(())
}

fn check_same(
    test: &Test<'_>,
    builder: &mut Builder,
    want: &[u8],
    row: &str,
) -> Result<(), BuildError> {
    check_bytes(test, three(builder)?, want, row);
    Ok(())
}

fn check_setting(test: &Test<'_>, number: usize, (row, length): (&str, usize)) {
    let mut bytes = Vec::new(test.alloc());
    let all = setting(number, u64::MAX);
    in_builder(
        test,
        all,
        |test, builder| check_three(test, builder, &mut bytes),
    );
    let bytes = bytes.as_slice();
    check_eq(test, &bytes.len(), &length, row);
    for mask in [0, 1] {
        let caches = setting(number, mask);
        in_builder(
            test,
            caches,
            |test, builder| check_same(test, builder, bytes, row),
        );
    }
}

#[test]
fn monsters_in_every_setting(rt: HostRuntime) -> Result<(), Fail> {
    let test = Test::new(&rt);
    for number in 0..8 {
        check_setting(&test, number, SETTINGS[number]);
    }
    test.end()
}
