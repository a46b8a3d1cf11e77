mod errors;
mod no_memory;
mod size_prefixed;
mod slices;
mod tables;
mod traits;
mod views;

use planus_read::errors::ErrorKind;
use planus_testing::plain::{bytes_stand_at, number_at, text_stands_at};
use planus_testing::{Test, check, check_eq};
use std::test::Fail;

const WEAPON: [u8; 32] = [
    4, 0, 0, 0, 0xf4, 0xff, 0xff, 0xff, 16, 0, 0, 0, 24, 0, 0, 0, 8, 0, 10, 0, 4, 0, 8, 0, 3, 0, 0,
    0, b'A', b'x', b'e', 0,
];

// A table at 4 with its vtable at 24. Slots 0 and 1: a union of tag 1 and `Hi`. Slots 2 and 3: a
// union vector of tags 1 and 2 and `A` and `B`, its tags at 44, its values at 52.
const UNIONS: [u8; 78] = [
    4, 0, 0, 0, 0xec, 0xff, 0xff, 0xff, 28, 0, 0, 0, 32, 0, 0, 0, 36, 0, 0, 0, 1, 0, 0, 0, 12, 0,
    17, 0, 16, 0, 4, 0, 8, 0, 12, 0, 2, 0, 0, 0, b'H', b'i', 0, 0, 2, 0, 0, 0, 1, 2, 0, 0, 2, 0, 0,
    0, 16, 0, 0, 0, 4, 0, 0, 0, 1, 0, 0, 0, b'B', 0, 0, 0, 1, 0, 0, 0, b'A', 0,
];

fn check_fails_with<T: Drop>(
    test: &Test<'_>,
    answer: planus_read::Result<T>,
    want: ErrorKind,
    row: &str,
) {
    let got = match answer {
        Ok(_) => None,
        Err(error) => Some(error.error_kind),
    };
    check_eq(test, &got, &Some(want), row);
}

fn check_number(test: &Test<'_>, position: usize, want: Option<u32>, row: &str) {
    check_eq(test, &number_at(&WEAPON, position), &want, row);
}

fn check_plain_numbers(test: &Test<'_>) {
    check_number(test, 0, Some(4), "the root");
    check_number(test, 28, Some(0x657841), "the last four bytes");
    check_number(test, 29, None, "across the end");
    check_number(test, usize::MAX, None, "at the greatest position");
}

fn check_plain_bytes(test: &Test<'_>) {
    check(
        test,
        bytes_stand_at(&WEAPON, 28, b"Axe\0"),
        "the bytes of the name",
    );
    check(
        test,
        !bytes_stand_at(&WEAPON, 29, b"Axe\0"),
        "bytes across the end",
    );
    check(test, text_stands_at(&WEAPON, 24, b"Axe"), "the name");
    check(test, !text_stands_at(&WEAPON, 24, b"Ax"), "a shorter name");
    check(
        test,
        !text_stands_at(&WEAPON[..31], 24, b"Axe"),
        "a name with no zero byte",
    );
}

#[test]
fn plain_programs_read_the_weapon(rt: HostRuntime) -> Result<(), Fail> {
    let test = Test::new(&rt);
    check_plain_numbers(&test);
    check_plain_bytes(&test);
    test.end()
}
