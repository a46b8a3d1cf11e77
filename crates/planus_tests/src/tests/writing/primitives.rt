ghost use Rattle.std.specs.Prelude.{◌≡◌, ◌≤◌};

use planus_testing::{Test, check_bytes, check_eq};
use planus_write::{ByRef, Offset, Primitive, Text, WriteAsPrimitive};
use std::test::Fail;

// At distance 20, by its bound alone.
fn check_written<P: Primitive, T: WriteAsPrimitive<P>, const N: usize>(
    test: &Test<'_>,
    value: &T,
    want: [u8; N],
    alignment_mask: usize,
    row: &str,
)
    requires size { N ≡ P.SIZE }
    requires reach { T.reach value.now ≤ 20 }
{
    let mut bytes = [9; N];
    value.write(&mut bytes, 20);
    check_bytes(test, bytes.as_slice(), want.as_slice(), row);
    check_eq(test, &P::ALIGNMENT_MASK, &alignment_mask, row);
}

fn check_narrow_numbers(test: &Test<'_>) {
    check_written::<u8, u8, 1>(test, &7, [7], 0, "u8");
    check_written::<i8, i8, 1>(test, &-2, [0xfe], 0, "i8");
    check_written::<bool, bool, 1>(test, &true, [1], 0, "bool");
    check_written::<u16, u16, 2>(test, &0x102, [2, 1], 1, "u16");
    check_written::<i16, i16, 2>(test, &-2, [0xfe, 0xff], 1, "i16");
}

const MINUS_FOUR: [u8; 4] = [0xfc, 0xff, 0xff, 0xff];

const EIGHT: [u8; 8] = [8, 7, 6, 5, 4, 3, 2, 1];

fn check_wide_numbers(test: &Test<'_>) {
    check_written::<u32, u32, 4>(test, &0x1020304, [4, 3, 2, 1], 3, "u32");
    check_written::<i32, i32, 4>(test, &-3, [0xfd, 0xff, 0xff, 0xff], 3, "i32");
    check_written::<i32, ByRef<'_, i32>, 4>(test, &ByRef(&-4), MINUS_FOUR, 3, "by reference");
    check_written::<u64, u64, 8>(test, &0x102030405060708, EIGHT, 7, "u64");
    check_written::<i64, i64, 8>(test, &-1, [0xff; 8], 7, "i64");
}

#[test]
fn primitives(rt: HostRuntime) -> Result<(), Fail> {
    let test = Test::new(&rt);
    check_narrow_numbers(&test);
    check_wide_numbers(&test);
    check_eq(
        &test,
        &<Offset<Text> as Primitive>::ALIGNMENT_MASK,
        &3,
        "an offset's mask",
    );
    test.end()
}
