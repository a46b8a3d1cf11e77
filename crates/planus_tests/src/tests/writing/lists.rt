use super::check_prepared;
use planus_testing::plain::number_at;
use planus_testing::{
    Test, check, check_bytes, check_done, check_eq, check_finish, check_shows, in_builder,
};
use planus_write::{
    BuildError, Builder, ByRef, ByteList, Caches, List, Offset, Primitive, SignedList, Text,
    VectorWrite,
};
use std::alloc::{AllocError, Global};
use std::test::Fail;

type Done = Result<(), BuildError>;

// The builder is empty afterwards.
fn check_list<P: Primitive, T: VectorWrite<P>>(
    test: &Test<'_>,
    builder: &mut Builder,
    items: &[T],
    want: &[u8],
)
    requires { T.all_may items.now builder.old }
{
    match builder.create_vector::<P, &[T]>(items) {
        Ok(list) => check_finish(test, builder, list, None, want),
        Err(error) => check_done(test, Err(error), "a list"),
    }
    builder.clear();
}

const TEXTS: &[u8] = b"\x04\0\0\0\x02\0\0\0\x10\0\0\0\x04\0\0\0\x01\0\0\0B\0\0\0\x01\0\0\0A\0";

const BOOLS: &[u8] = b"\x04\0\0\0\x03\0\0\0\x01\0\x01";

const NUMBER: &[u8] = b"\x04\0\0\0\x01\0\0\0\xfe\xff\xff\xff";

fn check_numbers(test: &Test<'_>, builder: &mut Builder) -> Done {
    check_list::<bool, bool>(test, builder, &[true, false, true], BOOLS);
    check_list::<i16, i16>(test, builder, &[-2], b"\x04\0\0\0\x01\0\0\0\xfe\xff");
    check_list::<i32, ByRef<'_, i32>>(test, builder, &[ByRef(&-2)], NUMBER);
    check_list::<u32, u32>(test, builder, &[], b"\x04\0\0\0\0\0\0\0");
    check_list::<Offset<Text>, &str>(test, builder, &["A", "B"], TEXTS);
    Ok(())
}

fn check_wide_numbers(test: &Test<'_>, builder: &mut Builder) -> Done {
    let wide = b"\x04\0\0\0\x01\0\0\0\x01\0\0\0\0\0\0\0\x02\0\0\0Hi\0".as_slice();
    builder.create_string("Hi")?;
    check_list::<u64, u64>(test, builder, &[1], wide);
    builder.create_string("Hi")?;
    let array = builder.create_vector::<u64, [u64; 1]>([1])?;
    check_finish(test, builder, array, None, wide);
    Ok(())
}

fn check_owned_texts(test: &Test<'_>, builder: &mut Builder) -> Done {
    let alloc = test.alloc();
    let owned = [String::from_str(alloc, "A")?, String::from_str(alloc, "B")?];
    check_list::<Offset<Text>, String>(test, builder, &owned, TEXTS);
    Ok(())
}

fn check_lists_of_bytes(test: &Test<'_>, builder: &mut Builder) -> Done {
    let (bytes, signed) = (ByteList(&[72, 105]), SignedList(&[72, -2]));
    let written = b"\x02\0\0\0H\xfe\0\0\x02\0\0\0Hi";
    check_prepared::<List<u8>, ByteList<'_>>(test, builder, &bytes, 6, "bytes");
    check_prepared::<List<i8>, SignedList<'_>>(test, builder, &signed, 14, "signed bytes");
    check_bytes(test, builder.as_slice(), written, "both");
    Ok(())
}

fn many_numbers(alloc: Global, count: u32) -> Result<Vec<u32>, AllocError> {
    let mut numbers: Vec<u32> = Vec::new(alloc);
    for number in 0..count {
        numbers.push(number)?;
    }
    Ok(numbers)
}

fn check_many_numbers(test: &Test<'_>, bytes: &[u8], count: u32) {
    let mut position: usize = 8;
    for number in 0..count {
        check_eq(
            test,
            &number_at(bytes, position),
            &Some(number),
            "one of many numbers",
        );
        position = position.wrapping_add(4);
    }
    check(
        test,
        bytes.starts_with(b"\x04\0\0\0\xa3\x86\x01\0"),
        "the count of many numbers",
    );
    check_eq(test, &bytes.len(), &position, "the bytes of many numbers");
}

fn check_100003_numbers(test: &Test<'_>, builder: &mut Builder) -> Done {
    let numbers = many_numbers(test.alloc(), 100003)?;
    let list = builder.create_vector::<u32, Vec<u32>>(numbers)?;
    if list.distance() as usize > builder.len() {
        return Err(BuildError::TooLarge);
    }
    check_many_numbers(test, builder.finish(list, None)?, 100003);
    Ok(())
}

#[test]
fn lists(rt: HostRuntime) -> Result<(), Fail> {
    let test = Test::new(&rt);
    in_builder(&test, Caches::all(), check_numbers);
    in_builder(&test, Caches::all(), check_wide_numbers);
    in_builder(&test, Caches::all(), check_owned_texts);
    in_builder(&test, Caches::all(), check_lists_of_bytes);
    in_builder(&test, Caches::all(), check_100003_numbers);
    test.end()
}

#[test]
fn lists_of_bytes_are_shown(rt: HostRuntime) -> Result<(), Fail> {
    let test = Test::new(&rt);
    let bytes = ByteList::from([72, 105].as_slice());
    let numbers = SignedList::from([-2, 7].as_slice());
    check_shows(&test, &bytes, "[72, 105]");
    check_shows(&test, &numbers, "[-2, 7]");
    check_shows(&test, &ByRef(&numbers), "[-2, 7]");
    check_eq(
        &test,
        &Caches::default(),
        &Caches::all(),
        "the caches by default",
    );
    test.end()
}
