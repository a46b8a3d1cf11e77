//! Equal contents, which a builder writes once, also without memory.

use super::runs::{add, add_field, add_finish};
use super::settings::CacheSettings;
use super::tables::{ONE_VTABLE, TWO_VTABLES, put};
use planus::{BuildError, Builder, ByteList, Caches, FieldValue, Step, replay};
use planus_testing::{Test, check, check_bytes, check_done, check_eq, check_tried, exhaust};
use std::alloc::{AllocError, Global};
use std::test::Fail;

fn one_number(alloc: Global, value: u64) -> Result<Step, AllocError> {
    let mut fields = Vec::new(alloc);
    add_field(&mut fields, 0, FieldValue::Number { width: 2, value })?;
    Ok(Step::Table(fields))
}

fn check_replay(test: &Test<'_>, caches: Caches, steps: &[Step], want: &[u8], row: &str) {
    match replay(test.alloc(), caches, steps) {
        Ok(got) => match got.as_slice() {
            [finished] => check_bytes(test, finished.bytes.as_slice(), want, row),
            all => check_eq(test, &all.len(), &1, row),
        },
        Err(error) => check_eq(test, &Some(error), &None, row),
    }
}

fn push_equal_tables(alloc: Global, steps: &mut Vec<Step>) -> Result<(), AllocError> {
    add(steps, one_number(alloc, 24))?;
    add(steps, one_number(alloc, 7))?;
    add_finish(steps, 1)
}

fn check_equal_tables(test: &Test<'_>) -> Result<(), AllocError> {
    let mut steps = Vec::new(test.alloc());
    push_equal_tables(test.alloc(), &mut steps)?;
    let (all, others) = (CacheSettings::of(7), CacheSettings::of(6));
    let steps = steps.as_slice();
    check_replay(test, all.caches(u64::MAX), steps, ONE_VTABLE, "one vtable");
    check_replay(
        test,
        others.caches(u64::MAX),
        steps,
        TWO_VTABLES,
        "two vtables",
    );
    Ok(())
}

#[test]
fn equal_vtables(rt: HostRuntime) -> Result<(), Fail> {
    let test = Test::new(&rt);
    check(&test, check_equal_tables(&test).is_ok(), "memory for steps");
    test.end()
}

type Three = [Result<u32, BuildError>; 3];

pub fn text_at(builder: &mut Builder, letters: &str) -> Result<u32, BuildError> {
    match builder.create_string(letters) {
        Ok(text) => Ok(text.distance()),
        Err(error) => Err(error),
    }
}

fn bytes_at(builder: &mut Builder, letters: &str) -> Result<u32, BuildError> {
    match builder.create_vector(ByteList(letters.as_bytes())) {
        Ok(bytes) => Ok(bytes.distance()),
        Err(error) => Err(error),
    }
}

fn table_at(builder: &mut Builder, wide: bool) -> Result<u32, BuildError> {
    if wide {
        put::<u32, u32>(builder, 7)?;
    } else {
        put::<u16, u16>(builder, 7)?;
    }
    Ok(builder.current_offset::<()>().distance())
}

fn write_three(builder: &mut Builder, letters: &str, wide: bool) -> Three {
    [
        text_at(builder, letters),
        bytes_at(builder, letters),
        table_at(builder, wide),
    ]
}

// With one more of a kind, its cache is used.
const OTHERS: [&str; 15] = [
    "",
    "a",
    "ab",
    "abc",
    "abcd",
    "abcde",
    "abcdef",
    "abcdefg",
    "abcdefgh",
    "abcdefghi",
    "abcdefghij",
    "abcdefghijk",
    "abcdefghijkl",
    "abcdefghijklm",
    "abcdefghijklmn",
];

fn check_others(test: &Test<'_>, builder: &mut Builder, len: usize) {
    for letters in OTHERS {
        check(test, text_at(builder, letters).is_ok(), letters);
        check(test, bytes_at(builder, letters).is_ok(), letters);
    }
    check_eq(test, &builder.len(), &len, "the bytes with all others");
}

const REFUSED: Result<u32, BuildError> = Err(BuildError::OutOfMemory);

// Only equal contents are found.
fn check_found(test: &Test<'_>, builder: &mut Builder, before: &[u8]) {
    let room = builder.room();
    check_eq(test, &text_at(builder, "Hi"), &REFUSED, "a refused string");
    check_eq(
        test,
        &bytes_at(builder, "Hi"),
        &REFUSED,
        "a refused byte vector",
    );
    check_others(test, builder, 424);
    check_bytes(test, builder.as_slice(), before, "the bytes after refusals");
    check_eq(test, &builder.room(), &room, "the room after refusals");
    let three = write_three(builder, "Axe", false);
    check_eq(
        test,
        &three,
        &[Ok(8), Ok(16), Ok(432)],
        "three that are found",
    );
}

// Returns whether all memory was taken.
fn check_without_memory(
    test: &Test<'_>,
    builder: &mut Builder,
    before: &[u8],
) -> Result<bool, AllocError> {
    let mut held: Vec<Vec<u8>> = Vec::with_capacity(test.alloc(), 262144)?;
    let exhausted = exhaust(test.alloc(), &mut held)?;
    if exhausted {
        check_found(test, builder, before);
    }
    drop(held);
    Ok(exhausted)
}

// In reverse order. The second of the three tables has the vtable of the first.
const IN_FRONT: &[u8] = b"\xf8\xff\xff\xff\x07\0\0\0\x08\0\x08\0\0\0\x04\0\
    \x02\0\0\0Hi\0\0\x02\0\0\0Hi\0\0\
    \x68\xfe\xff\xff\x07\0\0\0";

fn check_again(test: &Test<'_>, builder: &mut Builder, before: &[u8]) {
    let three = write_three(builder, "Hi", true);
    check_eq(
        test,
        &three,
        &[Ok(440), Ok(448), Ok(464)],
        "three with memory again",
    );
    check_others(test, builder, 464);
    check(
        test,
        builder.as_slice().starts_with(IN_FRONT),
        "what is in front",
    );
    check(
        test,
        builder.as_slice().ends_with(before),
        "what was before",
    );
}

fn check_entries(test: &Test<'_>, builder: &mut Builder) -> Result<(), AllocError> {
    let three = write_three(builder, "Axe", false);
    check_eq(test, &three, &[Ok(8), Ok(16), Ok(32)], "the first three");
    check_others(test, builder, 424);
    let before = Vec::from_slice(test.alloc(), builder.as_slice())?;
    if check_without_memory(test, builder, before.as_slice())? {
        check_again(test, builder, before.as_slice());
    } else {
        check_tried(test, None, "entries");
    }
    Ok(())
}

fn check_in_1024_bytes(test: &Test<'_>, caches: Caches) -> Result<(), BuildError> {
    let mut builder = Builder::with_caches(test.alloc(), 1024, caches)?;
    check_entries(test, &mut builder)?;
    Ok(())
}

#[test]
fn entries_with_refused_memory(rt: HostRuntime) -> Result<(), Fail> {
    let test = Test::new(&rt);
    let done = check_in_1024_bytes(&test, CacheSettings::of(7).caches(0));
    check_done(&test, done, "a builder of 1024 bytes");
    test.end()
}
