//! Every call once on views of none, one and five items.

ghost use Rattle.std.specs.Prelude.{◌≡◌, ⊤, codes};

use super::super::calls::{check_item_calls, check_part_calls};
use super::super::{check_parts_shown, push_numbers};
use super::unions;
use planus_read::errors::ErrorKind;
use planus_read::{Error, SliceWithStartOffset, TableRead, TableReadUnion, VectorReadUnion};
use planus_testing::{Test, check, check_eq, check_prints};
use planus_unions::UnionVector;
use planus_view::CopyError;
use std::alloc::{AllocError, Global};
use std::test::Fail;

// Instead of a reference; its tag is 2.
#[derive(Clone, Copy, PartialEq, Debug)]
struct Number(u32);

impl<'buf> TableReadUnion<'buf> for Number {
    ghost reads = { λ S start tag f r. ⊤ };

    fn from_buffer(
        buffer: SliceWithStartOffset<'buf>,
        tag: u8,
        offset: usize,
    ) -> Result<Number, ErrorKind> {
        match tag {
            2 => Ok(Number(TableRead::from_buffer(buffer, offset)?)),
            _ => Err(ErrorKind::UnknownUnionTag { tag }),
        }
    }
}

impl<'buf> VectorReadUnion<'buf> for Number {
    ghost name = { codes "[Number]" };

    fn vector_name() -> &'static str
        ensures { result.now ≡ codes "[Number]" }
    {
        "[Number]"
    }
}

// The number 0 of tag 2.
const ONE: [u8; 24] = [
    8, 0, 0, 0, 12, 0, 0, 0, 1, 0, 0, 0, 2, 0, 0, 0, 1, 0, 0, 0, 0, 0, 0, 0,
];

// The numbers 10 to 14.
const FIVE: [u8; 44] = [
    8, 0, 0, 0, 16, 0, 0, 0, 5, 0, 0, 0, 2, 2, 2, 2, 2, 0, 0, 0, 5, 0, 0, 0, 10, 0, 0, 0, 11, 0, 0,
    0, 12, 0, 0, 0, 13, 0, 0, 0, 14, 0, 0, 0,
];

fn held(item: Option<Result<Number, Error>>) -> Option<u32> {
    match item {
        Some(Ok(number)) => Some(number.0),
        _ => None,
    }
}

fn check_ends(
    test: &Test<'_>,
    v: UnionVector<'_, Number>,
    first: Option<u32>,
    last: Option<u32>,
    row: &str,
) {
    let firsts = [held(v.first()), held(v.get(0usize))];
    let lasts = [held(v.last()), held(v.iter().next_back())];
    check_eq(test, &firsts, &[first; 2], row);
    check_eq(test, &lasts, &[last; 2], row);
}

fn check_calls(test: &Test<'_>, v: UnionVector<'_, Number>, len: usize, row: &str) {
    check_item_calls(test, v, len, row);
    check_part_calls(test, v, len, row);
}

fn check_unions(test: &Test<'_>, bytes: &[u8], len: usize, first: u32, last: u32, row: &str) {
    match unions(bytes, 0, 4) {
        Ok(v) => {
            check_ends(test, v, Some(first), Some(last), row);
            check_calls(test, v, len, row);
        }
        Err(kind) => check_eq(test, &Some(kind), &None, row),
    }
}

fn check_last_chunk(test: &Test<'_>, five: UnionVector<'_, Number>) {
    match five.rchunks(2).next() {
        Some(chunk) => check_eq(test, &held(chunk.first()), &Some(13), "the last chunk"),
        None => check(test, false, "the last chunk"),
    }
}

pub fn check_union_calls(test: &Test<'_>) {
    let none = UnionVector::new_empty();
    check_ends(test, none, None, None, "no unions");
    check_calls(test, none, 0, "no unions");
    check_unions(test, &ONE, 1, 0, 0, "one union");
    check_unions(test, &FIVE, 5, 10, 14, "five unions");
    match unions(&FIVE, 0, 4) {
        Ok(five) => check_last_chunk(test, five),
        Err(_) => check(test, false, "five unions"),
    }
}

fn check_five_shown(test: &Test<'_>) {
    match unions::<Number>(&FIVE, 0, 4) {
        Ok(five) => check_parts_shown(test, five),
        Err(_) => check(test, false, "five unions"),
    }
}

// The second and the fourth tag are unknown.
const DAMAGED: [u8; 44] = [
    8, 0, 0, 0, 16, 0, 0, 0, 5, 0, 0, 0, 2, 7, 2, 9, 2, 0, 0, 0, 5, 0, 0, 0, 10, 0, 0, 0, 11, 0, 0,
    0, 12, 0, 0, 0, 13, 0, 0, 0, 14, 0, 0, 0,
];

fn copies_of(alloc: Global, bytes: &[u8]) -> Result<Vec<Number>, CopyError> {
    match unions::<Number>(bytes, 0, 4) {
        Ok(v) => v.to_vec::<Number>(alloc),
        Err(kind) => Err(CopyError::Read(kind.with_error_location("", "", 0))),
    }
}

fn check_five_copied(test: &Test<'_>) {
    let numbers = [Number(10), Number(11), Number(12), Number(13), Number(14)];
    match copies_of(test.alloc(), &FIVE) {
        Ok(copies) => check_eq(test, &copies.as_slice(), &numbers.as_slice(), "copies"),
        Err(error) => check_eq(test, &Some(error), &None, "copies"),
    }
}

fn check_damaged(test: &Test<'_>) {
    let text = "In <[Number]@1c>::get(): Unknown union (tag = 7)";
    match copies_of(test.alloc(), &DAMAGED) {
        Err(CopyError::Read(error)) => check_prints(test, &error, text),
        _ => check(test, false, text),
    }
}

fn many_unions(alloc: Global) -> Result<Vec<u8>, AllocError> {
    let mut bytes = Vec::from_slice(alloc, b"\x08\0\0\0\x94\x13\0\0\x8b\x13\0\0")?;
    let tags = vec![in alloc; 2; 5003]?;
    bytes.extend_from_slice(tags.as_slice())?;
    bytes.extend_from_slice(b"\0\x8b\x13\0\0")?;
    push_numbers(&mut bytes, b"\0\0")?;
    Ok(bytes)
}

fn check_counted(test: &Test<'_>, copies: &[Number]) {
    for (number, want) in copies.iter().zip(0..5003) {
        check_eq(test, &number.0, &want, "one of many unions");
    }
    check_eq(test, &copies.len(), &5003, "many unions");
}

fn check_many(test: &Test<'_>, bytes: &[u8]) {
    match copies_of(test.alloc(), bytes) {
        Ok(copies) => check_counted(test, copies.as_slice()),
        Err(error) => check_eq(test, &Some(error), &None, "many unions"),
    }
}

#[test]
fn copies_of_5003_unions(rt: HostRuntime) -> Result<(), Fail> {
    let bytes = many_unions(rt.alloc())?;
    let test = Test::new(&rt);
    check_many(&test, bytes.as_slice());
    test.end()
}

#[test]
fn five_unions(rt: HostRuntime) -> Result<(), Fail> {
    let test = Test::new(&rt);
    check_five_shown(&test);
    check_five_copied(&test);
    check_damaged(&test);
    test.end()
}
