//! Strings in one stream are read back one by one, also where it is cut.

use by_hand::{append, read_all};
use planus::errors::ErrorKind;
use planus::{BuildError, Builder, Caches, SliceWithStartOffset, TableRead};
use planus_testing::{Test, check, check_eq, in_builder};
use std::test::Fail;

const TEXTS: &[&str] = &["Axe", "Bow", "Club"];

fn check_records(test: &Test<'_>, slices: &[SliceWithStartOffset<'_>], count: usize, row: &str) {
    check_eq(test, &slices.len(), &count, row);
    for (slice, text) in slices.iter().zip(TEXTS) {
        check_eq(
            test,
            &<&str as TableRead>::from_buffer(*slice, 0),
            &Ok(*text),
            row,
        );
    }
}

fn check_cut(test: &Test<'_>, part: &[u8], count: usize, fault: Option<ErrorKind>, row: &str) {
    match read_all(test.alloc(), part) {
        Ok(records) => {
            check_records(test, records.slices.as_slice(), count, row);
            check_eq(test, &records.fault, &fault, row);
        }
        Err(_) => check(test, false, row),
    }
}

const ROWS: [(usize, usize, Option<ErrorKind>, &str); 7] = [
    (49, 3, None, "whole"),
    (48, 2, Some(ErrorKind::InvalidLength), "within the last"),
    (
        36,
        2,
        Some(ErrorKind::InvalidLength),
        "right after the last's size",
    ),
    (35, 2, Some(ErrorKind::InvalidOffset), "within that size"),
    (32, 2, None, "after the second"),
    (15, 0, Some(ErrorKind::InvalidLength), "within the first"),
    (0, 0, None, "before all"),
];

fn check_cuts(test: &Test<'_>, stream: &[u8]) {
    check_eq(test, &stream.len(), &49, "the stream's bytes");
    for (length, count, fault, row) in ROWS {
        match stream.get(..length) {
            Some(part) => check_cut(test, part, count, fault, row),
            None => check(test, false, row),
        }
    }
}

fn check_stream(test: &Test<'_>, builder: &mut Builder) -> Result<(), BuildError> {
    let mut stream = Vec::new(test.alloc());
    for text in TEXTS {
        append(&mut stream, builder, text)?;
    }
    check_cuts(test, stream.as_slice());
    Ok(())
}

#[test]
fn a_stream_of_three_texts(rt: HostRuntime) -> Result<(), Fail> {
    let test = Test::new(&rt);
    in_builder(&test, Caches::all(), check_stream);
    test.end()
}
