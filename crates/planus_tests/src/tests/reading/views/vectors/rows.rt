ghost use Rattle.std.specs.Prelude.{◌<◌};

use super::super::check_parts_shown;
use super::{check_has, check_some, five, numbers};
use planus_read::errors::ErrorKind;
use planus_read::{Error, SliceWithStartOffset, TableRead};
use planus_testing::{Test, check, check_eq, check_prints};
use planus_view::{Cut, SubViews, Vector};
use std::ops::Bound;
use std::test::Fail;

// The vector of the strings `A` and `B`, finished.
pub const TEXTS: [u8; 30] = [
    4, 0, 0, 0, 2, 0, 0, 0, 16, 0, 0, 0, 4, 0, 0, 0, 1, 0, 0, 0, 66, 0, 0, 0, 1, 0, 0, 0, 65, 0,
];

// The same with the byte 1 after the second string.
pub const DAMAGED: [u8; 30] = [
    4, 0, 0, 0, 2, 0, 0, 0, 16, 0, 0, 0, 4, 0, 0, 0, 1, 0, 0, 0, 66, 1, 0, 0, 1, 0, 0, 0, 65, 0,
];

const ALL: [u16; 5] = [1, 2, 3, 4, 5];

fn check_short_list(test: &Test<'_>) {
    let short = numbers(&[4, 0, 0, 0, 3, 0, 0, 0, 1, 0]);
    check_eq(
        test,
        &short.err(),
        &Some(ErrorKind::InvalidLength),
        "a list past the end",
    );
}

type Parts<'a, C> = SubViews<Vector<'a, u16>, C>;

fn check_fronts<C: Cut>(test: &Test<'_>, mut parts: Parts<'_, C>, want: &[&[u16]], row: &str) {
    for part in want {
        check_some(test, parts.next(), part, row);
    }
    check(test, parts.next().is_none(), row);
}

fn check_backs<C: Cut>(test: &Test<'_>, mut parts: Parts<'_, C>, want: &[&[u16]], row: &str) {
    for part in want {
        check_some(test, parts.next_back(), part, row);
    }
    check(test, parts.next_back().is_none(), row);
}

fn check_some_parts(test: &Test<'_>, five: Vector<'_, u16>) {
    check_fronts(
        test,
        five.rchunks(2),
        &[&[4, 5], &[2, 3], &[1]],
        "chunks from the back",
    );
    check_some(test, five.rchunks(2).next_back(), &[1], "the last of these");
    check_has(
        test,
        five.rchunks_exact(2).remainder(),
        &[1],
        "what they leave",
    );
    check_backs(
        test,
        five.windows(2),
        &[&[4, 5], &[3, 4], &[2, 3], &[1, 2]],
        "windows",
    );
    check_some(test, five.chunks(2).nth(1), &[3, 4], "the second chunk");
    check_some(
        test,
        five.chunks(2).nth_back(1),
        &[3, 4],
        "the second of the back",
    );
    check_some(
        test,
        five.rchunks(2).nth_back(1),
        &[2, 3],
        "the second of the back's",
    );
}

fn check_items(test: &Test<'_>, five: Vector<'_, u16>, max: usize) {
    let mut items = five.iter();
    check_eq(test, &items.nth(9), &None, "the tenth item");
    check_eq(test, &items.next(), &None, "an item after it");
    check_eq(test, &five.iter().nth(max), &None, "the greatest item");
    check_eq(test, &five.get(2), &Some(3), "the third item");
    check_eq(test, &five.get(5), &None, "the sixth item");
}

// By each cut: the first of as many parts, and none past the end.
fn check_parts<C: Cut>(
    test: &Test<'_>,
    mut parts: Parts<'_, C>,
    count: usize,
    first: &[u16],
    row: &str,
) {
    check_eq(test, &parts.clone().unwrap().count(), &count, row);
    match parts.next() {
        Some(part) => check_has(test, part, first, row),
        None => check_eq(test, &0, &count, row),
    }
    check(test, parts.nth(usize::MAX).is_none(), row);
}

struct Cuts<'a> {
    chunks: usize,
    exact: usize,
    windows: usize,
    front: &'a [u16],
    back: &'a [u16],
    remainder: &'a [u16],
}

fn check_cuts(test: &Test<'_>, five: Vector<'_, u16>, size: usize, cuts: &Cuts<'_>)
    requires { 0 < size }
{
    check_parts(test, five.chunks(size), cuts.chunks, cuts.front, "chunks");
    check_parts(
        test,
        five.rchunks(size),
        cuts.chunks,
        cuts.back,
        "chunks from the back",
    );
    check_parts(
        test,
        five.chunks_exact(size),
        cuts.exact,
        cuts.front,
        "exact chunks",
    );
    check_parts(
        test,
        five.rchunks_exact(size),
        cuts.exact,
        cuts.back,
        "exact from the back",
    );
    check_parts(
        test,
        five.windows(size),
        cuts.windows,
        cuts.front,
        "windows",
    );
    check_has(
        test,
        five.chunks_exact(size).remainder(),
        cuts.remainder,
        "the remainder",
    );
}

const OF_TWO: Cuts<'static> = Cuts {
    chunks: 3,
    exact: 2,
    windows: 4,
    front: &[1, 2],
    back: &[4, 5],
    remainder: &[5],
};

const LONGER_THAN_ALL: Cuts<'static> = Cuts {
    chunks: 1,
    exact: 0,
    windows: 0,
    front: &ALL,
    back: &ALL,
    remainder: &ALL,
};

fn check_all_parts(test: &Test<'_>, five: Vector<'_, u16>, max: usize)
    requires { 0 < max }
{
    check_cuts(test, five, 2, &OF_TWO);
    check_cuts(test, five, 6, &LONGER_THAN_ALL);
    check_cuts(test, five, max, &LONGER_THAN_ALL);
    check(test, five.split_at(6).is_none(), "a split past the end");
}

#[test]
fn five_u16(rt: HostRuntime) -> Result<(), Fail> {
    let test = Test::new(&rt);
    let five = five();
    check_some_parts(&test, five);
    check_all_parts(&test, five, usize::MAX);
    check_short_list(&test);
    check_ranges(&test, five);
    check_ranges_past_the_end(&test, five, usize::MAX);
    check_items(&test, five, usize::MAX);
    check_parts_shown(&test, five);
    test.end()
}

fn check_ranges(test: &Test<'_>, five: Vector<'_, u16>) {
    let excluded = (Bound::Excluded(0), Bound::Included(2));
    check_some(test, five.get(1..3), &[2, 3], "1..3");
    check_some(test, five.get(3..), &[4, 5], "3..");
    check_some(test, five.get(5..), &[], "5..");
    check_some(test, five.get(..), &ALL, "..");
    check_some(test, five.get(1..=2), &[2, 3], "1..=2");
    check_some(test, five.get(..2), &[1, 2], "..2");
    check_some(test, five.get(..=1), &[1, 2], "..=1");
    check_some(test, five.get(excluded), &[2, 3], "after 0, to 2");
}

fn check_ranges_past_the_end(test: &Test<'_>, five: Vector<'_, u16>, max: usize) {
    check(test, five.get(3..2).is_none(), "3..2");
    check(test, five.get(2..=max).is_none(), "2..=max");
    check(test, five.get(..=max).is_none(), "..=max");
    check(
        test,
        five.get((Bound::Excluded(max), Bound::Unbounded)).is_none(),
        "after max",
    );
}

pub fn texts<'buf>(bytes: &'buf [u8]) -> Result<Vector<'buf, Result<&'buf str, Error>>, ErrorKind> {
    Vector::from_buffer(SliceWithStartOffset::new(bytes, 0), 0)
}

fn check_text(test: &Test<'_>, item: Option<Result<&str, Error>>, text: &str) {
    match item {
        Some(Ok(item)) => check_eq(test, &item, &text, text),
        Some(Err(error)) => check_prints(test, &error, text),
        None => check(test, false, text),
    }
}

fn check_damaged<'a>(test: &Test<'_>, damaged: Vector<'a, Result<&'a str, Error>>) {
    let whole = "In <[str]@8>::get(): Missing null terminator";
    let rest = "In <[str]@c>::get(): Missing null terminator";
    let mut items = damaged.iter();
    check_text(test, damaged.get(1), whole);
    check_text(test, damaged.iter().next_back(), whole);
    check_text(test, items.next(), "A");
    check_text(test, items.next(), rest);
}

fn check_texts(test: &Test<'_>) {
    let (Ok(whole), Ok(damaged)) = (texts(&TEXTS), texts(&DAMAGED)) else {
        return check(test, false, "lists of strings");
    };
    check_text(test, whole.get(0), "A");
    check_text(test, whole.iter().next_back(), "B");
    check_damaged(test, damaged);
}

#[test]
fn list_of_texts(rt: HostRuntime) -> Result<(), Fail> {
    let test = Test::new(&rt);
    check_texts(&test);
    test.end()
}
