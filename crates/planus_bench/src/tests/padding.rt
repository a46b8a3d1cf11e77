//! `Promises` beside a plain program, which finds padding by trying.
ghost use Rattle.std.specs.Prelude.{◌≡◌, ◌+◌, ◌≤◌, IfSome};
ghost use Rattle.planus_back.specs.Padding.{greatest_place};
ghost use Rattle.planus_bench.specs.Pairs.{period, AlignmentsAboveZero, DistancesWithin};

use super::alignments::mask_of;
use super::plain_padding::least_padding;
use planus_back::Promises;
use planus_testing::{Test, check, check_eq};
use std::alloc::AllocError;
use std::test::Fail;

fn request(
    promises: Promises,
    len: usize,
    size: usize,
    alignment: usize,
) -> Option<(Promises, usize)>
    ensures { IfSome result (λ r. len + r.1 + size ≤ greatest_place) }
{
    let mask = mask_of(alignment);
    if len > 2147483647 {
        return None;
    }
    match promises.request(len, size, mask) {
        Ok(granted) => Some(granted),
        Err(_) => None,
    }
}

fn checked_period(len: usize, promises: &[(usize, usize)]) -> Option<usize>
    ensures { IfSome result (λ p. AlignmentsAboveZero promises.now × DistancesWithin len
        promises.now × (p ≡ period promises.now)) }
{
    match promises {
        [] => Some(1),
        [first, rest @ ..] => {
            let after = checked_period(len, rest)?;
            if first.0 > len || first.1 == 0 {
                return None;
            }
            first.1.checked_mul(after)
        }
    }
}

fn plainly(
    len: usize,
    promises: &[(usize, usize)],
    size: usize,
    alignment: usize,
) -> Option<usize> {
    let period = checked_period(len, promises)?;
    let tries = alignment.checked_mul(period)?;
    if alignment == 0 || alignment > 65536 || len > 65536 || size > 65536 || tries > 65536 {
        return None;
    }
    least_padding(len, promises, size, alignment)
}

// The paddings of both programs, which must be the same.
fn check_paddings(
    test: &Test<'_>,
    parts: &[(usize, usize)],
    row: &str,
) -> Result<Vec<usize>, AllocError> {
    let mut paddings = Vec::with_capacity(test.alloc(), parts.len())?;
    let mut pairs: Vec<(usize, usize)> = Vec::with_capacity(test.alloc(), parts.len())?;
    let mut promises = Promises::new();
    let mut len = 0;
    for (size, alignment) in parts {
        let Some((next, padding)) = request(promises, len, *size, *alignment) else {
            check(test, false, row);
            return Ok(paddings);
        };
        let plain = plainly(len, pairs.as_slice(), *size, *alignment);
        check_eq(test, &Some(padding), &plain, row);
        len += padding + *size;
        pairs.push((len, *alignment))?;
        paddings.push(padding)?;
        promises = next;
    }
    Ok(paddings)
}

fn check_row(
    test: &Test<'_>,
    row: &str,
    parts: &[(usize, usize)],
    want: &[usize],
) -> Result<(), AllocError> {
    let paddings = check_paddings(test, parts, row)?;
    check_eq(test, &paddings.as_slice(), &want, row);
    Ok(())
}

const ROWS: [(&str, &[(usize, usize)], &[usize]); 7] = [
    (
        "four writes",
        &[(3, 1), (4, 2), (8, 4), (7, 1), (4, 4)],
        &[0, 0, 0, 0, 1],
    ),
    (
        "after a clear",
        &[(4, 4), (1, 1), (1, 1), (8, 8), (4, 8)],
        &[0, 0, 0, 2, 4],
    ),
    (
        "a string and two finishes",
        &[(8, 4), (4, 4), (4, 4)],
        &[0, 0, 0],
    ),
    (
        "a string, then a vector of one `u64`",
        &[(7, 4), (8, 8), (4, 1), (4, 8)],
        &[0, 0, 0, 0],
    ),
    (
        "a weapon",
        &[(8, 4), (8, 2), (6, 4), (4, 1), (4, 4)],
        &[0, 0, 2, 0, 0],
    ),
    (
        "two strings and a vector of two unions",
        &[(6, 4), (6, 4), (8, 4), (4, 1), (2, 4), (4, 1)],
        &[0, 2, 0, 0, 2, 0],
    ),
    (
        "a table with one `u16`",
        &[(6, 2), (2, 4), (4, 1), (4, 4)],
        &[0, 0, 0, 0],
    ),
];

#[test]
fn worked_rows(rt: HostRuntime) -> Result<(), Fail> {
    let test = Test::new(&rt);
    for (row, parts, want) in ROWS {
        check(&test, check_row(&test, row, parts, want).is_ok(), row);
    }
    test.end()
}

fn check_values(test: &Test<'_>, rows: &[[usize; 6]]) {
    let mut promises = Promises::new();
    for [len, size, alignment, padding, delayed, mask] in rows {
        match request(promises, *len, *size, *alignment) {
            Some((next, got)) => {
                let got = [got, next.delayed(), next.mask()];
                check_eq(
                    test,
                    &got,
                    &[*padding, *delayed, *mask],
                    "padding, delay and mask",
                );
                promises = next;
            }
            None => check(test, false, "a request"),
        }
    }
}

#[test]
fn values_after_each_part(rt: HostRuntime) -> Result<(), Fail> {
    let test = Test::new(&rt);
    let rows = [
        [0, 5, 1, 0, 0, 0],
        [5, 4, 16, 0, 0, 15],
        [9, 1, 1, 0, 15, 15],
        [10, 2, 8, 5, 8, 15],
        [17, 4, 16, 4, 0, 15],
    ];
    check_values(&test, &rows);
    test.end()
}

fn part(number: usize) -> (usize, usize) {
    (number / 4, 1 << (number % 4))
}

fn check_three(test: &Test<'_>, a: usize, b: usize, c: usize) -> Result<(), AllocError> {
    let parts = [part(a), part(b), part(c)];
    check_paddings(test, &parts, "three parts")?;
    Ok(())
}

#[test]
fn short_lists_as_the_plain_program_has_them(rt: HostRuntime) -> Result<(), Fail> {
    let test = Test::new(&rt);
    for a in 0..24 {
        for b in 0..24 {
            for c in 0..24 {
                check(
                    &test,
                    check_three(&test, a, b, c).is_ok(),
                    "memory for paddings",
                );
            }
        }
    }
    test.end()
}

#[test]
fn alignments_that_no_padding_meets(rt: HostRuntime) -> Result<(), Fail> {
    let test = Test::new(&rt);
    check_eq(&test, &plainly(3, &[(1, 6), (2, 4)], 1, 1), &None, "none");
    check_eq(&test, &plainly(3, &[(1, 6)], 1, 4), &Some(1), "one");
    test.end()
}
