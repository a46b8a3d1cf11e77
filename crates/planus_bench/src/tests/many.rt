//! Thousands of different contents of each kind, each written twice.

use super::caches::text_at;
use super::runs::{add, add_field, add_finish};
use super::settings::Kind;
use planus::{BuildError, Builder, Caches, Field, FieldValue, Step, StepPlace, replay};
use planus_testing::{Test, check, check_eq, in_builder};
use std::alloc::{AllocError, Global};
use std::test::Fail;

fn letters(alloc: Global, number: usize) -> Result<String, AllocError> {
    let number = number.saturating_add(1000000);
    Ok(format!(in alloc; "{number}")?)
}

fn bytes(alloc: Global, number: usize) -> Result<Step, AllocError> {
    Ok(Step::Bytes(Vec::from_slice(alloc, &(number as u64).to_le_bytes())?))
}

fn add_byte(fields: &mut Vec<Field>, slot: u16) -> Result<(), AllocError> {
    add_field(fields, slot, FieldValue::Number { width: 1, value: 7 })
}

// Three bytes, with a different vtable for each number below 71 * 71.
fn table(alloc: Global, number: usize) -> Result<Step, AllocError> {
    let first = (number / 71 % 71) as u16;
    let second = (number % 71) as u16 + 71;
    let mut fields = Vec::new(alloc);
    add_byte(&mut fields, first)?;
    add_byte(&mut fields, second)?;
    add_byte(&mut fields, 143)?;
    Ok(Step::Table(fields))
}

fn value(alloc: Global, kind: Kind, number: usize) -> Result<Step, AllocError> {
    match kind {
        Kind::Text => Ok(Step::Text(letters(alloc, number)?)),
        Kind::Bytes => bytes(alloc, number),
        Kind::Vtable => table(alloc, number),
    }
}

fn push_values(
    alloc: Global,
    steps: &mut Vec<Step>,
    kind: Kind,
    count: usize,
) -> Result<(), AllocError> {
    for number in 0..count {
        add(steps, value(alloc, kind, number))?;
    }
    Ok(())
}

fn push_values_twice(
    alloc: Global,
    steps: &mut Vec<Step>,
    kind: Kind,
    count: usize,
) -> Result<(), AllocError> {
    push_values(alloc, steps, kind, count)?;
    push_values(alloc, steps, kind, count)?;
    add_finish(steps, 0)
}

fn values_twice(alloc: Global, kind: Kind, count: usize) -> Result<Vec<Step>, AllocError> {
    let mut steps = Vec::new(alloc);
    push_values_twice(alloc, &mut steps, kind, count)?;
    Ok(steps)
}

// The first value's distance, and the distance between neighbours.
type Stands = (usize, usize);

fn check_places(test: &Test<'_>, places: &[StepPlace], (first, apart): Stands, row: &str) {
    let mut distance = first;
    for place in places {
        check_eq(test, &(place.distance as usize), &distance, row);
        distance = distance.wrapping_add(apart);
    }
}

fn check_halves(test: &Test<'_>, places: &[StepPlace], count: usize, want: [Stands; 2]) {
    let [first, second] = want;
    match (places.get(..count), places.get(count..)) {
        (Some(new), Some(again)) => {
            check_eq(
                test,
                &again.len(),
                &count,
                "the values that are written again",
            );
            check_places(test, new, first, "a new value");
            check_places(test, again, second, "a value again");
        }
        _ => check_eq(test, &places.len(), &count, "the values"),
    }
}

fn check_steps(test: &Test<'_>, steps: &[Step], hash_mask: u64, count: usize, want: [Stands; 2]) {
    let caches = Caches {
        hash_mask,
        ..Caches::all()
    };
    match replay(test.alloc(), caches, steps) {
        Ok(finished) => match finished.as_slice() {
            [one] => check_halves(test, one.places.as_slice(), count, want),
            all => check_eq(test, &all.len(), &1, "the finishes"),
        },
        Err(error) => check_eq(test, &Some(error), &None, "a replay"),
    }
}

fn check_values(
    test: &Test<'_>,
    kind: Kind,
    hash_mask: u64,
    count: usize,
    want: [Stands; 2],
) -> Result<(), AllocError> {
    let steps = values_twice(test.alloc(), kind, count)?;
    check_steps(test, steps.as_slice(), hash_mask, count, want);
    Ok(())
}

// With none of a hash's bits all contents are compared.
fn check_masks(test: &Test<'_>, kind: Kind, want: [Stands; 2], row: &str) {
    for mask in [u64::MAX, 0] {
        check(
            test,
            check_values(test, kind, mask, 5003, want).is_ok(),
            row,
        );
    }
}

// A string is its count, seven letters and a zero; a byte vector is its count and eight bytes.
#[test]
fn texts_and_byte_lists_are_found_again(rt: HostRuntime) -> Result<(), Fail> {
    let test = Test::new(&rt);
    let want = [(12, 12), (12, 12)];
    check_masks(&test, Kind::Text, want, "memory for strings");
    check_masks(&test, Kind::Bytes, want, "memory for byte vectors");
    test.end()
}

// A vtable has 292 bytes. A table before it takes seven, and one of padding.
#[test]
fn vtables_are_found_again(rt: HostRuntime) -> Result<(), Fail> {
    let test = Test::new(&rt);
    let want = [(300, 300), (1500908, 8)];
    check_masks(&test, Kind::Vtable, want, "memory for tables");
    test.end()
}

fn check_text(
    test: &Test<'_>,
    builder: &mut Builder,
    letters: &str,
    distance: usize,
) -> Result<(), BuildError> {
    let found = text_at(builder, letters)?;
    check_eq(test, &(found as usize), &distance, letters);
    Ok(())
}

fn check_number(
    test: &Test<'_>,
    builder: &mut Builder,
    number: usize,
    distance: usize,
) -> Result<(), BuildError> {
    let letters = letters(test.alloc(), number)?;
    check_text(test, builder, letters.as_str(), distance)
}

fn check_texts(test: &Test<'_>, builder: &mut Builder, count: usize) -> Result<(), BuildError> {
    for number in 0..count {
        let distance = number.saturating_add(1).saturating_mul(12);
        check_number(test, builder, number, distance)?;
    }
    Ok(())
}

fn check_counts(test: &Test<'_>, builder: &mut Builder) -> Result<(), BuildError> {
    for count in [5003, 3, 5, 5003, 3] {
        builder.clear();
        check_texts(test, builder, count)?;
        check_texts(test, builder, count)?;
    }
    Ok(())
}

#[test]
fn few_texts_after_many(rt: HostRuntime) -> Result<(), Fail> {
    let test = Test::new(&rt);
    in_builder(&test, Caches::all(), check_counts);
    test.end()
}
