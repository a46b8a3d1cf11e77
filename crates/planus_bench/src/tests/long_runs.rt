use super::plain_run::plain_run;
use super::runs::{
    Named, add, add_field, add_finish, bytes, check_same, counts, list, refs, table, text,
    two_references, unions,
};
use super::settings::CacheSettings;
use planus::{Caches, Field, FieldValue, Finished, ReplayError, Step, Why, replay};
use planus_testing::{Test, check_eq};
use std::alloc::{AllocError, Global};
use std::test::Fail;

fn value(alloc: Global, number: usize) -> Result<Step, AllocError> {
    match number % 4 {
        0 => Ok(Step::Text(format!(in alloc; "{number}")?)),
        1 => {
            let named = Named {
                root: number.saturating_sub(1),
                unions: None,
            };
            table(alloc, named, number % 7, (number % 39) as u16 + 1)
        }
        2 => Ok(Step::Bytes(Vec::from_slice(alloc, &(number as u64).to_le_bytes())?)),
        _ => list(alloc, 8, number % 5),
    }
}

fn push_values(alloc: Global, steps: &mut Vec<Step>, count: usize) -> Result<(), AllocError> {
    for _ in 0..count {
        let number = steps.len();
        add(steps, value(alloc, number))?;
    }
    Ok(())
}

fn add_numbers(fields: &mut Vec<Field>, first: u16, end: u16) -> Result<(), AllocError> {
    for slot in first..end {
        let value = FieldValue::Number {
            width: 1,
            value: u64::from(slot),
        };
        add_field(fields, slot, value)?;
    }
    Ok(())
}

fn add_all_slots(fields: &mut Vec<Field>, named: Named) -> Result<(), AllocError> {
    let [first, second] = two_references(named);
    add_field(fields, 255, FieldValue::Ref(named.root))?;
    add_field(fields, 3, first)?;
    add_field(fields, 254, second)?;
    add_numbers(fields, 0, 3)?;
    add_numbers(fields, 4, 254)
}

fn full_table(alloc: Global, named: Named) -> Result<Step, AllocError> {
    let mut fields = Vec::new(alloc);
    add_all_slots(&mut fields, named)?;
    Ok(Step::Table(fields))
}

fn push_lists(
    alloc: Global,
    steps: &mut Vec<Step>,
    numbers: Result<Step, AllocError>,
    count: usize,
) -> Result<(), AllocError> {
    let first = steps.len();
    add(steps, numbers)?;
    add(steps, refs(alloc, first, count))?;
    add(steps, unions(alloc, first, count))?;
    let named = Named {
        root: first.saturating_add(1),
        unions: Some(first.saturating_add(2)),
    };
    add(steps, full_table(alloc, named))
}

fn push_finishes(steps: &mut Vec<Step>, count: usize, id: [u8; 4]) -> Result<(), AllocError> {
    let (root, id) = (steps.len().saturating_sub(1), Some(id));
    for _ in 0..count {
        add(steps, Ok(Step::Finish { root, id }))?;
    }
    Ok(())
}

fn push_short_runs(alloc: Global, steps: &mut Vec<Step>) -> Result<(), AllocError> {
    for _ in 0..300usize {
        push_values(alloc, steps, 48)?;
        let last = steps.len().saturating_sub(1);
        add_finish(steps, last)?;
        add(steps, Ok(Step::Clear))?;
    }
    Ok(())
}

fn push_long_steps(alloc: Global, steps: &mut Vec<Step>) -> Result<(), AllocError> {
    push_short_runs(alloc, steps)?;
    push_values(alloc, steps, 4999)?;
    push_lists(alloc, steps, list(alloc, 2, 5003), 2003)?;
    push_finishes(steps, 7, *b"LONG")
}

fn long_steps(alloc: Global) -> Result<Vec<Step>, AllocError> {
    let mut steps = Vec::new(alloc);
    push_long_steps(alloc, &mut steps)?;
    Ok(steps)
}

fn check_replay(test: &Test<'_>, caches: Caches, steps: &[Step], want: &[Finished]) {
    match replay(test.alloc(), caches, steps) {
        Ok(got) => check_same(test, got.as_slice(), want, "a replay"),
        Err(error) => check_eq(test, &Some(error), &None, "a replay"),
    }
}

fn check_replays(test: &Test<'_>, steps: &[Step]) -> Result<(), Fail> {
    let settings = CacheSettings::of(7);
    let want = plain_run(test.alloc(), settings, steps)?;
    for mask in [0, 1, 2, 0xff, 1 << 63, u64::MAX] {
        check_replay(test, settings.caches(mask), steps, want.as_slice());
    }
    Ok(())
}

fn push_bad_finish(steps: &mut Vec<Step>) -> Result<(), AllocError> {
    add_finish(steps, usize::MAX)
}

fn check_last(test: &Test<'_>, steps: &[Step], last: usize) {
    let want = ReplayError::BadStep {
        step: last,
        why: Why::NoSuchStep,
    };
    let error = replay(test.alloc(), Caches::all(), steps).err();
    check_eq(test, &error, &Some(want), "the last step");
}

fn check_long_steps(test: &Test<'_>, steps: &mut Vec<Step>) -> Result<(), Fail> {
    check_eq(test, &steps.len(), &20010, "the steps");
    check_eq(
        test,
        &counts(steps.as_slice()),
        &(300, 300, 7, 1),
        "their kinds",
    );
    check_replays(test, steps.as_slice())?;
    push_bad_finish(steps)?;
    check_last(test, steps.as_slice(), 20010);
    Ok(())
}

#[test]
fn a_run_of_20010_steps(rt: HostRuntime) -> Result<(), Fail> {
    let mut steps = long_steps(rt.alloc())?;
    let test = Test::new(&rt);
    let done = check_long_steps(&test, &mut steps);
    test.end_of(done)
}

fn push_long_values(alloc: Global, steps: &mut Vec<Step>) -> Result<(), AllocError> {
    add(steps, text(alloc, 100003))?;
    add(steps, bytes(alloc, 100003))?;
    push_lists(alloc, steps, list(alloc, 4, 100003), 100003)?;
    add_finish(steps, 5)
}

fn long_values(alloc: Global) -> Result<Vec<Step>, AllocError> {
    let mut steps = Vec::new(alloc);
    push_long_values(alloc, &mut steps)?;
    Ok(steps)
}

#[test]
fn values_of_100003_items(rt: HostRuntime) -> Result<(), Fail> {
    let steps = long_values(rt.alloc())?;
    let test = Test::new(&rt);
    let done = check_replays(&test, steps.as_slice());
    test.end_of(done)
}
