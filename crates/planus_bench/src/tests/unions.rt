use super::plain_run::plain_run;
use super::runs::{add, add_field, add_finish, word};
use super::settings::CacheSettings;
use planus::{Caches, FieldValue, Finished, Step, StepPlace, replay};
use planus_testing::{Test, check_bytes, check_eq};
use std::alloc::{AllocError, Global};
use std::test::Fail;

// A table at 4 with its vtable at 16. Slots 0 and 1 hold two unions, of tags 1 and 2 and the
// strings `A` and `B`.
const TWO_TEXTS: [u8; 58] = [
    4, 0, 0, 0, 0xf4, 0xff, 0xff, 0xff, 16, 0, 0, 0, 20, 0, 0, 0, 8, 0, 12, 0, 4, 0, 8, 0, 2, 0, 0,
    0, 1, 2, 0, 0, 2, 0, 0, 0, 16, 0, 0, 0, 4, 0, 0, 0, 1, 0, 0, 0, b'B', 0, 0, 0, 1, 0, 0, 0,
    b'A', 0,
];

fn tags_and_values(alloc: Global, unions: usize) -> Result<Step, AllocError> {
    let mut fields = Vec::new(alloc);
    add_field(&mut fields, 0, FieldValue::Tags(unions))?;
    add_field(&mut fields, 1, FieldValue::Values(unions))?;
    Ok(Step::Table(fields))
}

fn two_unions(alloc: Global) -> Result<Step, AllocError> {
    Ok(Step::Unions(Vec::from_slice(alloc, &[(1, 0), (2, 1)])?))
}

fn push_steps(alloc: Global, steps: &mut Vec<Step>) -> Result<(), AllocError> {
    add(steps, word(alloc, "A"))?;
    add(steps, word(alloc, "B"))?;
    add(steps, two_unions(alloc))?;
    add(steps, tags_and_values(alloc, 2))?;
    add_finish(steps, 3)
}

pub fn two_texts(alloc: Global) -> Result<Vec<Step>, AllocError> {
    let mut steps = Vec::new(alloc);
    push_steps(alloc, &mut steps)?;
    Ok(steps)
}

fn check_two_texts(test: &Test<'_>, run: &[Finished], row: &str) {
    let unions = StepPlace {
        step: 2,
        distance: 26,
        tags: Some(34),
    };
    match run {
        [finished] => {
            check_bytes(test, finished.bytes.as_slice(), &TWO_TEXTS, row);
            check_eq(test, &finished.places.get(2), &Some(&unions), row);
        }
        _ => check_eq(test, &run.len(), &1, row),
    }
}

#[test]
fn two_texts_as_unions(rt: HostRuntime) -> Result<(), Fail> {
    let steps = two_texts(rt.alloc())?;
    let replayed = replay(rt.alloc(), Caches::all(), steps.as_slice())?;
    let plain = plain_run(rt.alloc(), CacheSettings::of(7), steps.as_slice())?;
    let test = Test::new(&rt);
    check_two_texts(&test, replayed.as_slice(), "a replay");
    check_two_texts(&test, plain.as_slice(), "a plain run");
    test.end()
}
