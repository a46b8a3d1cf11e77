use super::{WEAPON, check_lines, schema_of};
use planus::{Caches, Field, FieldValue, ReplayError, Step, Why};
use planus_dump::{DumpError, DumpRunError, dump_run};
use planus_testing::{Test, check, check_eq};
use std::alloc::{AllocError, Global};
use std::test::Fail;

fn weapon(alloc: Global, finishes: usize) -> Result<Vec<Step>, AllocError> {
    let mut steps = Vec::new(alloc);
    steps.push(Step::Text(String::from_str(alloc, "Axe")?))?;
    steps.push(Step::Table(fields(alloc)?))?;
    push_finishes(&mut steps, finishes)?;
    Ok(steps)
}

fn fields(alloc: Global) -> Result<Vec<Field>, AllocError> {
    let (name, damage) = (
        FieldValue::Ref(0),
        FieldValue::Number {
            width: 2,
            value: 24,
        },
    );
    let mut fields = Vec::new(alloc);
    for (slot, value) in [(0, name), (1, damage)] {
        fields.push(Field { slot, value })?;
    }
    Ok(fields)
}

fn push_finishes(steps: &mut Vec<Step>, finishes: usize) -> Result<(), AllocError> {
    for _ in 0..finishes {
        steps.push(Step::Finish { root: 1, id: None })?;
    }
    Ok(())
}

fn check_run(
    test: &Test<'_>,
    steps: &[Step],
    budget: usize,
    want: Result<&[&str], DumpRunError>,
) -> Result<(), AllocError> {
    let schema = schema_of(test.alloc(), (&[("Weapon", WEAPON)], &[]))?;
    match (
        dump_run(test.alloc(), Caches::all(), steps, &schema, budget),
        want,
    ) {
        (Ok(Some(lines)), Ok(want)) => check_lines(test, lines.as_slice(), want),
        (Ok(None), Ok(want)) => check_lines(test, &[], want),
        (answer, want) => check_eq(test, &answer.err(), &want.err(), "a run's dump"),
    }
    Ok(())
}

fn check_weapon(
    test: &Test<'_>,
    finishes: usize,
    budget: usize,
    want: Result<&[&str], DumpRunError>,
) -> Result<(), AllocError> {
    let steps = weapon(test.alloc(), finishes)?;
    check_run(test, steps.as_slice(), budget, want)
}

#[test]
fn weapons_are_dumped(rt: HostRuntime) -> Result<(), Fail> {
    let test = Test::new(&rt);
    let lines: &[&str] = &[
        "root: table Weapon",
        "root.name = \"Axe\"",
        "root.damage = 24",
    ];
    let rows = [
        (0, 3, Ok(&[] as &[&str])),
        (1, 3, Ok(lines)),
        (2, 3, Ok(lines)),
        (1, 2, Err(DumpRunError::Dump(DumpError::TooManyLines))),
    ];
    for (finishes, budget, want) in rows {
        let done = check_weapon(&test, finishes, budget, want);
        check(&test, done.is_ok(), "memory for a weapon's steps");
    }
    let (bad, why) = ([Step::Finish { root: 0, id: None }], Why::NoSuchStep);
    let want = Err(DumpRunError::Replay(ReplayError::BadStep { step: 0, why }));
    check(
        &test,
        check_run(&test, &bad, 3, want).is_ok(),
        "memory for a bad step",
    );
    test.end()
}
