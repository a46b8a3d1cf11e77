use super::runs::{add, add_field, add_finish, word};
use planus::{
    BuildError, Builder, Caches, FieldValue, Finished, ReplayError, SliceWithStartOffset, Step,
    TableRead, Why, check_version_compatibility, replay,
};
use planus_testing::{Test, check, check_bytes, check_eq, check_prints, in_builder};
use std::alloc::{AllocError, Global};
use std::test::Fail;

#[test]
fn this_version_alone(rt: HostRuntime) -> Result<(), Fail> {
    let test = Test::new(&rt);
    for (version, want) in [
        ("planus-1.3.0", true),
        ("planus-1.3.1", false),
        ("planus-1.3.0 ", false),
        ("1.3.0", false),
        ("", false),
    ] {
        check_eq(&test, &check_version_compatibility(version), &want, version);
    }
    test.end()
}

fn check_a_text(test: &Test<'_>, builder: &mut Builder) -> Result<(), BuildError> {
    let bytes = builder.finish("Axe", Some(*b"TEST"))?;
    let text = <&str as TableRead>::from_buffer(SliceWithStartOffset::new(bytes, 0), 0);
    check_bytes(test, bytes, b"\x08\0\0\0TEST\x03\0\0\0Axe\0", "a text");
    check_eq(test, &text, &Ok("Axe"), "a text that is read back");
    Ok(())
}

#[test]
fn a_text_is_written_and_read_back(rt: HostRuntime) -> Result<(), Fail> {
    let test = Test::new(&rt);
    in_builder(&test, Caches::all(), check_a_text);
    test.end()
}

fn odd_width(alloc: Global, in_table: bool) -> Result<Step, AllocError> {
    if in_table {
        let mut fields = Vec::new(alloc);
        add_field(&mut fields, 0, FieldValue::Number { width: 3, value: 1 })?;
        return Ok(Step::Table(fields));
    }
    let items = Vec::from_slice(alloc, &[1])?;
    Ok(Step::Numbers { width: 3, items })
}

fn push_behind_a_text(
    alloc: Global,
    steps: &mut Vec<Step>,
    in_table: bool,
) -> Result<(), AllocError> {
    add(steps, word(alloc, "Axe"))?;
    add(steps, odd_width(alloc, in_table))
}

fn check_width(test: &Test<'_>, in_table: bool, row: &str) -> Result<(), AllocError> {
    let mut steps = Vec::new(test.alloc());
    push_behind_a_text(test.alloc(), &mut steps, in_table)?;
    let refusal = replay(test.alloc(), Caches::all(), steps.as_slice()).err();
    let why = Why::WidthUnknown;
    check_eq(
        test,
        &refusal,
        &Some(ReplayError::BadStep { step: 1, why }),
        row,
    );
    Ok(())
}

#[test]
fn a_width_that_numbers_cannot_have(rt: HostRuntime) -> Result<(), Fail> {
    let test = Test::new(&rt);
    for (in_table, row) in [(false, "a list"), (true, "a table")] {
        check(&test, check_width(&test, in_table, row).is_ok(), row);
    }
    check_prints(&test, &Why::WidthUnknown, "width unknown");
    test.end()
}

fn check_copy(test: &Test<'_>, step: &Step) -> Result<(), AllocError> {
    let copy = step.clone()?;
    check_eq(test, &copy, step, "a step");
    check(test, copy != odd_width(test.alloc(), false)?, "two steps");
    Ok(())
}

fn check_finishes(test: &Test<'_>, finished: &[Finished]) -> Result<(), AllocError> {
    match finished {
        [first, second] => {
            check_eq(test, &first.clone()?, first, "a finish");
            check(test, first != second, "two finishes");
        }
        _ => check_eq(test, &finished.len(), &2, "the finishes"),
    }
    Ok(())
}

fn check_replay(test: &Test<'_>, steps: &mut Vec<Step>) -> Result<(), AllocError> {
    add(steps, word(test.alloc(), "Axe"))?;
    add_finish(steps, 0)?;
    add_finish(steps, 0)?;
    match replay(test.alloc(), Caches::all(), steps.as_slice()) {
        Ok(finished) => check_finishes(test, finished.as_slice())?,
        Err(error) => check_eq(test, &Some(error), &None, "a replay"),
    }
    Ok(())
}

fn check_copies(test: &Test<'_>) -> Result<(), AllocError> {
    let mut steps = Vec::new(test.alloc());
    check_copy(test, &odd_width(test.alloc(), true)?)?;
    check_replay(test, &mut steps)
}

#[test]
fn copies_are_equal(rt: HostRuntime) -> Result<(), Fail> {
    let test = Test::new(&rt);
    check(&test, check_copies(&test).is_ok(), "memory for copies");
    test.end()
}
