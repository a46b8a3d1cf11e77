use super::failing_ends::{PRINTED, SCRIPT};
use super::long_scripts::{push_references, push_text, push_text_step};
use super::weapon::{check_root, weapon};
use super::{answers, check_answer, check_script, finish_with, ran};
use planus::{BuildError, Builder};
use planus_dump::Schema;
use planus_script::run::RunError;
use planus_testing::{
    Test, check, check_bytes, check_distance, check_eq, check_tried, exhaust, exhaust_all_but,
};
use std::alloc::{AllocError, Global};
use std::test::Fail;

fn exhaust_but(alloc: Global, held: &mut Vec<Vec<u8>>, spare: usize) -> Result<bool, AllocError> {
    let given_back: Vec<u8> = Vec::with_capacity(alloc, spare)?;
    let exhausted = exhaust(alloc, held)?;
    drop(given_back);
    Ok(exhausted)
}

fn ran_without_memory(
    alloc: Global,
    schema: Option<&Schema>,
    script: &[u8],
    spare: usize,
    printed: &mut Vec<u8>,
) -> Result<(bool, Result<bool, RunError>), AllocError> {
    let mut held: Vec<Vec<u8>> = Vec::with_capacity(alloc, 262144)?;
    let exhausted = exhaust_but(alloc, &mut held, spare)?;
    let mut reader = script;
    let answer = answers(alloc, schema, &mut reader, printed);
    drop(held);
    Ok((exhausted, answer))
}

// Some 64 bytes of what is printed have room.
fn check_ran(
    test: &Test<'_>,
    schema: Option<&Schema>,
    script: &[u8],
    spare: usize,
    want: (Result<bool, RunError>, u8),
    text: &str,
) -> Result<bool, AllocError> {
    let mut printed: Vec<u8> = Vec::with_capacity(test.alloc(), 64)?;
    let (exhausted, answer) = ran_without_memory(
        test.alloc(),
        schema,
        script,
        spare,
        &mut printed,
    )?;
    if exhausted {
        check_answer(test, answer, want, "without memory");
        check_bytes(test, printed.as_slice(), text.as_bytes(), "without memory");
    }
    Ok(exhausted)
}

pub fn check_without_memory(
    test: &Test<'_>,
    schema: Option<&Schema>,
    script: &[u8],
    spare: usize,
    want: (Result<bool, RunError>, u8),
    text: &str,
) {
    match check_ran(test, schema, script, spare, want, text) {
        Ok(true) => {}
        Ok(false) => check_tried(test, None, "without memory"),
        Err(_) => check(test, false, "memory for 64 bytes"),
    }
}

#[test]
fn refused_memory(rt: HostRuntime) -> Result<(), Fail> {
    let test = Test::new(&rt);
    let script = b"text Axe\nfinish 0\n";
    let want = (Err(RunError::OutOfMemory), 2);
    check_without_memory(&test, None, script, 0, want, "");
    let printed = b"04 00 00 00 03 00 00 00 41 78 65 00\n";
    check_script(&test, script, 0, printed, true, "again");
    test.end()
}

fn push_finishes(script: &mut Vec<u8>) -> Result<(), AllocError> {
    push_text_step(script, 50003)?;
    for _ in 0..100usize {
        script.extend_from_slice(b"finish 0\n")?;
    }
    Ok(())
}

fn push_finished(printed: &mut Vec<u8>) -> Result<(), AllocError> {
    for count in 1..101 {
        push_references(printed, count)?;
        push_text(printed, 50003)?;
    }
    Ok(())
}

fn check_finishes(test: &Test<'_>, script: &[u8]) -> Result<(), AllocError> {
    let mut want = Vec::new(test.alloc());
    push_finished(&mut want)?;
    check_script(test, script, 0, want.as_slice(), true, "a hundred finishes");
    Ok(())
}

// Where the finishes don't fit in 4 MiB, `out of memory` is printed.
fn check_many_finishes(test: &Test<'_>) -> Result<(), AllocError> {
    let mut script = Vec::new(test.alloc());
    push_finishes(&mut script)?;
    let (script, want) = (script.as_slice(), (Ok(false), 1));
    check_without_memory(test, None, script, 4194304, want, "out of memory\n");
    check_finishes(test, script)
}

#[test]
fn out_of_memory_is_printed(rt: HostRuntime) -> Result<(), Fail> {
    let test = Test::new(&rt);
    check(
        &test,
        check_many_finishes(&test).is_ok(),
        "memory for a script",
    );
    test.end()
}

const TURNS: usize = 1024;

#[derive(Clone, Copy)]
enum Call {
    Axe,
    Run,
}

#[derive(Clone, Copy)]
enum Turn {
    // Memory was left where none should have been.
    NotApplied,
    Made,
    // Fails, and leaves this number of bytes.
    Refused(usize),
    Wrong,
}

fn axe_is_refused(
    alloc: Global,
    builder: &mut Builder,
    spare: usize,
) -> Result<Option<bool>, AllocError> {
    let mut held: Vec<Vec<u8>> = Vec::with_capacity(alloc, 262144)?;
    let exhausted = exhaust_all_but(alloc, &mut held, spare)?;
    let refused = matches!(weapon(builder, "Axe", 24), Err(BuildError::OutOfMemory));
    drop(held);
    Ok(if exhausted { Some(refused) } else { None })
}

fn check_axe(test: &Test<'_>, builder: &mut Builder) -> Result<(), BuildError> {
    let axe = weapon(builder, "Axe", 24)?;
    check_root(
        test,
        finish_with(builder, axe)?,
        (Some("Axe"), 24),
        "an axe after a refusal",
    );
    check_distance(test, axe, 28, "an axe after a refusal");
    Ok(())
}

fn axe_in(test: &Test<'_>, builder: &mut Builder, spare: usize) -> Result<Turn, BuildError> {
    match axe_is_refused(test.alloc(), builder, spare)? {
        None => Ok(Turn::NotApplied),
        Some(false) => Ok(Turn::Made),
        Some(true) => {
            let len = builder.len();
            check_axe(test, builder)?;
            Ok(Turn::Refused(len))
        }
    }
}

fn axe_with(test: &Test<'_>, spare: usize) -> Result<Turn, BuildError> {
    let mut builder = Builder::new(test.alloc())?;
    axe_in(test, &mut builder, spare)
}

fn ran_with(
    alloc: Global,
    spare: usize,
    printed: &mut Vec<u8>,
) -> Result<(bool, Result<bool, RunError>), AllocError> {
    let mut held: Vec<Vec<u8>> = Vec::with_capacity(alloc, 262144)?;
    let exhausted = exhaust_all_but(alloc, &mut held, spare)?;
    let (answer, _) = ran(alloc, SCRIPT, printed);
    drop(held);
    Ok((exhausted, answer))
}

fn run_with(test: &Test<'_>, spare: usize) -> Result<Turn, BuildError> {
    let mut printed: Vec<u8> = Vec::with_capacity(test.alloc(), 128)?;
    let (exhausted, answer) = ran_with(test.alloc(), spare, &mut printed)?;
    check_script(test, SCRIPT, 0, PRINTED, true, "a run after a refusal");
    let printed = printed.as_slice();
    Ok(match answer {
        _ if !exhausted => Turn::NotApplied,
        Err(RunError::OutOfMemory) if printed.is_empty() => Turn::Refused(0),
        Ok(false) if printed == b"out of memory\n".as_slice() => Turn::Refused(printed.len()),
        Ok(true) if printed == PRINTED => Turn::Made,
        _ => {
            check_eq(test, &answer, &Ok(true), "a run with little memory");
            check_bytes(test, printed, PRINTED, "a run with little memory");
            Turn::Wrong
        }
    })
}

fn note(met: &mut [bool; 3], all: &[usize], left: usize) -> bool {
    for (at, known) in all.iter().enumerate() {
        if *known == left && at < 3 {
            met[at] = true;
            return true;
        }
    }
    false
}

fn states_met(
    test: &Test<'_>,
    call: Call,
    more: usize,
    all: &[usize],
) -> Result<Option<usize>, BuildError> {
    let mut met = [false; 3];
    for turn in 0..TURNS {
        let spare = turn.saturating_mul(more);
        let turn = match call {
            Call::Axe => axe_with(test, spare)?,
            Call::Run => run_with(test, spare)?,
        };
        match turn {
            Turn::NotApplied => return Ok(None),
            Turn::Made => return Ok(Some(met.iter().filter(|met| **met).count())),
            Turn::Refused(left) if note(&mut met, all, left) => {}
            _ => return Ok(Some(0)),
        }
    }
    Ok(Some(0))
}

fn check_states(test: &Test<'_>, call: Call, more: usize, all: &[usize], least: usize, row: &str) {
    match states_met(test, call, more, all) {
        Ok(None) => check_tried(test, None, row),
        Ok(Some(states)) => check_eq(test, &states.min(least), &least, row),
        Err(error) => check_eq(test, &Some(error), &None, row),
    }
}

// An axe fails at its name, vtable or table; a run before the steps, or later.
#[test]
fn one_refusal_after_the_other(rt: HostRuntime) -> Result<(), Fail> {
    let test = Test::new(&rt);
    check_states(&test, Call::Axe, 32, &[0, 8, 16], 1, "states of an axe");
    check_states(&test, Call::Run, 64, &[0, 14], 2, "states of a run");
    test.end()
}
