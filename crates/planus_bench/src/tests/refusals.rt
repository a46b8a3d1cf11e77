//! Calls in which one allocation after another fails.

use super::new_builder;
use super::refused_calls::{Call, CallOutcome, make, make_again, outcome_of, prepare};
use super::refused_copies::{
    Copied, copy_numbers, copy_texts, numbers_are_copied, replay_weapon, texts_are_copied,
    weapon_is_replayed,
};
use super::runs::weapon;
use planus::{BuildError, Builder, Step};
use planus_testing::{Test, check, check_eq, check_tried, exhaust_all_but};
use std::alloc::{AllocError, Global};
use std::test::Fail;

// Bytes more at each turn, and the most turns.
const STEP: usize = 32;

const TURNS: usize = 64;

// `None` where memory was left.
fn is_refused(
    alloc: Global,
    builder: &mut Builder,
    call: Call,
    spare: usize,
) -> Result<Option<bool>, AllocError> {
    let mut held: Vec<Vec<u8>> = Vec::with_capacity(alloc, 262144)?;
    let exhausted = exhaust_all_but(alloc, &mut held, spare)?;
    let refused = matches!(make(builder, call), Err(BuildError::OutOfMemory));
    drop(held);
    Ok(if exhausted { Some(refused) } else { None })
}

fn outcome_in(
    alloc: Global,
    builder: &mut Builder,
    call: Call,
    spare: usize,
) -> Result<Option<CallOutcome>, BuildError> {
    prepare(builder, call)?;
    Ok(match is_refused(alloc, builder, call, spare)? {
        Some(true) => Some(make_again(builder, call)),
        Some(false) => Some(CallOutcome::Made { len: builder.len() }),
        None => None,
    })
}

fn outcome_with(
    alloc: Global,
    call: Call,
    spare: usize,
) -> Result<Option<CallOutcome>, BuildError> {
    let mut builder = new_builder(alloc)?;
    outcome_in(alloc, &mut builder, call, spare)
}

type Lengths = (usize, usize);

fn note(met: &mut [bool; 3], all: &[Lengths], lengths: Lengths) -> bool {
    for at in 0..all.len() {
        if all[at] == lengths && at < 3 {
            met[at] = true;
            return true;
        }
    }
    false
}

// `None` where memory was left.
fn states_met(alloc: Global, call: Call, all: &[Lengths]) -> Result<Option<usize>, BuildError> {
    let mut met = [false; 3];
    for turn in 0..TURNS {
        match outcome_with(alloc, call, turn * STEP)? {
            None => return Ok(None),
            Some(CallOutcome::MadeAgain { refused, len }) if note(&mut met, all, (refused, len)) =>
                {}
            Some(CallOutcome::Made { .. }) => return Ok(Some(
                met.iter().filter(|met| **met).count(),
            )),
            _ => return Ok(Some(0)),
        }
    }
    Ok(Some(0))
}

// Lengths at which calls may fail, and the least number of them. Two strings in a new builder need
// no allocation between them. After another string the second may fail at its 6 bytes, and then the
// count.
const CALLS: &[(&str, Call, &[Lengths], usize)] = &[
    ("a list", Call::List, &[(0, 26), (6, 26), (14, 26)], 2),
    (
        "a list behind a text",
        Call::ListBehind,
        &[(10, 36), (16, 36), (32, 44)],
        3,
    ),
    ("unions", Call::Unions, &[(14, 34), (30, 50)], 2),
    ("a weapon", Call::Weapon, &[(0, 28), (8, 28), (16, 28)], 1),
];

fn check_states(test: &Test<'_>, call: Call, all: &[Lengths], least: usize, row: &str) {
    match states_met(test.alloc(), call, all) {
        Ok(None) => check_tried(test, None, row),
        Ok(Some(states)) => check_eq(test, &states.min(least), &least, row),
        Err(error) => check_eq(test, &Some(error), &None, row),
    }
}

#[test]
fn calls_on_a_builder(rt: HostRuntime) -> Result<(), Fail> {
    let test = Test::new(&rt);
    for (name, call, all, least) in CALLS {
        check_states(&test, *call, all, *least, name);
    }
    test.end()
}

#[derive(Clone, Copy)]
enum Other {
    Numbers,
    Texts,
    Replay,
}

fn other_is_made(alloc: Global, other: Other, steps: &[Step]) -> Option<bool> {
    match other {
        Other::Numbers => numbers_are_copied(alloc),
        Other::Texts => texts_are_copied(alloc),
        Other::Replay => weapon_is_replayed(alloc, steps),
    }
}

fn other_beside(
    alloc: Global,
    held: &mut Vec<Vec<u8>>,
    other: Other,
    steps: &[Step],
    spare: usize,
) -> Result<(bool, Option<bool>), AllocError> {
    let exhausted = exhaust_all_but(alloc, held, spare)?;
    Ok((exhausted, other_is_made(alloc, other, steps)))
}

fn other_with(
    alloc: Global,
    other: Other,
    steps: &[Step],
    spare: usize,
) -> Result<(bool, Option<bool>), AllocError> {
    let mut held: Vec<Vec<u8>> = Vec::with_capacity(alloc, 262144)?;
    other_beside(alloc, &mut held, other, steps, spare)
}

fn refusals_of(
    alloc: Global,
    other: Other,
    more: usize,
    steps: &[Step],
) -> Result<Option<usize>, AllocError> {
    for turn in 0..TURNS {
        let spare = turn.saturating_mul(more);
        let (exhausted, made) = other_with(alloc, other, steps, spare)?;
        if !exhausted {
            return Ok(None);
        }
        if made == Some(true) {
            return Ok(Some(turn));
        }
        if made.is_none() || other_is_made(alloc, other, steps) != Some(true) {
            return Ok(Some(0));
        }
    }
    Ok(Some(0))
}

// Additional bytes at each turn, and the least number of failing turns: numbers take 10 bytes, five
// strings 120.
const OTHERS: &[(&str, Other, usize, usize)] = &[
    ("numbers", Other::Numbers, STEP, 1),
    ("texts", Other::Texts, STEP, 5),
    ("a replay", Other::Replay, 64, 3),
];

fn check_refusals(
    test: &Test<'_>,
    other: Other,
    more: usize,
    steps: &[Step],
    least: usize,
    row: &str,
) {
    match refusals_of(test.alloc(), other, more, steps) {
        Ok(None) => check_tried(test, None, row),
        Ok(Some(turns)) => check_eq(test, &turns.min(least), &least, row),
        Err(_) => check(test, false, row),
    }
}

#[test]
fn calls_on_no_builder(rt: HostRuntime) -> Result<(), Fail> {
    let steps = weapon(rt.alloc())?;
    let test = Test::new(&rt);
    for (name, other, more, least) in OTHERS {
        check_refusals(&test, *other, *more, steps.as_slice(), *least, name);
    }
    test.end()
}

fn is_mended(alloc: Global, call: Call, all: &[Lengths]) -> bool {
    match outcome_of(alloc, call) {
        CallOutcome::NotBegun => true,
        CallOutcome::Made { len } => matches!(all, [(_, want), ..] if *want == len),
        CallOutcome::MadeAgain { refused, len } => note(&mut [false; 3], all, (refused, len)),
        CallOutcome::Wrong => false,
    }
}

// The script beside this crate makes one allocation of this test fail after another.
#[test]
fn calls_with_one_request_refused(rt: HostRuntime) -> Result<(), Fail> {
    let test = Test::new(&rt);
    for (name, call, all, _least) in CALLS {
        check(&test, is_mended(rt.alloc(), *call, all), name);
    }
    let copied = [
        ("copied numbers", copy_numbers(rt.alloc())),
        ("copied strings", copy_texts(rt.alloc())),
        ("a replayed weapon", replay_weapon(rt.alloc())),
    ];
    for (name, call) in copied {
        check(&test, !matches!(call, Copied::Wrong), name);
    }
    test.end()
}
