//! A back vector beside what was prepended, by many random steps.

use planus_back::BackVec;
use planus_testing::{Test, check, check_eq};
use std::alloc::{AllocError, Global};
use std::test::Fail;

#[derive(Drop)]
struct Draws {
    last: u32,
}

impl Draws {
    fn draw(&mut self) -> u32 {
        self.last = self.last.wrapping_mul(1664525).wrapping_add(1013904223);
        self.last / 65536
    }

    fn fill(&mut self, bytes: &mut [u8]) {
        for byte in bytes {
            *byte = (self.draw() % 256) as u8;
        }
    }
}

fn new(alloc: Global, draws: &mut Draws) -> Result<BackVec, AllocError> {
    BackVec::with_capacity(alloc, (draws.draw() % 64) as usize)
}

fn check_in_front(test: &Test<'_>, bytes: &BackVec, front: &[u8], before: &[u8]) {
    let added = bytes.len().checked_sub(front.len());
    check_eq(test, &added, &Some(before.len()), "the bytes of before");
    check(
        test,
        bytes.as_slice().starts_with(front),
        "what is in front",
    );
    check(test, bytes.as_slice().ends_with(before), "what is behind");
}

fn grow(test: &Test<'_>, bytes: &mut BackVec, draws: &mut Draws) -> Result<(), AllocError> {
    let before = Vec::from_slice(test.alloc(), bytes.as_slice())?;
    let mut front = [0; 50];
    let count = (draws.draw() % 50) as usize;
    let front = &mut front[..count];
    if draws.draw() % 2 == 1 {
        draws.fill(front);
        bytes.extend_from_slice(front)?;
    } else {
        bytes.extend_with_zeros(count)?;
    }
    check_in_front(test, bytes, front, before.as_slice());
    Ok(())
}

fn step(test: &Test<'_>, bytes: &mut BackVec, draws: &mut Draws) -> Result<(), AllocError> {
    match draws.draw() % 20 {
        0 | 1 => bytes.clear(),
        2 => *bytes = new(test.alloc(), draws)?,
        _ => return grow(test, bytes, draws),
    }
    check_eq(test, &bytes.len(), &0, "an empty vector");
    Ok(())
}

fn many_steps(test: &Test<'_>, draws: &mut Draws) -> Result<(), AllocError> {
    let mut bytes = new(test.alloc(), draws)?;
    for _ in 0..100000 {
        step(test, &mut bytes, draws)?;
    }
    Ok(())
}

#[test]
fn test_backvec(rt: HostRuntime) -> Result<(), Fail> {
    let test = Test::new(&rt);
    let mut draws = Draws { last: 1 };
    check(
        &test,
        many_steps(&test, &mut draws).is_ok(),
        "memory for 100000 steps",
    );
    test.end()
}
