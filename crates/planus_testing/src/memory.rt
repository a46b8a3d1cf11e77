use crate::asserting::{Test, check};
use std::alloc::{AllocError, Global};

const LEFT: &str = "memory was left: this test does not apply";

// A sanitizer's malloc keeps a freed block's addresses for a while.
const SPARE: usize = 1 << 25;

/// Takes blocks until not even one byte can be allocated, and holds them in `held`, which needs
/// room for 262144. Returns whether this worked.
///
/// Relies on Linux's 47 bits of addresses and the C library's malloc. A sanitizer's malloc,
/// recognised by its keeping freed blocks, keeps small ones back, so a test shows nothing. With any
/// other malloc the test must fail.
pub fn exhaust(alloc: Global, held: &mut Vec<Vec<u8>>) -> Result<bool, AllocError> {
    let spare: Vec<u8> = Vec::with_capacity(alloc, SPARE)?;
    if take_all(alloc, held) {
        held.push(spare)?;
        return Ok(true);
    }
    drop(spare);
    match Vec::<u8>::with_capacity(alloc, SPARE) {
        Ok(_) => Err(AllocError),
        Err(_) => Ok(false),
    }
}

// Once freed, the C library's malloc keeps this in no free list, and cuts smaller blocks from it.
const BLOCK: usize = 65536;

/// Takes all memory but about `spare` bytes, at most 65536; else as [`exhaust`].
pub fn exhaust_all_but(
    alloc: Global,
    held: &mut Vec<Vec<u8>>,
    spare: usize,
) -> Result<bool, AllocError> {
    let block: Vec<u8> = Vec::with_capacity(alloc, BLOCK)?;
    let exhausted = exhaust(alloc, held)?;
    drop(block);
    let taken: Vec<u8> = Vec::with_capacity(alloc, BLOCK.saturating_sub(spare))?;
    held.push(taken)?;
    Ok(exhausted)
}

/// Makes the calls while no memory can be allocated. Returns `None`, and says so, where some was
/// left.
pub fn without_memory<A: Drop, F: FnOnce(&Test<'_>) -> A>(test: &Test<'_>, calls: F) -> Option<A>
    requires { F.IsAlwaysCallable calls }
{
    match answer_without_memory(test, calls) {
        Ok((true, answer)) => Some(answer),
        Ok((false, _)) => {
            test.say(LEFT);
            None
        }
        Err(_) => {
            check(test, false, "memory for what takes all memory");
            None
        }
    }
}

fn answer_without_memory<A, F: FnOnce(&Test<'_>) -> A>(
    test: &Test<'_>,
    calls: F,
) -> Result<(bool, A), AllocError>
    requires { F.IsAlwaysCallable calls }
{
    let mut held: Vec<Vec<u8>> = Vec::with_capacity(test.alloc(), 262144)?;
    let exhausted = exhaust(test.alloc(), &mut held)?;
    let answer = calls(test);
    drop(held);
    Ok((exhausted, answer))
}

/// Checks what was tried without memory. `None`, which is said, is that memory was left.
pub fn check_tried(test: &Test<'_>, found: Option<bool>, row: &str) {
    match found {
        Some(holds) => check(test, holds, row),
        None => test.say(LEFT),
    }
}

fn take_all(alloc: Global, held: &mut Vec<Vec<u8>>) -> bool {
    let mut size: usize = 1 << 40;
    for _ in 0..41 {
        for _ in 0..70000 {
            let block: Vec<u8> = match Vec::with_capacity(alloc, size) {
                Ok(block) => block,
                Err(_) => break,
            };
            if held.push(block).is_err() {
                return false;
            }
        }
        size = size / 2;
    }
    Vec::<u8>::with_capacity(alloc, 1).is_err()
}
