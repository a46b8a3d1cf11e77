//! A ship by `flatc`, damaged: it is verified exactly where the checked views read all of it without
//! an error, and then reads as they do. The function that is printed for ships passes it there too.

use super::faults::is_whole;
use super::same::is_same_ship;
use crate::digits::bytes_of;
use crate::printed::FLATC_ANNA;
use harbour::{Ship, read_as_root, verify_as_root};
use planus::table_reader::Table;
use planus::{SliceWithStartOffset, TableRead};
use planus_views::{Limits, Verify};
use std::alloc::Global;

// How many buffers pass, and in how many the two differ.
#[derive(Drop)]
struct Counts {
    passed: usize,
    differ: usize,
}

// Whether the function for ships passes the root, without a walk over the schema.
fn passes(bytes: &[u8]) -> bool {
    let limits = Limits::default();
    match Table::from_buffer(SliceWithStartOffset::new(bytes, 0), 0) {
        Ok(table) => Ship::pass(table, limits.depth, limits.tables).is_some(),
        Err(_) => false,
    }
}

impl Counts {
    fn none() -> Counts {
        Counts {
            passed: 0,
            differ: 0,
        }
    }

    fn add(&mut self, alloc: Global, bytes: &[u8]) {
        let checked = read_as_root(bytes);
        let is_same = match verify_as_root(bytes, Limits::default()) {
            Ok(verified) => {
                self.passed = self.passed.wrapping_add(1);
                passes(bytes)
                    && matches!(checked, Ok(ship) if is_whole(alloc, ship)
                        && is_same_ship(&verified, &ship))
            }
            Err(_) => !matches!(checked, Ok(ship) if is_whole(alloc, ship)),
        };
        if !is_same {
            self.differ = self.differ.wrapping_add(1);
        }
    }
}

fn turn(bytes: &mut Vec<u8>, at: usize, bits: u8) {
    if let Some(byte) = bytes.get_mut(at) {
        *byte ^= bits;
    }
}

// Each byte alone with these bits turned.
fn count_turned(alloc: Global, bytes: &mut Vec<u8>, bits: u8, counts: &mut Counts) {
    for at in 0..bytes.len() {
        turn(bytes, at, bits);
        counts.add(alloc, bytes);
        turn(bytes, at, bits);
    }
}

#[test]
fn ships_with_one_byte_changed(rt: HostRuntime) {
    let mut counts = Counts::none();
    if let Some(mut bytes) = bytes_of(rt.alloc(), FLATC_ANNA) {
        for bits in [1, 4, 64, 128, 255] {
            count_turned(rt.alloc(), &mut bytes, bits, &mut counts);
        }
    }
    assert!(rt;
        counts.passed > 1000 && counts.differ == 0,
        "{} {}",
        counts.passed,
        counts.differ
    );
}

#[test]
fn ships_that_are_cut(rt: HostRuntime) {
    let mut counts = Counts::none();
    if let Some(bytes) = bytes_of(rt.alloc(), FLATC_ANNA) {
        for length in 0..bytes.len() {
            if let Some(start) = bytes.get(..length) {
                counts.add(rt.alloc(), start);
            }
        }
    }
    assert!(rt; counts.differ == 0, "{} {}", counts.passed, counts.differ);
}

// A linear congruential generator, of Knuth's MMIX.
fn next(seed: u64) -> u64 {
    seed.wrapping_mul(6_364_136_223_846_793_005)
        .wrapping_add(1_442_695_040_888_963_407)
}

// Where the next change is, and its bits.
fn change(seed: u64, length: usize) -> (usize, u8) {
    let at = ((seed >> 33) as usize).checked_rem(length).unwrap_or(0);
    (at, seed.to_le_bytes()[3])
}

// Two bytes changed.
fn count_two(alloc: Global, bytes: &mut Vec<u8>, seed: u64, counts: &mut Counts) -> u64 {
    let first = next(seed);
    let second = next(first);
    let (at, bits) = change(first, bytes.len());
    let (other, others) = change(second, bytes.len());
    turn(bytes, at, bits);
    turn(bytes, other, others);
    counts.add(alloc, bytes);
    turn(bytes, other, others);
    turn(bytes, at, bits);
    second
}

#[test]
fn ships_with_two_bytes_changed(rt: HostRuntime) {
    let mut counts = Counts::none();
    if let Some(mut bytes) = bytes_of(rt.alloc(), FLATC_ANNA) {
        let mut seed = 1;
        for _ in 0..100_000 {
            seed = count_two(rt.alloc(), &mut bytes, seed, &mut counts);
        }
    }
    assert!(rt;
        counts.passed > 1000 && counts.differ == 0,
        "{} {}",
        counts.passed,
        counts.differ
    );
}
