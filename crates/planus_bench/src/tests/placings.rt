//! The places of `Promises` beside all others of small paddings.

use super::alignments::mask_of;
use planus_back::Promises;

#[derive(Clone, Copy)]
struct Part {
    size: usize,
    mask: usize,
}

fn part_of(number: usize) -> Part {
    Part {
        size: number / 4,
        mask: (1 << (number % 4)) - 1,
    }
}

type Places = [usize; 3];

fn places(parts: &[Part; 3], paddings: [usize; 3]) -> Places {
    let mut places = [0; 3];
    let mut len: usize = 0;
    for i in 0..3usize {
        len = len.wrapping_add(paddings[i]).wrapping_add(parts[i].size);
        places[i] = len;
    }
    places
}

// One of eight lengths in a row, since no alignment is greater.
fn is_kept(parts: &[Part; 3], places: Places) -> bool {
    for more in 0..8usize {
        let len = places[2].wrapping_add(more);
        let keeps = |i: usize| len.wrapping_sub(places[i]) & parts[i].mask == 0;
        if keeps(0) && keeps(1) && keeps(2) {
            return true;
        }
    }
    false
}

fn request(promises: Promises, len: usize, part: Part) -> Option<(Promises, usize)> {
    if len > 2147483647 {
        return None;
    }
    match promises.request(len, part.size, mask_of(part.mask.wrapping_add(1))) {
        Ok((next, padding)) => Some((next, len.wrapping_add(padding).wrapping_add(part.size))),
        Err(_) => None,
    }
}

fn promised(parts: &[Part; 3]) -> Option<Places> {
    let mut places = [0; 3];
    let (mut promises, mut len) = (Promises::new(), 0);
    for i in 0..3usize {
        (promises, len) = request(promises, len, parts[i])?;
        places[i] = len;
    }
    Some(places)
}

// Paddings are 0 to 7.
fn are_least(parts: &[Part; 3], least: Places) -> bool {
    let mut found = false;
    for number in 0..512usize {
        let tried = places(parts, [number / 64, number / 8 % 8, number % 8]);
        if is_kept(parts, tried) {
            if tried[0] < least[0] || tried[1] < least[1] || tried[2] < least[2] {
                return false;
            }
            found = found || tried == least;
        }
    }
    found
}

// Lists of fewer parts have parts of no bytes and alignment 1.
fn no_smaller_place(parts: &[Part; 3]) -> bool {
    match promised(parts) {
        Some(least) => are_least(parts, least),
        None => false,
    }
}

#[test]
fn no_placing_has_a_smaller_place(rt: HostRuntime) {
    for a in 0..16 {
        for b in 0..16 {
            for c in 0..16 {
                assert!(rt;
                    no_smaller_place(&[part_of(a), part_of(b), part_of(c)]),
                    "parts {a}, {b}, {c}"
                );
            }
        }
    }
}
