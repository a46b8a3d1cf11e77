use super::refused_calls::weapon_is_read;
use super::runs::weapon;
use planus::{
    Caches, CopyError, Error, Finished, ReplayError, SliceWithStartOffset, Step, TableRead, Vector,
    replay,
};
use std::alloc::Global;

#[derive(Clone, Copy)]
pub enum Copied {
    NotBegun,
    Made,
    MadeAgain,
    Wrong,
}

impl Copied {
    fn again(copied: Option<bool>) -> Copied {
        match copied {
            Some(true) => Copied::MadeAgain,
            _ => Copied::Wrong,
        }
    }
}

const NUMBERS: [u8; 18] = [4, 0, 0, 0, 5, 0, 0, 0, 1, 0, 2, 0, 3, 0, 4, 0, 5, 0];

/// A vector of five references to one string `Axe`.
const TEXTS: [u8; 36] = [
    4, 0, 0, 0, 5, 0, 0, 0, 20, 0, 0, 0, 16, 0, 0, 0, 12, 0, 0, 0, 8, 0, 0, 0, 4, 0, 0, 0, 3, 0, 0,
    0, b'A', b'x', b'e', 0,
];

fn numbers() -> Vector<'static, u16> {
    match TableRead::from_buffer(SliceWithStartOffset::new(&NUMBERS, 0), 0) {
        Ok(numbers) => numbers,
        Err(_) => Vector::new_empty(),
    }
}

fn numbers_are_read() -> bool {
    let mut want: u16 = 0;
    for number in numbers() {
        want = want.wrapping_add(1);
        if number != want {
            return false;
        }
    }
    want == 5
}

pub fn numbers_are_copied(alloc: Global) -> Option<bool> {
    match numbers().to_vec::<u16>(alloc) {
        Ok(copies) if copies.as_slice() == [1, 2, 3, 4, 5].as_slice() => Some(true),
        Err(CopyError::OutOfMemory) if numbers_are_read() => Some(false),
        _ => None,
    }
}

pub fn copy_numbers(alloc: Global) -> Copied {
    match numbers_are_copied(alloc) {
        Some(true) => Copied::Made,
        Some(false) => Copied::again(numbers_are_copied(alloc)),
        None => Copied::Wrong,
    }
}

fn texts() -> Vector<'static, Result<&'static str, Error>> {
    match TableRead::from_buffer(SliceWithStartOffset::new(&TEXTS, 0), 0) {
        Ok(texts) => texts,
        Err(_) => Vector::new_empty(),
    }
}

fn texts_are_read() -> bool {
    let mut count: usize = 0;
    for text in texts() {
        if !matches!(text, Ok("Axe")) {
            return false;
        }
        count = count.wrapping_add(1);
    }
    count == 5
}

pub fn texts_are_copied(alloc: Global) -> Option<bool> {
    match texts().to_vec_result::<String>(alloc) {
        Ok(copies) if copies.len() == 5 && copies.iter().all(|text| text.as_str() == "Axe") => {
            Some(true)
        }
        Err(CopyError::OutOfMemory) if texts_are_read() => Some(false),
        _ => None,
    }
}

pub fn copy_texts(alloc: Global) -> Copied {
    match texts_are_copied(alloc) {
        Some(true) => Copied::Made,
        Some(false) => Copied::again(texts_are_copied(alloc)),
        None => Copied::Wrong,
    }
}

fn is_weapon(finished: &[Finished]) -> bool {
    match finished {
        [one] => weapon_is_read(one.bytes.as_slice()) && one.bytes.len() == 32,
        _ => false,
    }
}

pub fn weapon_is_replayed(alloc: Global, steps: &[Step]) -> Option<bool> {
    match replay(alloc, Caches::all(), steps) {
        Ok(finished) if is_weapon(finished.as_slice()) => Some(true),
        Err(ReplayError::OutOfMemory) => Some(false),
        _ => None,
    }
}

fn replay_twice(alloc: Global, steps: &[Step]) -> Copied {
    match weapon_is_replayed(alloc, steps) {
        Some(true) => Copied::Made,
        Some(false) => Copied::again(weapon_is_replayed(alloc, steps)),
        None => Copied::Wrong,
    }
}

pub fn replay_weapon(alloc: Global) -> Copied {
    match weapon(alloc) {
        Ok(steps) => replay_twice(alloc, steps.as_slice()),
        Err(_) => Copied::NotBegun,
    }
}
