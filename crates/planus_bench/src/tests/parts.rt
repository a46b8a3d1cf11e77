//! Parts of any size and alignment through the builder.
ghost use Rattle.std.specs.Prelude.{◌≡◌, ◌≤◌, ◌-◌, ◌++◌, length, replicate, ⊤};
ghost use Rattle.std.specs.Int.{w32, to_le_bytes};

use super::alignments::mask_of;
use planus::{BuildError, Builder, Caches, Fill};
use planus_back::Promises;
use planus_testing::{Test, check, check_bytes, check_done, check_eq, in_builder};
use std::alloc::{AllocError, Global};
use std::test::Fail;

type Done = Result<(), BuildError>;

pub const FOUR_WRITES: &[u8] = b"\x05\0\0\0\x000123456ABCDEFGHIJKLMNO";

#[derive(Drop)]
struct Same<'a> {
    bytes: &'a [u8],
}

impl<'a> Fill for Same<'a> {
    ghost fits = { λ filler _ n. n ≡ length filler.bytes.now };

    ghost encoding = { λ filler _ _. filler.bytes.now };

    fn fill(&self, _place: u32, bytes: &mut [u8]) {
        bytes.copy_from_slice(self.bytes);
    }
}

#[derive(Drop)]
pub struct Repeated {
    pub byte: u8,
}

impl Fill for Repeated {
    ghost fits = { λ _ _ _. ⊤ };

    ghost encoding = { λ filler _ n. replicate n filler.byte };

    fn fill(&self, _place: u32, bytes: &mut [u8]) {
        bytes.fill(self.byte);
    }
}

#[derive(Drop)]
struct OwnPlace;

impl Fill for OwnPlace {
    ghost fits = { λ _ _ n. n ≡ 4 };

    ghost encoding = { λ _ place _. to_le_bytes w32 place };

    fn fill(&self, place: u32, bytes: &mut [u8]) {
        bytes.copy_from_slice(&place.to_le_bytes());
    }
}

#[derive(Drop)]
struct PlaceFirst;

impl Fill for PlaceFirst {
    ghost fits = { λ _ _ n. 4 ≤ n };

    ghost encoding = { λ _ place n. to_le_bytes w32 place ++ replicate (n - 4) 0 };

    fn fill(&self, place: u32, bytes: &mut [u8]) {
        bytes[..4].copy_from_slice(&place.to_le_bytes());
    }
}

pub fn put(builder: &mut Builder, bytes: &[u8], alignment: usize) -> Result<(), BuildError> {
    builder.write_with(bytes.len(), mask_of(alignment), &Same { bytes })
}

pub fn put_four(builder: &mut Builder) -> Done {
    put(builder, b"MNO", 1)?;
    put(builder, b"IJKL", 2)?;
    put(builder, b"ABCDEFGH", 4)?;
    put(builder, b"0123456", 1)
}

pub fn finish_last(builder: &mut Builder) -> Result<&[u8], BuildError> {
    let root = builder.current_offset::<()>();
    builder.finish(root, None)
}

pub fn check_last(test: &Test<'_>, builder: &mut Builder, want: &[u8], row: &str) {
    match finish_last(builder) {
        Ok(bytes) => check_bytes(test, bytes, want, row),
        Err(error) => check_done(test, Err(error), row),
    }
}

fn put_after_clear(builder: &mut Builder) -> Done {
    put(builder, b"IJKL", 4)?;
    put(builder, b"X", 1)?;
    put(builder, b"Y", 1)?;
    put(builder, b"ABCDEFGH", 8)
}

fn check_clear(test: &Test<'_>, builder: &mut Builder) -> Done {
    check_last(test, builder, b"\x04\0\0\0", "no part");
    builder.clear();
    put_four(builder)?;
    check_last(test, builder, FOUR_WRITES, "four parts");
    builder.clear();
    put_after_clear(builder)?;
    check_last(
        test,
        builder,
        b"\x08\0\0\0\0\0\0\0ABCDEFGH\0\0YXIJKL",
        "after a clear",
    );
    Ok(())
}

fn put_own_place(builder: &mut Builder) -> Done {
    builder.write_with(4, mask_of(16), &OwnPlace)
}

fn check_own_places(test: &Test<'_>, builder: &mut Builder) -> Done {
    let both = b"\x17\0\0\0\0\0\0\0X\0\0\0\0\0\0\0\x07\0\0\0MNO";
    put(builder, b"MNO", 1)?;
    put_own_place(builder)?;
    check_bytes(test, builder.as_slice(), b"\x07\0\0\0MNO", "a place");
    put(builder, b"X", 8)?;
    put_own_place(builder)?;
    check_bytes(test, builder.as_slice(), both, "two places");
    Ok(())
}

#[test]
fn parts(rt: HostRuntime) -> Result<(), Fail> {
    let test = Test::new(&rt);
    in_builder(&test, Caches::all(), check_clear);
    in_builder(&test, Caches::all(), check_own_places);
    test.end()
}

fn check_too_large(test: &Test<'_>, builder: &mut Builder, size: usize) -> Done {
    put_four(builder)?;
    let refusal = builder.write_with(size, mask_of(1), &Repeated { byte: 7 });
    check_eq(
        test,
        &refusal,
        &Err(BuildError::TooLarge),
        "a part that is too large",
    );
    check_eq(test, &builder.len(), &22, "the bytes before it");
    check_eq(test, &builder.room(), &42, "the room before it");
    check_last(test, builder, FOUR_WRITES, "the parts before it");
    Ok(())
}

fn check_in_64_bytes(test: &Test<'_>, size: usize) -> Done {
    let mut builder = Builder::with_capacity(test.alloc(), 64)?;
    check_too_large(test, &mut builder, size)
}

#[test]
fn too_large(rt: HostRuntime) -> Result<(), Fail> {
    let test = Test::new(&rt);
    check_done(
        &test,
        check_in_64_bytes(&test, 2147483648),
        "a builder of 64 bytes",
    );
    test.end()
}

fn request(promises: Promises, len: usize, size: usize, alignment: usize) -> Option<Promises> {
    if len > 2147483647 {
        return None;
    }
    match promises.request(len, size, mask_of(alignment)) {
        Ok((next, _)) => Some(next),
        Err(_) => None,
    }
}

fn check_delays(test: &Test<'_>, rows: &[(usize, usize, usize, usize)]) {
    let mut promises = Promises::new();
    for (len, size, alignment, delayed) in rows {
        match request(promises, *len, *size, *alignment) {
            Some(next) => {
                check_eq(test, &next.delayed(), delayed, "a delay");
                promises = next;
            }
            None => check(test, false, "a request"),
        }
    }
}

#[test]
fn delays_after_clear(rt: HostRuntime) -> Result<(), Fail> {
    let test = Test::new(&rt);
    check_delays(
        &test,
        &[(0, 4, 4, 0), (4, 1, 1, 3), (5, 1, 1, 2), (6, 8, 8, 0)],
    );
    test.end()
}

#[derive(Drop)]
struct Numbers {
    last: u32,
}

impl Numbers {
    fn draw(&mut self) -> u32 {
        self.last = self.last.wrapping_mul(1664525).wrapping_add(1013904223);
        self.last / 65536
    }
}

#[derive(Clone, Copy)]
struct Written {
    byte: u8,
    size: usize,
    mask: usize,
    distance: usize,
}

fn check_part(test: &Test<'_>, bytes: &[u8], part: Written) {
    let Some(start) = bytes.len().checked_sub(part.distance) else {
        return check(test, false, "a part");
    };
    let (_before, rest) = bytes.split_at(start);
    check_eq(test, &(start & part.mask), &0, "the start of a part");
    match rest.get(..part.size) {
        Some(found) => check(test, found.iter().all(|b| *b == part.byte), "a part"),
        None => check(test, false, "a part"),
    }
}

fn write_part(
    test: &Test<'_>,
    builder: &mut Builder,
    numbers: &mut Numbers,
    byte: u8,
) -> Result<Written, BuildError> {
    let size = (numbers.draw() % 128) as usize;
    let mask = mask_of(1 << (numbers.draw() % 5));
    let before = builder.len();
    builder.write_with(size, mask, &Repeated { byte })?;
    let distance = builder.len();
    let is_least = distance.wrapping_sub(before) <= size + mask;
    check(test, is_least, "a padding less than an alignment");
    Ok(Written {
        byte,
        size,
        mask,
        distance,
    })
}

fn write_parts(
    test: &Test<'_>,
    builder: &mut Builder,
    numbers: &mut Numbers,
    parts: &mut Vec<Written>,
) -> Done {
    for byte in 1..50 {
        let part = write_part(test, builder, numbers, byte)?;
        if parts.push(part).is_err() {
            return Err(BuildError::OutOfMemory);
        }
    }
    Ok(())
}

fn check_place(test: &Test<'_>, builder: &mut Builder, numbers: &mut Numbers) -> Done {
    let size = (numbers.draw() % 128) as usize + 4;
    let mask = mask_of(1 << (numbers.draw() % 5));
    builder.write_with(size, mask, &PlaceFirst)?;
    let place = (builder.len() as u64).to_le_bytes();
    check(
        test,
        builder.as_slice().starts_with(&place[..4]),
        "a filler's place",
    );
    Ok(())
}

fn check_places(test: &Test<'_>, builder: &mut Builder, numbers: &mut Numbers) -> Done {
    for _ in 1..50 {
        check_place(test, builder, numbers)?;
    }
    Ok(())
}

fn random_bytes(alloc: Global, numbers: &mut Numbers) -> Result<Vec<u8>, AllocError> {
    let size = numbers.draw() % 128;
    let mut bytes = Vec::new(alloc);
    for _ in 0..size {
        bytes.push((numbers.draw() % 256) as u8)?;
    }
    Ok(bytes)
}

fn check_all(test: &Test<'_>, bytes: &[u8], parts: &[Written], root: &[u8], distance: usize) {
    for part in parts {
        check_part(test, bytes, *part);
    }
    let Some(start) = bytes.len().checked_sub(distance) else {
        return check(test, false, "a root");
    };
    let (front, rest) = bytes.split_at(start);
    check_eq(test, &(start % 2), &0, "the start of a root");
    check(test, rest.starts_with(root), "a root");
    let place = (start as u64).to_le_bytes();
    check(
        test,
        front.starts_with(&place[..4]),
        "the reference to a root",
    );
}

fn check_root(test: &Test<'_>, builder: &mut Builder, parts: &[Written], root: &[u8]) -> Done {
    put(builder, root, 2)?;
    let distance = builder.len();
    check_all(test, finish_last(builder)?, parts, root, distance);
    Ok(())
}

fn check_random_root(
    test: &Test<'_>,
    builder: &mut Builder,
    numbers: &mut Numbers,
    parts: &[Written],
) -> Done {
    let root = random_bytes(test.alloc(), numbers)?;
    check_root(test, builder, parts, root.as_slice())
}

fn check_random_parts(test: &Test<'_>, builder: &mut Builder, numbers: &mut Numbers) -> Done {
    let mut parts = Vec::new(test.alloc());
    write_parts(test, builder, numbers, &mut parts)?;
    check_random_root(test, builder, numbers, parts.as_slice())
}

fn check_round(test: &Test<'_>, builder: &mut Builder, numbers: &mut Numbers) -> Done {
    let mut again = Numbers { last: numbers.last };
    check_random_parts(test, builder, numbers)?;
    builder.clear();
    check_places(test, builder, &mut again)
}

#[test]
fn random_parts_stand_aligned(rt: HostRuntime) -> Result<(), Fail> {
    let test = Test::new(&rt);
    let mut numbers = Numbers { last: 1 };
    for _ in 0..50 {
        in_builder(
            &test,
            Caches::all(),
            |test, builder| check_round(test, builder, &mut numbers),
        );
    }
    test.end()
}
