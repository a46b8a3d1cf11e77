//! Measures calls of builder and readers. The first argument is the number of rounds; without it
//! each work runs once and no times are printed.
#![tactic(auto)]

mod lists;
mod monsters;
mod reads;
mod tables;
mod works;

use reads::Walk;
use std::time::Instant;
use std::{env, io};
use works::{OPERATIONS, Work, Works};

const PLAIN: &[(&str, Work)] = &[
    ("texts of 3 bytes", Work::Texts(3, 3)),
    ("texts of 100 bytes", Work::Texts(100, 100)),
    ("texts of 0 to 60 bytes", Work::Texts(0, 60)),
    ("texts of 100 bytes, builder grows", Work::GrowingTexts),
    ("lists of 64 texts", Work::TextLists),
    ("byte lists of 100 bytes", Work::ByteLists(100)),
    ("byte lists of 64 KiB", Work::ByteLists(65536)),
    ("lists of 4 numbers", Work::NumberLists(4)),
    ("lists of 64 numbers", Work::NumberLists(64)),
    ("lists of 4096 numbers", Work::NumberLists(4096)),
    ("write_with of 8 bytes", Work::Parts(8)),
    ("write_with of 4096 bytes", Work::Parts(4096)),
    (
        "write_with of 16 KiB, builder grows",
        Work::GrowingParts(16384),
    ),
    ("tables of 2 fields", Work::TwoFields),
    ("tables of 8 fields", Work::EightFields),
    ("monsters in one buffer", Work::Monsters),
    ("clear, monster, finish", Work::MonsterMessages),
    ("clear, weapon, finish", Work::Weapons),
    (
        "clear, weapon, finish after 10000 texts",
        Work::WeaponsAfterTexts(10000),
    ),
    ("requests for padding", Work::Requests),
    ("read a weapon", Work::ReadWeapons),
    ("read 2 of 8 fields", Work::ReadFields(2)),
    ("read 8 of 8 fields", Work::ReadFields(8)),
    ("read a monster", Work::ReadMonsters),
    ("read 16 numbers", Work::ReadNumbers(Walk::Each)),
    (
        "read 16 numbers by their positions",
        Work::ReadNumbers(Walk::Positions),
    ),
    (
        "read a slice of 16 numbers",
        Work::ReadNumbers(Walk::Chunks),
    ),
    (
        "read 16 windows of 4 numbers",
        Work::ReadNumbers(Walk::Windows),
    ),
    ("read a text of a list", Work::ReadTexts),
    ("read a table of a list", Work::ReadTables),
    ("read a union of a vector", Work::ReadUnions),
];

const CACHED: &[(&str, Work)] = &[
    ("cached: different texts of 20 bytes", Work::NewTexts(20)),
    ("cached: different texts of 100 bytes", Work::NewTexts(100)),
    ("cached: equal texts of 20 bytes", Work::Texts(20, 20)),
    ("cached: equal texts of 100 bytes", Work::Texts(100, 100)),
    ("cached: texts of 20 bytes, some often", Work::OftenTexts),
    ("cached: lists of 64 texts", Work::TextLists),
    (
        "cached: different byte lists of 100 bytes",
        Work::NewByteLists(100),
    ),
    ("cached: equal byte lists of 64 KiB", Work::ByteLists(65536)),
    ("cached: tables of 2 fields", Work::TwoFields),
    ("cached: tables of 8 fields", Work::EightFields),
    ("cached: monsters in one buffer", Work::Monsters),
    ("cached: clear, monster, finish", Work::MonsterMessages),
    ("cached: clear, weapon, finish", Work::Weapons),
    (
        "cached: weapons after 10000 texts",
        Work::WeaponsAfterTexts(10000),
    ),
    ("cached: clear, text, finish", Work::AfterTexts(0)),
    ("the same after 1000 texts", Work::AfterTexts(1000)),
    ("the same after 10000 texts", Work::AfterTexts(10000)),
    ("the same after 100000 texts", Work::AfterTexts(100000)),
];

fn rounds(rt: &HostRuntime) -> io::Result<u64> {
    let mut args = env::args(rt)?;
    let _program = args.next();
    match args.next() {
        Some(word) => Ok(word.as_str().parse::<u32>().map_or(0, u64::from)),
        None => Ok(0),
    }
}

fn measure(
    rt: &HostRuntime,
    works: &mut Works,
    name: &str,
    work: Work,
    with_caches: bool,
    rounds: u64,
) -> io::Result<()> {
    let Some(done) = works.first_round(work, with_caches) else {
        return println!(rt; "{name:<42} refused");
    };
    if rounds == 0 {
        return println!(rt; "{name:<42} {done:>8}");
    }
    let start = Instant::now(rt)?;
    for _ in 0..rounds {
        if works.round(work, with_caches) != Some(done) {
            return println!(rt; "{name:<42} {done:>8} differs");
        }
    }
    let nanos = start.elapsed(rt)?.as_nanos();
    let tenths = nanos.saturating_mul(10) / (u128::from(rounds) * OPERATIONS as u128);
    let (whole, tenth) = (tenths / 10, tenths % 10);
    println!(rt; "{name:<42} {done:>8} {whole:>8}.{tenth}")
}

fn measure_all(rt: &HostRuntime, works: &mut Works, rounds: u64) -> io::Result<()> {
    println!(rt;
        "{:<42} {:>8} {:>10}",
        "a thousand times", "done", "ns each"
    )?;
    for (name, work) in PLAIN {
        measure(rt, works, name, *work, false, rounds)?;
    }
    for (name, work) in CACHED {
        measure(rt, works, name, *work, true, rounds)?;
    }
    Ok(())
}

fn main(rt: HostRuntime) -> io::Result<()> {
    let rounds = rounds(&rt)?;
    match Works::new(rt.alloc()) {
        Ok(mut works) => measure_all(&rt, &mut works, rounds),
        Err(_) => println!(rt; "out of memory"),
    }
}
