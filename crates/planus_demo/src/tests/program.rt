use super::failing_ends::{DUMPED, OddReader, PRINTED, SCRIPT};
use crate::ending::Ending;
use crate::program::run_program;
use crate::tests::check_answer;
use planus_script::run::RunError;
use planus_testing::{Test, check, check_bytes, check_eq, without_memory};
use std::alloc::{AllocError, Global};
use std::env::{Env, FillError};
use std::test::Fail;

#[derive(Drop)]
struct Words<'a> {
    words: &'a [&'a [u8]],
}

impl<'a> Env for Words<'a> {
    fn arg(&self, i: usize, buf: &mut [u8]) -> Result<usize, FillError> {
        match self.words.get(i) {
            None => Err(FillError::NotPresent),
            Some(word) if word.len() > buf.len() => Err(FillError::TooLong),
            Some(word) => {
                buf[..word.len()].copy_from_slice(word);
                Ok(word.len())
            }
        }
    }

    fn var(&self, _name: &str, _buf: &mut [u8]) -> Result<usize, FillError> {
        Err(FillError::NotPresent)
    }

    fn var_at(&self, _i: usize, _buf: &mut [u8]) -> Result<usize, FillError> {
        Err(FillError::NotPresent)
    }
}

fn ran(
    alloc: Global,
    words: &[&[u8]],
    input: &[u8],
    printed: &mut Vec<u8>,
    told: &mut Vec<u8>,
) -> (Ending, usize) {
    let mut reader = input;
    let ending = run_program(&(Words { words }, alloc), &mut reader, printed, told);
    (ending, reader.len())
}

#[derive(Clone, Copy)]
struct Row {
    name: &'static str,
    words: &'static [&'static [u8]],
    input: &'static [u8],
    printed: &'static [u8],
    told: &'static [u8],
    status: u8,
    unread: usize,
}

const NAME: &[u8] = b"planus_demo";

const ROWS: &[Row] = &[
    Row {
        name: "a script",
        words: &[NAME],
        input: SCRIPT,
        printed: PRINTED,
        told: b"",
        status: 0,
        unread: 0,
    },
    Row {
        name: "no name",
        words: &[],
        input: b"finish 0\n",
        printed: b"line 1: no such step\n",
        told: b"",
        status: 1,
        unread: 0,
    },
    Row {
        name: "a weapon",
        words: &[NAME, b"weapon"],
        input: PRINTED,
        printed: DUMPED,
        told: b"",
        status: 0,
        unread: 0,
    },
    Row {
        name: "a short monster",
        words: &[NAME, b"monster"],
        input: b"00 00 00\n",
        printed: b"root ! Invalid offset\n",
        told: b"",
        status: 0,
        unread: 0,
    },
    Row {
        name: "bad hex",
        words: &[NAME, b"monster"],
        input: b"00 0\n",
        printed: b"bad hex\n",
        told: b"",
        status: 1,
        unread: 0,
    },
];

const USAGE: &[u8] = b"usage: planus_demo < SCRIPT\n       planus_demo weapon < BYTES\n       \
    planus_demo monster < BYTES\n";

const UNKNOWN: &[(&str, &[&[u8]])] = &[
    ("Weapon", &[NAME, b"Weapon"]),
    ("no letter", &[NAME, b""]),
    ("two words", &[NAME, b"weapon", b"monster"]),
    ("no UTF-8", &[NAME, b"weapon\xff"]),
];

fn check_row(test: &Test<'_>, row: &Row) {
    let (mut printed, mut told) = (Vec::new(test.alloc()), Vec::new(test.alloc()));
    let (ending, unread) = ran(test.alloc(), row.words, row.input, &mut printed, &mut told);
    check_answer(
        test,
        ending.answer,
        (Ok(row.status == 0), row.status),
        row.name,
    );
    check(test, ending.told, row.name);
    check_bytes(test, printed.as_slice(), row.printed, row.name);
    check_bytes(test, told.as_slice(), row.told, row.name);
    check_eq(test, &unread, &row.unread, row.name);
}

#[test]
fn words_on_a_command_line(rt: HostRuntime) -> Result<(), Fail> {
    let test = Test::new(&rt);
    for row in ROWS {
        check_row(&test, row);
    }
    for (name, words) in UNKNOWN {
        let row = Row {
            name,
            words,
            input: PRINTED,
            printed: b"unknown argument\n",
            told: USAGE,
            status: 1,
            unread: 96,
        };
        check_row(&test, &row);
    }
    test.end()
}

fn check_failure(test: &Test<'_>, ending: &Ending, error: RunError, told: &[u8], words: &str) {
    check_answer(test, ending.answer, (Err(error), 2), words);
    check(test, ending.told, words);
    check_bytes(test, told, words.as_bytes(), words);
}

fn check_failing_end(test: &Test<'_>, k: usize, room: &mut [u8], (error, words): (RunError, &str)) {
    let mut told = Vec::new(test.alloc());
    let mut reader = OddReader::failing(k);
    let mut writer = room;
    let env = (Words { words: &[NAME] }, test.alloc());
    let ending = run_program(&env, &mut reader, &mut writer, &mut told);
    check_failure(test, &ending, error, told.as_slice(), words);
}

#[test]
fn ends_that_fail(rt: HostRuntime) -> Result<(), Fail> {
    let test = Test::new(&rt);
    let read = (RunError::Read, "can't read standard input\n");
    let write = (RunError::Write, "can't write standard output\n");
    check_failing_end(&test, 1, &mut [0; 256], read);
    check_failing_end(&test, 0, &mut [0; 8], write);
    test.end()
}

// Unknown arguments give the same result where standard error can't be written.
fn check_untold(test: &Test<'_>) {
    let mut printed = Vec::new(test.alloc());
    let mut reader = SCRIPT;
    let mut full: &mut [u8] = &mut [];
    let env = (
        Words {
            words: UNKNOWN[0].1,
        },
        test.alloc(),
    );
    let ending = run_program(&env, &mut reader, &mut printed, &mut full);
    check_eq(test, &ending.answer, &Ok(false), "a full standard error");
    check(test, !ending.told, "a full standard error");
    check_eq(test, &printed.len(), &17, "what is printed then");
}

#[test]
fn standard_error_that_fails(rt: HostRuntime) -> Result<(), Fail> {
    let test = Test::new(&rt);
    check_untold(&test);
    test.end()
}

fn ran_words(alloc: Global, told: &mut Vec<u8>) -> (Ending, usize, usize) {
    let mut printed = Vec::new(alloc);
    let (ending, unread) = ran(alloc, &[NAME, b"weapon"], SCRIPT, &mut printed, told);
    (ending, unread, printed.len())
}

fn check_refused_words(test: &Test<'_>) -> Result<(), AllocError> {
    let mut told: Vec<u8> = Vec::with_capacity(test.alloc(), 64)?;
    let refused = without_memory(test, |test| ran_words(test.alloc(), &mut told));
    if let Some((ending, unread, printed)) = refused {
        check_failure(
            test,
            &ending,
            RunError::OutOfMemory,
            told.as_slice(),
            "out of memory\n",
        );
        check_eq(test, &printed, &0, "nothing is printed");
        check_eq(test, &unread, &SCRIPT.len(), "nothing is read");
    }
    Ok(())
}

#[test]
fn words_with_refused_memory(rt: HostRuntime) -> Result<(), Fail> {
    let test = Test::new(&rt);
    check(
        &test,
        check_refused_words(&test).is_ok(),
        "memory for 64 bytes",
    );
    test.end()
}
