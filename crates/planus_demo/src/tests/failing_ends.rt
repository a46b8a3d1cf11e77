use super::{answers, check_answer, ran};
use crate::mode::schema;
use planus_dump::Schema;
use planus_script::run::{RunError, status};
use planus_testing::{Test, check, check_bytes, check_eq};
use std::alloc::{AllocError, Global};
use std::io;
use std::io::{Error, ErrorKind, Read, Write};
use std::test::Fail;

pub const SCRIPT: &[u8] = b"text Axe\ntable 0=ref:0 1=u16:24\nfinish 1\n";

pub const PRINTED: &[u8] = b"04 00 00 00 f4 ff ff ff 10 00 00 00 18 00 00 00 \
    08 00 0a 00 04 00 08 00 03 00 00 00 41 78 65 00\n";

pub const DUMPED: &[u8] = b"root: table Weapon\nroot.name = \"Axe\"\nroot.damage = 24\n";

#[derive(Clone, Copy)]
enum Odd {
    Fails,
    IsInterrupted,
    GivesNothing,
}

impl Odd {
    fn error(&self, kind: ErrorKind) -> Option<Error> {
        match self {
            Odd::Fails => Some(Error::from(kind)),
            Odd::IsInterrupted => Some(Error::from(ErrorKind::Interrupted)),
            Odd::GivesNothing => None,
        }
    }
}

/// `left` counts down to one odd call.
#[derive(Drop)]
pub struct OddReader<'a> {
    bytes: &'a [u8],
    left: usize,
    odd: Odd,
}

impl OddReader<'_> {
    pub fn failing(k: usize) -> OddReader<'static> {
        OddReader {
            bytes: SCRIPT,
            left: k,
            odd: Odd::Fails,
        }
    }
}

impl<'a> Read for OddReader<'a> {
    fn read(&mut self, buf: &mut [u8]) -> io::Result<usize> {
        self.left = self.left.wrapping_sub(1);
        if self.left == 0 {
            return match self.odd.error(ErrorKind::ConnectionReset) {
                Some(error) => Err(error),
                None => Ok(0),
            };
        }
        if self.bytes.is_empty() || buf.is_empty() {
            return Ok(0);
        }
        let (first, rest) = self.bytes.split_at(1);
        buf[0] = first[0];
        self.bytes = rest;
        Ok(1)
    }
}

fn ran_oddly(
    alloc: Global,
    schema: Option<&Schema>,
    (k, odd): (usize, Odd),
    printed: &mut Vec<u8>,
) -> Result<bool, RunError> {
    let mut reader = OddReader {
        bytes: if schema.is_some() { PRINTED } else { SCRIPT },
        left: k,
        odd,
    };
    answers(alloc, schema, &mut reader, printed)
}

fn check_reading(
    test: &Test<'_>,
    schema: Option<&Schema>,
    (k, odd): (usize, Odd),
    want: (Result<bool, RunError>, u8),
    printed: &[u8],
    row: &str,
) {
    let mut writer = Vec::new(test.alloc());
    let answer = ran_oddly(test.alloc(), schema, (k, odd), &mut writer);
    check_answer(test, answer, want, row);
    check_bytes(test, writer.as_slice(), printed, row);
}

const UNREAD: (Result<bool, RunError>, u8) = (Err(RunError::Read), 2);

// What is read then is the same as of a shorter script.
fn check_early_end(test: &Test<'_>, k: usize) {
    let first = SCRIPT.get(..k.wrapping_sub(1)).unwrap_or(SCRIPT);
    let mut want = Vec::new(test.alloc());
    let (answer, _) = ran(test.alloc(), first, &mut want);
    let (odd, want) = ((k, Odd::GivesNothing), want.as_slice());
    check_reading(
        test,
        None,
        odd,
        (answer, status(&answer)),
        want,
        "an early end",
    );
}

fn check_read(test: &Test<'_>, k: usize) {
    let clean = (Ok(true), 0);
    check_reading(
        test,
        None,
        (k, Odd::Fails),
        UNREAD,
        b"",
        "a read that fails",
    );
    check_early_end(test, k);
    let interrupted = (k, Odd::IsInterrupted);
    check_reading(
        test,
        None,
        interrupted,
        clean,
        PRINTED,
        "a read that is interrupted",
    );
}

fn check_too_long(
    test: &Test<'_>,
    k: usize,
    want: Result<bool, RunError>,
    text: &str,
) -> Result<(), AllocError> {
    let script = vec![in test.alloc(); b'#'; 1048577]?;
    let mut printed = Vec::new(test.alloc());
    let mut reader = OddReader {
        bytes: script.as_slice(),
        left: k,
        odd: Odd::Fails,
    };
    let answer = answers(test.alloc(), None, &mut reader, &mut printed);
    check_eq(test, &answer, &want, "a long script");
    check_bytes(test, printed.as_slice(), text.as_bytes(), "a long script");
    Ok(())
}

// Nothing is read after the first byte that is too much.
#[test]
fn reads_of_a_long_script(rt: HostRuntime) -> Result<(), Fail> {
    let test = Test::new(&rt);
    for (k, want, text) in [
        (1048577, Err(RunError::Read), ""),
        (1048578, Ok(false), "script too long\n"),
    ] {
        let done = check_too_long(&test, k, want, text);
        check(&test, done.is_ok(), "memory for a long script");
    }
    test.end()
}

// 41 reads of a byte, and one that finds the end.
#[test]
fn each_read_in_turn(rt: HostRuntime) -> Result<(), Fail> {
    let test = Test::new(&rt);
    for k in 1..43 {
        check_read(&test, k);
    }
    let none = (0, Odd::Fails);
    check_reading(
        &test,
        None,
        none,
        (Ok(true), 0),
        PRINTED,
        "one byte at a time",
    );
    test.end()
}

#[derive(Drop)]
struct OddWriter {
    taken: Vec<u8>,
    left: usize,
    odd: Odd,
    hands_on: bool,
}

impl Write for OddWriter {
    fn write(&mut self, buf: &[u8]) -> io::Result<usize> {
        self.left = self.left.wrapping_sub(1);
        if self.left == 0 {
            return match self.odd.error(ErrorKind::StorageFull) {
                Some(error) => Err(error),
                None => Ok(0),
            };
        }
        if buf.is_empty() {
            return Ok(0);
        }
        self.taken.push(buf[0])?;
        Ok(1)
    }

    fn flush(&mut self) -> io::Result<()> {
        if self.hands_on {
            Ok(())
        } else {
            Err(Error::from(ErrorKind::StorageFull))
        }
    }
}

fn check_writing(
    test: &Test<'_>,
    schema: Option<&Schema>,
    (k, odd): (usize, Odd),
    want: (Result<bool, RunError>, u8),
    count: usize,
    row: &str,
) {
    let (mut reader, printed) = match schema {
        None => (SCRIPT, PRINTED),
        Some(_) => (PRINTED, DUMPED),
    };
    let mut writer = OddWriter {
        taken: Vec::new(test.alloc()),
        left: k,
        odd,
        hands_on: true,
    };
    let answer = answers(test.alloc(), schema, &mut reader, &mut writer);
    check_answer(test, answer, want, row);
    check_eq(
        test,
        &printed.get(..count),
        &Some(writer.taken.as_slice()),
        row,
    );
}

const UNWRITTEN: (Result<bool, RunError>, u8) = (Err(RunError::Write), 2);

const WRITTEN: (Result<bool, RunError>, u8) = (Ok(true), 0);

// The k-th write, after as many bytes less one.
fn check_write(test: &Test<'_>, k: usize) {
    let before = k.wrapping_sub(1);
    let (nothing, interrupted) = ((k, Odd::GivesNothing), (k, Odd::IsInterrupted));
    check_writing(
        test,
        None,
        (k, Odd::Fails),
        UNWRITTEN,
        before,
        "a write that fails",
    );
    check_writing(
        test,
        None,
        nothing,
        UNWRITTEN,
        before,
        "a write that takes nothing",
    );
    check_writing(
        test,
        None,
        interrupted,
        WRITTEN,
        96,
        "a write that is interrupted",
    );
}

fn check_handing_on(test: &Test<'_>, script: &[u8], count: usize) {
    let mut reader = script;
    let mut writer = OddWriter {
        taken: Vec::new(test.alloc()),
        left: 0,
        odd: Odd::Fails,
        hands_on: false,
    };
    let answer = answers(test.alloc(), None, &mut reader, &mut writer);
    check_eq(test, &answer, &Err(RunError::Write), "a flush that fails");
    check_eq(
        test,
        &writer.taken.len(),
        &count,
        "what is written before it",
    );
}

#[test]
fn each_write_in_turn(rt: HostRuntime) -> Result<(), Fail> {
    let test = Test::new(&rt);
    for k in 1..97 {
        check_write(&test, k);
    }
    check_writing(
        &test,
        None,
        (97, Odd::Fails),
        WRITTEN,
        96,
        "no write that fails",
    );
    check_handing_on(&test, SCRIPT, 96);
    check_handing_on(&test, b"", 0);
    test.end()
}

// 96 reads, one more at the end, and 54 writes.
fn check_ends_of_a_dump(test: &Test<'_>, schema: &Schema) {
    for k in 1..98 {
        let odd = (k, Odd::Fails);
        check_reading(test, Some(schema), odd, UNREAD, b"", "a read of a dump");
    }
    for k in 1..55 {
        let odd = (k, Odd::Fails);
        check_writing(
            test,
            Some(schema),
            odd,
            UNWRITTEN,
            k - 1,
            "a write of a dump",
        );
    }
    check_writing(
        test,
        Some(schema),
        (0, Odd::Fails),
        WRITTEN,
        54,
        "a whole dump",
    );
}

#[test]
fn each_end_of_a_dump(rt: HostRuntime) -> Result<(), Fail> {
    let test = Test::new(&rt);
    match schema(rt.alloc(), 0) {
        Ok(schema) => check_ends_of_a_dump(&test, &schema),
        Err(_) => check(&test, false, "memory for a schema"),
    }
    test.end()
}
