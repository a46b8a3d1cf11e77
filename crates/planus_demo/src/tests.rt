mod dumper;
mod dumps;
mod errors;
mod failing_ends;
mod long_scripts;
mod monster;
mod no_memory;
mod other_builders;
mod program;
mod scripts;
mod settings;
mod weapon;

use planus::errors::ErrorKind;
use planus::{
    BuildError, Builder, Caches, Finished, Offset, SliceWithStartOffset, TableRead, replay,
};
use planus_dump::Schema;
use planus_script::dump_run::run_dump;
use planus_script::run::{RunError, run, status};
use planus_script::script::{Script, parse};
use planus_testing::{Test, check_bytes, check_eq};
use std::alloc::Global;
use std::io::{Read, Write};
use std::test::Fail;

// A function that owns a builder or a vector is slow to prove, so most tests lend these.

fn answers<R: Read, W: Write>(
    alloc: Global,
    schema: Option<&Schema>,
    reader: &mut R,
    writer: &mut W,
) -> Result<bool, RunError> {
    match schema {
        None => run(alloc, reader, writer),
        Some(schema) => run_dump(alloc, schema, reader, writer),
    }
}

fn ran(alloc: Global, script: &[u8], printed: &mut Vec<u8>) -> (Result<bool, RunError>, usize) {
    let mut reader = script;
    let answer = run(alloc, &mut reader, printed);
    (answer, reader.len())
}

fn check_answer(
    test: &Test<'_>,
    answer: Result<bool, RunError>,
    want: (Result<bool, RunError>, u8),
    row: &str,
) {
    check_eq(test, &answer, &want.0, row);
    check_eq(test, &status(&answer), &want.1, row);
}

fn check_script(
    test: &Test<'_>,
    script: &[u8],
    unread: usize,
    printed: &[u8],
    clean: bool,
    row: &str,
) {
    let mut writer = Vec::new(test.alloc());
    let (answer, left) = ran(test.alloc(), script, &mut writer);
    check_answer(test, answer, (Ok(clean), if clean { 0 } else { 1 }), row);
    check_eq(test, &left, &unread, row);
    check_bytes(test, writer.as_slice(), printed, row);
}

fn finish_with<T>(builder: &mut Builder, root: Offset<T>) -> Result<&[u8], BuildError> {
    if root.distance() as usize > builder.len() {
        return Err(BuildError::TooLarge);
    }
    builder.finish(root, None)
}

fn check_a_text(test: &Test<'_>, finished: &Finished) {
    let whole = SliceWithStartOffset::new(finished.bytes.as_slice(), 0);
    let text: Result<&str, ErrorKind> = TableRead::from_buffer(whole, 0);
    check_eq(test, &text, &Ok("Axe"), "a text");
    match finished.places.as_slice() {
        [place] => check_eq(test, &(place.step, place.distance), &(0, 8), "its place"),
        places => check_eq(test, &places.len(), &1, "the places"),
    }
}

fn check_replay(test: &Test<'_>, script: &Script) {
    match replay(test.alloc(), Caches::all(), script.steps.as_slice()) {
        Ok(finished) => match finished.as_slice() {
            [finished] => check_a_text(test, finished),
            all => check_eq(test, &all.len(), &1, "the finishes"),
        },
        Err(error) => check_eq(test, &Some(error), &None, "a replay"),
    }
}

#[test]
fn text_reads_back(rt: HostRuntime) -> Result<(), Fail> {
    let test = Test::new(&rt);
    match parse(rt.alloc(), b"text Axe\nfinish 0\n") {
        Ok(script) => check_replay(&test, &script),
        Err(error) => check_eq(&test, &Some(error), &None, "a script"),
    }
    test.end()
}
