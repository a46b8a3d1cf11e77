use planus::{BuildError, CopyError, ReplayError, Why};
use planus_dump::DumpError;
use planus_script::run::RunError;
use planus_script::script::{ParseError, ReadFault};
use planus_testing::{Test, check, check_prints};
use std::io;
use std::test::Fail;

#[test]
fn refusals_print_their_texts(rt: HostRuntime) -> Result<(), Fail> {
    let test = Test::new(&rt);
    check_prints(&test, &BuildError::OutOfMemory, "out of memory");
    check_prints(&test, &BuildError::TooLarge, "too large");
    check_prints(&test, &CopyError::OutOfMemory, "out of memory");
    check_prints(&test, &ReplayError::OutOfMemory, "out of memory");
    check_prints(&test, &ReplayError::TooLarge, "too large");
    check_prints(&test, &RunError::OutOfMemory, "out of memory");
    check_prints(&test, &RunError::Read, "reading failed");
    check_prints(&test, &RunError::Write, "writing failed");
    test.end()
}

fn refused(error: BuildError) -> io::Result<()> {
    Err(error)?;
    Ok(())
}

#[test]
fn refused_writes_are_errors_of_programs(rt: HostRuntime) -> Result<(), Fail> {
    let test = Test::new(&rt);
    for (error, text) in [
        (BuildError::OutOfMemory, "out of memory"),
        (BuildError::TooLarge, "too large"),
    ] {
        match refused(error) {
            Ok(()) => check(&test, false, text),
            Err(error) => check_prints(&test, &error, text),
        }
    }
    test.end()
}

#[test]
fn faults_print_where_they_are(rt: HostRuntime) -> Result<(), Fail> {
    let test = Test::new(&rt);
    let step = ReplayError::BadStep {
        step: 12,
        why: Why::ZeroTag,
    };
    let line = ParseError::Line {
        number: 3,
        fault: ReadFault::BadHex,
    };
    check_prints(&test, &step, "step 12: zero tag");
    check_prints(&test, &line, "line 3: bad hex");
    check_prints(&test, &ParseError::OutOfMemory, "out of memory");
    check_prints(&test, &DumpError::OutOfMemory, "out of memory");
    check_prints(&test, &DumpError::BadSchema, "bad schema");
    check_prints(&test, &DumpError::TooDeep, "too deep");
    check_prints(&test, &DumpError::TooManyLines, "too many lines");
    test.end()
}
