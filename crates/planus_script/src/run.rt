//! From a reader to a writer.
ghost use Rattle.std.specs.Prelude.{◌≡◌, ◌+◌, ◌<◌, take, length, IfOk, IfErr, IfSome};
ghost use Rattle.std.specs.Prelude.{OnOk, OnErr};
ghost use Rattle.std.specs.Io.{ReadsAtMost};
ghost use Rattle.std.specs.Io.KnownBytes.{Appends, Consumes, IsAtEnd, Keeps};
ghost use Rattle.planus_script.specs.Printed.{greatest_script, PrintedOrOutOfMemory};
ghost use Rattle.planus_script.specs.inner.Outputs.{is_clean, printed_text};
ghost use Rattle.planus_script.specs.Runner.{WritesPrinted, LeavesUnwritten, StopsReading};
ghost use Rattle.planus_script.specs.Runner.{BeginsPrinted};
ghost use Rattle.planus_dump.specs.Writing.{WritesBeginning};
ghost use Rattle.planus_script.specs.Runner.{status_of};

use crate::output::Output;
use crate::print::answer_text;
use crate::script::{ParseError, parse};
use planus::{Caches, replay};
use std::alloc::{AllocError, Global};
use std::error::Error;
use std::fmt;
use std::io::{ErrorKind, Read, Write};

/// The greatest length of a script in bytes.
pub const GREATEST_SCRIPT: usize = 1048576;

const MOST_READ: usize = 8192;

/// Why a run failed.
#[derive(Clone, Copy, Debug, PartialEq, Eq)]
pub enum RunError {
    /// An allocation failed. Nothing was written.
    OutOfMemory,
    /// Reading failed. Nothing was written.
    Read,
    /// Writing failed. What was written is a beginning of what is to be.
    Write,
}

impl fmt::Display for RunError {
    ghost use Rattle.planus_script.specs.Texts.{run_error_text};
    ghost use Rattle.std.specs.Prelude.{Some};

    ghost output = { λ error. Some (run_error_text error) };

    fn fmt<W: fmt::Write>(&self, f: &mut fmt::Formatter<W>) -> fmt::Result {
        let text = match self {
            RunError::OutOfMemory => "out of memory",
            RunError::Read => "reading failed",
            RunError::Write => "writing failed",
        };
        write!(f, "{text}")
    }
}

impl Error for RunError {}

impl From<AllocError> for RunError {
    ghost use Rattle.std.specs.Prelude.{◌≡◌};
    ghost use Rattle.planus_script.specs.declared.run.RunError.TheVariants.{OutOfMemory};

    ghost from_gives = { λ _ e. e ≡ OutOfMemory };

    fn from(_error: AllocError) -> RunError {
        RunError::OutOfMemory
    }
}

/// Returns 0 at the end. An interrupted read is repeated, up to 2^64 - 1 times.
fn read_some<R: Read>(reader: &mut R, bytes: &mut [u8]) -> std::result::Result<usize, RunError>
    ensures bound { ReadsAtMost result bytes.new }
    ensures bytes { IfOk result (λ count. Consumes (R.remaining reader.old)
        (R.remaining reader.new) (take count bytes.new)) }
    ensures end { IfOk result (λ count. count ≡ 0 → 0 < length bytes.old
        → IsAtEnd (R.remaining reader.new)) }
    ensures err { OnErr result (Keeps (R.remaining reader.old) (R.remaining reader.new)) }
    ensures error { IfErr result (λ error. error ≡ RunError.Read) }
{
    for _ in 0..u64::MAX {
        match reader.read(bytes) {
            Ok(count) => return Ok(count),
            Err(error) if error.kind() == ErrorKind::Interrupted => {}
            Err(_) => return Err(RunError::Read),
        }
    }
    Err(RunError::Read)
}

/// Returns the bytes of a script. Reads at most one byte more than the longest script.
pub fn read_script<R: Read>(alloc: Global, reader: &mut R) -> std::result::Result<Vec<u8>, RunError>
    ensures bytes { IfOk result (λ input. IfSome (R.remaining reader.old)
        (λ bytes. input.items ≡ take (greatest_script + 1) bytes)) }
    ensures left { IfOk result
        (λ input. Consumes (R.remaining reader.old) (R.remaining reader.new) input.items) }
    ensures error { IfErr result
        (λ error. StopsReading error (R.remaining reader.old) (R.remaining reader.new)) }
{
    let mut input = Vec::new(alloc);
    let mut bytes = [0; MOST_READ];
    while input.len() <= GREATEST_SCRIPT {
        let most = (GREATEST_SCRIPT + 1 - input.len()).min(MOST_READ);
        let count = read_some(reader, &mut bytes[..most])?;
        if count == 0 {
            return Ok(input);
        }
        input.extend_from_slice(&bytes[..count])?;
    }
    Ok(input)
}

fn output_of(alloc: Global, input: &[u8]) -> std::result::Result<Output, AllocError>
    ensures { IfOk result (λ output. PrintedOrOutOfMemory input.now (is_clean output)
        (printed_text output)) }
{
    if input.len() > GREATEST_SCRIPT {
        let text = format!(in alloc; "script too long\n")?;
        return Ok(Output { clean: false, text });
    }
    match parse(alloc, input) {
        Err(ParseError::OutOfMemory) => Err(AllocError),
        Err(ParseError::Line { number, fault }) => {
            let text = format!(in alloc; "line {number}: {fault}\n")?;
            Ok(Output { clean: false, text })
        }
        Ok(script) => {
            let answer = replay(alloc, Caches::all(), script.steps.as_slice());
            let text = answer_text(alloc, script.numbers.as_slice(), &answer)?;
            Ok(Output {
                clean: answer.is_ok(),
                text,
            })
        }
    }
}

/// Writes all bytes, and flushes the writer. If this fails, what was written is a beginning of
/// them.
pub fn write_out<W: Write>(writer: &mut W, bytes: &[u8]) -> std::result::Result<(), RunError>
    ensures bytes { OnOk result (Appends (W.contents writer.old)
        (W.contents writer.new) bytes.now) }
    ensures begun { OnErr result (WritesBeginning bytes.now (W.contents writer.old)
        (W.contents writer.new)) }
    ensures error { IfErr result (λ error. error ≡ RunError.Write) }
{
    match planus_dump::write_out(writer, bytes) {
        Ok(()) => Ok(()),
        Err(_) => Err(RunError::Write),
    }
}

/// Reads a script, and prints a line of bytes for each finish, or the first error alone. Returns
/// whether it was clean.
pub fn run<R: Read, W: Write>(
    alloc: Global,
    reader: &mut R,
    writer: &mut W,
) -> std::result::Result<bool, RunError>
    ensures printed { IfOk result (λ clean. IfSome (R.remaining reader.old)
        (λ input. WritesPrinted input clean (W.contents writer.old) (W.contents writer.new))) }
    ensures unwritten { IfErr result
        (λ error. LeavesUnwritten error (W.contents writer.old) (W.contents writer.new)) }
    ensures begun { IfErr result (λ error. error ≡ RunError.Write
        → IfSome (R.remaining reader.old)
        (λ input. BeginsPrinted input (W.contents writer.old) (W.contents writer.new))) }
{
    let input = read_script(alloc, reader)?;
    let output = output_of(alloc, input.as_slice())?;
    write_out(writer, output.text.as_bytes())?;
    Ok(output.clean)
}

/// Returns the exit status: 0 for a clean script, 1 after a printed error, 2 where the run failed.
pub fn status(answer: &std::result::Result<bool, RunError>) -> u8
    ensures { result ≡ status_of answer.now }
{
    match answer {
        Ok(true) => 0,
        Ok(false) => 1,
        Err(_) => 2,
    }
}
