//! From a line of bytes to its dump.
ghost use Rattle.std.specs.Prelude.{◌≡◌, ◌++◌, map, IfOk, IfErr, IfSome, OnOk};
ghost use Rattle.std.specs.List.{flat_map};
ghost use Rattle.std.specs.String.{string_bytes};
ghost use Rattle.planus_script.specs.Printed.{line_of};
ghost use Rattle.planus_script.specs.inner.Outputs.{is_clean, printed_text};
ghost use Rattle.planus_script.specs.Runner.{LeavesUnwritten};
ghost use Rattle.planus_script.specs.DumpRuns.{spaced_bytes, input_bytes, vec_bytes};
ghost use Rattle.planus_script.specs.DumpRuns.{IsFault, PrintsDumpAnswer, PrintsDump, WritesDump};
ghost use Rattle.planus_script.specs.DumpRuns.{BeginsDump};

use crate::output::Output;
use crate::run::{GREATEST_SCRIPT, RunError, read_script, write_out};
use crate::script::byte_of;
use planus_dump::{DumpError, Schema, dump};
use std::alloc::{AllocError, Global};
use std::io::{Read, Write};

const BUDGET: usize = 10000;

/// `None` where it is no line of bytes. The line isn't empty.
fn spaced(alloc: Global, line: &[u8]) -> Result<Option<Vec<u8>>, AllocError>
    ensures { IfOk result (λ bytes. vec_bytes bytes ≡ spaced_bytes line.now) }
{
    let mut bytes = Vec::with_capacity(alloc, line.len() / 3)?;
    let mut rest = line;
    while let [high, low, space, more @ ..] = rest {
        if *space != b' ' {
            return Ok(None);
        }
        match byte_of(*high, *low) {
            Some(byte) => bytes.push(byte)?,
            None => return Ok(None),
        }
        rest = more;
    }
    let [high, low] = rest else {
        return Ok(None);
    };
    match byte_of(*high, *low) {
        Some(byte) => bytes.push(byte)?,
        None => return Ok(None),
    }
    Ok(Some(bytes))
}

fn bytes_of_input(alloc: Global, input: &[u8]) -> Result<Option<Vec<u8>>, AllocError>
    ensures { IfOk result (λ bytes. vec_bytes bytes ≡ input_bytes input.now) }
{
    let line = match input {
        [line @ .., b'\n'] => line,
        line => line,
    };
    if line.is_empty() {
        return Ok(Some(Vec::new(alloc)));
    }
    spaced(alloc, line)
}

fn fault(alloc: Global, words: &str) -> Result<Output, AllocError>
    ensures { IfOk result (λ output. IsFault words.now (is_clean output) (printed_text output)) }
{
    let text = format!(in alloc; "{words}\n")?;
    Ok(Output { clean: false, text })
}

fn push_line(text: &mut String, line: &str) -> Result<(), AllocError>
    ensures { OnOk result (string_bytes text.new ≡ string_bytes text.old ++ line_of line.now) }
{
    text.push_str(line)?;
    text.push('\n')
}

fn lines_text(alloc: Global, lines: &[String]) -> Result<String, AllocError>
    ensures { IfOk result (λ text. string_bytes text
        ≡ flat_map line_of (map string_bytes lines.now)) }
{
    let mut text = String::new(alloc);
    for line in lines {
        push_line(&mut text, line.as_str())?;
    }
    Ok(text)
}

fn answer_of_dump(
    alloc: Global,
    answer: &Result<Vec<String>, DumpError>,
) -> Result<Output, AllocError>
    ensures { IfOk result (λ output. PrintsDumpAnswer answer.now
        (is_clean output) (printed_text output)) }
{
    match answer {
        Ok(lines) => {
            let text = lines_text(alloc, lines.as_slice())?;
            Ok(Output { clean: true, text })
        }
        Err(DumpError::OutOfMemory) => fault(alloc, "out of memory"),
        Err(DumpError::BadSchema) => fault(alloc, "bad schema"),
        Err(DumpError::TooDeep) => fault(alloc, "too deep"),
        Err(DumpError::TooManyLines) => fault(alloc, "too many lines"),
    }
}

fn output_of_dump(alloc: Global, schema: &Schema, input: &[u8]) -> Result<Output, AllocError>
    ensures { IfOk result (λ output. PrintsDump schema.now input.now
        (is_clean output) (printed_text output)) }
{
    if input.len() > GREATEST_SCRIPT {
        return fault(alloc, "script too long");
    }
    match bytes_of_input(alloc, input)? {
        None => fault(alloc, "bad hex"),
        Some(bytes) => {
            let answer = dump(alloc, schema, bytes.as_slice(), BUDGET);
            answer_of_dump(alloc, &answer)
        }
    }
}

/// Reads a line of bytes, as [`crate::run::run`] prints it, and prints its dump, or an error.
/// Returns whether there is a dump.
pub fn run_dump<R: Read, W: Write>(
    alloc: Global,
    schema: &Schema,
    reader: &mut R,
    writer: &mut W,
) -> Result<bool, RunError>
    ensures printed { IfOk result (λ clean. IfSome (R.remaining reader.old) (λ input.
        WritesDump schema.now input clean (W.contents writer.old) (W.contents writer.new))) }
    ensures unwritten { IfErr result
        (λ error. LeavesUnwritten error (W.contents writer.old) (W.contents writer.new)) }
    ensures begun { IfErr result (λ error. error ≡ RunError.Write
        → IfSome (R.remaining reader.old) (λ input.
        BeginsDump schema.now input (W.contents writer.old) (W.contents writer.new))) }
{
    let input = read_script(alloc, reader)?;
    let output = output_of_dump(alloc, schema, input.as_slice())?;
    write_out(writer, output.text.as_bytes())?;
    Ok(output.clean)
}
