//! The program `planus`: start here.

ghost use Rattle.std.specs.Prelude.{◌≡◌, map, IfOk};
ghost use Rattle.std.specs.String.{string_bytes};
ghost use Rattle.planus_cli.specs.Arguments as spec;
ghost use Rattle.planus_cli.specs.Arguments.{words_of};
ghost use Rattle.planus_cli.specs.Outputs as outputs_spec;
ghost use Rattle.planus_cli.specs.Each.{RunsFiles};
ghost use Rattle.planus_cli.specs.Running.{RunsFile, Runs, SaysOrRuns};

use crate::arguments::{Command, Request, Words, request_of};
use crate::conform::conform;
use crate::dot::draw_graph;
use crate::files::{Files, HostFiles};
use crate::format::format_file;
use crate::output::Output;
use crate::pairs::{PairCommand, show_files};
use crate::rattle::print_code;
use crate::said::{CLEAN, FAILED, say as say_of};
use crate::sources::check_at;
use crate::streams::{CallError, reason_of, write_out};
use std::alloc::Global;
use std::env;
use std::io::Write;

/// Checks or formats a file. Returns the exit status.
fn run_file<F: Files, W: Write, X: Write>(
    files: &F,
    alloc: Global,
    format: bool,
    words: &Words<'_>,
    word: &str,
    writer: &mut W,
    errors: &mut X,
) -> Result<u8, CallError>
    ensures { IfOk result (λ status. RunsFile (F.disk files.now) format (words_of words.now)
        word.now status (W.contents writer.old) (W.contents writer.new)
        (X.contents errors.old) (X.contents errors.new)) }
{
    if format {
        format_file(files, alloc, words, word, writer, errors)
    } else {
        check_at(files, alloc, &words.folders, word, errors)
    }
}

/// Checks or formats each file. Returns the worst exit status.
fn run_files<F: Files, W: Write, X: Write>(
    files: &F,
    alloc: Global,
    format: bool,
    words: &Words<'_>,
    writer: &mut W,
    errors: &mut X,
) -> Result<u8, CallError>
    ensures { IfOk result (λ status. RunsFiles (RunsFile (F.disk files.now) format
        (words_of words.now)) (words_of words.now).files 0 status
        (W.contents writer.old) (W.contents writer.new)
        (X.contents errors.old) (X.contents errors.new)) }
{
    let mut worst = CLEAN;
    'words: for word in &words.files {
        let status = run_file(files, alloc, format, words, *word, writer, errors)?;
        worst = worst.max(status);
    }
    Ok(worst)
}

fn run_request<F: Files, W: Write, X: Write>(
    files: &F,
    alloc: Global,
    request: &Request<'_>,
    writer: &mut W,
    errors: &mut X,
) -> Result<u8, CallError>
    ensures { IfOk result (λ status. Runs (F.disk files.now) (spec.asked request.now) status
        (W.contents writer.old) (W.contents writer.new)
        (X.contents errors.old) (X.contents errors.new)) }
{
    let Request::Run { command, words } = request else {
        return Ok(FAILED);
    };
    match command {
        Command::View => show_files(files, alloc, PairCommand::View, words, writer, errors),
        Command::Json => show_files(files, alloc, PairCommand::Json, words, writer, errors),
        Command::Binary => show_files(files, alloc, PairCommand::Binary, words, writer, errors),
        Command::Rattle => print_code(files, alloc, words, errors),
        Command::Dot => draw_graph(files, alloc, words, writer, errors),
        Command::Conform => conform(files, alloc, words, writer, errors),
        Command::Check => run_files(files, alloc, false, words, writer, errors),
        Command::Format => run_files(files, alloc, true, words, writer, errors),
        // Said before.
        Command::Completions => Ok(FAILED),
    }
}

/// Runs the program with these words after its name. Returns the exit status.
///
/// Fails where memory is refused or writing fails.
pub fn run_words<F: Files, W: Write, X: Write>(
    files: &F,
    alloc: Global,
    words: &[String],
    writer: &mut W,
    errors: &mut X,
) -> Result<u8, CallError>
    ensures { IfOk result (λ status. SaysOrRuns (F.disk files.now)
        (spec.request_of (map string_bytes words.now)) status
        (W.contents writer.old) (W.contents writer.new)
        (X.contents errors.old) (X.contents errors.new)) }
{
    let request = request_of(alloc, words)?;
    match say_of(alloc, &request, writer, errors)? {
        Some(status) => Ok(status),
        None => run_request(files, alloc, &request, writer, errors),
    }
}

fn words_of(rt: &HostRuntime) -> Result<Vec<String>, CallError> {
    let mut words = Vec::new(rt.alloc());
    let Ok(mut arguments) = env::args(rt) else {
        return Err(CallError::Read);
    };
    let _name = arguments.next();
    for word in arguments {
        if words.push(word).is_err() {
            return Err(CallError::OutOfMemory);
        }
    }
    Ok(words)
}

fn run<W: Write, X: Write>(
    rt: &HostRuntime,
    writer: &mut W,
    errors: &mut X,
) -> Result<u8, CallError> {
    let words = words_of(rt)?;
    run_words(&HostFiles { rt }, rt.alloc(), &words, writer, errors)
}

/// Whether nothing is said of the error, as what reads the output is gone.
fn ends_quietly(error: CallError, closed: bool) -> bool
    ensures { result ≡ outputs_spec.ends_quietly error closed }
{
    matches!(error, CallError::Write) && closed
}

/// Says why a call failed, or nothing where what reads the output is gone. Returns the exit status.
fn end<X: Write>(error: CallError, closed: bool, errors: &mut X) -> u8
    ensures { outputs_spec.Ends error closed result (X.contents errors.old)
        (X.contents errors.new) }
{
    if ends_quietly(error, closed) {
        return CLEAN;
    }
    let _said = write_out(errors, reason_of(error).as_bytes());
    FAILED
}

/// Runs the program. Returns the exit status: 0 where all is well or what reads the output is gone,
/// 1 where a schema or a buffer has a fault, something breaks or a file isn't what is printed, 2
/// where the call is wrong, a file can't be read or written, or memory is refused.
pub fn run_program<W: Write, X: Write>(rt: &HostRuntime, writer: &mut W, errors: &mut X) -> u8 {
    let mut output = Output {
        writer,
        closed: false,
    };
    match run(rt, &mut output, errors) {
        Ok(status) => status,
        Err(error) => end(error, output.closed, errors),
    }
}
