//! From arguments and a reader to two writers.
ghost use Rattle.std.specs.Prelude.{◌≡◌, Option, None, IfOk, IfErr, IfSome};
ghost use Rattle.planus_script.specs.Runner.{LeavesUnwritten};
ghost use Rattle.planus_demo.specs.ModeWords.{IsModeFor};
ghost use Rattle.planus_demo.specs.Programs.{DoesMode, DumpsRoot, SaysUnknown, Tells, told_text};

use crate::ending::Ending;
use crate::mode::{mode, schema};
use crate::modes::Mode;
use planus_script::dump_run::run_dump;
use planus_script::run::{RunError, run, write_out};
use std::alloc::Global;
use std::env;
use std::env::Env;
use std::io::{ErrorKind, Read, Write};

const USAGE: &str = "usage: planus_demo < SCRIPT\n       \
    planus_demo weapon < BYTES\n       planus_demo monster < BYTES\n";

fn words_of<E: Env + AllocGlobal>(env: &E) -> Result<Option<Vec<String>>, RunError> {
    let mut words = Vec::new(env.alloc());
    let mut arguments = match env::args(env) {
        Ok(arguments) => arguments,
        Err(error) if error.kind() == ErrorKind::OutOfMemory => return Err(RunError::OutOfMemory),
        Err(_) => return Ok(None),
    };
    let _name = arguments.next();
    for word in arguments {
        if words.push(word).is_err() {
            return Err(RunError::OutOfMemory);
        }
    }
    Ok(Some(words))
}

fn dump_root<R: Read, W: Write>(
    alloc: Global,
    root: usize,
    reader: &mut R,
    writer: &mut W,
) -> Result<bool, RunError>
    ensures printed { IfOk result (λ clean. IfSome (R.remaining reader.old) (λ input.
        DumpsRoot root input clean (W.contents writer.old) (W.contents writer.new))) }
    ensures unwritten { IfErr result
        (λ error. LeavesUnwritten error (W.contents writer.old) (W.contents writer.new)) }
{
    let schema = schema(alloc, root)?;
    run_dump(alloc, &schema, reader, writer)
}

fn refuse<W: Write>(writer: &mut W) -> Result<bool, RunError>
    ensures printed { IfOk result (λ clean.
        SaysUnknown clean (W.contents writer.old) (W.contents writer.new)) }
    ensures error { IfErr result (λ error. error ≡ RunError.Write) }
{
    write_out(writer, b"unknown argument\n")?;
    Ok(false)
}

/// Runs in this mode, or without one prints a message and reads nothing. Returns whether all went
/// well.
pub fn run_mode<R: Read, W: Write>(
    alloc: Global,
    mode: Option<Mode>,
    reader: &mut R,
    writer: &mut W,
) -> Result<bool, RunError>
    ensures printed { IfOk result (λ clean. DoesMode mode (R.remaining reader.old) clean
        (W.contents writer.old) (W.contents writer.new)) }
    ensures unread { mode ≡ None → reader.new ≡ reader.old }
    ensures unknown { mode ≡ None → IfErr result (λ error. error ≡ RunError.Write) }
    ensures unwritten { IfErr result
        (λ error. LeavesUnwritten error (W.contents writer.old) (W.contents writer.new)) }
{
    match mode {
        Some(Mode::Script) => run(alloc, reader, writer),
        Some(Mode::Weapon) => dump_root(alloc, 0, reader, writer),
        Some(Mode::Monster) => dump_root(alloc, 1, reader, writer),
        None => refuse(writer),
    }
}

fn mode_of(words: Option<&[String]>) -> Option<Mode>
    ensures { IsModeFor words.entry result }
{
    match words {
        Some(words) => mode(words),
        None => None,
    }
}

fn words_for(answer: Result<bool, RunError>, mode: Option<Mode>) -> &'static str
    ensures { result.now ≡ told_text answer mode }
{
    match answer {
        Err(RunError::OutOfMemory) => "out of memory\n",
        Err(RunError::Read) => "can't read standard input\n",
        Err(RunError::Write) => "can't write standard output\n",
        Ok(_) => match mode {
            Some(_) => "",
            None => USAGE,
        },
    }
}

fn tell<W: Write>(errors: &mut W, words: &str) -> bool
    ensures { Tells words.now result (W.contents errors.old) (W.contents errors.new) }
{
    words.is_empty() || write_out(errors, words.as_bytes()).is_ok()
}

/// Runs in the mode of these words, as [`run_mode`], and prints an error or the usage to `errors`.
/// `None` stands for words that are no UTF-8.
pub fn run_words<R: Read, W: Write, X: Write>(
    alloc: Global,
    words: Option<&[String]>,
    reader: &mut R,
    writer: &mut W,
    errors: &mut X,
) -> Ending
    ensures printed { (mode : Option Mode) × IsModeFor words.entry mode
        × IfOk result.answer (λ clean. DoesMode mode (R.remaining reader.old) clean
        (W.contents writer.old) (W.contents writer.new))
        × Tells (told_text result.answer mode) result.told
        (X.contents errors.old) (X.contents errors.new) }
    ensures unwritten { IfErr result.answer
        (λ error. LeavesUnwritten error (W.contents writer.old) (W.contents writer.new)) }
{
    let mode = mode_of(words);
    let answer = run_mode(alloc, mode, reader, writer);
    let told = tell(errors, words_for(answer, mode));
    Ending { answer, told }
}

/// Runs as [`run_words`] says, on the words of the program's arguments. Where these don't fit the
/// memory, nothing is read.
pub fn run_program<E: Env + AllocGlobal, R: Read, W: Write, X: Write>(
    env: &E,
    reader: &mut R,
    writer: &mut W,
    errors: &mut X,
) -> Ending
    ensures printed { (mode : Option Mode) × IfOk result.answer (λ clean.
        DoesMode mode (R.remaining reader.old) clean (W.contents writer.old)
        (W.contents writer.new)) × Tells (told_text result.answer mode) result.told
        (X.contents errors.old) (X.contents errors.new) }
    ensures unwritten { IfErr result.answer
        (λ error. LeavesUnwritten error (W.contents writer.old) (W.contents writer.new)) }
{
    match words_of(env) {
        Ok(Some(words)) => run_words(env.alloc(), Some(words.as_slice()), reader, writer, errors),
        Ok(None) => run_words(env.alloc(), None, reader, writer, errors),
        Err(error) => {
            let answer = Err(error);
            let told = tell(errors, words_for(answer, None));
            Ending { answer, told }
        }
    }
}
