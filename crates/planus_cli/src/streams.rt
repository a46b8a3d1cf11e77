//! Reading whole texts, and writing.

ghost use Rattle.std.specs.Prelude.{◌≡◌, ◌+◌, take, IfOk, IfErr, IfSome, OnOk, OnErr};
ghost use Rattle.std.specs.Io.KnownBytes.{Appends};
ghost use Rattle.planus_dump.specs.Writing.{WritesBeginning};
ghost use Rattle.planus_cli.specs.SchemaTexts as spec;

use crate::file_error::FileError;
use crate::shown::put_shown;
use std::alloc::{AllocError, Global};
use std::io::{Read, Write};

/// The greatest length of a text, in bytes.
pub const GREATEST_TEXT: usize = 1073741824;

/// One byte more shows that a text is too long.
const MOST_READ: u64 = GREATEST_TEXT as u64 + 1;

/// Why a call ends before what it does is done.
#[derive(Clone, Copy)]
pub enum CallError {
    /// Memory was refused.
    OutOfMemory,
    /// A word of the call can't be read.
    Read,
    /// Writing failed.
    Write,
    /// A schema isn't sound, so no buffer is shown by it.
    BadSchema,
}

impl From<AllocError> for CallError {
    ghost use Rattle.std.specs.Prelude.{◌≡◌};
    ghost use Rattle.planus_cli.specs.declared.streams.CallError.TheVariants.{OutOfMemory};

    ghost from_gives = { λ _ e. e ≡ OutOfMemory };

    fn from(_error: AllocError) -> CallError {
        CallError::OutOfMemory
    }
}

/// Returns the bytes of a text, at most one more than [`GREATEST_TEXT`].
pub fn read_all<R: Read>(alloc: Global, reader: &mut R) -> Result<Vec<u8>, FileError>
    ensures { IfOk result (λ text. IfSome (R.remaining reader.old)
        (λ bytes. text.items ≡ take (spec.greatest_text + 1) bytes)) }
{
    let mut text = Vec::new(alloc);
    match reader.take(MOST_READ).read_to_end(&mut text) {
        Ok(_) => Ok(text),
        Err(error) => Err(FileError::of(error.kind())),
    }
}

/// Writes all bytes, and flushes. If this fails, what was written is a beginning of them.
pub fn write_out<W: Write>(writer: &mut W, bytes: &[u8]) -> Result<(), CallError>
    ensures bytes { OnOk result (Appends (W.contents writer.old) (W.contents writer.new)
        bytes.now) }
    ensures begun { OnErr result (WritesBeginning bytes.now (W.contents writer.old)
        (W.contents writer.new)) }
    ensures error { IfErr result (λ error. error ≡ CallError.Write) }
{
    match planus_dump::write_out(writer, bytes) {
        Ok(()) => Ok(()),
        Err(_) => Err(CallError::Write),
    }
}

fn line(alloc: Global, before: &str, name: &str, after: &str) -> Result<Vec<u8>, AllocError>
    ensures { IfOk result (λ line. line.items ≡ spec.line_of before.now name.now after.now) }
{
    let mut line = Vec::from_slice(alloc, b"planus: ")?;
    line.extend_from_slice(before.as_bytes())?;
    put_shown(&mut line, name.as_bytes())?;
    line.extend_from_slice(after.as_bytes())?;
    line.push(b'\n')?;
    Ok(line)
}

/// Writes a line: these words after `planus: `, the name as a terminal may show it.
pub fn say<X: Write>(
    alloc: Global,
    errors: &mut X,
    before: &str,
    name: &str,
    after: &str,
) -> Result<(), CallError>
    ensures said { OnOk result (Appends (X.contents errors.old) (X.contents errors.new)
        (spec.line_of before.now name.now after.now)) }
    ensures begun { OnErr result (WritesBeginning (spec.line_of before.now name.now after.now)
        (X.contents errors.old) (X.contents errors.new)) }
{
    let line = line(alloc, before, name, after)?;
    write_out(errors, &line)?;
    Ok(())
}

/// Returns what is written where a call fails.
pub fn reason_of(error: CallError) -> &'static str
    ensures { result.now ≡ spec.reason_of error }
{
    match error {
        CallError::OutOfMemory => "planus: out of memory\n",
        CallError::Read => "planus: a word of the call is no text\n",
        CallError::Write => "planus: can't write\n",
        CallError::BadSchema => "planus: the schema isn't sound\n",
    }
}
