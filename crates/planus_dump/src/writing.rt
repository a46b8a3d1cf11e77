//! Writing, such that it is known what was written where it fails.
ghost use Rattle.std.specs.Prelude.{◌≤◌, length, IfOk, OnOk, OnErr};
ghost use Rattle.std.specs.Io.KnownBytes.{Appends, WriteAppends};
ghost use Rattle.planus_dump.specs.Writing.{WritesBeginning};

use std::io::{ErrorKind, Write};

/// Writing failed.
#[derive(Clone, Copy, Debug, PartialEq, Eq)]
pub struct WriteError;

/// Writes some of the bytes, and returns how many: 0 where the write was interrupted.
fn write_some<W: Write>(writer: &mut W, bytes: &[u8]) -> Result<usize, WriteError>
    ensures bound { IfOk result (λ count. count ≤ length bytes.now) }
    ensures bytes { WriteAppends (W.contents writer.old) (W.contents writer.new) result bytes.now }
{
    match writer.write(bytes) {
        Ok(0) => Err(WriteError),
        Ok(count) => Ok(count),
        Err(error) if error.kind() == ErrorKind::Interrupted => Ok(0),
        Err(_) => Err(WriteError),
    }
}

/// Writes all bytes. There are up to 2^64 - 1 writes, with those that are interrupted.
pub fn write_whole<W: Write>(writer: &mut W, bytes: &[u8]) -> Result<(), WriteError>
    ensures bytes { OnOk result (Appends (W.contents writer.old)
        (W.contents writer.new) bytes.now) }
    ensures begun { OnErr result (WritesBeginning bytes.now (W.contents writer.old)
        (W.contents writer.new)) }
{
    let mut rest = bytes;
    'writes: for _ in 0..u64::MAX {
        if rest.is_empty() {
            return Ok(());
        }
        let count = write_some(writer, rest)?;
        rest = rest.split_at(count).1;
    }
    Err(WriteError)
}

/// Writes all bytes, and flushes the writer. If this fails, what was written is a beginning of
/// them.
pub fn write_out<W: Write>(writer: &mut W, bytes: &[u8]) -> Result<(), WriteError>
    ensures bytes { OnOk result (Appends (W.contents writer.old)
        (W.contents writer.new) bytes.now) }
    ensures begun { OnErr result (WritesBeginning bytes.now (W.contents writer.old)
        (W.contents writer.new)) }
{
    write_whole(writer, bytes)?;
    match writer.flush() {
        Ok(()) => Ok(()),
        Err(_) => Err(WriteError),
    }
}
