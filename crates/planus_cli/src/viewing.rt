//! Buffers, shown by a schema.

ghost use Rattle.std.specs.Prelude.{◌≡◌, IfOk, IfErr};
ghost use Rattle.planus_cli.specs.Viewing as spec;

use crate::streams::{CallError, write_out};
use planus_dump::{End, Schema, Seen, ViewError, view};
use std::alloc::Global;
use std::io::Write;

/// How much of a buffer is shown.
#[derive(Clone, Copy)]
pub struct Limits {
    /// The greatest number of lines.
    pub lines: usize,
    /// The greatest number of their bytes.
    pub bytes: usize,
}

impl From<ViewError> for CallError {
    ghost use Rattle.std.specs.Prelude.{◌≡◌};
    ghost use Rattle.planus_cli.specs.Viewing as spec;

    ghost from_gives = { λ error e. e ≡ spec.call_error error };

    fn from(error: ViewError) -> CallError {
        match error {
            ViewError::OutOfMemory => CallError::OutOfMemory,
            ViewError::BadSchema => CallError::BadSchema,
            ViewError::Write => CallError::Write,
        }
    }
}

pub(crate) fn end_text(end: End) -> &'static str
    ensures { result.now ≡ spec.end_text end }
{
    match end {
        End::Whole => "",
        End::TooDeep => ".. what follows is nested too deep\n",
        End::TooManyLines => ".. more lines follow; see --lines\n",
        End::TooManyBytes => ".. more bytes follow; see --bytes\n",
    }
}

/// Whether all is shown and no line states an error.
pub(crate) fn is_clean(seen: Seen) -> bool
    ensures { result ≡ spec.is_clean seen.end seen.has_fault }
{
    matches!(seen.end, End::Whole) && !seen.has_fault
}

/// Whether a limit was reached.
pub(crate) fn is_cut(end: End) -> bool
    ensures { result ≡ spec.is_cut end }
{
    matches!(end, End::TooManyLines | End::TooManyBytes)
}

/// Writes the first lines of a buffer as they are made, and why more are left out. Returns why, and
/// whether a line states an error, and how much of the limits is left.
///
/// Fails where memory is refused or writing fails, after a beginning of them, and with
/// [`CallError::BadSchema`] for a schema that isn't good (a sound one's is).
pub fn view_buffer<W: Write>(
    alloc: Global,
    schema: &Schema,
    bytes: &[u8],
    limits: Limits,
    writer: &mut W,
) -> Result<Seen, CallError>
    ensures shown { IfOk result (λ seen. spec.WritesView schema.now bytes.now limits.lines
        limits.bytes
        seen (W.contents writer.old) (W.contents writer.new)) }
    ensures failed { IfErr result (λ error. spec.FailsViewing schema.now bytes.now limits.lines
        limits.bytes error (W.contents writer.old) (W.contents writer.new)) }
{
    let seen = view(alloc, schema, bytes, limits.lines, limits.bytes, writer)?;
    write_out(writer, end_text(seen.end).as_bytes())?;
    Ok(seen)
}
