//! The output of a call, and whether what reads it is gone.

ghost use Rattle.std.specs.Prelude.{◌≡◌, ◌||◌};
ghost use Rattle.std.specs.Io.{WritesAtMost};
ghost use Rattle.std.specs.Io.KnownBytes.{Keeps, WriteAppends};
ghost use Rattle.planus_cli.specs.Outputs as spec;

use std::io;
use std::io::{ErrorKind, Write};

/// A writer, and whether what reads from it is gone.
#[derive(Drop)]
pub struct Output<W> {
    pub writer: W,
    /// Whether a call failed with [`ErrorKind::BrokenPipe`].
    pub closed: bool,
}

fn is_broken(kind: ErrorKind) -> bool
    ensures { result ≡ spec.is_broken kind }
{
    matches!(kind, ErrorKind::BrokenPipe)
}

/// Whether a call failed since what reads is gone.
fn breaks<T>(outcome: &io::Result<T>) -> bool
    ensures { result ≡ spec.breaks outcome.now }
{
    match outcome {
        Ok(_) => false,
        Err(error) => is_broken(error.kind()),
    }
}

impl<W: Write> Write for Output<W> {
    ghost contents = { λ output. W.contents output.writer };

    fn write(&mut self, buf: &[u8]) -> io::Result<usize>
        ensures bound { WritesAtMost result buf.now }
        ensures bytes { WriteAppends (W.contents self.old.writer) (W.contents self.new.writer)
            result buf.now }
        ensures closed { self.new.closed ≡ (self.old.closed || spec.breaks result) }
    {
        let written = self.writer.write(buf);
        self.closed = self.closed || breaks(&written);
        written
    }

    fn flush(&mut self) -> io::Result<()>
        ensures bytes { Keeps (W.contents self.old.writer) (W.contents self.new.writer) }
        ensures closed { self.new.closed ≡ (self.old.closed || spec.breaks result) }
    {
        let flushed = self.writer.flush();
        self.closed = self.closed || breaks(&flushed);
        flushed
    }
}
