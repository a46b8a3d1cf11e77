//! Where the lines of a walk go.
ghost use Rattle.std.specs.Prelude.{List};
ghost use Rattle.planus_dump.specs.Events.{Event};
ghost use Rattle.planus_dump.specs.inner.Shown.{event_of};
ghost use Rattle.planus_dump.specs.inner.Taking.{Puts};

use crate::line::Line;
use crate::sink_error::SinkError;

/// Where the lines of a walk go.
pub trait Lines {
    // what was before, the lines that it took, and what it is then
    ghost takes: { Self → List Event → Self → Type 0 };

    // the same where it failed at the last of the lines
    ghost breaks: { Self → List Event → Self → Type 0 };

    /// Takes a line.
    fn put(&mut self, line: Line) -> Result<(), SinkError>
        ensures { Puts takes breaks self.old (event_of line) result self.new };
}

/// Lines that are kept.
impl Lines for Vec<Line> {
    ghost use Rattle.planus_dump.specs.inner.Kept.{KeepsLines};

    ghost takes = { KeepsLines };

    ghost breaks = { λ _ _ _. Unit {0} };

    fn put(&mut self, line: Line) -> Result<(), SinkError> {
        match self.push(line) {
            Ok(()) => Ok(()),
            Err(_) => Err(SinkError::OutOfMemory),
        }
    }
}
