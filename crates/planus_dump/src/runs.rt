//! Dumps of what steps finish.
ghost use Rattle.std.specs.Prelude.{map};
ghost use Rattle.planus_write.specs.View.{settings_of};
ghost use Rattle.planus.specs.Steps.{bare_step};
ghost use Rattle.planus_dump.specs.Runs.{DumpsRun};

use crate::dumps::{DumpError, dump};
use crate::schemas::Schema;
use planus::{Caches, ReplayError, Step, replay};
use std::alloc::Global;
use std::error::Error;
use std::fmt;

/// Why steps have no dump.
#[derive(Clone, Copy, Debug, PartialEq, Eq)]
pub enum DumpRunError {
    /// The steps fail.
    Replay(ReplayError),
    /// What they finish has no dump.
    Dump(DumpError),
}

impl fmt::Display for DumpRunError {
    ghost use Rattle.planus_dump.specs.Texts.{dump_run_error_text};
    ghost use Rattle.std.specs.Prelude.{Some};

    ghost output = { λ error. Some (dump_run_error_text error) };

    fn fmt<W: fmt::Write>(&self, f: &mut fmt::Formatter<W>) -> fmt::Result {
        match self {
            DumpRunError::Replay(error) => write!(f, "{error}"),
            DumpRunError::Dump(error) => write!(f, "{error}"),
        }
    }
}

impl Error for DumpRunError {}

/// Runs steps, and returns the lines of their first finish, at most the budget, or `None` where
/// they have none.
///
/// If the schema fits what the root's step wrote, no line states an error, unless the finish is
/// size-prefixed: its bytes are dumped from the size on.
pub fn dump_run(
    alloc: Global,
    caches: Caches,
    steps: &[Step],
    schema: &Schema,
    budget: usize,
) -> Result<Option<Vec<String>>, DumpRunError>
    ensures { DumpsRun (settings_of caches) (map bare_step steps.now) schema.now budget result }
{
    let finished = match replay(alloc, caches, steps) {
        Ok(finished) => finished,
        Err(error) => return Err(DumpRunError::Replay(error)),
    };
    match finished.as_slice() {
        [] => Ok(None),
        [first, ..] => match dump(alloc, schema, first.bytes.as_slice(), budget) {
            Ok(lines) => Ok(Some(lines)),
            Err(error) => Err(DumpRunError::Dump(error)),
        },
    }
}
