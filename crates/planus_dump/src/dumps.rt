//! A dump.
ghost use Rattle.planus_dump.specs.Dumped.{Dumped, events_of};
ghost use Rattle.planus_dump.specs.inner.Feeding.{Feeds};

use crate::end::End;
use crate::floats::line_texts;
use crate::line_sink::LineSink;
use crate::lines::Lines;
use crate::schemas::Schema;
use crate::sink_error::SinkError;
use crate::validate::is_good_schema;
use crate::walk::dump_table;
use planus::{Place, SliceWithStartOffset};
use std::alloc::{AllocError, Global};
use std::error::Error;
use std::fmt;

/// The root has depth 1.
const GREATEST_DEPTH: usize = 64;

/// Why there is no dump.
#[derive(Clone, Copy, Debug, PartialEq, Eq)]
pub enum DumpError {
    /// An allocation failed.
    OutOfMemory,
    /// The schema names a table, a union, an enum or a struct that it doesn't have, a union has a
    /// tag 0 or a tag twice, or a name has a byte other than ASCII letters, digits and `_`, or is
    /// empty, which only that of a union's variant may be.
    BadSchema,
    /// A table at depth 65, or a struct in 64 others, comes before a line past the budget. The root
    /// has depth 1.
    TooDeep,
    /// There are more lines than the budget.
    TooManyLines,
}

impl fmt::Display for DumpError {
    ghost use Rattle.planus_dump.specs.Texts.{dump_error_text};
    ghost use Rattle.std.specs.Prelude.{Some};

    ghost output = { λ error. Some (dump_error_text error) };

    fn fmt<W: fmt::Write>(&self, f: &mut fmt::Formatter<W>) -> fmt::Result {
        let text = match self {
            DumpError::OutOfMemory => "out of memory",
            DumpError::BadSchema => "bad schema",
            DumpError::TooDeep => "too deep",
            DumpError::TooManyLines => "too many lines",
        };
        write!(f, "{text}")
    }
}

impl Error for DumpError {}

impl From<AllocError> for DumpError {
    ghost use Rattle.std.specs.Prelude.{◌≡◌};
    ghost use Rattle.planus_dump.specs.declared.dumps.DumpError.TheVariants.{OutOfMemory};

    ghost from_gives = { λ _ e. e ≡ OutOfMemory };

    fn from(_error: AllocError) -> DumpError {
        DumpError::OutOfMemory
    }
}

impl From<SinkError> for DumpError {
    ghost use Rattle.std.specs.Prelude.{◌≡◌};
    ghost use Rattle.planus_dump.specs.declared.dumps.DumpError.TheVariants.{OutOfMemory};

    ghost from_gives = { λ _ e. e ≡ OutOfMemory };

    // Lines that are kept fail in no other way.
    fn from(_error: SinkError) -> DumpError {
        DumpError::OutOfMemory
    }
}

pub(crate) fn walk_from_root<L: Lines>(
    out: &mut LineSink<L>,
    schema: &Schema,
    bytes: &[u8],
) -> Result<(), SinkError>
    ensures { Feeds L.takes L.breaks out.old (events_of schema.now bytes.now) result out.new }
{
    let root = Place::new(SliceWithStartOffset::new(bytes, 0), 0);
    dump_table(schema, out, GREATEST_DEPTH, "root", schema.root, root)
}

/// Returns the lines of the tables that are reached from the root of a buffer. The path of the root
/// is `root`. An error in the bytes is a line of its own.
///
/// Time and memory are linear in the budget and the bytes, as a test shows.
pub fn dump(
    alloc: Global,
    schema: &Schema,
    bytes: &[u8],
    budget: usize,
) -> Result<Vec<String>, DumpError>
    ensures { Dumped schema.now bytes.now budget result }
{
    if !is_good_schema(schema) {
        return Err(DumpError::BadSchema);
    }
    // The first line is past the budget already, so nothing is allocated for it.
    if budget == 0 {
        return Err(DumpError::TooManyLines);
    }
    let mut out = LineSink::new(alloc, Vec::new(alloc), budget, None);
    walk_from_root(&mut out, schema, bytes)?;
    match out.end {
        End::Whole => {
            let lines = line_texts(alloc, out.lines)?;
            Ok(lines)
        }
        End::TooDeep => Err(DumpError::TooDeep),
        End::TooManyLines => Err(DumpError::TooManyLines),
        // Its lines may have any number of bytes.
        End::TooManyBytes => Err(DumpError::TooManyLines),
    }
}
