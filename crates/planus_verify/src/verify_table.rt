//! How tables are verified.

ghost use Rattle.planus_verify.specs.Passes.{TablePasses};
ghost use Rattle.planus_verify.specs.Schemas.{shapes};

use crate::kind::VerifiedKind;
use crate::schema::Schema;
use crate::walk::verify_table;
use planus_read::table_reader::Table;

/// How tables of a kind are verified: by a walk over the schema, where it has no function of its own.
pub trait Verify: VerifiedKind {
    /// Verifies a table that was read, with all that it leads to, and returns how many tables may
    /// be entered after it. `depth` says how many tables may stand one in the other, `left` how
    /// many may be entered. `None` says nothing: then [`crate::verify`] finds whether there is a
    /// fault, and which. So this is for speed alone, and code that is printed for a table has its
    /// own (see [`crate::Entered`]).
    fn pass(table: Table<'_>, depth: u8, left: usize) -> Option<usize>
        ensures { TablePasses Self.schema depth Self.index table.entry left result }
    {
        walked(&Self::schema(), Self::index(), table, depth, left)
    }
}

/// As [`Verify::pass`], by a walk over the schema.
pub(crate) fn walked(
    schema: &Schema<'_>,
    index: usize,
    table: Table<'_>,
    depth: u8,
    left: usize,
) -> Option<usize>
    ensures { TablePasses (shapes schema.now) depth index table.entry left result }
{
    match verify_table(schema, index, table, depth, left) {
        Ok(rest) => Some(rest),
        Err(_) => None,
    }
}
