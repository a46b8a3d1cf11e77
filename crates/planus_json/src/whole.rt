//! A buffer as JSON.
ghost use Rattle.std.specs.Prelude.{◌≡◌};
ghost use Rattle.planus_json.specs.Json.{tokens};
ghost use Rattle.planus_json.specs.Outcomes.{IsJson, first_line};
ghost use Rattle.planus_json.specs.Trees.{tree_of};
ghost use Rattle.planus_json.specs.inner.Printing.{Prints};

use crate::json_error::JsonError;
use crate::layout::Layout;
use crate::printer::Printer;
use crate::walk::print_table;
use planus::{Place, SliceWithStartOffset};
use planus_dump::{Schema, is_good_schema};
use std::alloc::Global;

/// The root has depth 1.
const GREATEST_DEPTH: usize = 64;

fn print_root(schema: &Schema, out: &mut Printer, line: &str, bytes: &[u8]) -> Result<(), JsonError>
    ensures { Prints out.old (tokens line.now (tree_of schema.now bytes.now)) result out.new }
{
    let root = Place::new(SliceWithStartOffset::new(bytes, 0), 0);
    print_table(schema, out, GREATEST_DEPTH, "root", line, schema.root, root)
}

fn first_line(compact: bool) -> &'static str
    ensures { result.now ≡ first_line compact }
{
    if compact { "" } else { "\n" }
}

/// Returns the table at the root of a buffer as JSON, of at most `most` bytes.
///
/// Only present fields are printed, in the schema's order. An enum's number is the name of its
/// value; flags are a string of names with a space between each two; a number that these don't say
/// is a number. A union `o` of type `T` is a member `o_type` with the string `T`, and `o`. A byte
/// vector that is a buffer is its root, or a list of numbers where that can't be read. Where a
/// reader fails or a field is wrong, the first such place, in the order of the text, is the error.
pub fn json(
    alloc: Global,
    schema: &Schema,
    bytes: &[u8],
    layout: Layout,
    most: usize,
) -> Result<String, JsonError>
    ensures { IsJson schema.now bytes.now layout most result }
{
    if !is_good_schema(schema) {
        return Err(JsonError::BadSchema);
    }
    let mut out = Printer {
        alloc,
        text: String::new(alloc),
        most,
        strict: layout.strict,
        first: true,
    };
    print_root(schema, &mut out, first_line(layout.compact), bytes)?;
    let Printer { text, .. } = out;
    Ok(text)
}
