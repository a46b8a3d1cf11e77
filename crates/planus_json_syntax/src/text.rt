//! A text to its values.

ghost use Rattle.std.specs.Prelude.{◌≡◌, ◌≤◌, List, length, map, IfErr, IfOk};
ghost use Rattle.planus_json_syntax.specs.Reading as spec;
ghost use Rattle.planus_json_syntax.specs.Values.{JsonV, json_view};
ghost use Rattle.planus_json_syntax.specs.Spelling.{ParsesTo, Spells};
ghost use Rattle.planus_json_syntax.specs.Steps.{Gives, left_of};

use crate::json::Json;
use crate::json_error::JsonError;
use crate::read_error::ReadError;
use crate::tokens::next;
use crate::values::value_at;
use std::alloc::Global;

/// How deep lists and objects nest.
const MOST_DEPTH: usize = 256;

fn after_order_mark(text: &[u8]) -> &[u8]
    ensures { result.now ≡ spec.after_order_mark text.now }
{
    match text.split_at_checked(3) {
        Some((mark, rest)) if mark == b"\xEF\xBB\xBF".as_slice() => rest,
        _ => text,
    }
}

/// Returns the values in these bytes, of a text of this length.
fn values_at(alloc: Global, len: usize, bytes: &[u8]) -> Result<Vec<Json>, ReadError>
    requires { length bytes.now ≤ len }
    ensures reads { Gives (λ values. map json_view values.items) result
        (spec.values_at len bytes.now) }
    ensures within { IfErr result (λ error. left_of error ≤ length bytes.now) }
{
    let mut values = Vec::new(alloc);
    let mut rest = bytes;
    'values: while let Some(front) = or_return!(next(alloc, rest)) {
        let (value, after) = or_return!(value_at(alloc, len, MOST_DEPTH, front));
        values.push(value)?;
        rest = after;
    }
    Ok(values)
}

/// Returns the values of a text, one after another: none, if it has only blanks and comments.
///
/// Fails with the first fault from the left.
pub fn parse(alloc: Global, text: &[u8]) -> Result<Vec<Json>, JsonError>
    // The text spells what is read.
    ensures found { IfOk result (λ values. Spells text.now (map json_view values.items)) }
    // A text that spells values is read as these, unless memory is refused.
    ensures only { (values : List JsonV) → Spells text.now values → ParsesTo values result }
    // Which values, and which fault, and where.
    ensures exact { spec.Answers text.now result }
{
    match values_at(alloc, text.len(), after_order_mark(text)) {
        Ok(values) => Ok(values),
        Err(ReadError::OutOfMemory) => Err(JsonError::OutOfMemory),
        Err(ReadError::Fault { kind, left }) => {
            let at = text.len() - left;
            Err(JsonError::Fault { at, kind })
        }
    }
}
