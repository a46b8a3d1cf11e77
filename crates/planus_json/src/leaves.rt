//! Numbers, bools, strings and byte vectors.
#![tactic(auto, using(crate::proofs::Printing::printed_refused))]

ghost use Rattle.std.specs.Prelude.{◌∷◌, []};
ghost use Rattle.planus_read.specs.Places.{place_bytes, place_offset};
ghost use Rattle.planus_dump.specs.Answers.{leaf_at};
ghost use Rattle.planus_dump.specs.declared.values.Leaf.TheVariants as leaves;
ghost use Rattle.planus_json.specs.Json as json;
ghost use Rattle.planus_json.specs.Trees as spec;
ghost use Rattle.planus_json.specs.inner.Printing.{Prints};

use crate::json_error::JsonError;
use crate::printer::{Printer, inner_line};
use crate::readings::{Scalar, bytes_at, number_at, text_at, truth_at};
use planus::Place;
use planus_dump::Number;

pub fn print_number(
    out: &mut Printer,
    path: &str,
    line: &str,
    number: Number,
    place: Place<'_>,
) -> Result<(), JsonError>
    ensures { Prints out.old (json.tokens line.now (spec.word_tree path.now
        (leaf_at (leaves.Number number) (place_bytes place.entry)
        (place_offset place.entry)))) result out.new }
{
    match number_at(place, number) {
        Ok(value) => out.put_scalar(value),
        Err(kind) => out.put_fault(path, kind),
    }
}

pub fn print_truth(
    out: &mut Printer,
    path: &str,
    line: &str,
    place: Place<'_>,
) -> Result<(), JsonError>
    ensures { Prints out.old (json.tokens line.now (spec.word_tree path.now
        (leaf_at leaves.Bool (place_bytes place.entry) (place_offset place.entry)))) result
        out.new }
{
    match truth_at(place) {
        Ok(value) => out.put_truth(value),
        Err(kind) => out.put_fault(path, kind),
    }
}

pub fn print_text(
    out: &mut Printer,
    path: &str,
    line: &str,
    place: Place<'_>,
) -> Result<(), JsonError>
    ensures { Prints out.old (json.tokens line.now (spec.string_tree path.now
        (spec.text_at (place_bytes place.entry) (place_offset place.entry)))) result out.new }
{
    match text_at(place) {
        Ok(text) => out.put_string(text),
        Err(kind) => out.put_fault(path, kind),
    }
}

fn print_byte(out: &mut Printer, line: &str, byte: u8) -> Result<(), JsonError>
    ensures { Prints out.old
        (json.items_tokens line.now (spec.byte_trees (byte ∷ []))) result out.new }
{
    out.put_next(line)?;
    out.put_scalar(Scalar::Unsigned(u64::from(byte)))
}

fn print_all_bytes(out: &mut Printer, line: &str, content: &[u8]) -> Result<(), JsonError>
    ensures { Prints out.old
        (json.items_tokens line.now (spec.byte_trees content.now)) result out.new }
{
    for byte in content {
        print_byte(out, line, *byte)?;
    }
    Ok(())
}

pub fn print_byte_list(out: &mut Printer, line: &str, content: &[u8]) -> Result<(), JsonError>
    ensures { Prints out.old
        (json.tokens line.now (spec.list (spec.byte_trees content.now))) result out.new }
{
    let inner = inner_line(out.alloc, line)?;
    out.put_open("[")?;
    print_all_bytes(out, inner.as_str(), content)?;
    out.put_close(line, "]")
}

pub fn print_bytes(
    out: &mut Printer,
    path: &str,
    line: &str,
    place: Place<'_>,
) -> Result<(), JsonError>
    ensures { Prints out.old (json.tokens line.now (spec.bytes_tree path.now
        (spec.bytes_at (place_bytes place.entry) (place_offset place.entry)))) result out.new }
{
    match bytes_at(place) {
        Ok(content) => print_byte_list(out, line, content),
        Err(kind) => out.put_fault(path, kind),
    }
}
