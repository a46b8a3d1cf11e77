//! The types of unions.
#![tactic(auto, using(crate::proofs::Printing::printed_refused))]

ghost use Rattle.std.specs.Prelude.{◌≡◌, ◌∷◌, slice_get, Some, IfOk};
ghost use Rattle.std.specs.String.{string_bytes};
ghost use Rattle.planus_dump.specs.ReadingViews.{unions_seen};
ghost use Rattle.planus_json.specs.Json as json;
ghost use Rattle.planus_json.specs.Trees as spec;
ghost use Rattle.planus_json.specs.inner.Printing.{Prints};

use crate::json_error::JsonError;
use crate::printer::{Printer, inner_line};
use crate::readings::Scalar;
use planus_dump::unions::Unions;
use planus_dump::{FieldSchema, Schema, VariantSchema, variant_with};
use std::alloc::{AllocError, Global};

fn print_named(
    out: &mut Printer,
    line: &str,
    tag: u8,
    variant: &VariantSchema,
) -> Result<(), JsonError>
    ensures { Prints out.old (json.tokens line.now (spec.type_of tag (Some variant.now))) result
        out.new }
{
    if variant.name.is_empty() {
        out.put_scalar(Scalar::Unsigned(u64::from(tag)))
    } else {
        out.put_string(variant.name.as_str())
    }
}

/// Prints the name of a union's variant, or its tag where it has none.
fn print_type(
    schema: &Schema,
    out: &mut Printer,
    line: &str,
    index: usize,
    tag: u8,
) -> Result<(), JsonError>
    ensures { Prints out.old
        (json.tokens line.now (spec.type_tree (slice_get schema.now.unions.items index) tag)) result
        out.new }
{
    let variants = match schema.unions.get(index) {
        None => return Ok(()),
        Some(variants) => variants,
    };
    match variant_with(variants.as_slice(), tag) {
        Some(variant) => print_named(out, line, tag, variant),
        None => out.put_scalar(Scalar::Unsigned(u64::from(tag))),
    }
}

fn type_name(alloc: Global, name: &str) -> Result<String, AllocError>
    ensures { IfOk result (λ text. string_bytes text ≡ spec.type_name name.now) }
{
    format!(in alloc; "{name}_type")
}

pub fn print_union_type(
    schema: &Schema,
    out: &mut Printer,
    line: &str,
    field: &FieldSchema,
    index: usize,
    tag: u8,
) -> Result<(), JsonError>
    ensures { Prints out.old (json.begins line.now
        ∷ json.plain (json.label line.now (spec.type_name (string_bytes field.now.name)))
        ∷ json.tokens line.now (spec.type_tree (slice_get schema.now.unions.items index) tag))
        result out.new }
{
    let name = type_name(out.alloc, field.name.as_str())?;
    out.put_name(line, name.as_str())?;
    print_type(schema, out, line, index, tag)
}

fn print_types_item(
    schema: &Schema,
    out: &mut Printer,
    line: &str,
    index: usize,
    tag: u8,
) -> Result<(), JsonError>
    ensures { Prints out.old (json.begins line.now ∷ json.tokens line.now
        (spec.type_tree (slice_get schema.now.unions.items index) tag)) result out.new }
{
    out.put_next(line)?;
    print_type(schema, out, line, index, tag)
}

fn print_types_items(
    schema: &Schema,
    out: &mut Printer,
    line: &str,
    index: usize,
    unions: &Unions<'_>,
) -> Result<(), JsonError>
    ensures { Prints out.old (json.items_tokens line.now (spec.types_trees schema.now index
        (unions_seen unions.now) (unions_seen unions.now).count 0)) result out.new }
{
    for i in 0..unions.len() {
        match unions.get(i) {
            None => return Ok(()),
            Some(tagged) => print_types_item(schema, out, line, index, tagged.tag())?,
        }
    }
    Ok(())
}

fn print_types(
    schema: &Schema,
    out: &mut Printer,
    line: &str,
    index: usize,
    unions: &Unions<'_>,
) -> Result<(), JsonError>
    ensures { Prints out.old (json.tokens line.now (spec.list (spec.types_trees schema.now index
        (unions_seen unions.now) (unions_seen unions.now).count 0))) result out.new }
{
    let inner = inner_line(out.alloc, line)?;
    out.put_open("[")?;
    print_types_items(schema, out, inner.as_str(), index, unions)?;
    out.put_close(line, "]")
}

pub fn print_unions_type(
    schema: &Schema,
    out: &mut Printer,
    line: &str,
    field: &FieldSchema,
    index: usize,
    unions: &Unions<'_>,
) -> Result<(), JsonError>
    ensures { Prints out.old (json.begins line.now
        ∷ json.plain (json.label line.now (spec.type_name (string_bytes field.now.name)))
        ∷ json.tokens line.now (spec.list (spec.types_trees schema.now index
        (unions_seen unions.now) (unions_seen unions.now).count 0))) result out.new }
{
    let name = type_name(out.alloc, field.name.as_str())?;
    out.put_name(line, name.as_str())?;
    print_types(schema, out, line, index, unions)
}
