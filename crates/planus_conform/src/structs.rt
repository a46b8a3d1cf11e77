//! What breaks at structs.

ghost use Rattle.std.specs.Prelude.{◌≡◌, ◌++◌, OnOk};
ghost use Rattle.std.specs.Option.{option_map};
ghost use Rattle.planus_conform.specs.Reads as reads_spec;
ghost use Rattle.planus_conform.specs.Breaks as spec;

use crate::breaks::{Break, Change, Place};
use crate::types::same_part;
use crate::ways::{change_if, note};
use planus_schema::{Struct, StructField};
use std::alloc::AllocError;

pub(crate) fn part_in(fields: &[StructField], distance: usize) -> Option<&StructField>
    ensures { option_map (λ f. f.now) result ≡ reads_spec.part_in fields.now distance }
{
    'fields: for field in fields {
        if field.distance == distance {
            return Some(field);
        }
    }
    None
}

fn is_part_moved(fields: &[StructField], f: &StructField) -> bool
    ensures { result ≡ spec.is_part_moved fields.now f.now }
{
    fields.iter().any(|g| g.name.as_slice() == f.name.as_slice() && g.distance != f.distance)
}

fn part_change_to(
    matches: &[Option<usize>],
    f: &StructField,
    g: Option<&StructField>,
) -> Option<Change>
    ensures { result ≡ spec.part_change_to matches.now f.now (option_map (λ f. f.now) g.entry) }
{
    match g {
        Some(g) => change_if(!same_part(matches, f, g), Change::TypeChanged),
        None => Some(Change::FieldRemoved),
    }
}

pub(crate) fn part_change(
    matches: &[Option<usize>],
    fields: &[StructField],
    f: &StructField,
) -> Option<Change>
    ensures { result ≡ spec.part_change matches.now fields.now f.now }
{
    if is_part_moved(fields, f) {
        Some(Change::Moved)
    } else {
        part_change_to(matches, f, part_in(fields, f.distance))
    }
}

fn add_parts(
    breaks: &mut Vec<Break>,
    matches: &[Option<usize>],
    declaration: usize,
    fields: &[StructField],
    before: &[StructField],
) -> Result<(), AllocError>
    ensures { OnOk result (breaks.new.items ≡ breaks.old.items
        ++ spec.part_breaks matches.now declaration fields.now before.now) }
{
    'fields: for f in before {
        note(
            breaks,
            Place::Part(declaration, f.distance),
            part_change(matches, fields, f),
        )?;
    }
    Ok(())
}

pub(crate) fn add_struct(
    breaks: &mut Vec<Break>,
    matches: &[Option<usize>],
    declaration: usize,
    before: &Struct,
    after: &Struct,
) -> Result<(), AllocError>
    ensures { OnOk result (breaks.new.items ≡ breaks.old.items
        ++ spec.struct_breaks matches.now declaration before.now after.now) }
{
    add_parts(breaks, matches, declaration, &after.fields, &before.fields)?;
    note(
        breaks,
        Place::Declaration(declaration),
        change_if(before.size != after.size, Change::SizeChanged),
    )
}
