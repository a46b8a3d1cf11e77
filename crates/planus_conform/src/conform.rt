//! The breaks from one schema to another.

ghost use Rattle.std.specs.Prelude.{◌≡◌, ◌++◌, [], IfOk, OnOk};
ghost use Rattle.std.specs.Option.{option_map};
ghost use Rattle.planus_conform.specs.Conforms.{Conforms};
ghost use Rattle.planus_conform.specs.Breaks as spec;

use crate::breaks::{Break, Change, Place, Way};
use crate::enums::add_enum;
use crate::fields::add_fields;
use crate::matching::{match_at, matches_of};
use crate::rename::Rename;
use crate::statements::{identifier_change, root_change};
use crate::structs::add_struct;
use crate::unions::add_union;
use crate::ways::note;
use planus_schema::{Body, Declared, Schema};
use std::alloc::{AllocError, Global};

/// Returns what is declared at an index, if there is one.
pub fn body_if(declared: &[Declared], index: Option<usize>) -> Option<&Body>
    ensures { option_map (λ b. b.now) result ≡ spec.body_if declared.now index }
{
    match index {
        Some(index) => match declared.get(index) {
            Some(one) => Some(&one.body),
            None => None,
        },
        None => None,
    }
}

fn add_kind(
    breaks: &mut Vec<Break>,
    way: Way,
    matches: &[Option<usize>],
    index: usize,
    before: &Body,
    after: &Body,
) -> Result<(), AllocError>
    ensures { OnOk result (breaks.new.items
        ≡ breaks.old.items ++ spec.breaks_to way matches.now index before.now after.now) }
{
    match (before, after) {
        (Body::Table(before), Body::Table(after)) => {
            add_fields(breaks, way, matches, index, &after.fields, &before.fields)
        }
        (Body::Struct(before), Body::Struct(after)) => {
            add_struct(breaks, matches, index, before, after)
        }
        (Body::Enum(before), Body::Enum(after)) => add_enum(breaks, way, index, before, after),
        (Body::Union(before), Body::Union(after)) => {
            add_union(breaks, way, matches, index, before, after)
        }
        _ => note(breaks, Place::Declaration(index), Some(Change::OtherKind)),
    }
}

fn add_body(
    breaks: &mut Vec<Break>,
    way: Way,
    matches: &[Option<usize>],
    index: usize,
    before: &Body,
    after: Option<&Body>,
) -> Result<(), AllocError>
    ensures { OnOk result (breaks.new.items ≡ breaks.old.items
        ++ spec.body_breaks way matches.now index before.now (option_map
        (λ b. b.now) after.entry)) }
{
    match after {
        Some(after) => add_kind(breaks, way, matches, index, before, after),
        None => note(breaks, Place::Declaration(index), Some(Change::Removed)),
    }
}

fn add_declared(
    breaks: &mut Vec<Break>,
    way: Way,
    matches: &[Option<usize>],
    new: &[Declared],
    index: usize,
    one: &Declared,
) -> Result<(), AllocError>
    ensures { OnOk result (breaks.new.items
        ≡ breaks.old.items ++ spec.declared_breaks way matches.now new.now index one.now) }
{
    let after = body_if(new, match_at(matches, index));
    add_body(breaks, way, matches, index, &one.body, after)
}

fn add_all(
    breaks: &mut Vec<Break>,
    way: Way,
    matches: &[Option<usize>],
    old: &[Declared],
    new: &[Declared],
) -> Result<(), AllocError>
    ensures { OnOk result (breaks.new.items
        ≡ breaks.old.items ++ spec.breaks_from way matches.now new.now 0 old.now) }
{
    let mut index = 0;
    'declared: for one in old {
        add_declared(breaks, way, matches, new, index, one)?;
        index += 1;
    }
    Ok(())
}

fn breaks_by(
    alloc: Global,
    way: Way,
    matches: &[Option<usize>],
    old: &Schema,
    new: &Schema,
) -> Result<Vec<Break>, AllocError>
    ensures { IfOk result (λ found. found.items ≡ spec.breaks_by way matches.now old.now new.now) }
{
    let mut breaks = Vec::new(alloc);
    add_all(
        &mut breaks,
        way,
        matches,
        &old.declarations,
        &new.declarations,
    )?;
    let root = root_change(matches, old.statements.root, new.statements.root);
    note(&mut breaks, Place::Root, root)?;
    let identifier = identifier_change(way, &old.statements.identifier, &new.statements.identifier);
    note(&mut breaks, Place::Identifier, identifier)?;
    Ok(breaks)
}

fn breaks_of(
    alloc: Global,
    way: Way,
    renames: &[Rename],
    old: &Schema,
    new: &Schema,
) -> Result<Vec<Break>, AllocError>
    ensures { IfOk result (λ found. found.items
        ≡ spec.breaks_of way renames.now old.now new.now) }
{
    let matches = matches_of(alloc, renames, &old.declarations, &new.declarations)?;
    breaks_by(alloc, way, &matches, old, new)
}

/// Returns what breaks where the new schema replaces the old one, of each part of the old schema its
/// first change. Where nothing does, all calls of accessors of the old schema's code return of every
/// buffer what those of the new one's return, but for what the way excuses.
pub fn conforms(
    alloc: Global,
    way: Way,
    renames: &[Rename],
    old: &Schema,
    new: &Schema,
) -> Result<Vec<Break>, AllocError>
    ensures exact { IfOk result (λ found. found.items
        ≡ spec.breaks_of way renames.now old.now new.now) }
    ensures conforms { IfOk result (λ found. found.items ≡ []
        → Conforms way renames.now old.now new.now) }
{
    breaks_of(alloc, way, renames, old, new)
}
