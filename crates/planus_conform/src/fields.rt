//! What breaks at fields of tables.

ghost use Rattle.std.specs.Prelude.{◌≡◌, ◌++◌, OnOk};
ghost use Rattle.std.specs.Option.{option_map};
ghost use Rattle.planus_conform.specs.Reads as reads_spec;
ghost use Rattle.planus_conform.specs.Breaks as spec;

use crate::breaks::{Break, Change, Place, Way};
use crate::defaults::same_default;
use crate::matching::are_matched;
use crate::types::{same_truth, same_type};
use crate::ways::{change_if, meets_new, note};
use planus_schema::TableField;
use std::alloc::AllocError;

pub(crate) fn field_in(fields: &[TableField], slot: usize) -> Option<&TableField>
    ensures { option_map (λ f. f.now) result ≡ reads_spec.field_in fields.now slot }
{
    'fields: for field in fields {
        if field.slot == slot {
            return Some(field);
        }
    }
    None
}

fn is_moved(fields: &[TableField], f: &TableField) -> bool
    ensures { result ≡ spec.is_moved fields.now f.now }
{
    fields.iter().any(|g| g.name.as_slice() == f.name.as_slice()
        && !g.deprecated
        && g.slot != f.slot)
}

fn may_require(way: Way, old: bool, new: bool) -> bool
    ensures { result ≡ spec.may_require way old new }
{
    match way {
        Way::Both => same_truth(old, new),
        Way::Backward => old || !new,
        Way::Forward => new || !old,
    }
}

fn same_nested(matches: &[Option<usize>], old: Option<usize>, new: Option<usize>) -> bool
    ensures { result ≡ spec.same_nested matches.now old new }
{
    match (old, new) {
        (Some(old), Some(new)) => are_matched(matches, old, new),
        _ => true,
    }
}

fn kept_change(
    way: Way,
    matches: &[Option<usize>],
    f: &TableField,
    g: &TableField,
) -> Option<Change>
    ensures { result ≡ spec.kept_change way matches.now f.now g.now }
{
    if !same_type(matches, f.kind, g.kind) {
        Some(Change::TypeChanged)
    } else if !may_require(way, f.required, g.required) {
        Some(Change::RequiredChanged)
    } else if !(f.required || g.required || same_default(f, g)) {
        Some(Change::DefaultChanged)
    } else {
        change_if(
            !same_nested(matches, f.nested, g.nested),
            Change::NestedChanged,
        )
    }
}

fn change_from(
    way: Way,
    matches: &[Option<usize>],
    f: &TableField,
    g: Option<&TableField>,
) -> Option<Change>
    ensures { result ≡ spec.change_from way matches.now f.now (option_map (λ f. f.now) g.entry) }
{
    let Some(g) = g else {
        return Some(Change::FieldRemoved);
    };
    if g.deprecated {
        change_if(f.required && meets_new(way), Change::RequiredDeprecated)
    } else {
        kept_change(way, matches, f, g)
    }
}

pub(crate) fn field_change(
    way: Way,
    matches: &[Option<usize>],
    fields: &[TableField],
    f: &TableField,
) -> Option<Change>
    ensures { result ≡ spec.field_change way matches.now fields.now f.now }
{
    if f.deprecated {
        None
    } else if is_moved(fields, f) {
        Some(Change::Moved)
    } else {
        change_from(way, matches, f, field_in(fields, f.slot))
    }
}

pub(crate) fn add_fields(
    breaks: &mut Vec<Break>,
    way: Way,
    matches: &[Option<usize>],
    declaration: usize,
    fields: &[TableField],
    before: &[TableField],
) -> Result<(), AllocError>
    ensures { OnOk result (breaks.new.items ≡ breaks.old.items
        ++ spec.field_breaks way matches.now declaration fields.now before.now) }
{
    'fields: for f in before {
        note(
            breaks,
            Place::Field(declaration, f.slot),
            field_change(way, matches, fields, f),
        )?;
    }
    Ok(())
}
