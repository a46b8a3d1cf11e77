//! What breaks at enums.

ghost use Rattle.std.specs.Prelude.{◌≡◌, ◌++◌, OnOk};
ghost use Rattle.planus_conform.specs.Breaks as spec;

use crate::breaks::{Break, Change, Place, Way};
use crate::defaults::same_number;
use crate::types::{same_scalar, same_truth};
use crate::ways::{change_if, meets_new, meets_old, note};
use planus_schema::{Enum, EnumValue, Number};
use std::alloc::AllocError;

fn has_number(values: &[EnumValue], number: Number) -> bool
    ensures { result ≡ spec.has_number values.now number }
{
    values.iter().any(|value| same_number(number, value.number))
}

fn is_value_moved(values: &[EnumValue], v: &EnumValue) -> bool
    ensures { result ≡ spec.is_value_moved values.now v.now }
{
    values.iter().any(|u| u.name.as_slice() == v.name.as_slice()
        && !same_number(v.number, u.number))
}

pub(crate) fn value_change(met: bool, values: &[EnumValue], v: &EnumValue) -> Option<Change>
    ensures { result ≡ spec.value_change met values.now v.now }
{
    if is_value_moved(values, v) {
        Some(Change::Moved)
    } else {
        change_if(met && !has_number(values, v.number), Change::ValueRemoved)
    }
}

fn add_values(
    breaks: &mut Vec<Break>,
    met: bool,
    declaration: usize,
    values: &[EnumValue],
    before: &[EnumValue],
) -> Result<(), AllocError>
    ensures { OnOk result (breaks.new.items ≡ breaks.old.items
        ++ spec.value_breaks met declaration values.now before.now) }
{
    'values: for v in before {
        note(
            breaks,
            Place::Value(declaration, v.number),
            value_change(met, values, v),
        )?;
    }
    Ok(())
}

fn add_added_values(
    breaks: &mut Vec<Break>,
    met: bool,
    declaration: usize,
    before: &[EnumValue],
    values: &[EnumValue],
) -> Result<(), AllocError>
    ensures { OnOk result (breaks.new.items ≡ breaks.old.items
        ++ spec.added_values met declaration before.now values.now) }
{
    'values: for u in values {
        note(
            breaks,
            Place::Value(declaration, u.number),
            change_if(met && !has_number(before, u.number), Change::ValueAdded),
        )?;
    }
    Ok(())
}

fn enum_change(old: &Enum, new: &Enum) -> Option<Change>
    ensures { result ≡ spec.enum_change old.now new.now }
{
    if !same_scalar(old.scalar, new.scalar) {
        Some(Change::NumberTypeChanged)
    } else {
        change_if(!same_truth(old.flags, new.flags), Change::FlagsChanged)
    }
}

pub(crate) fn add_enum(
    breaks: &mut Vec<Break>,
    way: Way,
    declaration: usize,
    before: &Enum,
    after: &Enum,
) -> Result<(), AllocError>
    ensures { OnOk result (breaks.new.items ≡ breaks.old.items
        ++ spec.enum_breaks way declaration before.now after.now) }
{
    note(
        breaks,
        Place::Declaration(declaration),
        enum_change(before, after),
    )?;
    add_values(
        breaks,
        meets_old(way) && !before.flags,
        declaration,
        &after.values,
        &before.values,
    )?;
    add_added_values(
        breaks,
        meets_new(way) && !before.flags,
        declaration,
        &before.values,
        &after.values,
    )
}
