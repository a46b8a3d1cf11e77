//! Trails of fields, by their names.

ghost use Rattle.std.specs.Prelude.{◌≡◌, ◌++◌, IfOk, OnOk};
ghost use Rattle.std.specs.String.{string_bytes};
ghost use Rattle.planus_views.specs.Names as spec;

use crate::names::{FieldName, Names};
use planus_verify::FieldPlace;
use std::alloc::{AllocError, Global};

fn field_named<'s>(fields: &[FieldName<'s>], table: usize, slot: usize) -> &'s str
    ensures { result.now ≡ spec.field_named fields.now table slot }
{
    for one in fields {
        if one.table == table && one.slot == slot {
            return one.field;
        }
    }
    ""
}

fn put_item(text: &mut String, item: Option<usize>) -> Result<(), AllocError>
    ensures { OnOk result (string_bytes text.new ≡ string_bytes text.old ++ spec.item_text item) }
{
    let Some(index) = item else {
        return Ok(());
    };
    let digits = format!(in *text.allocator(); "[{index}]")?;
    text.push_str(digits.as_str())
}

fn put_step(text: &mut String, names: &Names<'_>, place: &FieldPlace) -> Result<(), AllocError>
    ensures { OnOk result (string_bytes text.new
        ≡ string_bytes text.old ++ spec.step_text (spec.names_of names.now) place.now) }
{
    text.push_str(field_named(names.fields, place.table, place.slot))?;
    put_item(text, place.item)
}

fn put_further(text: &mut String, names: &Names<'_>, place: &FieldPlace) -> Result<(), AllocError>
    ensures { OnOk result (string_bytes text.new
        ≡ string_bytes text.old ++ spec.further_text (spec.names_of names.now) place.now) }
{
    text.push_str(".")?;
    put_step(text, names, place)
}

fn put_rest(text: &mut String, names: &Names<'_>, places: &[FieldPlace]) -> Result<(), AllocError>
    ensures { OnOk result (string_bytes text.new
        ≡ string_bytes text.old ++ spec.further_texts (spec.names_of names.now) places.now) }
{
    for place in places {
        put_further(text, names, place)?;
    }
    Ok(())
}

/// Returns the names of these fields, as `crew[3].name`.
pub(crate) fn trail_text(
    alloc: Global,
    names: &Names<'_>,
    places: &[FieldPlace],
) -> Result<String, AllocError>
    ensures { IfOk result (λ text. string_bytes text
        ≡ spec.trail_text (spec.names_of names.now) places.now) }
{
    let mut text = String::new(alloc);
    if let Some((first, rest)) = places.split_first() {
        put_step(&mut text, names, first)?;
        put_rest(&mut text, names, rest)?;
    }
    Ok(text)
}
