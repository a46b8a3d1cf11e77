//! The slots of fields.

ghost use Rattle.std.specs.Prelude.{◌≡◌, ◌+◌, ◌≤◌, true, false, map, IfOk, IfSome, Some};
ghost use Rattle.planus_syntax.specs.Values.{field_of};
ghost use Rattle.planus_schema.specs.Slots as spec;
ghost use Rattle.planus_resolve.specs.Tables as tables_spec;
ghost use Rattle.planus_resolve.specs.Wrong.{Tells};
ghost use Rattle.planus_resolve.specs.WrongTables as wrong_tables_spec;

use crate::attributes::{has, setting};
use crate::fault::{DeclarationError, FaultKind, or_return, wrong};
use crate::structs::setting_number;
use planus_schema::{FieldType, TableField, slot_of, slots_taken};
use planus_syntax::Field;
use std::alloc::{AllocError, Global};

pub(crate) fn has_ids(fields: &[Field]) -> bool
    ensures { result ≡ tables_spec.has_ids (map field_of fields.now) }
{
    let mut rest = fields;
    'fields: while let Some((field, after)) = rest.split_first() {
        if has(&field.attributes, b"id") {
            return true;
        }
        rest = after;
    }
    false
}

fn id_of(field: &Field) -> Option<usize>
    ensures small { IfSome result (λ n. n ≤ 65535) }
    ensures exact { result ≡ tables_spec.id_said (field_of field.now) }
{
    match setting(&field.attributes, b"id") {
        Some(attribute) if attribute.value.is_none() => Some(0),
        Some(attribute) => match setting_number(attribute) {
            Some(number) if number <= 65535 => Some(number as usize),
            _ => None,
        },
        None => None,
    }
}

pub(crate) fn field_slot(
    field: &Field,
    kind: FieldType,
    ids: bool,
    next: usize,
) -> Result<usize, DeclarationError>
    requires { next ≤ 65535 }
    ensures id { ids ≡ true → IfOk result (λ n. tables_spec.id_said (field_of field.now) ≡ Some n) }
    ensures order { ids ≡ false → IfOk result (λ n. n + 1 ≡ next + spec.width kind) }
    ensures slot { IfOk result (λ n. n ≡ wrong_tables_spec.field_slot kind ids next field.now) }
    ensures wrong { Tells (wrong_tables_spec.wrong_slot kind ids next field.now) result }
{
    match slot_of(id_of(field), kind, ids, next) {
        Some(slot) => Ok(slot),
        None if !has(&field.attributes, b"id") => Err(wrong(FaultKind::IdMissing, field.left)),
        None => Err(wrong(FaultKind::WrongId, field.left)),
    }
}

/// Returns whether these are all the numbers from 0 on, each once.
fn are_whole(alloc: Global, slots: &[usize]) -> Result<bool, AllocError>
    ensures { IfOk result (λ b. b ≡ spec.are_whole slots.now) }
{
    let mut taken = vec![in alloc; false; slots.len()]?;
    'slots: for slot in slots {
        if *slot >= taken.len() || taken[*slot] {
            return Ok(false);
        }
        taken[*slot] = true;
    }
    Ok(true)
}

pub(crate) fn check_slots(
    alloc: Global,
    fields: &[TableField],
    left: usize,
) -> Result<(), DeclarationError>
    ensures sound { IfOk result (λ _. spec.AreSlots (spec.slots_taken fields.now)) }
    ensures wrong { Tells (wrong_tables_spec.wrong_slots left (spec.slots_taken fields.now)) result }
{
    let slots = or_return!(slots_taken(alloc, fields), DeclarationError::OutOfMemory);
    if slots.len() > 32765 {
        return Err(wrong(FaultKind::TooManySlots, left));
    }
    let whole = or_return!(are_whole(alloc, &slots), DeclarationError::OutOfMemory);
    if !whole {
        return Err(wrong(FaultKind::IdsWithGap, left));
    }
    Ok(())
}
