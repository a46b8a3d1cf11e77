//! The slots of a table.

ghost use Rattle.std.specs.Prelude.{◌≡◌, ◌≤◌, ◌++◌, IfOk, IfSome, OnOk};
ghost use Rattle.planus_schema.specs.Slots as spec;

use crate::schema::{Base, FieldType, TableField};
use std::alloc::{AllocError, Global};

/// Returns whether this is a union or a vector of unions.
pub fn is_union(kind: FieldType) -> bool
    ensures { result ≡ spec.is_union kind }
{
    match kind.base {
        Base::Union(_) => true,
        _ => false,
    }
}

/// Returns how many slots a field takes.
pub fn width(kind: FieldType) -> usize
    ensures { result ≡ spec.width kind }
{
    if is_union(kind) { 2 } else { 1 }
}

/// Returns the next slot, or with `ids` the field's, if a union's type has room before it.
pub fn slot_of(id: Option<usize>, kind: FieldType, ids: bool, next: usize) -> Option<usize>
    requires next { next ≤ 65535 }
    requires id { IfSome id (λ n. n ≤ 65535) }
    ensures { result ≡ spec.slot_said id kind ids next }
{
    let slots = width(kind);
    if !ids {
        return Some(next + (slots - 1));
    }
    match id {
        Some(id) if slots <= id + 1 => Some(id),
        _ => None,
    }
}

fn add_slots(slots: &mut Vec<usize>, field: &TableField) -> Result<(), AllocError>
    ensures { OnOk result (slots.new.items ≡ slots.old.items ++ spec.slots_of field.now) }
{
    if is_union(field.kind) {
        slots.push(field.slot.saturating_sub(1))?;
    }
    slots.push(field.slot)?;
    Ok(())
}

/// Returns the slots that fields take.
pub fn slots_taken(alloc: Global, fields: &[TableField]) -> Result<Vec<usize>, AllocError>
    ensures { IfOk result (λ v. v.items ≡ spec.slots_taken fields.now) }
{
    let mut slots = Vec::new(alloc);
    'fields: for field in fields {
        add_slots(&mut slots, field)?;
    }
    Ok(slots)
}
