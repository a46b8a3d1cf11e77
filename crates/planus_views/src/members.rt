//! Unions of verified tables.

ghost use Rattle.std.specs.Prelude.{◌≡◌, ◌+◌, IfSome, IfNone};
ghost use Rattle.planus_read.specs.Tables.{UnionThere, UnionAbsent, slot_of};
ghost use Rattle.planus_read.specs.Tables.{HalfVector, UnionVectorSlots};
ghost use Rattle.planus_views.specs.Fields.{Unbroken, UnionVectorAbsent};

use planus_read::VectorRead;
use planus_read::table_reader::Table;

/// Returns the tag of the union in a slot and the next, and its reference's distance from the
/// table's first byte, or `None` if absent. Requires the slots not to be broken.
#[inline(always)]
pub(crate) fn union_unchecked<'a>(table: &Table<'a>, slot: usize) -> Option<(u8, usize)>
    requires { Unbroken table.now slot }
    ensures some { IfSome result (λ found. UnionThere table.now slot found.0) }
    ensures value { IfSome result (λ found. found.1 ≡ slot_of table.now (slot + 1)) }
    ensures none { IfNone result (UnionAbsent table.now slot) }
{
    let tag_offset = table.slot_offset(slot);
    if tag_offset == 0 {
        return None;
    }
    let offset = table.slot_offset(slot + 1);
    let tag = <u8 as VectorRead<'a>>::from_buffer(table.object(), tag_offset);
    if offset == 0 || tag == 0 {
        return None;
    }
    Some((tag, offset))
}

/// Returns the distances of the tags and of the references of the union vector in a slot and the
/// next, or `None` if absent. Requires that it isn't there by half.
#[inline(always)]
pub(crate) fn union_vector_slots(table: &Table<'_>, slot: usize) -> Option<(usize, usize)>
    requires { HalfVector table.now slot → ⊥ }
    ensures some { IfSome result (λ _. UnionVectorSlots table.now slot) }
    ensures tags { IfSome result (λ found. found.0 ≡ slot_of table.now slot) }
    ensures references { IfSome result (λ found. found.1 ≡ slot_of table.now (slot + 1)) }
    ensures none { IfNone result (UnionVectorAbsent table.now slot) }
{
    let tags = table.slot_offset(slot);
    if tags == 0 {
        return None;
    }
    let references = table.slot_offset(slot + 1);
    if references == 0 {
        return None;
    }
    Some((tags, references))
}
