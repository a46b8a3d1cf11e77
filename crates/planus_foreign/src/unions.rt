//! Fields of unions, and items of vectors of unions, stored as their tag and their value's position.

ghost use Rattle.planus_foreign.specs.Calls.{Reads, Value, ValueIf};
ghost use Rattle.planus_foreign.specs.Places.{IsMemberField, IsMemberRequired, GivesItem};
ghost use Rattle.planus_foreign.specs.Places.{IsMembers, MemberItem, MemberItemIf};

use crate::member::Member;
use crate::status::{ABSENT, status_of, table_at};
use crate::values::{put, put_if};
use planus::located::Error;
use planus::{UnionVector, union_field, union_item, union_required, union_vector};

/// Stores the tag and the position of the union in a slot and the next, if it isn't absent.
#[inline]
pub fn read_union_if(
    buffer: &[u8],
    table: usize,
    slot: usize,
    type_: &str,
    method: &str,
    out: &mut Member,
) -> u32
    ensures { Reads (λ t. IsMemberField t slot type_.now method.now) ValueIf
        buffer.now table out.old out.new result }
{
    match table_at(buffer, table) {
        Ok(table) => put_if(
            union_field::<Member, Member>(&table, slot, type_, method),
            out,
        ),
        Err(kind) => status_of(kind),
    }
}

/// Stores the tag and the position of the union in a slot and the next, which is required.
#[inline]
pub fn read_union(
    buffer: &[u8],
    table: usize,
    slot: usize,
    type_: &str,
    method: &str,
    out: &mut Member,
) -> u32
    ensures { Reads (λ t. IsMemberRequired t slot type_.now method.now) Value
        buffer.now table out.old out.new result }
{
    match table_at(buffer, table) {
        Ok(table) => put(union_required::<Member>(&table, slot, type_, method), out),
        Err(kind) => status_of(kind),
    }
}

#[inline]
fn put_item(read: Option<Result<Member, Error<'_>>>, out: &mut Member) -> u32
    ensures { GivesItem read.entry out.old out.new result }
{
    match read {
        Some(read) => put(read, out),
        None => ABSENT,
    }
}

#[inline]
fn put_item_of(vector: &UnionVector<'_, Member>, index: usize, out: &mut Member) -> u32
    ensures { MemberItem index vector.now out.old out.new result }
{
    put_item(union_item(vector, index), out)
}

#[inline]
fn put_item_if(
    read: Result<Option<UnionVector<'_, Member>>, Error<'_>>,
    index: usize,
    out: &mut Member,
) -> u32
    ensures { MemberItemIf index read.entry out.old out.new result }
{
    match read {
        Ok(Some(vector)) => put_item_of(&vector, index, out),
        Ok(None) => ABSENT,
        Err(error) => status_of(error.error_kind),
    }
}

/// Stores the tag and the position of the union at an index of the vector of unions in a slot and
/// the next. [`ABSENT`] past its end, or where it is absent.
#[inline]
pub fn read_union_item(
    buffer: &[u8],
    table: usize,
    slot: usize,
    index: usize,
    type_: &str,
    method: &str,
    out: &mut Member,
) -> u32
    ensures { Reads (λ t. IsMembers t slot type_.now method.now)
        (MemberItemIf index) buffer.now table out.old out.new result }
{
    match table_at(buffer, table) {
        Ok(table) => put_item_if(
            union_vector::<Member>(&table, slot, type_, method),
            index,
            out,
        ),
        Err(kind) => status_of(kind),
    }
}
