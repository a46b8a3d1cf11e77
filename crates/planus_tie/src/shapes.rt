//! The lists of the schema's value.

ghost use Rattle.std.specs.Prelude.{◌≡◌, ◌++◌, ◌+◌, IfOk, OnOk, map};
ghost use Rattle.std.specs.List.Sorted.{IsPermutation, IsNonDecreasingBy};
ghost use Rattle.planus_tie.specs.Shapes as spec;

use crate::kinds::size_of;
use crate::ranks::rank_in;
use planus_schema::{Base, Body, Declared, Line, Plan, Table, UnionMember};
use std::alloc::{AllocError, Global};

/// The fields of a table in the list of all.
#[derive(Clone, Copy)]
pub(crate) struct Range {
    pub(crate) first: usize,
    pub(crate) count: usize,
}

/// The type of a union's member.
#[derive(Clone, Copy)]
pub(crate) enum MemberType {
    /// The table of this index.
    Table(usize),
    /// A struct of this size in bytes.
    Struct(usize),
    Text,
}

/// A union's member: the union's index, its tag, and its type.
#[derive(Clone, Copy)]
pub(crate) struct Tagged {
    pub(crate) union: usize,
    pub(crate) tag: u8,
    pub(crate) kind: MemberType,
}

fn put_by_slot(lines: &mut Vec<Line<'_>>) -> Result<(), AllocError>
    ensures once { OnOk result (IsPermutation lines.old.items lines.new.items) }
    ensures rises { OnOk result (IsNonDecreasingBy (λ l. l.field.now.slot) lines.new.items) }
{
    lines.sort_by_key(|line| line.field.slot)?;
    Ok(())
}

fn by_slot<'a>(
    alloc: Global,
    declared: &[Declared],
    index: usize,
    one: &'a Table,
) -> Result<Vec<Line<'a>>, AllocError>
    ensures { IfOk result (λ lines. spec.AreBySlot declared.now index one.now lines.items) }
{
    let plan = Plan::of(alloc, declared, index, one)?;
    let mut lines = Vec::from_slice(alloc, &plan.lines)?;
    put_by_slot(&mut lines)?;
    Ok(lines)
}

fn push_lines<'a>(
    out: &mut Vec<Line<'a>>,
    declared: &[Declared],
    index: usize,
    body: &'a Body,
) -> Result<(), AllocError>
    ensures { OnOk result (spec.PushesLines declared.now index body.now out.old.items out.new.items) }
{
    let Body::Table(one) = body else {
        return Ok(());
    };
    let lines = by_slot(*out.allocator(), declared, index, one)?;
    out.extend_from_slice(&lines)
}

/// Returns the fields of all tables in turn, each table's by their slots.
pub(crate) fn lines_of(alloc: Global, declared: &[Declared]) -> Result<Vec<Line<'_>>, AllocError>
    ensures { IfOk result (λ lines. spec.AreLines declared.now 0 declared.now lines.items) }
{
    let mut lines = Vec::new(alloc);
    let mut index = 0;
    'declared: for one in declared {
        push_lines(&mut lines, declared, index, &one.body)?;
        index += 1;
    }
    Ok(lines)
}

fn live_count(one: &Table) -> usize
    ensures { result ≡ spec.live_count one.now }
{
    one.fields.iter().filter(|field| !field.deprecated).count()
}

fn fields_in(body: &Body) -> usize
    ensures { result ≡ spec.fields_in body.now }
{
    match body {
        Body::Table(one) => live_count(one),
        _ => 0,
    }
}

fn push_range(out: &mut Vec<Range>, first: usize, body: &Body) -> Result<(), AllocError>
    ensures { OnOk result (out.new.items ≡ out.old.items ++ spec.ranges_in first body.now) }
{
    if let Body::Table(one) = body {
        out.push(Range {
            first,
            count: live_count(one),
        })?;
    }
    Ok(())
}

// No memory holds more fields than are counted.
fn after_fields(first: usize, body: &Body) -> Result<usize, AllocError>
    ensures { IfOk result (λ next. next ≡ first + spec.fields_in body.now) }
{
    first.checked_add(fields_in(body)).ok_or(AllocError)
}

/// Returns of each table where its fields are in the list of all.
pub(crate) fn ranges_of(alloc: Global, declared: &[Declared]) -> Result<Vec<Range>, AllocError>
    ensures { IfOk result (λ ranges. ranges.items ≡ spec.ranges_from 0 declared.now) }
{
    let mut ranges = Vec::new(alloc);
    let mut first = 0;
    'declared: for one in declared {
        push_range(&mut ranges, first, &one.body)?;
        first = after_fields(first, &one.body)?;
    }
    Ok(ranges)
}

fn member_type(declared: &[Declared], ranks: &[usize], base: Base) -> MemberType
    ensures { result ≡ spec.member_type declared.now ranks.now base }
{
    match base {
        Base::Table(index) => MemberType::Table(rank_in(ranks, index)),
        Base::Struct(_) => MemberType::Struct(size_of(declared, base)),
        _ => MemberType::Text,
    }
}

fn tagged_member(
    declared: &[Declared],
    ranks: &[usize],
    index: usize,
    member: &UnionMember,
) -> Tagged
    ensures { result ≡ spec.tagged declared.now ranks.now index member.now }
{
    Tagged {
        union: rank_in(ranks, index),
        tag: member.tag,
        kind: member_type(declared, ranks, member.base),
    }
}

fn push_members(
    out: &mut Vec<Tagged>,
    declared: &[Declared],
    ranks: &[usize],
    index: usize,
    members: &[UnionMember],
) -> Result<(), AllocError>
    ensures { OnOk result (out.new.items
        ≡ out.old.items ++ map (spec.tagged declared.now ranks.now index) members.now) }
{
    'members: for member in members {
        out.push(tagged_member(declared, ranks, index, member))?;
    }
    Ok(())
}

fn push_tagged(
    out: &mut Vec<Tagged>,
    declared: &[Declared],
    ranks: &[usize],
    index: usize,
    body: &Body,
) -> Result<(), AllocError>
    ensures { OnOk result (out.new.items
        ≡ out.old.items ++ spec.tagged_in declared.now ranks.now index body.now) }
{
    match body {
        Body::Union(one) => push_members(out, declared, ranks, index, &one.members),
        _ => Ok(()),
    }
}

/// Returns the members of all unions in turn.
pub(crate) fn tagged_of(
    alloc: Global,
    ranks: &[usize],
    declared: &[Declared],
) -> Result<Vec<Tagged>, AllocError>
    ensures { IfOk result (λ all. all.items ≡ spec.tagged_from declared.now ranks.now 0
        declared.now) }
{
    let mut all = Vec::new(alloc);
    let mut index = 0;
    'declared: for one in declared {
        push_tagged(&mut all, declared, ranks, index, &one.body)?;
        index += 1;
    }
    Ok(all)
}
