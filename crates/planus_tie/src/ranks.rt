//! What is known of declarations by those before them.

ghost use Rattle.std.specs.Prelude.{◌≡◌, IfOk, unwrap_or, slice_get, false};
ghost use Rattle.planus_tie.specs.Ranks as spec;

use planus_schema::{Base, Body, Declared, StructField, TableField};
use std::alloc::{AllocError, Global};

pub(crate) fn is_table(body: &Body) -> bool
    ensures { result ≡ spec.is_table body.now }
{
    matches!(body, Body::Table(_))
}

pub(crate) fn is_union_body(body: &Body) -> bool
    ensures { result ≡ spec.is_union_body body.now }
{
    matches!(body, Body::Union(_))
}

fn rank_by(tables: usize, unions: usize, body: &Body) -> usize
    ensures { result ≡ spec.rank_by tables unions body.now }
{
    match body {
        Body::Union(_) => unions,
        _ => tables,
    }
}

/// Returns of each declaration how many tables are before it, and of a union how many unions.
pub(crate) fn ranks_of(alloc: Global, declared: &[Declared]) -> Result<Vec<usize>, AllocError>
    ensures { IfOk result (λ ranks. ranks.items ≡ spec.ranks_of declared.now) }
{
    let mut ranks = Vec::new(alloc);
    let mut tables = 0usize;
    let mut unions = 0usize;
    'declared: for one in declared {
        ranks.push(rank_by(tables, unions, &one.body))?;
        if is_table(&one.body) {
            tables += 1;
        }
        if is_union_body(&one.body) {
            unions += 1;
        }
    }
    Ok(ranks)
}

pub(crate) fn rank_in(ranks: &[usize], index: usize) -> usize
    ensures { result ≡ spec.rank_in ranks.now index }
{
    ranks.get(index).copied().unwrap_or(0)
}

fn total_at(totals: &[bool], index: usize) -> bool
    ensures { result ≡ unwrap_or (slice_get totals.now index) false }
{
    totals.get(index).copied().unwrap_or(false)
}

/// Returns whether any bytes of its size are a value of this type.
pub(crate) fn is_total(totals: &[bool], base: Base) -> bool
    ensures { result ≡ spec.is_total totals.now base }
{
    match base {
        Base::Scalar(_) => true,
        Base::Enum(index) | Base::Struct(index) => total_at(totals, index),
        _ => false,
    }
}

fn are_total(totals: &[bool], fields: &[StructField]) -> bool
    ensures { result ≡ spec.are_total totals.now fields.now }
{
    'fields: for field in fields {
        if !is_total(totals, field.base) {
            return false;
        }
    }
    true
}

fn is_total_body(totals: &[bool], body: &Body) -> bool
    ensures { result ≡ spec.is_total_body totals.now body.now }
{
    match body {
        Body::Enum(one) => one.flags,
        Body::Struct(one) => are_total(totals, &one.fields),
        _ => false,
    }
}

/// Returns of each declaration whether any bytes are a value.
pub(crate) fn totals_of(alloc: Global, declared: &[Declared]) -> Result<Vec<bool>, AllocError>
    ensures { IfOk result (λ totals. totals.items ≡ spec.totals_of declared.now) }
{
    let mut totals = Vec::new(alloc);
    'declared: for one in declared {
        let total = is_total_body(&totals, &one.body);
        totals.push(total)?;
    }
    Ok(totals)
}

fn is_value(base: Base) -> bool
    ensures { result ≡ spec.is_value base }
{
    matches!(base, Base::Enum(_) | Base::Struct(_))
}

/// Returns whether the accessor of a verified view may fail.
pub(crate) fn is_judged(totals: &[bool], field: &TableField) -> bool
    ensures { result ≡ spec.is_judged totals.now field.now }
{
    is_value(field.kind.base) && !field.kind.vector && !is_total(totals, field.kind.base)
}
