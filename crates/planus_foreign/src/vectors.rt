//! Fields of vectors, stored as the place of their items in the buffer.

ghost use Rattle.std.specs.Prelude.{◌≡◌, Option, Result as std_result};
ghost use Rattle.planus_read.specs.declared.located.Error.{Error};
ghost use Rattle.planus_view.specs.declared.vector.SliceView.{SliceView};
ghost use Rattle.planus_view.specs.declared.vector_of.VectorOf.{VectorOf};
ghost use Rattle.planus_foreign.specs.Calls.{Reads};
ghost use Rattle.planus_foreign.specs.Places.{IsItemSpan, Items, ItemsIf, IsField, IsRequired};
ghost use Rattle.planus.specs.Printed.{IsPlainVector, IsPlainVectorRequired, texts, tables};

use crate::span::Span;
use crate::status::{ABSENT, OK, status_of, table_at};
use planus::located::Error;
use planus::{
    Stride, TableKind, TableRef, Vector, plain_vector, plain_vector_required, table_vector,
    table_vector_required, text_vector, text_vector_required,
};

#[inline]
fn span_of<'a, T: Stride + 'a>(vector: &Vector<'a, T>) -> Span
    ensures { IsItemSpan vector.now result }
{
    Span {
        at: vector.items().offset_from_start(),
        len: vector.len(),
    }
}

#[inline]
fn put<'a, T: Stride + 'a>(read: Result<Vector<'a, T>, Error<'_>>, out: &mut Span) -> u32
    ensures { Items read.entry out.old out.new result }
{
    match read {
        Ok(vector) => {
            *out = span_of(&vector);
            OK
        }
        Err(error) => status_of(error.error_kind),
    }
}

#[inline]
fn put_if<'a, T: Stride + 'a>(read: Result<Option<Vector<'a, T>>, Error<'_>>, out: &mut Span) -> u32
    ensures { ItemsIf read.entry out.old out.new result }
{
    match read {
        Ok(Some(vector)) => {
            *out = span_of(&vector);
            OK
        }
        Ok(None) => ABSENT,
        Err(error) => status_of(error.error_kind),
    }
}

/// Stores where the items of the vector in a slot are, if it isn't absent. `T` is as for
/// [`plain_vector`]; items are in the buffer one after another.
#[inline]
pub fn read_items_if<'a, T: Stride + 'a>(
    buffer: &'a [u8],
    table: usize,
    slot: usize,
    type_: &str,
    method: &str,
    out: &mut Span,
) -> u32
    ensures { Reads
        (λ t (r : std_result (Option (VectorOf (SliceView T T.Stands T.Stands.Plain))) Error).
        IsPlainVector t slot type_.now method.now r) ItemsIf
        buffer.entry.now table out.old out.new result }
{
    match table_at(buffer, table) {
        Ok(table) => put_if(plain_vector::<T>(&table, slot, type_, method), out),
        Err(kind) => status_of(kind),
    }
}

/// Stores where the items of the vector in a slot are, which is required.
#[inline]
pub fn read_items<'a, T: Stride + 'a>(
    buffer: &'a [u8],
    table: usize,
    slot: usize,
    type_: &str,
    method: &str,
    out: &mut Span,
) -> u32
    ensures { Reads (λ t (r : std_result (VectorOf (SliceView T T.Stands T.Stands.Plain)) Error).
        IsPlainVectorRequired t slot type_.now method.now r) Items
        buffer.entry.now table out.old out.new result }
{
    match table_at(buffer, table) {
        Ok(table) => put(plain_vector_required::<T>(&table, slot, type_, method), out),
        Err(kind) => status_of(kind),
    }
}

/// Stores where the references of the vector of strings in a slot are, if it isn't absent.
#[inline]
pub fn read_texts_if(
    buffer: &[u8],
    table: usize,
    slot: usize,
    type_: &str,
    method: &str,
    out: &mut Span,
) -> u32
    ensures { Reads (λ t. IsField texts t slot type_.now method.now) ItemsIf
        buffer.now table out.old out.new result }
{
    match table_at(buffer, table) {
        Ok(table) => put_if(text_vector(&table, slot, type_, method), out),
        Err(kind) => status_of(kind),
    }
}

/// Stores where the references of the vector of strings in a slot are, which is required.
#[inline]
pub fn read_texts(
    buffer: &[u8],
    table: usize,
    slot: usize,
    type_: &str,
    method: &str,
    out: &mut Span,
) -> u32
    ensures { Reads (λ t. IsRequired texts t slot type_.now method.now) Items
        buffer.now table out.old out.new result }
{
    match table_at(buffer, table) {
        Ok(table) => put(text_vector_required(&table, slot, type_, method), out),
        Err(kind) => status_of(kind),
    }
}

/// Stores where the references of the vector of tables in a slot are, if it isn't absent: each is
/// the position of a table.
#[inline]
pub fn read_tables_if<'a, K: TableKind + 'a>(
    buffer: &'a [u8],
    table: usize,
    slot: usize,
    type_: &str,
    method: &str,
    out: &mut Span,
) -> u32
    ensures { Reads (λ t. IsField (tables K) t slot type_.now method.now) ItemsIf
        buffer.entry.now table out.old out.new result }
{
    match table_at(buffer, table) {
        Ok(table) => put_if(
            table_vector::<TableRef<'a, K>>(&table, slot, type_, method),
            out,
        ),
        Err(kind) => status_of(kind),
    }
}

/// Stores where the references of the vector of tables in a slot are, which is required.
#[inline]
pub fn read_tables<'a, K: TableKind + 'a>(
    buffer: &'a [u8],
    table: usize,
    slot: usize,
    type_: &str,
    method: &str,
    out: &mut Span,
) -> u32
    ensures { Reads (λ t. IsRequired (tables K) t slot type_.now method.now) Items
        buffer.entry.now table out.old out.new result }
{
    match table_at(buffer, table) {
        Ok(table) => put(
            table_vector_required::<TableRef<'a, K>>(&table, slot, type_, method),
            out,
        ),
        Err(kind) => status_of(kind),
    }
}
