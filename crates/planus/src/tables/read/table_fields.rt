//! Tables and vectors of tables, read back.
ghost use Rattle.std.specs.Prelude.{ℕ, Result as std_result};
ghost use Rattle.planus_read.specs.declared.located.Error.{Error};
ghost use Rattle.planus_read.specs.Slices.{slice_bytes, slice_start};
ghost use Rattle.planus.specs.Accessors.{IsTableField, IsTableRequired};
ghost use Rattle.planus.specs.Accessors.{IsTableVector, IsTableVectorRequired};
ghost use Rattle.planus.specs.ItemAccessors.{GetsTable, IsTableItem};
ghost use Rattle.planus.specs.Roots.{IsRoot};
ghost use Rattle.planus.specs.declared.tables.kind.table_ref.TableRef.{TableRef};
ghost use Rattle.planus_view.specs.declared.vector.SliceView.{SliceView};
ghost use Rattle.planus_view.specs.declared.vector_of.VectorOf.{VectorOf};
ghost use Rattle.planus.specs.Views.{gives_as, reads_as, IsSameView};

use crate::tables::kind::{TableKind, TableRef, TableView};
use planus_read::errors::ErrorKind;
use planus_read::located::{Error, locate};
use planus_read::table_reader::Table;
use planus_read::{Plain, ReadAsRoot, SliceWithStartOffset, Stride};
use planus_view::Vector;

/// Returns the view of the table in a slot, or `None` if absent: a [`TableRef`], or a user's own
/// view.
pub fn table_field<'a, 'n, V: TableView<'a>>(
    table: &Table<'a>,
    slot: usize,
    type_: &'n str,
    method: &'n str,
) -> Result<Option<V>, Error<'n>>
    ensures { IsTableField V.Kind V.table table.now slot type_.now method.now result }
{
    match table.access::<Table<'a>>(slot, type_, method) {
        Ok(Some(found)) => Ok(Some(V::of_table(found))),
        Ok(None) => Ok(None),
        Err(error) => Err(error),
    }
}

/// Returns the view, or `MissingRequired` if absent.
pub fn table_required<'a, 'n, V: TableView<'a>>(
    table: &Table<'a>,
    slot: usize,
    type_: &'n str,
    method: &'n str,
) -> Result<V, Error<'n>>
    ensures { IsTableRequired V.Kind V.table table.now slot type_.now method.now result }
{
    match table.access_required::<Table<'a>>(slot, type_, method) {
        Ok(found) => Ok(V::of_table(found)),
        Err(error) => Err(error),
    }
}

/// Returns the vector of tables in a slot, or `None` if absent: of [`TableRef`]s, or of a user's own
/// views.
pub fn table_vector<'a, 'n, V: TableView<'a> + Stride<Stands = u32> + 'a>(
    table: &Table<'a>,
    slot: usize,
    type_: &'n str,
    method: &'n str,
) -> Result<Option<Vector<'a, planus_read::Result<V>>>, Error<'n>>
    ensures { IsTableVector V.Kind table.now slot type_.now method.now result }
{
    table.access::<Vector<'a, planus_read::Result<V>>>(slot, type_, method)
}

/// Returns the vector, or `MissingRequired` if absent.
pub fn table_vector_required<'a, 'n, V: TableView<'a> + Stride<Stands = u32> + 'a>(
    table: &Table<'a>,
    slot: usize,
    type_: &'n str,
    method: &'n str,
) -> Result<Vector<'a, planus_read::Result<V>>, Error<'n>>
    ensures { IsTableVectorRequired V.Kind table.now slot type_.now method.now result }
{
    table.access_required::<Vector<'a, planus_read::Result<V>>>(slot, type_, method)
}

fn viewed<'a, 'n, V: TableView<'a>>(
    read: Result<TableRef<'a, V::Kind>, Error<'n>>,
) -> Result<V, Error<'n>>
    ensures { IsSameView V.table read.entry result }
{
    match read {
        Ok(found) => Ok(V::of_table(found.table)),
        Err(error) => Err(error),
    }
}

/// Returns the view of an item that `get` returned.
pub fn table_item<'a, 'n, V: TableView<'a>>(
    item: Option<Result<TableRef<'a, V::Kind>, Error<'n>>>,
) -> Option<Result<V, Error<'n>>>
    ensures { (vector : VectorOf
        (SliceView (std_result (TableRef V.Kind) Error) ℕ ⟦<u32 as Plain>⟧))
        (index : ℕ) → GetsTable V.Kind V.Kind.name vector index item.entry
        → IsTableItem V.Kind V.Kind.name V.table vector index result }
{
    match item {
        Some(read) => Some(viewed(read)),
        None => None,
    }
}

/// Returns the view of the root of a whole buffer.
pub fn read_root<'a, 'n, V: TableView<'a>>(bytes: &'a [u8]) -> Result<V, Error<'n>>
    ensures { IsRoot V.Kind V.Kind.name V.table bytes.entry.now result }
{
    viewed(<TableRef<'a, V::Kind> as ReadAsRoot<'a>>::read_as_root(bytes))
}

/// Returns the view of the table to which the reference at an offset leads, as a union's variant.
pub fn read_view<'a, V: TableView<'a>>(
    buffer: SliceWithStartOffset<'a>,
    offset: usize,
) -> Result<V, ErrorKind>
    ensures { reads_as V.table (slice_bytes buffer.entry) (slice_start buffer.entry) offset result }
{
    match Table::from_buffer(buffer, offset) {
        Ok(found) => Ok(V::of_table(found)),
        Err(kind) => Err(kind),
    }
}

/// Returns the view of the table to which the reference at an offset leads, as an item of a vector
/// of tables: its error names the kind and `get`, and is where the vector's first item begins.
pub fn read_item<'a, 'n, V: TableView<'a>>(
    buffer: SliceWithStartOffset<'a>,
    offset: usize,
) -> Result<V, Error<'n>>
    ensures { gives_as V.table V.Kind.name (slice_bytes buffer.entry) (slice_start buffer.entry)
        offset result }
{
    let (name, method): (&'n str, &'n str) = (<V::Kind as TableKind>::name(), "get");
    locate(
        read_view(buffer, offset),
        name,
        method,
        buffer.offset_from_start(),
    )
}
