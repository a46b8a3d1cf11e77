//! Tables, read in place.
ghost use Rattle.std.specs.Prelude.{◌≡◌, codes, ⊤};
ghost use Rattle.planus_read.specs.Clauses.{Answer, shown};
ghost use Rattle.planus_read.specs.Located.{Located};
ghost use Rattle.planus_read.specs.Reading.{table_reading};
ghost use Rattle.planus.specs.Views.{ShowsView};

use crate::tables::kind::table_kind::TableKind;
use crate::tables::kind::table_view::TableView;
use planus_read::errors::ErrorKind;
use planus_read::located::locate;
use planus_read::table_reader::Table;
use planus_read::{
    Error, ReadAsRoot, ReadError, ReadSliceAsRoot, Result, SliceWithStartOffset, Stride, TableRead,
    VectorReadInner,
};
use std::alloc::AllocError;
use std::marker::PhantomData;

/// A table of kind `K` in a buffer, read by the calls of [`Table`].
#[derive_where(Debug)]
pub struct TableRef<'a, K> {
    /// The table.
    pub table: Table<'a>,
    #[derive_where(skip)]
    pub _marker: PhantomData<K>,
}

impl<'a, K> Clone for TableRef<'a, K> {
    ghost is_clone = { λ view copy. copy ≡ view };

    ghost is_infallible = { λ _. ⊤ };

    #[inline]
    fn clone(&self) -> std::result::Result<Self, AllocError> {
        Ok(*self)
    }
}

impl<'a, K> Copy for TableRef<'a, K> {}

impl<'a, K> TableRef<'a, K> {
    fn new(table: Table<'a>) -> TableRef<'a, K>
        ensures { result.table ≡ table.entry }
    {
        TableRef {
            table,
            _marker: PhantomData,
        }
    }
}

impl<'a, K: TableKind> TableView<'a> for TableRef<'a, K> {
    type Kind = K;

    ghost table = { λ view. view.table };

    fn of_table(read: Table<'a>) -> TableRef<'a, K> {
        TableRef::new(read)
    }
}

impl<'a, K> TableRead<'a> for TableRef<'a, K> {
    ghost reads = { λ S start f r. Answer (shown (ShowsView S start) (table_reading S f)) r };

    fn from_buffer(
        buffer: SliceWithStartOffset<'a>,
        offset: usize,
    ) -> std::result::Result<TableRef<'a, K>, ErrorKind> {
        let table = Table::from_buffer(buffer, offset)?;
        Ok(TableRef::new(table))
    }
}

impl<'a, K: TableKind> ReadAsRoot<'a> for TableRef<'a, K> {
    ghost reads_root = { λ S r.
        Located (Answer (shown (ShowsView S 0) (table_reading S 0)))
        K.name (codes "read_as_root") 0 r };

    fn read_as_root(slice: &'a [u8]) -> Result<TableRef<'a, K>> {
        ReadSliceAsRoot::read_slice_as_root(SliceWithStartOffset::new(slice, 0))
    }
}

impl<'a, K: TableKind> ReadSliceAsRoot<'a> for TableRef<'a, K> {
    ghost reads_root = { λ S start r.
        Located (Answer (shown (ShowsView S start) (table_reading S 0)))
        K.name (codes "read_as_root") start r };

    fn read_slice_as_root(slice: SliceWithStartOffset<'a>) -> Result<TableRef<'a, K>> {
        let view = <TableRef<'a, K> as TableRead<'a>>::from_buffer(slice, 0);
        locate(view, K::name(), "read_as_root", slice.offset_from_start())
    }
}

impl<'a, K> Stride for TableRef<'a, K> {
    type Stands = u32;
}

impl<'a, K> ReadError for TableRef<'a, K> {
    type Error = Error;
}

impl<'a, K: TableKind> VectorReadInner<'a> for TableRef<'a, K> {
    ghost gives = { λ S start f r.
        Located (Answer (shown (ShowsView S start) (table_reading S f)))
        K.name (codes "get") start r };

    fn from_buffer(buffer: SliceWithStartOffset<'a>, offset: usize) -> Result<TableRef<'a, K>> {
        let view = <TableRef<'a, K> as TableRead<'a>>::from_buffer(buffer, offset);
        locate(view, K::name(), "get", buffer.offset_from_start())
    }
}
