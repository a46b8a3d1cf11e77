//! Readers that return where they read, or read by a tag.

ghost use Rattle.std.specs.Prelude.{◌≡◌, ⊤, codes};

use planus::table_reader::Table;
use planus::{
    Error, Place, ReadError, SliceWithStartOffset, Stride, TableRead, TableReadUnion,
    TableReadUnionVector, VectorReadInner, VectorReadUnion,
};
use planus_read::errors::ErrorKind;
use planus_testing::{Test, check_eq};
use std::fmt::Debug;

// Returns where it was to read, counted from the buffer's start.
#[derive(Clone, Copy)]
struct Spotted(usize);

impl<'buf> TableRead<'buf> for Spotted {
    ghost reads = { λ S start f r. ⊤ };

    fn from_buffer(
        buffer: SliceWithStartOffset<'buf>,
        offset: usize,
    ) -> Result<Spotted, ErrorKind> {
        Ok(Spotted(buffer.offset_from_start().wrapping_add(offset)))
    }
}

pub fn position(place: Place<'_>) -> usize {
    match place.read::<Spotted>() {
        Ok(Spotted(at)) => at,
        Err(_) => usize::MAX,
    }
}

pub fn check_slot<'a, T: TableRead<'a> + PartialEq + Debug + Drop>(
    test: &Test<'_>,
    table: Table<'a>,
    slot: usize,
    want: Option<T>,
    row: &str,
) {
    check_eq(
        test,
        &table.access::<T>(slot, "Table", "field"),
        &Ok(want),
        row,
    );
}

pub fn slot_has<'a, T: TableRead<'a> + PartialEq + Drop>(
    table: Table<'a>,
    slot: usize,
    want: Option<T>,
) -> bool {
    match table.access::<T>(slot, "Table", "field") {
        Ok(found) => found == want,
        Err(_) => false,
    }
}

#[derive(Clone, Copy)]
pub struct Pair<'buf> {
    pub tags: Place<'buf>,
    pub values: Place<'buf>,
}

impl<'buf> TableReadUnionVector<'buf> for Pair<'buf> {
    ghost reads = { λ S start f g r. ⊤ };

    fn from_buffer(
        buffer: SliceWithStartOffset<'buf>,
        tags: usize,
        values: usize,
    ) -> Result<Pair<'buf>, ErrorKind> {
        Ok(Pair {
            tags: <Place<'buf> as TableRead<'buf>>::from_buffer(buffer, tags)?,
            values: <Place<'buf> as TableRead<'buf>>::from_buffer(buffer, values)?,
        })
    }
}

#[derive(Clone, Copy)]
pub struct Row<'buf>(pub Table<'buf>);

impl<'buf> Stride for Row<'buf> {
    type Stands = u32;
}

impl<'buf> ReadError for Row<'buf> {
    type Error = Error;
}

impl<'buf> VectorReadInner<'buf> for Row<'buf> {
    ghost gives = { λ S start f r. ⊤ };

    fn from_buffer(buffer: SliceWithStartOffset<'buf>, offset: usize) -> Result<Row<'buf>, Error> {
        match Table::from_buffer(buffer, offset) {
            Ok(table) => Ok(Row(table)),
            Err(kind) => {
                Err(kind.with_error_location("[Row]", "get", buffer.offset_from_start()))
            }
        }
    }
}

#[derive(Clone, Copy)]
pub enum Held<'buf> {
    Table(Table<'buf>),
    Text(&'buf str),
}

impl<'buf> TableReadUnion<'buf> for Held<'buf> {
    ghost reads = { λ S start tag f r. ⊤ };

    fn from_buffer(
        buffer: SliceWithStartOffset<'buf>,
        tag: u8,
        offset: usize,
    ) -> Result<Held<'buf>, ErrorKind> {
        match tag {
            1 => Ok(Held::Table(Table::from_buffer(buffer, offset)?)),
            2 => Ok(Held::Text(TableRead::from_buffer(buffer, offset)?)),
            _ => Err(ErrorKind::UnknownUnionTag { tag }),
        }
    }
}

impl<'buf> VectorReadUnion<'buf> for Held<'buf> {
    ghost name = { codes "[Held]" };

    fn vector_name() -> &'static str
        ensures { result.now ≡ codes "[Held]" }
    {
        "[Held]"
    }
}
