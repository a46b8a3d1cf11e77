//! The items of a union vector.
ghost use Rattle.std.specs.Prelude.{◌≡◌};
ghost use Rattle.planus_dump.specs.Answers.{unions_at};
ghost use Rattle.planus_dump.specs.ReadingViews.{answer_seen, option_seen, table_seen};
ghost use Rattle.planus_dump.specs.ReadingViews.{unions_seen, unions_view, GetsUnion};

use crate::readings::{METHOD, TYPE};
use planus::errors::ErrorKind;
use planus::table_reader::Table;
use planus::{TaggedPlace, UnionVector};

/// A union vector that was read.
#[derive(Clone, Copy)]
pub struct Unions<'buf> {
    /// Its tags and references.
    pub vector: UnionVector<'buf, TaggedPlace<'buf>>,
}

/// Returns the union vector in a slot and the next, if it is there.
pub fn read_unions<'buf>(table: Table<'buf>, slot: usize) -> Result<Option<Unions<'buf>>, ErrorKind>
    ensures { answer_seen (option_seen unions_seen) result
        ≡ unions_at (table_seen table.entry) slot }
{
    match table.access_union_vector::<UnionVector<'buf, TaggedPlace<'buf>>>(slot, TYPE, METHOD) {
        Ok(Some(vector)) => Ok(Some(Unions { vector })),
        Ok(None) => Ok(None),
        Err(error) => Err(error.error_kind),
    }
}

impl<'buf> Unions<'buf> {
    /// Returns the number of items.
    pub fn len(&self) -> usize
        ensures { result ≡ (unions_view self.now).count }
    {
        self.vector.len()
    }

    /// Returns an item.
    pub fn get(&self, i: usize) -> Option<TaggedPlace<'buf>>
        ensures { GetsUnion (unions_view self.now) i result }
    {
        match self.vector.get(i)? {
            Ok(tagged) => Some(tagged),
            Err(_) => unreachable!(),
        }
    }
}
