use super::agreement::{Field, Spot, Union, UnionField, same_kind};
use super::kinds::{Held, Pair, Row};
use super::plain_reader::{Answer, PlainTable, table};
use planus::located::Error as Located;
use planus::table_reader::Table;
use planus::{
    Error, Place, SignedBytes, SliceWithStartOffset, TableRead, TableReadUnion,
    TableReadUnionVector, TaggedPlace, UnionVector, Vector,
};
use planus_read::errors::ErrorKind;

#[derive(Clone, Copy)]
pub struct Found<'a> {
    pub table: Table<'a>,
    pub plain: PlainTable<'a>,
    pub start: i128,
}

#[derive(Clone, Copy)]
struct Both<T> {
    read: Answer<Option<T>>,
    required: Answer<T>,
}

impl<T: Copy> Both<T> {
    fn is_absent(&self) -> bool {
        matches!(
            (self.read, self.required),
            (Ok(None), Err(ErrorKind::MissingRequired))
        )
    }

    fn fails(&self, kind: ErrorKind) -> bool {
        match (self.read, self.required) {
            (Err(read), Err(required)) => same_kind(read, kind) && same_kind(required, kind),
            _ => false,
        }
    }

    fn there(&self) -> Option<(Answer<T>, Answer<T>)> {
        match self.read {
            Ok(None) => None,
            Ok(Some(value)) => Some((Ok(value), self.required)),
            Err(kind) => Some((Err(kind), self.required)),
        }
    }
}

impl<'a> Found<'a> {
    fn spot(&self, at: i128) -> Spot<'a> {
        Spot {
            bytes: self.plain.bytes,
            start: self.start,
            from: self.plain.object,
            at,
        }
    }

    fn unlocated<T>(&self, read: Result<T, Located<'_>>) -> Option<Answer<T>> {
        match read {
            Ok(value) => Some(Ok(value)),
            Err(error) => {
                let kind = error.error_kind;
                if !self.spot(0).is_error(error, kind, ("T", "m")) {
                    return None;
                }
                Some(Err(kind))
            }
        }
    }

    fn both<T: Copy>(
        &self,
        read: Result<Option<T>, Located<'_>>,
        required: Result<T, Located<'_>>,
    ) -> Option<Both<T>> {
        Some(Both {
            read: self.unlocated(read)?,
            required: self.unlocated(required)?,
        })
    }

    fn field_agrees<T: TableRead<'a> + Field>(&self, slot: usize) -> bool {
        let read = self.table.access::<T>(slot, "T", "m");
        let required = self.table.access_required::<T>(slot, "T", "m");
        let Some(both) = self.both(read, required) else {
            return false;
        };
        match (self.plain.field(slot), both.there()) {
            (Some(at), Some((read, required))) => {
                T::agrees(read, self.spot(at)) && T::agrees(required, self.spot(at))
            }
            (None, _) => both.is_absent(),
            _ => false,
        }
    }

    fn union_agrees<T: TableReadUnion<'a> + Union>(&self, slot: usize) -> bool {
        let read = self.table.access_union::<T>(slot, "T", "m");
        let required = self.table.access_union_required::<T>(slot, "T", "m");
        let Some(both) = self.both(read, required) else {
            return false;
        };
        match (self.plain.union(slot), both.there()) {
            (Ok(Some((tag, at))), Some((read, required))) => {
                T::agrees(read, tag, self.spot(at)) && T::agrees(required, tag, self.spot(at))
            }
            (Ok(None), _) => both.is_absent(),
            (Err(kind), _) => both.fails(kind),
            _ => false,
        }
    }

    fn union_vector_agrees<T: TableReadUnionVector<'a> + UnionField>(&self, slot: usize) -> bool {
        let read = self.table.access_union_vector::<T>(slot, "T", "m");
        let required = self.table.access_union_vector_required::<T>(slot, "T", "m");
        let Some(both) = self.both(read, required) else {
            return false;
        };
        match (self.plain.union_vector(slot), both.there()) {
            (Ok(Some((tags, at))), Some((read, required))) => {
                T::agrees(read, tags, self.spot(at)) && T::agrees(required, tags, self.spot(at))
            }
            (Ok(None), _) => both.is_absent(),
            (Err(kind), _) => both.fails(kind),
            _ => false,
        }
    }

    pub fn values_agree(&self, slot: usize) -> bool {
        self.field_agrees::<&str>(slot)
            && self.field_agrees::<i16>(slot)
            && self.field_agrees::<u8>(slot)
    }

    fn slices_agree(&self, slot: usize) -> bool {
        self.field_agrees::<&[u8]>(slot)
            && self.field_agrees::<Table<'_>>(slot)
            && self.field_agrees::<Place<'_>>(slot)
    }

    fn vectors_agree(&self, slot: usize) -> bool {
        self.field_agrees::<Vector<'_, u16>>(slot)
            && self.field_agrees::<Vector<'_, i64>>(slot)
            && self.field_agrees::<Vector<'_, bool>>(slot)
            && self.field_agrees::<Vector<'_, Place<'_>>>(slot)
            && self.field_agrees::<Vector<'_, Result<&str, Error>>>(slot)
            && self.field_agrees::<Vector<'_, Result<Row<'_>, Error>>>(slot)
    }

    fn unions_agree(&self, slot: usize) -> bool {
        self.union_agrees::<TaggedPlace<'_>>(slot)
            && self.union_agrees::<Held<'_>>(slot)
            && self.union_vector_agrees::<Pair<'_>>(slot)
            && self.union_vector_agrees::<UnionVector<'_, TaggedPlace<'_>>>(slot)
            && self.union_vector_agrees::<UnionVector<'_, Held<'_>>>(slot)
    }

    fn agrees_at(&self, slot: usize) -> bool {
        self.values_agree(slot)
            && self.slices_agree(slot)
            && self.vectors_agree(slot)
            && self.unions_agree(slot)
    }

    fn agrees(&self, slots: &[usize]) -> bool {
        for slot in slots {
            if !self.agrees_at(*slot) {
                return false;
            }
        }
        true
    }
}

pub fn tables_agree(slice: SliceWithStartOffset<'_>, f: usize, slots: &[usize]) -> bool {
    let start = slice.offset_from_start() as i128;
    let plain = table(slice.as_slice(), 0, f as i128);
    match (Table::from_buffer(slice, f), plain) {
        (Ok(table), Ok(plain)) => Found {
            table,
            plain,
            start,
        }
        .agrees(slots),
        (Err(kind), Err(plain)) => same_kind(kind, plain),
        _ => false,
    }
}

fn field_agrees<'a, T: TableRead<'a> + Field>(slice: SliceWithStartOffset<'a>, f: usize) -> bool {
    let spot = Spot {
        bytes: slice.as_slice(),
        start: slice.offset_from_start() as i128,
        from: 0,
        at: f as i128,
    };
    T::agrees(T::from_buffer(slice, f), spot)
}

pub fn lists_agree(slice: SliceWithStartOffset<'_>, f: usize) -> bool {
    field_agrees::<&str>(slice, f)
        && field_agrees::<&[u8]>(slice, f)
        && field_agrees::<SignedBytes<'_>>(slice, f)
        && field_agrees::<Vector<'_, u16>>(slice, f)
        && field_agrees::<Vector<'_, Result<&str, Error>>>(slice, f)
}
