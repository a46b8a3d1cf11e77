//! Tables, read in place.

ghost use Rattle.std.specs.Prelude.{◌≡◌, ◌<◌, ◌≤◌, ◌+◌, ◌*◌, ◌^◌, [], length};
ghost use Rattle.std.specs.Prelude.{IfOk, IfErr, IfSome, IfNone, pos, ◌≤ℤ◌, ◌-ℤ◌, unsigned_abs};
ghost use Rattle.planus_read.specs.Clauses.{Answer, shown, AllHold, FirstBroken};
ghost use Rattle.planus_read.specs.Slices.{slice_bytes, slice_start};
ghost use Rattle.planus_read.specs.Located.{Located, Required};
ghost use Rattle.planus_read.specs.Reading.{table_reading, word_clauses, object_clauses};
ghost use Rattle.planus_read.specs.Reading.{vtable_at, slots_of};

use crate::errors::ErrorKind;
use crate::located::{Error, locate};
use crate::slice_helpers::SliceWithStartOffset;
use crate::traits::{TableRead, TableReadUnion, TableReadUnionVector, VectorRead};

/// A view of a table. In the format it begins with a signed number of 4 bytes that leads to its
/// vtable, which has 2 bytes for each field: the distance from the table's first byte, 0 if absent.
#[derive(Clone, Copy, Debug)]
pub struct Table<'buf> {
    object: SliceWithStartOffset<'buf>,
    vtable: &'buf [u8],
    ghost small: { length vtable.now + 4 < 2 ^ 16 },
}

fn vtable_offset(buffer: SliceWithStartOffset<'_>, object_offset: usize) -> Result<usize, ErrorKind>
    ensures offset { IfOk result (λ t. t ≡ vtable_at (slice_bytes buffer.entry) object_offset) }
    ensures holds { IfOk result (λ _.
        AllHold (word_clauses (slice_bytes buffer.entry) object_offset [])) }
    ensures error { IfErr result (λ e.
        FirstBroken (word_clauses (slice_bytes buffer.entry) object_offset []) e) }
{
    let relative = <i32 as TableRead<'_>>::from_buffer(buffer, object_offset)?;
    if relative < 0 {
        return Ok(object_offset + relative.unsigned_abs() as usize);
    }
    let relative = relative as usize;
    if relative > object_offset {
        return Err(ErrorKind::InvalidOffset);
    }
    Ok(object_offset - relative)
}

fn vtable_of<'buf>(
    buffer: SliceWithStartOffset<'buf>,
    object_offset: usize,
) -> Result<&'buf [u8], ErrorKind>
    ensures slots { IfOk result (λ slots.
        slots.now ≡ slots_of (slice_bytes buffer.entry) object_offset) }
    ensures small { IfOk result (λ slots. length slots.now + 4 < 2 ^ 16) }
    ensures holds { IfOk result (λ _.
        AllHold (object_clauses (slice_bytes buffer.entry) object_offset)) }
    ensures error { IfErr result (λ e.
        FirstBroken (object_clauses (slice_bytes buffer.entry) object_offset) e) }
{
    let offset = vtable_offset(buffer, object_offset)?;
    let size = <u16 as TableRead<'_>>::from_buffer(buffer, offset)?;
    if size < 4 || size % 2 != 0 {
        return Err(ErrorKind::InvalidVtableLength { length: size });
    }
    let size = size as usize;
    let rest = buffer.unchecked_advance(offset).as_slice();
    if rest.len() < size {
        return Err(ErrorKind::InvalidLength);
    }
    let vtable = &rest[..size];
    Ok(&vtable[4..])
}

#[inline(always)]
fn vtable_place(object_offset: usize, relative: i32) -> usize
    requires small { object_offset < 2 ^ 63 }
    requires behind { relative ≤ℤ pos object_offset }
    requires inside { unsigned_abs (pos object_offset -ℤ relative) < 2 ^ 63 }
    ensures { result ≡ unsigned_abs (pos object_offset -ℤ relative) }
{
    (object_offset as isize - relative as isize) as usize
}

#[inline(always)]
fn vtable_unchecked<'buf>(buffer: SliceWithStartOffset<'buf>, object_offset: usize) -> &'buf [u8]
    requires { AllHold (object_clauses (slice_bytes buffer) object_offset) }
    ensures slots { result.now ≡ slots_of (slice_bytes buffer.entry) object_offset }
    ensures small { length result.now + 4 < 2 ^ 16 }
{
    let relative = <i32 as VectorRead<'buf>>::from_buffer(buffer, object_offset);
    let place = vtable_place(object_offset, relative);
    let size = <u16 as VectorRead<'buf>>::from_buffer(buffer, place) as usize;
    let rest = buffer.unchecked_advance(place).as_slice();
    let vtable = &rest[..size];
    &vtable[4..]
}

#[inline]
fn required<A>(answer: Result<Option<A>, ErrorKind>) -> Result<A, ErrorKind>
    ensures { Required (λ a. a ≡ answer) result }
{
    answer?.ok_or(ErrorKind::MissingRequired)
}

impl<'buf> Table<'buf> {
    ghost use Rattle.planus_read.specs.Tables.{ShowsTable, table_object, table_start, table_slots};
    ghost use Rattle.planus_read.specs.Tables.{slot_of};
    ghost use Rattle.planus_read.specs.Reading.{table_clauses};
    ghost use Rattle.std.specs.Prelude.{Ok};
    ghost use Rattle.planus_read.specs.Tables.{Slot, BothSlots};
    ghost use Rattle.planus_read.specs.Tables.{FieldAnswer, UnionAnswer, UnionVectorAnswer};
    ghost use Rattle.planus_read.specs.Tables.{UnionThere, UnionAbsent, UnionBroken};

    /// Returns the table to which the reference at the offset in bytes leads. Fails with
    /// [`ErrorKind::InvalidOffset`] if a number or the table is outside the slice or the vtable
    /// would begin before it, [`ErrorKind::InvalidVtableLength`] for a size that is odd or below 4,
    /// and [`ErrorKind::InvalidLength`] if the vtable passes the end.
    pub fn from_buffer(buffer: SliceWithStartOffset<'buf>, offset: usize) -> Result<Self, ErrorKind>
        ensures { let S = slice_bytes buffer.entry in let start = slice_start buffer.entry in
            Answer (shown (ShowsTable S start) (table_reading S offset)) result }
    {
        let value = <u32 as TableRead<'buf>>::from_buffer(buffer, offset)?;
        let object_offset = offset + value as usize;
        let vtable = vtable_of(buffer, object_offset)?;
        let object = buffer.unchecked_advance(object_offset);
        Ok(Table { object, vtable })
    }

    /// As [`Table::from_buffer`], without tests. Requires all clauses of its reading to hold.
    #[inline(always)]
    pub fn from_buffer_unchecked(buffer: SliceWithStartOffset<'buf>, offset: usize) -> Self
        requires { AllHold (table_clauses (slice_bytes buffer) offset) }
        ensures { let S = slice_bytes buffer.entry in let start = slice_start buffer.entry in
            Answer (shown (ShowsTable S start) (table_reading S offset)) (Ok result) }
    {
        let value = <u32 as VectorRead<'buf>>::from_buffer(buffer, offset) as usize;
        let object_offset = offset + value;
        let vtable = vtable_unchecked(buffer, object_offset);
        let object = buffer.unchecked_advance(object_offset);
        Table { object, vtable }
    }

    /// Returns the bytes from the table's first byte on.
    #[inline(always)]
    pub fn object(&self) -> SliceWithStartOffset<'buf>
        ensures bytes { slice_bytes result ≡ table_object self.now }
        ensures start { slice_start result ≡ table_start self.now }
    {
        self.object
    }

    /// Returns the number in a slot: the field's distance from the table's first byte, 0 if absent.
    #[inline(always)]
    pub fn slot_offset(&self, slot: usize) -> usize
        ensures value { result ≡ slot_of self.now slot }
        ensures small { result < 2 ^ 16 }
    {
        self.slot(slot)
    }

    #[inline]
    fn slot_inside(&self, slot: usize) -> usize
        requires { 2 * slot + 2 ≤ length (table_slots self.now) }
        ensures value { result ≡ Slot (table_slots self.now) slot }
        ensures small { result < 2 ^ 16 }
    {
        let bytes = &self.vtable[2 * slot..2 * slot + 2];
        match bytes.first_chunk::<2>() {
            Some(bytes) => u16::from_le_bytes(*bytes) as usize,
            None => unreachable!(),
        }
    }

    #[inline]
    fn slot(&self, slot: usize) -> usize
        ensures value { result ≡ Slot (table_slots self.now) slot }
        ensures small { result < 2 ^ 16 }
    {
        if slot >= self.vtable.len() / 2 {
            return 0;
        }
        self.slot_inside(slot)
    }

    #[inline]
    fn both_slots(&self, slot: usize) -> Option<(usize, usize)>
        ensures both { IfSome result (λ _. BothSlots self.now slot) }
        ensures first { IfSome result (λ slots. slots.0 ≡ Slot (table_slots self.now) slot) }
        ensures second { IfSome result (λ slots. slots.1 ≡ Slot (table_slots self.now) (slot + 1)) }
        ensures none { IfNone result (length (table_slots self.now) < 2 * slot + 4) }
    {
        if slot >= (self.vtable.len() / 2).saturating_sub(1) {
            return None;
        }
        Some((self.slot_inside(slot), self.slot_inside(slot + 1)))
    }

    fn field<T: TableRead<'buf>>(&self, slot: usize) -> Result<Option<T>, ErrorKind>
        ensures { FieldAnswer T.reads self.now slot result }
    {
        let offset = self.slot(slot);
        if offset == 0 {
            return Ok(None);
        }
        Ok(Some(T::from_buffer(self.object, offset)?))
    }

    fn union_at(&self, slot: usize) -> Result<Option<(u8, usize)>, ErrorKind>
        ensures some { IfOk result (λ found.
            IfSome found (λ union. UnionThere self.now slot union.0)) }
        ensures value { IfOk result (λ found.
            IfSome found (λ union. union.1 ≡ Slot (table_slots self.now) (slot + 1))) }
        ensures none { IfOk result (λ found. IfNone found (UnionAbsent self.now slot)) }
        ensures error { IfErr result (λ e. UnionBroken self.now slot e) }
    {
        let Some((tag_offset, value_offset)) = self.both_slots(slot) else {
            let length = self.vtable.len();
            if slot >= length.div_ceil(2) {
                return Ok(None);
            }
            return Err(ErrorKind::InvalidVtableLength {
                length: length as u16 + 4,
            });
        };
        let tag = <u8 as TableRead<'buf>>::from_buffer(self.object, tag_offset)?;
        if tag == 0 || tag_offset == 0 || value_offset == 0 {
            return Ok(None);
        }
        Ok(Some((tag, value_offset)))
    }

    fn union_field<T: TableReadUnion<'buf>>(&self, slot: usize) -> Result<Option<T>, ErrorKind>
        ensures { UnionAnswer T.reads self.now slot result }
    {
        let Some((tag, offset)) = self.union_at(slot)? else {
            return Ok(None);
        };
        Ok(Some(T::from_buffer(self.object, tag, offset)?))
    }

    fn union_vector_field<T: TableReadUnionVector<'buf>>(
        &self,
        slot: usize,
    ) -> Result<Option<T>, ErrorKind>
        ensures { UnionVectorAnswer T.reads self.now slot result }
    {
        let Some((tags, values)) = self.both_slots(slot) else {
            return Ok(None);
        };
        if tags == 0 && values == 0 {
            return Ok(None);
        }
        if tags == 0 || values == 0 {
            return Err(ErrorKind::InvalidOffset);
        }
        Ok(Some(T::from_buffer(self.object, tags, values)?))
    }

    /// Returns the field of a slot, or `None` if absent. The errors are those of `T`, located at
    /// this table under these names.
    pub fn access<'n, T: TableRead<'buf>>(
        &self,
        slot: usize,
        type_: &'n str,
        method: &'n str,
    ) -> Result<Option<T>, Error<'n>>
        ensures { Located (FieldAnswer T.reads self.now slot)
            type_.now method.now (table_start self.now) result }
    {
        let answer = self.field::<T>(slot);
        locate(answer, type_, method, self.object.offset_from_start())
    }

    /// As [`Table::access`], with [`ErrorKind::MissingRequired`] for `None`.
    pub fn access_required<'n, T: TableRead<'buf>>(
        &self,
        slot: usize,
        type_: &'n str,
        method: &'n str,
    ) -> Result<T, Error<'n>>
        ensures { Located (Required (FieldAnswer T.reads self.now slot))
            type_.now method.now (table_start self.now) result }
    {
        let answer = required(self.field::<T>(slot));
        locate(answer, type_, method, self.object.offset_from_start())
    }

    /// Returns the union with its tag in a slot and its reference in the next, or `None` if the tag
    /// or a slot is 0 or the vtable ends before both. Fails with [`ErrorKind::InvalidOffset`] if
    /// the tag isn't in the buffer, [`ErrorKind::InvalidVtableLength`] if the vtable ends between
    /// the slots, then as `T` does.
    pub fn access_union<'n, T: TableReadUnion<'buf>>(
        &self,
        slot: usize,
        type_: &'n str,
        method: &'n str,
    ) -> Result<Option<T>, Error<'n>>
        ensures { Located (UnionAnswer T.reads self.now slot)
            type_.now method.now (table_start self.now) result }
    {
        let answer = self.union_field::<T>(slot);
        locate(answer, type_, method, self.object.offset_from_start())
    }

    /// As [`Table::access_union`], with [`ErrorKind::MissingRequired`] for `None`.
    pub fn access_union_required<'n, T: TableReadUnion<'buf>>(
        &self,
        slot: usize,
        type_: &'n str,
        method: &'n str,
    ) -> Result<T, Error<'n>>
        ensures { Located (Required (UnionAnswer T.reads self.now slot))
            type_.now method.now (table_start self.now) result }
    {
        let answer = required(self.union_field::<T>(slot));
        locate(answer, type_, method, self.object.offset_from_start())
    }

    /// Returns the union vector with its tags in a slot and its values in the next, or `None` if
    /// both slots are 0 or aren't both in the vtable. Fails with [`ErrorKind::InvalidOffset`] if
    /// exactly one is 0, then as `T` does.
    pub fn access_union_vector<'n, T: TableReadUnionVector<'buf>>(
        &self,
        slot: usize,
        type_: &'n str,
        method: &'n str,
    ) -> Result<Option<T>, Error<'n>>
        ensures { Located (UnionVectorAnswer T.reads self.now slot)
            type_.now method.now (table_start self.now) result }
    {
        let answer = self.union_vector_field::<T>(slot);
        locate(answer, type_, method, self.object.offset_from_start())
    }

    /// As [`Table::access_union_vector`], with [`ErrorKind::MissingRequired`] for `None`.
    pub fn access_union_vector_required<'n, T: TableReadUnionVector<'buf>>(
        &self,
        slot: usize,
        type_: &'n str,
        method: &'n str,
    ) -> Result<T, Error<'n>>
        ensures { Located (Required (UnionVectorAnswer T.reads self.now slot))
            type_.now method.now (table_start self.now) result }
    {
        let answer = required(self.union_vector_field::<T>(slot));
        locate(answer, type_, method, self.object.offset_from_start())
    }
}

impl<'buf> TableRead<'buf> for Table<'buf> {
    ghost use Rattle.planus_read.specs.Tables.{ShowsTable};

    ghost reads = { λ S start f r. Answer (shown (ShowsTable S start) (table_reading S f)) r };

    fn from_buffer(
        buffer: SliceWithStartOffset<'buf>,
        offset: usize,
    ) -> Result<Table<'buf>, ErrorKind> {
        Table::from_buffer(buffer, offset)
    }
}
