//! Fields that `Debug` doesn't read on.

ghost use Rattle.std.specs.Prelude.{◌≡◌, ◌≢◌, ◌+◌, IfOk, IfErr, IfSome, IfNone};
ghost use Rattle.planus_read.specs.Clauses.{AllHold, FirstBroken};
ghost use Rattle.planus_read.specs.Reading.{target};
ghost use Rattle.planus_read.specs.Slices.{slice_bytes, slice_start};
ghost use Rattle.planus_views.specs.References.{reference_clauses};

use planus::errors::ErrorKind;
use planus::table_reader::Table;
use planus::{SliceWithStartOffset, TableRead};
use std::fmt;

/// A field of references, by where it leads and not by what is there: `Debug` of a view shows so each
/// field whose type leads back to the view's own table.
#[derive(Clone, Copy)]
pub struct Unread<'a> {
    table: Table<'a>,
    slot: usize,
    name: &'static str,
}

fn begin_of(buffer: SliceWithStartOffset<'_>, offset: usize) -> Result<usize, ErrorKind>
    ensures begin { IfOk result (λ begin.
        begin ≡ slice_start buffer.entry + target (slice_bytes buffer.entry) offset) }
    ensures holds { IfOk result (λ _.
        AllHold (reference_clauses (slice_bytes buffer.entry) offset)) }
    ensures error { IfErr result (λ e.
        FirstBroken (reference_clauses (slice_bytes buffer.entry) offset) e) }
{
    let reference = <u32 as TableRead<'_>>::from_buffer(buffer, offset)?;
    let content = buffer.advance(offset + reference as usize)?;
    Ok(content.offset_from_start())
}

impl<'a> Unread<'a> {
    ghost use Rattle.planus_read.specs.Tables.{table_object, table_start, slot_of};
    ghost use Rattle.planus_views.specs.References.{unread_table, unread_slot};

    /// Creates the field whose reference is in a slot of a table. The name is that of its type.
    pub fn new(table: Table<'a>, slot: usize, name: &'static str) -> Unread<'a>
        ensures table { unread_table result ≡ table.entry }
        ensures slot { unread_slot result ≡ slot }
    {
        Unread { table, slot, name }
    }

    /// Returns where the value begins, in bytes from the buffer's first one, or `None` if the field is
    /// absent. Fails with [`ErrorKind::InvalidOffset`] if it would be outside the buffer.
    pub fn begin(&self) -> Result<Option<usize>, ErrorKind>
        ensures begin { IfOk result (λ found. IfSome found (λ begin.
            begin ≡ table_start (unread_table self.now) + target (table_object (unread_table self.now))
            (slot_of (unread_table self.now) (unread_slot self.now)))) }
        ensures there { IfOk result (λ found. IfSome found (λ _.
            slot_of (unread_table self.now) (unread_slot self.now) ≢ 0)) }
        ensures none { IfOk result (λ found. IfNone found (
            slot_of (unread_table self.now) (unread_slot self.now) ≡ 0)) }
        ensures error { IfErr result (λ e. FirstBroken (reference_clauses
            (table_object (unread_table self.now))
            (slot_of (unread_table self.now) (unread_slot self.now))) e) }
    {
        let offset = self.table.slot_offset(self.slot);
        if offset == 0 {
            return Ok(None);
        }
        Ok(Some(begin_of(self.table.object(), offset)?))
    }
}

impl<'a> fmt::Debug for Unread<'a> {
    fn fmt<W: fmt::Write>(&self, f: &mut fmt::Formatter<W>) -> fmt::Result {
        match self.begin() {
            Ok(Some(begin)) => write!(f, "{}@{begin:#x}", self.name),
            Ok(None) => f.write_str("None"),
            Err(kind) => write!(f, "Err({kind:?})"),
        }
    }
}
