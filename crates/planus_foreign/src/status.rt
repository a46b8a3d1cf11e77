//! Statuses, and the table at a position.

ghost use Rattle.std.specs.Prelude.{◌≡◌};
ghost use Rattle.planus_foreign.specs.Calls.{IsTableAt, Gives, GivesIf};
ghost use Rattle.planus_foreign.specs.Statuses as spec;

use planus::SliceWithStartOffset;
use planus::errors::ErrorKind;
use planus::table_reader::Table;

/// There is a value, and it was stored.
pub const OK: u32 = 0;

/// The field is absent.
pub const ABSENT: u32 = 1;

/// A buffer isn't verified, since tables lead to tables beyond the limit.
pub const TOO_DEEP: u32 = 11;

/// A buffer isn't verified, since more tables are reached than the limit.
pub const TOO_MANY: u32 = 12;

/// Returns the status of an error, from 2 to 10.
pub(crate) fn status_of(kind: ErrorKind) -> u32
    ensures { result ≡ spec.status_of kind }
{
    match kind {
        ErrorKind::InvalidOffset => 2,
        ErrorKind::InvalidLength => 3,
        ErrorKind::UnionVectorLengthsMismatched { .. } => 4,
        ErrorKind::UnknownEnumTag { .. } => 5,
        ErrorKind::UnknownUnionTag { .. } => 6,
        ErrorKind::InvalidVtableLength { .. } => 7,
        ErrorKind::InvalidUtf8 { .. } => 8,
        ErrorKind::MissingRequired => 9,
        ErrorKind::MissingNullTerminator => 10,
    }
}

/// Returns the table to which the reference at this position of a buffer leads.
#[inline]
pub(crate) fn table_at(buffer: &[u8], position: usize) -> Result<Table<'_>, ErrorKind>
    ensures { IsTableAt buffer.now position result }
{
    Table::from_buffer(SliceWithStartOffset::new(buffer, 0), position)
}
