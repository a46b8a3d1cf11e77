//! Faults of verification.

use planus_read::errors::ErrorKind;

/// A field of a table in the buffer, or an item of the field's vector.
#[derive(Clone, Copy, Debug, PartialEq, Eq)]
pub struct FieldPlace {
    /// The table's index in the schema.
    pub table: usize,
    /// Where the table begins, in bytes from the buffer's first one.
    pub start: usize,
    /// The field's slot in the vtable.
    pub slot: usize,
    /// The item's index, of an item.
    pub item: Option<usize>,
}

/// Why a buffer isn't verified.
#[derive(Clone, Copy, Debug, PartialEq, Eq)]
pub enum Fault {
    /// The root can't be read, with this error.
    Root(ErrorKind),
    /// A field can't be read, with this error.
    Field(FieldPlace, ErrorKind),
    /// Tables lead to tables beyond the limit.
    TooDeep,
    /// More tables are reached than the limit.
    TooMany,
}
