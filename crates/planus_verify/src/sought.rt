//! What is searched for in a buffer.

use crate::fault::FieldPlace;

/// What is searched for in a buffer.
#[derive(Clone, Copy, Debug, PartialEq, Eq)]
pub enum Sought {
    /// This field, of a table that begins where it says.
    Field(FieldPlace),
    /// The first item that can't be read of a vector of tables or strings, whose first item begins
    /// here, in bytes from the buffer's first one.
    Item(usize),
}
