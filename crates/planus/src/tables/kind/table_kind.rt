//! Kinds of tables.
ghost use Rattle.std.specs.Prelude.{◌≡◌, ℕ, List};

use crate::tables::write::TableWrite;

/// The kind of a table, as [`create_table`](crate::create_table) writes it and
/// [`TableRef`](crate::TableRef) reads it.
pub trait TableKind {
    /// The writer of its vtable: a [`TableWriter`](planus_write::TableWriter) of 4 bytes, and 2 for
    /// each slot.
    type Writer: TableWrite;

    ghost name: { List ℕ };

    /// Returns the name in the errors of its tables.
    fn name() -> &'static str
        ensures { result.now ≡ name };
}
