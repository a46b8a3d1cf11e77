//! Views of tables.
ghost use Rattle.std.specs.Prelude.{◌≡◌};
ghost use Rattle.planus_read.specs.declared.table_reader.Table.{Table};

use crate::tables::kind::table_kind::TableKind;
use planus_read::table_reader::Table;

/// A view of the tables of a kind: a [`TableRef`](crate::TableRef), or a user's struct that holds a
/// [`Table`].
pub trait TableView<'a>: Sized {
    type Kind: TableKind;

    ghost table: { Self → Table };

    /// Returns the view of a table.
    fn of_table(read: Table<'a>) -> Self
        ensures { table result ≡ read.entry };
}
