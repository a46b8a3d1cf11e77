//! Printed views.

ghost use Rattle.std.specs.Prelude.{◌≡◌};
ghost use Rattle.planus_read.specs.declared.table_reader.Table.{Table};
ghost use Rattle.planus_verify.specs.Verified.{IsVerified};

use crate::of_kind::OfKind;
use planus::table_reader::Table;

/// A printed view, which wraps a [`crate::View`].
pub trait ViewOf<'a>: Sized + OfKind {
    ghost table: { Self → Table };

    /// Returns the view of a verified table.
    fn of_verified(read: Table<'a>) -> Self
        requires { IsVerified Self.Kind.schema Self.Kind.index read }
        ensures { table result ≡ read.entry };
}
