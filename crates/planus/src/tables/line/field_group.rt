//! Fields under one name.
ghost use Rattle.std.specs.Prelude.{◌≡◌};

use crate::tables::write::PrepareFields;

/// Some fields of a table, as one type. [`Group`](crate::Group) makes them a line of a list.
///
/// The checker bounds the size of a type, and with it how many lines a list may have. A group's
/// lines don't count among those of the list that it is in.
///
/// The ghost member `lines_of` has the lines of a value.
pub trait FieldGroup {
    /// The lines, as [`fields`](crate::fields) makes them, without unions and lines marked `last`.
    type Lines: PrepareFields;

    ghost lines_of: { Self → Self.Lines };

    /// Returns the lines.
    fn lines(&self) -> &Self::Lines
        ensures { result.now ≡ lines_of self.now };
}

/// Eight lines, nested as [`fields`](crate::fields) nests them.
pub type Lines8<A, B, C, D, E, F, G, H> = (((A, B), (C, D)), ((E, F), (G, H)));
