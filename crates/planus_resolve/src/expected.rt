//! What stands at a place that names a type.

ghost use Rattle.std.specs.Prelude.{◌≡◌};
ghost use Rattle.planus_resolve.specs.Fitting as spec;

use planus_schema::Base;

/// Which types may stand at a place.
#[derive(Clone, Copy)]
pub enum Expected {
    /// Each: it is the type of a table's field.
    AnyType,
    /// Scalars, and enums and structs that are declared before the struct of this index: it is the
    /// type of a struct's field.
    InStruct { index: usize },
    /// Tables: it is a root, or the request or the response of a method.
    Table,
    /// Tables and structs: it is a member of a union without an alias.
    Record,
    /// Tables, structs and strings: it is a member of a union, after its alias.
    Member,
}

impl Expected {
    /// Returns whether a type may stand there.
    pub(crate) fn fits(self, base: Base) -> bool
        ensures { result ≡ spec.fits self base }
    {
        match self {
            Expected::AnyType => true,
            Expected::InStruct { index } => match base {
                Base::Scalar(_) => true,
                Base::Enum(declared) | Base::Struct(declared) => declared < index,
                _ => false,
            },
            Expected::Table => matches!(base, Base::Table(_)),
            Expected::Record => matches!(base, Base::Struct(_) | Base::Table(_)),
            Expected::Member => matches!(base, Base::Text | Base::Struct(_) | Base::Table(_)),
        }
    }
}
