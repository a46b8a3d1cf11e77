//! A row of a declaration.

use planus_schema::FieldType;

/// A field, a value of an enum or a member of a union.
#[derive(Clone, Copy)]
pub(crate) struct Row<'a> {
    pub name: &'a [u8],
    /// Its type; a value of an enum has none.
    pub kind: Option<FieldType>,
    /// How many items an array of that type has.
    pub count: Option<usize>,
    /// The declaration that it refers to, by its index.
    pub target: Option<usize>,
}
