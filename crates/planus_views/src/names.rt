//! The names of a schema.

/// A table's name, with the table's index in the schema.
#[derive(Clone, Copy, Debug)]
pub struct TableName<'s> {
    pub index: usize,
    pub table: &'s str,
}

/// A field's name, with the index of its table in the schema and its slot.
#[derive(Clone, Copy, Debug)]
pub struct FieldName<'s> {
    pub table: usize,
    pub slot: usize,
    pub field: &'s str,
}

/// The names of a schema's tables and fields, in the order of [`crate::Schema`]'s lists.
#[derive(Clone, Copy, Debug)]
pub struct Names<'s> {
    pub tables: &'s [TableName<'s>],
    pub fields: &'s [FieldName<'s>],
}
