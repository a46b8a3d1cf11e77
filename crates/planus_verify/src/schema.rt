//! Schemas to verify by.

/// The schema of a format, in flat lists without references, which clauses can name.
#[derive(Clone, Copy, Debug)]
pub struct Schema<'s> {
    /// The fields of all tables.
    pub fields: &'s [FieldShape],
    /// The tables, which kinds name by index.
    pub tables: &'s [TableShape],
    /// The variants of all unions.
    pub variants: &'s [Variant],
}

/// A table, by its fields in the list of all fields.
#[derive(Clone, Copy, Debug)]
pub struct TableShape {
    /// The index of its first field.
    pub first: usize,
    /// How many fields it has.
    pub count: usize,
}

/// A field of a table.
#[derive(Clone, Copy, Debug)]
pub struct FieldShape {
    /// The slot in the vtable, from 0 on.
    pub slot: usize,
    /// Whether it must be present.
    pub required: bool,
    pub kind: FieldKind,
}

/// How a field is read.
#[derive(Clone, Copy, Debug)]
pub enum FieldKind {
    /// By one slot.
    Value(ValueKind),
    /// The union of this number, its tag by the slot and its reference by the next.
    Union(usize),
    /// A vector of the union of this number, its tags by the slot and its references by the next.
    Unions(usize),
}

/// How a field of one slot is read.
#[derive(Clone, Copy, Debug)]
pub enum ValueKind {
    /// A value of this size in bytes, read without an error of its own.
    Plain(usize),
    /// A string.
    Text,
    /// A byte vector.
    Bytes,
    /// A vector of values of this size in bytes.
    Plains(usize),
    /// A vector of strings.
    Texts,
    /// The table at this index.
    Table(usize),
    /// A vector of the table at this index.
    Tables(usize),
    /// A byte vector that is a buffer, whose root is the table at this index.
    Nested(usize),
}

/// A variant of a union: the union's number, a tag above 0, and what its reference leads to.
#[derive(Clone, Copy, Debug)]
pub struct Variant {
    pub union: usize,
    pub tag: u8,
    pub kind: VariantKind,
}

/// What the reference of a union leads to.
#[derive(Clone, Copy, Debug)]
pub enum VariantKind {
    /// The table at this index.
    Table(usize),
    /// A string.
    Text,
    /// A struct of this size in bytes.
    Struct(usize),
}
