//! Schemas for dumps.

/// The types of a format, and which table is a buffer's root. A name is one or more ASCII letters,
/// digits and `_`; that of a variant may be left out.
#[derive(Debug, Drop)]
pub struct Schema {
    /// The tables, which items name by index.
    pub tables: Vec<TableSchema>,
    /// The variants of the unions, which kinds name by index.
    pub unions: Vec<Vec<VariantSchema>>,
    /// The enums, which fixed values name by index.
    pub enums: Vec<EnumSchema>,
    /// The structs, which fixed values name by index.
    pub structs: Vec<StructSchema>,
    /// The index of the root's table.
    pub root: usize,
    /// Whether a union's tag without a value is wrong. Readers take such a union for absent.
    pub tags_need_values: bool,
}

/// A table.
#[derive(Debug, Drop)]
pub struct TableSchema {
    /// The name.
    pub name: String,
    /// The fields, in the order in which they are dumped.
    pub fields: Vec<FieldSchema>,
}

/// A field of a table.
#[derive(Debug, Drop)]
pub struct FieldSchema {
    /// The slot in the vtable, from 0 on. A union or a union vector has this slot and the next.
    pub slot: usize,
    /// The name.
    pub name: String,
    /// How the field is read.
    pub kind: Kind,
    /// Whether ` (deprecated)` is printed after the name.
    pub deprecated: bool,
    /// Whether a table without the field is wrong.
    pub required: bool,
}

/// A variant of a union.
#[derive(Debug, Drop)]
pub struct VariantSchema {
    /// The tag, above 0 and used once.
    pub tag: u8,
    /// The name, printed after the tag; where it is empty, none is.
    pub name: String,
    /// What the reference of a union with this tag leads to.
    pub kind: VariantKind,
}

/// The type of a variant.
#[derive(Clone, Copy, Debug)]
pub enum VariantKind {
    /// The table at this index.
    Table(usize),
    /// The struct at this index, by itself.
    Struct(usize),
    /// A string.
    Text,
}

/// An enum.
#[derive(Debug, Drop)]
pub struct EnumSchema {
    /// The type of its numbers.
    pub number: Number,
    /// Whether the values are flags, each a power of two, of which a number has several.
    pub flags: bool,
    /// Each value's bits as an unsigned number, and its name.
    pub values: Vec<(u64, String)>,
}

/// A struct.
#[derive(Debug, Drop)]
pub struct StructSchema {
    /// The name.
    pub name: String,
    /// The size in bytes.
    pub size: usize,
    /// The fields, in the order in which they are dumped.
    pub fields: Vec<StructFieldSchema>,
}

/// A field of a struct.
#[derive(Debug, Drop)]
pub struct StructFieldSchema {
    /// The distance from the first byte of the struct, in bytes.
    pub distance: usize,
    /// The name.
    pub name: String,
    /// How the field is read.
    pub fixed: Fixed,
    /// How many items of that type stand one after another; `None`: a single value.
    pub count: Option<usize>,
}

/// How a field is read.
#[derive(Clone, Copy, Debug)]
pub enum Kind {
    /// One item.
    One(Item),
    /// A byte vector.
    Bytes,
    /// A vector of items.
    List(Item),
    /// The union at this index.
    Union(usize),
    /// A vector of the union at this index.
    UnionVector(usize),
    /// A value of a fixed size.
    Fixed(Fixed),
    /// A vector of such values.
    FixedList(Fixed),
    /// A byte vector that is a buffer, whose root is the table at this index.
    Nested(usize),
}

/// What can be an item of a vector.
#[derive(Clone, Copy, Debug)]
pub enum Item {
    /// An integer.
    Number(Number),
    /// A bool.
    Bool,
    /// A string.
    Text,
    /// The table at this index.
    Table(usize),
}

/// A value of a fixed size, stored in a table, a struct or a vector itself.
#[derive(Clone, Copy, Debug)]
pub enum Fixed {
    /// An integer.
    Number(Number),
    /// A bool.
    Bool,
    /// A float of 4 bytes.
    F32,
    /// A float of 8 bytes.
    F64,
    /// The enum at this index.
    Enum(usize),
    /// The struct at this index.
    Struct(usize),
}

/// An integer type.
#[derive(Clone, Copy, Debug)]
pub enum Number {
    /// An unsigned number of one byte.
    U8,
    /// An unsigned number of 2 bytes.
    U16,
    /// An unsigned number of 4 bytes.
    U32,
    /// An unsigned number of 8 bytes.
    U64,
    /// A signed number of one byte.
    I8,
    /// A signed number of 2 bytes.
    I16,
    /// A signed number of 4 bytes.
    I32,
    /// A signed number of 8 bytes.
    I64,
}
