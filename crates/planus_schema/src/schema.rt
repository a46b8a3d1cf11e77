//! The meaning of a schema.

use crate::number::Number;
use crate::scalar::Scalar;

/// The type of a value, with the index of its declaration.
#[derive(Clone, Copy, PartialEq, Eq)]
pub enum Base {
    Scalar(Scalar),
    /// `string`.
    Text,
    Enum(usize),
    Struct(usize),
    Table(usize),
    Union(usize),
}

/// The type of a field.
#[derive(Clone, Copy, PartialEq, Eq)]
pub struct FieldType {
    pub vector: bool,
    pub base: Base,
}

/// The default of a field.
#[derive(Drop)]
pub enum Value {
    /// `null`: the field may be absent.
    Absent,
    /// An integer; 1 for `true`, 0 for `false`.
    Integer(Number),
    /// A float, as it is written.
    Float(Vec<u8>),
    /// A string.
    Text(Vec<u8>),
    /// `[]`.
    EmptyVector,
}

/// A field of a table. A union's type has the slot before. `nested`: a `nested_flatbuffer`'s root.
#[derive(Drop)]
pub struct TableField {
    pub name: Vec<u8>,
    pub docs: Vec<Vec<u8>>,
    pub kind: FieldType,
    pub slot: usize,
    pub default: Option<Value>,
    pub required: bool,
    pub deprecated: bool,
    pub key: bool,
    pub nested: Option<usize>,
}

/// A table.
#[derive(Drop)]
pub struct Table {
    pub fields: Vec<TableField>,
}

/// A field of a struct, `distance` bytes after its start. `count`: how many items an array has, one
/// after another; `size` is that of them all, in bytes.
#[derive(Drop)]
pub struct StructField {
    pub name: Vec<u8>,
    pub docs: Vec<Vec<u8>>,
    pub base: Base,
    pub count: Option<usize>,
    pub distance: usize,
    pub size: usize,
    pub alignment: usize,
}

/// A struct; its size is in bytes.
#[derive(Drop)]
pub struct Struct {
    pub fields: Vec<StructField>,
    pub size: usize,
    pub alignment: usize,
}

/// A value of an enum.
#[derive(Drop)]
pub struct EnumValue {
    pub name: Vec<u8>,
    pub docs: Vec<Vec<u8>>,
    pub number: Number,
}

/// An enum. With `flags` each value is a power of two.
#[derive(Drop)]
pub struct Enum {
    pub scalar: Scalar,
    pub flags: bool,
    pub values: Vec<EnumValue>,
}

/// A member of a union; tags begin at 1. `base`: a table, a struct or `string`.
#[derive(Drop)]
pub struct UnionMember {
    pub name: Vec<u8>,
    pub docs: Vec<Vec<u8>>,
    pub base: Base,
    pub tag: u8,
}

/// A union.
#[derive(Drop)]
pub struct Union {
    pub members: Vec<UnionMember>,
}

/// What is declared.
#[derive(Drop)]
pub enum Body {
    Table(Table),
    Struct(Struct),
    Enum(Enum),
    Union(Union),
}

/// A declaration. `name` has its namespace; `file` is an index.
#[derive(Drop)]
pub struct Declared {
    pub name: Vec<u8>,
    pub docs: Vec<Vec<u8>>,
    pub file: usize,
    pub body: Body,
}

/// The last statements.
#[derive(Drop)]
pub struct Statements {
    pub root: Option<usize>,
    pub identifier: Option<Vec<u8>>,
    pub extension: Option<Vec<u8>>,
}

/// A schema. Indices are those of `declarations`.
#[derive(Drop)]
pub struct Schema {
    pub declarations: Vec<Declared>,
    pub statements: Statements,
}
