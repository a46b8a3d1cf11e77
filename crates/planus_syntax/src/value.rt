//! Declarations. Names, digits and strings are bytes of the text; a string has its quotes
//! ([`between_quotes`](crate::between_quotes), [`string_text`](crate::string_text)).
//!
//! `left` counts the tokens from a word to the text's end, the word included;
//! [`place_from_end`](crate::place_from_end) returns where the word begins.

/// A name of one or more words, with dots between them.
#[derive(Drop)]
pub struct Path {
    pub left: usize,
    pub first: Vec<u8>,
    pub more: Vec<Vec<u8>>,
}

/// The type of a field.
#[derive(Drop)]
pub enum Kind {
    /// A type by its name.
    Single(Path),
    /// A vector of that type, as `[int]`.
    Vector(Path),
    /// An array of a fixed number of items, as `[int:3]`; the number as it is written.
    Array(Path, Vec<u8>),
}

/// A default, or the value of an attribute.
#[derive(Drop)]
pub enum Literal {
    /// A number, as it is written.
    Number(Vec<u8>),
    /// A name, as `Red`, `Color.Red`, `true`, `null` and `nan`.
    Name(Path),
    /// A string, as it is written.
    Text(Vec<u8>),
    /// `[]`.
    EmptyVector,
}

/// The name of an attribute: a word, or a string ([`label_name`](crate::label_name)).
#[derive(Drop)]
pub struct Label {
    pub left: usize,
    pub quoted: bool,
    pub name: Vec<u8>,
}

/// An attribute in parentheses, as `id: 3` and `required`.
#[derive(Drop)]
pub struct Attribute {
    pub label: Label,
    pub value: Option<Literal>,
}

/// A field of a table or of a struct.
#[derive(Drop)]
pub struct Field {
    pub docs: Vec<Vec<u8>>,
    pub left: usize,
    pub name: Vec<u8>,
    pub kind: Kind,
    pub default: Option<Literal>,
    pub attributes: Vec<Attribute>,
}

/// A table or a struct. `trailing`: documentation before the closing brace, as in what follows.
#[derive(Drop)]
pub struct Record {
    pub name: Vec<u8>,
    pub attributes: Vec<Attribute>,
    pub fields: Vec<Field>,
    pub trailing: Vec<Vec<u8>>,
}

/// A variant of an enum, with the digits of its value if it has one.
#[derive(Drop)]
pub struct Variant {
    pub docs: Vec<Vec<u8>>,
    pub left: usize,
    pub name: Vec<u8>,
    pub value: Option<Vec<u8>>,
}

/// An enum. `comma`: a comma follows the last variant.
#[derive(Drop)]
pub struct Enumeration {
    pub name: Vec<u8>,
    pub base: Path,
    pub attributes: Vec<Attribute>,
    pub variants: Vec<Variant>,
    pub comma: bool,
    pub trailing: Vec<Vec<u8>>,
}

/// A member of a union: a table's name, or an alias and the table, as `M: Monster`, with the digits
/// of its value if it has one.
#[derive(Drop)]
pub struct Member {
    pub docs: Vec<Vec<u8>>,
    pub path: Path,
    pub target: Option<Path>,
    pub value: Option<Vec<u8>>,
}

/// A union. `comma`: a comma follows the last member.
#[derive(Drop)]
pub struct UnionBody {
    pub name: Vec<u8>,
    pub attributes: Vec<Attribute>,
    pub members: Vec<Member>,
    pub comma: bool,
    pub trailing: Vec<Vec<u8>>,
}

/// A method of a service.
#[derive(Drop)]
pub struct Method {
    pub docs: Vec<Vec<u8>>,
    pub left: usize,
    pub name: Vec<u8>,
    pub request: Path,
    pub response: Path,
    pub attributes: Vec<Attribute>,
}

/// A service, `rpc_service`.
#[derive(Drop)]
pub struct Service {
    pub name: Vec<u8>,
    pub attributes: Vec<Attribute>,
    pub methods: Vec<Method>,
    pub trailing: Vec<Vec<u8>>,
}

/// A declaration.
#[derive(Drop)]
pub enum Item {
    /// `include "FILE";`.
    Include(Vec<u8>),
    /// `native_include "FILE";`, of which only generated code of other languages makes something.
    NativeInclude(Vec<u8>),
    /// `namespace NAME;`, or `namespace;`.
    Namespace(Option<Path>),
    /// `attribute NAME;`.
    Attribute(Label),
    /// `table NAME { .. }`.
    Table(Record),
    /// `struct NAME { .. }`.
    Struct(Record),
    /// `enum NAME: TYPE { .. }`.
    Enum(Enumeration),
    /// `union NAME { .. }`.
    Union(UnionBody),
    /// `rpc_service NAME { .. }`.
    Service(Service),
    /// `root_type NAME;`.
    RootType(Path),
    /// `file_identifier "NAME";`.
    FileIdentifier(Vec<u8>),
    /// `file_extension "NAME";`.
    FileExtension(Vec<u8>),
}

/// A declaration with its documentation: what follows `///` on each line. `left` is that of its
/// first word, as `table`.
#[derive(Drop)]
pub struct Declaration {
    pub docs: Vec<Vec<u8>>,
    pub left: usize,
    pub item: Item,
}

/// The declarations of a text. `trailing`: documentation after the last.
#[derive(Drop)]
pub struct Schema {
    pub declarations: Vec<Declaration>,
    pub trailing: Vec<Vec<u8>>,
}
