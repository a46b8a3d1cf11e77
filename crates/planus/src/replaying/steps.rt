//! The steps of a script.

/// One step: a value that is written, a finish, or a clear.
#[derive(Clone, Debug, PartialEq, Eq, Drop)]
pub enum Step {
    /// A string.
    Text(String),
    /// A byte vector.
    Bytes(Vec<u8>),
    /// A vector of numbers of 2, 4 or 8 bytes each.
    Numbers {
        width: u8,
        items: Vec<u64>,
    },
    /// A vector of references to the values of earlier steps, by number from 0.
    Refs(Vec<usize>),
    /// A union vector: for each union a tag above 0, and the number from 0 of the earlier step that
    /// is its value. Only [`FieldValue::Tags`] and [`FieldValue::Values`] name it.
    Unions(Vec<(u8, usize)>),
    /// A struct by itself, to which a union refers: its bytes, whose number is a positive multiple
    /// of its alignment of 1, 2, 4, 8 or 16 bytes.
    Struct {
        alignment: u8,
        bytes: Vec<u8>,
    },
    /// A vector of values of `size` bytes each, as of structs: their bytes, one value after
    /// another. `size` is a positive multiple of the values' alignment of 1, 2, 4, 8 or 16 bytes,
    /// and the number of bytes is a multiple of `size`. No cache has it: equal ones are written
    /// again.
    Plains {
        alignment: u8,
        size: usize,
        bytes: Vec<u8>,
    },
    /// A table of fields, in the order in which they are written. Alignments must not rise, and the
    /// fields have at most 65531 bytes together.
    Table(Vec<Field>),
    /// A finish whose root is the value of an earlier step, by number from 0; `id` is the file
    /// identifier.
    Finish {
        root: usize,
        id: Option<[u8; 4]>,
    },
    /// The same, size-prefixed: after the number of its bytes, in 4 bytes.
    FinishSized {
        root: usize,
        id: Option<[u8; 4]>,
    },
    /// Discards all that was written; later steps can't name it.
    Clear,
}

/// One field of a table.
#[derive(Clone, Debug, PartialEq, Eq, Drop)]
pub struct Field {
    /// The slot in the vtable, from 0 to 255. Each is used once.
    pub slot: u16,
    /// What the field holds.
    pub value: FieldValue,
}

/// What a field of a table holds.
#[derive(Clone, Debug, PartialEq, Eq, Drop)]
pub enum FieldValue {
    /// A number of 1, 2, 4 or 8 bytes, whose alignment is its width.
    Number { width: u8, value: u64 },
    /// A struct, or any value of a fixed size: its bytes, whose number is a positive multiple of
    /// its alignment of 1, 2, 4, 8 or 16 bytes.
    Plain { alignment: u8, bytes: Vec<u8> },
    /// A reference to the value of an earlier step, by number from 0.
    Ref(usize),
    /// A reference to the tags of an earlier step's union vector, by number from 0.
    Tags(usize),
    /// A reference to the references of an earlier step's union vector, by number from 0.
    Values(usize),
}
