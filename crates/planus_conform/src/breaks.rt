//! What breaks.

use planus_schema::Number;

/// Which code has to read which data as the other does.
#[derive(Clone, Copy)]
pub enum Way {
    /// Each schema's code all data.
    Both,
    /// The new schema's code what the old one's reads without an error.
    Backward,
    /// The old schema's code what the new one's reads without an error.
    Forward,
}

/// A change by which code of the new schema reads other than that of the old one, or of which a
/// user's code alone knows.
#[derive(Clone, Copy)]
pub enum Change {
    /// No declaration has the name.
    Removed,
    /// The declaration of the name is of another kind.
    OtherKind,
    /// No field has the slot or, in a struct, the distance.
    FieldRemoved,
    /// Something of this name has another slot, distance, number or tag.
    Moved,
    /// The field has another type, or an array another count of items.
    TypeChanged,
    /// The field is `required` in one schema alone, whose code fails where it is absent.
    RequiredChanged,
    /// Old code needs the field, and new code no longer writes it.
    RequiredDeprecated,
    /// An absent field has another value.
    DefaultChanged,
    /// The buffer in a byte vector has another root.
    NestedChanged,
    /// A struct has another size.
    SizeChanged,
    /// An enum has another integer type.
    NumberTypeChanged,
    /// An enum is one of flags in one schema alone.
    FlagsChanged,
    /// A number of the old enum isn't one of the new one.
    ValueRemoved,
    /// A number of the new enum isn't one of the old one.
    ValueAdded,
    /// A tag of the old union isn't one of the new one.
    MemberRemoved,
    /// A tag has another table.
    MemberChanged,
    /// A tag of the new union isn't one of the old one.
    MemberAdded,
    /// The root of a buffer is another table.
    RootChanged,
    /// The old schema alone has a file identifier.
    IdentifierRemoved,
    /// The file identifier is another.
    IdentifierChanged,
    /// The new schema alone has a file identifier.
    IdentifierAdded,
    /// No break: the part has another name.
    Renamed,
    /// No break: the default is written otherwise, with the same value.
    DefaultRespelled,
}

/// What changed. The first number is the index of the declaration in the old schema.
#[derive(Clone, Copy)]
pub enum Place {
    Declaration(usize),
    /// The field of a table in this slot.
    Field(usize, usize),
    /// The field of a struct at this distance.
    Part(usize, usize),
    /// The value of an enum with this number, where it is added that of the new enum.
    Value(usize, Number),
    /// The member of a union with this tag, where it is added that of the new union.
    Member(usize, u8),
    /// `root_type`.
    Root,
    /// `file_identifier`.
    Identifier,
}

/// A change at its place.
#[derive(Clone, Copy)]
pub struct Break {
    pub change: Change,
    pub place: Place,
}
