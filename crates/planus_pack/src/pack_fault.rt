/// What is wrong with a value.
#[derive(Clone, Copy, Debug, PartialEq, Eq)]
pub enum PackFault {
    /// The value is of another kind: no object for a table, no list for a vector.
    WrongKind,
    /// The type has no field with this key.
    UnknownKey,
    /// The object has this key twice. The place is that of the second.
    GivenTwice,
    /// A required field of a table, or a field of a struct, isn't given. The place is the object's.
    MissingField,
    /// A union has a type and no value, or a value and no type. The place is the object's.
    LoneUnion,
    /// Tables or structs nest deeper than 64.
    TooDeep,
    /// No integer whose distance from zero is below 2^64.
    NotANumber,
    /// The type doesn't hold the number.
    OutOfRange,
    /// The enum or the union has no value with this name.
    UnknownName,
    /// A list has not as many items as the array.
    WrongLength,
    /// Not covered: vectors of unions, objects for nested buffers, slots above 255, alignments above
    /// 16.
    Unsupported,
}
