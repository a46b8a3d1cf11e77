//! Faults of a schema.

ghost use Rattle.std.specs.Prelude.{◌≡◌, true, ◌<◌, ◌≤◌, length, OnOk};
ghost use Rattle.planus_resolve.specs.Names.{is_set};
ghost use Rattle.planus_resolve.specs.Faults.{Adds, fault_in, broken_in};

use crate::expected::Expected;
use std::alloc::{AllocError, AllocFailed};

/// The kind of a fault.
#[derive(Clone, Copy)]
pub enum FaultKind {
    /// No scalar type and no declaration has this name, where one of these is expected.
    UnknownType(Expected),
    /// A declaration before it has this name.
    NameTaken,
    /// A field before it has this name, or the type of a union has it.
    FieldNameTaken,
    /// A value before it has this name.
    ValueNameTaken,
    /// A member before it has this name, or it is `NONE`.
    MemberNameTaken,
    /// A value before it has this number.
    ValueTaken,
    /// A member before it has this number.
    TagTaken,
    /// The type of an enum is no integer type and no enum before it, or it is `bool`.
    NoIntegerType,
    /// A value is no integer of the enum's type.
    ValueOutOfRange,
    /// The number of a member is not from 1 to 255.
    TagOutOfRange,
    /// A member of a union is no table, no struct, and no string after an alias.
    NoUnionMember,
    /// A field of a struct is no scalar, enum or struct.
    NoStructField,
    /// A struct or an enum in a struct is declared after it, or is the struct itself.
    DeclaredLater,
    /// The number of an array's items is no integer from 1 to 65535.
    ArrayCount,
    /// A field of a table is an array.
    ArrayInTable,
    /// A field of a struct has a default other than zero, or an array has one.
    DefaultInStruct,
    /// A field of a struct is `required` or `deprecated`.
    AttributeInStruct,
    /// A struct has no fields.
    EmptyStruct,
    /// A struct has more than 65535 bytes.
    StructTooLarge,
    /// `force_align` is no power of two from the alignment of the fields to 32.
    WrongAlignment,
    /// A default is no value of the field's type.
    WrongDefault,
    /// A field has no default, and zero is no value of its enum.
    UnknownValue,
    /// A scalar or an enum is `required`.
    RequiredScalar,
    /// Some fields of a table have an `id`, and others none.
    IdMissing,
    /// An `id` is no integer from 0 to 65535, or that of a union is 0.
    WrongId,
    /// The `id`s of a table are not all the numbers from 0 on, each once.
    IdsWithGap,
    /// A table has more than 32765 slots.
    TooManySlots,
    /// A `key` is no scalar, enum or string.
    WrongKey,
    /// A second field is the `key`.
    SecondKey,
    /// A field with `nested_flatbuffer` is no `[ubyte]`.
    WrongNested,
    /// The value of `nested_flatbuffer` names no table.
    NestedIsNoTable,
    /// An attribute is neither built in nor declared.
    UnknownAttribute,
    /// The root is no table.
    RootIsNoTable,
    /// The identifier doesn't have four bytes.
    WrongIdentifier,
    /// A method before it has this name.
    MethodNameTaken,
    /// The request or the response of a method is no table.
    MethodIsNoTable,
    /// The name means one declaration, and flatc takes it for another. Both are indices of the
    /// declarations, in the order of the files and of their texts.
    TwoMeanings { here: usize, elsewhere: usize },
    /// A union has `bit_flags`.
    FlagsInUnion,
}

/// A fault. `file` is the index of its file, and `left` the number of tokens from the word at fault
/// to the end of the text, the word included.
#[derive(Clone, Copy)]
pub struct Fault {
    pub kind: FaultKind,
    pub file: usize,
    pub left: usize,
}

/// Why files have no meaning.
#[derive(Drop)]
pub enum ResolveError {
    /// Memory was refused.
    OutOfMemory,
    /// From one to twenty faults.
    Faults(Vec<Fault>),
}

/// Why a declaration has no meaning.
#[derive(Clone, Copy)]
pub(crate) enum DeclarationError {
    OutOfMemory,
    Wrong { kind: FaultKind, left: usize },
}

impl From<AllocError> for DeclarationError {
    ghost use Rattle.std.specs.Prelude.{◌≡◌};
    ghost use Rattle.planus_resolve.specs.declared.fault.DeclarationError.TheVariants.{OutOfMemory};

    ghost from_gives = { λ _ e. e ≡ OutOfMemory };

    fn from(_error: AllocError) -> DeclarationError {
        DeclarationError::OutOfMemory
    }
}

impl<T: Drop> From<AllocFailed<T>> for DeclarationError {
    ghost use Rattle.std.specs.Prelude.{◌≡◌};
    ghost use Rattle.planus_resolve.specs.declared.fault.DeclarationError.TheVariants.{OutOfMemory};

    ghost from_gives = { λ _ e. e ≡ OutOfMemory };

    fn from(_error: AllocFailed<T>) -> DeclarationError {
        DeclarationError::OutOfMemory
    }
}

/// The value of a call, or a return of its error or of the error given: `?` without a conversion
/// of the error, which is cheaper to prove.
macro_rules! or_return {
    ($call:expr) => {
        match $call {
            Ok(value) => value,
            Err(error) => return Err(error),
        }
    };
    ($call:expr, $error:expr) => {
        match $call {
            Ok(value) => value,
            Err(_) => return Err($error),
        }
    };
}

pub(crate) use or_return;

pub(crate) fn wrong(kind: FaultKind, left: usize) -> DeclarationError
    ensures { result ≡ DeclarationError.Wrong kind left }
{
    DeclarationError::Wrong { kind, left }
}

pub(crate) fn note(
    faults: &mut Vec<Fault>,
    file: usize,
    error: DeclarationError,
) -> Result<(), AllocError>
    requires { length faults.old.items ≤ 20 }
    ensures some { OnOk result (0 < length faults.new.items) }
    ensures most { OnOk result (length faults.new.items ≤ 20) }
    ensures told { OnOk result (is_set (broken_in error) ≡ true) }
    ensures adds { OnOk result (Adds (fault_in file (broken_in error)) faults.old.items
        faults.new.items) }
{
    match error {
        DeclarationError::OutOfMemory => Err(AllocError),
        DeclarationError::Wrong { kind, left } => {
            if faults.len() >= 20 {
                return Ok(());
            }
            let fault = Fault { kind, file, left };
            match faults.push(fault) {
                Ok(()) => Ok(()),
                Err(_) => Err(AllocError),
            }
        }
    }
}
