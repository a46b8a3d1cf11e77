//! Errors of reads.

ghost use Rattle.std.specs.Prelude.{◌≡◌};

use crate::located;
use std::fmt;
use std::str::Utf8Error;

/// What is wrong with the bytes, and where.
pub type Error = located::Error<'static>;

/// Where an error was found.
pub type ErrorLocation = located::ErrorLocation<'static>;

/// A value that its enum doesn't have, and where.
pub type UnknownEnumTag = located::UnknownEnumTag<'static>;

/// What can be wrong with the bytes.
#[derive(Clone, Copy, Debug, PartialEq, Eq)]
pub enum ErrorKind {
    /// A number or the target of a reference isn't in the slice, a vtable would begin before it, or
    /// exactly one slot of a union vector holds 0.
    InvalidOffset,
    /// Items, slots or a size-prefixed buffer pass the end of the slice.
    InvalidLength,
    /// The vectors of a union vector have different counts.
    UnionVectorLengthsMismatched {
        tags_len: usize,
        values_len: usize,
    },
    /// A value that its enum doesn't have, perhaps of a later schema.
    UnknownEnumTag {
        source: UnknownEnumTagKind,
    },
    /// A tag that its union doesn't have, perhaps of a later schema.
    UnknownUnionTag {
        tag: u8,
    },
    /// A vtable's size is odd or below 4, or it ends between the slots of a union.
    InvalidVtableLength {
        /// In bytes, its own first 4 included.
        length: u16,
    },
    /// A string isn't UTF-8.
    InvalidUtf8 {
        source: Utf8Error,
    },
    /// A required field is absent.
    MissingRequired,
    /// No zero byte follows a string in the slice.
    MissingNullTerminator,
}

/// A value that its enum doesn't have.
#[derive(Clone, Copy, Debug, PartialEq, Eq)]
pub struct UnknownEnumTagKind {
    pub tag: i128,
}

// The numbers of a `Utf8Error`, whose own Display has no contract.
#[derive(Clone, Copy)]
struct Utf8Fault {
    valid_len: usize,
    error_len: Option<usize>,
}

impl fmt::Display for Utf8Fault {
    ghost use Rattle.planus_read.specs.Texts.{utf8_text};
    ghost use Rattle.std.specs.Prelude.{Some};

    ghost output = { λ fault. Some (utf8_text fault.valid_len fault.error_len) };

    fn fmt<W: fmt::Write>(&self, f: &mut fmt::Formatter<W>) -> fmt::Result {
        let at = self.valid_len;
        match self.error_len {
            Some(len) => write!(f, "invalid utf-8 sequence of {len} bytes from index {at}"),
            None => write!(f, "incomplete utf-8 byte sequence from index {at}"),
        }
    }
}

impl fmt::Display for ErrorKind {
    ghost use Rattle.planus_read.specs.Texts.{kind_text};
    ghost use Rattle.std.specs.Prelude.{Some};

    ghost output = { λ kind. Some (kind_text kind) };

    fn fmt<W: fmt::Write>(&self, f: &mut fmt::Formatter<W>) -> fmt::Result {
        match self {
            ErrorKind::InvalidOffset => write!(f, "Invalid offset"),
            ErrorKind::InvalidLength => write!(f, "Invalid length"),
            ErrorKind::UnionVectorLengthsMismatched {
                tags_len,
                values_len,
            } => write!(
                f,
                "Mismatched lengths between tag and value vectors. \
                 Length of tags = {tags_len}, length of values = {values_len}"
            ),
            ErrorKind::UnknownEnumTag { source } => write!(f, "{source}"),
            ErrorKind::UnknownUnionTag { tag } => write!(f, "Unknown union (tag = {tag})"),
            ErrorKind::InvalidVtableLength { length } => write!(
                f,
                "Invalid vtable length (length = {length})"
            ),
            ErrorKind::InvalidUtf8 { source } => {
                let fault = Utf8Fault {
                    valid_len: source.valid_up_to(),
                    error_len: source.error_len(),
                };
                write!(f, "Invalid utf-8: {fault}")
            }
            ErrorKind::MissingRequired => write!(f, "Missing required field"),
            ErrorKind::MissingNullTerminator => write!(f, "Missing null terminator"),
        }
    }
}

impl fmt::Display for UnknownEnumTagKind {
    ghost use Rattle.planus_read.specs.Texts.{unknown_tag_text};
    ghost use Rattle.std.specs.Prelude.{Some};

    ghost output = { λ kind. Some (unknown_tag_text kind) };

    fn fmt<W: fmt::Write>(&self, f: &mut fmt::Formatter<W>) -> fmt::Result {
        write!(f, "Unknown enum (tag = {})", self.tag)
    }
}

impl std::error::Error for ErrorKind {}

impl std::error::Error for UnknownEnumTagKind {}

impl From<UnknownEnumTagKind> for ErrorKind {
    ghost use Rattle.planus_read.specs.declared.errors.ErrorKind.TheVariants.{
      UnknownEnumTag as unknown,
    };

    ghost from_gives = { λ source kind. kind ≡ unknown source };

    fn from(source: UnknownEnumTagKind) -> Self {
        ErrorKind::UnknownEnumTag { source }
    }
}

impl From<Utf8Error> for ErrorKind {
    ghost use Rattle.planus_read.specs.declared.errors.ErrorKind.TheVariants.{
      InvalidUtf8 as invalid,
    };

    ghost from_gives = { λ source kind. kind ≡ invalid source };

    fn from(source: Utf8Error) -> Self {
        ErrorKind::InvalidUtf8 { source }
    }
}

impl UnknownEnumTagKind {
    /// Returns this error at a location, with the offset in bytes.
    pub fn with_error_location<'n>(
        self,
        type_: &'n str,
        method: &'n str,
        byte_offset: usize,
    ) -> located::UnknownEnumTag<'n>
        ensures location { result.source_location
            ≡ record { type_ = type_.entry; method = method.entry; byte_offset = byte_offset } }
        ensures kind { result.error_kind ≡ self }
    {
        located::UnknownEnumTag {
            source_location: located::ErrorLocation {
                type_,
                method,
                byte_offset,
            },
            error_kind: self,
        }
    }
}

impl ErrorKind {
    /// Returns this error at a location, with the offset in bytes.
    pub fn with_error_location<'n>(
        self,
        type_: &'n str,
        method: &'n str,
        byte_offset: usize,
    ) -> located::Error<'n>
        ensures location { result.source_location
            ≡ record { type_ = type_.entry; method = method.entry; byte_offset = byte_offset } }
        ensures kind { result.error_kind ≡ self }
    {
        located::Error {
            source_location: located::ErrorLocation {
                type_,
                method,
                byte_offset,
            },
            error_kind: self,
        }
    }
}
