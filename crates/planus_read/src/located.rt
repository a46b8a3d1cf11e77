//! The errors, with names of any lifetime.

ghost use Rattle.std.specs.Prelude.{◌≡◌};
ghost use Rattle.planus_read.specs.Located.{Located};

use crate::errors::{ErrorKind, UnknownEnumTagKind};
use std::fmt;

const NO_OFFSET: usize = usize::MAX;

pub(crate) const ITEM_METHOD: &str = "get";

/// What is wrong with the bytes, and where.
#[derive(Clone, Copy, Debug, PartialEq, Eq)]
pub struct Error<'n> {
    pub source_location: ErrorLocation<'n>,
    pub error_kind: ErrorKind,
}

/// Where an error was found.
#[derive(Clone, Copy, Debug, PartialEq, Eq)]
pub struct ErrorLocation<'n> {
    /// The type that was read.
    pub type_: &'n str,
    /// The method that read it.
    pub method: &'n str,
    /// In bytes from the buffer's start: of the table's first byte, or of the slice of the items;
    /// `usize::MAX` where there is none.
    pub byte_offset: usize,
}

/// Returns what was read, its error at a location, with the offset in bytes.
#[inline]
pub fn locate<'n, T>(
    read: Result<T, ErrorKind>,
    type_: &'n str,
    method: &'n str,
    byte_offset: usize,
) -> Result<T, Error<'n>>
    ensures { Located (λ answer. answer ≡ read) type_.now method.now byte_offset result }
{
    match read {
        Ok(value) => Ok(value),
        Err(kind) => Err(kind.with_error_location(type_, method, byte_offset)),
    }
}

/// A value that its enum doesn't have, and where.
#[derive(Clone, Debug, PartialEq, Eq, Drop)]
pub struct UnknownEnumTag<'n> {
    pub source_location: ErrorLocation<'n>,
    pub error_kind: UnknownEnumTagKind,
}

impl<'n> fmt::Display for ErrorLocation<'n> {
    ghost use Rattle.planus_read.specs.Texts.{location_text};
    ghost use Rattle.std.specs.Prelude.{Some};

    ghost output = { λ location. Some (location_text location) };

    fn fmt<W: fmt::Write>(&self, f: &mut fmt::Formatter<W>) -> fmt::Result {
        if self.byte_offset != NO_OFFSET {
            write!(
                f,
                "<{}@{:x}>::{}()",
                self.type_, self.byte_offset, self.method
            )
        } else {
            write!(f, "<{}>::{}()", self.type_, self.method)
        }
    }
}

impl<'n> fmt::Display for Error<'n> {
    ghost use Rattle.planus_read.specs.Texts.{error_text};
    ghost use Rattle.std.specs.Prelude.{Some};

    ghost output = { λ e. Some (error_text e) };

    fn fmt<W: fmt::Write>(&self, f: &mut fmt::Formatter<W>) -> fmt::Result {
        let (location, kind) = (self.source_location, self.error_kind);
        write!(f, "In {location}: {kind}")
    }
}

impl<'n> fmt::Display for UnknownEnumTag<'n> {
    ghost use Rattle.planus_read.specs.Texts.{unknown_enum_tag_text};
    ghost use Rattle.std.specs.Prelude.{Some};

    ghost output = { λ e. Some (unknown_enum_tag_text e) };

    fn fmt<W: fmt::Write>(&self, f: &mut fmt::Formatter<W>) -> fmt::Result {
        write!(f, "In {}: {}", self.source_location, self.error_kind)
    }
}

impl<'n> std::error::Error for Error<'n> {}

impl<'n> std::error::Error for UnknownEnumTag<'n> {}

impl<'n> From<UnknownEnumTag<'n>> for Error<'n> {
    ghost use Rattle.planus_read.specs.declared.errors.ErrorKind.TheVariants.{
      UnknownEnumTag as unknown,
    };
    ghost use Rattle.std.specs.Prelude.{◌≡◌};

    ghost from_gives = { λ tag e.
        e ≡ record { source_location = tag.source_location; error_kind = unknown tag.error_kind } };

    fn from(error: UnknownEnumTag<'n>) -> Self {
        Error {
            source_location: error.source_location,
            error_kind: error.error_kind.into(),
        }
    }
}
