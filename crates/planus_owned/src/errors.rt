//! Why no record can be made of a table.

use planus_read::located::Error;
use std::fmt;

/// Why no record can be made of a table.
#[derive(Clone, Copy, Debug, PartialEq)]
pub enum OwnError<'n> {
    /// An allocation failed.
    OutOfMemory,
    /// A field or an item can't be read.
    Read(Error<'n>),
    /// Tables are nested more deeply than was allowed.
    TooDeep,
}

/// What is made of a table, or why nothing is.
pub type Result<T> = std::result::Result<T, OwnError<'static>>;

impl<'n> fmt::Display for OwnError<'n> {
    ghost use Rattle.planus_owned.specs.Texts.{own_error_text};
    ghost use Rattle.std.specs.Prelude.{Some};

    ghost output = { λ error. Some (own_error_text error) };

    fn fmt<W: fmt::Write>(&self, f: &mut fmt::Formatter<W>) -> fmt::Result {
        match self {
            OwnError::OutOfMemory => write!(f, "out of memory"),
            OwnError::Read(error) => write!(f, "{error}"),
            OwnError::TooDeep => write!(f, "tables are nested too deeply"),
        }
    }
}

impl<'n> std::error::Error for OwnError<'n> {}
