//! Enums.

ghost use Rattle.std.specs.Prelude.{◌≡◌};
ghost use Rattle.planus_read.specs.Enums.{known_or as known_else};

use crate::errors::ErrorKind;
use crate::located::Error;

/// Returns what was read, or another value for a number that no variant has, perhaps of a later
/// schema.
pub fn known_or<'n, T: Copy>(read: Result<T, Error<'n>>, other: T) -> Result<T, Error<'n>>
    ensures { result ≡ known_else other read.entry }
{
    match read {
        Err(error) if matches!(error.error_kind, ErrorKind::UnknownEnumTag { .. }) => Ok(other),
        _ => read,
    }
}
