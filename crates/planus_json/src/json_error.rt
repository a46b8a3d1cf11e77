//! Why there is no JSON.

use std::alloc::AllocError;
use std::error::Error;
use std::fmt;

/// What is wrong in a buffer, and where.
#[derive(Debug, Drop)]
pub struct Fault {
    /// The path, from `root` on.
    pub path: String,
    /// What is wrong there.
    pub message: String,
}

/// Why there is no JSON.
#[derive(Debug, Drop)]
pub enum JsonError {
    /// An allocation failed.
    OutOfMemory,
    /// The schema isn't one of those that [`planus_dump::dump`] takes.
    BadSchema,
    /// A table at depth 65, or a struct in 64 others, comes next. The root has depth 1.
    TooDeep,
    /// The text gets longer than is wanted.
    TooLong,
    /// A reader fails, or a field is wrong.
    Fault(Fault),
}

impl fmt::Display for JsonError {
    ghost use Rattle.planus_json.specs.Texts.{json_error_text};
    ghost use Rattle.std.specs.Prelude.{Some};

    ghost output = { λ error. Some (json_error_text error) };

    fn fmt<W: fmt::Write>(&self, f: &mut fmt::Formatter<W>) -> fmt::Result {
        match self {
            JsonError::OutOfMemory => f.write_str("out of memory"),
            JsonError::BadSchema => f.write_str("bad schema"),
            JsonError::TooDeep => f.write_str("too deep"),
            JsonError::TooLong => f.write_str("too long"),
            JsonError::Fault(fault) => write!(f, "{} ! {}", fault.path, fault.message),
        }
    }
}

impl Error for JsonError {}

impl From<AllocError> for JsonError {
    ghost use Rattle.std.specs.Prelude.{◌≡◌};
    ghost use Rattle.planus_json.specs.declared.json_error.JsonError.TheVariants.{OutOfMemory};

    ghost from_gives = { λ _ e. e ≡ OutOfMemory };

    fn from(_error: AllocError) -> JsonError {
        JsonError::OutOfMemory
    }
}
