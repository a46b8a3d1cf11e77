use planus_back::TooLarge;
use std::alloc::AllocError;
use std::error::Error;
use std::{fmt, io};

/// Why a write fails. What was written before it stays.
#[derive(Clone, Copy, Debug, PartialEq, Eq)]
pub enum BuildError {
    /// An allocation failed.
    OutOfMemory,
    /// The part would begin more than 2147483647 bytes from the end. No memory was requested.
    TooLarge,
}

impl fmt::Display for BuildError {
    ghost use Rattle.planus_write.specs.Texts.{build_error_text};
    ghost use Rattle.std.specs.Prelude.{Some};

    ghost output = { λ error. Some (build_error_text error) };

    fn fmt<W: fmt::Write>(&self, f: &mut fmt::Formatter<W>) -> fmt::Result {
        let text = match self {
            BuildError::OutOfMemory => "out of memory",
            BuildError::TooLarge => "too large",
        };
        write!(f, "{text}")
    }
}

impl Error for BuildError {}

impl From<AllocError> for BuildError {
    ghost use Rattle.std.specs.Prelude.{◌≡◌};
    ghost use Rattle.planus_write.specs.declared.errors.BuildError.TheVariants.{OutOfMemory};

    ghost from_gives = { λ _ e. e ≡ OutOfMemory };

    fn from(_error: AllocError) -> BuildError {
        BuildError::OutOfMemory
    }
}

impl From<TooLarge> for BuildError {
    ghost use Rattle.std.specs.Prelude.{◌≡◌};
    ghost use Rattle.planus_write.specs.declared.errors.BuildError.TheVariants as of;

    ghost from_gives = { λ _ e. e ≡ of.TooLarge };

    fn from(_error: TooLarge) -> BuildError {
        BuildError::TooLarge
    }
}

/// The kind is [`io::ErrorKind::OutOfMemory`], or [`io::ErrorKind::FileTooLarge`]. No contract speaks
/// of its message.
impl From<BuildError> for io::Error {
    ghost use Rattle.std.specs.Prelude.{◌≡◌};
    ghost use Rattle.std.specs.IoError.{error_kind};
    ghost use Rattle.planus_write.specs.IoErrors.{io_kind};

    ghost from_gives = { λ error e. error_kind e ≡ io_kind error };

    fn from(error: BuildError) -> io::Error {
        match error {
            BuildError::OutOfMemory => io::Error::from(io::ErrorKind::OutOfMemory),
            BuildError::TooLarge => io::Error::new(io::ErrorKind::FileTooLarge, "too large"),
        }
    }
}
