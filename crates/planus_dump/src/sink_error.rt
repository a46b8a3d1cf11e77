//! Why a line isn't taken.

use std::alloc::AllocError;

/// Why a line isn't taken.
#[derive(Clone, Copy, Debug, PartialEq, Eq)]
pub enum SinkError {
    /// An allocation failed.
    OutOfMemory,
    /// Writing failed.
    Write,
}

impl From<AllocError> for SinkError {
    ghost use Rattle.std.specs.Prelude.{◌≡◌};
    ghost use Rattle.planus_dump.specs.declared.sink_error.SinkError.TheVariants.{OutOfMemory};

    ghost from_gives = { λ _ e. e ≡ OutOfMemory };

    fn from(_error: AllocError) -> SinkError {
        SinkError::OutOfMemory
    }
}
