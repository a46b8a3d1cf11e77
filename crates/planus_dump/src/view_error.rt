//! Why a view isn't whole.

use crate::sink_error::SinkError;

/// Why a view isn't whole.
#[derive(Clone, Copy, Debug, PartialEq, Eq)]
pub enum ViewError {
    /// An allocation failed.
    OutOfMemory,
    /// The schema isn't good, as for a [`DumpError`](crate::DumpError).
    BadSchema,
    /// Writing failed.
    Write,
}

impl From<SinkError> for ViewError {
    ghost use Rattle.std.specs.Prelude.{◌≢◌};
    ghost use Rattle.planus_dump.specs.declared.view_error.ViewError.TheVariants.{BadSchema};

    ghost from_gives = { λ _ e. e ≢ BadSchema };

    fn from(error: SinkError) -> ViewError {
        match error {
            SinkError::OutOfMemory => ViewError::OutOfMemory,
            SinkError::Write => ViewError::Write,
        }
    }
}
