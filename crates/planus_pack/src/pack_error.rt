use crate::pack_fault::PackFault;
use planus::ReplayError;
use planus_json_syntax::FaultKind;
use std::alloc::{AllocError, AllocFailed};

/// Why a text or a value has no buffer. Places are distances in bytes from the text's first byte.
#[derive(Clone, Copy, Debug, PartialEq, Eq)]
pub enum PackError {
    /// An allocation failed.
    OutOfMemory,
    /// The text is no JSON.
    Text { at: usize, kind: FaultKind },
    /// The text has no value, or a second one, which begins here.
    NotOne { at: usize },
    /// The first fault of the value.
    Fault { at: usize, kind: PackFault },
    /// The steps can't be written.
    Replay(ReplayError),
}

impl From<AllocError> for PackError {
    ghost use Rattle.std.specs.Prelude.{◌≡◌};
    ghost use Rattle.planus_pack.specs.declared.pack_error.PackError.TheVariants as errors;

    ghost from_gives = { λ _ e. e ≡ errors.OutOfMemory };

    fn from(_error: AllocError) -> PackError {
        PackError::OutOfMemory
    }
}

impl<T: Drop> From<AllocFailed<T>> for PackError {
    ghost use Rattle.std.specs.Prelude.{◌≡◌};
    ghost use Rattle.planus_pack.specs.declared.pack_error.PackError.TheVariants as errors;

    ghost from_gives = { λ _ e. e ≡ errors.OutOfMemory };

    fn from(_error: AllocFailed<T>) -> PackError {
        PackError::OutOfMemory
    }
}
