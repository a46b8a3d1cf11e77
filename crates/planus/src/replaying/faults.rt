//! Errors of a replay.

use planus_write::BuildError;
use std::alloc::{AllocError, AllocFailed};
use std::error::Error;
use std::fmt;

/// What is wrong with a step.
#[derive(Clone, Copy, Debug, PartialEq, Eq)]
pub enum Why {
    /// Numbers can't have this width.
    WidthUnknown,
    /// Structs and values of vectors can't have this alignment.
    AlignmentUnknown,
    /// The size of a struct, or of a vector's values, isn't a positive multiple of its alignment,
    /// or the number of a vector's bytes isn't one of that size.
    WrongSize,
    /// A number doesn't fit its bytes.
    ValueTooBig,
    /// No earlier step since the last clear has the number.
    NoSuchStep,
    /// The named step wrote no value, or for tags and values no union vector.
    WrongKind,
    /// The tag of a union is 0.
    ZeroTag,
    /// A slot is above 255.
    SlotTooBig,
    /// An earlier field has the slot.
    SlotTwice,
    /// The alignment is greater than that of the field before.
    RisingAlignment,
    /// The fields of a table have more than 65531 bytes.
    TableTooBig,
}

impl fmt::Display for Why {
    ghost use Rattle.planus.specs.Texts.{why_text};
    ghost use Rattle.std.specs.Prelude.{Some};

    ghost output = { λ why. Some (why_text why) };

    fn fmt<W: fmt::Write>(&self, f: &mut fmt::Formatter<W>) -> fmt::Result {
        let text = match self {
            Why::WidthUnknown => "width unknown",
            Why::AlignmentUnknown => "alignment unknown",
            Why::WrongSize => "wrong size",
            Why::ValueTooBig => "value too big",
            Why::NoSuchStep => "no such step",
            Why::WrongKind => "wrong kind",
            Why::ZeroTag => "zero tag",
            Why::SlotTooBig => "slot too big",
            Why::SlotTwice => "slot twice",
            Why::RisingAlignment => "rising alignment",
            Why::TableTooBig => "table too big",
        };
        write!(f, "{text}")
    }
}

impl Error for Why {}

/// Why a replay stopped.
#[derive(Clone, Copy, Debug, PartialEq, Eq)]
pub enum ReplayError {
    /// An allocation failed.
    OutOfMemory,
    /// The bytes would be more than 2147483647.
    TooLarge,
    /// The first bad step, by its number from 0.
    BadStep { step: usize, why: Why },
}

impl fmt::Display for ReplayError {
    ghost use Rattle.planus.specs.Texts.{replay_error_text};
    ghost use Rattle.std.specs.Prelude.{Some};

    ghost output = { λ error. Some (replay_error_text error) };

    fn fmt<W: fmt::Write>(&self, f: &mut fmt::Formatter<W>) -> fmt::Result {
        match self {
            ReplayError::OutOfMemory => write!(f, "out of memory"),
            ReplayError::TooLarge => write!(f, "too large"),
            ReplayError::BadStep { step, why } => write!(f, "step {step}: {why}"),
        }
    }
}

impl Error for ReplayError {}

impl From<BuildError> for ReplayError {
    ghost use Rattle.std.specs.Prelude.{◌≡◌};
    ghost use Rattle.planus.specs.Replays.{replay_error};

    ghost from_gives = { λ error e. e ≡ replay_error error };

    fn from(error: BuildError) -> ReplayError {
        match error {
            BuildError::OutOfMemory => ReplayError::OutOfMemory,
            BuildError::TooLarge => ReplayError::TooLarge,
        }
    }
}

impl From<AllocError> for ReplayError {
    ghost use Rattle.std.specs.Prelude.{◌≡◌};
    ghost use Rattle.planus.specs.declared.replaying.faults.ReplayError.TheVariants.{OutOfMemory};

    ghost from_gives = { λ _ e. e ≡ OutOfMemory };

    fn from(_error: AllocError) -> ReplayError {
        ReplayError::OutOfMemory
    }
}

impl<T: Drop> From<AllocFailed<T>> for ReplayError {
    ghost use Rattle.std.specs.Prelude.{◌≡◌};
    ghost use Rattle.planus.specs.declared.replaying.faults.ReplayError.TheVariants.{OutOfMemory};

    ghost from_gives = { λ _ e. e ≡ OutOfMemory };

    fn from(_error: AllocFailed<T>) -> ReplayError {
        ReplayError::OutOfMemory
    }
}
