use crate::fault_kind::FaultKind;
use std::error::Error;
use std::fmt;

/// Why a text has no values.
#[derive(Clone, Copy, Debug, PartialEq, Eq)]
pub enum JsonError {
    /// An allocation failed.
    OutOfMemory,
    /// The first fault of the text, and its distance in bytes from the text's first byte.
    Fault { at: usize, kind: FaultKind },
}

impl fmt::Display for JsonError {
    ghost use Rattle.planus_json_syntax.specs.Texts.{json_error_text};
    ghost use Rattle.std.specs.Prelude.{Some};

    ghost output = { λ error. Some (json_error_text error) };

    fn fmt<W: fmt::Write>(&self, f: &mut fmt::Formatter<W>) -> fmt::Result {
        match self {
            JsonError::OutOfMemory => f.write_str("out of memory"),
            JsonError::Fault { at, kind } => write!(f, "{kind} at byte {at}"),
        }
    }
}

impl Error for JsonError {}
