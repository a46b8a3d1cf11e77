//! A text in its canonical layout, or the report of its first fault.

/// What a text is formatted to.
#[derive(Drop)]
pub enum Formatted {
    /// Its canonical text.
    Text(Vec<u8>),
    /// The report of its first fault.
    Report(Vec<u8>),
}

/// What was written of a text.
#[derive(Clone, Copy)]
pub enum Printed {
    /// Its canonical text.
    Text,
    /// The report of its first fault.
    Report,
}
