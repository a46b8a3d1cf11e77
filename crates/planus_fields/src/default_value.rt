//! The default of a field.

/// The default of a field: nothing is written.
#[derive(Clone, Copy)]
pub struct DefaultValue;
