//! Values of a fixed layout as fields.
use planus_read::Plain;

/// A value of a fixed layout that is a field of tables. One that can be compared may have a
/// default, and is left out where it is `==` to it.
pub trait PlainField: Plain {}
