//! States of a union's fields in their builder.

/// A field that isn't there yet.
pub struct Uninitialized;

/// A present field, with the tag of its variant.
pub struct Initialized<const N: u8, T>(pub T);
