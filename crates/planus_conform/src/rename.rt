//! Declarations that have another name in the new schema.

/// A declaration of the old schema, and its name in the new one, both with their namespaces.
#[derive(Drop)]
pub struct Rename {
    pub from: Vec<u8>,
    pub to: Vec<u8>,
}
