use crate::json::Json;

/// A member of an object.
#[cycle(json)]
#[derive(Drop)]
pub struct Member {
    /// The distance in bytes of its key's first byte from the text's first byte.
    pub at: usize,
    pub key: String,
    pub value: Json,
}
