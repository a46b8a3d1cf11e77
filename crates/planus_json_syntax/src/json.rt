use crate::value::Value;

/// A value of a text.
#[cycle(json)]
#[derive(Drop)]
pub struct Json {
    /// The distance in bytes of its first byte from the text's first byte.
    pub at: usize,
    pub value: Value,
}
