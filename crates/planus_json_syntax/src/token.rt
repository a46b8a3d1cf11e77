#[derive(Drop)]
pub(crate) enum Token {
    Mark(u8),
    /// A word as it is written.
    Word(String),
    /// What a string says.
    Text(String),
}
