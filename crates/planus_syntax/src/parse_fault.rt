/// What was expected in place of other tokens.
#[derive(Clone, Copy, PartialEq, Eq)]
pub enum ParseFault {
    /// This mark.
    Mark(u8),
    Word,
    Number,
    Text,
    /// A number, a name, a string or `[]`.
    Literal,
    /// A word that begins a declaration, as `table`.
    Declaration,
}
