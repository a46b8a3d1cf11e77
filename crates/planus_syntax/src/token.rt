//! Tokens.

/// A token that borrows the text.
#[derive(Clone, Copy)]
pub(crate) enum Lexeme<'a> {
    /// Letters, digits and `_`, with no digit first.
    Word(&'a [u8]),
    /// A number with its sign.
    Number(&'a [u8]),
    /// A string, as it is written, with its quotes.
    Text(&'a [u8]),
    /// What follows `///` on its line.
    Doc(&'a [u8]),
    /// One of `{}()[]:;,=.`.
    Mark(u8),
}

/// A token that owns its bytes; the variants are those of `Lexeme`.
#[derive(Drop)]
pub(crate) enum Token {
    Word(Vec<u8>),
    Number(Vec<u8>),
    Text(Vec<u8>),
    Doc(Vec<u8>),
    Mark(u8),
}
