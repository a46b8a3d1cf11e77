//! Tokens and comments.

use crate::token::Lexeme;

/// A token or a comment, which borrows the text.
///
/// Of a comment `starts` says whether it begins its line: no token or comment is before it there.
/// `apart` says whether it then has an empty line after it, before a token or a comment.
#[derive(Clone, Copy)]
pub(crate) enum Element<'a> {
    Token(Lexeme<'a>),
    /// A comment to the end of its line: what follows `//`, without the blanks at its end.
    Line {
        starts: bool,
        apart: bool,
        text: &'a [u8],
    },
    /// A comment to `*/`: what is between.
    Block {
        starts: bool,
        apart: bool,
        text: &'a [u8],
    },
}
