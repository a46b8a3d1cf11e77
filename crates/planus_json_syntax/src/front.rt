use crate::token::Token;

/// A token, how many bytes are left where it begins, and what follows it.
#[derive(Drop)]
pub(crate) struct Front<'a> {
    pub(crate) token: Token,
    pub(crate) left: usize,
    pub(crate) rest: &'a [u8],
}
