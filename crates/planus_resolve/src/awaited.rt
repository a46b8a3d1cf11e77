//! A name that waits for its declaration.

/// `meaning` is the declaration that it means, and `left` the place of its first use.
#[derive(Clone, Copy)]
pub(crate) struct Awaited {
    pub(crate) meaning: usize,
    pub(crate) file: usize,
    pub(crate) left: usize,
}
