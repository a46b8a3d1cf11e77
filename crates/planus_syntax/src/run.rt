//! Runs of bytes.

#[derive(Clone, Copy)]
pub(crate) enum Run {
    Word,
    Number,
    Line,
}
