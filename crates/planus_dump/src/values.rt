//! Scalars.

use crate::schemas::Number;

/// What a scalar is read as.
#[derive(Clone, Copy)]
pub enum Leaf {
    Number(Number),
    Bool,
    Text,
    Bytes,
}

/// A scalar that was read.
#[derive(Clone, Copy)]
pub enum Value<'buf> {
    Unsigned(u64),
    Signed(i64),
    Truth(bool),
    Text(&'buf str),
    Bytes(&'buf [u8]),
}
