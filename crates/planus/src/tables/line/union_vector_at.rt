//! One union vector of a table, in two slots.

use std::marker::PhantomData;

/// A union vector of kind `T`, with the slots of its tags and of its values.
#[derive(Drop)]
pub struct UnionVectorAt<const TAGS: usize, const VALUES: usize, T, V> {
    /// The vector that is written.
    pub value: V,
    pub _marker: PhantomData<T>,
}
