//! One union of a table, in two slots.

use std::marker::PhantomData;

/// A union of kind `T`, with the slots of its tag and of its value.
#[derive(Drop)]
pub struct UnionAt<const TAG: usize, const VALUE: usize, T, V> {
    /// The union that is written.
    pub value: V,
    pub _marker: PhantomData<T>,
}
