//! A field that is written after the others.

use std::marker::PhantomData;

/// A field that is prepared in its order but written after the others, so that fields in the order
/// of their slots can come by falling alignment.
#[derive(Drop)]
pub struct TrailingField<const SLOT: usize, P, V> {
    /// The value that is written.
    pub value: V,
    pub _marker: PhantomData<P>,
}
