//! Offsets of union vectors.

use crate::offset::{List, Offset};
use std::alloc::AllocError;
use std::marker::PhantomData;

/// A written union vector of kind `T`: the offsets of its vectors of tags and of references. As a
/// field it takes two slots, the tags' first.
pub struct UnionVectorOffset<T> {
    tags: Offset<List<u8>>,
    values: Offset<List<Offset<()>>>,
    _marker: PhantomData<T>,
}

impl<T> Clone for UnionVectorOffset<T> {
    ghost use Rattle.std.specs.Prelude.{◌≡◌, ⊤};

    ghost is_clone = { λ vector copy. copy ≡ vector };

    ghost is_infallible = { λ _. ⊤ };

    #[inline]
    fn clone(&self) -> Result<Self, AllocError> {
        Ok(*self)
    }
}

impl<T> Copy for UnionVectorOffset<T> {}

impl<T> UnionVectorOffset<T> {
    ghost use Rattle.std.specs.Prelude.{◌≡◌};

    /// Returns the union vector of a vector of tags and one of as many references.
    #[inline]
    pub fn new(
        tags_offset: Offset<List<u8>>,
        values_offset: Offset<List<Offset<()>>>,
    ) -> UnionVectorOffset<T>
        ensures tags { result.tags ≡ tags_offset }
        ensures values { result.values ≡ values_offset }
    {
        UnionVectorOffset {
            tags: tags_offset,
            values: values_offset,
            _marker: PhantomData,
        }
    }

    /// Returns the offset of the vector of tags.
    #[inline]
    pub fn tags_offset(&self) -> Offset<List<u8>>
        ensures { result ≡ self.now.tags }
    {
        self.tags
    }

    /// Returns the offset of the vector of references.
    #[inline]
    pub fn values_offset(&self) -> Offset<List<Offset<()>>>
        ensures { result ≡ self.now.values }
    {
        self.values
    }
}
