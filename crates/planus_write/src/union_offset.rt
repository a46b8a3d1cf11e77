//! Offsets of unions.

use crate::offset::Offset;
use std::alloc::AllocError;
use std::marker::PhantomData;

/// A written union of kind `T`: the tag of its variant, and the offset of its value. As a field it
/// takes two slots, the tag's first.
pub struct UnionOffset<T> {
    tag: u8,
    offset: Offset<()>,
    _marker: PhantomData<T>,
}

impl<T> Clone for UnionOffset<T> {
    ghost use Rattle.std.specs.Prelude.{◌≡◌, ⊤};

    ghost is_clone = { λ union copy. copy ≡ union };

    ghost is_infallible = { λ _. ⊤ };

    #[inline]
    fn clone(&self) -> Result<Self, AllocError> {
        Ok(*self)
    }
}

impl<T> Copy for UnionOffset<T> {}

impl<T> UnionOffset<T> {
    ghost use Rattle.std.specs.Prelude.{◌≡◌};

    /// Returns the union of a tag, above 0 in a field, and the offset of its value.
    #[inline]
    pub fn new(tag: u8, offset: Offset<()>) -> UnionOffset<T>
        ensures tag { result.tag ≡ tag }
        ensures offset { result.offset ≡ offset }
    {
        UnionOffset {
            tag,
            offset,
            _marker: PhantomData,
        }
    }

    /// Returns the tag of the variant.
    #[inline]
    pub fn tag(&self) -> u8
        ensures { result ≡ self.now.tag }
    {
        self.tag
    }

    /// Returns the offset of the variant's value.
    #[inline]
    pub fn offset(&self) -> Offset<()>
        ensures { result ≡ self.now.offset }
    {
        self.offset
    }
}
