//! Offsets of written values.

use std::alloc::AllocError;
use std::marker::PhantomData;

/// The kind of an offset to a string.
pub struct Text;

/// The kind of an offset to a vector of `P`.
pub struct List<P> {
    _marker: PhantomData<P>,
}

/// A written value of kind `T`, by the distance in bytes from the end of the buffer to its first
/// byte.
pub struct Offset<T> {
    distance: u32,
    _marker: PhantomData<T>,
}

impl<T> Clone for Offset<T> {
    ghost use Rattle.std.specs.Prelude.{◌≡◌, ⊤};

    ghost is_clone = { λ offset copy. copy ≡ offset };

    ghost is_infallible = { λ _. ⊤ };

    #[inline]
    fn clone(&self) -> Result<Self, AllocError> {
        Ok(*self)
    }
}

impl<T> Copy for Offset<T> {}

impl<T> Offset<T> {
    ghost use Rattle.std.specs.Prelude.{◌≡◌};

    pub(crate) fn at(distance: u32) -> Offset<T>
        ensures { result.distance ≡ distance }
    {
        Offset {
            distance,
            _marker: PhantomData,
        }
    }

    /// Returns the distance in bytes from the end of the buffer to the value's first byte; the last
    /// byte of a buffer has distance 1.
    #[inline]
    pub fn distance(&self) -> u32
        ensures { result ≡ self.now.distance }
    {
        self.distance
    }

    /// Returns the same offset without its kind.
    #[inline]
    pub fn downcast(&self) -> Offset<()>
        ensures { result.distance ≡ self.now.distance }
    {
        Offset::at(self.distance)
    }
}
