//! A reference written as what it refers to.

use std::alloc::AllocError;
use std::fmt;

/// Is written as the value that it refers to.
pub struct ByRef<'a, T>(pub &'a T);

impl<'a, T> Clone for ByRef<'a, T> {
    ghost use Rattle.std.specs.Prelude.{◌≡◌, ⊤};

    ghost is_clone = { λ by_ref copy. copy ≡ by_ref };

    ghost is_infallible = { λ _. ⊤ };

    #[inline]
    fn clone(&self) -> Result<Self, AllocError> {
        Ok(*self)
    }
}

impl<'a, T> Copy for ByRef<'a, T> {}

impl<'a, T: fmt::Debug> fmt::Debug for ByRef<'a, T> {
    ghost debug_output = { λ by_ref. T.debug_output by_ref.0.now };

    fn fmt<W: fmt::Write>(&self, f: &mut fmt::Formatter<W>) -> fmt::Result {
        fmt::Debug::fmt(self.0, f)
    }
}
