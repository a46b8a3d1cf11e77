//! Iterators over signed bytes.

ghost use Rattle.std.specs.Prelude.{◌≡◌, length, Some, IfSome, ⊤};
ghost use Rattle.std.specs.Iterator.{at_most, UpTo};
ghost use Rattle.std.specs.Iterator.SizeHint.{IsWithinCount};
ghost use Rattle.planus_read.specs.SignedItems.{bytes_left};

use std::alloc::AllocError;
use std::iter::FusedIterator;
use std::slice::Iter;

/// An iterator over signed bytes.
#[derive(Drop)]
pub struct SignedItems<'buf> {
    bytes: Iter<'buf, u8>,
}

impl<'buf> SignedItems<'buf> {
    #[inline]
    pub(crate) fn new(bytes: &'buf [u8]) -> SignedItems<'buf>
        ensures { bytes_left result ≡ bytes.entry.now }
    {
        SignedItems {
            bytes: bytes.iter(),
        }
    }
}

impl<'buf> Clone for SignedItems<'buf> {
    ghost is_clone = { λ items copy. bytes_left copy ≡ bytes_left items };

    ghost is_infallible = { λ _. ⊤ };

    #[inline]
    fn clone(&self) -> Result<Self, AllocError> {
        Ok(SignedItems::new(self.bytes.as_slice()))
    }
}

impl<'buf> Iterator for SignedItems<'buf> {
    type Item = i8;

    ghost use Rattle.planus_read.specs.SignedItems.{TakesFirst};

    ghost next_gives = { TakesFirst };

    ghost remaining = { λ items. at_most (length (bytes_left items)) };

    #[inline]
    fn next(&mut self) -> Option<i8> {
        let byte = self.bytes.next()?;
        Some(i8::from_le_bytes([*byte]))
    }

    #[inline]
    fn size_hint(&self) -> (usize, Option<usize>)
        ensures lower { IsWithinCount result.0 (at_most (length (bytes_left self.now))) }
        ensures upper { IfSome result.1 (UpTo (at_most (length (bytes_left self.now)))) }
        ensures exact { (result.0 ≡ length (bytes_left self.now))
            × (result.1 ≡ Some (length (bytes_left self.now))) }
    {
        let len = self.len();
        (len, Some(len))
    }
}

impl<'buf> DoubleEndedIterator for SignedItems<'buf> {
    ghost use Rattle.planus_read.specs.SignedItems.{TakesLast};

    ghost next_back_gives = { TakesLast };

    #[inline]
    fn next_back(&mut self) -> Option<i8> {
        let byte = self.bytes.next_back()?;
        Some(i8::from_le_bytes([*byte]))
    }
}

impl<'buf> ExactSizeIterator for SignedItems<'buf> {
    #[inline]
    fn len(&self) -> usize {
        self.bytes.len()
    }
}

impl<'buf> FusedIterator for SignedItems<'buf> {}
