//! Slices of a buffer.

ghost use Rattle.std.specs.Prelude.{◌≡◌, ◌+◌, ◌<◌, ◌≤◌, ◌^◌, ◌==◌, length, IfOk, IfErr};

use crate::errors::ErrorKind;
use std::fmt;

/// Bytes of a buffer, and where they start.
#[derive(Clone, Copy, Debug)]
pub struct SliceWithStartOffset<'buf> {
    buffer: &'buf [u8],
    offset_from_start: usize,
    ghost fits: { offset_from_start + length buffer.now < 2 ^ 64 },
}

/// `N` bytes of a buffer, and where they start.
#[derive(Clone, Copy)]
pub struct ArrayWithStartOffset<'buf, const N: usize> {
    buffer: &'buf [u8; N],
    offset_from_start: usize,
    ghost fits: { offset_from_start + N < 2 ^ 64 },
    ghost small: { N < 2 ^ 63 },
}

impl<'buf, const N: usize> fmt::Debug for ArrayWithStartOffset<'buf, N> {
    fn fmt<W: fmt::Write>(&self, f: &mut fmt::Formatter<W>) -> fmt::Result {
        let array = self.buffer;
        let buffer: &[u8] = &array[..];
        let start = self.offset_from_start;
        write!(
            f,
            "ArrayWithStartOffset {{ buffer: {buffer:?}, offset_from_start: {start} }}"
        )
    }
}

impl<'buf> SliceWithStartOffset<'buf> {
    ghost use Rattle.planus_read.specs.Slices.{slice_bytes, slice_start, IsAdvanced, IsArrayAt};

    /// Creates a slice that begins at this offset in bytes. Requires its end to be below 2^64.
    #[inline]
    pub fn new(buffer: &'buf [u8], offset_from_start: usize) -> Self
        requires { offset_from_start + length buffer.now < 2 ^ 64 }
        ensures bytes { slice_bytes result ≡ buffer.entry.now }
        ensures start { slice_start result ≡ offset_from_start }
    {
        SliceWithStartOffset {
            buffer,
            offset_from_start,
        }
    }

    /// Returns the offset of the first byte in the buffer.
    #[inline]
    pub fn offset_from_start(&self) -> usize
        ensures { result ≡ slice_start self.now }
    {
        self.offset_from_start
    }

    /// Returns the length in bytes.
    #[inline]
    pub fn len(&self) -> usize
        ensures { result ≡ length (slice_bytes self.now) }
    {
        self.buffer.len()
    }

    /// Returns `true` if there are no bytes.
    #[inline]
    pub fn is_empty(&self) -> bool
        ensures { result ≡ (length (slice_bytes self.now) == 0) }
    {
        self.buffer.is_empty()
    }

    /// Returns the bytes.
    #[inline]
    pub fn as_slice(&self) -> &'buf [u8]
        ensures { result.now ≡ slice_bytes self.now }
    {
        self.buffer
    }

    /// Returns the slice from `amount` bytes on, or [`ErrorKind::InvalidOffset`] past the end.
    #[inline]
    pub fn advance(&self, amount: usize) -> Result<Self, ErrorKind>
        ensures slice { IfOk result (λ slice. IsAdvanced self.now amount slice) }
        ensures error { IfErr result (λ e.
            (length (slice_bytes self.now) < amount) × (e ≡ ErrorKind.InvalidOffset)) }
    {
        if amount > self.buffer.len() {
            return Err(ErrorKind::InvalidOffset);
        }
        Ok(self.unchecked_advance(amount))
    }

    /// Returns the slice from `amount` bytes on.
    #[inline]
    pub fn unchecked_advance(&self, amount: usize) -> Self
        requires { amount ≤ length (slice_bytes self.now) }
        ensures { IsAdvanced self.now amount result }
    {
        Self {
            buffer: &self.buffer[amount..],
            offset_from_start: self.offset_from_start + amount,
        }
    }

    /// Returns the `N` bytes from `amount` on, or [`ErrorKind::InvalidOffset`] if they pass the
    /// end.
    #[inline]
    pub fn advance_as_array<const N: usize>(
        &self,
        amount: usize,
    ) -> Result<ArrayWithStartOffset<'buf, N>, ErrorKind>
        ensures array { IfOk result (λ array.
            IsArrayAt (slice_bytes self.now) (slice_start self.now) amount array) }
        ensures error { IfErr result (λ e.
            (length (slice_bytes self.now) < amount + N) × (e ≡ ErrorKind.InvalidOffset)) }
    {
        match amount.checked_add(N) {
            Some(end) if end <= self.buffer.len() => {
                Ok(self.unchecked_advance_as_array::<N>(amount))
            }
            _ => Err(ErrorKind::InvalidOffset),
        }
    }

    /// Returns the `N` bytes from `amount` on. Requires all to be in this slice.
    #[inline]
    pub fn unchecked_advance_as_array<const N: usize>(
        &self,
        amount: usize,
    ) -> ArrayWithStartOffset<'buf, N>
        requires { amount + N ≤ length (slice_bytes self.now) }
        ensures { IsArrayAt (slice_bytes self.now) (slice_start self.now) amount result }
    {
        let items = &self.buffer[amount..amount + N];
        match items.first_chunk::<N>() {
            Some(buffer) => ArrayWithStartOffset {
                buffer,
                offset_from_start: self.offset_from_start + amount,
            },
            None => unreachable!(),
        }
    }
}

impl<'buf, const N: usize> ArrayWithStartOffset<'buf, N> {
    ghost use Rattle.planus_read.specs.Slices.{array_bytes, array_start, IsArrayAt};

    /// Creates an array that begins at this offset in bytes. Requires its end to be below 2^64, and
    /// `N` below 2^63.
    #[inline]
    pub fn new(buffer: &'buf [u8; N], offset_from_start: usize) -> Self
        requires fits { offset_from_start + N < 2 ^ 64 }
        requires small { N < 2 ^ 63 }
        ensures bytes { array_bytes result ≡ buffer.entry.now }
        ensures start { array_start result ≡ offset_from_start }
    {
        ArrayWithStartOffset {
            buffer,
            offset_from_start,
        }
    }

    /// Returns the offset of the first byte in the buffer.
    #[inline]
    pub fn offset_from_start(&self) -> usize
        ensures { result ≡ array_start self.now }
    {
        self.offset_from_start
    }

    /// Returns the bytes.
    #[inline]
    pub fn as_array(&self) -> &'buf [u8; N]
        ensures { result.now ≡ array_bytes self.now }
    {
        self.buffer
    }

    /// Returns the `K` bytes from `amount` on, or [`ErrorKind::InvalidOffset`] if they pass the
    /// end.
    #[inline]
    pub fn advance_as_array<const K: usize>(
        &self,
        amount: usize,
    ) -> Result<ArrayWithStartOffset<'buf, K>, ErrorKind>
        ensures array { IfOk result (λ array.
            IsArrayAt (array_bytes self.now) (array_start self.now) amount array) }
        ensures error { IfErr result (λ e. (N < amount + K) × (e ≡ ErrorKind.InvalidOffset)) }
    {
        let array = self.buffer;
        let whole = SliceWithStartOffset::new(&array[..], self.offset_from_start);
        whole.advance_as_array::<K>(amount)
    }
}
