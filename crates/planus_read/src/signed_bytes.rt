//! Vectors of signed bytes.

ghost use Rattle.std.specs.Prelude.{◌≡◌, ◌==◌, length};
ghost use Rattle.planus_read.specs.Clauses.{Answer, shown};
ghost use Rattle.planus_read.specs.Reading.{byte_list_reading};

use crate::errors::ErrorKind;
use crate::signed_items::SignedItems;
use crate::slice_helpers::SliceWithStartOffset;
use crate::traits::TableRead;

/// A vector of signed bytes, in the format a byte vector.
#[derive(Clone, Copy, Debug)]
pub struct SignedBytes<'buf> {
    bytes: &'buf [u8],
}

impl<'buf> SignedBytes<'buf> {
    ghost use Rattle.planus_read.specs.SignedBytes.{signed_bytes, signed_item};
    ghost use Rattle.planus_read.specs.SignedItems.{bytes_left};

    /// Returns the number of bytes.
    #[inline]
    pub fn len(&self) -> usize
        ensures { result ≡ length (signed_bytes self.now) }
    {
        self.bytes.len()
    }

    /// Returns `true` if there are no bytes.
    #[inline]
    pub fn is_empty(&self) -> bool
        ensures { result ≡ (length (signed_bytes self.now) == 0) }
    {
        self.bytes.is_empty()
    }

    /// Returns the signed byte at an index, or `None` out of bounds.
    #[inline]
    pub fn get(&self, index: usize) -> Option<i8>
        ensures { result ≡ signed_item (signed_bytes self.now) index }
    {
        let byte = self.bytes.get(index)?;
        Some(i8::from_le_bytes([*byte]))
    }

    /// Returns an iterator over the signed bytes.
    #[inline]
    pub fn iter(&self) -> SignedItems<'buf>
        ensures { bytes_left result ≡ signed_bytes self.now }
    {
        SignedItems::new(self.bytes)
    }

    /// Returns the same bytes, unsigned.
    #[inline]
    pub fn as_bytes(&self) -> &'buf [u8]
        ensures { result.now ≡ signed_bytes self.now }
    {
        self.bytes
    }
}

impl<'buf> IntoIterator for SignedBytes<'buf> {
    type Item = i8;

    type IntoIter = SignedItems<'buf>;

    ghost use Rattle.planus_read.specs.SignedBytes.{signed_bytes};
    ghost use Rattle.planus_read.specs.SignedItems.{bytes_left};

    ghost into_iter_gives = { λ list items. bytes_left items ≡ signed_bytes list };

    #[inline]
    fn into_iter(self) -> SignedItems<'buf> {
        self.iter()
    }
}

impl<'a, 'buf> IntoIterator for &'a SignedBytes<'buf> {
    type Item = i8;

    type IntoIter = SignedItems<'buf>;

    ghost use Rattle.planus_read.specs.SignedBytes.{signed_bytes};
    ghost use Rattle.planus_read.specs.SignedItems.{bytes_left};

    ghost into_iter_gives = { λ list items. bytes_left items ≡ signed_bytes list.now };

    #[inline]
    fn into_iter(self) -> SignedItems<'buf> {
        self.iter()
    }
}

impl<'buf> TableRead<'buf> for SignedBytes<'buf> {
    ghost use Rattle.planus_read.specs.SignedBytes.{ShowsSigned};

    ghost reads = { λ S start f r. Answer (shown ShowsSigned (byte_list_reading S f)) r };

    #[inline]
    fn from_buffer(
        buffer: SliceWithStartOffset<'buf>,
        offset: usize,
    ) -> Result<SignedBytes<'buf>, ErrorKind> {
        let bytes = <&'buf [u8] as TableRead<'buf>>::from_buffer(buffer, offset)?;
        Ok(SignedBytes { bytes })
    }
}
