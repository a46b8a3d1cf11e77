ghost use Rattle.std.specs.Prelude.{◌≡◌, ◌≤◌, length};
ghost use Rattle.planus_back.specs.Padding.{greatest_place};

use planus_back::{Byte, Overwrite};
use std::fmt;

/// A vector of `u8`: a count of 4 bytes, and the bytes.
#[derive(Clone, Copy)]
pub struct ByteList<'a>(pub &'a [u8]);

/// A vector of `i8`: a count of 4 bytes, and the numbers' bytes.
#[derive(Clone, Copy)]
pub struct SignedList<'a>(pub &'a [i8]);

impl<'a> From<&'a [u8]> for ByteList<'a> {
    ghost from_gives = { λ bytes list. list.0 ≡ bytes };

    #[inline]
    fn from(bytes: &'a [u8]) -> ByteList<'a> {
        ByteList(bytes)
    }
}

impl<'a> From<&'a [i8]> for SignedList<'a> {
    ghost from_gives = { λ numbers list. list.0 ≡ numbers };

    #[inline]
    fn from(numbers: &'a [i8]) -> SignedList<'a> {
        SignedList(numbers)
    }
}

impl<'a> fmt::Debug for ByteList<'a> {
    ghost use Rattle.std.specs.Prelude.{Some};
    ghost use Rattle.std.specs.Fmt.{debug_list, decimal};

    ghost debug_output = { λ list. debug_list (λ byte. Some (decimal byte)) list.0.now };

    fn fmt<W: fmt::Write>(&self, f: &mut fmt::Formatter<W>) -> fmt::Result {
        fmt::Debug::fmt(&self.0, f)
    }
}

impl<'a> fmt::Debug for SignedList<'a> {
    ghost use Rattle.std.specs.Prelude.{Some};
    ghost use Rattle.std.specs.Fmt.{debug_list, signed_decimal};

    ghost debug_output = { λ list. debug_list (λ number. Some (signed_decimal number)) list.0.now };

    fn fmt<W: fmt::Write>(&self, f: &mut fmt::Formatter<W>) -> fmt::Result {
        fmt::Debug::fmt(&self.0, f)
    }
}

/// The bytes of some numbers.
#[derive(Drop)]
pub(crate) struct Copied<'a, B: Byte>(pub(crate) &'a [B]);

impl<'a, B: Byte> Overwrite for Copied<'a, B> {
    ghost fits = { λ copied place n. (n ≡ length (B.bytes_of copied.0.now))
        × (n ≤ greatest_place) };

    ghost encoding = { λ copied place n. B.bytes_of copied.0.now };

    #[inline]
    fn overwrite(&self, _place: u32, bytes: &mut [u8]) {
        B::copy_to(self.0, bytes);
    }
}
