//! Numbers of one byte.
ghost use Rattle.std.specs.Prelude.{◌≡◌, ◌↔◌, ◌<◌, ◌^◌, ℕ, List, length, map, IsTrue, MatchOption};
ghost use Rattle.std.specs.Int.{w8, w64, cast_unsigned, from_le_bytes};
ghost use Rattle.planus_back.specs.Bytes.{AreBytes};
ghost use Rattle.planus_back.specs.Hashes.{IsLastWord, SplitsWord};

/// Seals [`Byte`], since no other crate can name it.
pub trait Sealed {}

impl Sealed for u8 {}

impl Sealed for i8 {}

/// A number of one byte: `u8` or `i8`. `byte_of` is its byte, `bytes_of` are the bytes of some
/// numbers, and `of_each` says that these are the bytes of each in turn.
pub trait Byte: Copy + Sealed {
    ghost byte_of: { Self → ℕ };

    ghost bytes_of: { List Self → List ℕ };

    ghost of_each: { (numbers : List Self) → bytes_of numbers ≡ map byte_of numbers };

    /// Returns how many there are.
    fn count(numbers: &[Self]) -> usize
        ensures number { result ≡ length (bytes_of numbers.now) }
        ensures small { result < 2 ^ 63 };

    /// Returns the number's byte.
    fn to_byte(self) -> u8
        ensures { result ≡ byte_of self };

    /// Returns the number of the last 8 bytes, the first of them the lowest.
    fn last_word(numbers: &[Self]) -> Option<u64>
        ensures { MatchOption result (length (bytes_of numbers.now) < 8)
            (λ word. IsLastWord (bytes_of numbers.now) word) };

    /// Returns the number of the first 8 bytes, and the numbers after them.
    fn split_word(numbers: &[Self]) -> Option<(u64, &[Self])>
        ensures { MatchOption result (length (bytes_of numbers.now) < 8)
            (λ split. SplitsWord (bytes_of numbers.now) split.0 (bytes_of split.1.now)) };

    /// Returns whether these are the numbers' bytes.
    fn are(numbers: &[Self], bytes: &[u8]) -> bool
        ensures { IsTrue result ↔ (bytes.now ≡ bytes_of numbers.now) };

    /// Writes the numbers' bytes, of which there must be as many.
    fn copy_to(numbers: &[Self], bytes: &mut [u8])
        requires { length bytes.old ≡ length (bytes_of numbers.now) }
        ensures { bytes.new ≡ bytes_of numbers.now };
}

#[inline]
fn same(left: &[u8], right: &[u8]) -> bool
    ensures { IsTrue result ↔ (left.now ≡ right.now) }
{
    left.len() == right.len() && same_words(left, right)
}

// The last 8 bytes are compared first, then 8 at a time, since most keys are short.
#[inline]
fn same_words(left: &[u8], right: &[u8]) -> bool
    requires left { AreBytes left.now }
    requires right { AreBytes right.now }
    requires length { length left.now ≡ length right.now }
    ensures { IsTrue result ↔ (left.now ≡ right.now) }
{
    let Some(last) = left.last_chunk::<8>() else {
        return left == right;
    };
    let Some(end) = right.last_chunk::<8>() else {
        return false;
    };
    if u64::from_le_bytes(*last) != u64::from_le_bytes(*end) {
        return false;
    }
    let (mut left, mut right) = (left, right);
    while let Some((word, behind)) = left.split_first_chunk::<8>() {
        let Some((other, rest)) = right.split_first_chunk::<8>() else {
            return false;
        };
        if u64::from_le_bytes(*word) != u64::from_le_bytes(*other) {
            return false;
        }
        (left, right) = (behind, rest);
    }
    true
}

impl Byte for u8 {
    ghost use Rattle.std.proofs.Common.{map-id, sym};

    ghost byte_of = { λ byte. byte };

    ghost bytes_of = { λ bytes. bytes };

    ghost of_each = { λ bytes. sym (map-id bytes) };

    #[inline]
    fn count(bytes: &[u8]) -> usize {
        bytes.len()
    }

    #[inline]
    fn to_byte(self) -> u8 {
        self
    }

    #[inline]
    fn last_word(bytes: &[u8]) -> Option<u64> {
        let word = bytes.last_chunk::<8>()?;
        Some(u64::from_le_bytes(*word))
    }

    #[inline]
    fn split_word(bytes: &[u8]) -> Option<(u64, &[u8])> {
        let (word, behind) = bytes.split_first_chunk::<8>()?;
        Some((u64::from_le_bytes(*word), behind))
    }

    #[inline]
    fn are(left: &[u8], right: &[u8]) -> bool {
        same(right, left)
    }

    #[inline]
    fn copy_to(from: &[u8], to: &mut [u8]) {
        to.copy_from_slice(from);
    }
}

#[inline]
fn word_of(numbers: &[i8; 8]) -> u64
    ensures { result ≡ from_le_bytes w64 (map (λ number. cast_unsigned w8 number) numbers.now) }
{
    u64::from_le_bytes([
        numbers[0].to_byte(),
        numbers[1].to_byte(),
        numbers[2].to_byte(),
        numbers[3].to_byte(),
        numbers[4].to_byte(),
        numbers[5].to_byte(),
        numbers[6].to_byte(),
        numbers[7].to_byte(),
    ])
}

impl Byte for i8 {
    ghost use Rattle.std.specs.Prelude.{map, refl};
    ghost use Rattle.std.specs.Int.{w8, cast_unsigned};

    ghost byte_of = { λ number. cast_unsigned w8 number };

    ghost bytes_of = { λ numbers. map (λ number. cast_unsigned w8 number) numbers };

    ghost of_each = { λ numbers. refl };

    #[inline]
    fn count(numbers: &[i8]) -> usize {
        numbers.len()
    }

    #[inline]
    fn to_byte(self) -> u8 {
        self.cast_unsigned()
    }

    #[inline]
    fn last_word(numbers: &[i8]) -> Option<u64> {
        let word = numbers.last_chunk::<8>()?;
        Some(word_of(word))
    }

    #[inline]
    fn split_word(numbers: &[i8]) -> Option<(u64, &[i8])> {
        let (word, behind) = numbers.split_first_chunk::<8>()?;
        Some((word_of(word), behind))
    }

    #[inline]
    fn are(numbers: &[i8], bytes: &[u8]) -> bool {
        if bytes.len() != numbers.len() {
            return false;
        }
        let mut at = 0;
        while at < bytes.len() {
            if bytes[at] != numbers[at].to_byte() {
                return false;
            }
            at += 1;
        }
        true
    }

    #[inline]
    fn copy_to(numbers: &[i8], bytes: &mut [u8]) {
        let mut at = 0;
        while at < bytes.len() {
            bytes[at] = numbers[at].to_byte();
            at += 1;
        }
    }
}
