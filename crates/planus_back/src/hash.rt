//! The hash of a key.
ghost use Rattle.std.specs.Prelude.{◌≡◌, ◌<◌, length, MatchOption};
ghost use Rattle.planus_back.specs.Hashes.{fold_of, number_with, last_number, first_number, Splits};
ghost use Rattle.planus_back.specs.Hashes as spec;

use crate::byte::Byte;

/// This and the next two are digits of pi: odd, and none near a multiple of another.
const FIRST: u64 = 2611923443488327891;

const SECOND: u64 = 589684135938649225;

const MIXED: u64 = 4983270260364809079;

// Each bit of the result depends on all bits of both factors.
#[inline(always)]
fn fold(left: u64, right: u64) -> u64
    ensures { result ≡ fold_of left right }
{
    let (low, high) = left.carrying_mul(right, 0);
    low ^ high
}

#[inline]
fn join(number: u64, byte: u8) -> u64
    ensures { result ≡ number_with number byte }
{
    number.wrapping_mul(256).wrapping_add(byte as u64)
}

#[inline]
fn last_of<T: Byte>(key: &[T]) -> u64
    ensures { result ≡ last_number (T.bytes_of key.now) }
{
    if let Some(word) = T::last_word(key) {
        return word;
    }
    let mut number = 0;
    for byte in key {
        number = join(number, byte.to_byte());
    }
    number
}

#[inline(always)]
fn first_of<T: Byte>(key: &[T]) -> u64
    ensures { result ≡ first_number (T.bytes_of key.now) }
{
    match T::split_word(key) {
        Some((word, _)) => word,
        None => 0,
    }
}

// One test, so that a short key has no loop.
#[inline(always)]
fn split_words<T: Byte>(key: &[T]) -> Option<(u64, u64, &[T])>
    ensures { MatchOption result (length (T.bytes_of key.now) < 16)
        (λ split. Splits (T.bytes_of key.now) split.0 split.1 (T.bytes_of split.2.now)) }
{
    if T::count(key) < 16 {
        return None;
    }
    let (first, behind) = T::split_word(key)?;
    let (second, behind) = T::split_word(behind)?;
    Some((first, second, behind))
}

// Two hashes in turn, so that neither waits for the other, then the last 8 bytes, some of which may
// be hashed already.
#[inline]
pub(crate) fn hash_of<T: Byte>(key: &[T]) -> u64
    ensures { result ≡ spec.hash_of (T.bytes_of key.now) }
{
    let last = last_of(key);
    let count = T::count(key) as u64;
    let (mut one, mut two) = (FIRST ^ count, SECOND ^ count);
    let mut rest = key;
    while let Some((first, second, behind)) = split_words(rest) {
        (one, two) = (two, fold(one ^ first, MIXED ^ second));
        rest = behind;
    }
    fold(one ^ first_of(rest), two ^ last)
}
