//! What a cache compares.
ghost use Rattle.std.specs.Prelude.{◌≡◌, ℕ, ◌-◌, List, length, drop, Option, Some, None, nat_le};
ghost use Rattle.std.specs.Prelude.{if◌then◌else◌};
ghost use Rattle.std.specs.Option.{option_copied};
ghost use Rattle.planus_back.specs.CacheKeys.{key_at, vtable_in, bytes_in};

/// A kind of contents, by what makes two equal. `key_in` is the key at the front of some bytes.
pub trait GetCacheKey {
    ghost key_in: { List ℕ → Option (List ℕ) };

    /// Returns the key of the contents at a distance in bytes from the end, or `None` if it isn't
    /// wholly in `serialized`.
    fn key_at(serialized: &[u8], distance: u32) -> Option<&[u8]>
        ensures { option_copied result ≡ key_at key_in serialized.now distance };

    /// Returns the key of the contents at a distance where there is one.
    fn key_there(serialized: &[u8], distance: u32) -> &[u8]
        requires { (key : List ℕ) × (key_at key_in serialized.now distance ≡ Some key) }
        ensures { key_at key_in serialized.now distance ≡ Some result.now };
}

/// The kind of vtables: a key is a whole vtable, its own size first.
pub struct VTable;

/// The kind of strings and byte vectors: a key is the bytes after the count.
pub struct ByteVec;

fn last_bytes(serialized: &[u8], distance: u32) -> Option<&[u8]>
    ensures { option_copied result ≡ (if nat_le distance (length serialized.now)
        then Some (drop (length serialized.now - distance) serialized.now) else None) }
{
    let distance = distance as usize;
    if distance > serialized.len() {
        return None;
    }
    Some(&serialized[serialized.len() - distance..])
}

impl GetCacheKey for VTable {
    ghost key_in = { vtable_in };

    fn key_at(serialized: &[u8], distance: u32) -> Option<&[u8]> {
        let bytes = last_bytes(serialized, distance)?;
        let size = u16::from_le_bytes(*bytes.first_chunk::<2>()?) as usize;
        bytes.get(..size)
    }

    #[inline]
    fn key_there(serialized: &[u8], distance: u32) -> &[u8] {
        let bytes = &serialized[serialized.len() - distance as usize..];
        match bytes[..2].first_chunk::<2>() {
            Some(size) => &bytes[..u16::from_le_bytes(*size) as usize],
            None => unreachable!(),
        }
    }
}

impl GetCacheKey for ByteVec {
    ghost key_in = { bytes_in };

    fn key_at(serialized: &[u8], distance: u32) -> Option<&[u8]> {
        let bytes = last_bytes(serialized, distance)?;
        let count = u32::from_le_bytes(*bytes.first_chunk::<4>()?) as usize;
        bytes[4..].get(..count)
    }

    #[inline]
    fn key_there(serialized: &[u8], distance: u32) -> &[u8] {
        let bytes = &serialized[serialized.len() - distance as usize..];
        match bytes[..4].first_chunk::<4>() {
            Some(count) => &bytes[4..4 + u32::from_le_bytes(*count) as usize],
            None => unreachable!(),
        }
    }
}
