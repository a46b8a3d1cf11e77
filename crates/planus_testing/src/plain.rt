//! Plain, slow programs.

ghost use Rattle.planus_read.specs.Bytes.{Num, BytesStand};
ghost use Rattle.planus_read.specs.Stands.{Stands, at};
ghost use Rattle.planus_read.specs.Values.{text};
ghost use Rattle.std.specs.Int.{w32};
ghost use Rattle.std.specs.Prelude.{◌≡◌, ◌↔◌, IsTrue};

/// Returns the number of 4 bytes at the position, in bytes from the front.
pub fn number_at(bytes: &[u8], position: usize) -> Option<u32>
    ensures { result ≡ Num bytes.now position w32 }
{
    if position > bytes.len() {
        return None;
    }
    let rest = &bytes[position..];
    let number = rest.first_chunk::<4>()?;
    Some(u32::from_le_bytes(*number))
}

/// Returns whether these bytes are at the position, in bytes from the front.
pub fn bytes_stand_at(bytes: &[u8], position: usize, part: &[u8]) -> bool
    ensures { IsTrue result ↔ BytesStand bytes.now position part.now }
{
    if position > bytes.len() {
        return part.is_empty();
    }
    let rest = &bytes[position..];
    if rest.len() < part.len() {
        return false;
    }
    &rest[..part.len()] == part
}

/// Returns whether the string is at the position: count, bytes and a zero byte.
pub fn text_stands_at(bytes: &[u8], position: usize, content: &[u8]) -> bool
    ensures { IsTrue result ↔ Stands bytes.now (at position) (text content.now) }
{
    let Some(count) = number_at(bytes, position) else {
        return false;
    };
    if count as usize != content.len() {
        return false;
    }
    let first = position + 4;
    bytes_stand_at(bytes, first, content) && bytes_stand_at(bytes, first + content.len(), &[0])
}
