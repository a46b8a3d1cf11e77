//! Buffers one after another, each after its size.

ghost use Rattle.std.specs.Prelude.{◌≡◌, IfOk, MatchOption};
ghost use Rattle.planus_cli.specs.Buffers as spec;
ghost use Rattle.planus_cli.specs.Viewing.{SplitsSized, EndsEarly};

use std::alloc::{AllocError, Global};

/// Returns the first buffer and what follows it, or `None` where the bytes end before it does.
pub(crate) fn split_sized(bytes: &[u8]) -> Option<(&[u8], &[u8])>
    ensures { MatchOption result (EndsEarly bytes.now)
        (λ parts. SplitsSized bytes.now parts.0.now parts.1.now) }
{
    let (head, rest) = bytes.split_first_chunk::<4>()?;
    let size = u32::from_le_bytes(*head) as usize;
    rest.split_at_checked(size)
}

/// Returns the line before a buffer, without its line feed.
pub(crate) fn header(alloc: Global, number: usize, at: usize) -> Result<Vec<u8>, AllocError>
    ensures { IfOk result (λ text. text.items ≡ spec.header_text number at) }
{
    let mut text = Vec::from_slice(alloc, b"buffer ")?;
    text.extend_from_slice(format!(in alloc; "{number}")?.as_bytes())?;
    text.extend_from_slice(b" at byte ")?;
    text.extend_from_slice(format!(in alloc; "{at}")?.as_bytes())?;
    text.push(b':')?;
    Ok(text)
}
