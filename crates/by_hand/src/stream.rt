//! A stream of size-prefixed buffers.

ghost use Rattle.std.specs.Prelude.{◌≡◌, IfOk, IfErr};
ghost use Rattle.by_hand.specs.Streams.{IsAppended, ReadsAll};

use planus::errors::ErrorKind;
use planus::{BuildError, Builder, SliceWithStartOffset, read_size_prefixed};
use std::alloc::{AllocError, Global};

/// What is read of a stream.
#[derive(Drop)]
pub struct Records<'a> {
    /// The buffers without their sizes.
    pub slices: Vec<SliceWithStartOffset<'a>>,
    /// The error of what follows, if any.
    pub fault: Option<ErrorKind>,
}

/// Appends a string as a size-prefixed buffer, written into the builder after a clear. An error
/// leaves the stream as it was.
pub fn append(stream: &mut Vec<u8>, builder: &mut Builder, text: &str) -> Result<(), BuildError>
    ensures appended { IfOk result
        (λ done. IsAppended text.now stream.old.items stream.new.items) }
    ensures unchanged { IfErr result (λ error. stream.new.items ≡ stream.old.items) }
{
    builder.clear();
    let bytes = builder.finish_size_prefixed(text, None)?;
    stream.extend_from_slice(bytes)?;
    Ok(())
}

/// Reads all buffers, up to the first that fails.
pub fn read_all<'a>(alloc: Global, stream: &'a [u8]) -> Result<Records<'a>, AllocError>
    ensures { IfOk result (ReadsAll stream.now) }
{
    let mut slices = Vec::new(alloc);
    let mut rest = stream;
    let mut fault = None;
    while fault.is_none() && !rest.is_empty() {
        match read_size_prefixed(rest) {
            Ok((slice, behind)) => {
                slices.push(slice)?;
                rest = behind;
            }
            Err(error) => fault = Some(error),
        }
    }
    Ok(Records { slices, fault })
}
