//! What is at a position of a buffer, as an item of a vector or the value of a union.

ghost use Rattle.std.specs.Prelude.{◌≡◌};
ghost use Rattle.planus_foreign.specs.Calls.{ReadsThere, IsSame, IsBytesOf};
ghost use Rattle.planus_foreign.specs.Places.{IsTextAt, IsValueAt, IsValueBehind, SizedSpan};

use crate::span::Span;
use crate::status::{OK, status_of};
use planus::errors::ErrorKind;
use planus::{Plain, SliceWithStartOffset, TableRead, read_plain_ref, read_size_prefixed};

/// Stores where the string is to which the reference at this position leads.
#[inline]
pub fn read_text_at(buffer: &[u8], position: usize, out: &mut Span) -> u32
    ensures { ReadsThere IsTextAt IsSame buffer.now position out.old out.new
        result }
{
    match <Span as TableRead<'_>>::from_buffer(SliceWithStartOffset::new(buffer, 0), position) {
        Ok(span) => {
            *out = span;
            OK
        }
        Err(kind) => status_of(kind),
    }
}

/// Stores the bytes of the value at this position, as those of an enum or a struct.
#[inline]
pub fn read_bytes_at<T: Plain + Drop, const N: usize>(
    buffer: &[u8],
    position: usize,
    out: &mut [u8; N],
) -> u32
    requires { T.SIZE ≡ N }
    ensures { ReadsThere (IsValueAt T.shape) (IsBytesOf T.shape) buffer.now
        position out.old out.new result }
{
    match <T as TableRead<'_>>::from_buffer(SliceWithStartOffset::new(buffer, 0), position) {
        Ok(value) => {
            value.put(&mut out[..]);
            OK
        }
        Err(kind) => status_of(kind),
    }
}

#[inline]
fn value_behind<T: Plain>(buffer: &[u8], position: usize) -> Result<T, ErrorKind>
    ensures { IsValueBehind T.shape buffer.now position result }
{
    match read_plain_ref::<T>(SliceWithStartOffset::new(buffer, 0), position) {
        Ok(found) => found.get(),
        Err(kind) => Err(kind),
    }
}

/// Stores the bytes of the value to which the reference at this position leads, as those of a
/// struct that is a union's value.
#[inline]
pub fn read_bytes_behind<T: Plain + Drop, const N: usize>(
    buffer: &[u8],
    position: usize,
    out: &mut [u8; N],
) -> u32
    requires { T.SIZE ≡ N }
    ensures { ReadsThere (IsValueBehind T.shape) (IsBytesOf T.shape) buffer.now position out.old
        out.new result }
{
    match value_behind::<T>(buffer, position) {
        Ok(value) => {
            value.put(&mut out[..]);
            OK
        }
        Err(kind) => status_of(kind),
    }
}

/// Stores where the first of these size-prefixed buffers is, after its size.
#[inline]
pub fn read_sized(buffer: &[u8], out: &mut Span) -> u32
    ensures { SizedSpan buffer.now out.old out.new result }
{
    match read_size_prefixed(buffer) {
        Ok((content, _)) => {
            *out = Span {
                at: content.offset_from_start(),
                len: content.len(),
            };
            OK
        }
        Err(kind) => status_of(kind),
    }
}
