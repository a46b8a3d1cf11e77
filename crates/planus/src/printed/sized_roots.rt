//! The roots of size-prefixed buffers.

ghost use Rattle.planus.specs.SizedRoots.{IsSizedRoot, ReadsSized};

use crate::tables::{TableKind, TableView, read_view};
use planus_read::errors::ErrorKind;
use planus_read::located::{Error, locate};
use planus_read::read_size_prefixed;

fn read_sized<'a, V: TableView<'a>>(bytes: &'a [u8]) -> Result<(V, &'a [u8]), ErrorKind>
    ensures { ReadsSized V.table bytes.entry.now result }
{
    let (slice, rest) = read_size_prefixed(bytes)?;
    let view = read_view(slice, 0)?;
    Ok((view, rest))
}

/// Returns the view of the root of the first of these size-prefixed buffers, and the bytes after
/// the buffer.
///
/// An error is that of [`read_size_prefixed`], or else that of the root's read, at the first byte.
pub fn read_sized_root<'a, 'n, V: TableView<'a>>(
    bytes: &'a [u8],
) -> Result<(V, &'a [u8]), Error<'n>>
    ensures { IsSizedRoot V.Kind.name V.table bytes.entry.now result }
{
    let (name, method): (&'n str, &'n str) = (<V::Kind as TableKind>::name(), "read_as_root");
    locate(read_sized(bytes), name, method, 0)
}
