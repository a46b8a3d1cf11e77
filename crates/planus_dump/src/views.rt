//! A view: a dump as far as it is wanted, written line by line.
ghost use Rattle.std.specs.Prelude.{◌≡◌, IfOk, IfErr, OnOk, OnErr};
ghost use Rattle.std.specs.Result.{IsOk};
ghost use Rattle.std.specs.Io.KnownBytes.{Appends};
ghost use Rattle.planus_dump.specs.Views.{WritesView, FailsView};
ghost use Rattle.planus_dump.specs.Writing.{WritesBeginning};

use crate::dumps::walk_from_root;
use crate::end::End;
use crate::line_sink::LineSink;
use crate::line_writer::LineWriter;
use crate::schemas::Schema;
use crate::sink_error::SinkError;
use crate::validate::is_good_schema;
use crate::view_error::ViewError;
use crate::writing::write_whole;
use std::alloc::Global;
use std::io::Write;

/// What the lines of a view were.
#[derive(Clone, Copy, Debug, PartialEq, Eq)]
pub struct Seen {
    /// Why they end.
    pub end: End,
    /// Whether one states an error.
    pub has_fault: bool,
    /// How many lines might still come.
    pub lines_left: usize,
    /// How many of their bytes.
    pub bytes_left: usize,
}

/// Writes what the walk left, unless it failed.
fn write_rest<W: Write>(
    walked: Result<(), SinkError>,
    rest: &[u8],
    writer: &mut W,
) -> Result<(), SinkError>
    ensures whole { OnOk result (IsOk walked) }
    ensures written { OnOk result (Appends (W.contents writer.old) (W.contents writer.new)
        rest.now) }
    ensures begun { OnErr result (WritesBeginning rest.now (W.contents writer.old)
        (W.contents writer.new)) }
    ensures kept { OnErr walked (writer.new ≡ writer.old) }
{
    walked?;
    match write_whole(writer, rest) {
        Ok(()) => Ok(()),
        Err(_) => Err(SinkError::Write),
    }
}

/// Writes the first lines that [`dump`](crate::dump) would return, at most `most` lines and `size`
/// bytes, where the text of a float counts as 32 bytes and a line feed, which ends each, as none.
/// They are written as they are made, in blocks; the writer isn't flushed.
///
/// Where this fails, a beginning of them was written.
pub fn view<W: Write>(
    alloc: Global,
    schema: &Schema,
    bytes: &[u8],
    most: usize,
    size: usize,
    writer: &mut W,
) -> Result<Seen, ViewError>
    ensures shown { IfOk result (λ seen. WritesView schema.now bytes.now most size seen
        (W.contents writer.old) (W.contents writer.new)) }
    ensures failed { IfErr result (λ error. FailsView schema.now bytes.now most size error
        (W.contents writer.old) (W.contents writer.new)) }
{
    if !is_good_schema(schema) {
        return Err(ViewError::BadSchema);
    }
    let mut out = LineSink::new(alloc, LineWriter::new(alloc, writer), most, Some(size));
    let walked = walk_from_root(&mut out, schema, bytes);
    let LineSink {
        lines,
        left,
        room,
        end,
        ..
    } = out;
    let LineWriter {
        writer,
        block,
        has_fault,
        ..
    } = lines;
    write_rest(walked, &block, writer)?;
    Ok(Seen {
        end,
        has_fault,
        lines_left: left,
        bytes_left: room.unwrap_or(0),
    })
}
