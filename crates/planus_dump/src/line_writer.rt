//! Lines that are written as they come.
ghost use Rattle.std.specs.Prelude.{◌≡◌, ◌||◌, ◌++◌, ◌∷◌, [], false, OnOk};
ghost use Rattle.planus_dump.specs.inner.Writes.{Pushes, Writes, WritesPart};

use crate::floats::line_text;
use crate::line::Line;
use crate::lines::Lines;
use crate::sink_error::SinkError;
use crate::writing::write_whole;
use std::alloc::Global;
use std::io::Write;

/// What is kept before it is written, in bytes.
const BLOCK: usize = 65536;

/// Lines that are written as they come, each with a line feed.
#[derive(Drop)]
pub struct LineWriter<'w, W> {
    pub alloc: Global,
    pub writer: &'w mut W,
    /// What isn't written yet.
    pub block: Vec<u8>,
    /// Whether a line states an error.
    pub has_fault: bool,
}

impl<'w, W: Write> LineWriter<'w, W> {
    pub fn new(alloc: Global, writer: &'w mut W) -> LineWriter<'w, W>
        ensures same { result.writer.ghost_name ≡ writer.entry.ghost_name }
        ensures now { result.writer.now ≡ writer.old }
        ensures block { result.block.items ≡ [] }
        ensures fault { result.has_fault ≡ false }
    {
        LineWriter {
            alloc,
            writer,
            block: Vec::new(alloc),
            has_fault: false,
        }
    }

    /// Writes the block.
    fn write_block(&mut self) -> Result<(), SinkError>
        ensures written { Pushes W.contents self.old [] result self.new }
        ensures empty { OnOk result (self.new.block.items ≡ []) }
    {
        match write_whole(self.writer, &self.block) {
            Ok(()) => {
                self.block.clear();
                Ok(())
            }
            Err(_) => Err(SinkError::Write),
        }
    }

    fn write(&mut self, bytes: &[u8]) -> Result<(), SinkError>
        requires { self.old.block.items ≡ [] }
        ensures { Pushes W.contents self.old bytes.now result self.new }
    {
        match write_whole(self.writer, bytes) {
            Ok(()) => Ok(()),
            Err(_) => Err(SinkError::Write),
        }
    }

    fn keep(&mut self, bytes: &[u8]) -> Result<(), SinkError>
        ensures { Pushes W.contents self.old bytes.now result self.new }
    {
        match self.block.extend_from_slice(bytes) {
            Ok(()) => Ok(()),
            Err(_) => Err(SinkError::OutOfMemory),
        }
    }

    /// Keeps bytes, or writes them with the block where it has no room.
    fn push(&mut self, bytes: &[u8]) -> Result<(), SinkError>
        ensures { Pushes W.contents self.old bytes.now result self.new }
    {
        if self.block.len() <= BLOCK && bytes.len() <= BLOCK - self.block.len() {
            return self.keep(bytes);
        }
        self.write_block()?;
        self.write(bytes)
    }

    fn push_line(&mut self, line: &[u8]) -> Result<(), SinkError>
        ensures { Pushes W.contents self.old (line.now ++ 10 ∷ []) result self.new }
    {
        self.push(line)?;
        self.push(b"\n")
    }

    fn note(&mut self, is_fault: bool)
        ensures { self.new ≡ record self.old { has_fault = self.old.has_fault || is_fault } }
    {
        if is_fault {
            self.has_fault = true;
        }
    }
}

impl<W: Write> Lines for LineWriter<'_, W> {
    ghost takes = { Writes W.contents };

    ghost breaks = { WritesPart W.contents };

    fn put(&mut self, line: Line) -> Result<(), SinkError> {
        let is_fault = line.is_fault();
        let text = line_text(self.alloc, line)?;
        self.push_line(text.as_bytes())?;
        self.note(is_fault);
        Ok(())
    }
}
