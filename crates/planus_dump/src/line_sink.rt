//! The lines so far, as many as are wanted.
ghost use Rattle.std.specs.Prelude.{◌≡◌, ◌≤◌, ◌++◌, ◌∷◌, [], OnOk, IfOk, length};
ghost use Rattle.std.specs.String.{string_bytes};
ghost use Rattle.planus_dump.specs.Events.{line, faulty, deep, float};
ghost use Rattle.planus_dump.specs.Lines.{value_text};
ghost use Rattle.planus_dump.specs.Lines.{value_line, fault_line, table_line, list_line};
ghost use Rattle.planus_dump.specs.Lines.{union_line, unions_line, struct_line, variant_text};
ghost use Rattle.planus_dump.specs.Lines.{unknown_enum_text, lone_tag_text};
ghost use Rattle.planus_dump.specs.Tests.{fault_text};
ghost use Rattle.planus_dump.specs.Views.{cost};
ghost use Rattle.planus_dump.specs.inner.Shown.{event_of, begin};
ghost use Rattle.planus_dump.specs.inner.Feeding.{Shows, Feeds, Does, IsStopped, IsOpen, MayMake};
ghost use Rattle.planus_dump.specs.inner.Feeding.{Fits, left_in};
ghost use Rattle.std.specs.Fmt.{decimal};

use crate::end::End;
use crate::line::{Bits, Line};
use crate::lines::Lines;
use crate::printed::{bytes_size, push_bytes, push_quoted, quoted_size};
use crate::sink_error::SinkError;
use crate::values::Value;
use planus::errors::ErrorKind;
use std::alloc::{AllocError, Global};

#[derive(Drop)]
pub struct LineSink<L> {
    pub alloc: Global,
    pub lines: L,
    /// The number of lines that may still come.
    pub left: usize,
    /// The number of their bytes, if there is a limit.
    pub room: Option<usize>,
    /// Why no line comes any more, or `Whole`.
    pub end: End,
}

fn push_value(alloc: Global, text: &mut String, value: Value<'_>) -> Result<(), AllocError>
    ensures { OnOk result (string_bytes text.new
        ≡ string_bytes text.old ++ value_text value.entry) }
{
    match value {
        Value::Unsigned(n) => text.push_str(format!(in alloc; "{n}")?.as_str()),
        Value::Signed(n) => text.push_str(format!(in alloc; "{n}")?.as_str()),
        Value::Truth(true) => text.push_str("true"),
        Value::Truth(false) => text.push_str("false"),
        Value::Text(content) => push_quoted(text, content),
        Value::Bytes(bytes) => push_bytes(text, bytes),
    }
}

/// The number of bytes of a string or a byte vector as it is printed, at most `usize::MAX`; 0 for
/// the others, which have few.
fn value_size(value: Value<'_>) -> usize
    ensures { result ≤ length (value_text value.entry) }
{
    match value {
        Value::Text(text) => quoted_size(text),
        Value::Bytes(bytes) => bytes_size(bytes),
        _ => 0,
    }
}

fn line_size(path: &str, value: Value<'_>) -> usize
    ensures { result ≤ length (value_line path.now (value_text value.entry)) }
{
    path.len()
        .saturating_add(3)
        .saturating_add(value_size(value))
}

/// `size` is the room that the string begins with.
fn value_string(
    alloc: Global,
    path: &str,
    value: Value<'_>,
    size: usize,
) -> Result<String, AllocError>
    ensures { IfOk result (λ text. string_bytes text
        ≡ value_line path.now (value_text value.entry)) }
{
    let mut text = String::with_capacity(alloc, size)?;
    text.push_str(path)?;
    text.push_str(" = ")?;
    push_value(alloc, &mut text, value)?;
    Ok(text)
}

fn named_text(alloc: Global, value: Value<'_>, names: &str) -> Result<String, AllocError>
    ensures { IfOk result (λ text. string_bytes text ≡ value_text value.entry ++ names.now) }
{
    let mut text = String::new(alloc);
    push_value(alloc, &mut text, value)?;
    text.push_str(names)?;
    Ok(text)
}

fn unknown_text(alloc: Global, value: Value<'_>) -> Result<String, AllocError>
    ensures { IfOk result (λ text. string_bytes text
        ≡ unknown_enum_text (value_text value.entry)) }
{
    let mut text = String::from_str(alloc, "Unknown enum (tag = ")?;
    push_value(alloc, &mut text, value)?;
    text.push_str(")")?;
    Ok(text)
}

fn message(alloc: Global, kind: ErrorKind) -> Result<String, AllocError>
    ensures { IfOk result (λ text. string_bytes text ≡ fault_text kind) }
{
    match kind {
        ErrorKind::InvalidUtf8 { .. } => String::from_str(alloc, "Invalid utf-8"),
        kind => format!(in alloc; "{kind}"),
    }
}

fn tagged_text(alloc: Global, tag: u8, name: &str) -> Result<String, AllocError>
    ensures { IfOk result (λ text. string_bytes text ≡ decimal tag ++ variant_text name.now) }
{
    let mut text = format!(in alloc; "{tag}")?;
    if !name.is_empty() {
        text.push_str(" (")?;
        text.push_str(name)?;
        text.push_str(")")?;
    }
    Ok(text)
}

/// `size` is the room that the string begins with.
fn joined(
    alloc: Global,
    path: &str,
    middle: &str,
    rest: &str,
    size: usize,
) -> Result<String, AllocError>
    ensures { IfOk result (λ text. string_bytes text ≡ path.now ++ (middle.now ++ rest.now)) }
{
    let mut text = String::with_capacity(alloc, size)?;
    text.push_str(path)?;
    text.push_str(middle)?;
    text.push_str(rest)?;
    Ok(text)
}

fn room_after(room: Option<usize>, size: usize) -> Option<usize>
    requires { Fits room size }
    ensures { result ≡ left_in room size }
{
    match room {
        Some(room) => Some(room - size),
        None => None,
    }
}

#[tactic(auto, using(crate::proofs::Fed::fed_refused))]
impl<L: Lines> LineSink<L> {
    pub fn new(alloc: Global, lines: L, budget: usize, room: Option<usize>) -> LineSink<L>
        ensures { L.takes lines [] lines → Shows L.takes L.breaks lines result (begin budget room) }
    {
        LineSink {
            alloc,
            lines,
            left: budget,
            room,
            end: End::Whole,
        }
    }

    pub fn is_stopped(&self) -> bool
        ensures { IsStopped self.now result }
    {
        !matches!(self.end, End::Whole)
    }

    /// Whether a line of at least so many bytes may be taken. If not, the walk goes on as if it had
    /// been put.
    fn may_make(&mut self, size: usize) -> bool
        ensures { MayMake L.takes L.breaks self.old size result self.new }
    {
        if self.is_stopped() {
            return false;
        }
        if self.left == 0 {
            self.end = End::TooManyLines;
            return false;
        }
        match self.room {
            Some(room) if room < size => {
                self.end = End::TooManyBytes;
                false
            }
            _ => true,
        }
    }

    fn take(&mut self, line: Line) -> Result<(), SinkError>
        requires { IsOpen self.old (cost (event_of line)) }
        ensures { Feeds L.takes L.breaks self.old (event_of line ∷ []) result self.new }
    {
        self.left -= 1;
        self.room = room_after(self.room, line.size());
        self.lines.put(line)
    }

    fn put(&mut self, text: String) -> Result<(), SinkError>
        ensures { Feeds L.takes L.breaks self.old (line (string_bytes text) ∷ []) result self.new }
    {
        if !self.may_make(text.len()) {
            return Ok(());
        }
        self.take(Line::Text(text))
    }

    /// The text is made only if it is taken, and at once in its size.
    fn put_joined(&mut self, path: &str, middle: &str, rest: &str) -> Result<(), SinkError>
        ensures { Feeds L.takes L.breaks self.old
            (line (path.now ++ (middle.now ++ rest.now)) ∷ []) result self.new }
    {
        let size = path
            .len()
            .saturating_add(middle.len())
            .saturating_add(rest.len());
        if !self.may_make(size) {
            return Ok(());
        }
        let text = joined(self.alloc, path, middle, rest, size)?;
        self.put(text)
    }

    fn put_faulty(&mut self, text: String) -> Result<(), SinkError>
        ensures { Feeds L.takes L.breaks self.old (faulty (string_bytes text) ∷ [])
            result self.new }
    {
        if !self.may_make(text.len()) {
            return Ok(());
        }
        self.take(Line::Fault(text))
    }

    /// The text is made only if it is taken.
    fn put_error(&mut self, path: &str, error: &str) -> Result<(), SinkError>
        ensures { Feeds L.takes L.breaks self.old
            (faulty (fault_line path.now error.now) ∷ []) result self.new }
    {
        let size = path.len().saturating_add(3).saturating_add(error.len());
        if !self.may_make(size) {
            return Ok(());
        }
        let text = joined(self.alloc, path, " ! ", error, size)?;
        self.put_faulty(text)
    }

    pub fn put_float(&mut self, path: &str, bits: Bits) -> Result<(), SinkError>
        ensures { Feeds L.takes L.breaks self.old (float path.now bits ∷ []) result self.new }
    {
        if !self.may_make(path.len() + 35) {
            return Ok(());
        }
        let path = String::from_str(self.alloc, path)?;
        self.take(Line::Float(path, bits))
    }

    pub fn put_struct(&mut self, path: &str, name: &str) -> Result<(), SinkError>
        ensures { Feeds L.takes L.breaks self.old
            (line (struct_line path.now name.now) ∷ []) result self.new }
    {
        self.put_joined(path, ": struct ", name)
    }

    pub fn put_deep(&mut self)
        ensures { Does L.takes L.breaks self.old (deep ∷ []) self.new }
    {
        if let End::Whole = self.end {
            self.end = End::TooDeep;
        }
    }

    pub fn put_table(&mut self, path: &str, name: &str) -> Result<(), SinkError>
        ensures { Feeds L.takes L.breaks self.old
            (line (table_line path.now name.now) ∷ []) result self.new }
    {
        self.put_joined(path, ": table ", name)
    }

    pub fn put_list(&mut self, path: &str, count: usize) -> Result<(), SinkError>
        ensures { Feeds L.takes L.breaks self.old
            (line (list_line path.now count) ∷ []) result self.new }
    {
        let count = format!(in self.alloc; "{count}")?;
        self.put_joined(path, ": list ", count.as_str())
    }

    pub fn put_union(&mut self, path: &str, tag: u8, name: &str) -> Result<(), SinkError>
        ensures { Feeds L.takes L.breaks self.old
            (line (union_line path.now tag name.now) ∷ []) result self.new }
    {
        let rest = tagged_text(self.alloc, tag, name)?;
        self.put_joined(path, ": union ", rest.as_str())
    }

    pub fn put_unions(&mut self, path: &str, count: usize) -> Result<(), SinkError>
        ensures { Feeds L.takes L.breaks self.old
            (line (unions_line path.now count) ∷ []) result self.new }
    {
        let count = format!(in self.alloc; "{count}")?;
        self.put_joined(path, ": unions ", count.as_str())
    }

    /// The text is made only if it is taken, and at once in its size.
    pub fn put_value(&mut self, path: &str, value: Value<'_>) -> Result<(), SinkError>
        ensures { Feeds L.takes L.breaks self.old
            (line (value_line path.now (value_text value.entry)) ∷ []) result self.new }
    {
        let size = line_size(path, value);
        if !self.may_make(size) {
            return Ok(());
        }
        let text = value_string(self.alloc, path, value, size)?;
        self.put(text)
    }

    /// `value` is a number.
    pub fn put_named(&mut self, path: &str, value: Value<'_>, names: &str) -> Result<(), SinkError>
        ensures { Feeds L.takes L.breaks self.old
            (line (value_line path.now (value_text value.entry ++ names.now)) ∷ [])
            result self.new }
    {
        let rest = named_text(self.alloc, value, names)?;
        self.put_joined(path, " = ", rest.as_str())
    }

    /// `value` is a number that no value of its enum has.
    pub fn put_unknown(&mut self, path: &str, value: Value<'_>) -> Result<(), SinkError>
        ensures { Feeds L.takes L.breaks self.old
            (faulty (fault_line path.now (unknown_enum_text (value_text value.entry))) ∷ [])
            result self.new }
    {
        let error = unknown_text(self.alloc, value)?;
        self.put_error(path, error.as_str())
    }

    /// `tag` is that of a union without a value.
    pub fn put_lone_tag(&mut self, path: &str, tag: u8) -> Result<(), SinkError>
        ensures { Feeds L.takes L.breaks self.old
            (faulty (fault_line path.now (lone_tag_text tag)) ∷ []) result self.new }
    {
        let error = format!(in self.alloc; "Union without a value (tag = {tag})")?;
        self.put_error(path, error.as_str())
    }

    pub fn put_fault(&mut self, path: &str, kind: ErrorKind) -> Result<(), SinkError>
        ensures { Feeds L.takes L.breaks self.old
            (faulty (fault_line path.now (fault_text kind)) ∷ []) result self.new }
    {
        let error = message(self.alloc, kind)?;
        self.put_error(path, error.as_str())
    }
}
