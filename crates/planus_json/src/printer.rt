//! The text so far.
#![tactic(auto, using(crate::proofs::Printing::printed_refused))]

ghost use Rattle.std.specs.Prelude.{◌≡◌, ◌++◌, ◌∷◌, [], IfOk, OnOk, true, false};
ghost use Rattle.std.specs.String.{string_bytes};
ghost use Rattle.std.specs.Fmt.{decimal};
ghost use Rattle.planus_dump.specs.Lines.{lone_tag_text, truth_text};
ghost use Rattle.planus_dump.specs.Tests.{fault_text};
ghost use Rattle.planus_json.specs.Json as spec;
ghost use Rattle.planus_json.specs.Trees.{type_name};
ghost use Rattle.planus_json.specs.inner.Printing.{Prints, IsEnded};
ghost use Rattle.planus_json.specs.inner.Scalars.{scalar_text};

use crate::floats::float_text;
use crate::json_error::{Fault, JsonError};
use crate::readings::Scalar;
use crate::strings::push_string;
use planus::errors::ErrorKind;
use planus_dump::Bits;
use std::alloc::{AllocError, Global};

#[derive(Drop)]
pub struct Printer {
    pub alloc: Global,
    pub text: String,
    /// The greatest number of bytes.
    pub most: usize,
    pub strict: bool,
    /// Whether a bracket was opened just now.
    pub first: bool,
}

fn message(alloc: Global, kind: ErrorKind) -> Result<String, AllocError>
    ensures { IfOk result (λ text. string_bytes text ≡ fault_text kind) }
{
    match kind {
        ErrorKind::InvalidUtf8 { .. } => String::from_str(alloc, "Invalid utf-8"),
        kind => format!(in alloc; "{kind}"),
    }
}

/// Returns a line break with two more spaces, or nothing for nothing.
pub fn inner_line(alloc: Global, line: &str) -> Result<String, AllocError>
    ensures { IfOk result (λ text. string_bytes text ≡ spec.inner line.now) }
{
    if line.is_empty() {
        return Ok(String::new(alloc));
    }
    format!(in alloc; "{line}  ")
}

fn gap(line: &str) -> &'static str
    ensures { result.now ≡ spec.gap line.now }
{
    if line.is_empty() { "" } else { " " }
}

fn comma(first: bool) -> &'static str
    ensures { result.now ≡ spec.comma first }
{
    if first { "" } else { "," }
}

fn ending(first: bool, line: &str) -> &str
    ensures { result.now ≡ spec.ending first line.now }
{
    if first { gap(line) } else { line }
}

impl Printer {
    /// A token is printed: the text may be too long now.
    fn end(&mut self, first: bool) -> Result<(), JsonError>
        ensures { IsEnded self.old first result self.new }
    {
        if self.most < self.text.len() {
            return Err(JsonError::TooLong);
        }
        self.first = first;
        Ok(())
    }

    pub fn put_plain(&mut self, text: &str) -> Result<(), JsonError>
        ensures { Prints self.old (spec.plain text.now ∷ []) result self.new }
    {
        self.text.push_str(text)?;
        self.end(self.first)
    }

    pub fn put_string(&mut self, content: &str) -> Result<(), JsonError>
        ensures { Prints self.old (spec.plain (spec.quoted content.now) ∷ []) result self.new }
    {
        push_string(&mut self.text, content)?;
        self.end(self.first)
    }

    pub fn put_float(&mut self, bits: Bits) -> Result<(), JsonError>
        ensures { Prints self.old (spec.number bits ∷ []) result self.new }
    {
        let text = float_text(self.alloc, bits, self.strict)?;
        self.text.push_str(text.as_str())?;
        self.end(self.first)
    }

    pub fn put_open(&mut self, bracket: &str) -> Result<(), JsonError>
        ensures { (b : _) → bracket.now ≡ b ∷ []
            → Prints self.old (spec.opens b ∷ []) result self.new }
    {
        self.text.push_str(bracket)?;
        self.end(true)
    }

    pub fn put_next(&mut self, line: &str) -> Result<(), JsonError>
        ensures { Prints self.old (spec.begins line.now ∷ []) result self.new }
    {
        self.text.push_str(comma(self.first))?;
        self.text.push_str(line)?;
        self.end(false)
    }

    pub fn put_close(&mut self, line: &str, bracket: &str) -> Result<(), JsonError>
        ensures { (b : _) → bracket.now ≡ b ∷ []
            → Prints self.old (spec.closes line.now b ∷ []) result self.new }
    {
        self.text.push_str(ending(self.first, line))?;
        self.text.push_str(bracket)?;
        self.end(false)
    }

    pub fn put_scalar(&mut self, value: Scalar) -> Result<(), JsonError>
        ensures { Prints self.old (spec.plain (scalar_text value) ∷ []) result self.new }
    {
        let text = match value {
            Scalar::Unsigned(n) => format!(in self.alloc; "{n}")?,
            Scalar::Signed(n) => format!(in self.alloc; "{n}")?,
        };
        self.put_plain(text.as_str())
    }

    pub fn put_truth(&mut self, value: bool) -> Result<(), JsonError>
        ensures { Prints self.old (spec.plain (truth_text value) ∷ []) result self.new }
    {
        self.put_plain(if value { "true" } else { "false" })
    }

    pub fn put_label(&mut self, line: &str, name: &str) -> Result<(), JsonError>
        ensures { Prints self.old (spec.plain (spec.label line.now name.now) ∷ []) result self.new }
    {
        let text = format!(in self.alloc; "\"{name}\":{}", gap(line))?;
        self.put_plain(text.as_str())
    }

    /// Begins a member of an object.
    pub fn put_name(&mut self, line: &str, name: &str) -> Result<(), JsonError>
        ensures { Prints self.old (spec.begins line.now ∷ spec.plain (spec.label line.now name.now)
            ∷ []) result self.new }
    {
        self.put_next(line)?;
        self.put_label(line, name)
    }

    pub fn put_error(&mut self, path: &str, message: String) -> Result<(), JsonError>
        ensures { Prints self.old (spec.fault path.now (string_bytes message) ∷ []) result
            self.new }
    {
        let path = String::from_str(self.alloc, path)?;
        Err(JsonError::Fault(Fault { path, message }))
    }

    pub fn put_fault(&mut self, path: &str, kind: ErrorKind) -> Result<(), JsonError>
        ensures { Prints self.old (spec.fault path.now (fault_text kind) ∷ []) result self.new }
    {
        let message = message(self.alloc, kind)?;
        self.put_error(path, message)
    }

    pub fn put_lone_tag(&mut self, path: &str, tag: u8) -> Result<(), JsonError>
        ensures { Prints self.old (spec.fault path.now (lone_tag_text tag) ∷ []) result self.new }
    {
        let message = format!(in self.alloc; "Union without a value (tag = {tag})")?;
        self.put_error(path, message)
    }

    pub fn put_deep(&mut self) -> Result<(), JsonError>
        ensures { Prints self.old (spec.deep ∷ []) result self.new }
    {
        Err(JsonError::TooDeep)
    }
}
