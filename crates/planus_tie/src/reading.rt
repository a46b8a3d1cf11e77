//! What is read of a text without layout.

ghost use Rattle.std.specs.Prelude.{◌≡◌, IfOk};
ghost use Rattle.std.specs.Option.{option_copied};
ghost use Rattle.planus_tie.specs.Reading as spec;

use crate::pieces::push_str;
use std::alloc::{AllocError, Global};

pub(crate) fn after<'a>(mark: &[u8], text: &'a [u8]) -> Option<&'a [u8]>
    ensures { option_copied result ≡ spec.after mark.now text.now }
{
    let mut rest = text;
    'bytes: while let Some((_, next)) = rest.split_first() {
        if rest.starts_with(mark) {
            return Some(rest.split_at(mark.len()).1);
        }
        rest = next;
    }
    None
}

/// Returns how a method of this name begins.
pub(crate) fn method_mark(alloc: Global, name: &[u8]) -> Result<Vec<u8>, AllocError>
    ensures { IfOk result (λ mark. mark.items ≡ spec.method_mark name.now) }
{
    let mut out = Vec::new(alloc);
    push_str(&mut out, "pub fn ")?;
    out.extend_from_slice(name)?;
    push_str(&mut out, "(&self)->")?;
    Ok(out)
}

pub(crate) fn begins(text: Option<&[u8]>, wanted: &[u8]) -> bool
    ensures { result ≡ spec.begins (option_copied text.entry) wanted.now }
{
    match text {
        Some(text) => text.starts_with(wanted),
        None => false,
    }
}

/// Returns what follows the first place of a mark in a text, where there is one.
pub(crate) fn after_in<'a>(mark: &[u8], text: Option<&'a [u8]>) -> Option<&'a [u8]>
    ensures { option_copied result ≡ spec.after_in mark.now (option_copied text.entry) }
{
    match text {
        Some(text) => after(mark, text),
        None => None,
    }
}

pub(crate) fn body_of<'a>(mark: &[u8], text: &'a [u8]) -> Option<&'a [u8]>
    ensures { option_copied result ≡ spec.body_of mark.now text.now }
{
    after_in(b"}{", after(mark, text))
}

pub(crate) fn list_in(text: &[u8]) -> Option<&[u8]>
    ensures { option_copied result ≡ spec.list_in text.now }
{
    after(b"let lines=fields![", text)
}

pub(crate) fn if_begins<'a>(text: Option<&'a [u8]>, wanted: &[u8]) -> Option<&'a [u8]>
    ensures { option_copied result ≡ spec.if_begins (option_copied text.entry) wanted.now }
{
    if begins(text, wanted) { text } else { None }
}
