//! Whether a text has the implementations by which a table is looked up by its key.

ghost use Rattle.std.specs.Prelude.{◌≡◌, IfOk, Some, map};
ghost use Rattle.std.specs.Option.{option_copied};
ghost use Rattle.planus_schema.specs.Plans.{line_of};
ghost use Rattle.planus_tie.specs.Keys as spec;

use crate::naming::Naming;
use crate::pieces::push_str;
use crate::ranks::is_judged;
use crate::reading::{after, after_in, if_begins};
use planus_schema::{Line, TableField};
use std::alloc::{AllocError, Global};

fn view_ending(views: Option<&[bool]>) -> &'static str
    ensures { result.now ≡ spec.view_ending (option_copied views.entry) }
{
    match views {
        None => "Ref",
        Some(_) => "View",
    }
}

fn is_wrapped(views: Option<&[bool]>, field: &TableField) -> bool
    ensures { result ≡ spec.is_wrapped (option_copied views.entry) field.now }
{
    match views {
        None => false,
        Some(totals) => !is_judged(totals, field),
    }
}

fn key_head(alloc: Global, name: &[u8], views: Option<&[bool]>) -> Result<Vec<u8>, AllocError>
    ensures { IfOk result (λ text. text.items ≡ spec.key_head name.now
        (option_copied views.entry)) }
{
    let mut out = Vec::from_slice(alloc, name)?;
    push_str(&mut out, view_ending(views))?;
    push_str(&mut out, "<'a>>for ")?;
    out.extend_from_slice(name)?;
    push_str(&mut out, "{")?;
    Ok(out)
}

fn key_call(alloc: Global, name: &[u8], wrapped: bool) -> Result<Vec<u8>, AllocError>
    ensures { IfOk result (λ text. text.items ≡ spec.key_call name.now wrapped) }
{
    let mut out = Vec::new(alloc);
    push_str(&mut out, if wrapped { "Ok(view." } else { "view." })?;
    out.extend_from_slice(name)?;
    push_str(&mut out, if wrapped { "())}}" } else { "()}}" })?;
    Ok(out)
}

fn key_body(text: Option<&[u8]>) -> Option<&[u8]>
    ensures { option_copied result ≡ spec.key_body (option_copied text.entry) }
{
    after_in(b"{", after_in(b"fn key(&self,view:", text))
}

fn key_in<'a>(
    alloc: Global,
    naming: &Naming<'_>,
    views: Option<&[bool]>,
    line: &Line<'_>,
    text: &'a [u8],
) -> Result<Option<&'a [u8]>, AllocError>
    ensures { IfOk result (λ rest. option_copied rest
        ≡ spec.key_in naming.now (option_copied views.entry) (line_of line.now) text.now) }
{
    let head = key_head(alloc, naming.type_of(line.table), views)?;
    let name = naming.member_of(line.table, line.place);
    let call = key_call(alloc, name, is_wrapped(views, line.field))?;
    let own = if_begins(after(b"planus_keys::KeyOf<", text), &head);
    Ok(if_begins(key_body(own), &call))
}

fn key_after<'a>(
    alloc: Global,
    naming: &Naming<'_>,
    views: Option<&[bool]>,
    line: &Line<'_>,
    text: &'a [u8],
) -> Result<Option<&'a [u8]>, AllocError>
    ensures { IfOk result (λ rest. option_copied rest
        ≡ spec.key_after naming.now (option_copied views.entry) (line_of line.now) text.now) }
{
    if line.field.key {
        key_in(alloc, naming, views, line, text)
    } else {
        Ok(Some(text))
    }
}

/// Returns whether a text without layout has the implementation of each of these fields that is a
/// key, and no other: of the checked views, or of the verified ones, with what is known of the
/// declarations, whether any bytes are a value.
pub(crate) fn have_keys(
    alloc: Global,
    naming: &Naming<'_>,
    views: Option<&[bool]>,
    lines: &[Line<'_>],
    text: &[u8],
) -> Result<bool, AllocError>
    ensures { IfOk result (λ b. b ≡ spec.have_keys naming.now (option_copied views.entry)
        (Some text.now)
        (map line_of lines.now)) }
{
    let mut rest = text;
    for line in lines {
        match key_after(alloc, naming, views, line, rest)? {
            Some(found) => rest = found,
            None => return Ok(false),
        }
    }
    Ok(after(b"planus_keys::KeyOf<", rest).is_none())
}
