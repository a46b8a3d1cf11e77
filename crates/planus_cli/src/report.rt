//! The report of a fault: its place, its message, its line, a mark.

ghost use Rattle.std.specs.Prelude.{◌≡◌, ◌≤◌, ◌++◌, count_by, length, IfOk, OnOk};
ghost use Rattle.std.specs.List.{flat_map};
ghost use Rattle.std.specs.String.{string_bytes};
ghost use Rattle.planus_cli.specs.Reports as spec;
ghost use Rattle.planus_cli.specs.Reports.{front_shown};

use crate::shown::put_shown;
use std::alloc::{AllocError, Global};

/// How many bytes of a line are shown on either side of a place.
const MOST_BESIDE: usize = 80;

fn is_feed(b: u8) -> bool
    ensures { result ≡ spec.is_feed b }
{
    b == b'\n'
}

/// The number of line feeds, and the last line.
pub(crate) fn last_line(bytes: &[u8]) -> (usize, &[u8])
    ensures feeds { result.0 ≡ count_by spec.is_feed bytes.now }
    ensures line { result.1.now ≡ spec.last_line bytes.now }
    ensures bound { result.0 ≤ length bytes.now }
    ensures within { length result.1.now ≤ length bytes.now }
{
    let mut feeds = 0;
    let mut front = bytes;
    let mut rest = bytes;
    'bytes: while let Some((first, after)) = rest.split_first() {
        if is_feed(*first) {
            feeds += 1;
            front = after;
        }
        rest = after;
    }
    (feeds, front)
}

fn ends_line(b: u8) -> bool
    ensures { result ≡ spec.ends_line b }
{
    b == b'\n' || b == b'\r'
}

fn first_line(bytes: &[u8]) -> &[u8]
    ensures { result.now ≡ spec.first_line bytes.now }
{
    let mut n = 0;
    'bytes: while n < bytes.len() && !ends_line(bytes[n]) {
        n += 1;
    }
    &bytes[..n]
}

fn put_front(out: &mut Vec<u8>, front: &[u8]) -> Result<(), AllocError>
    ensures { OnOk result (out.new.items ≡ out.old.items ++ front_shown front.now) }
{
    if front.len() > MOST_BESIDE {
        out.extend_from_slice(b"...")?;
        let (_, beside) = front.split_at(front.len() - MOST_BESIDE);
        put_shown(out, beside)
    } else {
        put_shown(out, front)
    }
}

pub(crate) fn put_rest(out: &mut Vec<u8>, rest: &[u8]) -> Result<(), AllocError>
    ensures { OnOk result (out.new.items ≡ out.old.items ++ spec.rest_shown rest.now) }
{
    if rest.len() > MOST_BESIDE {
        let (beside, _) = rest.split_at(MOST_BESIDE);
        put_shown(out, beside)?;
        out.extend_from_slice(b"...")?;
        Ok(())
    } else {
        put_shown(out, rest)
    }
}

fn put_space(out: &mut Vec<u8>, b: u8) -> Result<(), AllocError>
    ensures { OnOk result (out.new.items ≡ out.old.items ++ spec.below b) }
{
    match b {
        b'\t' => out.push(b'\t')?,
        128..=191 => {}
        _ => out.push(b' ')?,
    }
    Ok(())
}

fn put_below(out: &mut Vec<u8>, bytes: &[u8]) -> Result<(), AllocError>
    ensures { OnOk result (out.new.items ≡ out.old.items ++ flat_map spec.below bytes.now) }
{
    for b in bytes {
        put_space(out, *b)?;
    }
    Ok(())
}

fn head(alloc: Global, name: &str, before: &[u8]) -> Result<String, AllocError>
    ensures { IfOk result (λ text. string_bytes text ≡ spec.place_text name.now before.now) }
{
    let (feeds, front) = last_line(before);
    let line = feeds + 1;
    let column = front.len() + 1;
    format!(in alloc; "{name}:{line}:{column}: ")
}

fn marked(alloc: Global, front: &[u8], rest: &[u8]) -> Result<Vec<u8>, AllocError>
    ensures { IfOk result (λ out. out.items ≡ spec.marked_text front.now rest.now) }
{
    let mut front_shown = Vec::new(alloc);
    put_front(&mut front_shown, front)?;
    let mut out = Vec::from_slice(alloc, &front_shown)?;
    put_rest(&mut out, first_line(rest))?;
    out.push(b'\n')?;
    put_below(&mut out, &front_shown)?;
    out.extend_from_slice(b"^\n")?;
    Ok(out)
}

/// Returns the report of a fault in this text, at the byte of index `at`.
pub fn report(
    alloc: Global,
    name: &str,
    text: &[u8],
    at: usize,
    message: &[u8],
) -> Result<Vec<u8>, AllocError>
    requires { at ≤ length text.now }
    ensures { IfOk result (λ out. out.items
        ≡ spec.report_text name.now text.now at message.now) }
{
    let (before, rest) = text.split_at(at);
    let head = head(alloc, name, before)?;
    let marked = marked(alloc, last_line(before).1, rest)?;
    let mut out = Vec::new(alloc);
    put_shown(&mut out, head.as_bytes())?;
    put_shown(&mut out, message)?;
    out.push(b'\n')?;
    out.extend_from_slice(&marked)?;
    Ok(out)
}
