//! Whether the files of a schema mean something.

ghost use Rattle.std.specs.Prelude.{◌≡◌, ◌<◌, length, map, IfOk, IfErr, OnOk};
ghost use Rattle.std.specs.List.{All};
ghost use Rattle.planus_resolve.specs.Names.{head_of};
ghost use Rattle.planus_cli.specs.Checks as spec;
ghost use Rattle.planus_cli.specs.SchemaTexts.{HasTokens};

use crate::fault_texts::message_text;
use crate::placed::place_of;
use crate::report::report;
use crate::streams::{CallError, write_out};
use planus_resolve::{Fault, Head, ResolveError, Schema, heads_of, resolve};
use planus_syntax::Declaration;
use std::alloc::{AllocError, Global};
use std::io::Write;

/// A file's text, and its name in reports.
#[derive(Drop)]
pub struct File {
    pub name: String,
    pub text: Vec<u8>,
}

fn ends_word(b: u8) -> bool
    ensures { result ≡ spec.ends_word b }
{
    !matches!(b, b'A'..=b'Z' | b'a'..=b'z' | b'0'..=b'9' | b'_' | b'.')
}

fn unquoted(bytes: &[u8]) -> &[u8]
    ensures { result.now ≡ spec.unquoted bytes.now }
{
    match bytes.split_first() {
        Some((b'"' | b'\'', rest)) => rest,
        _ => bytes,
    }
}

fn word_of(bytes: &[u8]) -> &[u8]
    ensures { result.now ≡ spec.word_of bytes.now }
{
    let mut n = 0;
    'bytes: while n < bytes.len() && !ends_word(bytes[n]) {
        n += 1;
    }
    &bytes[..n]
}

fn fault_report(
    alloc: Global,
    heads: &[Head],
    file: &File,
    fault: Fault,
) -> Result<Vec<u8>, AllocError>
    requires { HasTokens file.now.text.items }
    ensures { IfOk result (λ out. spec.IsReport (map head_of heads.now) file.now fault out.items) }
{
    let at = place_of(alloc, &file.text, fault.left)?;
    let word = word_of(unquoted(&file.text[at..]));
    let message = message_text(alloc, heads, fault.kind, word)?;
    report(alloc, file.name.as_str(), &file.text, at, &message)
}

fn put_report(
    alloc: Global,
    out: &mut Vec<u8>,
    heads: &[Head],
    files: &[File],
    fault: Fault,
) -> Result<(), AllocError>
    requires within { fault.file < length files.now }
    requires tokens { All (λ f. HasTokens f.text.items) files.now }
    ensures { OnOk result (spec.IsReportAdded (map head_of heads.now) files.now fault
        out.old.items out.new.items) }
{
    let report = fault_report(alloc, heads, &files[fault.file], fault)?;
    out.extend_from_slice(&report)?;
    Ok(())
}

fn reports(
    alloc: Global,
    heads: &[Head],
    files: &[File],
    faults: &[Fault],
) -> Result<Vec<u8>, AllocError>
    requires within { All (λ f. f.file < length files.now) faults.now }
    requires tokens { All (λ f. HasTokens f.text.items) files.now }
    ensures { IfOk result (λ out. spec.AreReports (map head_of heads.now) files.now faults.now
        out.items) }
{
    let mut out = Vec::new(alloc);
    'faults: for fault in faults {
        put_report(alloc, &mut out, heads, files, *fault)?;
    }
    Ok(out)
}

/// Returns what these files mean, or reports their faults. `declarations` are those of `files`, in
/// their order.
///
/// Fails where memory is refused or writing fails.
pub fn resolve_or_report<X: Write>(
    alloc: Global,
    files: &[File],
    declarations: &[Vec<Declaration>],
    errors: &mut X,
) -> Result<Option<Schema>, CallError>
    requires { spec.AreSpelled files.now declarations.now }
    ensures resolved { IfOk result (λ found. spec.ResolvesFiles files.now declarations.now found
        (X.contents errors.old) (X.contents errors.new)) }
    ensures failed { IfErr result (λ error. spec.FailsResolving files.now declarations.now error
        (X.contents errors.old) (X.contents errors.new)) }
{
    match resolve(alloc, declarations) {
        Ok(schema) => Ok(Some(schema)),
        Err(ResolveError::OutOfMemory) => Err(CallError::OutOfMemory),
        Err(ResolveError::Faults(faults)) => {
            let heads = heads_of(alloc, declarations)?;
            let out = reports(alloc, &heads, files, &faults)?;
            write_out(errors, &out)?;
            Ok(None)
        }
    }
}
