//! The files of a printed crate.

ghost use Rattle.std.specs.Prelude.{◌≡◌, codes, IfOk, IsTrue, None};
ghost use Rattle.std.specs.Option.{option_copied};
ghost use Rattle.planus_tie.specs.Files as spec;

use crate::enums::is_enum_tied;
use crate::flags::is_flags_tied;
use crate::naming::Naming;
use crate::pieces::push_str;
use crate::ranks::{is_table, is_union_body, ranks_of, totals_of};
use crate::roots::{is_identifier_tied, is_root_tied};
use crate::schema::is_schema_tied;
use crate::structs::is_struct_tied;
use crate::tie::is_table_tied;
use crate::union_views::is_union_view_tied;
use crate::unions::is_union_tied;
use crate::views::is_view_tied;
use planus_schema::{Body, Declared, Statements};
use std::alloc::{AllocError, Global};

/// A file: its path in the crate's folder, and its text.
#[derive(Drop)]
pub struct PrintedFile {
    pub path: String,
    pub text: String,
}

fn path_of(alloc: Global, naming: &Naming<'_>, index: usize) -> Result<Vec<u8>, AllocError>
    ensures { IfOk result (λ path. path.items ≡ spec.path_of naming.now index) }
{
    let mut out = Vec::new(alloc);
    push_str(&mut out, "src/")?;
    out.extend_from_slice(naming.module_of(index))?;
    push_str(&mut out, ".rt")?;
    Ok(out)
}

fn newer<'a>(path: &[u8], found: Option<&'a [u8]>, file: &'a PrintedFile) -> Option<&'a [u8]>
    ensures { option_copied result ≡ spec.newer path.now (option_copied found.entry) file.now }
{
    if file.path.as_bytes() == path {
        Some(file.text.as_bytes())
    } else {
        found
    }
}

fn text_at<'a>(files: &'a [PrintedFile], path: &[u8]) -> Option<&'a [u8]>
    ensures { option_copied result ≡ spec.text_at path.now files.now }
{
    let mut found = None;
    'files: for file in files {
        found = newer(path, found, file);
    }
    found
}

fn is_text_tied(
    alloc: Global,
    naming: &Naming<'_>,
    index: usize,
    body: &Body,
    text: &[u8],
) -> Result<bool, AllocError>
    ensures { IfOk result (λ b. IsTrue b → spec.IsTextTied naming.now index body.now text.now) }
{
    match body {
        Body::Table(one) => is_table_tied(alloc, naming, index, one, text),
        Body::Enum(one) if one.flags => is_flags_tied(alloc, naming, index, one, text),
        Body::Enum(one) => is_enum_tied(alloc, naming, index, one, text),
        Body::Struct(one) => is_struct_tied(alloc, naming, index, one, text),
        Body::Union(one) => is_union_tied(alloc, naming, index, one, text),
    }
}

fn is_body_tied(
    alloc: Global,
    naming: &Naming<'_>,
    files: &[PrintedFile],
    index: usize,
    body: &Body,
) -> Result<bool, AllocError>
    ensures { IfOk result (λ b. IsTrue b → spec.IsBodyTied naming.now files.now index body.now) }
{
    let path = path_of(alloc, naming, index)?;
    match text_at(files, &path) {
        Some(text) => is_text_tied(alloc, naming, index, body, text),
        None => Ok(false),
    }
}

/// Returns whether the file of each declaration is the declaration's.
fn are_declared_tied(
    alloc: Global,
    naming: &Naming<'_>,
    files: &[PrintedFile],
) -> Result<bool, AllocError>
    ensures { IfOk result (λ b. IsTrue b
        → spec.AreDeclaredTied naming.now files.now 0 naming.now.declared.now) }
{
    let mut index = 0;
    'declared: for one in naming.declared {
        if !is_body_tied(alloc, naming, files, index, &one.body)? {
            return Ok(false);
        }
        index += 1;
    }
    Ok(true)
}

fn view_path_of(alloc: Global, naming: &Naming<'_>, index: usize) -> Result<Vec<u8>, AllocError>
    ensures { IfOk result (λ path. path.items ≡ spec.view_path_of naming.now index) }
{
    let mut out = Vec::new(alloc);
    push_str(&mut out, "src/verified/")?;
    out.extend_from_slice(naming.module_of(index))?;
    push_str(&mut out, ".rt")?;
    Ok(out)
}

fn is_text_view_tied(
    alloc: Global,
    naming: &Naming<'_>,
    ranks: &[usize],
    totals: &[bool],
    index: usize,
    body: &Body,
    text: &[u8],
) -> Result<bool, AllocError>
    ensures { IfOk result (λ b. IsTrue b → spec.IsTextViewTied naming.now ranks.now totals.now index
        body.now text.now) }
{
    match body {
        Body::Table(one) => is_view_tied(alloc, naming, ranks, totals, index, one, text),
        Body::Union(one) => is_union_view_tied(alloc, naming, ranks, index, one, text),
        _ => Ok(true),
    }
}

fn is_view_text_tied(
    alloc: Global,
    naming: &Naming<'_>,
    ranks: &[usize],
    totals: &[bool],
    index: usize,
    body: &Body,
    text: Option<&[u8]>,
) -> Result<bool, AllocError>
    ensures { IfOk result (λ b. IsTrue b → spec.IsViewTextTied naming.now ranks.now totals.now index
        body.now (option_copied text.entry)) }
{
    match text {
        Some(text) => is_text_view_tied(alloc, naming, ranks, totals, index, body, text),
        None => Ok(false),
    }
}

fn has_view(body: &Body) -> bool
    ensures { result ≡ spec.has_view body.now }
{
    is_table(body) || is_union_body(body)
}

#[tactic(auto, unfolding(crate::specs::Files::IsBodyViewTied))]
fn is_body_view_tied(
    alloc: Global,
    naming: &Naming<'_>,
    ranks: &[usize],
    totals: &[bool],
    files: &[PrintedFile],
    index: usize,
    body: &Body,
) -> Result<bool, AllocError>
    ensures { IfOk result (λ b. IsTrue b → spec.IsBodyViewTied naming.now ranks.now totals.now
        files.now index body.now) }
{
    if !has_view(body) {
        return Ok(true);
    }
    let path = view_path_of(alloc, naming, index)?;
    let text = text_at(files, &path);
    is_view_text_tied(alloc, naming, ranks, totals, index, body, text)
}

/// Returns whether the file of each view is the declaration's.
fn are_views_tied(
    alloc: Global,
    naming: &Naming<'_>,
    ranks: &[usize],
    totals: &[bool],
    files: &[PrintedFile],
) -> Result<bool, AllocError>
    ensures { IfOk result (λ b. IsTrue b → spec.AreViewsTied naming.now ranks.now totals.now
        files.now 0 naming.now.declared.now) }
{
    let mut index = 0;
    'declared: for one in naming.declared {
        if !is_body_view_tied(alloc, naming, ranks, totals, files, index, &one.body)? {
            return Ok(false);
        }
        index += 1;
    }
    Ok(true)
}

fn has_tables(declared: &[Declared]) -> bool
    ensures { result ≡ spec.has_tables declared.now }
{
    'declared: for one in declared {
        if is_table(&one.body) {
            return true;
        }
    }
    false
}

fn has_schema(
    alloc: Global,
    naming: &Naming<'_>,
    ranks: &[usize],
    files: &[PrintedFile],
) -> Result<bool, AllocError>
    ensures { IfOk result (λ b. IsTrue b → spec.HasSchema naming.now ranks.now files.now) }
{
    if !has_tables(naming.declared) {
        return Ok(true);
    }
    match text_at(files, b"src/verified.rt") {
        Some(text) => is_schema_tied(alloc, naming, ranks, text),
        None => Ok(false),
    }
}

fn are_verified_tied(
    alloc: Global,
    naming: &Naming<'_>,
    files: &[PrintedFile],
) -> Result<bool, AllocError>
    ensures { IfOk result (λ b. IsTrue b → spec.AreVerifiedTied naming.now files.now) }
{
    let ranks = ranks_of(alloc, naming.declared)?;
    let totals = totals_of(alloc, naming.declared)?;
    if !are_views_tied(alloc, naming, &ranks, &totals, files)? {
        return Ok(false);
    }
    has_schema(alloc, naming, &ranks, files)
}

fn identifier_of(said: &Statements) -> Option<&[u8]>
    ensures { option_copied result ≡ spec.identifier_of said.now }
{
    match &said.identifier {
        Some(identifier) => Some(identifier.as_slice()),
        None => None,
    }
}

fn is_root_text_tied(
    alloc: Global,
    naming: &Naming<'_>,
    verified: bool,
    identified: bool,
    index: usize,
    text: Option<&[u8]>,
) -> Result<bool, AllocError>
    ensures { IfOk result (λ b. IsTrue b → spec.IsRootTextTied verified identified naming.now index
        (option_copied text.entry)) }
{
    match text {
        Some(text) => is_root_tied(alloc, naming, verified, identified, index, text),
        None => Ok(false),
    }
}

fn is_root_file_tied(
    alloc: Global,
    naming: &Naming<'_>,
    verified: bool,
    identified: bool,
    root: Option<usize>,
    text: Option<&[u8]>,
) -> Result<bool, AllocError>
    ensures { IfOk result (λ b. IsTrue b → spec.IsRootFileTied verified identified naming.now root
        (option_copied text.entry)) }
{
    match root {
        Some(index) => is_root_text_tied(alloc, naming, verified, identified, index, text),
        None => Ok(text.is_none()),
    }
}

fn is_library_tied(
    alloc: Global,
    identifier: Option<&[u8]>,
    text: Option<&[u8]>,
) -> Result<bool, AllocError>
    ensures { IfOk result (λ b. IsTrue b → spec.IsLibraryTied (option_copied identifier.entry)
        (option_copied text.entry)) }
{
    match text {
        Some(text) => is_identifier_tied(alloc, identifier, text),
        None => Ok(false),
    }
}

fn has_root(
    alloc: Global,
    naming: &Naming<'_>,
    said: &Statements,
    files: &[PrintedFile],
    verified: bool,
) -> Result<bool, AllocError>
    ensures { IfOk result (λ b. IsTrue b → spec.IsRootFileTied verified
        (spec.has_identifier said.now) naming.now said.now.root
        (spec.text_at (codes "src/root.rt") files.now)) }
{
    let identified = said.identifier.is_some();
    let text = text_at(files, b"src/root.rt");
    is_root_file_tied(alloc, naming, verified, identified, said.root, text)
}

fn has_library(alloc: Global, said: &Statements, files: &[PrintedFile]) -> Result<bool, AllocError>
    ensures { IfOk result (λ b. IsTrue b → spec.IsLibraryTied (spec.identifier_of said.now)
        (spec.text_at (codes "src/lib.rt") files.now)) }
{
    is_library_tied(alloc, identifier_of(said), text_at(files, b"src/lib.rt"))
}

/// Returns whether the file of each declaration is the declaration's, and where verified reading is
/// printed, that of each view of a table or a union is the declaration's, and the schema's value is the
/// schema's; and whether there are the root and the file identifier of the last statements, or none.
pub fn are_tied(
    alloc: Global,
    naming: &Naming<'_>,
    said: &Statements,
    files: &[PrintedFile],
    verified: bool,
) -> Result<bool, AllocError>
    ensures { IfOk result (λ b. IsTrue b → spec.AreTied verified said.now naming.now files.now) }
{
    if !are_declared_tied(alloc, naming, files)? {
        return Ok(false);
    }
    if !has_root(alloc, naming, said, files, verified)? || !has_library(alloc, said, files)? {
        return Ok(false);
    }
    if !verified {
        return Ok(true);
    }
    are_verified_tied(alloc, naming, files)
}
