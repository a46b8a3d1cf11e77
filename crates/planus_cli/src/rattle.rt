//! The command `rattle`: the code of a schema as a crate's files.

ghost use Rattle.std.specs.Prelude.{◌≡◌, ◌≢◌, true, not, is_some, IfOk, OnOk, MatchOption};
ghost use Rattle.std.specs.Io.KnownBytes.{Appends};
ghost use Rattle.planus_cli.specs.Arguments.{words_of};
ghost use Rattle.planus_cli.specs.Loading.{places_of};
ghost use Rattle.planus_cli.specs.Printing as spec;

use crate::arguments::Words;
use crate::file_error::FileError;
use crate::files::{Files, put_file};
use crate::libraries::is_library;
use crate::said::{CLEAN, FAILED, FAULTY, fail};
use crate::sources::schema_at;
use crate::streams::{CallError, GREATEST_TEXT, say};
use planus_codegen::{PrintError, PrintedFile, print_crate, print_foreign};
use planus_resolve::Schema;
use planus_schema::{have_key, is_reserved};
use std::alloc::{AllocError, Global};
use std::io::Write;

const PREFIX_FAULT: &str = "`: it has small letters, digits and `_`, and first a letter";

#[derive(Clone, Copy)]
struct Folder<'a> {
    path: &'a str,
    name: &'a str,
    /// Whether its files are compared and none is written.
    check: bool,
    /// Whether it has verified reading.
    verified: bool,
    /// What the names of its calls for C begin with.
    prefix: Option<&'a str>,
}

fn last_word(path: &str) -> &str {
    match path.rsplit_once('/') {
        Some((_, word)) => word,
        None => path,
    }
}

fn is_small_letter(b: u8) -> bool
    ensures { result ≡ spec.is_small_letter b }
{
    matches!(b, b'a'..=b'z')
}

fn is_in_name(b: u8) -> bool
    ensures { result ≡ spec.is_in_name b }
{
    matches!(b, b'a'..=b'z' | b'0'..=b'9' | b'_')
}

fn is_word(word: &[u8]) -> bool
    ensures { result ≡ spec.is_word word.now }
{
    let Some((first, rest)) = word.split_first() else {
        return false;
    };
    'rest: for b in rest {
        if !is_in_name(*b) {
            return false;
        }
    }
    is_small_letter(*first)
}

fn is_of_planus(word: &[u8]) -> bool
    ensures { result ≡ spec.is_of_planus word.now }
{
    word.starts_with(b"planus")
}

fn is_crate_name(word: &[u8]) -> bool
    ensures { result ≡ spec.is_crate_name word.now }
{
    is_word(word) && !(is_reserved(word) || is_library(word) || is_of_planus(word))
}

/// Returns why no crate can have a name, as it is said after it.
fn name_fault(word: &[u8]) -> &'static str
    ensures { result.now ≡ spec.name_fault word.now }
{
    if is_library(word) {
        "`: a library of Rattle has it; the folder after -o needs another name"
    } else if is_reserved(word) {
        "`: it is a reserved word; the folder after -o needs another name"
    } else if is_of_planus(word) {
        "`: crates that printed code stands on begin so; the folder after -o needs another name"
    } else {
        "`: a name has small letters, digits and `_`, and first a letter"
    }
}

/// Returns the folder of a crate, or reports why no crate can have its last word as its name.
fn folder_or_report<'a, X: Write>(
    alloc: Global,
    path: &'a str,
    words: &Words<'a>,
    errors: &mut X,
) -> Result<Option<Folder<'a>>, CallError>
    ensures { IfOk result (λ found. MatchOption found
        (spec.RefusesName (X.contents errors.old) (X.contents errors.new))
        (λ folder. (spec.is_crate_name folder.name.now ≡ true) × (folder.check ≡ words.now.check)
        × (folder.verified ≡ not words.now.no_verified) × (folder.prefix ≡ words.now.foreign)
        × (X.contents errors.new ≡ X.contents errors.old))) }
{
    let path = path.trim_end_matches('/');
    let name = last_word(path);
    if is_crate_name(name.as_bytes()) {
        return Ok(Some(Folder {
            path,
            name,
            check: words.check,
            verified: !words.no_verified,
            prefix: words.foreign,
        }));
    }
    let why = name_fault(name.as_bytes());
    say(alloc, errors, "no crate can have the name `", name, why)?;
    Ok(None)
}

/// Returns whether a file has these bytes, or why it can't be read.
fn holds<F: Files>(
    files: &F,
    alloc: Global,
    name: &str,
    bytes: &[u8],
) -> Result<Result<bool, FileError>, AllocError>
    ensures { IfOk result (λ found. spec.IsHeld (F.disk files.now) name.now bytes.now found) }
{
    match files.read(alloc, name) {
        Ok(found) if found.len() > GREATEST_TEXT => Ok(Ok(false)),
        Ok(found) if found.as_slice() == bytes => Ok(Ok(true)),
        Ok(_) => Ok(Ok(false)),
        Err(FileError::OutOfMemory) => Err(AllocError),
        Err(error) => Ok(Err(error)),
    }
}

/// Says that a file isn't what is printed, or why it can't be read.
fn tell_other<X: Write>(
    alloc: Global,
    name: &str,
    found: Result<bool, FileError>,
    errors: &mut X,
) -> Result<u8, CallError>
    ensures { IfOk result (λ status. spec.TellsOther name.now found status
        (X.contents errors.old) (X.contents errors.new)) }
{
    let why = match found {
        Ok(_) => " isn't what is printed",
        Err(error) => error.after_name(),
    };
    say(alloc, errors, "", name, why)?;
    Ok(FAULTY)
}

/// Writes a file that doesn't have these bytes, or tells of it. Returns the exit status.
fn print_bytes<F: Files, X: Write>(
    files: &F,
    alloc: Global,
    name: &str,
    bytes: &[u8],
    check: bool,
    errors: &mut X,
) -> Result<u8, CallError>
    ensures { IfOk result (λ status. spec.PrintsBytes (F.disk files.now) name.now bytes.now check
        status
        (X.contents errors.old) (X.contents errors.new)) }
{
    let found = holds(files, alloc, name, bytes)?;
    if matches!(found, Ok(true)) {
        Ok(CLEAN)
    } else if check {
        tell_other(alloc, name, found, errors)
    } else {
        put_file(files, alloc, name, bytes, errors)
    }
}

/// Writes or compares a printed file. Returns the exit status.
fn print_file<F: Files, X: Write>(
    files: &F,
    alloc: Global,
    folder: Folder<'_>,
    file: &PrintedFile,
    errors: &mut X,
) -> Result<u8, CallError>
    ensures { IfOk result (λ status. spec.PrintsFile (F.disk files.now)
        folder.entry.path.now folder.entry.check file.now status
        (X.contents errors.old) (X.contents errors.new)) }
{
    let (folder_path, path) = (folder.path, file.path.as_str());
    let name = format!(in alloc; "{folder_path}/{path}")?;
    let bytes = file.text.as_bytes();
    print_bytes(files, alloc, name.as_str(), bytes, folder.check, errors)
}

/// Stops at the first file that can't be written.
fn print_files<F: Files, X: Write>(
    files: &F,
    alloc: Global,
    folder: Folder<'_>,
    printed: &[PrintedFile],
    errors: &mut X,
) -> Result<u8, CallError>
    ensures { IfOk result (λ status. spec.PrintsAll (F.disk files.now) folder.entry.path.now
        folder.entry.check
        printed.now 0 status (X.contents errors.old) (X.contents errors.new)) }
{
    let mut worst = CLEAN;
    'printed: for file in printed {
        let status = print_file(files, alloc, folder, file, errors)?;
        if status == FAILED {
            return Ok(FAILED);
        }
        worst = worst.max(status);
    }
    Ok(worst)
}

fn say_unsupported<X: Write>(
    alloc: Global,
    what: &str,
    name: &[u8],
    errors: &mut X,
) -> Result<u8, CallError>
    ensures { IfOk result (λ status. status ≡ 1) }
{
    let name = std::str::from_utf8(name).unwrap_or("");
    let why = format!(in alloc; ": {what} isn't supported by planus rattle")?;
    say(alloc, errors, "", name, why.as_str())?;
    Ok(FAULTY)
}

/// Returns the crates that printed code stands on, as they are said after its name.
fn stands_on(schema: &Schema) -> &'static str
    ensures { result.now ≡ spec.stands_on schema.now.declarations.items }
{
    if have_key(&schema.declarations) {
        ": planus planus_keys planus_views`"
    } else {
        ": planus planus_views`"
    }
}

/// Says the lines of the crate and, where there are calls for C, of theirs.
fn say_lines<X: Write>(
    alloc: Global,
    schema: &Schema,
    folder: Folder<'_>,
    errors: &mut X,
) -> Result<(), CallError>
    ensures { OnOk result (Appends (X.contents errors.old) (X.contents errors.new)
        (spec.lines_said (is_some folder.entry.prefix) schema.now.declarations.items
        folder.entry.name.now)) }
{
    let name = folder.name;
    let crates = stands_on(schema);
    say(alloc, errors, "the line of crates.txt is `", name, crates)?;
    if folder.prefix.is_some() {
        let crates = format!(in alloc; "_c staticlib: {name} planus planus_foreign`")?;
        say(
            alloc,
            errors,
            "the line of crates.txt is `",
            name,
            crates.as_str(),
        )?;
    }
    Ok(())
}

/// Says why no code is printed. Returns the exit status.
fn tell_unprinted<X: Write>(
    alloc: Global,
    path: &str,
    error: PrintError,
    errors: &mut X,
) -> Result<u8, CallError>
    ensures { IfOk result (λ status. status ≢ 0) }
{
    match error {
        PrintError::OutOfMemory => Err(CallError::OutOfMemory),
        PrintError::Untied => fail(alloc, errors, "", path, ": its code isn't the schema's"),
        PrintError::Unsupported { what, name } => say_unsupported(alloc, what, &name, errors),
    }
}

/// Writes or compares the files of the crate with calls for C. Returns the exit status.
fn print_calls<F: Files, X: Write>(
    files: &F,
    alloc: Global,
    schema: &Schema,
    folder: Folder<'_>,
    prefix: &str,
    errors: &mut X,
) -> Result<u8, CallError>
    ensures { IfOk result (λ status. status ≡ 0 → spec.PrintsForeign (F.disk files.now)
        folder.entry.path.now folder.entry.check true (X.contents errors.old)
        (X.contents errors.new)) }
{
    match print_foreign(alloc, schema, folder.name, prefix, folder.verified) {
        Ok(printed) => {
            let folder_path = folder.path;
            let path = format!(in alloc; "{folder_path}_c")?;
            let beside = Folder {
                path: path.as_str(),
                ..folder
            };
            print_files(files, alloc, beside, &printed, errors)
        }
        Err(error) => tell_unprinted(alloc, folder.path, error, errors),
    }
}

/// The same where there are to be such calls.
fn print_beside<F: Files, X: Write>(
    files: &F,
    alloc: Global,
    schema: &Schema,
    folder: Folder<'_>,
    errors: &mut X,
) -> Result<u8, CallError>
    ensures { IfOk result (λ status. status ≡ 0 → spec.PrintsForeign (F.disk files.now)
        folder.entry.path.now folder.entry.check (is_some folder.entry.prefix)
        (X.contents errors.old) (X.contents errors.new)) }
{
    match folder.prefix {
        Some(prefix) => print_calls(files, alloc, schema, folder, prefix, errors),
        None => Ok(CLEAN),
    }
}

/// Writes or compares the files of a crate, and then those of its calls for C, also where the former
/// aren't what is printed. Returns the exit status.
fn print_both<F: Files, X: Write>(
    files: &F,
    alloc: Global,
    schema: &Schema,
    folder: Folder<'_>,
    printed: &[PrintedFile],
    errors: &mut X,
) -> Result<u8, CallError>
    ensures { IfOk result (λ status. status ≡ 0 → spec.PrintsBoth (F.disk files.now)
        folder.entry.path.now folder.entry.name.now folder.entry.check
        (is_some folder.entry.prefix) printed.now schema.now.declarations.items
        (X.contents errors.old) (X.contents errors.new)) }
{
    let own = print_files(files, alloc, folder, printed, errors)?;
    if own == FAILED {
        return Ok(FAILED);
    }
    let beside = print_beside(files, alloc, schema, folder, errors)?;
    if beside == CLEAN && own != CLEAN {
        return Ok(own);
    }
    if beside == CLEAN && !folder.check {
        say_lines(alloc, schema, folder, errors)?;
    }
    Ok(beside)
}

/// Writes or compares the files of a crate with the code of a schema. Returns the exit status.
fn print_to<F: Files, X: Write>(
    files: &F,
    alloc: Global,
    schema: &Schema,
    folder: Folder<'_>,
    errors: &mut X,
) -> Result<u8, CallError>
    requires { spec.is_crate_name folder.name.now ≡ true }
    ensures { IfOk result (λ status. status ≡ 0 → spec.PrintsCrate (F.disk files.now)
        folder.entry.path.now folder.entry.name.now folder.entry.check
        folder.entry.verified (is_some folder.entry.prefix) schema.now (X.contents errors.old)
        (X.contents errors.new)) }
{
    match print_crate(alloc, schema, folder.name, folder.verified) {
        Ok(printed) => print_both(files, alloc, schema, folder, &printed, errors),
        Err(error) => tell_unprinted(alloc, folder.path, error, errors),
    }
}

/// Writes or compares the code of what a file means. Returns the exit status.
fn print_named<F: Files, X: Write>(
    files: &F,
    alloc: Global,
    folders: &[&str],
    word: &str,
    folder: Folder<'_>,
    errors: &mut X,
) -> Result<u8, CallError>
    requires { spec.is_crate_name folder.name.now ≡ true }
    ensures { IfOk result (λ status. status ≡ 0 → spec.PrintsNamed
        (places_of (F.disk files.now) folders.now) word.now folder.entry.path.now
        folder.entry.name.now folder.entry.check
        folder.entry.verified (is_some folder.entry.prefix) (X.contents errors.old)
        (X.contents errors.new)) }
{
    let found = schema_at(files, alloc, folders, word, errors)?;
    match &found {
        Ok(schema) => print_to(files, alloc, schema, folder, errors),
        Err(status) => Ok(*status),
    }
}

fn is_prefix(word: Option<&str>) -> bool {
    match word {
        Some(word) => is_word(word.as_bytes()),
        None => true,
    }
}

/// Writes the code of a schema as a crate, or compares the crate with it. Returns the exit status.
pub fn print_code<F: Files, X: Write>(
    files: &F,
    alloc: Global,
    words: &Words<'_>,
    errors: &mut X,
) -> Result<u8, CallError>
    ensures { IfOk result (λ status. status ≡ 0 → spec.PrintsCode
        (places_of (F.disk files.now) words.now.folders.items) words.now.check
        (not words.now.no_verified) (is_some words.now.foreign) (words_of words.now).files
        (X.contents errors.old) (X.contents errors.new)) }
{
    if !is_prefix(words.foreign) {
        let prefix = words.foreign.unwrap_or("");
        return fail(
            alloc,
            errors,
            "no call can begin with `",
            prefix,
            PREFIX_FAULT,
        );
    }
    let path = words.output.unwrap_or("");
    let Some(folder) = folder_or_report(alloc, path, words, errors)? else {
        return Ok(FAILED);
    };
    match words.files.as_slice() {
        [word] => print_named(files, alloc, &words.folders, *word, folder, errors),
        _ => Ok(FAILED),
    }
}
