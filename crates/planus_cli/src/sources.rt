//! The files of a schema: each is read once, after its includes.

ghost use Rattle.std.specs.Prelude.{◌≡◌, ◌<◌, IfOk, IfErr, IfNone, IfSome};
ghost use Rattle.std.specs.Prelude.{OnOk, Some, None, map};
ghost use Rattle.std.specs.Option.{option_map};
ghost use Rattle.std.specs.String.{string_bytes};
ghost use Rattle.planus_cli.specs.SchemaTexts.{HasTokens, IsSpelled};
ghost use Rattle.planus_cli.specs.Files.{AreRead, EndsWith, IsTextOf};
ghost use Rattle.planus_cli.specs.Files.{SaysUnread, FailsReading};
ghost use Rattle.planus_cli.specs.Including as including_spec;
ghost use Rattle.planus_cli.specs.Loading as spec;
ghost use Rattle.planus_cli.specs.Loading.{Loads};
ghost use Rattle.planus_cli.specs.Checks.{AreSpelled};
ghost use Rattle.planus_cli.specs.Sources.{HasNoSchema, ChecksFile, HasMeaning, MeansAll};
ghost use Rattle.std.specs.Io.KnownBytes.{Keeps};

use crate::check::{File, resolve_or_report};
use crate::file_error::FileError;
use crate::files::Files;
use crate::include::{file_beside, file_in, normal};
use crate::meaning::Meaning;
use crate::parsed::{Parsed, parse_or_report};
use crate::placed::placed_report;
use crate::said::{CLEAN, FAILED, FAULTY};
use crate::streams::{CallError, GREATEST_TEXT, say, write_out};
use planus_resolve::{Schema, file_index};
use planus_syntax::{Declaration, Item, after_order_mark, string_text};
use std::alloc::{AllocError, Global};
use std::io::Write;

/// How many files may include one another.
const GREATEST_DEPTH: usize = 64;

#[derive(Drop)]
struct Source {
    file: File,
    declarations: Vec<Declaration>,
}

/// The files begun, and those read, each after its includes.
#[derive(Drop)]
struct Sources {
    begun: Vec<Vec<u8>>,
    files: Vec<File>,
    declarations: Vec<Vec<Declaration>>,
}

impl Sources {
    fn has_begun(&self, name: &str) -> bool
        ensures { result ≡ spec.has_begun name.now self.now }
    {
        file_index(&self.begun, name.as_bytes()).is_some()
    }

    fn begin(&mut self, alloc: Global, name: &str) -> Result<(), AllocError>
        ensures { OnOk result (spec.Begins name.now self.old self.new) }
    {
        self.begun.push(Vec::from_slice(alloc, name.as_bytes())?)?;
        Ok(())
    }

    fn add(&mut self, source: Source) -> Result<(), AllocError>
        ensures { OnOk result (spec.Adds source self.old self.new) }
    {
        self.files.push(source.file)?;
        self.declarations.push(source.declarations)?;
        Ok(())
    }
}

/// Returns the bytes of a file, or reports why it can't be read.
pub fn bytes_of<F: Files, X: Write>(
    files: &F,
    alloc: Global,
    name: &str,
    errors: &mut X,
) -> Result<Option<Vec<u8>>, CallError>
    ensures bytes { IfOk result (λ found. IfSome found (λ bytes.
        (F.disk files.now).Holds name.now bytes.items)) }
    ensures kept { IfOk result (λ found. IfSome found (λ _.
        Keeps (X.contents errors.old) (X.contents errors.new))) }
    ensures unread { IfOk result (λ found. IfNone found
        (SaysUnread (F.disk files.now) name.now (X.contents errors.old) (X.contents errors.new))) }
{
    match files.read(alloc, name) {
        Ok(bytes) if bytes.len() <= GREATEST_TEXT => Ok(Some(bytes)),
        Ok(_) => {
            say(alloc, errors, "", name, " is longer than 1073741824 bytes")?;
            Ok(None)
        }
        Err(FileError::OutOfMemory) => Err(CallError::OutOfMemory),
        Err(error) => {
            say(alloc, errors, "can't read ", name, error.after_name())?;
            Ok(None)
        }
    }
}

/// Returns the text of a schema, a file's bytes after a byte order mark, or reports why it can't be
/// read.
pub fn text_of<F: Files, X: Write>(
    files: &F,
    alloc: Global,
    name: &str,
    errors: &mut X,
) -> Result<Option<Vec<u8>>, CallError>
    ensures text { IfOk result (λ found. IfSome found (λ text.
        IsTextOf (F.disk files.now).Holds name.now text.items)) }
    ensures kept { IfOk result (λ found. IfSome found (λ _.
        Keeps (X.contents errors.old) (X.contents errors.new))) }
    ensures unread { IfOk result (λ found. IfNone found
        (SaysUnread (F.disk files.now) name.now (X.contents errors.old) (X.contents errors.new))) }
{
    match bytes_of(files, alloc, name, errors)? {
        None => Ok(None),
        Some(bytes) => {
            let text = Vec::from_slice(alloc, after_order_mark(&bytes))?;
            Ok(Some(text))
        }
    }
}

/// The folder of the including file comes first.
fn included<F: Files>(
    files: &F,
    alloc: Global,
    folders: &[&str],
    name: &str,
    path: &str,
) -> Result<Option<String>, AllocError>
    ensures { IfOk result (λ found. including_spec.IsFirstThere (F.disk files.now).There
        (including_spec.tried (map (λ folder. folder.now) folders.now) name.now path.now)
        (option_map string_bytes found)) }
{
    let beside = file_beside(alloc, name, path)?;
    if files.is_there(beside.as_str()) {
        return Ok(Some(beside));
    }
    'folders: for folder in folders {
        let found = file_in(alloc, *folder, path)?;
        if files.is_there(found.as_str()) {
            return Ok(Some(found));
        }
    }
    Ok(None)
}

/// Returns bytes as a text, or the empty one where they aren't UTF-8.
fn text_or_empty(bytes: &[u8]) -> &str
    ensures { result.now ≡ including_spec.text_or_empty bytes.now }
{
    match std::str::from_utf8(bytes) {
        Ok(text) => text,
        Err(_) => "",
    }
}

/// Returns the name of the file that a string names, if there is one.
fn included_by<F: Files>(
    files: &F,
    alloc: Global,
    folders: &[&str],
    file: &File,
    string: &[u8],
) -> Result<Option<String>, AllocError>
    ensures { IfOk result (λ found. including_spec.IsFirstThere (F.disk files.now).There
        (including_spec.tried (map (λ folder. folder.now) folders.now) (string_bytes file.now.name)
        (including_spec.path_of string.now)) (option_map string_bytes found)) }
{
    let text = string_text(alloc, string)?;
    included(
        files,
        alloc,
        folders,
        file.name.as_str(),
        text_or_empty(&text),
    )
}

/// Reports a fault at an `include`. Returns the exit status.
fn refuse<X: Write>(
    alloc: Global,
    file: &File,
    left: usize,
    message: &[u8],
    errors: &mut X,
) -> Result<u8, CallError>
    requires { HasTokens file.now.text.items }
    ensures told { IfOk result (λ status. (sources : Sources) → spec.Refuses message.now file.now
        left
        sources (X.contents errors.old) status sources (X.contents errors.new)) }
    ensures status { IfOk result (λ status. status ≡ 1) }
{
    let report = placed_report(alloc, file.name.as_str(), &file.text, left, message)?;
    write_out(errors, &report)?;
    Ok(FAULTY)
}

/// Returns a file, or reports what is wrong and returns the exit status.
fn read_file<F: Files, X: Write>(
    files: &F,
    alloc: Global,
    name: &str,
    errors: &mut X,
) -> Result<Result<Source, u8>, CallError>
    ensures source { IfOk result (λ read. IfOk read (λ source.
        spec.IsSource (F.disk files.now).Holds name.now source)) }
    ensures failed { IfOk result (λ read. IfErr read (λ status.
        FailsReading (F.disk files.now) name.now status
        (X.contents errors.old) (X.contents errors.new))) }
    ensures kept { IfOk result (λ read. IfOk read (λ _.
        Keeps (X.contents errors.old) (X.contents errors.new))) }
{
    let Some(text) = text_of(files, alloc, name, errors)? else {
        return Ok(Err(FAILED));
    };
    match parse_or_report(alloc, name, &text)? {
        Parsed::Report(report) => {
            write_out(errors, &report)?;
            Ok(Err(FAULTY))
        }
        Parsed::Declarations(declarations) => {
            let name = String::from_str(alloc, name)?;
            let file = File { name, text };
            Ok(Ok(Source { file, declarations }))
        }
    }
}

/// Loads a file, if it isn't begun, and at most `left` more that include one another.
#[cycle(load)]
fn load<F: Files, X: Write>(
    files: &F,
    alloc: Global,
    folders: &[&str],
    left: usize,
    name: &str,
    sources: &mut Sources,
    errors: &mut X,
) -> Result<u8, CallError>
    requires { AreRead (F.disk files.now).Holds sources.old.files.items
        sources.old.declarations.items }
    ensures read { OnOk result
        (AreRead (F.disk files.now).Holds sources.new.files.items sources.new.declarations.items) }
    ensures kept { IfOk result (λ status. status ≡ 0
        → Keeps (X.contents errors.old) (X.contents errors.new)) }
    ensures loads { IfOk result (λ status.
        spec.Once (Loads (spec.places_of (F.disk files.now) folders.now) left) name.now
        sources.old (X.contents errors.old) status sources.new (X.contents errors.new)) }
{
    if sources.has_begun(name) {
        return Ok(CLEAN);
    }
    load_file(files, alloc, folders, left, name, sources, errors)
}

#[cycle(load)]
fn load_file<F: Files, X: Write>(
    files: &F,
    alloc: Global,
    folders: &[&str],
    left: usize,
    name: &str,
    sources: &mut Sources,
    errors: &mut X,
) -> Result<u8, CallError>
    requires { AreRead (F.disk files.now).Holds sources.old.files.items
        sources.old.declarations.items }
    ensures read { OnOk result
        (AreRead (F.disk files.now).Holds sources.new.files.items sources.new.declarations.items) }
    ensures last { IfOk result (λ status. status ≡ 0
        → EndsWith sources.new.files.items name.now) }
    ensures kept { IfOk result (λ status. status ≡ 0
        → Keeps (X.contents errors.old) (X.contents errors.new)) }
    ensures loads { IfOk result (λ status.
        Loads (spec.places_of (F.disk files.now) folders.now) left name.now
        sources.old (X.contents errors.old) status sources.new (X.contents errors.new)) }
{
    sources.begin(alloc, name)?;
    match read_file(files, alloc, name, errors)? {
        Err(status) => Ok(status),
        Ok(source) => {
            let status = load_includes(files, alloc, folders, left, &source, sources, errors)?;
            sources.add(source)?;
            Ok(status)
        }
    }
}

/// Loads what a file includes. Returns the worst status.
#[cycle(load)]
fn load_includes<F: Files, X: Write>(
    files: &F,
    alloc: Global,
    folders: &[&str],
    left: usize,
    source: &Source,
    sources: &mut Sources,
    errors: &mut X,
) -> Result<u8, CallError>
    requires are { AreRead (F.disk files.now).Holds
        sources.old.files.items sources.old.declarations.items }
    requires is { IsSpelled source.now.file.text.items source.now.declarations.items }
    ensures read { OnOk result
        (AreRead (F.disk files.now).Holds sources.new.files.items sources.new.declarations.items) }
    ensures kept { IfOk result (λ status. status ≡ 0
        → Keeps (X.contents errors.old) (X.contents errors.new)) }
    ensures loads { IfOk result (λ status. spec.IncludesAll
        (spec.Includes (spec.places_of (F.disk files.now) folders.now)
        (spec.enter (spec.places_of (F.disk files.now) folders.now) left)
        source.now.file) source.now.declarations.items 0
        sources.old (X.contents errors.old) status sources.new (X.contents errors.new)) }
{
    let mut worst = CLEAN;
    'declarations: for declaration in &source.declarations {
        if let Item::Include(path) = &declaration.item {
            let at = declaration.left;
            let one = include(
                files, alloc, folders, left, source, at, path, sources, errors,
            )?;
            worst = worst.max(one);
        }
    }
    Ok(worst)
}

/// Loads what an `include` names, or reports why it isn't read.
#[cycle(load)]
fn include<F: Files, X: Write>(
    files: &F,
    alloc: Global,
    folders: &[&str],
    left: usize,
    source: &Source,
    at: usize,
    string: &[u8],
    sources: &mut Sources,
    errors: &mut X,
) -> Result<u8, CallError>
    requires are { AreRead (F.disk files.now).Holds
        sources.old.files.items sources.old.declarations.items }
    requires is { IsSpelled source.now.file.text.items source.now.declarations.items }
    ensures read { OnOk result
        (AreRead (F.disk files.now).Holds sources.new.files.items sources.new.declarations.items) }
    ensures kept { IfOk result (λ status. status ≡ 0
        → Keeps (X.contents errors.old) (X.contents errors.new)) }
    ensures loads { IfOk result (λ status. spec.Includes
        (spec.places_of (F.disk files.now) folders.now)
        (spec.enter (spec.places_of (F.disk files.now) folders.now) left)
        source.now.file at string.now
        sources.old (X.contents errors.old) status sources.new (X.contents errors.new)) }
{
    let file = &source.file;
    let Some(name) = included_by(files, alloc, folders, file, string)? else {
        return refuse(alloc, file, at, b"the included file can't be found", errors);
    };
    if left == 0 {
        return refuse(
            alloc,
            file,
            at,
            b"more than 64 files include one another",
            errors,
        );
    }
    load(
        files,
        alloc,
        folders,
        left - 1,
        name.as_str(),
        sources,
        errors,
    )
}

/// Reads a file, under its normal name, and all that it includes. Returns these files and what they
/// mean, or reports their faults and returns the exit status.
fn meaning_of<F: Files, X: Write>(
    files: &F,
    alloc: Global,
    folders: &[&str],
    name: &str,
    errors: &mut X,
) -> Result<Result<Meaning, u8>, CallError>
    ensures means { IfOk result (λ found. IfOk found (λ meaning.
        HasMeaning (spec.places_of (F.disk files.now) folders.now) name.now meaning
        (X.contents errors.old) (X.contents errors.new))) }
    ensures spelled { IfOk result (λ found. IfOk found (λ meaning.
        AreSpelled meaning.files.items meaning.declarations.items)) }
    ensures none { IfOk result (λ found. IfErr found (λ status.
        HasNoSchema (spec.places_of (F.disk files.now) folders.now) name.now status
        (X.contents errors.old) (X.contents errors.new))) }
{
    let mut sources = Sources {
        begun: Vec::new(alloc),
        files: Vec::new(alloc),
        declarations: Vec::new(alloc),
    };
    let most = GREATEST_DEPTH - 1;
    let status = load_file(files, alloc, folders, most, name, &mut sources, errors)?;
    if status != CLEAN {
        return Ok(Err(status));
    }
    match resolve_or_report(alloc, &sources.files, &sources.declarations, errors)? {
        Some(schema) => Ok(Ok(Meaning {
            files: sources.files,
            declarations: sources.declarations,
            schema,
        })),
        None => Ok(Err(FAULTY)),
    }
}

/// Does what [`meaning_of`] does, and returns what the files mean.
pub fn schema_of<F: Files, X: Write>(
    files: &F,
    alloc: Global,
    folders: &[&str],
    name: &str,
    errors: &mut X,
) -> Result<Result<Schema, u8>, CallError>
    ensures means { IfOk result (λ found. IfOk found (λ schema.
        MeansAll (spec.places_of (F.disk files.now) folders.now) name.now
        (Some schema) (X.contents errors.old) (X.contents errors.new))) }
    ensures none { IfOk result (λ found. IfErr found (λ status.
        HasNoSchema (spec.places_of (F.disk files.now) folders.now) name.now status
        (X.contents errors.old) (X.contents errors.new))) }
{
    match meaning_of(files, alloc, folders, name, errors)? {
        Ok(meaning) => Ok(Ok(meaning.schema)),
        Err(status) => Ok(Err(status)),
    }
}

fn clean(_schema: Schema) -> u8
    ensures { result ≡ 0 }
{
    CLEAN
}

/// Reads a file and all that it includes, and reports their faults. Returns the exit status, 0 only
/// where they mean something.
pub fn check_file<F: Files, X: Write>(
    files: &F,
    alloc: Global,
    folders: &[&str],
    name: &str,
    errors: &mut X,
) -> Result<u8, CallError>
    ensures { IfOk result (λ status. ChecksFile
        (spec.places_of (F.disk files.now) folders.now) name.now status
        (X.contents errors.old) (X.contents errors.new)) }
{
    match schema_of(files, alloc, folders, name, errors)? {
        Ok(schema) => Ok(clean(schema)),
        Err(status) => Ok(status),
    }
}

/// Returns the name of the file that a word of the call names.
fn file_named(alloc: Global, word: &str) -> Result<String, AllocError>
    ensures { IfOk result (λ name. string_bytes name ≡ including_spec.file_named word.now) }
{
    if word == "-" {
        String::from_str(alloc, word)
    } else {
        normal(alloc, word)
    }
}

/// Does what [`schema_of`] does with the file that a word of the call names.
pub fn schema_at<F: Files, X: Write>(
    files: &F,
    alloc: Global,
    folders: &[&str],
    word: &str,
    errors: &mut X,
) -> Result<Result<Schema, u8>, CallError>
    ensures means { IfOk result (λ found. IfOk found (λ schema.
        MeansAll (spec.places_of (F.disk files.now) folders.now) (including_spec.file_named
        word.now)
        (Some schema) (X.contents errors.old) (X.contents errors.new))) }
    ensures none { IfOk result (λ found. IfErr found (λ status.
        HasNoSchema (spec.places_of (F.disk files.now) folders.now) (including_spec.file_named
        word.now) status
        (X.contents errors.old) (X.contents errors.new))) }
{
    let name = file_named(alloc, word)?;
    schema_of(files, alloc, folders, name.as_str(), errors)
}

/// Does what [`meaning_of`] does with the file that a word of the call names.
pub(crate) fn meaning_at<F: Files, X: Write>(
    files: &F,
    alloc: Global,
    folders: &[&str],
    word: &str,
    errors: &mut X,
) -> Result<Result<Meaning, u8>, CallError>
    ensures means { IfOk result (λ found. IfOk found (λ meaning.
        HasMeaning (spec.places_of (F.disk files.now) folders.now) (including_spec.file_named
        word.now) meaning
        (X.contents errors.old) (X.contents errors.new))) }
    ensures spelled { IfOk result (λ found. IfOk found (λ meaning.
        AreSpelled meaning.files.items meaning.declarations.items)) }
    ensures none { IfOk result (λ found. IfErr found (λ status.
        HasNoSchema (spec.places_of (F.disk files.now) folders.now) (including_spec.file_named
        word.now) status
        (X.contents errors.old) (X.contents errors.new))) }
{
    let name = file_named(alloc, word)?;
    meaning_of(files, alloc, folders, name.as_str(), errors)
}

/// Does what [`check_file`] does with the file that a word of the call names.
pub fn check_at<F: Files, X: Write>(
    files: &F,
    alloc: Global,
    folders: &[&str],
    word: &str,
    errors: &mut X,
) -> Result<u8, CallError>
    ensures { IfOk result (λ status. ChecksFile (spec.places_of (F.disk files.now) folders.now)
        (including_spec.file_named word.now) status (X.contents errors.old)
        (X.contents errors.new)) }
{
    let name = file_named(alloc, word)?;
    check_file(files, alloc, folders, name.as_str(), errors)
}
