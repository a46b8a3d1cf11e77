//! The command `conform`: what breaks where one schema replaces another.

ghost use Rattle.std.specs.Prelude.{◌≡◌, map, IfOk, OnOk};
ghost use Rattle.planus_cli.specs.Arguments.{words_of};
ghost use Rattle.planus_cli.specs.Checks.{AreSpelled};
ghost use Rattle.planus_cli.specs.Conforming as spec;
ghost use Rattle.planus_cli.specs.Conforming.{Compares};
ghost use Rattle.planus_cli.specs.Each.{RunsFiles};
ghost use Rattle.planus_cli.specs.Loading.{places_of};

use crate::arguments::{Words, after_equals, before_equals};
use crate::files::Files;
use crate::include::{file_in, last_part};
use crate::meaning::Meaning;
use crate::said::{CLEAN, FAILED, FAULTY};
use crate::sources::meaning_at;
use crate::streams::{CallError, write_out};
use crate::told::told;
use planus_conform::{Break, Rename, Way, conforms, notes_of};
use std::alloc::{AllocError, Global};
use std::io::Write;

/// Writes lines of JSON on standard output, and reports on standard error.
fn write_told<W: Write, X: Write>(
    json: bool,
    out: &[u8],
    writer: &mut W,
    errors: &mut X,
) -> Result<(), CallError>
    ensures { OnOk result (spec.AreWritten json out.now (W.contents writer.old)
        (W.contents writer.new) (X.contents errors.old) (X.contents errors.new)) }
{
    if json {
        write_out(writer, out)
    } else {
        write_out(errors, out)
    }
}

fn status_of(breaks: &[Break]) -> u8
    ensures { result ≡ spec.status_of breaks.now }
{
    if breaks.is_empty() { CLEAN } else { FAULTY }
}

/// Tells of these breaks and notes, if there are any.
fn tell<W: Write, X: Write>(
    alloc: Global,
    json: bool,
    renames: &[Rename],
    old: &Meaning,
    new: &Meaning,
    all: &[Break],
    writer: &mut W,
    errors: &mut X,
) -> Result<(), CallError>
    requires old { AreSpelled old.now.files.items old.now.declarations.items }
    requires new { AreSpelled new.now.files.items new.now.declarations.items }
    ensures { OnOk result (spec.TellsAll json renames.now old.now new.now all.now
        (W.contents writer.old) (W.contents writer.new)
        (X.contents errors.old) (X.contents errors.new)) }
{
    if all.is_empty() {
        return Ok(());
    }
    let out = told(alloc, json, renames, old, new, all)?;
    write_told(json, &out, writer, errors)
}

/// Tells what breaks, and then what changes a user's code alone. Returns the exit status.
fn compare<W: Write, X: Write>(
    alloc: Global,
    json: bool,
    way: Way,
    renames: &[Rename],
    old: &Meaning,
    new: &Meaning,
    writer: &mut W,
    errors: &mut X,
) -> Result<u8, CallError>
    requires old { AreSpelled old.now.files.items old.now.declarations.items }
    requires new { AreSpelled new.now.files.items new.now.declarations.items }
    ensures { IfOk result (λ status. Compares json way renames.now old.now new.now status
        (W.contents writer.old) (W.contents writer.new)
        (X.contents errors.old) (X.contents errors.new)) }
{
    let mut all = conforms(alloc, way, renames, &old.schema, &new.schema)?;
    let status = status_of(&all);
    let notes = notes_of(alloc, way, renames, &old.schema, &new.schema)?;
    all.extend_from_slice(&notes)?;
    tell(alloc, json, renames, old, new, &all, writer, errors)?;
    Ok(status)
}

fn way_by(backward: bool, forward: bool) -> Way
    ensures { result ≡ spec.way_by backward forward }
{
    match (backward, forward) {
        (true, _) => Way::Backward,
        (false, true) => Way::Forward,
        (false, false) => Way::Both,
    }
}

fn rename_of(alloc: Global, word: &str) -> Result<Rename, AllocError>
    ensures { IfOk result (λ rename. spec.IsRenameOf word.now rename) }
{
    let from = Vec::from_slice(alloc, before_equals(word.as_bytes()))?;
    let to = Vec::from_slice(alloc, after_equals(word.as_bytes()))?;
    Ok(Rename { from, to })
}

fn renames_of(alloc: Global, words: &[&str]) -> Result<Vec<Rename>, AllocError>
    ensures { IfOk result (λ renames. spec.AreRenamesOf (map (λ w. w.now) words.now) renames.items) }
{
    let mut renames = Vec::new(alloc);
    'words: for word in words {
        let rename = rename_of(alloc, *word)?;
        renames.push(rename)?;
    }
    Ok(renames)
}

/// Compares a schema with the one that replaces it. Returns the exit status.
fn conform_to<F: Files, W: Write, X: Write>(
    files: &F,
    alloc: Global,
    words: &Words<'_>,
    old: &Meaning,
    word: &str,
    writer: &mut W,
    errors: &mut X,
) -> Result<u8, CallError>
    requires { AreSpelled old.now.files.items old.now.declarations.items }
    ensures { IfOk result (λ status. spec.ConformsTo
        (places_of (F.disk files.now) words.now.folders.items) (words_of words.now) old.now word.now
        status (W.contents writer.old) (W.contents writer.new)
        (X.contents errors.old) (X.contents errors.new)) }
{
    let found = meaning_at(files, alloc, &words.folders, word, errors)?;
    match &found {
        Ok(new) => {
            let renames = renames_of(alloc, &words.renames)?;
            let way = way_by(words.backward, words.forward);
            compare(alloc, words.json, way, &renames, old, new, writer, errors)
        }
        Err(status) => Ok(*status),
    }
}

fn conform_pair<F: Files, W: Write, X: Write>(
    files: &F,
    alloc: Global,
    words: &Words<'_>,
    old: &str,
    new: &str,
    writer: &mut W,
    errors: &mut X,
) -> Result<u8, CallError>
    ensures { IfOk result (λ status. spec.ConformsPair
        (places_of (F.disk files.now) words.now.folders.items) (words_of words.now) old.now new.now
        status (W.contents writer.old) (W.contents writer.new)
        (X.contents errors.old) (X.contents errors.new)) }
{
    let found = meaning_at(files, alloc, &words.folders, old, errors)?;
    match &found {
        Ok(old) => conform_to(files, alloc, words, old, new, writer, errors),
        Err(status) => Ok(*status),
    }
}

/// Compares a schema with the file of its name in a folder. Returns the exit status.
fn conform_against<F: Files, W: Write, X: Write>(
    files: &F,
    alloc: Global,
    words: &Words<'_>,
    folder: &str,
    word: &str,
    writer: &mut W,
    errors: &mut X,
) -> Result<u8, CallError>
    ensures { IfOk result (λ status. spec.ConformsAgainst
        (places_of (F.disk files.now) words.now.folders.items) (words_of words.now) folder.now
        word.now status (W.contents writer.old) (W.contents writer.new)
        (X.contents errors.old) (X.contents errors.new)) }
{
    let old = file_in(alloc, folder, last_part(word))?;
    conform_pair(files, alloc, words, old.as_str(), word, writer, errors)
}

/// Compares each schema with the file of its name in a folder. Returns the worst exit status.
fn conform_each<F: Files, W: Write, X: Write>(
    files: &F,
    alloc: Global,
    words: &Words<'_>,
    folder: &str,
    writer: &mut W,
    errors: &mut X,
) -> Result<u8, CallError>
    ensures { IfOk result (λ status. RunsFiles (spec.ConformsAgainst
        (places_of (F.disk files.now) words.now.folders.items) (words_of words.now) folder.now)
        (words_of words.now).files 0 status (W.contents writer.old) (W.contents writer.new)
        (X.contents errors.old) (X.contents errors.new)) }
{
    let mut worst = CLEAN;
    'words: for word in &words.files {
        let status = conform_against(files, alloc, words, folder, *word, writer, errors)?;
        worst = worst.max(status);
    }
    Ok(worst)
}

/// Compares two schemas. Returns the exit status.
fn conform_two<F: Files, W: Write, X: Write>(
    files: &F,
    alloc: Global,
    words: &Words<'_>,
    writer: &mut W,
    errors: &mut X,
) -> Result<u8, CallError>
    ensures { IfOk result (λ status. spec.ConformsTwo
        (places_of (F.disk files.now) words.now.folders.items) (words_of words.now)
        (words_of words.now).files status
        (W.contents writer.old) (W.contents writer.new)
        (X.contents errors.old) (X.contents errors.new)) }
{
    match words.files.as_slice() {
        [old, new] => conform_pair(files, alloc, words, *old, *new, writer, errors),
        _ => Ok(FAILED),
    }
}

/// Reports what breaks where the second of two schemas replaces the first, or where each replaces the
/// file of its name in a folder. Returns the exit status.
pub fn conform<F: Files, W: Write, X: Write>(
    files: &F,
    alloc: Global,
    words: &Words<'_>,
    writer: &mut W,
    errors: &mut X,
) -> Result<u8, CallError>
    ensures { IfOk result (λ status. spec.ConformsFiles
        (places_of (F.disk files.now) words.now.folders.items) (words_of words.now) status
        (W.contents writer.old) (W.contents writer.new)
        (X.contents errors.old) (X.contents errors.new)) }
{
    match words.against {
        Some(folder) => conform_each(files, alloc, words, folder, writer, errors),
        None => conform_two(files, alloc, words, writer, errors),
    }
}
