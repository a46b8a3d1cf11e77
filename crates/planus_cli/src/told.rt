//! How a break is told: as a report, or as a line of JSON.

ghost use Rattle.std.specs.Prelude.{◌≡◌, ◌<◌, ◌++◌, ◌∷◌, [], length, map, Some, IfOk, IfSome, OnOk};
ghost use Rattle.std.specs.List.{All};
ghost use Rattle.std.specs.Option.{option_map};
ghost use Rattle.planus_resolve.specs.Faults.{placed_of, placed_from};
ghost use Rattle.planus_cli.specs.Changes.{saying_view};
ghost use Rattle.planus_cli.specs.Checks.{AreSpelled};
ghost use Rattle.planus_cli.specs.SchemaTexts.{HasTokens};
ghost use Rattle.planus_cli.specs.Spots as spots_spec;
ghost use Rattle.planus_cli.specs.Telling as spec;

use crate::changes::{BEFORE, Saying, message_of, saying_of};
use crate::check::File;
use crate::json::{place_json, put_text, put_text_or_null};
use crate::meaning::Meaning;
use crate::parts::{Word, declaration_told, is_needed, new_word, old_word, part_told, subject};
use crate::placed::{place_of, placed_report};
use crate::spots::{Spot, spot_of};
use planus_conform::{Break, Place, Rename};
use planus_resolve::{Head, Schema, heads_of};
use std::alloc::{AllocError, Global};

/// Returns the report of a message at a spot.
fn spot_report(
    alloc: Global,
    files: &[File],
    spot: Spot,
    message: &[u8],
) -> Result<Vec<u8>, AllocError>
    requires within { spot.file < length files.now }
    requires tokens { All (λ f. HasTokens f.text.items) files.now }
    ensures { IfOk result (λ out. spec.ReportsIn files.now spot message.now out.items) }
{
    let file = &files[spot.file];
    placed_report(alloc, file.name.as_str(), &file.text, spot.left, message)
}

/// Returns the report of a message at a spot of the new schema, and of what was at one of the old.
fn both_reports(
    alloc: Global,
    old: &[File],
    before: Spot,
    new: &[File],
    after: Spot,
    message: &[u8],
) -> Result<Vec<u8>, AllocError>
    requires before { before.file < length old.now }
    requires old { All (λ f. HasTokens f.text.items) old.now }
    requires after { after.file < length new.now }
    requires new { All (λ f. HasTokens f.text.items) new.now }
    ensures { IfOk result (λ out. spec.ReportsBoth old.now (Some before) new.now (Some after)
        message.now out.items) }
{
    let mut out = spot_report(alloc, new, after, message)?;
    let rest = spot_report(alloc, old, before, BEFORE.as_bytes())?;
    out.extend_from_slice(&rest)?;
    Ok(out)
}

fn lone_report(alloc: Global, message: &[u8]) -> Result<Vec<u8>, AllocError>
    ensures { IfOk result (λ out. out.items ≡ message.now ++ 10 ∷ []) }
{
    let mut out = Vec::from_slice(alloc, message)?;
    out.push(b'\n')?;
    Ok(out)
}

/// Returns the report of a message at the spots that there are.
fn spots_report(
    alloc: Global,
    old: &[File],
    before: Option<Spot>,
    new: &[File],
    after: Option<Spot>,
    message: &[u8],
) -> Result<Vec<u8>, AllocError>
    requires before { IfSome before (λ spot. spot.file < length old.now) }
    requires old { All (λ f. HasTokens f.text.items) old.now }
    requires after { IfSome after (λ spot. spot.file < length new.now) }
    requires new { All (λ f. HasTokens f.text.items) new.now }
    ensures { IfOk result (λ out. spec.ReportsBoth old.now before new.now after message.now
        out.items) }
{
    match (before, after) {
        (Some(before), Some(after)) => both_reports(alloc, old, before, new, after, message),
        (None, Some(after)) => spot_report(alloc, new, after, message),
        (Some(before), None) => spot_report(alloc, old, before, message),
        (None, None) => lone_report(alloc, message),
    }
}

/// Returns what is said of a break whose word in the new schema is this.
fn saying_at(new: &Schema, after: Word, one: Break) -> Saying
    ensures { saying_view result ≡ spec.saying_at new.now after one }
{
    saying_of(one.change, one.place, is_needed(&new.declarations, after))
}

/// Returns the message of a break whose words are these.
fn message_at(
    alloc: Global,
    old: &Schema,
    before: Word,
    new: &Schema,
    after: Word,
    one: Break,
) -> Result<Vec<u8>, AllocError>
    ensures { IfOk result (λ text. text.items ≡ spec.message_at old.now before new.now after one) }
{
    let name = subject(old, before, new, after, one.place);
    message_of(alloc, saying_at(new, after, one), name)
}

fn spot_of_word(meaning: &Meaning, heads: &[Head<'_>], word: Word, place: Place) -> Option<Spot>
    requires { map placed_of heads.now ≡ placed_from 0 meaning.now.declarations.items }
    ensures spot { result ≡ spots_spec.spot_of_word meaning.now word place }
    ensures within { IfSome result (λ spot. spot.file < length meaning.now.files.items) }
{
    spot_of(
        meaning.files.len(),
        &meaning.declarations,
        heads,
        word,
        place,
    )
}

/// Returns the JSON of a spot.
fn spot_json(alloc: Global, files: &[File], spot: Spot) -> Result<Vec<u8>, AllocError>
    requires within { spot.file < length files.now }
    requires tokens { All (λ f. HasTokens f.text.items) files.now }
    ensures { IfOk result (λ json. spec.IsPlaceIn files.now spot json.items) }
{
    let file = &files[spot.file];
    let at = place_of(alloc, &file.text, spot.left)?;
    place_json(alloc, file.name.as_str(), &file.text[..at])
}

fn spot_or_null(alloc: Global, files: &[File], spot: Option<Spot>) -> Result<Vec<u8>, AllocError>
    requires within { IfSome spot (λ spot. spot.file < length files.now) }
    requires tokens { All (λ f. HasTokens f.text.items) files.now }
    ensures { IfOk result (λ json. spec.IsPlaceOrNull files.now spot json.items) }
{
    match spot {
        Some(spot) => spot_json(alloc, files, spot),
        None => Vec::from_slice(alloc, b"null"),
    }
}

fn put_kind(json: &mut Vec<u8>, saying: Saying) -> Result<(), AllocError>
    ensures { OnOk result (json.new.items ≡ json.old.items ++ spec.kind_json (saying_view saying)) }
{
    json.extend_from_slice(b"{\"change\":")?;
    put_text(json, saying.word.as_bytes())?;
    json.extend_from_slice(b",\"hurt\":")?;
    put_text(json, saying.hurt.as_bytes())
}

fn put_names(
    json: &mut Vec<u8>,
    declaration: Option<&[u8]>,
    part: Option<&[u8]>,
) -> Result<(), AllocError>
    ensures { OnOk result (json.new.items ≡ json.old.items ++ spec.names_json
        (option_map (λ w. w.now) declaration.entry) (option_map (λ w. w.now) part.entry)) }
{
    json.extend_from_slice(b",\"declaration\":")?;
    put_text_or_null(json, declaration)?;
    json.extend_from_slice(b",\"part\":")?;
    put_text_or_null(json, part)
}

fn put_texts(json: &mut Vec<u8>, message: &[u8], advice: &str) -> Result<(), AllocError>
    ensures { OnOk result (json.new.items ≡ json.old.items ++ spec.texts_json message.now
        advice.now) }
{
    json.extend_from_slice(b",\"message\":")?;
    put_text(json, message)?;
    json.extend_from_slice(b",\"advice\":")?;
    put_text(json, advice.as_bytes())
}

fn put_places(json: &mut Vec<u8>, new: &[u8], old: &[u8]) -> Result<(), AllocError>
    ensures { OnOk result (json.new.items ≡ json.old.items ++ spec.places_json new.now old.now) }
{
    json.extend_from_slice(b",\"new\":")?;
    json.extend_from_slice(new)?;
    json.extend_from_slice(b",\"old\":")?;
    json.extend_from_slice(old)?;
    json.extend_from_slice(b"}\n")?;
    Ok(())
}

/// Returns the members of a change's line but for its places.
fn change_json(
    alloc: Global,
    saying: Saying,
    declaration: Option<&[u8]>,
    part: Option<&[u8]>,
    message: &[u8],
) -> Result<Vec<u8>, AllocError>
    ensures { IfOk result (λ json. json.items ≡ spec.change_json (saying_view saying)
        (option_map (λ w. w.now) declaration.entry) (option_map (λ w. w.now) part.entry)
        message.now) }
{
    let mut json = Vec::new(alloc);
    put_kind(&mut json, saying)?;
    put_names(&mut json, declaration, part)?;
    put_texts(&mut json, message, saying.advice)?;
    Ok(json)
}

/// Returns the members of the line of a break whose words are these, but for its places.
fn change_at(
    alloc: Global,
    old: &Schema,
    before: Word,
    new: &Schema,
    after: Word,
    one: Break,
) -> Result<Vec<u8>, AllocError>
    ensures { IfOk result (λ json. json.items ≡ spec.change_at old.now before new.now after one) }
{
    let message = message_at(alloc, old, before, new, after, one)?;
    let declaration = declaration_told(old, before, new, after);
    let part = part_told(old, before, new, after);
    change_json(
        alloc,
        saying_at(new, after, one),
        declaration,
        part,
        &message,
    )
}

/// Returns what is said of a break whose words are these, but for its places.
fn text_of(
    alloc: Global,
    json: bool,
    old: &Schema,
    before: Word,
    new: &Schema,
    after: Word,
    one: Break,
) -> Result<Vec<u8>, AllocError>
    ensures { IfOk result (λ text. text.items
        ≡ spec.text_of json old.now before new.now after one) }
{
    if json {
        change_at(alloc, old, before, new, after, one)
    } else {
        message_at(alloc, old, before, new, after, one)
    }
}

/// Returns the line that begins with these members, with the places that there are.
fn spots_line(
    alloc: Global,
    old: &[File],
    before: Option<Spot>,
    new: &[File],
    after: Option<Spot>,
    change: &[u8],
) -> Result<Vec<u8>, AllocError>
    requires before { IfSome before (λ spot. spot.file < length old.now) }
    requires old { All (λ f. HasTokens f.text.items) old.now }
    requires after { IfSome after (λ spot. spot.file < length new.now) }
    requires new { All (λ f. HasTokens f.text.items) new.now }
    ensures { IfOk result (λ out. spec.IsLine old.now before new.now after change.now out.items) }
{
    let mut line = Vec::from_slice(alloc, change)?;
    let new_place = spot_or_null(alloc, new, after)?;
    let old_place = spot_or_null(alloc, old, before)?;
    put_places(&mut line, &new_place, &old_place)?;
    Ok(line)
}

/// Returns a line of JSON, or a report.
fn spots_told(
    alloc: Global,
    json: bool,
    old: &[File],
    before: Option<Spot>,
    new: &[File],
    after: Option<Spot>,
    text: &[u8],
) -> Result<Vec<u8>, AllocError>
    requires before { IfSome before (λ spot. spot.file < length old.now) }
    requires old { All (λ f. HasTokens f.text.items) old.now }
    requires after { IfSome after (λ spot. spot.file < length new.now) }
    requires new { All (λ f. HasTokens f.text.items) new.now }
    ensures { IfOk result (λ out. spec.TellsAt json old.now before new.now after text.now out.items) }
{
    if json {
        spots_line(alloc, old, before, new, after, text)
    } else {
        spots_report(alloc, old, before, new, after, text)
    }
}

/// Tells of a break.
fn break_told(
    alloc: Global,
    json: bool,
    renames: &[Rename],
    old: &Meaning,
    old_heads: &[Head<'_>],
    new: &Meaning,
    new_heads: &[Head<'_>],
    one: Break,
) -> Result<Vec<u8>, AllocError>
    requires old_heads { map placed_of old_heads.now ≡ placed_from 0 old.now.declarations.items }
    requires new_heads { map placed_of new_heads.now ≡ placed_from 0 new.now.declarations.items }
    requires old { All (λ f. HasTokens f.text.items) old.now.files.items }
    requires new { All (λ f. HasTokens f.text.items) new.now.files.items }
    ensures { IfOk result (λ out. spec.TellsBreak json renames.now old.now new.now one out.items) }
{
    let before = old_word(&old.schema.declarations, one);
    let after = new_word(
        renames,
        &old.schema.declarations,
        &new.schema.declarations,
        one,
    );
    let text = text_of(alloc, json, &old.schema, before, &new.schema, after, one)?;
    let first = spot_of_word(new, new_heads, after, one.place);
    let second = spot_of_word(old, old_heads, before, one.place);
    spots_told(alloc, json, &old.files, second, &new.files, first, &text)
}

/// Tells of these breaks, one after another.
fn all_told(
    alloc: Global,
    json: bool,
    renames: &[Rename],
    old: &Meaning,
    old_heads: &[Head<'_>],
    new: &Meaning,
    new_heads: &[Head<'_>],
    breaks: &[Break],
) -> Result<Vec<u8>, AllocError>
    requires old_heads { map placed_of old_heads.now ≡ placed_from 0 old.now.declarations.items }
    requires new_heads { map placed_of new_heads.now ≡ placed_from 0 new.now.declarations.items }
    requires old { All (λ f. HasTokens f.text.items) old.now.files.items }
    requires new { All (λ f. HasTokens f.text.items) new.now.files.items }
    ensures { IfOk result (λ out. spec.TellsBreaks json renames.now old.now new.now breaks.now
        out.items) }
{
    let mut out = Vec::new(alloc);
    'breaks: for one in breaks {
        let told = break_told(alloc, json, renames, old, old_heads, new, new_heads, *one)?;
        out.extend_from_slice(&told)?;
    }
    Ok(out)
}

/// Tells of these breaks, after finding the declarations of both schemas: each is a line of JSON, or
/// a report.
pub(crate) fn told(
    alloc: Global,
    json: bool,
    renames: &[Rename],
    old: &Meaning,
    new: &Meaning,
    breaks: &[Break],
) -> Result<Vec<u8>, AllocError>
    requires old { AreSpelled old.now.files.items old.now.declarations.items }
    requires new { AreSpelled new.now.files.items new.now.declarations.items }
    ensures { IfOk result (λ out. spec.TellsBreaks json renames.now old.now new.now breaks.now
        out.items) }
{
    let old_heads = heads_of(alloc, &old.declarations)?;
    let new_heads = heads_of(alloc, &new.declarations)?;
    all_told(
        alloc, json, renames, old, &old_heads, new, &new_heads, breaks,
    )
}
