//! Where the words of a schema are.

ghost use Rattle.std.specs.Prelude.{◌≡◌, ◌<◌, map, IfSome};
ghost use Rattle.planus_resolve.specs.Faults.{placed_of};
ghost use Rattle.planus_cli.specs.Spots as spec;

use crate::parts::Word;
use planus_conform::Place;
use planus_resolve::Head;
use planus_syntax::{Declaration, Item};

/// A word of a text: `left` tokens before the end of the file of this index.
#[derive(Clone, Copy)]
pub struct Spot {
    pub file: usize,
    pub left: usize,
}

/// Returns where a field, a value or a member is.
fn part_left(item: &Item, index: usize) -> Option<usize>
    ensures { result ≡ spec.part_left item.now index }
{
    match item {
        Item::Table(record) | Item::Struct(record) => match record.fields.get(index) {
            Some(field) => Some(field.left),
            None => None,
        },
        Item::Enum(body) => match body.variants.get(index) {
            Some(variant) => Some(variant.left),
            None => None,
        },
        Item::Union(body) => match body.members.get(index) {
            Some(member) => Some(member.path.left),
            None => None,
        },
        _ => None,
    }
}

/// Returns where the part of a declaration is, or else its name, the word after its first.
fn word_left(declaration: &Declaration, part: Option<usize>) -> usize
    ensures { result ≡ spec.word_left declaration.now part }
{
    let name = declaration.left.saturating_sub(1);
    match part {
        Some(index) => match part_left(&declaration.item, index) {
            Some(left) => left,
            None => name,
        },
        None => name,
    }
}

/// Returns the spot, if there are more files than its index.
fn spot_if(count: usize, file: usize, left: usize) -> Option<Spot>
    ensures { result ≡ spec.spot_if count file left }
{
    if file < count {
        Some(Spot { file, left })
    } else {
        None
    }
}

fn declared_spot(count: usize, heads: &[Head<'_>], word: Word) -> Option<Spot>
    ensures { result ≡ spec.declared_spot count (map placed_of heads.now) word }
{
    match word.declaration {
        Some(index) => match heads.get(index) {
            Some(head) => spot_if(count, head.file, word_left(head.declaration, word.part)),
            None => None,
        },
        None => None,
    }
}

/// Whether an item is the statement that a place names.
fn is_stated(place: Place, item: &Item) -> bool
    ensures { result ≡ spec.is_stated place item.now }
{
    match (place, item) {
        (Place::Root, Item::RootType(_)) => true,
        (Place::Identifier, Item::FileIdentifier(_)) => true,
        _ => false,
    }
}

/// Returns where the last such statement is: the word after its first.
fn stated_left(place: Place, declarations: &[Declaration]) -> Option<usize>
    ensures { result ≡ spec.stated_left place declarations.now }
{
    let mut found = None;
    'declarations: for declaration in declarations {
        if is_stated(place, &declaration.item) {
            found = Some(declaration.left.saturating_sub(1));
        }
    }
    found
}

/// Returns where the last file has the statement.
fn stated_spot(count: usize, files: &[Vec<Declaration>], place: Place) -> Option<Spot>
    ensures { result ≡ spec.stated_spot count files.now place }
{
    let file = files.len().saturating_sub(1);
    match files.get(file) {
        Some(declarations) => match stated_left(place, declarations) {
            Some(left) => spot_if(count, file, left),
            None => None,
        },
        None => None,
    }
}

/// Returns where a word is, or else the statement that the place names. `count`: of files.
pub(crate) fn spot_of(
    count: usize,
    files: &[Vec<Declaration>],
    heads: &[Head<'_>],
    word: Word,
    place: Place,
) -> Option<Spot>
    ensures spot { result ≡ spec.spot_of count files.now (map placed_of heads.now) word place }
    ensures within { IfSome result (λ spot. spot.file < count) }
{
    match declared_spot(count, heads, word) {
        Some(spot) => Some(spot),
        None => stated_spot(count, files, place),
    }
}
