//! Declarations with their full names.

ghost use Rattle.std.specs.Prelude.{◌≡◌, ◌++◌, ◌∷◌, [], map, fold, take, length, IfOk, OnOk, ◌≤◌};
ghost use Rattle.std.specs.Option.{option_map};
ghost use Rattle.planus_syntax.specs.Values.{names_of, item_of, declaration_of, declarations_of};
ghost use Rattle.planus_resolve.specs.Names as spec;
ghost use Rattle.planus_resolve.specs.Faults.{placed_of, placed_at, placed_in, placed_from};
ghost use Rattle.planus_resolve.specs.Fitting.{head_fits};

use crate::expected::Expected;
use crate::fault::or_return;
use planus_schema::Base;
use planus_syntax::{Declaration, Item, Path};
use std::alloc::{AllocError, Global};

/// `file` is the index of its file, `space` its namespace, and `name` its full name with dots.
#[derive(Drop)]
pub struct Head<'a> {
    pub file: usize,
    pub space: Option<&'a Path>,
    pub name: Vec<u8>,
    pub declaration: &'a Declaration,
}

/// Returns the type that a declaration of this index is, or `None` where it is none.
pub(crate) fn item_base(item: &Item, index: usize) -> Option<Base>
    ensures { result ≡ spec.base_of_item (item_of item.now) index }
{
    match item {
        Item::Table(_) => Some(Base::Table(index)),
        Item::Struct(_) => Some(Base::Struct(index)),
        Item::Enum(_) => Some(Base::Enum(index)),
        Item::Union(_) => Some(Base::Union(index)),
        _ => None,
    }
}

impl Head<'_> {
    /// Returns whether this declaration, of this index, may stand where a type is expected.
    pub fn fits(&self, expected: Expected, index: usize) -> bool
        ensures { result ≡ head_fits expected index (spec.head_of self.now) }
    {
        match item_base(&self.declaration.item, index) {
            Some(base) => expected.fits(base),
            None => false,
        }
    }
}

fn put_word(out: &mut Vec<u8>, word: &[u8]) -> Result<(), AllocError>
    ensures { OnOk result (out.new.items ≡ spec.with_word out.old.items word.now) }
{
    if !out.is_empty() {
        or_return!(out.push(b'.'), AllocError);
    }
    out.extend_from_slice(word)
}

fn put_words(out: &mut Vec<u8>, words: &[Vec<u8>]) -> Result<(), AllocError>
    ensures { OnOk result (out.new.items ≡ fold spec.with_word out.old.items (names_of words.now)) }
{
    'words: for word in words {
        or_return!(put_word(out, word));
    }
    Ok(())
}

pub(crate) fn depth(space: Option<&Path>) -> usize
    ensures { result ≡ length (spec.space_of space.entry) }
{
    match space {
        Some(path) => path.more.len() + 1,
        None => 0,
    }
}

fn put_space(out: &mut Vec<u8>, space: Option<&Path>, count: usize) -> Result<(), AllocError>
    requires { count ≤ length (spec.space_of space) }
    ensures { OnOk result (out.new.items ≡ fold spec.with_word out.old.items
        (take count (spec.space_of space.entry))) }
{
    match space {
        Some(path) if count > 0 => {
            or_return!(put_word(out, &path.first));
            put_words(out, &path.more[..count - 1])
        }
        _ => Ok(()),
    }
}

/// Returns words with dots between them, after the first `count` words of a namespace.
pub(crate) fn dotted_name(
    alloc: Global,
    space: Option<&Path>,
    count: usize,
    first: &[u8],
    more: &[Vec<u8>],
) -> Result<Vec<u8>, AllocError>
    requires { count ≤ length (spec.space_of space) }
    ensures { IfOk result (λ v. v.items
        ≡ spec.dotted (take count (spec.space_of space.entry) ++ first.now ∷ names_of more.now)) }
{
    let mut name = Vec::new(alloc);
    or_return!(put_space(&mut name, space, count));
    or_return!(put_word(&mut name, first));
    or_return!(put_words(&mut name, more));
    Ok(name)
}

pub(crate) fn own_name(item: &Item) -> Option<&[u8]>
    ensures { option_map (λ w. w.now) result ≡ spec.own_name (item_of item.now) }
{
    match item {
        Item::Table(record) | Item::Struct(record) => Some(&record.name),
        Item::Enum(body) => Some(&body.name),
        Item::Union(body) => Some(&body.name),
        _ => None,
    }
}

fn add_head<'a>(
    alloc: Global,
    heads: &mut Vec<Head<'a>>,
    file: usize,
    space: Option<&'a Path>,
    declaration: &'a Declaration,
) -> Result<(), AllocError>
    ensures heads { OnOk result (map spec.head_of heads.new.items ≡ map spec.head_of heads.old.items
        ++ spec.heads_at file (spec.path_in space.entry) (declaration_of declaration.now)) }
    ensures placed { OnOk result (map placed_of heads.new.items ≡ map placed_of heads.old.items
        ++ placed_at file (spec.path_in space.entry) declaration.now) }
{
    let Some(word) = own_name(&declaration.item) else {
        return Ok(());
    };
    let name = or_return!(dotted_name(alloc, space, depth(space), word, &[]));
    let head = Head {
        file,
        space,
        name,
        declaration,
    };
    heads.push(head)?;
    Ok(())
}

pub(crate) fn space_after<'a>(
    space: Option<&'a Path>,
    declaration: &'a Declaration,
) -> Option<&'a Path>
    ensures { spec.path_in result
        ≡ spec.space_after (spec.path_in space.entry) (item_of declaration.now.item) }
{
    match &declaration.item {
        Item::Namespace(Some(path)) => Some(path),
        Item::Namespace(None) => None,
        _ => space,
    }
}

/// Returns how many declarations have begun after one more item.
pub(crate) fn begun_after(begun: usize, declaration: &Declaration) -> Result<usize, AllocError>
    ensures { IfOk result (λ n. n ≡ spec.begun_after begun (item_of declaration.now.item)) }
{
    match own_name(&declaration.item) {
        // No memory holds so many declarations that this sum is too large.
        Some(_) => match begun.checked_add(1) {
            Some(begun) => Ok(begun),
            None => Err(AllocError),
        },
        None => Ok(begun),
    }
}

fn add_heads<'a>(
    alloc: Global,
    heads: &mut Vec<Head<'a>>,
    file: usize,
    declarations: &'a [Declaration],
) -> Result<(), AllocError>
    ensures heads { OnOk result (map spec.head_of heads.new.items ≡ map spec.head_of heads.old.items
        ++ spec.heads_in file None (declarations_of declarations.now)) }
    ensures placed { OnOk result (map placed_of heads.new.items ≡ map placed_of heads.old.items
        ++ placed_in file None declarations.now) }
{
    let mut space = None;
    'declarations: for declaration in declarations {
        or_return!(add_head(alloc, heads, file, space, declaration));
        space = space_after(space, declaration);
    }
    Ok(())
}

/// Returns the tables, structs, enums and unions of these files, in order.
pub fn heads(alloc: Global, files: &[Vec<Declaration>]) -> Result<Vec<Head<'_>>, AllocError>
    ensures heads { IfOk result (λ v. map spec.head_of v.items
        ≡ spec.heads_of (map (λ f. declarations_of f.items) files.now)) }
    ensures placed { IfOk result (λ v. map placed_of v.items ≡ placed_from 0 files.now) }
{
    let mut heads = Vec::new(alloc);
    let mut file = 0;
    'files: for declarations in files {
        or_return!(add_heads(alloc, &mut heads, file, declarations));
        file += 1;
    }
    Ok(heads)
}
