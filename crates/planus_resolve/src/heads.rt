//! Declarations, and the first of each full name.

ghost use Rattle.std.specs.Prelude.{◌≡◌, slice_get, map, IfOk};
ghost use Rattle.std.specs.Option.{option_map};
ghost use Rattle.planus_resolve.specs.Names as spec;
ghost use Rattle.planus_resolve.specs.inner.Index.{IsIndex, IsLastIndex};
ghost use Rattle.planus_resolve.specs.Uses as uses_spec;

use crate::fault::or_return;
use crate::head::{Head, own_name};
use planus_syntax::Item;
use std::alloc::{AllocError, Global};
use std::collections::BTreeMap;
use std::marker::Model;

/// The declarations of the files, in order. Contracts see the list; a full name and the last word of
/// one are looked up in logarithmic time.
#[derive(Drop)]
pub(crate) struct Heads<'h> {
    list: &'h [Head<'h>],
    first: BTreeMap<&'h [u8], usize>,
    ending: BTreeMap<&'h [u8], usize>,
}

impl<'h> Model for Heads<'h> {
    ghost use Rattle.std.specs.Prelude.{List, map};
    ghost use Rattle.planus_resolve.specs.declared.head.Head.{Head};
    ghost use Rattle.planus_resolve.specs.Names as spec;
    ghost use Rattle.planus_resolve.specs.inner.Index.{IsIndex, IsLastIndex};

    ghost Value = { List Head };

    ghost view = { λ a. a.list.now };

    ghost invariant = { λ a. IsIndex a.first (map spec.head_of a.list.now)
        × IsLastIndex a.ending (map spec.head_of a.list.now) };
}

fn last_name<'h>(head: &Head<'h>) -> &'h [u8]
    ensures { result.now ≡ uses_spec.last_name (spec.head_of head.now) }
{
    match own_name(&head.declaration.item) {
        Some(name) => name,
        None => &[],
    }
}

fn indices<'h>(alloc: Global, list: &'h [Head<'h>]) -> Result<BTreeMap<&'h [u8], usize>, AllocError>
    ensures { IfOk result (λ m. IsIndex m (map spec.head_of list.now)) }
{
    let mut first = BTreeMap::new(alloc);
    let mut index = list.len();
    // Backwards, since an insertion replaces the index of an equal name.
    'heads: while index > 0 {
        index -= 1;
        first.insert(list[index].name.as_slice(), index)?;
    }
    Ok(first)
}

/// Returns the first declaration of each last word.
fn endings<'h>(alloc: Global, list: &'h [Head<'h>]) -> Result<BTreeMap<&'h [u8], usize>, AllocError>
    ensures { IfOk result (λ m. IsLastIndex m (map spec.head_of list.now)) }
{
    let mut first = BTreeMap::new(alloc);
    let mut index = list.len();
    'heads: while index > 0 {
        index -= 1;
        first.insert(last_name(&list[index]), index)?;
    }
    Ok(first)
}

impl<'h> Heads<'h> {
    pub(crate) fn new(alloc: Global, list: &'h [Head<'h>]) -> Result<Self, AllocError>
        ensures { IfOk result (λ heads. heads ≡ list.now) }
    {
        let first = or_return!(indices(alloc, list));
        let ending = or_return!(endings(alloc, list));
        Ok(Heads {
            list,
            first,
            ending,
        })
    }

    pub(crate) fn as_slice(&self) -> &[Head<'h>]
        ensures { result.now ≡ self.now }
    {
        self.list
    }

    pub(crate) fn get(&self, index: usize) -> Option<&Head<'h>>
        ensures { option_map (λ h. h.now) result ≡ slice_get self.now index }
    {
        self.list.get(index)
    }

    /// Returns whether a declaration is an enum or a union.
    pub(crate) fn is_choice(&self, index: usize) -> bool
        ensures { result ≡ spec.is_choice (map spec.head_of self.now) index }
    {
        match self.list.get(index) {
            Some(head) => matches!(head.declaration.item, Item::Enum(_) | Item::Union(_)),
            None => false,
        }
    }

    /// Returns the first declaration whose name ends with this word.
    pub(crate) fn ending(&self, word: &[u8]) -> Option<usize>
        ensures { result ≡ uses_spec.ending (map spec.head_of self.now) word.now }
    {
        self.ending.get(word).copied()
    }

    pub(crate) fn index_of(&self, name: &[u8]) -> Option<usize>
        ensures { result ≡ spec.index_of (map spec.head_of self.now) name.now }
    {
        self.first.get(name).copied()
    }
}
