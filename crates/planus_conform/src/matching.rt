//! Which declarations of two schemas belong together.

ghost use Rattle.std.specs.Prelude.{◌≡◌, ◌==◌, IfOk};
ghost use Rattle.planus_conform.specs.Matching as spec;
ghost use Rattle.planus_conform.specs.Types as types_spec;

use crate::rename::Rename;
use planus_schema::Declared;
use std::alloc::{AllocError, Global};

/// Returns the index of the first declaration of this name.
pub fn named(declared: &[Declared], name: &[u8]) -> Option<usize>
    ensures { result ≡ spec.named declared.now name.now }
{
    declared.iter().position(|one| one.name.as_slice() == name)
}

/// Returns the name that the new schema has for this one.
pub fn renamed<'a>(renames: &'a [Rename], name: &'a [u8]) -> &'a [u8]
    ensures { result.now ≡ spec.renamed renames.now name.now }
{
    'renames: for rename in renames {
        if rename.from.as_slice() == name {
            return rename.to.as_slice();
        }
    }
    name
}

/// Returns for each declaration of the old schema the index of that of its name in the new one.
pub(crate) fn matches_of(
    alloc: Global,
    renames: &[Rename],
    old: &[Declared],
    new: &[Declared],
) -> Result<Vec<Option<usize>>, AllocError>
    ensures { IfOk result (λ matches. matches.items ≡ spec.matches_of renames.now old.now new.now) }
{
    let mut matches = Vec::new(alloc);
    'declared: for one in old {
        let found = named(new, renamed(renames, &one.name));
        matches.push(found)?;
    }
    Ok(matches)
}

pub(crate) fn match_at(matches: &[Option<usize>], index: usize) -> Option<usize>
    ensures { result ≡ spec.match_at matches.now index }
{
    match matches.get(index) {
        Some(found) => *found,
        None => None,
    }
}

/// Returns whether declaration `j` of the new schema is that of declaration `i` of the old one.
pub(crate) fn are_matched(matches: &[Option<usize>], i: usize, j: usize) -> bool
    ensures { result ≡ types_spec.are_matched matches.now i j }
{
    match match_at(matches, i) {
        Some(found) => found == j,
        None => false,
    }
}
