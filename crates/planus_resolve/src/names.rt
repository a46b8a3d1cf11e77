//! Lists of names.

ghost use Rattle.std.specs.Prelude.{◌≡◌, ◌++◌, ◌∷◌, [], ℕ, List, true, IfOk, not};
ghost use Rattle.planus_schema.specs.Distinct.{is_in, items_of};
ghost use Rattle.planus_resolve.specs.inner.Index.{IsTaken};

use std::alloc::{AllocError, Global};
use std::collections::BTreeMap;

/// Returns a copy of these words.
pub(crate) fn copied(alloc: Global, words: &[Vec<u8>]) -> Result<Vec<Vec<u8>>, AllocError>
    ensures { IfOk result (λ v. items_of v.items ≡ items_of words.now) }
{
    let mut out = Vec::new(alloc);
    'words: for word in words {
        let copy = Vec::from_slice(alloc, word)?;
        out.push(copy)?;
    }
    Ok(out)
}

/// Adds a name to the keys of a map; returns whether it was new.
pub(crate) fn take_key<'n>(
    names: &mut BTreeMap<&'n [u8], usize>,
    name: &'n [u8],
) -> Result<bool, AllocError>
    ensures new { (list : List (List ℕ)) → IsTaken names.old list
        → IfOk result (λ new. new ≡ not (is_in list name.now)) }
    ensures taken { (list : List (List ℕ)) → IsTaken names.old list
        → IfOk result (λ new. new ≡ true → IsTaken names.new (list ++ name.now ∷ [])) }
{
    match names.get(name) {
        Some(_) => Ok(false),
        None => {
            names.insert(name, 0)?;
            Ok(true)
        }
    }
}
