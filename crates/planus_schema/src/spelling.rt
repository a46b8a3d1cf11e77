//! How a name of the schema becomes one of code.

ghost use Rattle.std.specs.Prelude.{◌≡◌, ◌++◌, ◌∷◌, [], IfOk};
ghost use Rattle.planus_schema.specs.Distinct.{items_of};
ghost use Rattle.planus_schema.specs.Spelling as spec;

use crate::scope::{is_among, is_held, is_of_values};
use std::alloc::{AllocError, Global};

/// Returns what follows the last dot of a name.
pub fn last_word(name: &[u8]) -> &[u8]
    ensures { result.now ≡ spec.last_word name.now }
{
    let mut word = name;
    let mut rest = name;
    'bytes: while let Some((first, after)) = rest.split_first() {
        if *first == b'.' {
            word = after;
        }
        rest = after;
    }
    word
}

fn begins_small(bytes: &[u8]) -> bool
    ensures { result ≡ spec.begins_small bytes.now }
{
    match bytes {
        [first, ..] => first.is_ascii_lowercase(),
        [] => false,
    }
}

fn begins_word(before: u8, byte: u8, after: &[u8]) -> bool
    ensures { result ≡ spec.begins_word before byte after.now }
{
    byte.is_ascii_uppercase()
        && before != b'_'
        && (!before.is_ascii_uppercase() || begins_small(after))
}

/// Returns a name in small letters, with `_` between its words.
pub fn snake(alloc: Global, name: &[u8]) -> Result<Vec<u8>, AllocError>
    ensures { IfOk result (λ v. v.items ≡ spec.snake name.now) }
{
    let mut out = Vec::new(alloc);
    let mut before = b'_';
    let mut rest = name;
    'bytes: while let Some((first, after)) = rest.split_first() {
        if begins_word(before, *first, after) {
            out.push(b'_')?;
        }
        out.push(first.to_ascii_lowercase())?;
        before = *first;
        rest = after;
    }
    Ok(out)
}

/// Returns the same in capitals.
pub fn capitals(alloc: Global, name: &[u8]) -> Result<Vec<u8>, AllocError>
    ensures { IfOk result (λ v. v.items ≡ spec.capitals name.now) }
{
    let mut out = snake(alloc, name)?;
    out.make_ascii_uppercase();
    Ok(out)
}

/// Returns a name, its first letter a capital.
pub fn capital(alloc: Global, name: &[u8]) -> Result<Vec<u8>, AllocError>
    ensures { IfOk result (λ v. v.items ≡ spec.capital name.now) }
{
    let mut out = Vec::new(alloc);
    if let Some((first, after)) = name.split_first() {
        out.push(first.to_ascii_uppercase())?;
        out.extend_from_slice(after)?;
    }
    Ok(out)
}

fn is_like(names: &[Vec<u8>], name: &[u8]) -> bool
    ensures { result ≡ spec.is_like (items_of names.now) name.now }
{
    is_among(names, name)
}

// With `_` after it for as long as it equals one of these but for case.
fn set_apart(names: &[Vec<u8>], mut name: Vec<u8>) -> Result<Vec<u8>, AllocError>
    ensures { IfOk result (λ v. v.items
        ≡ spec.set_apart (items_of names.now) (items_of names.now) name.items) }
{
    let mut rest = names;
    'names: while let Some((_, after)) = rest.split_first() {
        if !is_like(names, &name) {
            return Ok(name);
        }
        name.push(b'_')?;
        rest = after;
    }
    Ok(name)
}

/// Adds a name, with `_` after it for as long as it equals one that is there but for case.
pub fn add(names: &mut Vec<Vec<u8>>, name: Vec<u8>) -> Result<(), AllocError>
    ensures { IfOk result (λ u. items_of names.new.items
        ≡ items_of names.old.items
        ++ spec.set_apart (items_of names.old.items) (items_of names.old.items) name.items
        ∷ []) }
{
    let apart = set_apart(names, name)?;
    names.push(apart)?;
    Ok(())
}

/// Returns a name with `_` after it where it is reserved.
pub fn allowed(mut name: Vec<u8>) -> Result<Vec<u8>, AllocError>
    ensures { IfOk result (λ v. v.items ≡ spec.allowed name.items) }
{
    if is_held(&name) {
        name.push(b'_')?;
    }
    Ok(name)
}

/// Returns the name of an enum's value, with `_` after it where the methods of the enum have the word.
pub fn value_spelled(alloc: Global, name: &[u8]) -> Result<Vec<u8>, AllocError>
    ensures { IfOk result (λ v. v.items ≡ spec.value_spelled name.now) }
{
    let mut out = Vec::from_slice(alloc, name)?;
    if is_of_values(name) {
        out.push(b'_')?;
    }
    Ok(out)
}
