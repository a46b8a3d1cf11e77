//! The order of names in printed lists.

use crate::names::{Names, name_at};
use crate::words::Words;
use std::alloc::{AllocError, Global};

/// What may follow a module's or a type's name in the names that an import brings.
const ENDINGS: [&str; 15] = [
    "",
    "Fields",
    "Ref",
    "View",
    "_checked",
    "_is",
    "_numbers",
    "_ref",
    "_shape",
    "_tags",
    "_value",
    "_variants",
    "_view",
    "_view_tags",
    "_view_variants",
];

fn count_digits(text: &[u8]) -> u8 {
    let mut count = 0u8;
    for byte in text {
        if !byte.is_ascii_digit() {
            break;
        }
        count = count.saturating_add(1);
    }
    count
}

// A name with the count of digits before each number, so that 2 is before 10.
fn key_of(alloc: Global, name: &[u8]) -> Result<Vec<u8>, AllocError> {
    let mut key = Vec::new(alloc);
    let mut in_number = false;
    for (at, byte) in name.iter().enumerate() {
        if byte.is_ascii_digit() && !in_number {
            key.push(count_digits(name.get(at..).unwrap_or(name)))?;
        }
        in_number = byte.is_ascii_digit();
        key.push(*byte)?;
    }
    Ok(key)
}

/// Returns keys that sort as the names do, but numbers in them by size.
pub(crate) fn keys_of(alloc: Global, names: &[Vec<u8>]) -> Result<Vec<Vec<u8>>, AllocError> {
    let mut keys = Vec::new(alloc);
    for name in names {
        keys.push(key_of(alloc, name)?)?;
    }
    Ok(keys)
}

/// Sorts places in a list of keys by these keys.
pub(crate) fn sort_by_key(places: &mut Vec<usize>, keys: &[Vec<u8>]) -> Result<(), AllocError> {
    places.sort_by(|left, right| name_at(keys, *left).cmp(name_at(keys, *right)))?;
    Ok(())
}

fn in_order(alloc: Global, keys: &[Vec<u8>]) -> Result<Vec<usize>, AllocError> {
    let mut order = Vec::new(alloc);
    for index in 0..keys.len() {
        order.push(index)?;
    }
    sort_by_key(&mut order, keys)?;
    Ok(order)
}

/// Returns the places of these names by the names.
pub(crate) fn places_by_name(alloc: Global, names: &[Vec<u8>]) -> Result<Vec<usize>, AllocError> {
    in_order(alloc, names)
}

/// The declarations by their modules' names, with numbers in these by size. Those that a text names
/// are found by its words.
#[derive(Drop)]
pub(crate) struct Order {
    pub(crate) indices: Vec<usize>,
    /// The place of each declaration in that order.
    places: Vec<usize>,
    /// The declarations by the names of their modules and of their types.
    by_module: Vec<usize>,
    by_type: Vec<usize>,
}

impl Order {
    pub(crate) fn of(alloc: Global, names: &Names) -> Result<Order, AllocError> {
        let indices = in_order(alloc, &keys_of(alloc, &names.modules)?)?;
        let mut places = Vec::from_slice(alloc, &indices)?;
        for (place, index) in indices.iter().enumerate() {
            if let Some(at) = places.get_mut(*index) {
                *at = place;
            }
        }
        Ok(Order {
            indices,
            places,
            by_module: in_order(alloc, &names.modules)?,
            by_type: in_order(alloc, &names.types)?,
        })
    }

    // Adds the place of the declaration with this name.
    fn add(
        &self,
        found: &mut Vec<usize>,
        sorted: &[usize],
        names: &[Vec<u8>],
        name: &[u8],
    ) -> Result<(), AllocError> {
        if let Ok(at) = sorted.binary_search_by(|index| name_at(names, *index).cmp(name)) {
            let index = sorted.get(at).copied().unwrap_or(names.len());
            if let Some(place) = self.places.get(index) {
                found.push(*place)?;
            }
        }
        Ok(())
    }

    fn add_word(
        &self,
        found: &mut Vec<usize>,
        names: &Names,
        word: &[u8],
    ) -> Result<(), AllocError> {
        for ending in &ENDINGS {
            if word.ends_with(ending.as_bytes()) {
                let length = word.len().saturating_sub(ending.len());
                let name = word.get(..length).unwrap_or(word);
                self.add(found, &self.by_module, &names.modules, name)?;
                self.add(found, &self.by_type, &names.types, name)?;
            }
        }
        Ok(())
    }

    /// Returns the declarations whose modules or types the words may name, in order.
    pub(crate) fn named(
        &self,
        alloc: Global,
        names: &Names,
        words: &Words<'_>,
    ) -> Result<Vec<usize>, AllocError> {
        let mut found = Vec::new(alloc);
        for word in words.as_slice() {
            self.add_word(&mut found, names, *word)?;
        }
        found.sort()?;
        found.dedup();
        for place in &mut found {
            *place = self.indices.get(*place).copied().unwrap_or(0);
        }
        Ok(found)
    }
}
