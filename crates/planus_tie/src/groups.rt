//! Groups of a table's fields, where these are more than the checker takes in one list.

use crate::kinds::is_union;
use crate::shares::{GROUP, MOST, are_many, share_of};
use planus_schema::Line;
use std::alloc::{AllocError, Global};

/// The fields of a group.
const FIELDS: usize = 8;

/// An entry of a table's list of fields: a field, or a group of them.
#[derive(Clone, Copy)]
pub struct Entry {
    /// The place of its first field in the list.
    pub first: usize,
    /// How many fields it has.
    pub count: usize,
    /// The group's number in the table, and 0 for a field.
    pub group: usize,
}

impl Entry {
    /// Returns its fields.
    pub fn lines<'a, 'b>(self, order: &'a [Line<'b>]) -> &'a [Line<'b>] {
        order
            .get(self.first..self.first.saturating_add(self.count))
            .unwrap_or(order)
    }
}

/// Whether a group can begin here: there are enough fields, and none is a union.
fn begins_group(order: &[Line<'_>], first: usize) -> bool {
    match order.get(first..first.saturating_add(FIELDS)) {
        Some(lines) => !lines.iter().any(|line| is_union(line.field.kind)),
        None => false,
    }
}

/// Returns the entries of a table's list.
pub fn entries_of(alloc: Global, order: &[Line<'_>]) -> Result<Vec<Entry>, AllocError> {
    let mut entries = Vec::new(alloc);
    let in_groups = are_many(order);
    let mut groups = 0usize;
    // How many fields the last group still has.
    let mut left = 0usize;
    for first in 0..order.len() {
        if left == 0 {
            let begins = in_groups && begins_group(order, first);
            groups = groups.saturating_add(begins as usize);
            left = if begins { FIELDS } else { 1 };
            let group = if begins { groups } else { 0 };
            entries.push(Entry {
                first,
                count: left,
                group,
            })?;
        }
        left = left.saturating_sub(1);
    }
    Ok(entries)
}

/// Whether the checker takes a list of these entries.
pub fn are_taken(order: &[Line<'_>], entries: &[Entry]) -> bool {
    let mut shares = 0usize;
    for entry in entries {
        let share = match entry.lines(order) {
            [line] => share_of(line.field),
            _ => GROUP,
        };
        shares = shares.saturating_add(share);
    }
    shares <= MOST
}
