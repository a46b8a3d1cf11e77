use crate::answers::meaning;
use crate::facts::are_facts;
use crate::meaning_rows::{
    DEFAULTS, ENUMS, FIELDS, INCLUDED, NAMESPACES, SETTLED_HERE, STATEMENTS, STRUCTS, TAKEN_HERE,
    UNIONS,
};
use std::alloc::Global;

/// Returns whether these texts mean a schema with these facts.
fn means(alloc: Global, texts: &[&[u8]], facts: &str) -> bool {
    match meaning(alloc, texts) {
        Some(schema) => are_facts(&schema, facts),
        None => false,
    }
}

/// Returns whether a text means what the facts beside it say, with the file that it includes.
fn holds(alloc: Global, row: &str) -> bool {
    let Some((texts, facts)) = row.split_once("=>") else {
        return false;
    };
    match texts.split_once("+ ") {
        Some((file, text)) => means(
            alloc,
            &[file.as_bytes(), text.as_bytes()],
            facts.trim_start(),
        ),
        None => means(alloc, &[texts.as_bytes()], facts.trim_start()),
    }
}

/// Returns the first row that doesn't hold.
fn first_wrong(alloc: Global, rows: &'static str) -> Option<&'static str> {
    for row in rows.split("\n\n") {
        if !holds(alloc, row) {
            return Some(row);
        }
    }
    None
}

/// Returns the first row of any of these sets that doesn't hold.
fn first_wrong_of(alloc: Global, sets: &[&'static str]) -> Option<&'static str> {
    for rows in sets {
        if let Some(row) = first_wrong(alloc, *rows) {
            return Some(row);
        }
    }
    None
}

const TAKEN: [&str; 8] = [
    STRUCTS, ENUMS, UNIONS, DEFAULTS, FIELDS, NAMESPACES, STATEMENTS, INCLUDED,
];

#[test]
fn taken(rt: HostRuntime) {
    assert!(rt; first_wrong_of(rt.alloc(), &TAKEN).is_none());
}

#[test]
fn settled_here(rt: HostRuntime) {
    assert!(rt; first_wrong_of(rt.alloc(), &[TAKEN_HERE, SETTLED_HERE]).is_none());
}
