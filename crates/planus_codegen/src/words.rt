//! The words of a text.

use std::alloc::{AllocError, Global};
use std::cmp::Ordering;

const ENSURES: &str = "ensures";

const REQUIRES: &str = "requires";

const GHOST: &str = "ghost";

const DOCS: &str = "///";

/// Which lines of a text are looked at.
#[derive(Clone, Copy)]
pub(crate) enum Part {
    Code,
    /// Each is one line until lines are broken.
    Clauses,
    /// All of a file of definitions.
    Definitions,
}

/// The words of a text that an import may bring: those not after a path, in a string or in the name
/// of an implementation.
#[derive(Drop)]
pub(crate) struct Words<'a> {
    /// In order, each once.
    words: Vec<&'a [u8]>,
}

// How a word compares with these letters and then those.
fn compare(word: &[u8], start: &[u8], end: &[u8]) -> Ordering {
    let front = word.get(..start.len()).unwrap_or(word);
    match front.cmp(start) {
        Ordering::Equal => word.get(start.len()..).unwrap_or(&[]).cmp(end),
        other => other,
    }
}

fn begins_with(line: &[u8], word: &str) -> bool {
    line.starts_with(word.as_bytes())
}

fn is_clause(line: &[u8]) -> bool {
    begins_with(line, ENSURES) || begins_with(line, REQUIRES) || begins_with(line, GHOST)
}

fn is_in(line: &[u8], part: Part) -> bool {
    let line = line.trim_ascii_start();
    match part {
        Part::Code => !is_clause(line) && !begins_with(line, DOCS),
        Part::Clauses => is_clause(line),
        Part::Definitions => true,
    }
}

// Brackets are words, but not in code.
fn is_word_byte(byte: u8, part: Part) -> bool {
    match byte {
        b'[' | b']' | b'=' => !matches!(part, Part::Code),
        b'A'..=b'Z' | b'a'..=b'z' | b'0'..=b'9' | b'_' | 3 | 0x80..=0xFF => true,
        _ => false,
    }
}

fn is_mark(byte: Option<&u8>, part: Part) -> bool {
    match byte {
        Some(b'.' | b':' | b'"') => true,
        Some(b'<') => !matches!(part, Part::Code),
        _ => false,
    }
}

impl<'a> Words<'a> {
    /// Returns the words of a part of a text.
    pub(crate) fn of(alloc: Global, text: &'a str, part: Part) -> Result<Words<'a>, AllocError> {
        let mut words = Words {
            words: Vec::new(alloc),
        };
        for line in text.as_bytes().split(|byte| *byte == b'\n') {
            if is_in(line, part) {
                words.add_line(line, part)?;
            }
        }
        words.words.sort()?;
        words.words.dedup();
        Ok(words)
    }

    fn add_line(&mut self, line: &'a [u8], part: Part) -> Result<(), AllocError> {
        let mut start = 0usize;
        for (at, byte) in line.iter().enumerate() {
            if !is_word_byte(*byte, part) {
                self.add(line, (start, at), part)?;
                start = at.saturating_add(1);
            }
        }
        self.add(line, (start, line.len()), part)
    }

    fn add(&mut self, line: &'a [u8], range: (usize, usize), part: Part) -> Result<(), AllocError> {
        let before = match range.0.checked_sub(1) {
            Some(before) => line.get(before),
            None => None,
        };
        if range.0 < range.1 && !is_mark(before, part) {
            if let Some(word) = line.get(range.0..range.1) {
                self.words.push(word)?;
            }
        }
        Ok(())
    }

    /// Returns whether there is a word of these letters and then those.
    pub(crate) fn has(&self, start: &[u8], end: &str) -> bool {
        let end = end.as_bytes();
        self.words
            .binary_search_by(|word| compare(word, start, end))
            .is_ok()
    }

    pub(crate) fn as_slice(&self) -> &[&'a [u8]] {
        self.words.as_slice()
    }
}
