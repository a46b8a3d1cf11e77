//! A text that is printed.

use crate::at::At;
use crate::context::Context;
use std::alloc::AllocError;

/// Where a line may end.
pub(crate) const BREAK: char = '\u{1}';

/// Before each argument of a call, and after the last.
pub(crate) const ARGUMENT: char = '\u{2}';

/// Before a name that no import brings.
pub(crate) const OWN: char = '\u{3}';

/// Where a line ends and goes on.
pub(crate) const END: char = '\u{4}';

/// A piece of the code of a declaration.
#[derive(Clone, Copy)]
pub(crate) enum Piece {
    /// A template.
    Once(&'static str),
    /// A template for each member, and another one between them.
    Each(&'static str, &'static str),
    /// A template for each member, after its documentation or else these words.
    Documented(&'static str, &'static str),
}

/// A text to which more is added until memory is refused, and which then says so.
///
/// Templates are added to it. In a template
///
/// | Letters | Stand for |
/// |---|---|
/// | `$` and a letter | what `holes.rt` says |
/// | `~` | a blank where the line may end |
/// | `^` | a place where a call may be broken |
/// | `@` | the end of a line that goes on in the next |
/// | `%` | nothing: the name after it is brought by no import |
#[derive(Drop)]
pub(crate) struct Printer<'a> {
    pub(crate) context: &'a Context<'a>,
    text: String,
    failed: bool,
}

fn letter_of(letter: char) -> char {
    match letter {
        '~' => BREAK,
        '^' => ARGUMENT,
        '%' => OWN,
        '@' => END,
        letter => letter,
    }
}

impl<'a> Printer<'a> {
    pub(crate) fn new(context: &'a Context<'a>) -> Printer<'a> {
        Printer {
            context,
            text: String::new(context.alloc),
            failed: false,
        }
    }

    pub(crate) fn put(&mut self, template: &str, at: At) {
        let mut in_hole = false;
        for letter in template.chars() {
            if in_hole {
                self.put_hole(letter, at);
                in_hole = false;
            } else if letter == '$' {
                in_hole = true;
            } else {
                self.put_char(letter_of(letter));
            }
        }
    }

    /// Adds a template whose letters are no templates.
    pub(crate) fn put_plain(&mut self, template: &str, at: At) {
        let mut in_hole = false;
        for letter in template.chars() {
            if in_hole {
                self.put_plain_hole(letter, at);
                in_hole = false;
            } else if letter == '$' {
                in_hole = true;
            } else {
                self.put_char(letter_of(letter));
            }
        }
    }

    pub(crate) fn put_each(&mut self, template: &str, between: &str, at: At) {
        for place in 0..self.context.names.count(at.index) {
            if place > 0 {
                self.put(between, at);
            }
            self.put(template, at.member(place));
        }
    }

    pub(crate) fn put_pieces(&mut self, pieces: &[Piece], at: At) {
        for piece in pieces {
            match *piece {
                Piece::Once(template) => self.put(template, at),
                Piece::Each(template, between) => self.put_each(template, between, at),
                Piece::Documented(words, template) => self.put_members(words, template, at),
            }
        }
    }

    /// Adds a template for each member, after its documentation or else these words.
    fn put_members(&mut self, words: &str, template: &str, at: At) {
        for place in 0..self.context.names.count(at.index) {
            let at = at.member(place);
            self.put_docs("    ", self.context.docs(at), words, at);
            self.put(template, at);
        }
    }

    /// Adds documentation, a line each, or else a template.
    pub(crate) fn put_docs(&mut self, indent: &str, docs: &[Vec<u8>], words: &str, at: At) {
        if docs.is_empty() {
            self.put(words, at);
        }
        for line in docs {
            self.put_str(indent);
            self.put_doc(line);
        }
    }

    fn put_doc(&mut self, line: &[u8]) {
        self.put_str("///");
        let line = match str::from_utf8(line) {
            Ok(line) => line.trim_ascii(),
            Err(_) => "",
        };
        if !line.is_empty() {
            self.put_char(' ');
        }
        for letter in line.chars() {
            if letter >= ' ' {
                self.put_char(letter);
            }
        }
        self.put_char('\n');
    }

    /// Adds a number in decimal digits.
    pub(crate) fn put_number(&mut self, number: u64) {
        match format!(in self.context.alloc; "{number}") {
            Ok(digits) => self.put_str(digits.as_str()),
            Err(_) => self.failed = true,
        }
    }

    pub(crate) fn put_name(&mut self, name: &[u8]) {
        for letter in name {
            self.put_char(*letter as char);
        }
    }

    pub(crate) fn put_str(&mut self, text: &str) {
        if self.text.push_str(text).is_err() {
            self.failed = true;
        }
    }

    pub(crate) fn put_char(&mut self, letter: char) {
        if self.text.push(letter).is_err() {
            self.failed = true;
        }
    }

    pub(crate) fn join(&mut self, other: &Printer<'_>) {
        self.put_str(other.text.as_str());
        self.fail_as(other);
    }

    pub(crate) fn fail(&mut self) {
        self.failed = true;
    }

    pub(crate) fn fail_as(&mut self, other: &Printer<'_>) {
        self.failed = self.failed || other.failed;
    }

    /// Adds another printed text, if it isn't empty, after an empty line.
    pub(crate) fn join_apart(&mut self, other: &Printer<'_>) {
        if !other.text.is_empty() {
            self.put_char('\n');
        }
        self.join(other);
    }

    pub(crate) fn as_str(&self) -> &str {
        self.text.as_str()
    }

    /// Leaves nothing of the text.
    pub(crate) fn clear(&mut self) {
        self.text.clear();
    }

    /// Returns how many letters there are.
    pub(crate) fn columns(&self) -> usize {
        self.text.chars().count()
    }

    pub(crate) fn finish(self) -> Result<String, AllocError> {
        if self.failed {
            return Err(AllocError);
        }
        Ok(self.text)
    }
}
