//! Tokens and comments to text.

ghost use Rattle.std.specs.Prelude.{◌≡◌, ◌++◌, ◌∷◌, List, map, IfOk, OnOk};
ghost use Rattle.planus_syntax.specs.Tokens.{bytes_of, word as word_piece};
ghost use Rattle.planus_syntax.specs.Cutting.{cut_piece};
ghost use Rattle.planus_syntax.specs.Layout as spec;
ghost use Rattle.std.specs.Option.{option_map};
ghost use Rattle.planus_syntax.specs.Spelled.{Part, AreParts, spelled};
ghost use Rattle.planus_syntax.specs.Comments as comments_spec;
ghost use Rattle.planus_syntax.specs.Comments.{canonical};
ghost use Rattle.planus_syntax.specs.Comments.{Element as ElementV};
ghost use Rattle.planus_syntax.specs.Elements.{element_of, woven_from};

use crate::comments::elements;
use crate::element::Element;
use crate::token::Lexeme;
use std::alloc::{AllocError, Global};

#[derive(Clone, Copy)]
pub(crate) struct Place {
    pub braces: bool,
    pub parentheses: bool,
}

fn is_mark(token: Lexeme<'_>, mark: u8) -> bool
    ensures { result ≡ spec.is_mark_of mark (cut_piece token.entry) }
{
    match token {
        Lexeme::Mark(byte) => byte == mark,
        _ => false,
    }
}

fn place_after(place: Place, token: Lexeme<'_>) -> Place
    ensures { result ≡ spec.place_after place (cut_piece token.entry) }
{
    let Lexeme::Mark(byte) = token else {
        return place;
    };
    match byte {
        b'{' => Place {
            braces: true,
            parentheses: false,
        },
        b'}' => Place {
            braces: false,
            parentheses: false,
        },
        b'(' => Place {
            braces: place.braces,
            parentheses: true,
        },
        b')' => Place {
            braces: place.braces,
            parentheses: false,
        },
        _ => place,
    }
}

fn is_tight_mark(b: u8) -> bool
    ensures { result ≡ spec.is_tight b }
{
    b":;,)]".contains(&b)
}

fn is_open(b: u8) -> bool
    ensures { result ≡ spec.is_open b }
{
    b"([.".contains(&b)
}

fn is_tight(token: Lexeme<'_>) -> bool
    ensures { result ≡ spec.is_tight_piece (cut_piece token.entry) }
{
    match token {
        Lexeme::Mark(byte) => is_tight_mark(byte),
        _ => false,
    }
}

fn is_number(token: Lexeme<'_>) -> bool
    ensures { result ≡ spec.is_number_piece (cut_piece token.entry) }
{
    match token {
        Lexeme::Number(_) => true,
        _ => false,
    }
}

fn is_doc(token: Lexeme<'_>) -> bool
    ensures { result ≡ spec.is_doc (cut_piece token.entry) }
{
    match token {
        Lexeme::Doc(_) => true,
        _ => false,
    }
}

fn is_glued(first: Lexeme<'_>, second: Lexeme<'_>) -> bool
    ensures { result ≡ spec.is_glued (cut_piece first.entry) (cut_piece second.entry) }
{
    match first {
        Lexeme::Word(_) => is_tight(second) || is_mark(second, b'.'),
        Lexeme::Number(_) | Lexeme::Text(_) => is_tight(second),
        Lexeme::Doc(_) => false,
        Lexeme::Mark(byte) => {
            (is_open(byte) && !(byte == b'.' && is_number(second))) || is_tight(second)
        }
    }
}

fn is_grouped_word(word: &[u8]) -> bool
    ensures { result ≡ spec.is_grouped (word_piece word.now) }
{
    word == b"include".as_slice()
        || word == b"native_include".as_slice()
        || word == b"attribute".as_slice()
        || word == b"file_identifier".as_slice()
        || word == b"file_extension".as_slice()
}

fn is_grouped(token: Lexeme<'_>) -> bool
    ensures { result ≡ spec.is_grouped (cut_piece token.entry) }
{
    match token {
        Lexeme::Word(word) => is_grouped_word(word),
        _ => false,
    }
}

fn new_line(place: Place, next: Lexeme<'_>) -> &'static [u8]
    ensures { result.now ≡ spec.new_line place (cut_piece next.entry) }
{
    if place.braces && !is_mark(next, b'}') {
        b"\n  "
    } else {
        b"\n"
    }
}

fn between_declarations(next: Lexeme<'_>) -> &'static [u8]
    ensures { result.now ≡ spec.between_declarations (cut_piece next.entry) }
{
    if is_grouped(next) { b"\n" } else { b"\n\n" }
}

fn spaced(next: Lexeme<'_>) -> &'static [u8]
    ensures { result.now ≡ spec.spaced (cut_piece next.entry) }
{
    if is_mark(next, b'}') {
        b"\n"
    } else if is_doc(next) {
        b"\n  "
    } else {
        b" "
    }
}

fn after_mark(place: Place, mark: u8, next: Lexeme<'_>) -> &'static [u8]
    ensures { result.now ≡ spec.after_mark place mark (cut_piece next.entry) }
{
    if mark == b'}' {
        b"\n\n"
    } else if mark == b';' {
        if place.braces {
            new_line(place, next)
        } else {
            between_declarations(next)
        }
    } else if mark == b'{' || (mark == b',' && !place.parentheses) {
        new_line(place, next)
    } else {
        spaced(next)
    }
}

fn apart(place: Place, first: Lexeme<'_>, next: Lexeme<'_>) -> &'static [u8]
    ensures { result.now ≡ spec.apart place (cut_piece first.entry) (cut_piece next.entry) }
{
    match first {
        Lexeme::Doc(_) => new_line(place, next),
        Lexeme::Mark(byte) => after_mark(place, byte, next),
        _ => spaced(next),
    }
}

/// Returns whether the second token is the number of an array's items, as in `[int:3]`.
fn is_count(place: Place, first: Lexeme<'_>, second: Lexeme<'_>) -> bool
    ensures { result ≡ spec.is_count_piece place (cut_piece first.entry) (cut_piece second.entry) }
{
    is_mark(first, b':') && is_number(second) && !place.parentheses
}

/// Returns what is between a token and the next, where no comment is between them.
fn gap(place: Place, token: Lexeme<'_>, next: Lexeme<'_>) -> &'static [u8]
    ensures { result.now ≡ spec.gap place (cut_piece token.entry) (cut_piece next.entry) }
{
    if is_count(place, token, next) || is_glued(token, next) {
        b""
    } else {
        apart(place, token, next)
    }
}

fn is_empty_line(gap: &[u8]) -> bool
    ensures { result ≡ comments_spec.is_empty_line gap.now }
{
    gap == b"\n\n".as_slice()
}

fn breaks(gap: &[u8]) -> bool
    ensures { result ≡ comments_spec.breaks gap.now }
{
    match gap.split_first() {
        Some((first, _)) => *first == b'\n',
        None => false,
    }
}

/// What comes before the next token or comment.
#[derive(Clone, Copy)]
pub(crate) struct Before {
    pub place: Place,
    /// Before a token, or at the end.
    pub gap: &'static [u8],
    /// A new line for that token.
    pub line: &'static [u8],
    /// Whether an empty line is before a comment that begins its line.
    pub empty: bool,
}

/// Returns the next token.
fn next_token<'a>(elements: &[Element<'a>]) -> Option<Lexeme<'a>>
    ensures { option_map cut_piece result ≡ comments_spec.next_piece (map element_of elements.now) }
{
    'elements: for element in elements {
        if let Element::Token(token) = *element {
            return Some(token);
        }
    }
    None
}

/// Returns what comes after a token, before this token.
fn after_token(place: Place, token: Lexeme<'_>, next: Option<Lexeme<'_>>) -> Before
    ensures place { result.place ≡ place }
    ensures gap { result.gap.now
        ≡ comments_spec.gap_to place (cut_piece token.entry) (option_map cut_piece next.entry) }
    ensures line { result.line.now ≡ comments_spec.line_to place (option_map cut_piece next.entry) }
    ensures empty { result.empty
        ≡ comments_spec.empty_to place (cut_piece token.entry) (option_map cut_piece next.entry) }
{
    match next {
        None => Before {
            place,
            gap: b"\n",
            line: b"\n",
            empty: is_empty_line(gap(place, token, Lexeme::Doc(b""))),
        },
        Some(next) => {
            let gap = gap(place, token, next);
            Before {
                place,
                gap,
                line: new_line(place, next),
                empty: is_empty_line(gap),
            }
        }
    }
}

fn put_token(out: &mut Vec<u8>, token: Lexeme<'_>) -> Result<(), AllocError>
    ensures { OnOk result (out.new.items ≡ out.old.items ++ bytes_of (cut_piece token.entry)) }
{
    match token {
        Lexeme::Word(bytes) | Lexeme::Number(bytes) | Lexeme::Text(bytes) => {
            out.extend_from_slice(bytes)
        }
        Lexeme::Doc(bytes) => {
            out.extend_from_slice(b"///")?;
            out.extend_from_slice(bytes)
        }
        Lexeme::Mark(byte) => {
            out.push(byte)?;
            Ok(())
        }
    }
}

/// Writes what is before a comment.
fn put_before(out: &mut Vec<u8>, before: Before, starts: bool) -> Result<(), AllocError>
    ensures { OnOk result (out.new.items
        ≡ out.old.items ++ comments_spec.before_comment starts before.place before.empty) }
{
    if !starts {
        return out.extend_from_slice(b" ");
    }
    if before.empty {
        out.push(b'\n')?;
    }
    if before.place.braces {
        out.extend_from_slice(b"\n  ")
    } else {
        out.extend_from_slice(b"\n")
    }
}

/// Writes the empty line that is after a comment.
fn put_empty(out: &mut Vec<u8>, apart: bool) -> Result<(), AllocError>
    ensures { OnOk result (out.new.items ≡ out.old.items ++ comments_spec.empty_line apart) }
{
    if apart {
        out.push(b'\n')?;
    }
    Ok(())
}

fn after_line(starts: bool, before: Before) -> &'static [u8]
    ensures { result.now ≡ comments_spec.after_line starts before.gap.now before.line.now }
{
    if !starts && breaks(before.gap) {
        before.gap
    } else {
        before.line
    }
}

fn after_block(starts: bool, before: Before) -> &'static [u8]
    ensures { result.now ≡ comments_spec.after_block starts before.gap.now before.line.now }
{
    if starts {
        before.line
    } else if breaks(before.gap) {
        before.gap
    } else {
        b" "
    }
}

/// Writes a comment to the end of its line. Returns what comes after it.
fn put_line(
    out: &mut Vec<u8>,
    before: Before,
    starts: bool,
    apart: bool,
    text: &[u8],
) -> Result<Before, AllocError>
    ensures { IfOk result (λ next. (es : List ElementV) → out.new.items ++ woven_from next es
        ≡ out.old.items ++ woven_from before (comments_spec.line_comment starts apart text.now
        ∷ es)) }
{
    put_before(out, before, starts)?;
    out.extend_from_slice(b"//")?;
    out.extend_from_slice(text)?;
    put_empty(out, apart)?;
    Ok(Before {
        place: before.place,
        gap: after_line(starts, before),
        line: before.line,
        empty: !starts && before.empty,
    })
}

/// Writes a comment to `*/`. Returns what comes after it.
fn put_block(
    out: &mut Vec<u8>,
    before: Before,
    starts: bool,
    apart: bool,
    text: &[u8],
) -> Result<Before, AllocError>
    ensures { IfOk result (λ next. (es : List ElementV) → out.new.items ++ woven_from next es
        ≡ out.old.items ++ woven_from before (comments_spec.block_comment starts apart text.now
        ∷ es)) }
{
    put_before(out, before, starts)?;
    out.extend_from_slice(b"/*")?;
    out.extend_from_slice(text)?;
    out.extend_from_slice(b"*/")?;
    put_empty(out, apart)?;
    Ok(Before {
        place: before.place,
        gap: after_block(starts, before),
        line: before.line,
        empty: !starts && before.empty,
    })
}

/// Writes a token or a comment, before these. Returns what comes after it.
fn put_element(
    out: &mut Vec<u8>,
    before: Before,
    element: Element<'_>,
    rest: &[Element<'_>],
) -> Result<Before, AllocError>
    ensures { IfOk result (λ next. out.new.items ++ woven_from next (map element_of rest.now)
        ≡ out.old.items
        ++ woven_from before (element_of element.entry ∷ map element_of rest.now)) }
{
    match element {
        Element::Token(token) => {
            out.extend_from_slice(before.gap)?;
            put_token(out, token)?;
            let place = place_after(before.place, token);
            Ok(after_token(place, token, next_token(rest)))
        }
        Element::Line {
            starts,
            apart,
            text,
        } => put_line(out, before, starts, apart, text),
        Element::Block {
            starts,
            apart,
            text,
        } => put_block(out, before, starts, apart, text),
    }
}

/// Writes tokens and comments, as after a line feed.
fn put_elements(alloc: Global, elements: &[Element<'_>]) -> Result<Vec<u8>, AllocError>
    ensures { IfOk result (λ out. out.items ≡ comments_spec.canonical_after_feed
        (map element_of elements.now)) }
{
    let mut out = Vec::new(alloc);
    let mut before = Before {
        place: Place {
            braces: false,
            parentheses: false,
        },
        gap: b"\n",
        line: b"\n",
        empty: false,
    };
    'elements: for (index, element) in elements.iter().enumerate() {
        let (_, after) = elements.split_at(index + 1);
        before = put_element(&mut out, before, *element, after)?;
    }
    out.extend_from_slice(before.gap)?;
    Ok(out)
}

/// Returns the canonical text of a text whose tokens can be read, with its comments.
pub(crate) fn canonical_text(alloc: Global, text: &[u8]) -> Result<Vec<u8>, AllocError>
    ensures { IfOk result (λ out. (parts : List Part) → AreParts parts → text.now ≡ spelled parts
        → out.items ≡ canonical (comments_spec.elements_of parts)) }
{
    let elements = elements(alloc, text)?;
    let mut out = put_elements(alloc, &elements)?;
    if !out.is_empty() {
        let _feed = out.remove(0);
    }
    Ok(out)
}
