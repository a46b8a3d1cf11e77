//! The tokens and comments of a text.

ghost use Rattle.std.specs.Prelude.{◌≡◌, ◌++◌, ◌∷◌, [], ℕ, List, map, IfOk, false, ◌==◌};
ghost use Rattle.std.specs.Option.{option_map};
ghost use Rattle.planus_syntax.specs.Tokens.{begins};
ghost use Rattle.planus_syntax.specs.Spelled.{Part, AreParts, part_bytes, spelled, tokens_in};
ghost use Rattle.planus_syntax.specs.Comments as spec;
ghost use Rattle.planus_syntax.specs.Elements.{comment_of, element_of, apart_bytes};

use crate::element::Element;
use crate::lexer::{after, is_blank, token_at};
use std::alloc::{AllocError, Global};

/// Returns a text without the blanks at its end.
fn trimmed(text: &[u8]) -> &[u8]
    ensures { result.now ≡ spec.trimmed text.now }
{
    let mut rest = text;
    'text: while let Some((last, front)) = rest.split_last() {
        if !is_blank(*last) {
            return rest;
        }
        rest = front;
    }
    rest
}

/// Returns what is between `/*` and `*/`, of what follows the `/`.
fn block_text(marked: &[u8]) -> &[u8]
    ensures { (w : List ℕ) → marked.now ≡ 42 ∷ (w ++ 42 ∷ 47 ∷ []) → result.now ≡ w }
{
    let Some((_, ended)) = marked.split_first() else {
        return marked;
    };
    let (text, _) = ended.split_at(ended.len().saturating_sub(2));
    text
}

/// Returns whether two line feeds are among the blanks that a text begins with, before more.
fn has_two_feeds(bytes: &[u8]) -> bool
    ensures { result ≡ apart_bytes false false bytes.now }
{
    let (mut one, mut two) = (false, false);
    let mut rest = bytes;
    'bytes: while let Some((b, after)) = rest.split_first() {
        if !is_blank(*b) {
            return two;
        }
        two = two || (one && *b == b'\n');
        one = one || *b == b'\n';
        rest = after;
    }
    false
}

fn has_empty_line(bytes: &[u8]) -> bool
    ensures { (parts : List Part) → AreParts parts → bytes.now ≡ spelled parts
        → result ≡ spec.has_empty_line parts }
{
    has_two_feeds(bytes)
}

/// Returns the comment that a part is, which is no token, or `None` of a blank. The rest follows.
fn comment_in<'a>(starts: bool, part: &'a [u8], rest: &[u8]) -> Option<Element<'a>>
    ensures { (p : Part) (ps : List Part) → tokens_in (p ∷ []) ≡ [] → AreParts (p ∷ ps)
        → part.now ≡ part_bytes p → rest.now ≡ spelled ps
        → option_map element_of result ≡ comment_of starts p ps }
{
    let Some(marked) = after(part, b'/') else {
        return None;
    };
    let apart = starts && has_empty_line(rest);
    match after(marked, b'/') {
        Some(text) => Some(Element::Line {
            starts,
            apart,
            text: trimmed(text),
        }),
        None => Some(Element::Block {
            starts,
            apart,
            text: block_text(marked),
        }),
    }
}

fn is_feed(part: &[u8]) -> bool
    ensures { result ≡ begins (λ b. b == 10) part.now }
{
    match part.split_first() {
        Some((b, _)) => *b == b'\n',
        None => false,
    }
}

/// Adds the comment that a part is. Returns whether a line begins after it.
fn push_part<'a>(
    elements: &mut Vec<Element<'a>>,
    begun: bool,
    part: &'a [u8],
    rest: &[u8],
) -> Result<bool, AllocError>
    ensures { (p : Part) (ps : List Part) → tokens_in (p ∷ []) ≡ [] → AreParts (p ∷ ps)
        → part.now ≡ part_bytes p → rest.now ≡ spelled ps
        → IfOk result (λ next. map element_of elements.new.items ++ spec.elements_in next ps
        ≡ map element_of elements.old.items ++ spec.elements_in begun (p ∷ ps)) }
{
    match comment_in(begun, part, rest) {
        Some(element) => {
            elements.push(element)?;
            Ok(false)
        }
        None => Ok(begun || is_feed(part)),
    }
}

/// Returns the tokens and comments of a text whose tokens can be read.
pub(crate) fn elements<'a>(alloc: Global, text: &'a [u8]) -> Result<Vec<Element<'a>>, AllocError>
    ensures { IfOk result (λ elements. (parts : List Part) → AreParts parts
        → text.now ≡ spelled parts → map element_of elements.items ≡ spec.elements_of parts) }
{
    let mut elements = Vec::new(alloc);
    let mut begun = true;
    let mut rest = text;
    while !rest.is_empty() {
        match token_at(rest) {
            Ok((Some(token), after)) => {
                elements.push(Element::Token(token))?;
                begun = false;
                rest = after;
            }
            Ok((None, after)) => {
                let (part, _) = rest.split_at(rest.len() - after.len());
                begun = push_part(&mut elements, begun, part, after)?;
                rest = after;
            }
            Err(_) => return Ok(elements),
        }
    }
    Ok(elements)
}
