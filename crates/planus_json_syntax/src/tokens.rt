//! Bytes to tokens.

ghost use Rattle.std.specs.Prelude.{◌≡◌, ◌≤◌, length, ◌+◌, IfErr, IfOk, IfSome, true, false};
ghost use Rattle.std.specs.Option.{option_map};
ghost use Rattle.std.specs.String.{string_bytes};
ghost use Rattle.std.specs.List.{list_all};
ghost use Rattle.planus_json_syntax.specs.Tokens as spec;
ghost use Rattle.planus_json_syntax.specs.Steps.{Gives, Skips, Splits, FitsIn, front_view, left_of};

use crate::fault_kind::FaultKind;
use crate::front::Front;
use crate::read_error::ReadError;
use crate::strings::string_at;
use crate::token::Token;
use std::alloc::{AllocError, Global};

fn is_blank(b: u8) -> bool
    ensures { result ≡ spec.is_blank b }
{
    b == b' ' || b == b'\t' || b == b'\n' || b == b'\r'
}

fn is_mark(b: u8) -> bool
    ensures { result ≡ spec.is_mark b }
{
    b"{}[]:,".contains(&b)
}

pub(crate) fn is_name_byte(b: u8) -> bool
    ensures { result ≡ spec.is_name_byte b }
{
    b.is_ascii_alphabetic() || b.is_ascii_digit() || b == b'_'
}

fn is_word_byte(b: u8) -> bool
    ensures { result ≡ spec.is_word_byte b }
{
    is_name_byte(b) || b == b'+' || b == b'-' || b == b'.'
}

/// Returns what follows the line feed.
fn line_at(bytes: &[u8]) -> &[u8]
    ensures skips { spec.line bytes.now ≡ spec.skip result.now }
    ensures shorter { length result.now ≤ length bytes.now }
{
    let mut rest = bytes;
    'bytes: while let Some((first, after)) = rest.split_first() {
        if *first == b'\n' {
            return after;
        }
        rest = after;
    }
    rest
}

/// Returns what follows the `*/`.
fn block_at(bytes: &[u8]) -> Result<&[u8], ReadError>
    ensures skips { Skips (spec.block false bytes.now) result }
    ensures shorter { IfOk result (λ rest. length rest.now ≤ length bytes.now) }
    ensures within { IfErr result (λ error. left_of error ≤ length bytes.now) }
{
    let mut rest = bytes;
    let mut starred = false;
    'bytes: while let Some((first, after)) = rest.split_first() {
        if starred && *first == b'/' {
            return Ok(after);
        }
        starred = *first == b'*';
        rest = after;
    }
    Err(ReadError::Fault {
        kind: FaultKind::OpenComment,
        left: 0,
    })
}

/// Returns what follows the comment whose first slash stood before these bytes.
fn comment_at(bytes: &[u8]) -> Result<&[u8], ReadError>
    ensures skips { Skips (spec.slash bytes.now) result }
    ensures shorter { IfOk result (λ rest. length rest.now ≤ length bytes.now) }
    ensures within { IfErr result (λ error. left_of error ≤ length bytes.now + 1) }
{
    match bytes.split_first() {
        Some((b'/', rest)) => Ok(line_at(rest)),
        Some((b'*', rest)) => block_at(rest),
        _ => Err(ReadError::Fault {
            kind: FaultKind::Strange,
            left: bytes.len() + 1,
        }),
    }
}

/// Returns what follows the blanks and comments.
fn skip(bytes: &[u8]) -> Result<&[u8], ReadError>
    ensures skips { Gives (λ rest. rest.now) result (spec.skip bytes.now) }
    ensures shorter { IfOk result (λ rest. length rest.now ≤ length bytes.now) }
    ensures within { IfErr result (λ error. left_of error ≤ length bytes.now) }
{
    let mut rest = bytes;
    'bytes: while let Some((first, after)) = rest.split_first() {
        if is_blank(*first) {
            rest = after;
        } else if *first == b'/' {
            rest = comment_at(after)?;
        } else {
            return Ok(rest);
        }
    }
    Ok(rest)
}

fn split_word(bytes: &[u8]) -> (&[u8], &[u8])
    ensures { Splits bytes.now result.0.now result.1.now }
{
    let mut length = 0;
    'bytes: for b in bytes {
        if !is_word_byte(*b) {
            return bytes.split_at(length);
        }
        length += 1;
    }
    (bytes, &[])
}

fn word_text(alloc: Global, word: &[u8]) -> Result<String, AllocError>
    requires { list_all spec.is_word_byte word.now ≡ true }
    ensures { IfOk result (λ text. string_bytes text ≡ word.now) }
{
    match std::str::from_utf8(word) {
        Ok(text) => String::from_str(alloc, text),
        Err(_) => unreachable!(),
    }
}

/// Returns the token that begins with the first byte.
fn front_at(alloc: Global, bytes: &[u8]) -> Result<Option<Front<'_>>, ReadError>
    ensures reads { Gives (option_map front_view) result (spec.front_at bytes.now) }
    ensures fits { IfOk result (λ found. IfSome found (λ front. FitsIn front bytes.now)) }
    ensures within { IfErr result (λ error. left_of error ≤ length bytes.now) }
{
    let left = bytes.len();
    let Some((first, after)) = bytes.split_first() else {
        return Ok(None);
    };
    let first = *first;
    if is_mark(first) {
        let token = Token::Mark(first);
        return Ok(Some(Front {
            token,
            left,
            rest: after,
        }));
    }
    if first == b'"' {
        let (text, rest) = or_return!(string_at(alloc, after));
        let token = Token::Text(text);
        return Ok(Some(Front { token, left, rest }));
    }
    if is_word_byte(first) {
        let (word, rest) = split_word(bytes);
        let token = Token::Word(word_text(alloc, word)?);
        return Ok(Some(Front { token, left, rest }));
    }
    let kind = FaultKind::Strange;
    Err(ReadError::Fault { kind, left })
}

/// Returns the first token after blanks and comments, or `None` at the text's end.
#[tactic(auto, unfolding(crate::specs::Tokens::next))]
pub(crate) fn next(alloc: Global, bytes: &[u8]) -> Result<Option<Front<'_>>, ReadError>
    ensures reads { Gives (option_map front_view) result (spec.next bytes.now) }
    ensures fits { IfOk result (λ found. IfSome found (λ front. FitsIn front bytes.now)) }
    ensures within { IfErr result (λ error. left_of error ≤ length bytes.now) }
{
    let rest = or_return!(skip(bytes));
    front_at(alloc, rest)
}
