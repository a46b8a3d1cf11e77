//! Single tokens.

ghost use Rattle.std.specs.Prelude.{◌≡◌, true, false, Ok, MatchOption};
ghost use Rattle.planus_syntax.specs.Tokens.{pieces_of};
ghost use Rattle.planus_syntax.specs.Values.{digits_of, label_of};
ghost use Rattle.planus_syntax.specs.Reading as spec;
ghost use Rattle.planus_syntax.specs.Counting.{GivesCounted, LabelCounted};

use crate::parse_fault::ParseFault;
use crate::read_error::ReadError;
use crate::token::Token;
use crate::value::Label;
use std::alloc::Global;

pub(crate) fn begins_mark(tokens: &[Token], mark: u8) -> bool
    ensures { result ≡ spec.begins_mark mark (pieces_of tokens.now) }
{
    match tokens.split_first() {
        Some((Token::Mark(byte), _)) => *byte == mark,
        _ => false,
    }
}

fn begins_closing(tokens: &[Token]) -> bool
    ensures { result ≡ spec.begins_closing (pieces_of tokens.now) }
{
    let mut rest = tokens;
    'tokens: while let Some((token, after)) = rest.split_first() {
        match token {
            Token::Doc(_) => rest = after,
            Token::Mark(byte) => return *byte == b'}',
            _ => return false,
        }
    }
    false
}

pub(crate) fn begins_next(tokens: &[Token]) -> bool
    ensures { result ≡ spec.begins_next (pieces_of tokens.now) }
{
    match tokens.split_first() {
        Some((Token::Mark(byte), rest)) => *byte == b',' && !begins_closing(rest),
        _ => false,
    }
}

pub(crate) fn inside(tokens: &[Token]) -> bool
    ensures { result ≡ spec.inside (pieces_of tokens.now) }
{
    !tokens.is_empty() && !begins_closing(tokens)
}

/// Returns whether there is more than documentation.
pub(crate) fn has_more(tokens: &[Token]) -> bool
    ensures { result ≡ spec.has_more (pieces_of tokens.now) }
{
    let mut rest = tokens;
    'tokens: while let Some((token, after)) = rest.split_first() {
        match token {
            Token::Doc(_) => rest = after,
            _ => return true,
        }
    }
    false
}

pub(crate) fn mark_at(tokens: &[Token], mark: u8) -> Result<&[Token], ReadError>
    ensures { spec.Gives (λ rest. pieces_of rest.now) result
        (spec.mark_at mark (pieces_of tokens.now)) }
{
    match tokens.split_first() {
        Some((Token::Mark(byte), rest)) if *byte == mark => Ok(rest),
        _ => Err(ReadError::Fault {
            fault: ParseFault::Mark(mark),
            left: tokens.len(),
        }),
    }
}

pub(crate) fn after_mark(tokens: &[Token], mark: u8) -> Option<&[Token]>
    ensures { MatchOption result (spec.begins_mark mark (pieces_of tokens.now) ≡ false)
        (λ rest. (spec.begins_mark mark (pieces_of tokens.now) ≡ true)
        × (spec.mark_at mark (pieces_of tokens.now) ≡ Ok (pieces_of rest.now))) }
{
    match tokens.split_first() {
        Some((Token::Mark(byte), rest)) if *byte == mark => Some(rest),
        _ => None,
    }
}

pub(crate) fn word_at(alloc: Global, tokens: &[Token]) -> Result<(Vec<u8>, &[Token]), ReadError>
    ensures { spec.Gives (λ x. (x.0.items, pieces_of x.1.now)) result
        (spec.word_at (pieces_of tokens.now)) }
{
    match tokens.split_first() {
        Some((Token::Word(bytes), rest)) => Ok((Vec::from_slice(alloc, bytes)?, rest)),
        _ => Err(ReadError::Fault {
            fault: ParseFault::Word,
            left: tokens.len(),
        }),
    }
}

pub(crate) fn number_at(alloc: Global, tokens: &[Token]) -> Result<(Vec<u8>, &[Token]), ReadError>
    ensures { spec.Gives (λ x. (x.0.items, pieces_of x.1.now)) result
        (spec.number_at (pieces_of tokens.now)) }
{
    match tokens.split_first() {
        Some((Token::Number(bytes), rest)) => Ok((Vec::from_slice(alloc, bytes)?, rest)),
        _ => Err(ReadError::Fault {
            fault: ParseFault::Number,
            left: tokens.len(),
        }),
    }
}

/// Returns the number after this mark, if the mark is first.
pub(crate) fn number_after(
    alloc: Global,
    mark: u8,
    tokens: &[Token],
) -> Result<(Option<Vec<u8>>, &[Token]), ReadError>
    ensures { spec.Gives (λ x. (digits_of x.0, pieces_of x.1.now)) result
        (spec.optional_at mark spec.number_at (pieces_of tokens.now)) }
{
    match after_mark(tokens, mark) {
        Some(rest) => {
            let (number, rest) = or_return!(number_at(alloc, rest));
            Ok((Some(number), rest))
        }
        None => Ok((None, tokens)),
    }
}

pub(crate) fn text_at(alloc: Global, tokens: &[Token]) -> Result<(Vec<u8>, &[Token]), ReadError>
    ensures { spec.Gives (λ x. (x.0.items, pieces_of x.1.now)) result
        (spec.text_at (pieces_of tokens.now)) }
{
    match tokens.split_first() {
        Some((Token::Text(bytes), rest)) => Ok((Vec::from_slice(alloc, bytes)?, rest)),
        _ => Err(ReadError::Fault {
            fault: ParseFault::Text,
            left: tokens.len(),
        }),
    }
}

pub(crate) fn label_at(alloc: Global, tokens: &[Token]) -> Result<(Label, &[Token]), ReadError>
    ensures { GivesCounted (λ x. LabelCounted x.0 (pieces_of x.1.now))
        (λ x. (label_of x.0, pieces_of x.1.now)) result
        (spec.label_at (pieces_of tokens.now)) }
{
    match tokens.split_first() {
        Some((Token::Word(bytes), rest)) => Ok((
            Label {
                left: tokens.len(),
                quoted: false,
                name: Vec::from_slice(alloc, bytes)?,
            },
            rest,
        )),
        Some((Token::Text(bytes), rest)) => Ok((
            Label {
                left: tokens.len(),
                quoted: true,
                name: Vec::from_slice(alloc, bytes)?,
            },
            rest,
        )),
        _ => Err(ReadError::Fault {
            fault: ParseFault::Word,
            left: tokens.len(),
        }),
    }
}
