//! Defaults.

ghost use Rattle.std.specs.Option.{option_map};
ghost use Rattle.planus_syntax.specs.Tokens.{pieces_of};
ghost use Rattle.planus_syntax.specs.Values.{literal_of};
ghost use Rattle.planus_syntax.specs.Reading as spec;
ghost use Rattle.planus_syntax.specs.Counting.{GivesCounted, IfAny, LiteralCounted};

use crate::parse::paths::path_at;
use crate::parse::tokens::{after_mark, mark_at};
use crate::parse_fault::ParseFault;
use crate::read_error::ReadError;
use crate::token::Token;
use crate::value::Literal;
use std::alloc::Global;

fn brackets_at(tokens: &[Token]) -> Result<(Literal, &[Token]), ReadError>
    ensures { GivesCounted (λ x. LiteralCounted x.0 (pieces_of x.1.now))
        (λ x. (literal_of x.0, pieces_of x.1.now)) result
        (spec.brackets_at (pieces_of tokens.now)) }
{
    let rest = or_return!(mark_at(tokens, b'['));
    let rest = or_return!(mark_at(rest, b']'));
    Ok((Literal::EmptyVector, rest))
}

fn name_at(alloc: Global, tokens: &[Token]) -> Result<(Literal, &[Token]), ReadError>
    ensures { GivesCounted (λ x. LiteralCounted x.0 (pieces_of x.1.now))
        (λ x. (literal_of x.0, pieces_of x.1.now)) result
        (spec.name_at (pieces_of tokens.now)) }
{
    let (path, rest) = or_return!(path_at(alloc, tokens));
    Ok((Literal::Name(path), rest))
}

fn literal_at(alloc: Global, tokens: &[Token]) -> Result<(Literal, &[Token]), ReadError>
    ensures { GivesCounted (λ x. LiteralCounted x.0 (pieces_of x.1.now))
        (λ x. (literal_of x.0, pieces_of x.1.now)) result
        (spec.literal_at (pieces_of tokens.now)) }
{
    match tokens.split_first() {
        Some((Token::Word(_), _)) => name_at(alloc, tokens),
        Some((Token::Number(bytes), rest)) => {
            Ok((Literal::Number(Vec::from_slice(alloc, bytes)?), rest))
        }
        Some((Token::Text(bytes), rest)) => {
            Ok((Literal::Text(Vec::from_slice(alloc, bytes)?), rest))
        }
        Some((Token::Mark(b'['), _)) => brackets_at(tokens),
        _ => Err(ReadError::Fault {
            fault: ParseFault::Literal,
            left: tokens.len(),
        }),
    }
}

pub(crate) fn literal_after(
    alloc: Global,
    mark: u8,
    tokens: &[Token],
) -> Result<(Option<Literal>, &[Token]), ReadError>
    ensures { GivesCounted (λ x. IfAny LiteralCounted x.0 (pieces_of x.1.now))
        (λ x. (option_map literal_of x.0, pieces_of x.1.now)) result
        (spec.optional_at mark spec.literal_at (pieces_of tokens.now)) }
{
    match after_mark(tokens, mark) {
        Some(rest) => {
            let (value, rest) = or_return!(literal_at(alloc, rest));
            Ok((Some(value), rest))
        }
        None => Ok((None, tokens)),
    }
}
