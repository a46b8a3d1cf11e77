//! Documentation and attributes.

ghost use Rattle.std.specs.Prelude.{map};
ghost use Rattle.std.specs.Option.{option_map};
ghost use Rattle.planus_syntax.specs.Tokens.{pieces_of};
ghost use Rattle.planus_syntax.specs.Values.{Name, AttributeV, names_of, path_of};
ghost use Rattle.planus_syntax.specs.Values.{attribute_of};
ghost use Rattle.planus_syntax.specs.Reading as spec;
ghost use Rattle.planus_syntax.specs.Counting.{AttributeCounted, AttributesCounted, GivesCounted};
ghost use Rattle.planus_syntax.specs.Counting.{IfAny, PathCounted};
ghost use Rattle.planus_syntax.specs.Values.{attribute_before, doc_before, next_before};

use crate::parse::lists::{Items, list_after, list_of};
use crate::parse::literals::literal_after;
use crate::parse::paths::path_at;
use crate::parse::tokens::{after_mark, begins_mark, label_at, mark_at};
use crate::parse_fault::ParseFault;
use crate::read_error::ReadError;
use crate::token::Token;
use crate::value::{Attribute, Path};
use std::alloc::Global;

pub(crate) fn target_at(
    alloc: Global,
    tokens: &[Token],
) -> Result<(Option<Path>, &[Token]), ReadError>
    ensures { GivesCounted (λ x. IfAny PathCounted x.0 (pieces_of x.1.now))
        (λ x. (option_map path_of x.0, pieces_of x.1.now)) result
        (spec.optional_at 58 spec.path_at (pieces_of tokens.now)) }
{
    match after_mark(tokens, b':') {
        Some(rest) => {
            let (value, rest) = or_return!(path_at(alloc, rest));
            Ok((Some(value), rest))
        }
        None => Ok((None, tokens)),
    }
}

fn attribute_at(alloc: Global, tokens: &[Token]) -> Result<(Attribute, &[Token]), ReadError>
    ensures { GivesCounted (λ x. AttributeCounted x.0 (pieces_of x.1.now))
        (λ x. (attribute_of x.0, pieces_of x.1.now)) result
        (spec.attribute_at (pieces_of tokens.now)) }
{
    let (label, rest) = or_return!(label_at(alloc, tokens));
    let (value, rest) = or_return!(literal_after(alloc, b':', rest));
    Ok((Attribute { label, value }, rest))
}

/// The attributes after the first.
pub(crate) struct MoreAttributes;

impl Items for MoreAttributes {
    ghost Value = { AttributeV };

    ghost goes_on = { spec.begins_mark 44 };

    ghost item_at = { spec.next_attribute_at };

    ghost value_of = { attribute_of };

    ghost before = { next_before attribute_before };

    ghost Counted = { AttributeCounted };

    type Item = Attribute;

    fn goes_on(tokens: &[Token]) -> bool {
        begins_mark(tokens, b',')
    }

    fn item_at(alloc: Global, tokens: &[Token]) -> Result<(Attribute, &[Token]), ReadError> {
        let rest = or_return!(mark_at(tokens, b','));
        attribute_at(alloc, rest)
    }
}

#[tactic(auto, unfolding(crate::specs::Reading::attributes_at))]
pub(crate) fn attributes_at(
    alloc: Global,
    tokens: &[Token],
) -> Result<(Vec<Attribute>, &[Token]), ReadError>
    ensures { GivesCounted (λ x. AttributesCounted x.0.items (pieces_of x.1.now))
        (λ x. (map attribute_of x.0.items, pieces_of x.1.now)) result
        (spec.attributes_at (pieces_of tokens.now)) }
{
    match after_mark(tokens, b'(') {
        Some(rest) => {
            let (first, rest) = or_return!(attribute_at(alloc, rest));
            let (items, rest) = or_return!(list_after::<MoreAttributes>(alloc, first, rest));
            let rest = or_return!(mark_at(rest, b')'));
            Ok((items, rest))
        }
        None => Ok((Vec::new(alloc), tokens)),
    }
}

/// The lines of documentation.
pub(crate) struct Docs;

impl Items for Docs {
    ghost Value = { Name };

    ghost goes_on = { spec.begins_doc };

    ghost item_at = { spec.doc_at };

    ghost value_of = { λ line. line.items };

    ghost before = { doc_before };

    ghost Counted = { λ _ _. Unit {0} };

    type Item = Vec<u8>;

    fn goes_on(tokens: &[Token]) -> bool {
        match tokens.split_first() {
            Some((Token::Doc(_), _)) => true,
            _ => false,
        }
    }

    fn item_at(alloc: Global, tokens: &[Token]) -> Result<(Vec<u8>, &[Token]), ReadError> {
        match tokens.split_first() {
            Some((Token::Doc(bytes), rest)) => Ok((Vec::from_slice(alloc, bytes)?, rest)),
            _ => Err(ReadError::Fault {
                fault: ParseFault::Word,
                left: tokens.len(),
            }),
        }
    }
}

pub(crate) fn docs_at(
    alloc: Global,
    tokens: &[Token],
) -> Result<(Vec<Vec<u8>>, &[Token]), ReadError>
    ensures { spec.Gives (λ x. (names_of x.0.items, pieces_of x.1.now)) result
        (spec.list_at spec.begins_doc spec.doc_at (pieces_of tokens.now)) }
{
    list_of::<Docs>(alloc, tokens)
}

/// The closing brace, and the documentation before it.
pub(crate) fn closing_at(
    alloc: Global,
    tokens: &[Token],
) -> Result<(Vec<Vec<u8>>, &[Token]), ReadError>
    ensures { spec.Gives (λ x. (names_of x.0.items, pieces_of x.1.now)) result
        (spec.closing_at (pieces_of tokens.now)) }
{
    let (docs, rest) = or_return!(docs_at(alloc, tokens));
    let rest = or_return!(mark_at(rest, b'}'));
    Ok((docs, rest))
}
