//! Enums.

ghost use Rattle.std.specs.Prelude.{map};
ghost use Rattle.planus_syntax.specs.Tokens.{pieces_of};
ghost use Rattle.planus_syntax.specs.Values.{VariantV, variant_of, item_of};
ghost use Rattle.planus_syntax.specs.Values.{enumeration as enumeration_item};
ghost use Rattle.planus_syntax.specs.Reading as spec;
ghost use Rattle.planus_syntax.specs.Counting.{EachCounted, GivesCounted, ItemCounted, VariantCounted};
ghost use Rattle.planus_syntax.specs.Values.{next_before, variant_before};

use crate::parse::attributes::{attributes_at, closing_at, docs_at};
use crate::parse::lists::{Items, list_after};
use crate::parse::paths::path_at;
use crate::parse::tokens::{after_mark, begins_next, inside, mark_at, number_after, word_at};
use crate::read_error::ReadError;
use crate::token::Token;
use crate::value::{Enumeration, Item, Variant};
use std::alloc::Global;

pub(crate) fn comma_at(tokens: &[Token]) -> Result<(bool, &[Token]), ReadError>
    ensures { spec.Gives (λ x. (x.0, pieces_of x.1.now)) result (spec.comma_at
        (pieces_of tokens.now)) }
{
    match after_mark(tokens, b',') {
        Some(rest) => Ok((true, rest)),
        None => Ok((false, tokens)),
    }
}

fn variant_at(alloc: Global, tokens: &[Token]) -> Result<(Variant, &[Token]), ReadError>
    ensures { GivesCounted (λ x. VariantCounted x.0 (pieces_of x.1.now))
        (λ x. (variant_of x.0, pieces_of x.1.now)) result
        (spec.variant_at (pieces_of tokens.now)) }
{
    let (docs, start) = or_return!(docs_at(alloc, tokens));
    let (name, rest) = or_return!(word_at(alloc, start));
    let (value, rest) = or_return!(number_after(alloc, b'=', rest));
    Ok((
        Variant {
            docs,
            left: start.len(),
            name,
            value,
        },
        rest,
    ))
}

/// The values of an enum after the first.
pub(crate) struct MoreVariants;

impl Items for MoreVariants {
    ghost Value = { VariantV };

    ghost goes_on = { spec.begins_next };

    ghost item_at = { spec.next_variant_at };

    ghost value_of = { variant_of };

    ghost before = { next_before variant_before };

    ghost Counted = { VariantCounted };

    type Item = Variant;

    fn goes_on(tokens: &[Token]) -> bool {
        begins_next(tokens)
    }

    fn item_at(alloc: Global, tokens: &[Token]) -> Result<(Variant, &[Token]), ReadError> {
        let rest = or_return!(mark_at(tokens, b','));
        variant_at(alloc, rest)
    }
}

fn variants_at(alloc: Global, tokens: &[Token]) -> Result<(Vec<Variant>, &[Token]), ReadError>
    ensures { GivesCounted (λ x. EachCounted VariantCounted variant_of
        (next_before variant_before) x.0.items
        (pieces_of x.1.now)) (λ x. (map variant_of x.0.items, pieces_of x.1.now)) result
        (spec.variants_at (pieces_of tokens.now)) }
{
    let (first, rest) = or_return!(variant_at(alloc, tokens));
    list_after::<MoreVariants>(alloc, first, rest)
}

fn variants_inside(alloc: Global, tokens: &[Token]) -> Result<(Vec<Variant>, &[Token]), ReadError>
    ensures { GivesCounted (λ x. EachCounted VariantCounted variant_of
        (next_before variant_before) x.0.items
        (pieces_of x.1.now)) (λ x. (map variant_of x.0.items, pieces_of x.1.now)) result
        (spec.if_inside spec.variants_at (pieces_of tokens.now)) }
{
    if inside(tokens) {
        variants_at(alloc, tokens)
    } else {
        Ok((Vec::new(alloc), tokens))
    }
}

pub(crate) fn enumeration_at(alloc: Global, tokens: &[Token]) -> Result<(Item, &[Token]), ReadError>
    ensures { GivesCounted (λ x. ItemCounted x.0 (pieces_of x.1.now))
        (λ x. (item_of x.0, pieces_of x.1.now)) result
        (spec.as_item enumeration_item (spec.enumeration_at (pieces_of tokens.now))) }
{
    let (name, rest) = or_return!(word_at(alloc, tokens));
    let rest = or_return!(mark_at(rest, b':'));
    let (base, rest) = or_return!(path_at(alloc, rest));
    let (attributes, rest) = or_return!(attributes_at(alloc, rest));
    let rest = or_return!(mark_at(rest, b'{'));
    let (variants, rest) = or_return!(variants_inside(alloc, rest));
    let (comma, rest) = or_return!(comma_at(rest));
    let (trailing, rest) = or_return!(closing_at(alloc, rest));
    Ok((
        Item::Enum(Enumeration {
            name,
            base,
            attributes,
            variants,
            comma,
            trailing,
        }),
        rest,
    ))
}
