//! Lists, each of items of one kind.

ghost use Rattle.std.specs.Prelude.{◌≡◌, ◌∷◌, [], Bool, false, List, map, IfOk};
ghost use Rattle.planus_syntax.specs.Tokens.{Piece, pieces_of};
ghost use Rattle.planus_syntax.specs.Values.{Before};
ghost use Rattle.planus_syntax.specs.Reading.{Reads, Listed};
ghost use Rattle.planus_syntax.specs.Counting.{EachCounted, GivesCounted};
ghost use Rattle.planus_syntax.specs.Reading.{list_at, with_items};

use crate::read_error::ReadError;
use crate::token::Token;
use std::alloc::Global;

/// What a list is of.
pub(crate) trait Items {
    ghost Value: { Type 0 };

    ghost goes_on: { List Piece → Bool };

    ghost item_at: { List Piece → Reads Value };

    ghost value_of: { Self.Item → Value };

    ghost before: { Before Value };

    ghost Counted: { Self.Item → List Piece → Type 0 };

    type Item: Drop;

    /// Returns whether another item follows.
    fn goes_on(tokens: &[Token]) -> bool
        ensures { result ≡ goes_on (pieces_of tokens.now) };

    fn item_at(alloc: Global, tokens: &[Token]) -> Result<(Self::Item, &[Token]), ReadError>
        ensures { GivesCounted (λ x. Counted x.0 (pieces_of x.1.now))
            (λ x. (value_of x.0, pieces_of x.1.now)) result (item_at (pieces_of tokens.now)) };
}

/// Reads the items that follow these.
fn items_after<L: Items>(
    alloc: Global,
    mut items: Vec<L::Item>,
    tokens: &[Token],
) -> Result<(Vec<L::Item>, &[Token]), ReadError>
    requires listed { Listed L.goes_on L.item_at L.before }
    requires counted { EachCounted L.Counted L.value_of L.before items.items
        (pieces_of tokens.now) }
    ensures reads { GivesCounted (λ x. EachCounted L.Counted L.value_of L.before x.0.items
        (pieces_of x.1.now)) (λ x. (map L.value_of x.0.items, pieces_of x.1.now)) result
        (with_items (map L.value_of items.items)
        (list_at L.goes_on L.item_at (pieces_of tokens.now))) }
    ensures end { IfOk result (λ x. L.goes_on (pieces_of x.1.now) ≡ false) }
{
    let mut rest = tokens;
    'items: while L::goes_on(rest) {
        let (item, after) = or_return!(L::item_at(alloc, rest));
        items.push(item)?;
        rest = after;
    }
    Ok((items, rest))
}

pub(crate) fn list_of<L: Items>(
    alloc: Global,
    tokens: &[Token],
) -> Result<(Vec<L::Item>, &[Token]), ReadError>
    requires { Listed L.goes_on L.item_at L.before }
    ensures reads { GivesCounted (λ x. EachCounted L.Counted L.value_of L.before x.0.items
        (pieces_of x.1.now)) (λ x. (map L.value_of x.0.items, pieces_of x.1.now)) result
        (list_at L.goes_on L.item_at (pieces_of tokens.now)) }
    ensures end { IfOk result (λ x. L.goes_on (pieces_of x.1.now) ≡ false) }
{
    items_after::<L>(alloc, Vec::new(alloc), tokens)
}

pub(crate) fn list_after<L: Items>(
    alloc: Global,
    first: L::Item,
    tokens: &[Token],
) -> Result<(Vec<L::Item>, &[Token]), ReadError>
    requires listed { Listed L.goes_on L.item_at L.before }
    requires counted { L.Counted first (pieces_of tokens.now) }
    ensures { GivesCounted (λ x. EachCounted L.Counted L.value_of L.before x.0.items
        (pieces_of x.1.now)) (λ x. (map L.value_of x.0.items, pieces_of x.1.now)) result
        (with_items (L.value_of first ∷ []) (list_at L.goes_on L.item_at (pieces_of tokens.now))) }
{
    let mut items = Vec::new(alloc);
    items.push(first)?;
    items_after::<L>(alloc, items, tokens)
}
