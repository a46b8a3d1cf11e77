//! Names with dots, and types.

ghost use Rattle.std.specs.Prelude.{◌≡◌, ◌∷◌, List};
ghost use Rattle.planus_syntax.specs.Tokens.{Piece, mark, pieces_of};
ghost use Rattle.planus_syntax.specs.Values.{Name, path_of, kind_of, digits_of};
ghost use Rattle.planus_syntax.specs.Reading as spec;
ghost use Rattle.planus_syntax.specs.Counting.{GivesCounted, KindCounted, PathCounted};
ghost use Rattle.planus_syntax.specs.Values.{after_before, dotted_before, number_before};

use crate::parse::lists::{Items, list_of};
use crate::parse::tokens::{after_mark, begins_mark, mark_at, number_after, word_at};
use crate::read_error::ReadError;
use crate::token::Token;
use crate::value::{Kind, Path};
use std::alloc::Global;

/// The words of a name after its first dot.
pub(crate) struct MoreWords;

impl Items for MoreWords {
    ghost Value = { Name };

    ghost goes_on = { spec.begins_mark 46 };

    ghost item_at = { spec.dotted_at };

    ghost value_of = { λ word. word.items };

    ghost before = { dotted_before };

    ghost Counted = { λ _ _. Unit {0} };

    type Item = Vec<u8>;

    fn goes_on(tokens: &[Token]) -> bool {
        begins_mark(tokens, b'.')
    }

    fn item_at(alloc: Global, tokens: &[Token]) -> Result<(Vec<u8>, &[Token]), ReadError> {
        let rest = or_return!(mark_at(tokens, b'.'));
        word_at(alloc, rest)
    }
}

pub(crate) fn path_at(alloc: Global, tokens: &[Token]) -> Result<(Path, &[Token]), ReadError>
    ensures { GivesCounted (λ x. PathCounted x.0 (pieces_of x.1.now))
        (λ x. (path_of x.0, pieces_of x.1.now)) result
        (spec.path_at (pieces_of tokens.now)) }
{
    let (first, rest) = or_return!(word_at(alloc, tokens));
    let (more, rest) = or_return!(list_of::<MoreWords>(alloc, rest));
    Ok((
        Path {
            left: tokens.len(),
            first,
            more,
        },
        rest,
    ))
}

fn kind_in_brackets(path: Path, count: Option<Vec<u8>>) -> Kind
    ensures value { kind_of result
        ≡ spec.kind_in_brackets (path_of path) (digits_of count) }
    ensures counted { (rest : List Piece)
        → PathCounted path (after_before 58 number_before (digits_of count)
        (mark 93 ∷ rest)) → KindCounted result rest }
{
    match count {
        None => Kind::Vector(path),
        Some(count) => Kind::Array(path, count),
    }
}

pub(crate) fn kind_at(alloc: Global, tokens: &[Token]) -> Result<(Kind, &[Token]), ReadError>
    ensures { GivesCounted (λ x. KindCounted x.0 (pieces_of x.1.now))
        (λ x. (kind_of x.0, pieces_of x.1.now)) result
        (spec.kind_at (pieces_of tokens.now)) }
{
    match after_mark(tokens, b'[') {
        Some(rest) => {
            let (path, rest) = or_return!(path_at(alloc, rest));
            let (count, rest) = or_return!(number_after(alloc, b':', rest));
            let rest = or_return!(mark_at(rest, b']'));
            Ok((kind_in_brackets(path, count), rest))
        }
        None => {
            let (path, rest) = or_return!(path_at(alloc, tokens));
            Ok((Kind::Single(path), rest))
        }
    }
}
