//! Unions.

ghost use Rattle.std.specs.Prelude.{map};
ghost use Rattle.planus_syntax.specs.Tokens.{pieces_of};
ghost use Rattle.planus_syntax.specs.Values.{MemberV, member_of, item_of, union as union_item};
ghost use Rattle.planus_syntax.specs.Reading as spec;
ghost use Rattle.planus_syntax.specs.Counting.{EachCounted, GivesCounted, ItemCounted, MemberCounted};
ghost use Rattle.planus_syntax.specs.Values.{member_before, next_before};

use crate::parse::attributes::{attributes_at, closing_at, docs_at, target_at};
use crate::parse::enums::comma_at;
use crate::parse::lists::{Items, list_after};
use crate::parse::paths::path_at;
use crate::parse::tokens::{begins_next, inside, mark_at, number_after, word_at};
use crate::read_error::ReadError;
use crate::token::Token;
use crate::value::{Item, Member, UnionBody};
use std::alloc::Global;

fn member_at(alloc: Global, tokens: &[Token]) -> Result<(Member, &[Token]), ReadError>
    ensures { GivesCounted (λ x. MemberCounted x.0 (pieces_of x.1.now))
        (λ x. (member_of x.0, pieces_of x.1.now)) result
        (spec.member_at (pieces_of tokens.now)) }
{
    let (docs, rest) = or_return!(docs_at(alloc, tokens));
    let (path, rest) = or_return!(path_at(alloc, rest));
    let (target, rest) = or_return!(target_at(alloc, rest));
    let (value, rest) = or_return!(number_after(alloc, b'=', rest));
    Ok((
        Member {
            docs,
            path,
            target,
            value,
        },
        rest,
    ))
}

/// The members of a union after the first.
pub(crate) struct MoreMembers;

impl Items for MoreMembers {
    ghost Value = { MemberV };

    ghost goes_on = { spec.begins_next };

    ghost item_at = { spec.next_member_at };

    ghost value_of = { member_of };

    ghost before = { next_before member_before };

    ghost Counted = { MemberCounted };

    type Item = Member;

    fn goes_on(tokens: &[Token]) -> bool {
        begins_next(tokens)
    }

    fn item_at(alloc: Global, tokens: &[Token]) -> Result<(Member, &[Token]), ReadError> {
        let rest = or_return!(mark_at(tokens, b','));
        member_at(alloc, rest)
    }
}

fn members_at(alloc: Global, tokens: &[Token]) -> Result<(Vec<Member>, &[Token]), ReadError>
    ensures { GivesCounted (λ x. EachCounted MemberCounted member_of (next_before member_before)
        x.0.items
        (pieces_of x.1.now)) (λ x. (map member_of x.0.items, pieces_of x.1.now)) result
        (spec.members_at (pieces_of tokens.now)) }
{
    let (first, rest) = or_return!(member_at(alloc, tokens));
    list_after::<MoreMembers>(alloc, first, rest)
}

fn members_inside(alloc: Global, tokens: &[Token]) -> Result<(Vec<Member>, &[Token]), ReadError>
    ensures { GivesCounted (λ x. EachCounted MemberCounted member_of (next_before member_before)
        x.0.items
        (pieces_of x.1.now)) (λ x. (map member_of x.0.items, pieces_of x.1.now)) result
        (spec.if_inside spec.members_at (pieces_of tokens.now)) }
{
    if inside(tokens) {
        members_at(alloc, tokens)
    } else {
        Ok((Vec::new(alloc), tokens))
    }
}

pub(crate) fn union_at(alloc: Global, tokens: &[Token]) -> Result<(Item, &[Token]), ReadError>
    ensures { GivesCounted (λ x. ItemCounted x.0 (pieces_of x.1.now))
        (λ x. (item_of x.0, pieces_of x.1.now)) result
        (spec.as_item union_item (spec.union_at (pieces_of tokens.now))) }
{
    let (name, rest) = or_return!(word_at(alloc, tokens));
    let (attributes, rest) = or_return!(attributes_at(alloc, rest));
    let rest = or_return!(mark_at(rest, b'{'));
    let (members, rest) = or_return!(members_inside(alloc, rest));
    let (comma, rest) = or_return!(comma_at(rest));
    let (trailing, rest) = or_return!(closing_at(alloc, rest));
    Ok((
        Item::Union(UnionBody {
            name,
            attributes,
            members,
            comma,
            trailing,
        }),
        rest,
    ))
}
