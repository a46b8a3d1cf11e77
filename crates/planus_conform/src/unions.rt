//! What breaks at unions.

ghost use Rattle.std.specs.Prelude.{◌≡◌, ◌++◌, OnOk};
ghost use Rattle.std.specs.Option.{option_map};
ghost use Rattle.planus_conform.specs.Values as values_spec;
ghost use Rattle.planus_conform.specs.Breaks as spec;

use crate::breaks::{Break, Change, Place, Way};
use crate::types::same_base;
use crate::ways::{change_if, meets_new, meets_old, note};
use planus_schema::{Union, UnionMember};
use std::alloc::AllocError;

pub(crate) fn member_in(members: &[UnionMember], tag: u8) -> Option<&UnionMember>
    ensures { option_map (λ m. m.now) result ≡ values_spec.member_in members.now tag }
{
    'members: for member in members {
        if member.tag == tag {
            return Some(member);
        }
    }
    None
}

fn has_tag(members: &[UnionMember], tag: u8) -> bool
    ensures { result ≡ spec.is_member (values_spec.member_in members.now tag) }
{
    match member_in(members, tag) {
        Some(_) => true,
        None => false,
    }
}

fn is_member_moved(members: &[UnionMember], a: &UnionMember) -> bool
    ensures { result ≡ spec.is_member_moved members.now a.now }
{
    members.iter().any(|b| b.name.as_slice() == a.name.as_slice() && b.tag != a.tag)
}

fn member_change_to(
    met: bool,
    matches: &[Option<usize>],
    a: &UnionMember,
    b: Option<&UnionMember>,
) -> Option<Change>
    ensures { result
        ≡ spec.member_change_to met matches.now a.now (option_map (λ m. m.now) b.entry) }
{
    match b {
        Some(b) => change_if(!same_base(matches, a.base, b.base), Change::MemberChanged),
        None => change_if(met, Change::MemberRemoved),
    }
}

pub(crate) fn member_change(
    met: bool,
    matches: &[Option<usize>],
    members: &[UnionMember],
    a: &UnionMember,
) -> Option<Change>
    ensures { result ≡ spec.member_change met matches.now members.now a.now }
{
    if is_member_moved(members, a) {
        Some(Change::Moved)
    } else {
        member_change_to(met, matches, a, member_in(members, a.tag))
    }
}

fn add_members(
    breaks: &mut Vec<Break>,
    met: bool,
    matches: &[Option<usize>],
    declaration: usize,
    members: &[UnionMember],
    before: &[UnionMember],
) -> Result<(), AllocError>
    ensures { OnOk result (breaks.new.items ≡ breaks.old.items
        ++ spec.member_breaks met matches.now declaration members.now before.now) }
{
    'members: for a in before {
        note(
            breaks,
            Place::Member(declaration, a.tag),
            member_change(met, matches, members, a),
        )?;
    }
    Ok(())
}

fn add_added_members(
    breaks: &mut Vec<Break>,
    met: bool,
    declaration: usize,
    before: &[UnionMember],
    members: &[UnionMember],
) -> Result<(), AllocError>
    ensures { OnOk result (breaks.new.items ≡ breaks.old.items
        ++ spec.added_members met declaration before.now members.now) }
{
    'members: for b in members {
        note(
            breaks,
            Place::Member(declaration, b.tag),
            change_if(met && !has_tag(before, b.tag), Change::MemberAdded),
        )?;
    }
    Ok(())
}

pub(crate) fn add_union(
    breaks: &mut Vec<Break>,
    way: Way,
    matches: &[Option<usize>],
    declaration: usize,
    before: &Union,
    after: &Union,
) -> Result<(), AllocError>
    ensures { OnOk result (breaks.new.items ≡ breaks.old.items
        ++ spec.union_breaks way matches.now declaration before.now after.now) }
{
    add_members(
        breaks,
        meets_old(way),
        matches,
        declaration,
        &after.members,
        &before.members,
    )?;
    add_added_members(
        breaks,
        meets_new(way),
        declaration,
        &before.members,
        &after.members,
    )
}
