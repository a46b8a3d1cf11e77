//! Unions.

ghost use Rattle.std.specs.Prelude.{◌≡◌, true, false, map, IfOk, IfSome, Some, nat_eq, codes, ◌∷◌};
ghost use Rattle.std.specs.Prelude.{[]};
ghost use Rattle.std.specs.List.{list_any};
ghost use Rattle.planus_syntax.specs.Values as values_spec;
ghost use Rattle.planus_schema.specs.Distinct.{is_in};
ghost use Rattle.planus_resolve.specs.inner.Read.{names_of_members};
ghost use Rattle.planus_resolve.specs.inner.Read.{IsMemberRead, IsUnionRead};
ghost use Rattle.planus_resolve.specs.inner.Scopes.{scope_heads, scope_space};
ghost use Rattle.planus_resolve.specs.Unions as spec;
ghost use Rattle.planus_resolve.specs.Wrong.{Tells};
ghost use Rattle.planus_resolve.specs.WrongUnions.{target_path, wrong_target, wrong_member};
ghost use Rattle.planus_resolve.specs.WrongUnions.{wrong_members};
ghost use Rattle.planus_resolve.specs.WrongUnions.{wrong_union, wrong_flags};
ghost use Rattle.planus_resolve.specs.Names as names_spec;
ghost use Rattle.planus_resolve.specs.Fitting.{fits};

use crate::attributes::setting;
use crate::expected::Expected;
use crate::fault::{DeclarationError, FaultKind, or_return, wrong};
use crate::head::dotted_name;
use crate::kind::base_at;
use crate::lookup::Wanted;
use crate::names::copied;
use crate::scope::Scope;
use planus_schema::{Base, Union, UnionMember, integer};
use planus_syntax::{Attribute, Member, Path, UnionBody};

pub(crate) fn target_of(member: &Member) -> &Path
    ensures path { values_spec.path_of result.now ≡ spec.target_of (values_spec.member_of
        member.now) }
    ensures place { result.now ≡ target_path member.now }
{
    match &member.target {
        Some(path) => path,
        None => &member.path,
    }
}

pub(crate) fn wanted_of(member: &Member) -> Wanted
    ensures { names_spec.used_as result ≡ spec.wanted_of (values_spec.member_of member.now) }
{
    match &member.target {
        Some(_) => Wanted::AnyType,
        None => Wanted::Record,
    }
}

fn expected_as(wanted: Wanted) -> Expected
    ensures { result ≡ spec.expected_as (names_spec.used_as wanted) }
{
    match wanted {
        Wanted::AnyType => Expected::Member,
        Wanted::Record | Wanted::Root => Expected::Record,
    }
}

fn base_of(scope: &Scope, declared: &Member) -> Result<Base, DeclarationError>
    ensures named { IfOk result (λ b. names_spec.base_as (scope_heads scope.now)
        (spec.wanted_of (values_spec.member_of declared.now)) (scope_space scope.now)
        (spec.target_of (values_spec.member_of declared.now)) ≡ Some b) }
    ensures fits { IfOk result (λ b. fits (spec.expected_as (spec.wanted_of
        (values_spec.member_of declared.now))) b
        ≡ true) }
    ensures wrong { Tells (wrong_target (scope_heads scope.now)
        (spec.wanted_of (values_spec.member_of declared.now)) (scope_space scope.now)
        (target_path declared.now)) result }
{
    let wanted = wanted_of(declared);
    base_at(
        scope,
        wanted,
        target_of(declared),
        expected_as(wanted),
        FaultKind::NoUnionMember,
    )
}

fn tag_of(previous: u8, member: &Member) -> Option<u8>
    ensures within { IfSome result (λ n. spec.is_tag n ≡ true) }
    ensures said { result ≡ spec.tag_said (Some previous) (values_spec.member_of member.now).value }
{
    match &member.value {
        Some(digits) => match integer(digits) {
            Some(number) if !number.negative && 1 <= number.magnitude && number.magnitude <= 255 =>
                { Some(number.magnitude as u8) }
            _ => None,
        },
        None if previous < 255 => Some(previous + 1),
        None => None,
    }
}

fn member(scope: &Scope, declared: &Member, tag: u8) -> Result<UnionMember, DeclarationError>
    ensures read { IfOk result (λ m. spec.SaysMember (scope_heads scope.now) (scope_space scope.now)
        (values_spec.member_of declared.now) m × m.tag ≡ tag) }
    ensures wrong { Tells (wrong_target (scope_heads scope.now)
        (spec.wanted_of (values_spec.member_of declared.now)) (scope_space scope.now)
        (target_path declared.now)) result }
{
    let base = or_return!(base_of(scope, declared));
    let name = or_return!(
        dotted_name(
            scope.alloc,
            None,
            0,
            &declared.path.first,
            &declared.path.more
        ),
        DeclarationError::OutOfMemory
    );
    let docs = or_return!(
        copied(scope.alloc, &declared.docs),
        DeclarationError::OutOfMemory
    );
    Ok(UnionMember {
        name,
        docs,
        base,
        tag,
    })
}

fn has_tag(members: &[UnionMember], tag: u8) -> bool
    ensures { result ≡ list_any (λ m. nat_eq m.tag tag) members.now }
{
    let mut rest = members;
    'members: while let Some((member, after)) = rest.split_first() {
        if member.tag == tag {
            return true;
        }
        rest = after;
    }
    false
}

/// Returns whether one of these has this name, or it is `NONE`.
fn is_taken(members: &[UnionMember], name: &[u8]) -> bool
    ensures { result ≡ is_in (names_of_members members.now) name.now }
{
    if b"NONE".as_slice() == name {
        return true;
    }
    let mut rest = members;
    'members: while let Some((member, after)) = rest.split_first() {
        if member.name.as_slice() == name {
            return true;
        }
        rest = after;
    }
    false
}

fn next_member(
    scope: &Scope,
    declared: &Member,
    previous: u8,
    members: &[UnionMember],
) -> Result<UnionMember, DeclarationError>
    ensures read { IfOk result (λ m. IsMemberRead (scope_heads scope.now) (scope_space scope.now)
        previous members.now declared.now m) }
    ensures wrong { Tells (wrong_member (scope_heads scope.now) (scope_space scope.now)
        (Some previous)
        (map spec.tag_in members.now) declared.now) result }
{
    let tag = match tag_of(previous, declared) {
        Some(tag) => tag,
        None => return Err(wrong(FaultKind::TagOutOfRange, declared.path.left)),
    };
    if has_tag(members, tag) {
        return Err(wrong(FaultKind::TagTaken, declared.path.left));
    }
    member(scope, declared, tag)
}

fn members_of(scope: &Scope, declared: &[Member]) -> Result<Union, DeclarationError>
    ensures read { IfOk result (λ u. IsUnionRead (scope_heads scope.now) (scope_space scope.now)
        declared.now u) }
    ensures wrong { Tells (wrong_members (scope_heads scope.now) (scope_space scope.now) (Some 0)
        [] (codes "NONE" ∷ []) declared.now) result }
{
    let mut members = Vec::new(scope.alloc);
    let mut previous = 0;
    'members: for member in declared {
        let next = or_return!(next_member(scope, member, previous, &members));
        if is_taken(&members, &next.name) {
            return Err(wrong(FaultKind::MemberNameTaken, member.path.left));
        }
        previous = next.tag;
        members.push(next)?;
    }
    Ok(Union { members })
}

fn check_flags(attributes: &[Attribute]) -> Result<(), DeclarationError>
    ensures plain { IfOk result (λ _. names_spec.has (codes "bit_flags")
        (map values_spec.attribute_of attributes.now)
        ≡ false) }
    ensures wrong { Tells (wrong_flags (names_spec.attribute_named (codes "bit_flags")
        attributes.now))
        result }
{
    match setting(attributes, b"bit_flags") {
        Some(attribute) => Err(wrong(FaultKind::FlagsInUnion, attribute.label.left)),
        None => Ok(()),
    }
}

pub(crate) fn union_of(scope: &Scope, declared: &UnionBody) -> Result<Union, DeclarationError>
    ensures says { IfOk result (λ u. spec.SaysUnion (scope_heads scope.now) (scope_space scope.now)
        (values_spec.union_of declared.now) u) }
    ensures sound { IfOk result (λ u. spec.IsUnion u) }
    ensures wrong { Tells (wrong_union (scope_heads scope.now) (scope_space scope.now)
        declared.now) result }
{
    or_return!(check_flags(&declared.attributes));
    let union = or_return!(members_of(scope, &declared.members));
    Ok(union)
}
