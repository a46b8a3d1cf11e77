//! Whether the text of a union's verified view is its schema's.

ghost use Rattle.std.specs.Prelude.{◌≡◌, ◌++◌, IfOk, OnOk, IsTrue, true, false};
ghost use Rattle.std.specs.List.{flat_map};
ghost use Rattle.std.specs.Option.{option_copied};
ghost use Rattle.planus_tie.specs.Bare as bare_spec;
ghost use Rattle.planus_tie.specs.UnionViews as spec;

use crate::bare::bare;
use crate::holes::{Holes, has_text, push_filled};
use crate::naming::Naming;
use crate::ranks::rank_in;
use crate::reading::{after, after_in};
use crate::unions::{holes_of, members_of};
use planus_schema::{Base, Union};
use std::alloc::{AllocError, Global};

const KIND: &str = "impl planus_views::UnionKind for $T { ghost schema = { verified_schema }; \
     ghost union = { $i }; } #[derive(Clone, Copy, Debug)] \
     pub enum $TView<'a> {";

const TOGETHER: &str = "fn of_member(member: planus_views::Member<'a>) -> $TView<'a> { \
     match member.tag() {";

const ASKING: &str = "fn of_member(member: planus_views::Member<'a>) -> $TView<'a> { \
     view_from_0(member) } }";

fn view_holes(ranks: &[usize], index: usize) -> Holes
    ensures { result ≡ spec.view_holes ranks.now index }
{
    holes_of(index, 0, Base::Text, rank_in(ranks, index) as u64)
}

fn variant_text(base: Base) -> &'static str
    ensures { result.now ≡ spec.variant_text base }
{
    match base {
        Base::Table(_) => "$n($bView<'a>),",
        Base::Struct(_) => "$n(PlainRef<'a, $b>),",
        _ => "$n(&'a str),",
    }
}

fn push_variant(out: &mut Vec<u8>, naming: &Naming<'_>, member: Holes) -> Result<(), AllocError>
    ensures { OnOk result (out.new.items ≡ out.old.items
        ++ spec.variant_of naming.now member) }
{
    push_filled(out, naming, member, variant_text(member.base))
}

fn push_variants(
    out: &mut Vec<u8>,
    naming: &Naming<'_>,
    members: &[Holes],
) -> Result<(), AllocError>
    ensures { OnOk result (out.new.items ≡ out.old.items
        ++ flat_map (λ h. spec.variant_of naming.now h) members.now) }
{
    for member in members {
        push_variant(out, naming, *member)?;
    }
    Ok(())
}

fn narrow_arm(base: Base) -> &'static str
    ensures { result.now ≡ spec.arm_text false base }
{
    match base {
        Base::Table(_) => "$i => $TView::$n(member.table::<$T, _>($i)),",
        Base::Struct(_) => "$i => $TView::$n(member.plain::<$T, _>($i)),",
        _ => "$i => $TView::$n(member.text::<$T>($i)),",
    }
}

fn wide_arm(base: Base) -> &'static str
    ensures { result.now ≡ spec.arm_text true base }
{
    match base {
        Base::Table(_) => "$i => { let view = member.table::<$T, _>($i); $TView::$n(view) }",
        Base::Struct(_) => "$i => { let view = member.plain::<$T, _>($i); $TView::$n(view) }",
        _ => "$i => { let view = member.text::<$T>($i); $TView::$n(view) }",
    }
}

fn arm_text(wide: bool, base: Base) -> &'static str
    ensures { result.now ≡ spec.arm_text wide base }
{
    if wide {
        wide_arm(base)
    } else {
        narrow_arm(base)
    }
}

fn push_arm(
    out: &mut Vec<u8>,
    naming: &Naming<'_>,
    wide: bool,
    member: Holes,
) -> Result<(), AllocError>
    ensures { OnOk result (out.new.items ≡ out.old.items
        ++ spec.arm_of naming.now wide member) }
{
    push_filled(out, naming, member, arm_text(wide, member.base))
}

fn push_arms(
    out: &mut Vec<u8>,
    naming: &Naming<'_>,
    wide: bool,
    members: &[Holes],
) -> Result<(), AllocError>
    ensures { OnOk result (out.new.items ≡ out.old.items
        ++ flat_map (λ h. spec.arm_of naming.now wide h) members.now) }
{
    for member in members {
        push_arm(out, naming, wide, *member)?;
    }
    Ok(())
}

fn kind_text(
    alloc: Global,
    naming: &Naming<'_>,
    own: Holes,
    members: &[Holes],
) -> Result<Vec<u8>, AllocError>
    ensures { IfOk result (λ out. out.items ≡ spec.kind_text naming.now own members.now) }
{
    let mut out = Vec::new(alloc);
    push_filled(&mut out, naming, own, KIND)?;
    push_variants(&mut out, naming, members)?;
    Ok(out)
}

fn together_text(
    alloc: Global,
    naming: &Naming<'_>,
    wide: bool,
    own: Holes,
    members: &[Holes],
) -> Result<Vec<u8>, AllocError>
    ensures { IfOk result (λ out. out.items ≡ spec.together_text naming.now wide own members.now) }
{
    let mut out = Vec::new(alloc);
    push_filled(&mut out, naming, own, TOGETHER)?;
    push_arms(&mut out, naming, wide, members)?;
    push_filled(&mut out, naming, own, "tag => $TView::")?;
    Ok(out)
}

fn bare_arm(
    alloc: Global,
    naming: &Naming<'_>,
    wide: bool,
    member: Holes,
) -> Result<Vec<u8>, AllocError>
    ensures { IfOk result (λ out. out.items ≡ bare_spec.bare (spec.arm_of naming.now wide member)) }
{
    let mut out = Vec::new(alloc);
    push_arm(&mut out, naming, wide, member)?;
    bare(alloc, &out)
}

fn bare_asking(alloc: Global, naming: &Naming<'_>, own: Holes) -> Result<Vec<u8>, AllocError>
    ensures { IfOk result (λ out. out.items ≡ bare_spec.bare (spec.asking_text naming.now own)) }
{
    let mut out = Vec::new(alloc);
    push_filled(&mut out, naming, own, ASKING)?;
    bare(alloc, &out)
}

/// Returns what follows when each member's arm was found, in order.
fn behind_arms<'a>(
    alloc: Global,
    naming: &Naming<'_>,
    wide: bool,
    members: &[Holes],
    text: Option<&'a [u8]>,
) -> Result<Option<&'a [u8]>, AllocError>
    ensures { IfOk result (λ found. option_copied found
        ≡ spec.behind_arms naming.now wide members.now (option_copied text.entry)) }
{
    let mut found = text;
    let mut rest = members;
    'members: while let Some((member, next)) = rest.split_first() {
        let arm = bare_arm(alloc, naming, wide, *member)?;
        found = after_in(&arm, found);
        rest = next;
    }
    Ok(found)
}

fn has_chain(
    alloc: Global,
    naming: &Naming<'_>,
    wide: bool,
    own: Holes,
    members: &[Holes],
    text: &[u8],
) -> Result<bool, AllocError>
    ensures { IfOk result (λ b. b ≡ spec.has_chain naming.now wide own members.now text.now) }
{
    let asking = bare_asking(alloc, naming, own)?;
    let found = behind_arms(alloc, naming, wide, members, after(&asking, text))?;
    Ok(found.is_some())
}

fn has_arms(
    alloc: Global,
    naming: &Naming<'_>,
    wide: bool,
    own: Holes,
    members: &[Holes],
    text: &[u8],
) -> Result<bool, AllocError>
    ensures { IfOk result (λ b. b ≡ spec.has_arms naming.now wide own members.now text.now) }
{
    let wanted = together_text(alloc, naming, wide, own, members)?;
    if has_text(alloc, text, &wanted)? {
        return Ok(true);
    }
    has_chain(alloc, naming, wide, own, members, text)
}

fn is_union_view_text(
    alloc: Global,
    naming: &Naming<'_>,
    own: Holes,
    members: &[Holes],
    text: &[u8],
) -> Result<bool, AllocError>
    ensures { IfOk result (λ b. b ≡ spec.is_union_view_text naming.now own members.now text.now) }
{
    let kind = kind_text(alloc, naming, own, members)?;
    if !has_text(alloc, text, &kind)? {
        return Ok(false);
    }
    if has_arms(alloc, naming, false, own, members, text)? {
        return Ok(true);
    }
    has_arms(alloc, naming, true, own, members, text)
}

/// Returns whether this is the text of a union's verified view.
pub(crate) fn is_union_view_tied(
    alloc: Global,
    naming: &Naming<'_>,
    ranks: &[usize],
    index: usize,
    one: &Union,
    text: &[u8],
) -> Result<bool, AllocError>
    ensures { IfOk result (λ b. IsTrue b
        → spec.IsUnionViewTied naming.now ranks.now index one.now text.now) }
{
    let members = members_of(alloc, index, &one.members)?;
    let without = bare(alloc, text)?;
    is_union_view_text(alloc, naming, view_holes(ranks, index), &members, &without)
}
