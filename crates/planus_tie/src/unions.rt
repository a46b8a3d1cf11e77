//! Whether the text of a union is its schema's.

ghost use Rattle.std.specs.Prelude.{◌≡◌, ◌++◌, IfOk, OnOk, IsTrue, ◌||◌, true, false};
ghost use Rattle.planus_tie.specs.Unions as spec;

use crate::bare::bare;
use crate::holes::{Holes, has_text, push_chained, push_each, push_filled};
use crate::naming::Naming;
use planus_schema::{Base, Number, Union, UnionMember};
use std::alloc::{AllocError, Global};

const FROM: &str = "pub fn from_$V($G: Offset<$b>) -> UnionOffset<$T> ensures tag { \
     result.tag $= $i } ensures offset { result.offset.distance $= $G.distance } \
     { UnionOffset::new($i, $G.downcast()) }";

const READING: &str = "ghost reads = { ReadsVariants $M_variants }; fn from_buffer(\
     buffer: SliceWithStartOffset<'a>, tag: u8, offset: usize) \
     -> Result<$TRef<'a>, ErrorKind> {";

const CHAINED_NEXT: &str = "_ => from_$p(buffer, tag, offset), } }";

const CHAINED_HEAD: &str = "#[tactic(auto, unfolding(crate::specs::$T::from_$p_on))] fn from_$p<'a>\
     (buffer: SliceWithStartOffset<'a>, tag: u8, offset: usize) \
     -> Result<$TRef<'a>, ErrorKind> ensures { ReadsVariants $M_tags.from_$p_on \
     (slice_bytes buffer.entry) (slice_start buffer.entry) tag offset result } \
     { match tag {";

pub(crate) fn holes_of(index: usize, place: usize, base: Base, tag: u64) -> Holes
    ensures { result ≡ spec.holes_of index place base tag }
{
    Holes {
        index,
        place,
        base,
        number: Number {
            negative: false,
            magnitude: tag,
        },
        size: 0,
        alignment: 0,
        count: None,
        padding: 0,
    }
}

fn union_holes(index: usize) -> Holes
    ensures { result ≡ spec.union_holes index }
{
    holes_of(index, 0, Base::Text, 0)
}

pub(crate) fn members_of(
    alloc: Global,
    index: usize,
    members: &[UnionMember],
) -> Result<Vec<Holes>, AllocError>
    ensures { IfOk result (λ all. all.items ≡ spec.members_from index 0 members.now) }
{
    let mut all = Vec::new(alloc);
    let mut place = 0;
    'members: for member in members {
        all.push(holes_of(index, place, member.base, member.tag as u64))?;
        place += 1;
    }
    Ok(all)
}

fn push_kind(
    out: &mut Vec<u8>,
    naming: &Naming<'_>,
    own: Holes,
    members: &[Holes],
) -> Result<(), AllocError>
    ensures { OnOk result (out.new.items ≡ out.old.items
        ++ spec.kind_text naming.now own members.now) }
{
    push_filled(out, naming, own, "pub struct $T; impl $T {")?;
    push_each(out, naming, members, FROM)
}

fn push_view(
    out: &mut Vec<u8>,
    naming: &Naming<'_>,
    own: Holes,
    members: &[Holes],
) -> Result<(), AllocError>
    ensures { OnOk result (out.new.items ≡ out.old.items
        ++ spec.view_text naming.now own members.now) }
{
    push_filled(
        out,
        naming,
        own,
        "} #[derive(Clone, Copy, Debug)] pub enum $TRef<'a> {",
    )?;
    push_each(out, naming, members, "$n($R),")?;
    push_filled(
        out,
        naming,
        own,
        "} impl<'a> TableReadUnion<'a> for $TRef<'a> {",
    )
}

fn push_start(
    out: &mut Vec<u8>,
    naming: &Naming<'_>,
    own: Holes,
    members: &[Holes],
) -> Result<(), AllocError>
    ensures { OnOk result (out.new.items ≡ out.old.items
        ++ spec.start_text naming.now own members.now) }
{
    push_kind(out, naming, own, members)?;
    push_view(out, naming, own, members)?;
    push_filled(out, naming, own, READING)
}

fn arm_text(wide: bool) -> &'static str
    ensures { result.now ≡ spec.arm_text wide }
{
    if wide {
        "$i => { let view = $E; Ok($TRef::$n(view)) }"
    } else {
        "$i => Ok($TRef::$n($E)),"
    }
}

fn together_text(
    alloc: Global,
    naming: &Naming<'_>,
    wide: bool,
    own: Holes,
    members: &[Holes],
) -> Result<Vec<u8>, AllocError>
    ensures { IfOk result (λ out. out.items ≡ spec.together_text naming.now wide own members.now) }
{
    let mut out = Vec::new(alloc);
    push_start(&mut out, naming, own, members)?;
    push_filled(&mut out, naming, own, "match tag {")?;
    push_each(&mut out, naming, members, arm_text(wide))?;
    push_filled(
        &mut out,
        naming,
        own,
        "_ => Err(ErrorKind::UnknownUnionTag { tag }), } } }",
    )?;
    Ok(out)
}

fn asking_text(
    alloc: Global,
    naming: &Naming<'_>,
    own: Holes,
    members: &[Holes],
) -> Result<Vec<u8>, AllocError>
    ensures { IfOk result (λ out. out.items ≡ spec.asking_text naming.now own members.now) }
{
    let mut out = Vec::new(alloc);
    push_start(&mut out, naming, own, members)?;
    push_filled(&mut out, naming, own, "from_0(buffer, tag, offset) } }")?;
    Ok(out)
}

fn chain_text(
    alloc: Global,
    naming: &Naming<'_>,
    wide: bool,
    own: Holes,
    members: &[Holes],
) -> Result<Vec<u8>, AllocError>
    ensures { IfOk result (λ out. out.items ≡ spec.chain_text naming.now wide own members.now) }
{
    let mut out = Vec::new(alloc);
    push_chained(
        &mut out,
        naming,
        members,
        CHAINED_NEXT,
        CHAINED_HEAD,
        arm_text(wide),
    )?;
    push_filled(
        &mut out,
        naming,
        own,
        "_ => Err(ErrorKind::UnknownUnionTag { tag }), } }",
    )?;
    Ok(out)
}

fn has_together(
    alloc: Global,
    naming: &Naming<'_>,
    wide: bool,
    own: Holes,
    members: &[Holes],
    text: &[u8],
) -> Result<bool, AllocError>
    ensures { IfOk result (λ b. b
        ≡ spec.has_together naming.now wide own members.now text.now) }
{
    let wanted = together_text(alloc, naming, wide, own, members)?;
    has_text(alloc, text, &wanted)
}

fn has_chain(
    alloc: Global,
    naming: &Naming<'_>,
    wide: bool,
    own: Holes,
    members: &[Holes],
    text: &[u8],
) -> Result<bool, AllocError>
    ensures { IfOk result (λ b. b ≡ spec.has_chain naming.now wide own members.now text.now) }
{
    let wanted = chain_text(alloc, naming, wide, own, members)?;
    has_text(alloc, text, &wanted)
}

fn has_chains(
    alloc: Global,
    naming: &Naming<'_>,
    own: Holes,
    members: &[Holes],
    text: &[u8],
) -> Result<bool, AllocError>
    ensures { IfOk result (λ b. b ≡ (spec.has_chain naming.now false own members.now text.now
        || spec.has_chain naming.now true own members.now text.now)) }
{
    if has_chain(alloc, naming, false, own, members, text)? {
        return Ok(true);
    }
    has_chain(alloc, naming, true, own, members, text)
}

fn is_union_text(
    alloc: Global,
    naming: &Naming<'_>,
    own: Holes,
    members: &[Holes],
    text: &[u8],
) -> Result<bool, AllocError>
    ensures { IfOk result (λ b. b ≡ spec.is_union_text naming.now own members.now text.now) }
{
    if has_together(alloc, naming, false, own, members, text)? {
        return Ok(true);
    }
    if has_together(alloc, naming, true, own, members, text)? {
        return Ok(true);
    }
    let asking = asking_text(alloc, naming, own, members)?;
    if !has_text(alloc, text, &asking)? {
        return Ok(false);
    }
    has_chains(alloc, naming, own, members, text)
}

/// Returns whether this is the text of a union.
pub(crate) fn is_union_tied(
    alloc: Global,
    naming: &Naming<'_>,
    index: usize,
    one: &Union,
    text: &[u8],
) -> Result<bool, AllocError>
    ensures { IfOk result (λ b. IsTrue b → spec.IsUnionTied naming.now index one.now text.now) }
{
    let members = members_of(alloc, index, &one.members)?;
    let without = bare(alloc, text)?;
    is_union_text(alloc, naming, union_holes(index), &members, &without)
}
