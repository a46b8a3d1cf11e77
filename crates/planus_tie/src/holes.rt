//! Texts with holes.

ghost use Rattle.std.specs.Prelude.{◌≡◌, ◌++◌, IfOk, OnOk, decimal};
ghost use Rattle.planus_tie.specs.Holes as spec;
ghost use Rattle.planus_tie.specs.Wanted.{integer_text, base_word};
ghost use Rattle.planus_tie.specs.Holes.{hole, filled, each};

use crate::bare::bare;
use crate::defaults::push_integer;
use crate::naming::Naming;
use crate::pieces::{push_base, push_capitals, push_number, push_small, push_str};
use crate::reading::after;
use planus_schema::{Base, Number};
use std::alloc::{AllocError, Global};

/// What the letters of a text stand for: a declaration, or one of its members.
#[derive(Clone, Copy)]
pub(crate) struct Holes {
    pub(crate) index: usize,
    pub(crate) place: usize,
    pub(crate) base: Base,
    pub(crate) number: Number,
    pub(crate) size: usize,
    pub(crate) alignment: usize,
    pub(crate) count: Option<usize>,
    pub(crate) padding: u64,
}

fn is_signed(base: Base) -> bool
    ensures { result ≡ spec.is_signed base }
{
    match base {
        Base::Scalar(scalar) => scalar.fits(Number {
            negative: true,
            magnitude: 1,
        }),
        _ => false,
    }
}

fn equality_word(base: Base) -> &'static str
    ensures { result.now ≡ spec.equality_word base }
{
    if is_signed(base) { "int_eq" } else { "nat_eq" }
}

fn name_of<'a>(naming: &Naming<'a>, holes: Holes, letter: u8) -> &'a [u8]
    ensures { result.now ≡ spec.name_hole naming.now holes letter }
{
    match letter {
        b'T' => naming.type_of(holes.index),
        b'M' => naming.module_of(holes.index),
        b'n' => naming.member_of(holes.index, holes.place),
        _ => &[],
    }
}

fn push_number_hole(
    out: &mut Vec<u8>,
    naming: &Naming<'_>,
    holes: Holes,
    letter: u8,
) -> Result<(), AllocError>
    ensures { OnOk result (out.new.items ≡ out.old.items
        ++ spec.number_hole naming.now holes letter) }
{
    match letter {
        b'i' => push_integer(out, holes.number),
        b'p' => push_number(out, holes.place as u64),
        b'S' => push_number(out, holes.size as u64),
        b'A' => push_number(out, holes.alignment as u64),
        _ => out.extend_from_slice(name_of(naming, holes, letter)),
    }
}

fn offset_word(base: Base) -> &'static str
    ensures { result.now ≡ spec.offset_word base }
{
    match base {
        Base::Table(_) => "table",
        Base::Struct(_) => "value",
        _ => "text",
    }
}

fn push_view_type(out: &mut Vec<u8>, naming: &Naming<'_>, base: Base) -> Result<(), AllocError>
    ensures { OnOk result (out.new.items ≡ out.old.items ++ spec.view_type naming.now base) }
{
    match base {
        Base::Table(index) => {
            out.extend_from_slice(naming.type_of(index))?;
            push_str(out, "Ref<'a>")
        }
        Base::Struct(index) => {
            push_str(out, "PlainRef<'a,")?;
            out.extend_from_slice(naming.type_of(index))?;
            push_str(out, ">")
        }
        _ => push_str(out, "&'a str"),
    }
}

fn view_call(base: Base) -> &'static str
    ensures { result.now ≡ spec.view_call base }
{
    match base {
        Base::Table(_) => "read_view(buffer, offset)?",
        Base::Struct(_) => "read_plain_ref(buffer, offset)?",
        _ => "TableRead::from_buffer(buffer, offset)?",
    }
}

fn push_member_hole(
    out: &mut Vec<u8>,
    naming: &Naming<'_>,
    holes: Holes,
    letter: u8,
) -> Result<(), AllocError>
    ensures { OnOk result (out.new.items ≡ out.old.items
        ++ spec.member_hole naming.now holes letter) }
{
    match letter {
        b'V' => push_small(out, naming.member_of(holes.index, holes.place)),
        b'N' => push_capitals(out, naming.member_of(holes.index, holes.place)),
        b'G' => push_str(out, offset_word(holes.base)),
        b'R' => push_view_type(out, naming, holes.base),
        b'E' => push_str(out, view_call(holes.base)),
        _ => push_number_hole(out, naming, holes, letter),
    }
}

fn push_bracketed(out: &mut Vec<u8>, count: Option<usize>, text: &[u8]) -> Result<(), AllocError>
    ensures { OnOk result (out.new.items ≡ out.old.items ++ spec.bracketed count text.now) }
{
    match count {
        None => out.extend_from_slice(text),
        Some(_) => {
            push_str(out, "[")?;
            out.extend_from_slice(text)?;
            push_str(out, "]")
        }
    }
}

fn push_bracketed_number(
    out: &mut Vec<u8>,
    count: Option<usize>,
    number: u64,
) -> Result<(), AllocError>
    ensures { OnOk result (out.new.items ≡ out.old.items ++ spec.bracketed count (decimal number)) }
{
    let mut digits = Vec::new(*out.allocator());
    push_number(&mut digits, number)?;
    push_bracketed(out, count, &digits)
}

fn push_array_type(out: &mut Vec<u8>, naming: &Naming<'_>, holes: Holes) -> Result<(), AllocError>
    ensures { OnOk result (out.new.items ≡ out.old.items
        ++ spec.array_type (base_word naming.now holes.base) holes.count) }
{
    match holes.count {
        None => push_base(out, naming, holes.base),
        Some(count) => {
            push_str(out, "[")?;
            push_base(out, naming, holes.base)?;
            push_str(out, ";")?;
            push_number(out, count as u64)?;
            push_str(out, "]")
        }
    }
}

fn push_padding(out: &mut Vec<u8>, bytes: u64) -> Result<(), AllocError>
    ensures { OnOk result (out.new.items ≡ out.old.items ++ spec.padding_text bytes) }
{
    if bytes == 0 {
        return Ok(());
    }
    push_str(out, "_:")?;
    push_number(out, bytes)?;
    push_str(out, ",")
}

fn push_offset(out: &mut Vec<u8>, count: Option<usize>, number: Number) -> Result<(), AllocError>
    ensures { OnOk result (out.new.items ≡ out.old.items ++ spec.bracketed count
        (integer_text number)) }
{
    let mut digits = Vec::new(*out.allocator());
    push_integer(&mut digits, number)?;
    push_bracketed(out, count, &digits)
}

fn push_place(out: &mut Vec<u8>, naming: &Naming<'_>, holes: Holes) -> Result<(), AllocError>
    ensures { OnOk result (out.new.items ≡ out.old.items ++ spec.place_text naming.now holes) }
{
    let name = naming.member_of(holes.index, holes.place);
    if holes.number.magnitude == 0 {
        return push_bracketed(out, holes.count, name);
    }
    out.extend_from_slice(name)?;
    push_str(out, ":")?;
    push_offset(out, holes.count, holes.number)
}

fn push_field_hole(
    out: &mut Vec<u8>,
    naming: &Naming<'_>,
    holes: Holes,
    letter: u8,
) -> Result<(), AllocError>
    ensures { OnOk result (out.new.items ≡ out.old.items
        ++ spec.field_hole naming.now holes letter) }
{
    match letter {
        b't' => push_array_type(out, naming, holes),
        b'z' => push_bracketed_number(out, holes.count, holes.size as u64),
        b'x' => push_padding(out, holes.padding),
        b'w' => push_place(out, naming, holes),
        _ => push_member_hole(out, naming, holes, letter),
    }
}

#[tactic(auto, unfolding(crate::specs::Holes::hole))]
fn push_hole(
    out: &mut Vec<u8>,
    naming: &Naming<'_>,
    holes: Holes,
    letter: u8,
) -> Result<(), AllocError>
    ensures { OnOk result (out.new.items ≡ out.old.items ++ hole naming.now holes letter) }
{
    match letter {
        b'b' => push_base(out, naming, holes.base),
        b'q' => push_str(out, equality_word(holes.base)),
        b'=' => out.extend_from_slice(&[226, 137, 161]),
        b':' => out.extend_from_slice(&[226, 136, 183]),
        b',' => push_str(out, if holes.place == 0 { "" } else { "," }),
        _ => push_field_hole(out, naming, holes, letter),
    }
}

/// Adds a text, in which `$` and a letter stand for something.
#[tactic(auto, unfolding(crate::specs::Holes::filled))]
pub(crate) fn push_filled(
    out: &mut Vec<u8>,
    naming: &Naming<'_>,
    holes: Holes,
    text: &str,
) -> Result<(), AllocError>
    ensures { OnOk result (out.new.items ≡ out.old.items ++ filled naming.now holes text.now) }
{
    let mut marked = false;
    let mut rest = text.as_bytes();
    'bytes: while let Some((b, after)) = rest.split_first() {
        if marked {
            push_hole(out, naming, holes, *b)?;
        } else if *b != b'$' {
            out.push(*b)?;
        }
        marked = !marked && *b == b'$';
        rest = after;
    }
    Ok(())
}

/// Adds the same text for each member.
pub(crate) fn push_each(
    out: &mut Vec<u8>,
    naming: &Naming<'_>,
    members: &[Holes],
    text: &str,
) -> Result<(), AllocError>
    ensures { OnOk result (out.new.items ≡ out.old.items
        ++ each naming.now text.now members.now) }
{
    for member in members {
        push_filled(out, naming, *member, text)?;
    }
    Ok(())
}

fn push_opening(
    out: &mut Vec<u8>,
    naming: &Naming<'_>,
    next: &str,
    head: &str,
    holes: Holes,
) -> Result<(), AllocError>
    ensures { OnOk result (out.new.items ≡ out.old.items
        ++ spec.opening naming.now next.now head.now holes) }
{
    if holes.place % 10 != 0 {
        return Ok(());
    }
    if holes.place != 0 {
        push_filled(out, naming, holes, next)?;
    }
    push_filled(out, naming, holes, head)
}

fn push_chained_arm(
    out: &mut Vec<u8>,
    naming: &Naming<'_>,
    next: &str,
    head: &str,
    arm: &str,
    holes: Holes,
) -> Result<(), AllocError>
    ensures { OnOk result (out.new.items ≡ out.old.items
        ++ spec.chained_arm naming.now next.now head.now arm.now holes) }
{
    push_opening(out, naming, next, head, holes)?;
    push_filled(out, naming, holes, arm)
}

/// Adds an arm for each member, ten in a function, which goes on with the next one.
pub(crate) fn push_chained(
    out: &mut Vec<u8>,
    naming: &Naming<'_>,
    members: &[Holes],
    next: &str,
    head: &str,
    arm: &str,
) -> Result<(), AllocError>
    ensures { OnOk result (out.new.items ≡ out.old.items
        ++ spec.chained naming.now next.now head.now arm.now members.now) }
{
    for member in members {
        push_chained_arm(out, naming, next, head, arm, *member)?;
    }
    Ok(())
}

/// Returns whether a text without layout has this one, whose layout doesn't count.
pub(crate) fn has_text(alloc: Global, text: &[u8], wanted: &[u8]) -> Result<bool, AllocError>
    ensures { IfOk result (λ b. b ≡ spec.has_text text.now wanted.now) }
{
    let wanted = bare(alloc, wanted)?;
    Ok(after(&wanted, text).is_some())
}
