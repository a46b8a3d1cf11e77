//! Whether the text of an enum is its schema's.

ghost use Rattle.std.specs.Prelude.{◌≡◌, ◌++◌, IfOk, OnOk, IsTrue};
ghost use Rattle.planus_tie.specs.Enums as spec;

use crate::bare::bare;
use crate::holes::{Holes, has_text, push_chained, push_each, push_filled};
use crate::naming::Naming;
use crate::plains::{push_layout, push_read};
use planus_schema::{Base, Enum, Number};
use std::alloc::{AllocError, Global};

const NUMBER_HEAD: &str = "} impl $T { pub fn number(self) -> $b ensures { \
     result $= ($M_is self).number } { match self {";

const ASKING: &str = "let number = <$b as Plain>::read(buffer, offset)?; match from_0(number) { \
     Some(this) => Ok(this), None => Err(ErrorKind::UnknownEnumTag { \
     source: UnknownEnumTagKind { tag: number as i128 } }) } } }";

const FOUND_NEXT: &str = "_ => from_$p(number), } }";

const FOUND_HEAD: &str = "#[tactic(auto, unfolding(crate::specs::$T::from_$p_on))]\
     fn from_$p(number: $b) -> Option<$T> ensures { result $= variant_in $q \
     $M_numbers.from_$p_on number } { match number {";

pub(crate) fn holes_of(index: usize, one: &Enum, place: usize, number: Number) -> Holes
    ensures { result ≡ spec.holes_of index one.now place number }
{
    Holes {
        index,
        place,
        base: Base::Scalar(one.scalar),
        number,
        size: one.scalar.size(),
        alignment: one.scalar.size(),
        count: None,
        padding: 0,
    }
}

fn enum_holes(index: usize, one: &Enum) -> Holes
    ensures { result ≡ spec.enum_holes index one.now }
{
    let number = Number {
        negative: false,
        magnitude: 0,
    };
    holes_of(index, one, 0, number)
}

pub(crate) fn values_of(alloc: Global, index: usize, one: &Enum) -> Result<Vec<Holes>, AllocError>
    ensures { IfOk result (λ values. values.items
        ≡ spec.values_from index one.now 0 one.now.values.items) }
{
    let mut values = Vec::new(alloc);
    let mut place = 0;
    'values: for value in &one.values {
        values.push(holes_of(index, one, place, value.number))?;
        place += 1;
    }
    Ok(values)
}

fn push_variants(
    out: &mut Vec<u8>,
    naming: &Naming<'_>,
    own: Holes,
    values: &[Holes],
) -> Result<(), AllocError>
    ensures { OnOk result (out.new.items ≡ out.old.items
        ++ spec.variants_text naming.now own values.now) }
{
    push_filled(out, naming, own, "pub enum $T {")?;
    push_each(out, naming, values, "$n = $i,")?;
    push_filled(out, naming, own, NUMBER_HEAD)
}

fn push_numbers(
    out: &mut Vec<u8>,
    naming: &Naming<'_>,
    own: Holes,
    values: &[Holes],
) -> Result<(), AllocError>
    ensures { OnOk result (out.new.items ≡ out.old.items
        ++ spec.numbers_text naming.now own values.now) }
{
    push_each(out, naming, values, "$T::$n => $i,")?;
    push_filled(out, naming, own, "} } }")
}

fn push_written(out: &mut Vec<u8>, naming: &Naming<'_>, own: Holes) -> Result<(), AllocError>
    ensures { OnOk result (out.new.items ≡ out.old.items ++ spec.written_text naming.now own) }
{
    push_layout(out, naming, own)?;
    push_filled(out, naming, own, "self.number().put(bytes);")?;
    push_read(out, naming, own)
}

fn push_start(
    out: &mut Vec<u8>,
    naming: &Naming<'_>,
    own: Holes,
    values: &[Holes],
) -> Result<(), AllocError>
    ensures { OnOk result (out.new.items ≡ out.old.items
        ++ spec.start_text naming.now own values.now) }
{
    push_variants(out, naming, own, values)?;
    push_numbers(out, naming, own, values)?;
    push_written(out, naming, own)
}

fn listed_text(
    alloc: Global,
    naming: &Naming<'_>,
    own: Holes,
    values: &[Holes],
) -> Result<Vec<u8>, AllocError>
    ensures { IfOk result (λ out. out.items ≡ spec.listed_text naming.now own values.now) }
{
    let mut out = Vec::new(alloc);
    push_start(&mut out, naming, own, values)?;
    push_filled(&mut out, naming, own, "read_variant!($b, buffer, offset;")?;
    push_each(&mut out, naming, values, "$T::$n,")?;
    push_filled(&mut out, naming, own, ") } }")?;
    Ok(out)
}

fn asking_text(
    alloc: Global,
    naming: &Naming<'_>,
    own: Holes,
    values: &[Holes],
) -> Result<Vec<u8>, AllocError>
    ensures { IfOk result (λ out. out.items ≡ spec.asking_text naming.now own values.now) }
{
    let mut out = Vec::new(alloc);
    push_start(&mut out, naming, own, values)?;
    push_filled(&mut out, naming, own, ASKING)?;
    Ok(out)
}

fn found_text(
    alloc: Global,
    naming: &Naming<'_>,
    own: Holes,
    values: &[Holes],
) -> Result<Vec<u8>, AllocError>
    ensures { IfOk result (λ out. out.items ≡ spec.found_text naming.now own values.now) }
{
    let mut out = Vec::new(alloc);
    push_chained(
        &mut out,
        naming,
        values,
        FOUND_NEXT,
        FOUND_HEAD,
        "$i => Some($T::$n),",
    )?;
    push_filled(&mut out, naming, own, "_ => None, } }")?;
    Ok(out)
}

fn is_enum_text(
    alloc: Global,
    naming: &Naming<'_>,
    own: Holes,
    values: &[Holes],
    text: &[u8],
) -> Result<bool, AllocError>
    ensures { IfOk result (λ b. b ≡ spec.is_enum_text naming.now own values.now text.now) }
{
    let listed = listed_text(alloc, naming, own, values)?;
    if has_text(alloc, text, &listed)? {
        return Ok(true);
    }
    let asking = asking_text(alloc, naming, own, values)?;
    if !has_text(alloc, text, &asking)? {
        return Ok(false);
    }
    let found = found_text(alloc, naming, own, values)?;
    has_text(alloc, text, &found)
}

/// Returns whether this is the text of an enum.
pub(crate) fn is_enum_tied(
    alloc: Global,
    naming: &Naming<'_>,
    index: usize,
    one: &Enum,
    text: &[u8],
) -> Result<bool, AllocError>
    ensures { IfOk result (λ b. IsTrue b → spec.IsEnumTied naming.now index one.now text.now) }
{
    let values = values_of(alloc, index, one)?;
    let without = bare(alloc, text)?;
    is_enum_text(alloc, naming, enum_holes(index, one), &values, &without)
}
