//! Whether the text of a set of flags is its schema's.

ghost use Rattle.std.specs.Prelude.{◌≡◌, ◌++◌, IfOk, OnOk, IsTrue};
ghost use Rattle.planus_tie.specs.Flags as spec;

use crate::bare::bare;
use crate::enums::{holes_of, values_of};
use crate::holes::{Holes, has_text, push_each, push_filled};
use crate::naming::Naming;
use crate::plains::{push_layout, push_read};
use planus_schema::{Enum, Number};
use std::alloc::{AllocError, Global};

const SET_HEAD: &str = "pub struct $T { pub bits: $b, } impl $T { \
     pub const NOTHING: $T = $T { bits: 0 };";

const SET_METHODS: &str = "pub fn has(&self, others: $T) -> bool ensures { \
     result $= (bit_and self.now.bits others.bits == others.bits) } \
     { self.bits & others.bits == others.bits } \
     pub fn with(&self, others: $T) -> $T ensures { \
     result.bits $= bit_or self.now.bits others.bits } \
     { $T { bits: self.bits | others.bits } }";

fn flags_holes(index: usize, one: &Enum) -> Holes
    ensures { result ≡ spec.flags_holes index one.now }
{
    let number = Number {
        negative: false,
        magnitude: 0,
    };
    holes_of(index, one, one.values.len(), number)
}

fn push_bits(
    out: &mut Vec<u8>,
    naming: &Naming<'_>,
    own: Holes,
    values: &[Holes],
) -> Result<(), AllocError>
    ensures { OnOk result (out.new.items ≡ out.old.items
        ++ spec.bits_text naming.now own values.now) }
{
    push_filled(out, naming, own, SET_HEAD)?;
    push_each(out, naming, values, "pub const $n: $T = $T { bits: $i };")
}

fn push_clause(
    out: &mut Vec<u8>,
    naming: &Naming<'_>,
    own: Holes,
    values: &[Holes],
) -> Result<(), AllocError>
    ensures { OnOk result (out.new.items ≡ out.old.items
        ++ spec.clause_text naming.now own values.now) }
{
    push_filled(
        out,
        naming,
        own,
        "pub fn each() -> [$T; $p] ensures { result $=",
    )?;
    push_each(out, naming, values, "record { bits = $i } $:")
}

fn push_items(
    out: &mut Vec<u8>,
    naming: &Naming<'_>,
    end: &str,
    own: Holes,
    values: &[Holes],
) -> Result<(), AllocError>
    ensures { OnOk result (out.new.items ≡ out.old.items
        ++ spec.items_text naming.now end.now own values.now) }
{
    push_filled(out, naming, own, "[] } { [")?;
    push_each(out, naming, values, "$,$T::$n")?;
    push_filled(out, naming, own, end)
}

fn push_stored(out: &mut Vec<u8>, naming: &Naming<'_>, own: Holes) -> Result<(), AllocError>
    ensures { OnOk result (out.new.items ≡ out.old.items ++ spec.stored_text naming.now own) }
{
    push_layout(out, naming, own)?;
    push_filled(out, naming, own, "put_fields!(self, bytes; bits: $S);")?;
    push_read(out, naming, own)?;
    push_filled(
        out,
        naming,
        own,
        "read_fields!($T, buffer, offset; bits) } }",
    )
}

fn flags_text(
    alloc: Global,
    naming: &Naming<'_>,
    end: &str,
    own: Holes,
    values: &[Holes],
) -> Result<Vec<u8>, AllocError>
    ensures { IfOk result (λ out. out.items ≡ spec.flags_text naming.now end.now own values.now) }
{
    let mut out = Vec::new(alloc);
    push_bits(&mut out, naming, own, values)?;
    push_filled(&mut out, naming, own, SET_METHODS)?;
    push_clause(&mut out, naming, own, values)?;
    push_items(&mut out, naming, end, own, values)?;
    push_stored(&mut out, naming, own)?;
    Ok(out)
}

fn is_flags_text(
    alloc: Global,
    naming: &Naming<'_>,
    own: Holes,
    values: &[Holes],
    text: &[u8],
) -> Result<bool, AllocError>
    ensures { IfOk result (λ b. b ≡ spec.is_flags_text naming.now own values.now text.now) }
{
    let wanted = flags_text(alloc, naming, "] } }", own, values)?;
    if has_text(alloc, text, &wanted)? {
        return Ok(true);
    }
    let wanted = flags_text(alloc, naming, ",] } }", own, values)?;
    has_text(alloc, text, &wanted)
}

/// Returns whether this is the text of a set of flags.
pub(crate) fn is_flags_tied(
    alloc: Global,
    naming: &Naming<'_>,
    index: usize,
    one: &Enum,
    text: &[u8],
) -> Result<bool, AllocError>
    ensures { IfOk result (λ b. IsTrue b → spec.IsFlagsTied naming.now index one.now text.now) }
{
    let values = values_of(alloc, index, one)?;
    let without = bare(alloc, text)?;
    is_flags_text(alloc, naming, flags_holes(index, one), &values, &without)
}
