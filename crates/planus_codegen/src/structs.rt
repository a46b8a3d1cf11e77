//! A struct, its layout, and the proof of one with padding.

use crate::at::At;
use crate::context::Context;
use crate::holes::has_forced_alignment;
use crate::parts::is_long;
use crate::printer::Piece::{Documented, Each, Once};
use crate::printer::{Piece, Printer};
use planus_schema::{Declared, Struct};
use std::alloc::AllocError;

/// The layout of a type, up to the body of `put`.
pub(crate) const LAYOUT: &str = "\
}

impl Plain for $T {
    ghost ALIGNMENT = { $A };

    ghost SIZE = { $S };

    ghost shape = { $M_shape };

    const ALIGNMENT: usize = $A;

    const SIZE: usize = $S;

    fn put(&self, bytes: &mut [u8]) {
";

/// Between the bodies of `put` and `read`.
pub(crate) const READ: &str = "    }

    fn read(^buffer: SliceWithStartOffset<'_>,^offset: usize^) -> Result<$T, ErrorKind> {
";

/// After the body of `read`.
pub(crate) const STRIDE: &str = "    }
}

impl Stride for $T {
    type %Stands = $T;
}

impl PlainField for $T {}
";

/// Of a type whose read can't fail.
pub(crate) const TOTAL: &str = "
impl PlainTotal for $T {
    ghost never_fails = { λ S f e broken. broken };
}
";

const HEAD: &str = "\
#[derive(Clone, Copy, Debug, PartialEq)]
pub struct $T {
";

const SHAPE: &str = "\
abbrev pub $M_shape : Shape $T $S $A
$M_shape = struct_shape
    ";

/// The proof that a struct with padding is written as its layout says.
const PADDED: &str = "\
use Rattle.std.proofs.Common.{arith}
use Rattle.std.proofs.lemmas.Grind.{common_steps}
use Rattle.$c.proofs.$M.$TPlain.put.Goals as goal

pub returns-clause-encoded : goal.returns-clause-encoded
returns-clause-encoded c = grind (arith, common_steps)
";

pub(crate) fn has_padding(one: &Struct) -> bool {
    let mut bytes = 0usize;
    for field in &one.fields {
        bytes = bytes.saturating_add(field.size);
    }
    bytes < one.size
}

const STRUCT_HEAD: [Piece; 3] = [
    Once(HEAD),
    Documented("", "    pub $n: $t,\n"),
    Once(LAYOUT),
];

const STRUCT_BODY: [Piece; 7] = [
    Once("        put_fields!(self, bytes;~"),
    Each("$x$n: $z", ",~"),
    Once("$y);\n"),
    Once(READ),
    Once("        read_fields!($T, buffer, offset;~"),
    Each("$w", ",~"),
    Once(")\n"),
];

pub(crate) fn print_struct<'a>(
    context: &'a Context<'a>,
    at: At,
    declared: &Declared,
    one: &Struct,
) -> Result<Printer<'a>, AllocError> {
    let mut printer = Printer::new(context);
    printer.put_docs("", &declared.docs, "/// A struct of $S bytes.\n", at);
    printer.put_pieces(&STRUCT_HEAD, at);
    if is_long(one) {
        printer.add_parts_written(one)?;
        printer.put(READ, at);
        printer.add_parts_read(one, at)?;
    } else {
        printer.put_pieces(&STRUCT_BODY, at);
    }
    printer.put(STRIDE, at);
    if context.is_total_declaration(at.index) {
        printer.put(TOTAL, at);
    }
    if context.is_exact_declaration(at.index) {
        printer.put_exact_struct(one, at);
    }
    if is_long(one) {
        printer.add_parts(one, at)?;
    }
    Ok(printer)
}

const SHAPE_FIELDS: [Piece; 3] = [
    Each("(field (λ x. x.$n) $d~", ""),
    Once("no_more"),
    Each(")", ""),
];

const SHAPE_END: [Piece; 3] = [
    Once("    (struct_layout $P $Q (lit≤ tt) (lit< tt))\n    (λ v. record {^"),
    Each("$f = $v", ";^"),
    Once("^})\n    (λ x. refl)\n"),
];

pub(crate) fn print_struct_layout<'a>(context: &'a Context<'a>, at: At) -> Printer<'a> {
    let mut printer = Printer::new(context);
    let forced = has_forced_alignment(context, at);
    printer.put(SHAPE, at);
    printer.put(if forced { "(force_align $A~" } else { "" }, at);
    printer.put_pieces(&SHAPE_FIELDS, at);
    printer.put(if forced { ")\n" } else { "\n" }, at);
    printer.put_pieces(&SHAPE_END, at);
    printer
}

pub(crate) fn print_padded<'a>(context: &'a Context<'a>, at: At) -> Printer<'a> {
    let mut printer = Printer::new(context);
    printer.put(PADDED, at);
    printer
}
