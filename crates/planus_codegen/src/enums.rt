//! Enums and flags.

use crate::at::At;
use crate::context::Context;
use crate::printer::Piece::{Documented, Each, Once};
use crate::printer::{Piece, Printer};
use crate::structs::{LAYOUT, READ, STRIDE, TOTAL};
use planus_schema::{Declared, Enum, Scalar};

const DERIVES: &str = "#[derive(Clone, Copy, Debug, PartialEq)]\n";

/// Of an enum by which tables are looked up: its values are in the order of their numbers.
const KEY_DERIVES: &str = "#[derive(Clone, Copy, Debug, PartialEq, Eq, PartialOrd, Ord)]\n";

const NUMBER: &str = "\
}

impl $T {
    /// Returns its number.
    pub fn number(self) -> $b
        ensures {~result ≡~($M_is self).number }
    {
        match self {
";

const NUMBERS: &str = "\
~[]

abbrev pub $M_is : (x : $T) → Numbered $q $M_values x
";

const READ_FOUND: &str = "        let number = <$b as Plain>::read(buffer, offset)?;
        match from_0(number) {
            Some(this) => Ok(this),
            None => Err(ErrorKind::UnknownEnumTag {
                source: UnknownEnumTagKind {
                    tag: number as i128,
                },
            }),
        }
";

const FINDER: &str = "
#[tactic(auto, unfolding(crate::specs::$T::from_$p_on))]
fn from_$p(number: $b) -> Option<$T>
    ensures {~result ≡~variant_in $q $M_numbers.from_$p_on number }
{
    match number {
";

const NEXT: &str = "        _ => from_$p(number),
    }
}
";

const NUMBERS_FROM: &str = "\
unfoldable pub from_$p_on : List ($j × $T)
from_$p_on =";

const FOUND: &str = "
pub $M_found : (x : $T) →~variant_in $q from_0_on ($M_number x) ≡ Some x
unfolding";

const FOUND_IS: &str = "
abbrev pub $M_is : (x : $T) → Numbered $q from_0_on x
$M_is x = record { number = $M_number x; found = $M_found x }
";

/// The proof of each arm of `number`.
const ARM_PROOF: &str = "
pub returns-in-$n :~goal.returns-in-$n
returns-in-$n c =~rw c.in-$n.is refl
";

const PROOF_HEAD: &str = "\
use Rattle.std.proofs.Common.{refl}
use Rattle.$c.proofs.$M.$T.number.Goals as goal
";

const ENUM_SHAPE: &str = "
abbrev pub $M_shape : Shape $T $S $S
$M_shape = $b_enum $M_is
";

const FLAGS_DERIVES: &str = "\
/// Bits without a name are kept.
#[derive(Clone, Copy, PartialEq)]
";

const KEY_FLAGS_DERIVES: &str = "\
/// Bits without a name are kept.
#[derive(Clone, Copy, PartialEq, Eq, PartialOrd, Ord)]
";

const FLAGS: &str = "\
pub struct $T {
    /// The bits.
    pub bits: $b,
}

impl $T {
    /// None of them.
    pub const NOTHING: $T = $T { bits: 0 };
";

const METHODS: &str = "
    /// Returns whether all of these are in the set.
    pub fn has(&self, others: $T) -> bool
        ensures {~result ≡~(bit_and self.now.bits others.bits == others.bits) }
    {
        self.bits & others.bits == others.bits
    }

    /// Returns these and the others.
    pub fn with(&self, others: $T) -> $T
        ensures {~result.bits ≡~bit_or self.now.bits others.bits }
    {
        $T {
            bits: self.bits | others.bits,
        }
    }
";

/// The place of the declaration is how many there are.
const EACH: &str = "
    /// Returns each of them.
    pub fn each() -> [$T; $p]
        ensures {~result ≡~";

const EACH_CODE: [Piece; 4] = [
    Each("record { bits = $i } ∷~", ""),
    Once("[] }\n    {\n        [^"),
    Each("$T::$n", ",^"),
    Once("^]\n    }\n"),
];

const FLAGS_SHAPE: &str = "\
abbrev pub $M_shape : Shape $T $S $S
$M_shape = struct_shape (field (λ x. x.bits) $b_shape no_more)
    (struct_layout $P 1 (lit≤ tt) (lit< tt)) (λ v. record { bits = v.0 }) (λ x. refl)
";

/// How many values of an enum the checker takes in one list: fewer where their numbers are wide or
/// signed.
fn most_values(scalar: Scalar) -> usize {
    match scalar {
        Scalar::UByte => 40,
        Scalar::Byte | Scalar::Short => 16,
        Scalar::Long => 12,
        _ => 17,
    }
}

/// Whether an enum's values are more than the checker takes in one list.
pub(crate) fn has_many_values(one: &Enum) -> bool {
    one.values.len() > most_values(one.scalar)
}

const ENUM_CODE: [Piece; 8] = [
    Once("pub enum $T {\n"),
    Documented("", "    $n = $i,\n"),
    Once(NUMBER),
    Each("            $T::$n => $i,\n", ""),
    Once("        }\n    }\n"),
    Once(LAYOUT),
    Once("        self.number().put(bytes);\n"),
    Once(READ),
];

const LISTED_VALUES: [Piece; 4] = [
    Once("        read_variant!($b, buffer, offset;~"),
    Each("$T::$n", ",~"),
    Once(")\n"),
    Once(STRIDE),
];

pub(crate) fn print_enum<'a>(
    context: &'a Context<'a>,
    at: At,
    declared: &Declared,
    one: &Enum,
) -> Printer<'a> {
    let mut printer = Printer::new(context);
    printer.put_docs("", &declared.docs, "/// One of some values.\n", at);
    printer.put_str(if context.is_key_type(at.index) {
        KEY_DERIVES
    } else {
        DERIVES
    });
    printer.put_pieces(&ENUM_CODE, at);
    if has_many_values(one) {
        printer.put_pieces(&[Once(READ_FOUND), Once(STRIDE)], at);
        printer.put_functions(FINDER, "        $i => Some($T::$n),\n", NEXT, at);
        printer.put("        _ => None,\n    }\n}\n", at);
    } else {
        printer.put_pieces(&LISTED_VALUES, at);
    }
    printer.put_exact(at);
    printer
}

const NUMBERS_HEAD: [Piece; 3] = [
    Once("abbrev pub $M_number : $T → $j\n"),
    Each("$M_number $M_value.$n = $k\n", ""),
    Once(FOUND),
];

const NUMBERS_END: [Piece; 4] = [
    Once("\n"),
    Each("$M_found $M_value.$n = refl\n", ""),
    Once(FOUND_IS),
    Once(ENUM_SHAPE),
];

fn print_many_numbers<'a>(context: &'a Context<'a>, at: At) -> Printer<'a> {
    let mut printer = Printer::new(context);
    printer.put("-- its variants by their numbers, from some on\n", at);
    printer.put_lists(NUMBERS_FROM, "~($k, $M_value.$n) ∷", "~from_$p_on", at);
    printer.put_pieces(&NUMBERS_HEAD, at);
    printer.put_list_names(at);
    printer.put_pieces(&NUMBERS_END, at);
    printer
}

/// Returns the proofs of `number`, where there are many values.
pub(crate) fn print_number_proofs<'a>(context: &'a Context<'a>, at: At) -> Printer<'a> {
    let mut printer = Printer::new(context);
    printer.put_pieces(&[Once(PROOF_HEAD), Each(ARM_PROOF, "")], at);
    printer
}

const NUMBERS_CODE: [Piece; 6] = [
    Once("-- its variants by their numbers\nabbrev pub $M_values : List ($j × $T)\n"),
    Once("$M_values ="),
    Each("~($k, $M_value.$n) ∷", ""),
    Once(NUMBERS),
    Each(
        "$M_is $M_value.$n = record { number = $k; found = refl }\n",
        "",
    ),
    Once(ENUM_SHAPE),
];

pub(crate) fn print_numbers<'a>(context: &'a Context<'a>, at: At, one: &Enum) -> Printer<'a> {
    if has_many_values(one) {
        return print_many_numbers(context, at);
    }
    let mut printer = Printer::new(context);
    printer.put_pieces(&NUMBERS_CODE, at);
    printer
}

const FLAGS_CODE: [Piece; 3] = [
    Once(FLAGS),
    Documented(
        "    /// `$s`.\n",
        "    pub const $n: $T = $T {^bits: $i^};\n",
    ),
    Once(METHODS),
];

const FLAGS_END: [Piece; 6] = [
    Once(LAYOUT),
    Once("        put_fields!(self, bytes; bits: $S);\n"),
    Once(READ),
    Once("        read_fields!($T, buffer, offset; bits)\n"),
    Once(STRIDE),
    Once(TOTAL),
];

pub(crate) fn print_flags<'a>(
    context: &'a Context<'a>,
    at: At,
    declared: &Declared,
) -> Printer<'a> {
    let mut printer = Printer::new(context);
    printer.put_docs("", &declared.docs, "/// A set of flags.\n", at);
    printer.put_str(if context.is_key_type(at.index) {
        KEY_FLAGS_DERIVES
    } else {
        FLAGS_DERIVES
    });
    printer.put_pieces(&FLAGS_CODE, at);
    printer.put(EACH, at.member(context.names.count(at.index)));
    printer.put_pieces(&EACH_CODE, at);
    printer.put_pieces(&FLAGS_END, at);
    printer.put_exact(at);
    printer.put_shown_flags(at);
    printer
}

pub(crate) fn print_flags_layout<'a>(context: &'a Context<'a>, at: At) -> Printer<'a> {
    let mut printer = Printer::new(context);
    printer.put(FLAGS_SHAPE, at);
    printer
}
