//! That equal values of enums, flags and structs are the same.

use crate::at::At;
use crate::context::{Context, is_signed};
use crate::printer::Piece::{Each, Once};
use crate::printer::{Piece, Printer};
use planus_schema::{Base, Scalar, Struct, StructField};

/// Of a type whose proof needs nothing of its members.
const EXACT: &str = "
impl Exact for $T {
    fn equal_is_same(^this: $T,^other: $T^) {}
}
";

const EXACT_BY_FIELDS: &str = "
impl Exact for $T {
    fn equal_is_same(^this: $T,^other: $T^) {
";

const FIELD: &str = "        $t::equal_is_same(^this.$n,^other.$n^);\n";

const ENUM_PROOF: &str = "\
use Rattle.std.proofs.Common.{rules}
use denote.Enum.Bare.{same_true}
use Rattle.$c.specs.contracts.$M.$T.{the_type}
use Rattle.$c.proofs.$M.$TExact.equal_is_same.Goals as goal

pub returns : goal.returns
returns c = λ e. same_true the_type (search rules) _ _ e
";

const STRUCT_PROOF: &str = "\
use Rattle.planus.specs.lemmas.Same as same
use Rattle.$c.proofs.$M.$TExact.equal_is_same.Goals as goal

pub returns : goal.returns
returns c = λ e. same.made
    (";

const PARTS: [Piece; 4] = [
    Each(")", ""),
    Once("~e)\n    (λ v. record {^"),
    Each("$f = $v", ";^"),
    Once("^})\n"),
];

// A flag's bits are a scalar; other types have a proof of their own.
fn has_own_proof(field: &StructField) -> bool {
    !matches!(field.base, Base::Scalar(_))
}

fn scalar_proof(scalar: Scalar) -> &'static str {
    match scalar {
        Scalar::Bool => "(same.bool c.args.this.$f c.args.other.$f)",
        scalar if is_signed(scalar) => "(same.int c.args.this.$f c.args.other.$f)",
        _ => "(same.nat c.args.this.$f c.args.other.$f)",
    }
}

impl<'a> Printer<'a> {
    // The proof of a field; so many before it have proofs of their own.
    fn put_field_proof(&mut self, field: &StructField, calls: usize, at: At) {
        if let Base::Scalar(scalar) = field.base {
            self.put(scalar_proof(scalar), at);
            return;
        }
        self.put_str("c.equal_is_same");
        if calls > 0 {
            self.put_str("-");
            self.put_number(calls.saturating_add(1) as u64);
        }
        self.put_str(".ensures");
    }

    // What tells the fields of a struct equal, each with those after it.
    fn put_field_proofs(&mut self, one: &Struct, at: At) {
        let mut calls = 0usize;
        let mut place = 0usize;
        for field in &one.fields {
            let at = at.member(place);
            place = place.saturating_add(1);
            self.put(
                if place < one.fields.len() {
                    "(same.both "
                } else {
                    "(same.last "
                },
                at,
            );
            self.put_field_proof(field, calls, at);
            self.put(if place < one.fields.len() { "~" } else { "" }, at);
            calls = calls.saturating_add(has_own_proof(field) as usize);
        }
    }

    fn put_exact_fields(&mut self, one: &Struct, at: At) {
        self.put(EXACT_BY_FIELDS, at);
        let mut place = 0usize;
        for field in &one.fields {
            if has_own_proof(field) {
                self.put(FIELD, at.member(place));
            }
            place = place.saturating_add(1);
        }
        self.put("    }\n}\n", at);
    }

    /// Adds the implementation for an enum or for flags.
    pub(crate) fn put_exact(&mut self, at: At) {
        self.put(EXACT, at);
    }

    /// Adds the implementation for a struct.
    pub(crate) fn put_exact_struct(&mut self, one: &Struct, at: At) {
        if one.fields.iter().any(|field| has_own_proof(field)) {
            self.put_exact_fields(one, at);
        } else {
            self.put(EXACT, at);
        }
    }
}

/// Returns the proof for an enum of many values.
pub(crate) fn print_exact_enum<'a>(context: &'a Context<'a>, at: At) -> Printer<'a> {
    let mut printer = Printer::new(context);
    printer.put(ENUM_PROOF, at);
    printer
}

/// Returns the proof for a struct.
pub(crate) fn print_exact_struct<'a>(
    context: &'a Context<'a>,
    at: At,
    one: &Struct,
) -> Printer<'a> {
    let mut printer = Printer::new(context);
    printer.put(STRUCT_PROOF, at);
    printer.put_field_proofs(one, at);
    printer.put_pieces(&PARTS, at);
    printer
}
