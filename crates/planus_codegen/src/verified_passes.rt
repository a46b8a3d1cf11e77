//! The functions that verify a table or a union.

use crate::at::At;
use crate::context::Context;
use crate::leads::leads_on;
use crate::printer::Printer;
use crate::types::is_bytes;
use crate::verified_schema::places_by_slot;
use planus_schema::{Base, Table, TableField, Union};
use std::alloc::AllocError;

const PASS: &str = "
impl planus_views::%Verify for $T {
    fn pass(table: Table<'_>, depth: u8, left: usize) -> Option<usize> {
        let %fields = planus_views::%Entered::<$T>::new(table, depth)?;
        let left = %fields.counted(left)?;
";

const PASSED: &str = "        Some(left)
    }
}
";

const PROOF: &str = "\
use Rattle.std.proofs.Common.{refl}
use Rattle.planus_views.specs.verify.lemmas.Passed as passed
use Rattle.$c.specs.Verified.{verified_schema}
use Rattle.$c.proofs.verified.$M.$TVerify.pass.Goals as goal

pub returns : goal.returns
returns c =
    passed.table verified_schema $a c.args.depth _ c.args.table _ c.args.left _ _
    c.in_ok-fields.ensures.table c.in_ok-fields.ensures.depth c.in_ok-left.ensures
    ";

const MEMBERS: &str = "
impl planus_views::%VerifyUnion for $T {
    fn pass_member(tag: u8, at: planus::%Place<'_>, depth: u8, left: usize) -> Option<usize> {
        match tag {
";

const TABLE: &str =
    "            $g => planus_views::member_passes::<$T, $m>(^tag, $g, at, depth, left^),\n";

const STRUCT: &str =
    "            $g => planus_views::struct_member_passes::<$T>(^tag, $g, $C, at, depth, left^),\n";

const TEXT: &str =
    "            $g => planus_views::text_member_passes::<$T>(^tag, $g, at, depth, left^),\n";

const MEMBERS_END: &str = "            _ => Some(left),
        }
    }
}
";

/// The arm for a member of this type.
fn arm_of(base: Base) -> &'static str {
    match base {
        Base::Table(_) => TABLE,
        Base::Struct(_) => STRUCT,
        _ => TEXT,
    }
}

/// The method for a field, up to its slot.
fn method_of(field: &TableField) -> &'static str {
    match (field.kind.base, field.kind.vector) {
        _ if field.nested.is_some() => "nested::<$X>",
        (Base::Table(_), false) => "table::<$t>",
        (Base::Table(_), true) => "tables::<$t>",
        (Base::Union(_), false) => "union::<$t>",
        (Base::Union(_), true) => "unions::<$t>",
        _ => "value",
    }
}

/// The kind of a value that leads to no table.
fn value_of(field: &TableField) -> &'static str {
    match (field.kind.base, field.kind.vector) {
        (Base::Table(_) | Base::Union(_), _) => "",
        _ if field.nested.is_some() => "",
        (Base::Text, false) => "planus_views::%ValueKind::%Text,^",
        (Base::Text, true) => "planus_views::%ValueKind::%Texts,^",
        (_, true) if is_bytes(field.kind) => "planus_views::%ValueKind::%Bytes,^",
        (_, true) => "planus_views::%ValueKind::%Plains($C),^",
        (_, false) => "planus_views::%ValueKind::%Plain($C),^",
    }
}

/// The kind of a field that leads back.
fn kind_of(field: &TableField) -> &'static str {
    match (field.kind.base, field.kind.vector) {
        _ if field.nested.is_some() => {
            "planus_views::%FieldKind::%Value(planus_views::%ValueKind::%Nested($B)),^"
        }
        (Base::Table(_), false) => {
            "planus_views::%FieldKind::%Value(planus_views::%ValueKind::%Table($B)),^"
        }
        (Base::Table(_), true) => {
            "planus_views::%FieldKind::%Value(planus_views::%ValueKind::%Tables($B)),^"
        }
        (_, false) => "planus_views::%FieldKind::%Union($B),^",
        (_, true) => "planus_views::%FieldKind::%Unions($B),^",
    }
}

impl<'a> Printer<'a> {
    fn put_passing(&mut self, field: &TableField, leads_on: bool, at: At) {
        self.put("        let left = %fields.", at);
        self.put(if leads_on { method_of(field) } else { "walked" }, at);
        self.put("(^$r,^", at);
        self.put(if field.required { "true,^" } else { "false,^" }, at);
        self.put(
            if leads_on {
                value_of(field)
            } else {
                kind_of(field)
            },
            at,
        );
        self.put("left^)?;\n", at);
    }

    /// Adds the function that verifies a table, after the implementation of its kind.
    pub(crate) fn put_pass(&mut self, at: At, one: &Table) -> Result<(), AllocError> {
        let context = self.context;
        self.put(PASS, at);
        for place in places_by_slot(context, one)? {
            if let Some(field) = one.fields.get(place) {
                let leads_on = leads_on(&context.left, context.declared, at.index, field);
                self.put_passing(field, leads_on, at.member(place));
            }
        }
        self.put_str(PASSED);
        Ok(())
    }

    /// Adds the function that verifies a union.
    pub(crate) fn put_pass_member(&mut self, at: At, one: &Union) {
        self.put(MEMBERS, at);
        for (place, member) in one.members.iter().enumerate() {
            self.put(arm_of(member.base), at.member(place));
        }
        self.put(MEMBERS_END, at);
    }
}

/// Returns the proof of the function that verifies a table.
pub(crate) fn print_pass_proof<'a>(context: &'a Context<'a>, at: At, one: &Table) -> Printer<'a> {
    let mut printer = Printer::new(context);
    let mut count = 0usize;
    printer.put(PROOF, at);
    for field in &one.fields {
        if !field.deprecated {
            count = count.saturating_add(1);
            printer.put("(passed.field _ c.in_ok-left-", at);
            printer.put_number(count.saturating_add(1) as u64);
            printer.put(".ensures~", at);
        }
    }
    printer.put_str("refl");
    for _ in 0..count {
        printer.put_str(")");
    }
    printer.put_str("\n");
    printer
}
