//! The lines of a table's fields in its contract.

use crate::at::At;
use crate::context::is_signed;
use crate::defaults::is_judged;
use crate::printer::{END, Printer};
use crate::types::{has_default, is_bytes, is_optional, is_union};
use planus_schema::{Base, Plan, Scalar, TableField};

/// The library's name for what a field of a kind holds and how it is read.
fn kind_of(field: &TableField, total: bool) -> &'static str {
    match (field.kind.base, field.kind.vector) {
        (Base::Text, true) => "~texts",
        (Base::Text, false) => "~text_kind",
        (Base::Table(_), true) => "~(tables $t)",
        (Base::Table(_), false) => "~(table_kind $t (λ (view : $tRef). view.0))",
        (_, true) if is_bytes(field.kind) => "~bytes_kind",
        (_, true) if total => "~(plains $h_shape)",
        (_, true) => "~(judged $h_shape)",
        (_, false) => "~(plain_kind $h_shape)",
    }
}

/// The line of a number with a default.
fn number_line(field: &TableField) -> &'static str {
    match field.kind.base {
        _ if is_judged(field) => "plain_or~$h_shape~⟦<$t as PartialEq>⟧.eq~$r~$K~fields.$n",
        Base::Scalar(Scalar::Byte) => "signed_or~$h_shape~w8~$r~$K~fields.$n",
        Base::Scalar(Scalar::Short) => "signed_or~$h_shape~w16~$r~$K~fields.$n",
        Base::Scalar(Scalar::Int) => "signed_or~$h_shape~w32~$r~$K~fields.$n",
        Base::Scalar(scalar) if is_signed(scalar) => "signed_or~$h_shape~w64~$r~$K~fields.$n",
        _ => "number_or~$h_shape~$r~$K~fields.$n",
    }
}

fn union_line(field: &TableField) -> &'static str {
    match (field.kind.vector, field.required) {
        (true, true) => "unions_required~$tRef~$r~fields.$n",
        (true, false) => "unions~$tRef~$r~fields.$n",
        (false, true) => "union_required~$h_variants~$r~fields.$n",
        (false, false) => "union~$h_variants~$r~fields.$n",
    }
}

fn is_plain(field: &TableField) -> bool {
    matches!(
        field.kind.base,
        Base::Scalar(_) | Base::Enum(_) | Base::Struct(_)
    ) && !field.kind.vector
}

impl<'a> Printer<'a> {
    fn put_field_line(&mut self, field: &TableField, at: At) {
        if is_union(field.kind) {
            self.put(union_line(field), at);
        } else if has_default(field) {
            self.put(number_line(field), at);
        } else if is_optional(field) && is_plain(field) {
            self.put("plain_if~$h_shape~$r~fields.$n", at);
        } else {
            let total = self.context.is_total(field.kind.base);
            self.put_str(if is_optional(field) {
                "optional"
            } else {
                "required"
            });
            self.put(kind_of(field, total), at);
            self.put("~$r~fields.$n", at);
        }
    }

    /// Adds the lines of the fields.
    pub(crate) fn put_field_lines(&mut self, plan: &Plan<'_>) {
        self.put_str("    ghost lines = { λ fields.");
        self.put_char(END);
        let mut between = "";
        for line in &plan.order {
            self.put(between, At::line(line));
            self.put_field_line(line.field, At::line(line));
            between = " ∷@";
        }
        self.put(
            if between.is_empty() { "" } else { " ∷~" },
            At::declaration(plan.table),
        );
        self.put_str("[] };\n\n");
    }
}
