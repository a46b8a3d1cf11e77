//! The view of a verified table, with a method for each field.

use crate::at::At;
use crate::context::Context;
use crate::defaults::{default_value, has_constant};
use crate::order::Order;
use crate::printer::Printer;
use crate::table_views::{value_clause, vector_clause};
use crate::types::{has_default, is_bytes, is_union};
use planus_schema::{Base, FieldType, Line, Plan, TableField};
use planus_tie::{ending, kind_word};

const KIND: &str = "\
impl planus_views::VerifiedKind for $T {
    ghost schema = { verified_schema };

    ghost index = { $a };

    ghost whole = { verified_whole };

    fn schema() -> planus_views::Schema<'static> {
        crate::verified::schema()
    }

    fn index() -> usize {
        $a
    }
}

/// A verified one in a buffer.
#[derive(Clone, Copy)]
pub struct $TView<'a>(planus_views::View<'a, $T>);

impl<'a> planus_views::OfKind for $TView<'a> {
    type %Kind = $T;
}

impl<'a> planus_views::ViewOf<'a> for $TView<'a> {
    ghost table = { λ view. view_table view.0 };

    fn of_verified(read: Table<'a>) -> $TView<'a> {
        $TView(planus_views::View::new(read))
    }
}
";

const NESTED: &str = "
    /// Returns the root of the buffer in `$s`.
    pub fn $Y(^&self^) -> Option<$XView<'a>>
        ensures {~IsNestedField~$X~(λ (view : $XView). view_table view.0)~(view_table self.now.0)~$r~\
     result }
    {
        self.0.nested_field($r)
    }
";

const NESTED_REQUIRED: &str = "
    /// Returns the root of the buffer in `$s`.
    pub fn $Y(^&self^) -> $XView<'a>
        ensures {~IsNestedRequired~$X~(λ (view : $XView). view_table view.0)~\
     (view_table self.now.0)~$r~result }
    {
        self.0.nested_required($r)
    }
";

const CHECKED: &str = "checked";

const AS_CHECKED: &str = "(&self) -> $TRef<'a>
        ensures {~result.0~≡~view_table self.now.0 }
    {
        planus::TableView::of_table(self.0.table())
    }
}
";

const VERIFY: &str = "verify";

const VERIFY_DOC: &str =
    "    /// Verifies this table with all that it leads to, within limits, and returns its view, whose
    /// accessors don't fail.
";

const AS_VERIFIED: &str = "(^&self,^limits: planus_views::Limits^) -> \
     %Result<$TView<'a>, planus_views::Fault>
        ensures {~VerifiesTable~(λ (view : $TView). view_table view.0)~verified_schema~$a~limits~\
     self.now.0~result }
    {
        planus_views::verify_table(self.0, limits)
    }
}
";

/// The type of a verified field. `total`: the read of an item can't fail.
pub(crate) fn verified(kind: FieldType, total: bool) -> &'static str {
    match (kind.base, kind.vector) {
        (Base::Text, true) => "planus_views::Texts<'a>",
        (Base::Text, false) => "&'a str",
        (Base::Table(_), true) => "planus_views::Tables<'a, $tView<'a>>",
        (Base::Union(_), true) => "planus_views::Unions<'a, $tView<'a>>",
        (Base::Table(_) | Base::Union(_), false) => "$tView<'a>",
        (_, true) if is_bytes(kind) => "&'a [u8]",
        (_, true) if total => "Vector<'a, $t>",
        (_, true) => "Vector<'a, planus::Result<$t>>",
        (_, false) => "$t",
    }
}

/// The clause of the checked function that reads a table or a union.
fn reference_clause(field: &TableField) -> &'static str {
    match (field.kind.base, field.kind.vector, field.required) {
        (Base::Table(_), false, false) => "~IsTableField~$t~(λ (view : $tView). view_table view.0)",
        (Base::Table(_), false, true) => {
            "~IsTableRequired~$t~(λ (view : $tView). view_table view.0)"
        }
        (Base::Union(_), false, false) => "~IsUnionField~(ReadsVariants $h_view_variants)",
        (Base::Union(_), false, true) => "~IsUnionRequired~(ReadsVariants $h_view_variants)",
        (_, true, _) => vector_clause(field),
        _ => value_clause(field),
    }
}

impl<'a> Context<'a> {
    /// Whether the read of a verified field may fail, by a number that its type doesn't have.
    pub(crate) fn is_judged_value(&self, field: &TableField) -> bool {
        let value = matches!(field.kind.base, Base::Enum(_) | Base::Struct(_));
        value && !field.kind.vector && !self.is_total(field.kind.base)
    }
}

/// The default of a field, whose constant is beside the checked view.
fn default_in_view(context: &Context<'_>, field: &TableField) -> &'static str {
    if has_constant(context, field) {
        "crate::$M::DEFAULT_$N"
    } else {
        default_value(context, field)
    }
}

/// What the answer is as the checked function gives it.
fn answer_of(field: &TableField) -> &'static str {
    match (field.kind.base, field.kind.vector, field.required) {
        (Base::Text, true, false) => "~(option_map (λ all. checked_texts all) result)",
        (Base::Text, true, true) => "~(checked_texts result)",
        (Base::Table(_), true, false) => "~(option_map (λ all. checked_tables all) result)",
        (Base::Table(_), true, true) => "~(checked_tables result)",
        (Base::Union(_), true, false) => "~(option_map (λ all. checked_unions all) result)",
        (Base::Union(_), true, true) => "~(checked_unions result)",
        (Base::Union(_), false, false) => "~(checked_option $h_checked result)",
        (Base::Union(_), false, true) => "~($h_checked result)",
        _ => "~result",
    }
}

impl<'a> Printer<'a> {
    fn put_verified_clause(&mut self, field: &TableField, at: At) {
        let union = is_union(field.kind) && !field.kind.vector;
        let judged = union || self.context.is_judged_value(field);
        let optional = union && !field.required;
        self.put(
            match (optional, judged) {
                (true, _) => "        ensures {~ReturnsAs~(λ type_ method.",
                (_, true) => "        ensures {~ReturnsAs~(",
                _ => "        ensures {~Returns~(",
            },
            at,
        );
        let clause = reference_clause(field);
        self.put(
            if optional {
                clause
            } else {
                clause.trim_start_matches('~')
            },
            at,
        );
        self.put("~(view_table self.now.0)~$r", at);
        self.put(if optional { "~type_ method~$t)" } else { ")" }, at);
        self.put(
            if judged {
                "~(view_table self.now.0)"
            } else {
                ""
            },
            at,
        );
        self.put(answer_of(field), at);
        self.put_str(" }\n    {\n");
    }

    fn put_verified_accessor(&mut self, line: Line<'_>) {
        let field = line.field;
        let at = At::line(&line);
        let judged = self.context.is_judged_value(field);
        self.put_docs("    ", &field.docs, "    /// Returns `$s`.\n", at);
        self.put("    pub fn $n(^&self^) -> ", at);
        self.put(
            if judged {
                "Result<$J, ErrorKind>\n"
            } else {
                "$J\n"
            },
            at,
        );
        self.put_verified_clause(field, at);
        self.put_str("        self.0.");
        self.put_str(if judged {
            "judged"
        } else {
            kind_word(field.kind)
        });
        self.put_str(ending(field));
        self.put("(^$r", at);
        if has_default(field) {
            self.put(",^", at);
            self.put(default_in_view(self.context, field), at);
        }
        self.put("^)\n    }\n", at);
        if field.nested.is_some() {
            self.put(
                if field.required {
                    NESTED_REQUIRED
                } else {
                    NESTED
                },
                at,
            );
        }
    }

    fn put_verified_accessors(&mut self, plan: &Plan<'_>) {
        let at = At::declaration(plan.table);
        for line in &plan.lines {
            self.put_verified_accessor(*line);
            self.put_str("\n");
        }
        self.put_str("    /// Returns the view that tests what it reads.\n    pub fn checked");
        self.put_marks(plan.table, CHECKED.as_bytes(), &[]);
        self.put(AS_CHECKED, at);
    }

    /// Adds the methods of the view of a verified table. Their clauses name views, which need the
    /// implementation of kinds: so these imports aren't the file's.
    pub(crate) fn put_verified_methods(&mut self, plan: &Plan<'_>, order: &Order) {
        let mut methods = Printer::new(self.context);
        methods.put_verified_accessors(plan);
        self.put("\nimpl<'a> $TView<'a> {\n", At::declaration(plan.table));
        self.put_method_uses(methods.as_str(), order);
        self.put_constant_uses(plan);
        self.put_str("\n");
        self.join(&methods);
        self.put_shown_verified(At::declaration(plan.table));
        self.put_verify(plan, order);
        self.put_view_key(plan, order);
    }

    // Adds the method of the view that tests what it reads which returns the verified one.
    fn put_verify(&mut self, plan: &Plan<'_>, order: &Order) {
        let at = At::declaration(plan.table);
        let mut method = Printer::new(self.context);
        method.put_str(VERIFY_DOC);
        method.put_str("    pub fn verify");
        method.put_marks(plan.table, VERIFY.as_bytes(), &[]);
        method.put(AS_VERIFIED, at);
        self.put("\nimpl<'a> $TRef<'a> {\n", at);
        self.put_method_uses(method.as_str(), order);
        self.put_str("\n");
        self.join(&method);
    }
}

/// Prints the kind of a verified table, and its view without methods.
pub(crate) fn print_verified_kind<'a>(context: &'a Context<'a>, at: At) -> Printer<'a> {
    let mut printer = Printer::new(context);
    printer.put(KIND, at);
    printer
}
