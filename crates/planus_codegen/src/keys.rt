//! The look-up of a table by its key.

use crate::at::At;
use crate::context::Context;
use crate::order::Order;
use crate::printer::Printer;
use crate::table_views::value_clause;
use planus_schema::{Base, Body, Line, Plan, Table, is_key};

const CHECKED: &str = "
impl<'a> planus_keys::KeyOf<$TRef<'a>>~for $T {
";

const CHECKED_KEY: &str = "    type %Key = $R;

    type %Error = planus::Error;

    ghost is_key = {~λ _ view key.";

const CHECKED_END: &str = "~view.0~$r~(codes \"$T\")~(codes \"$s\")~key };

    fn key(^&self,^view: &$TRef<'a>^) -> Result<$R> {
        view.$n()
    }
}
";

const VERIFIED: &str = "
impl<'a> planus_keys::KeyOf<$TView<'a>>~for $T {
";

const VERIFIED_KEY: &str = "    type %Key = $J;

    type %Error = ErrorKind;

    ghost is_key = {~λ _ view key.";

const WRAPPED_END: &str = "~(view_table view.0)~$r)) };

    fn key(^&self,^view: &$TView<'a>^) -> Result<$J, ErrorKind> {
        Ok(view.$n())
    }
}
";

const JUDGED_END: &str = "~(view_table view.0)~$r)~(view_table view.0)~key };

    fn key(^&self,^view: &$TView<'a>^) -> Result<$J, ErrorKind> {
        view.$n()
    }
}
";

/// Whether the key of a table is of an enum.
fn has_key_of(table: &Table, index: usize) -> bool {
    let mut fields = table.fields.iter();
    fields.any(|field| is_key(field) && field.kind.base == Base::Enum(index))
}

impl<'a> Context<'a> {
    /// Whether the key of one of the tables is of an enum, whose values are then in order.
    pub(crate) fn is_key_type(&self, index: usize) -> bool {
        let mut declared = self.declared.iter();
        declared.any(|one| match &one.body {
            Body::Table(table) => has_key_of(table, index),
            _ => false,
        })
    }
}

impl<'a> Printer<'a> {
    fn put_checked_key(&mut self, line: &Line<'_>) {
        let at = At::line(line);
        self.put(CHECKED, at);
        self.put_constant_use_apart(line);
        self.put(CHECKED_KEY, at);
        self.put(value_clause(line.field), at);
        self.put(CHECKED_END, at);
    }

    /// Adds the look-up of a table's checked views by its key, where it has one.
    pub(crate) fn put_key(&mut self, plan: &Plan<'_>) {
        for line in &plan.lines {
            if is_key(line.field) {
                self.put_checked_key(line);
            }
        }
    }

    fn put_key_of_view(&mut self, line: &Line<'_>) {
        let at = At::line(line);
        let judged = self.context.is_judged_value(line.field);
        self.put(VERIFIED_KEY, at);
        self.put(
            if judged {
                "~ReturnsAs~("
            } else {
                "~IsOkAnd key~(Returns~("
            },
            at,
        );
        self.put(value_clause(line.field).trim_start_matches('~'), at);
        self.put(if judged { JUDGED_END } else { WRAPPED_END }, at);
    }

    fn put_verified_key(&mut self, line: &Line<'_>, order: &Order) {
        let mut key = Printer::new(self.context);
        key.put_key_of_view(line);
        self.put(VERIFIED, At::line(line));
        self.put_method_uses(key.as_str(), order);
        self.put_constant_use(line);
        self.put_str("\n");
        self.join(&key);
    }

    /// Adds the look-up of a table's verified views by its key, where it has one.
    pub(crate) fn put_view_key(&mut self, plan: &Plan<'_>, order: &Order) {
        for line in &plan.lines {
            if is_key(line.field) {
                self.put_verified_key(line, order);
            }
        }
    }
}
