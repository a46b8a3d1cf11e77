//! What `Debug` shows of views and of flags.

use crate::at::At;
use crate::leads::shows_on;
use crate::printer::Piece::{Each, Once};
use crate::printer::{Piece, Printer};
use planus_schema::{Line, Plan, TableField};

const CHECKED: &str = "
impl<'a> std::fmt::Debug for $TRef<'a> {
    fn fmt<%W: std::fmt::Write>(^&self,^f: &mut std::fmt::Formatter<%W>^) -> std::fmt::Result {
        let mut shown = f.debug_struct(\"$TRef\");
";

/// A field that leads back is shown by its reference alone.
const UNREAD: &str = "&planus_views::Unread::new(self.0, $o, \"%$tRef\")";

/// The same of a vector.
const UNREAD_VECTOR: &str = "&planus_views::Unread::new(self.0, $o, \"[%$tRef]\")";

const VERIFIED: &str = "
impl<'a> std::fmt::Debug for $TView<'a> {
    fn fmt<%W: std::fmt::Write>(^&self,^f: &mut std::fmt::Formatter<%W>^) -> std::fmt::Result {
        let checked: $TRef<'a> = planus::TableView::of_table(self.0.table());
        f.debug_tuple(\"$TView\").field(&checked).finish()
    }
}
";

/// The place of the declaration is how many there are.
const FLAGS: &str = "
impl std::fmt::Debug for $T {
    fn fmt<%W: std::fmt::Write>(^&self,^f: &mut std::fmt::Formatter<%W>^) -> std::fmt::Result {
        let names: [(&str, u64); $p] = [^";

const FLAG_NAMES: [Piece; 2] = [
    Each("(\"$n\", $i)", ",^"),
    Once(
        "^];
        planus_views::show_flags(^f,^\"$T\",^self.bits as u64,^&names^)
    }
}
",
    ),
];

const END: &str = "        shown.finish()
    }
}
";

impl<'a> Printer<'a> {
    fn put_shown_field(&mut self, line: Line<'_>) {
        let at = At::line(&line);
        let context = self.context;
        self.put("        shown.field(^\"$s\",^", at);
        let reads_on = shows_on(&context.left, context.declared, line.table, line.field);
        self.put(value_of(line.field, reads_on), at);
        self.put("^);\n", at);
    }

    /// Adds `Debug` of a table's view.
    pub(crate) fn put_shown(&mut self, plan: &Plan<'_>) {
        let at = At::declaration(plan.table);
        self.put(CHECKED, at);
        for line in &plan.lines {
            self.put_shown_field(*line);
        }
        self.put(END, at);
    }

    /// Adds that of its verified view: the other one's.
    pub(crate) fn put_shown_verified(&mut self, at: At) {
        self.put(VERIFIED, at);
    }

    /// Adds `Debug` of flags.
    pub(crate) fn put_shown_flags(&mut self, at: At) {
        self.put(FLAGS, at.member(self.context.names.count(at.index)));
        self.put_pieces(&FLAG_NAMES, at);
    }
}

fn value_of(field: &TableField, reads_on: bool) -> &'static str {
    if reads_on {
        "&self.$n()"
    } else if field.kind.vector {
        UNREAD_VECTOR
    } else {
        UNREAD
    }
}
