//! The types of groups of a table's fields.

use crate::at::At;
use crate::printer::Printer;
use crate::types::has_default;
use planus_schema::{Line, is_borrowed};

const LINES_BORROWED: &str = "type $T$pFieldLines<'a> = Lines8<\n";

const LINES_OWNED: &str = "type $T$pFieldLines = Lines8<\n";

const GROUP_BORROWED: &str = "\
>;

#[derive(Drop)]
struct $T$pFieldGroup<'a> {
    lines: $T$pFieldLines<'a>,
}

impl<'a> FieldGroup for $T$pFieldGroup<'a> {
    type %Lines = $T$pFieldLines<'a>;

    ghost lines_of = { λ group. group.lines };

    fn lines(&self) -> &$T$pFieldLines<'a> {
        &self.lines
    }
}

";

const GROUP_OWNED: &str = "\
>;

#[derive(Drop)]
struct $T$pFieldGroup {
    lines: $T$pFieldLines,
}

impl FieldGroup for $T$pFieldGroup {
    type %Lines = $T$pFieldLines;

    ghost lines_of = { λ group. group.lines };

    fn lines(&self) -> &$T$pFieldLines {
        &self.lines
    }
}

";

fn borrow(lines: &[Line<'_>]) -> bool {
    lines.iter().any(|line| is_borrowed(line.field.kind))
}

impl<'a> Printer<'a> {
    /// Adds the type of a group.
    pub(crate) fn put_group(&mut self, at: At, lines: &[Line<'_>]) {
        let (list, group) = if borrow(lines) {
            (LINES_BORROWED, GROUP_BORROWED)
        } else {
            (LINES_OWNED, GROUP_OWNED)
        };
        self.put(list, at);
        for line in lines {
            self.put(
                if has_default(line.field) {
                    "    FieldAt<$o, $E, OrDefault<$t, $t>>,\n"
                } else {
                    "    FieldAt<$o, $E, $G>,\n"
                },
                At::line(line),
            );
        }
        self.put(group, at);
    }
}
