//! Lists that are printed as constants.

use crate::at::At;
use crate::context::Context;
use crate::printer::Printer;

/// A printed list: its entries, the last one as it stands alone, and how many there are.
#[derive(Drop)]
pub(crate) struct Entries<'a> {
    pub all: Printer<'a>,
    pub last: Printer<'a>,
    pub count: usize,
}

impl<'a> Entries<'a> {
    pub(crate) fn new(context: &'a Context<'a>) -> Entries<'a> {
        Entries {
            all: Printer::new(context),
            last: Printer::new(context),
            count: 0,
        }
    }

    /// Adds an entry, the lines of which are templates.
    pub(crate) fn put_entry(&mut self, lines: &[&str], at: At) {
        self.all.put_lines("    ", lines, at);
        self.all.put_str(",\n");
        self.last.clear();
        self.last.put_lines("", lines, at);
        self.count = self.count.saturating_add(1);
    }
}

impl<'a> Printer<'a> {
    // Adds templates, each after these blanks.
    fn put_lines(&mut self, indent: &str, lines: &[&str], at: At) {
        for line in lines {
            self.put_str(indent);
            self.put(*line, at);
        }
    }

    /// Adds a list as a constant of entries of this type.
    pub(crate) fn put_constant(&mut self, name: &str, entry: &str, entries: &Entries<'_>) {
        self.put_str("\npub const ");
        self.put_str(name);
        self.put_str(": [");
        self.put_str(entry);
        self.put_str("; ");
        self.put_number(entries.count as u64);
        self.put_str("] = [");
        if entries.count == 1 {
            self.join(&entries.last);
        } else {
            self.put_str(if entries.count > 0 { "\n" } else { "" });
            self.join(&entries.all);
        }
        self.put_str("];\n");
    }
}
