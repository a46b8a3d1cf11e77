//! The imports of code.

use crate::at::At;
use crate::context::Context;
use crate::order::Order;
use crate::printer::Printer;
use crate::words::{Part, Words};
use planus_schema::Body;
use std::alloc::AllocError;

/// The names of its errors that code may need.
pub(crate) const ERRORS: &str = "ErrorKind UnknownEnumTagKind";

/// The names of `planus` that code may need.
pub(crate) const NAMES: &str =
    "BuildError Builder Built ByteList Create Exact FieldAt FieldGroup Lines8 List Offset \
     OrDefault Plain PlainField PlainRef PlainTotal Result SliceWithStartOffset Stride \
     TableKind TableRead TableReadUnion TableView TableWriter Text UnionOffset UnionVector \
     Vector VectorReadUnion bytes_field bytes_required create_table fields plain_field \
     plain_field_or plain_required plain_vector plain_vector_required put_fields read_fields \
     read_plain_ref read_root read_sized_root read_variant read_view table_field table_required \
     table_vector table_vector_required text_field text_required text_vector \
     text_vector_required union_field union_required union_vector union_vector_required";

/// The module of verified views.
pub(crate) const VERIFIED: &str = "verified";

/// The columns of an import on one line.
const COLUMNS: usize = 98;

/// What follows a type's name in the names of a declaration's types.
fn endings(body: &Body) -> &'static [&'static str] {
    match body {
        Body::Table(_) => &["", "Fields", "Ref"],
        Body::Union(_) => &["", "Ref"],
        Body::Struct(_) | Body::Enum(_) => &[""],
    }
}

/// Whose types a file has.
#[derive(Clone, Copy)]
pub(crate) enum Own {
    Nobody,
    /// A declaration's.
    Types(usize),
    /// A declaration's verified view.
    View(usize),
}

impl Own {
    fn has_types(self, index: usize) -> bool {
        match self {
            Own::Types(own) => own == index,
            _ => false,
        }
    }

    fn has_view(self, index: usize) -> bool {
        match self {
            Own::View(own) => own == index,
            _ => false,
        }
    }
}

impl<'a> Printer<'a> {
    fn put_comma(&mut self) {
        if !self.as_str().is_empty() {
            self.put_str(",\u{1}");
        }
    }

    // Adds the names of a declaration's types that are among the words, or all, as its namespace
    // has them.
    fn list_types(&mut self, at: At, body: &Body, words: Option<&Words<'_>>) {
        let context = self.context;
        let names = &context.names;
        let renamed = names.type_in_namespace(at.index) != names.type_name(at.index);
        for ending in endings(body) {
            let wanted = match words {
                Some(words) => words.has(context.names.type_name(at.index), *ending),
                None => true,
            };
            if wanted {
                self.put_comma();
                self.put("$T", at);
                self.put_str(*ending);
                if words.is_none() && renamed {
                    self.put(" as $U", at);
                    self.put_str(*ending);
                }
            }
        }
    }

    // Adds an import of a list of names. The path is a template.
    fn put_use(&mut self, path: &str, at: At, names: &Printer<'_>) {
        let width = names.columns();
        if width == 0 {
            return;
        }
        let before = self.columns();
        self.put(path, at);
        let columns = self.columns().saturating_sub(before);
        let whole = columns.saturating_add(width).saturating_add(3);
        let several = names.as_str().contains(',');
        let (start, end) = match (several, whole <= COLUMNS) {
            (false, _) => ("", ";\n"),
            (true, true) => ("{", "};\n"),
            (true, false) => ("{\n    ", ",\n};\n"),
        };
        self.put_str(start);
        self.join(names);
        self.put_str(end);
    }

    fn put_type_uses(&mut self, words: &Words<'_>, index: usize) {
        let context = self.context;
        let at = At::declaration(index);
        let mut names = Printer::new(context);
        if let Some(body) = context.body(index) {
            names.list_types(at, body, Some(words));
        }
        self.put_use("use crate::$M::", at, &names);
    }

    // Adds those of these names that are among the words, but one.
    fn list_names(&mut self, all: &str, words: &Words<'_>, but: &str) {
        for name in all.split(' ') {
            if name != but && words.has(&[], name) {
                self.put_comma();
                self.put_str(name);
            }
        }
    }

    // Adds an import of those of these names that are among the words.
    fn put_names_from(&mut self, path: &str, all: &str, words: &Words<'_>) {
        let mut names = Printer::new(self.context);
        names.list_names(all, words, "");
        self.put_use(path, At::declaration(0), &names);
    }

    fn put_planus_uses(&mut self, words: &Words<'_>) {
        // Code with errors of its own has the `Result` of std.
        let other = if words.has(&[], "ErrorKind") {
            "Result"
        } else {
            ""
        };
        let at = At::declaration(0);
        let mut names = Printer::new(self.context);
        names.list_names(NAMES, words, other);
        // One name is before the modules.
        let alone = !names.as_str().contains(',');
        if alone {
            self.put_use("use planus::", at, &names);
        }
        self.put_names_from("use planus::errors::", ERRORS, words);
        self.put_names_from("use planus::table_reader::", "Table", words);
        if !alone {
            self.put_use("use planus::", at, &names);
        }
    }

    fn put_uses_of(&mut self, words: &Words<'_>, named: &[usize], own: Own) {
        if words.has(&[], "FILE_IDENTIFIER") {
            self.put_str("use crate::FILE_IDENTIFIER;\n");
        }
        self.put_types_of(words, named, own, false);
        self.put_view_uses(words, named, own);
        self.put_types_of(words, named, own, true);
        self.put_planus_uses(words);
    }

    // Adds the imports of types in modules before that of verified views, or behind it.
    fn put_types_of(&mut self, words: &Words<'_>, named: &[usize], own: Own, behind: bool) {
        let context = self.context;
        for index in named {
            let is_behind = context.names.module(*index) > VERIFIED.as_bytes();
            if !own.has_types(*index) && is_behind == behind {
                self.put_type_uses(words, *index);
            }
        }
    }

    // Adds the imports of the verified views that are among the words.
    fn put_view_uses(&mut self, words: &Words<'_>, named: &[usize], own: Own) {
        let context = self.context;
        for index in named {
            if !own.has_view(*index) && words.has(context.names.type_name(*index), "View") {
                let at = At::declaration(*index);
                self.put("use crate::verified::$M::$TView;\n", at);
            }
        }
    }

    fn add_code_uses(&mut self, code: &str, order: &Order, own: Own) -> Result<(), AllocError> {
        let context = self.context;
        let words = Words::of(context.alloc, code, Part::Code)?;
        let named = order.named(context.alloc, &context.names, &words)?;
        self.put_uses_of(&words, &named, own);
        Ok(())
    }

    /// Adds the imports of code.
    pub(crate) fn put_code_uses(&mut self, code: &str, order: &Order, own: Own) {
        if self.add_code_uses(code, order, own).is_err() {
            self.fail();
        }
    }

    /// Adds what a module passes on of a declaration.
    pub(crate) fn put_passed_on(&mut self, template: &str, index: usize, body: &Body) {
        let at = At::declaration(index);
        let mut names = Printer::new(self.context);
        names.list_types(at, body, None);
        self.put_use(template, at, &names);
    }

    /// Adds what a module passes on of a declaration's verified view.
    pub(crate) fn put_view_passed_on(&mut self, template: &str, index: usize) {
        let at = At::declaration(index);
        let names = &self.context.names;
        self.put(template, at);
        self.put("$TView", at);
        if names.type_in_namespace(index) != names.type_name(index) {
            self.put(" as $UView", at);
        }
        self.put_str(";\n");
    }

    /// Adds the file identifier.
    pub(crate) fn put_identifier(&mut self, identifier: &[u8]) {
        self.put_str("\n/// The file identifier, which [`planus::Builder::finish`] writes and ");
        self.put_str("[`planus::has_identifier`]\n/// looks for.\n");
        self.put_str("pub const FILE_IDENTIFIER: [u8; 4] = [");
        for (place, byte) in identifier.iter().enumerate() {
            self.put_str(if place == 0 { "" } else { ", " });
            self.put_number(*byte as u64);
        }
        self.put_str("];\n");
    }
}
