//! A table: its kind, its fields, and how it is created.

use crate::at::At;
use crate::context::Context;
use crate::defaults::{default_value, has_constant, is_named_in_clauses, is_zero};
use crate::printer::Printer;
use crate::types::{has_default, is_optional, is_union};
use planus_schema::{Base, Declared, Line, Plan, TableField};
use planus_tie::{Entry, entries_of};
use std::alloc::AllocError;

const FIELDS: &str = "\
/// The fields of `$T`, as [`$T::create`] takes them.
#[derive(Drop)]
pub struct $TFields";

const CONSTANT: &str = "    ghost use Rattle.$c.specs.declared.$M.TheConstants.{DEFAULT_$N};\n";

const FIELDS_WITH_DEFAULT: &str = "\
/// The fields of `$T`, as [`$T::create`] takes them.
#[derive(Default, Drop)]
pub struct $TFields";

const BORROWED_FIELDS: &str = " };

    fn default() -> $TFields<'a> {
        $TFields {";

const OWNED_FIELDS: &str = " };

    fn default() -> $TFields {
        $TFields {";

const MAY: &str = "    ghost may = { λ fields builder.";

const AND: &str = " ×";

const CREATES_BORROWED: &str = "impl<'a> Create<$TFields<'a>>~for $T {\n";

const CREATES_OWNED: &str = "impl Create<$TFields>~for $T {\n";

const CREATE_BORROWED: &str = "    \
    fn create(^builder: &mut Builder,^fields: $TFields<'a>^) -> Built<$T> {
";

const CREATE_OWNED: &str = "    \
    fn create(^builder: &mut Builder,^fields: $TFields^) -> Built<$T> {
";

const GROUP: &str = "        \
        let group$p = $T$pFieldGroup {
            lines: fields![
";

const KIND: &str = "\
impl TableKind for $T {
    type %Writer = TableWriter<$p>;

    ghost name = { codes \"[$TRef]\" };

    fn name() -> &'static str {
        \"[$TRef]\"
    }
}
";

/// Whether each field may be left out, and its default is its type's.
fn derives_default(plan: &Plan<'_>) -> bool {
    for line in &plan.lines {
        if has_default(line.field) && !is_zero(line.field) {
            return false;
        }
    }
    plan.has_defaults()
}

/// The value of a field by default.
pub(crate) fn default_of(field: &TableField) -> &'static str {
    match field.kind.base {
        _ if has_default(field) => "$n: $D",
        Base::Union(_) if field.kind.vector => "$n: &[]",
        _ => "$n: None",
    }
}

/// What is known of that value.
pub(crate) fn default_is(field: &TableField) -> &'static str {
    match field.kind.base {
        _ if has_default(field) => "~(x.$n ≡ $K)",
        Base::Union(_) if field.kind.vector => "~(x.$n.now ≡ [])",
        _ => "~(x.$n ≡ None)",
    }
}

/// The condition that what a field refers to is in the builder.
fn condition(field: &TableField) -> &'static str {
    match (field.kind.base, field.kind.vector, is_optional(field)) {
        (Base::Table(_), false, false) => "~IsIn builder fields.$n",
        (Base::Table(_), false, true) => "~MatchOption fields.$n ⊤ (λ x. IsIn builder x)",
        (Base::Table(_), true, false) => "~AllIn builder fields.$n.now",
        (Base::Table(_), true, true) => "~MatchOption fields.$n ⊤ (λ x. AllIn builder x.now)",
        (Base::Union(_), false, false) => "~IsIn builder fields.$n.offset",
        (Base::Union(_), false, true) => "~MatchOption fields.$n ⊤ (λ x. IsIn builder x.offset)",
        (Base::Union(_), true, _) => "~AllUnionsIn builder fields.$n.now",
        _ => "",
    }
}

/// The line of a field in `fields!`.
fn line_of(field: &TableField) -> &'static str {
    match (is_union(field.kind), field.kind.vector) {
        (true, true) if field.required => "            ($u, $o): unions $E = fields.$n,\n",
        (true, true) => {
            "            ($u, $o): unions $E = OrDefault { value: fields.$n, default: () },\n"
        }
        (true, false) => "            ($u, $o): union $E = fields.$n,\n",
        _ if has_default(field) => {
            "            $o: $E = OrDefault { value: fields.$n, default: $D },\n"
        }
        _ => "            $o: $E = fields.$n,\n",
    }
}

impl<'a> Printer<'a> {
    fn put_constants(&mut self, plan: &Plan<'_>) {
        for line in &plan.lines {
            if has_constant(self.context, line.field) {
                let at = At::line(line);
                self.put("/// The default of `$s`.\npub const DEFAULT_$N: $t = ", at);
                self.put(default_value(self.context, line.field), at);
                self.put(";\n\n", at);
            }
        }
    }

    /// Adds the import of the constant that a field's clause names, which an implementation's ghost
    /// members need.
    pub(crate) fn put_constant_use(&mut self, line: &Line<'_>) {
        if is_named_in_clauses(self.context, line.field) {
            self.put(CONSTANT, At::line(line));
        }
    }

    /// Adds the imports of the constants that clauses name.
    pub(crate) fn put_constant_uses(&mut self, plan: &Plan<'_>) {
        for line in &plan.lines {
            self.put_constant_use(line);
        }
    }

    /// Adds the import of the constant that a field's clause names, and an empty line if there is one.
    pub(crate) fn put_constant_use_apart(&mut self, line: &Line<'_>) {
        if is_named_in_clauses(self.context, line.field) {
            self.put_constant_use(line);
            self.put_str("\n");
        }
    }

    // The same, and an empty line if there are some.
    fn put_constant_uses_apart(&mut self, plan: &Plan<'_>) {
        let mut uses = Printer::new(self.context);
        uses.put_constant_uses(plan);
        self.join(&uses);
        self.put_str(if uses.as_str().is_empty() { "" } else { "\n" });
    }

    fn put_fields(&mut self, plan: &Plan<'_>) {
        let at = At::declaration(plan.table);
        self.put(
            if derives_default(plan) {
                FIELDS_WITH_DEFAULT
            } else {
                FIELDS
            },
            at,
        );
        self.put_str(if plan.borrows() { "<'a> {" } else { " {" });
        self.put_str(if plan.lines.is_empty() { "" } else { "\n" });
        for line in &plan.lines {
            self.put_docs("    ", &line.field.docs, "", at);
            self.put("    pub $n: $G,\n", At::line(line));
        }
        self.put("}\n\n", at);
    }

    // The fields where nothing is said of them.
    fn put_default_fields(&mut self, plan: &Plan<'_>) {
        let at = At::declaration(plan.table);
        let (head, function) = if plan.borrows() {
            ("impl<'a> Default for $TFields<'a> {\n", BORROWED_FIELDS)
        } else {
            ("impl Default for $TFields {\n", OWNED_FIELDS)
        };
        self.put(head, at);
        self.put_constant_uses_apart(plan);
        self.put("    ghost is_default = {~λ x.", at);
        let mut between = "";
        for line in &plan.lines {
            self.put(between, at);
            self.put(default_is(line.field), At::line(line));
            between = "~×";
        }
        self.put(function, at);
        between = "^";
        for line in &plan.lines {
            self.put(between, at);
            self.put(default_of(line.field), At::line(line));
            between = ",^";
        }
        self.put("^}\n    }\n}\n\n", at);
    }

    // The condition of what the fields refer to, where one does.
    fn put_condition(&mut self, plan: &Plan<'_>) {
        let mut first = true;
        for line in &plan.lines {
            let condition = condition(line.field);
            if !condition.is_empty() {
                self.put_str(if first { MAY } else { AND });
                self.put(condition, At::line(line));
                first = false;
            }
        }
        self.put_str(if first { "" } else { " };\n\n" });
    }

    // A line, or the name of a group.
    fn put_entry(&mut self, at: At, entry: Entry, lines: &[Line<'_>]) {
        if entry.group > 0 {
            self.put("            group group$p,\n", at.member(entry.group));
            return;
        }
        for line in lines {
            self.put(line_of(line.field), At::line(line));
        }
    }

    fn put_group_value(&mut self, at: At, lines: &[Line<'_>]) {
        self.put(GROUP, at);
        for line in lines {
            self.put_str("    ");
            self.put(line_of(line.field), At::line(line));
        }
        self.put_str("            ],\n        };\n");
    }

    fn put_create(&mut self, plan: &Plan<'_>, entries: &[Entry]) {
        let at = At::declaration(plan.table);
        let (implementation, function) = if plan.borrows() {
            (CREATES_BORROWED, CREATE_BORROWED)
        } else {
            (CREATES_OWNED, CREATE_OWNED)
        };
        self.put(implementation, at);
        self.put_constant_uses_apart(plan);
        self.put_field_lines(plan);
        self.put_condition(plan);
        self.put(function, at);
        for entry in entries {
            if entry.group > 0 {
                self.put_group_value(at.member(entry.group), entry.lines(&plan.order));
            }
        }
        self.put_str("        let lines = fields![");
        self.put_str(if entries.is_empty() { "" } else { "\n" });
        for entry in entries {
            self.put_entry(at, *entry, entry.lines(&plan.order));
        }
        self.put_str(if entries.is_empty() { "" } else { "        " });
        self.put(
            "];\n        create_table::<$T, _>(builder, lines)\n    }\n}\n\n",
            at,
        );
    }
}

pub(crate) fn print_table<'a>(
    context: &'a Context<'a>,
    plan: &Plan<'_>,
    declared: &Declared,
) -> Result<Printer<'a>, AllocError> {
    let entries = entries_of(context.alloc, &plan.order)?;
    let mut printer = Printer::new(context);
    let at = At::declaration(plan.table);
    let words = "/// The kind of `$T`, and of an offset to one.\n";
    printer.put_docs("", &declared.docs, words, at);
    printer.put("pub struct $T;\n\n", at);
    printer.put_constants(plan);
    printer.put_fields(plan);
    if plan.has_defaults() && !derives_default(plan) {
        printer.put_default_fields(plan);
    }
    printer.put_constructor(plan);
    for entry in &entries {
        if entry.group > 0 {
            printer.put_group(at.member(entry.group), entry.lines(&plan.order));
        }
    }
    printer.put_create(plan, &entries);
    printer.put_view(plan);
    printer.put(KIND, at.member(plan.vtable_size));
    printer.put_shown(plan);
    printer.put_key(plan);
    Ok(printer)
}
