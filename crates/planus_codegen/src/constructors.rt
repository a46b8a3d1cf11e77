//! The function that returns a table's fields with those that are required.

use crate::at::At;
use crate::known::is_escaped;
use crate::printer::{OWN, Printer};
use crate::tables::{default_is, default_of};
use crate::words::{Part, Words};
use planus_schema::{Base, FieldType, Line, Plan};
use std::alloc::AllocError;

const HEAD: &str = "\
impl $T {
    /// Returns the fields with these, which are required, and the others by default.
    pub fn fields";

/// What a parameter of this type is in clauses: what holds a reference, as it was passed.
fn ending(kind: FieldType) -> &'static str {
    match kind.base {
        Base::Text => ".entry",
        _ if kind.vector => ".entry",
        _ => "",
    }
}

impl<'a> Printer<'a> {
    // The name of a field as a parameter: `_` is after it if it is a word of the clauses.
    fn put_parameter(&mut self, line: &Line<'_>, words: &Words<'_>) {
        let name = self.context.names.member(line.table, line.place);
        self.put_char(OWN);
        self.put_name(name);
        if is_escaped(name) || words.has(name, "") {
            self.put_marks(line.table, name, &[]);
        }
    }

    fn put_parameters(&mut self, plan: &Plan<'_>, words: &Words<'_>) {
        let mut between = "^";
        for line in &plan.lines {
            if line.field.required {
                let at = At::line(line);
                self.put(between, at);
                self.put_parameter(line, words);
                self.put(": $G", at);
                between = ",^";
            }
        }
    }

    fn put_given(&mut self, plan: &Plan<'_>, words: &Words<'_>) {
        let mut between = "        ensures given {";
        for line in &plan.lines {
            if line.field.required {
                let at = At::line(line);
                self.put(between, at);
                self.put("~(result.$n ≡ ", at);
                self.put_parameter(line, words);
                self.put_str(ending(line.field.kind));
                self.put_str(")");
                between = "~×";
            }
        }
        self.put_str(" }\n");
    }

    // What is known of the other fields.
    fn put_rest(&mut self, plan: &Plan<'_>) {
        let at = At::declaration(plan.table);
        let mut between = "        ensures rest {~let x = result in";
        for line in &plan.lines {
            if !line.field.required {
                self.put(between, at);
                self.put(default_is(line.field), At::line(line));
                between = "~×";
            }
        }
        self.put_str(if self.as_str().is_empty() { "" } else { " }\n" });
    }

    fn put_values(&mut self, plan: &Plan<'_>, words: &Words<'_>) {
        let at = At::declaration(plan.table);
        self.put("    {\n        $TFields {", at);
        let mut between = "^";
        for line in &plan.lines {
            self.put(between, at);
            self.put_value(line, words);
            between = ",^";
        }
        self.put("^}\n    }\n}\n\n", at);
    }

    fn put_value(&mut self, line: &Line<'_>, words: &Words<'_>) {
        let at = At::line(line);
        if !line.field.required {
            self.put(default_of(line.field), at);
            return;
        }
        let mut parameter = Printer::new(self.context);
        parameter.put_parameter(line, words);
        let mut name = Printer::new(self.context);
        name.put("$n", at);
        if parameter.as_str() != name.as_str() {
            self.put("$n: ", at);
        }
        self.join(&parameter);
    }

    fn add_constructor(&mut self, plan: &Plan<'_>) -> Result<(), AllocError> {
        let context = self.context;
        let at = At::declaration(plan.table);
        let mut rest = Printer::new(context);
        rest.put_rest(plan);
        let words = Words::of(context.alloc, rest.as_str(), Part::Definitions)?;
        self.put(HEAD, at);
        self.put_str(if plan.borrows() { "<'a>(" } else { "(" });
        self.put_parameters(plan, &words);
        self.put("^) -> $TFields", at);
        self.put_str(if plan.borrows() { "<'a>\n" } else { "\n" });
        self.put_given(plan, &words);
        self.join(&rest);
        self.put_values(plan, &words);
        Ok(())
    }

    /// Adds the function, of a table of which a field is required.
    pub(crate) fn put_constructor(&mut self, plan: &Plan<'_>) {
        let wanted = !plan.lines.is_empty() && !plan.has_defaults();
        if wanted && self.add_constructor(plan).is_err() {
            self.fail();
        }
    }
}
