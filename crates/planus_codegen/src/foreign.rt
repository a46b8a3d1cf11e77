//! Calls for C: a crate with a function for each field, over `planus_foreign`.

use crate::arranged::arranged;
use crate::at::At;
use crate::context::{Context, scalar_name};
use crate::defaults::{default_clause, default_number, default_value};
use crate::foreign_cpp::print_cpp;
use crate::foreign_header::print_header;
use crate::foreign_names::refuse_alike;
use crate::foreign_python::print_python;
use crate::foreign_rust::print_rust;
use crate::foreign_verify::VERIFY_USES;
use crate::names::name_at;
use crate::order::Order;
use crate::print_error::PrintError;
use crate::printer::Printer;
use crate::supported::refuse_unsupported;
use crate::types::has_default;
use planus_schema::{Base, Body, Line, Plan, Scalar, Schema, TableField};
use planus_tie::PrintedFile;
use std::alloc::{AllocError, Global};

/// Where the prefix of all calls stands in a template.
pub(crate) const PREFIX: char = '§';

const LIBRARY: &str =
    "//! Calls for C over the tables of `$c`, which `§.h` declares.\n#![tactic(auto)]\n\n";

const TABLE_HEAD: &str = "//! Calls over tables `$T`.\n\n";

const VALUES_HEAD: &str = "//! Calls over what is at a position: an item of a vector, or a union's \
value.\n\n";

const USES: &str = "\
ghost use Rattle.planus_foreign.specs.Calls as call;
ghost use Rattle.planus_foreign.specs.Places as place;
";

const EXPORT: &str = "#[unsafe(no_mangle)]\npub extern \"C\" fn §_$M_";

/// The end of a clause, and the function that is called.
const CLAUSE_END: &str = "~buffer.now~table~out.old~out.new~result }\n{\n    planus_foreign::read_";

const STRING_AT: &str = "\
#[unsafe(no_mangle)]
pub extern \"C\" fn §_string_at(^buffer: &[u8],^position: usize,^out: &mut planus_foreign::Span^) -> u32
    ensures {~call.ReadsThere~place.IsTextAt~call.IsSame~buffer.now~position~out.old~out.new~result }
{
    planus_foreign::read_text_at(^buffer,^position,^out^)
}
";

const SIZED: &str = "
#[unsafe(no_mangle)]
pub extern \"C\" fn §_sized(^buffer: &[u8],^out: &mut planus_foreign::Span^) -> u32
    ensures {~place.SizedSpan~buffer.now~out.old~out.new~result }
{
    planus_foreign::read_sized(^buffer,^out^)
}
";

const VALUE_AT: &str = "
#[unsafe(no_mangle)]
pub extern \"C\" fn §_$M_at(^buffer: &[u8],^position: usize,^out: &mut [u8; $S]^) -> u32
    ensures {~call.ReadsThere~(place.IsValueAt $M_shape)~(call.IsBytesOf $M_shape)~buffer.now~position\
~out.old~out.new~result }
{
";

const VALUE_BEHIND: &str = "
#[unsafe(no_mangle)]
pub extern \"C\" fn §_$M_behind(^buffer: &[u8],^position: usize,^out: &mut [u8; $S]^) -> u32
    ensures {~call.ReadsThere~(place.IsValueBehind $M_shape)~(call.IsBytesOf $M_shape)~buffer.now\
~position~out.old~out.new~result }
{
";

const ROOT_HEAD: &str = "//! Calls over a whole buffer.\n\n";

const IDENTIFIED: &str = "\
#[unsafe(no_mangle)]
pub extern \"C\" fn §_has_identifier(^buffer: &[u8]^) -> bool
    ensures {~IsTrue result~↔~BytesStand buffer.now 4 ($I) }
{
    $c::has_identifier(^buffer^)
}
";

/// The greatest number that stands in one line with the name of its field.
const GREATEST_SHORT: u64 = 999_999_999_999;

/// The modules of a crate for C that aren't those of tables, by name.
const ROOT_MODULE: &str = "root";

pub(crate) const VALUES_MODULE: &str = "values";

/// How a field of a fixed layout is stored.
fn is_number(base: Base) -> bool {
    match base {
        Base::Scalar(scalar) => !matches!(scalar, Scalar::Bool),
        _ => false,
    }
}

/// The type of what is stored of a field.
fn stored(field: &TableField) -> &'static str {
    let kind = field.kind;
    match kind.base {
        Base::Union(_) => "planus_foreign::Member",
        _ if kind.vector => "planus_foreign::Span",
        Base::Text => "planus_foreign::Span",
        Base::Table(_) => "usize",
        base if is_number(base) => "$t",
        _ => "[u8; $C]",
    }
}

/// The clause of what is read of a field.
fn clause(context: &Context<'_>, field: &TableField) -> &'static str {
    let (kind, required) = (field.kind, field.required);
    match kind.base {
        Base::Union(_) if kind.vector => "(λ t. place.IsMembers t $r",
        Base::Union(_) if required => "(λ t. place.IsMemberRequired t $r",
        Base::Union(_) => "(λ t. place.IsMemberField t $r",
        Base::Text if kind.vector && required => "(λ t. place.IsRequired texts t $r",
        Base::Text if kind.vector => "(λ t. place.IsField texts t $r",
        Base::Text if required => "(λ t. place.IsTextSpanRequired t $r",
        Base::Text => "(λ t. place.IsTextSpanField t $r",
        Base::Table(_) if kind.vector && required => "(λ t. place.IsRequired (tables $t) t $r",
        Base::Table(_) if kind.vector => "(λ t. place.IsField (tables $t) t $r",
        Base::Table(_) if required => "(λ t. place.IsPositionRequired t $r",
        Base::Table(_) => "(λ t. place.IsPositionField t $r",
        base if kind.vector => vector_clause(context.is_total(base), required),
        _ if has_default(field) => "(λ t. IsPlainFieldOr $h_shape",
        _ if required => "(λ t. IsPlainRequired $h_shape t $r",
        _ => "(λ t. IsPlainField $h_shape t $r",
    }
}

/// That of a vector whose items' reads can't fail, or may.
fn vector_clause(total: bool, required: bool) -> &'static str {
    match (total, required) {
        (true, true) => "(λ t. place.IsRequired (plains $h_shape) t $r",
        (true, false) => "(λ t. place.IsField (plains $h_shape) t $r",
        (false, true) => "(λ t. place.IsRequired (judged $h_shape) t $r",
        (false, false) => "(λ t. place.IsField (judged $h_shape) t $r",
    }
}

/// The definition of what is stored.
fn stores(field: &TableField) -> &'static str {
    let (kind, surely) = (field.kind, field.required || has_default(field));
    match kind.base {
        Base::Union(_) if kind.vector => "~(place.MemberItemIf index)",
        _ if kind.vector && surely => "~place.Items",
        _ if kind.vector => "~place.ItemsIf",
        Base::Table(_) if surely => "~(place.TablePosition buffer.now)",
        Base::Table(_) => "~(place.TablePositionIf buffer.now)",
        Base::Enum(_) | Base::Struct(_) | Base::Scalar(Scalar::Bool) if surely => {
            "~(call.Bytes $h_shape)"
        }
        Base::Enum(_) | Base::Struct(_) | Base::Scalar(Scalar::Bool) => "~(call.BytesIf $h_shape)",
        _ if surely => "~call.Value",
        _ => "~call.ValueIf",
    }
}

/// The function that is called, after `read_`.
fn function(field: &TableField) -> &'static str {
    let kind = field.kind;
    match kind.base {
        Base::Union(_) if kind.vector => "union_item",
        Base::Union(_) => "union",
        Base::Text if kind.vector => "texts",
        Base::Text => "text",
        Base::Table(_) if kind.vector => "tables",
        Base::Table(_) => "table",
        _ if kind.vector => "items",
        base if is_number(base) => "value",
        _ => "bytes",
    }
}

/// The fields of flags that are a default, which have a line of their own where they are long.
fn flags_template(field: &TableField) -> &'static str {
    if default_number(field).magnitude > GREATEST_SHORT {
        " {@    bits: $l,@},^"
    } else {
        " { bits: $l },^"
    }
}

impl<'a> Printer<'a> {
    /// Adds a template with the prefix of all calls in it.
    pub(crate) fn put_prefixed(&mut self, template: &str, prefix: &str, at: At) {
        let mut first = true;
        for part in template.split(PREFIX) {
            self.put_str(if first { "" } else { prefix });
            self.put(part, at);
            first = false;
        }
    }

    /// Adds a type of the crate by its path.
    pub(crate) fn put_path(&mut self, index: usize) {
        let context = self.context;
        self.put_str(context.crate_name);
        self.put_str("::");
        for letter in name_at(&context.names.places, index) {
            if *letter == b'.' {
                self.put_str("::");
            } else {
                self.put_char(*letter as char);
            }
        }
    }

    // The type of a field's value, or of its items.
    fn put_type_path(&mut self, base: Base) {
        match base {
            Base::Scalar(scalar) => self.put_str(scalar_name(scalar)),
            Base::Text => self.put_str("Text"),
            Base::Enum(index) | Base::Struct(index) | Base::Table(index) | Base::Union(index) => {
                self.put_path(index);
            }
        }
    }

    // The types that the function is given.
    fn put_type_arguments(&mut self, field: &TableField, at: At) {
        let kind = field.kind;
        match kind.base {
            Base::Text | Base::Union(_) => {}
            Base::Table(_) if !kind.vector => {}
            base if kind.vector && matches!(base, Base::Table(_)) => {
                self.put_str("::<");
                self.put_type_path(base);
                self.put_str(">");
            }
            base if kind.vector && self.context.is_total(base) => {
                self.put_str("::<");
                self.put_type_path(base);
                self.put_str(">");
            }
            base if kind.vector => {
                self.put_str("::<planus::Result<");
                self.put_type_path(base);
                self.put_str(">>");
            }
            base if is_number(base) => {}
            base => {
                self.put_str("::<");
                self.put_type_path(base);
                self.put(", $C>", at);
            }
        }
    }

    // The default of a field, as an argument.
    fn put_default_argument(&mut self, field: &TableField, at: At) {
        match field.kind.base {
            Base::Enum(index) if self.context.is_flags(index) => {
                self.put_path(index);
                self.put(flags_template(field), at);
            }
            Base::Enum(index) => {
                self.put_path(index);
                self.put("::$e,^", at);
            }
            _ => {
                self.put(default_value(self.context, field), at);
                self.put(",^", at);
            }
        }
    }

    // What is said after the function: whether the field may be absent.
    fn put_ending(&mut self, field: &TableField) {
        let is_item = matches!(field.kind.base, Base::Union(_)) && field.kind.vector;
        self.put_str(if is_item || field.required {
            ""
        } else if has_default(field) {
            "_or"
        } else {
            "_if"
        });
    }

    fn put_export(&mut self, line: &Line<'_>, prefix: &str) {
        let (field, at) = (line.field, At::line(line));
        let is_item = matches!(field.kind.base, Base::Union(_)) && field.kind.vector;
        self.put_docs("", &field.docs, "/// Stores `$s`.\n", at);
        self.put_prefixed(EXPORT, prefix, at);
        self.put("$n(^buffer: &[u8],^table: usize,^", at);
        self.put_str(if is_item { "index: usize,\u{2}" } else { "" });
        self.put("out: &mut ", at);
        self.put(stored(field), at);
        self.put("^) -> u32\n    ensures {~call.Reads~", at);
        self.put(clause(self.context, field), at);
        if has_default(field) {
            self.put(" ", at);
            self.put(default_clause(self.context, field), at);
            self.put(" t $r", at);
        }
        self.put(" (codes \"$T\") (codes \"$s\"))", at);
        self.put(stores(field), at);
        self.put(CLAUSE_END, at);
        self.put_str(function(field));
        self.put_ending(field);
        self.put_type_arguments(field, at);
        self.put("(^buffer,^table,^$r,^", at);
        self.put_str(if is_item { "index,\u{2}" } else { "" });
        if has_default(field) {
            self.put_default_argument(field, at);
        }
        self.put("\"$T\",^\"$s\",^out^)\n}\n", at);
    }
}

/// The files of a crate for C.
#[derive(Drop)]
struct ForeignFiles<'a> {
    context: &'a Context<'a>,
    order: &'a Order,
    prefix: &'a str,
    files: Vec<PrintedFile>,
}

/// Whether it is a table with a field that isn't deprecated.
fn has_lines(body: Option<&Body>) -> bool {
    match body {
        Some(Body::Table(one)) => one.fields.iter().any(|field| !field.deprecated),
        _ => false,
    }
}

impl<'a> ForeignFiles<'a> {
    // Whether there are calls over a whole buffer.
    fn has_root(&self) -> bool {
        let whole = self.context.verified || self.context.identifier.is_some();
        self.context.root.is_some() && whole
    }

    // The path is a template.
    fn add(&mut self, path: &str, at: At, text: &Printer<'a>) -> Result<(), AllocError> {
        let text = arranged(text).finish()?;
        let mut name = Printer::new(self.context);
        name.put_prefixed(path, self.prefix, at);
        let path = name.finish()?;
        self.files.push(PrintedFile { path, text })?;
        Ok(())
    }

    // A file of code with the imports of its clauses.
    fn add_code(
        &mut self,
        path: &str,
        head: &str,
        at: At,
        code: &Printer<'a>,
    ) -> Result<(), AllocError> {
        let mut file = Printer::new(self.context);
        file.put_prefixed(head, self.prefix, at);
        file.put_clause_uses(code.as_str(), self.order);
        file.put_str(USES);
        file.put_str("\n");
        file.join(code);
        self.add(path, at, &file)
    }

    fn add_table(&mut self, plan: &Plan<'_>) -> Result<(), AllocError> {
        let mut code = Printer::new(self.context);
        let mut first = true;
        for line in &plan.lines {
            code.put_str(if first { "" } else { "\n" });
            first = false;
            code.put_export(line, self.prefix);
        }
        self.add_code("src/$M.rt", TABLE_HEAD, At::declaration(plan.table), &code)
    }

    fn add_values(&mut self) -> Result<(), AllocError> {
        let mut code = Printer::new(self.context);
        let first = At::declaration(0);
        code.put_prefixed(STRING_AT, self.prefix, first);
        code.put_prefixed(SIZED, self.prefix, first);
        for (index, one) in self.context.declared.iter().enumerate() {
            if matches!(one.body, Body::Enum(_) | Body::Struct(_)) {
                let at = At::declaration(index);
                code.put_prefixed(VALUE_AT, self.prefix, at);
                code.put_str("    planus_foreign::read_bytes_at::<");
                code.put_path(index);
                code.put(", $S>(^buffer,^position,^out^)\n}\n", at);
            }
            if matches!(one.body, Body::Struct(_)) {
                let at = At::declaration(index);
                code.put_prefixed(VALUE_BEHIND, self.prefix, at);
                code.put_str("    planus_foreign::read_bytes_behind::<");
                code.put_path(index);
                code.put(", $S>(^buffer,^position,^out^)\n}\n", at);
            }
        }
        self.add_code("src/values.rt", VALUES_HEAD, first, &code)
    }

    fn add_root(&mut self, root: usize) -> Result<(), AllocError> {
        let mut code = Printer::new(self.context);
        let first = At::declaration(0);
        if self.context.verified {
            code.put_verify_call(root, self.prefix);
        }
        if self.context.identifier.is_some() {
            code.put_str(if self.context.verified { "\n" } else { "" });
            code.put_prefixed(IDENTIFIED, self.prefix, first);
        }
        let mut file = Printer::new(self.context);
        file.put_str(ROOT_HEAD);
        file.put_clause_uses(code.as_str(), self.order);
        file.put_str(if self.context.verified {
            VERIFY_USES
        } else {
            ""
        });
        file.put_str("\n");
        file.join(&code);
        self.add("src/root.rt", first, &file)
    }

    // The modules of tables with fields whose names are between these.
    fn put_modules(&self, text: &mut Printer<'a>, after: &str, before: &str) {
        for index in &self.order.indices {
            let module = self.context.names.module(*index);
            let below = before.is_empty() || module < before.as_bytes();
            if module > after.as_bytes() && below && has_lines(self.context.body(*index)) {
                text.put("mod $M;\n", At::declaration(*index));
            }
        }
    }

    fn add_library(&mut self) -> Result<(), AllocError> {
        let mut text = Printer::new(self.context);
        text.put_prefixed(LIBRARY, self.prefix, At::declaration(0));
        self.put_modules(&mut text, "", ROOT_MODULE);
        text.put_str(if self.has_root() { "mod root;\n" } else { "" });
        self.put_modules(&mut text, ROOT_MODULE, VALUES_MODULE);
        text.put_str("mod values;\n");
        self.put_modules(&mut text, VALUES_MODULE, "");
        self.add("src/lib.rt", At::declaration(0), &text)
    }

    fn add_all(&mut self) -> Result<(), AllocError> {
        for (index, one) in self.context.declared.iter().enumerate() {
            if let Body::Table(table) = &one.body {
                let plan = Plan::of(self.context.alloc, self.context.declared, index, table)?;
                if !plan.lines.is_empty() {
                    self.add_table(&plan)?;
                }
            }
        }
        self.add_values()?;
        if let Some(root) = self.context.root {
            if self.has_root() {
                self.add_root(root)?;
            }
        }
        self.add_library()?;
        self.add_modules()
    }

    // The header, and the modules of other languages.
    fn add_modules(&mut self) -> Result<(), AllocError> {
        let first = At::declaration(0);
        let header = print_header(self.context, self.prefix)?;
        self.add("§.h", first, &header)?;
        self.add("§.hpp", first, &print_cpp(self.context, self.prefix))?;
        self.add("§.py", first, &print_python(self.context, self.prefix))?;
        self.add("§.rs", first, &print_rust(self.context, self.prefix))
    }
}

/// Returns the files of a crate for C over the crate of this name with the code of a schema: a call
/// for each field of each table, and their header. The names of all calls begin with the prefix.
pub fn print_foreign(
    alloc: Global,
    schema: &Schema,
    name: &str,
    prefix: &str,
    verified: bool,
) -> Result<Vec<PrintedFile>, PrintError> {
    refuse_unsupported(alloc, &schema.declarations)?;
    let context = Context::new(alloc, schema, name, verified)?;
    refuse_alike(&context)?;
    let order = Order::of(alloc, &context.names)?;
    let mut files = ForeignFiles {
        context: &context,
        order: &order,
        prefix,
        files: Vec::new(alloc),
    };
    files.add_all()?;
    Ok(files.files)
}
