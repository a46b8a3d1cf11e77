//! A table's view, with a method for each field.

use crate::at::At;
use crate::printer::Printer;
use crate::types::{has_default, is_bytes, is_union};
use planus_schema::{Base, Line, Plan, TableField};
use planus_tie::{ending, kind_word};

const VIEW: &str = "\
/// One in a buffer.
#[derive(Clone, Copy)]
pub struct $TRef<'a>(pub(crate) Table<'a>);

";

const TABLE_VIEW: &str = "\
impl<'a> TableView<'a> for $TRef<'a> {
    type %Kind = $T;

    ghost table = { λ view. view.0 };

    fn of_table(read: Table<'a>) -> $TRef<'a> {
        $TRef(read)
    }
}

";

/// As an item of a vector.
const ITEM: &str = "\
impl<'a> Stride for $TRef<'a> {
    type Stands = u32;
}

impl<'a> planus::ReadError for $TRef<'a> {
    type Error = planus::Error;
}

impl<'a> planus::VectorReadInner<'a> for $TRef<'a> {
    ghost gives = { gives_as (λ view. view.0) (codes \"[$TRef]\") };

    fn from_buffer(buffer: SliceWithStartOffset<'a>, offset: usize) -> Result<$TRef<'a>> {
        planus::read_item(buffer, offset)
    }
}

";

/// The clause of the function that reads a vector.
pub(crate) fn vector_clause(field: &TableField) -> &'static str {
    let bytes = is_bytes(field.kind);
    match (field.kind.base, field.required) {
        (Base::Text, false) => "~IsTextVector",
        (Base::Text, true) => "~IsTextVectorRequired",
        (Base::Table(_), false) => "~IsTableVector~$t",
        (Base::Table(_), true) => "~IsTableVectorRequired~$t",
        (Base::Union(_), false) => "~IsUnionVector",
        (Base::Union(_), true) => "~IsUnionVectorRequired",
        (_, false) if bytes => "~IsBytesField",
        (_, true) if bytes => "~IsBytesRequired",
        (_, false) => "~IsPlainVector",
        (_, true) => "~IsPlainVectorRequired",
    }
}

/// The clause of the function that reads a value.
pub(crate) fn value_clause(field: &TableField) -> &'static str {
    match (field.kind.base, field.required) {
        (Base::Text, false) => "~IsTextField",
        (Base::Text, true) => "~IsTextRequired",
        (Base::Table(_), false) => "~IsTableField~$t~(λ view. view.0)",
        (Base::Table(_), true) => "~IsTableRequired~$t~(λ view. view.0)",
        (Base::Union(_), false) => "~IsUnionField~(ReadsVariants $h_variants)",
        (Base::Union(_), true) => "~IsUnionRequired~(ReadsVariants $h_variants)",
        _ if has_default(field) => "~IsPlainFieldOr~$h_shape~$K",
        (_, false) => "~IsPlainField~$h_shape",
        (_, true) => "~IsPlainRequired~$h_shape",
    }
}

/// The types that the function of a union is given.
fn type_arguments(field: &TableField) -> &'static str {
    match (field.kind.base, field.kind.vector, field.required) {
        (Base::Union(_), false, false) => "::<$t, $tRef<'a>>",
        (Base::Union(_), false, true) => "::<$tRef<'a>>",
        _ => "",
    }
}

/// The rest of the clause: also the kind of a union that may be absent.
fn clause_end(field: &TableField) -> &'static str {
    if is_union(field.kind) && !field.kind.vector && !field.required {
        "~self.now.0~$r~(codes \"$T\")~(codes \"$s\")~$t~result }\n    {\n"
    } else {
        "~self.now.0~$r~(codes \"$T\")~(codes \"$s\")~result }\n    {\n"
    }
}

/// The arguments of the call.
fn arguments(field: &TableField) -> &'static str {
    if has_default(field) {
        "(^&self.0,^$r,^$D,^\"$T\",^\"$s\"^)\n    }\n"
    } else {
        "(^&self.0,^$r,^\"$T\",^\"$s\"^)\n    }\n"
    }
}

impl<'a> Printer<'a> {
    fn put_accessor(&mut self, line: Line<'_>) {
        let field = line.field;
        let at = At::line(&line);
        self.put_docs("    ", &field.docs, "    /// Returns `$s`.\n", at);
        self.put(
            "    pub fn $n(^&self^) -> Result<$R>\n        ensures {",
            at,
        );
        if field.kind.vector {
            self.put(vector_clause(field), at);
        } else {
            self.put(value_clause(field), at);
        }
        self.put(clause_end(field), at);
        self.put_str("        ");
        self.put_str(kind_word(field.kind));
        self.put_str(ending(field));
        self.put(type_arguments(field), at);
        self.put(arguments(field), at);
    }

    pub(crate) fn put_view(&mut self, plan: &Plan<'_>) {
        let at = At::declaration(plan.table);
        self.put(VIEW, at);
        if !plan.lines.is_empty() {
            self.put("impl<'a> $TRef<'a> {\n", at);
        }
        let mut first = true;
        for line in &plan.lines {
            self.put_str(if first { "" } else { "\n" });
            first = false;
            self.put_accessor(*line);
        }
        self.put(if first { "" } else { "}\n\n" }, at);
        self.put(TABLE_VIEW, at);
        self.put(ITEM, at);
    }
}
