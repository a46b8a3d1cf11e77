//! The imports of clauses and definitions.

use crate::at::At;
use crate::order::Order;
use crate::printer::Printer;
use crate::words::{Part, Words};
use std::alloc::AllocError;

/// The words that clauses and definitions may need, by their modules: of the library those that
/// `Printed` passes on.
pub(crate) const WORDS: [(&str, &str); 6] = [
    (
        "std.specs.Prelude",
        "◌≡◌ ◌≤◌ ◌==◌ ◌↔◌ ◌∷◌ [] ℕ ℤ Bool List Option length codes pos negsuc nat_eq true false \
         bit_and bit_or IfOk IfErr IsOkAnd IsTrue MatchOption ⊤ Some None Ok Err",
    ),
    ("std.specs.Borrow", "sem Bor"),
    ("std.specs.Int", "w8 w16 w32 w64"),
    ("std.specs.Ordering", "int_eq"),
    (
        "planus.specs.Printed",
        "of_bits binary32 binary64 Table BytesStand SliceWithStartOffset plain_slice \
         slice_bytes slice_start Numbered variant_in u8_enum u16_enum u32_enum u64_enum i8_enum \
         i16_enum i32_enum i64_enum Shape u8_shape u16_shape u32_shape u64_shape i8_shape \
         i16_shape i32_shape i64_shape bool_shape f32_shape f64_shape array_shape IsPrefixed \
         field force_align no_more struct_layout struct_shape FinishGives SizedFinishGives \
         EndsAs FinishLeaves SizedFinishLeaves IsIn AllIn AllUnionsIn IsPrepared IsPlainVector \
         IsPlainVectorRequired IsPlainRequired IsTextField IsTextRequired IsBytesField \
         IsBytesRequired IsTextVector IsTextVectorRequired IsTableField IsTableRequired \
         IsTableVector IsTableVectorRequired plain_kind text_kind bytes_kind table_kind \
         IsPlainField IsPlainFieldOr IsRoot IsUnionField IsUnionRequired IsUnionVector \
         IsUnionVectorRequired ReadsVariants UnionVariant table_variant struct_variant \
         text_variant plains judged texts tables optional required plain_if plain_or number_or \
         signed_or union union_required unions unions_required IsSizedRoot gives_as",
    ),
    (
        "planus_views.specs.Printed",
        "view_table checked_texts checked_tables checked_unions Returns ReturnsAs checked_option \
         Checked unknown option_map IsNestedField IsNestedRequired RootWalks IsMember member_tag \
         member_bytes member_start member_offset IsVerifiedBuffer IsVerifiedSized VerifiesRoot \
         IsWhereBy IsWhereFaultBy VerifiesTable default_limits",
    ),
];

/// The module of words of proofs.
const OF_PROOFS: &str = "std.proofs.Common";

pub(crate) const PROOF_WORDS: &str = "refl lit≤ lit<";

/// The columns of names in one import.
const NAME_COLUMNS: usize = 80;

/// Where imports of clauses stand: what each begins with, and its columns of names.
#[derive(Clone, Copy)]
struct Place {
    start: &'static str,
    columns: usize,
}

const OF_FILE: Place = Place {
    start: "ghost use",
    columns: NAME_COLUMNS,
};

/// In an implementation.
const OF_METHODS: Place = Place {
    start: "    ghost use",
    columns: 76,
};

/// What follows a module's name in the names of definitions, and their imports.
const OWN_DEFINITIONS: [(&str, &str); 8] = [
    ("_variants", " Rattle.$c.specs.$T.{$M_variants}"),
    ("_view_variants", " Rattle.$c.specs.$T.{$M_view_variants}"),
    ("_checked", " Rattle.$c.specs.$T.{$M_checked}"),
    ("_view_tags", " Rattle.$c.specs.$T as $M_view_tags"),
    ("_tags", " Rattle.$c.specs.$T as $M_tags"),
    ("_is", " Rattle.$c.specs.$T.{$M_is}"),
    ("_numbers", " Rattle.$c.specs.$T as $M_numbers"),
    ("_shape", " Rattle.$c.specs.$T.{$M_shape}"),
];

/// The same of the variants of a type.
const OWN_VARIANTS: [(&str, &str); 3] = [
    (
        "_value",
        " Rattle.$c.specs.declared.$M.$T.TheVariants as $M_value",
    ),
    (
        "_ref",
        " Rattle.$c.specs.declared.$M.$TRef.TheVariants as $M_ref",
    ),
    (
        "_view",
        " Rattle.$c.specs.declared.verified.$M.$TView.TheVariants as $M_view",
    ),
];

/// The names of the schema as a value, and their imports.
const SCHEMA_WORDS: [(&str, &str); 3] = [
    (
        "verified_schema",
        " Rattle.$c.specs.Verified.{verified_schema}",
    ),
    (
        "verified_whole",
        " Rattle.$c.specs.Verified.{verified_whole}",
    ),
    (
        "verified_names",
        " Rattle.$c.specs.Verified.{verified_names}",
    ),
];

/// What follows a type's name in the names of types, and their imports.
const OWN_TYPES: [(&str, &str); 3] = [
    ("", " Rattle.$c.specs.declared.$M.$T.{$T}"),
    ("Ref", " Rattle.$c.specs.declared.$M.$TRef.{$TRef}"),
    (
        "View",
        " Rattle.$c.specs.declared.verified.$M.$TView.{$TView}",
    ),
];

fn is_named(words: &Words<'_>, name: &str) -> bool {
    match name {
        "lit<" => words.has(&[], "lit≤"),
        name => words.has(&[], name.trim_matches('◌')),
    }
}

/// The imports of a file.
#[derive(Clone, Copy)]
pub(crate) struct Imports<'a> {
    pub(crate) words: &'a Words<'a>,
    /// What is before and after each.
    pub(crate) start: &'static str,
    pub(crate) end: &'static str,
    /// The columns of names in one import.
    pub(crate) columns: usize,
    /// The declaration of a file of definitions.
    pub(crate) own: Option<usize>,
}

impl<'a> Printer<'a> {
    fn put_row(&mut self, imports: Imports<'_>, path: &str, names: &str) {
        let mut column = 0usize;
        for name in names.split(' ') {
            if is_named(imports.words, name) {
                let width = name.chars().count().saturating_add(2);
                let taken = column.saturating_add(width).saturating_add(path.len());
                if column > 0 && taken > imports.columns {
                    self.put_str("}");
                    self.put_str(imports.end);
                    column = 0;
                }
                if column == 0 {
                    self.put_str(imports.start);
                    self.put_str(" Rattle.");
                    self.put_str(path);
                }
                self.put_str(if column == 0 { ".{" } else { ", " });
                self.put_str(name);
                column = column.saturating_add(width);
            }
        }
        if column > 0 {
            self.put_str("}");
            self.put_str(imports.end);
        }
    }

    fn put_words(&mut self, imports: Imports<'_>) {
        for (path, names) in &WORDS {
            self.put_row(imports, *path, *names);
        }
    }

    // Adds the imports of those names, of one and what follows it, that are among the words.
    fn put_own(&mut self, imports: Imports<'_>, rows: &[(&str, &str)], name: &[u8], at: At) {
        for (end, template) in rows {
            if imports.words.has(name, *end) {
                self.put_str(imports.start);
                self.put(*template, at);
                self.put_str(imports.end);
            }
        }
    }

    // A file of definitions doesn't import its own.
    fn put_owns(&mut self, imports: Imports<'_>, index: usize) {
        let at = At::declaration(index);
        let names = &self.context.names;
        if imports.own != Some(index) {
            self.put_own(imports, &OWN_DEFINITIONS, names.module(index), at);
        }
        self.put_own(imports, &OWN_VARIANTS, names.module(index), at);
        self.put_own(imports, &OWN_TYPES, names.type_name(index), at);
    }

    // Adds the imports of those definitions of the schema as a value that are among the words.
    fn put_schema_words(&mut self, imports: Imports<'_>) {
        for (name, template) in &SCHEMA_WORDS {
            if imports.words.has(&[], *name) {
                self.put_str(imports.start);
                self.put(*template, At::declaration(0));
                self.put_str(imports.end);
            }
        }
    }

    fn put_all_owns(&mut self, imports: Imports<'_>, order: &Order) -> Result<(), AllocError> {
        let context = self.context;
        for index in order.named(context.alloc, &context.names, imports.words)? {
            self.put_owns(imports, index);
        }
        Ok(())
    }

    fn put_clause_words(
        &mut self,
        words: &Words<'_>,
        place: Place,
        order: &Order,
    ) -> Result<(), AllocError> {
        let imports = Imports {
            words,
            start: place.start,
            end: ";\n",
            columns: place.columns,
            own: None,
        };
        self.put_words(imports);
        self.put_schema_words(imports);
        self.put_all_owns(imports, order)
    }

    fn add_clause_uses(
        &mut self,
        code: &str,
        place: Place,
        order: &Order,
    ) -> Result<(), AllocError> {
        let words = Words::of(self.context.alloc, code, Part::Clauses)?;
        self.put_clause_words(&words, place, order)
    }

    /// Adds the imports of the clauses of code.
    pub(crate) fn put_clause_uses(&mut self, code: &str, order: &Order) {
        if self.add_clause_uses(code, OF_FILE, order).is_err() {
            self.fail();
        }
    }

    /// Adds the imports of the clauses of an implementation's methods.
    pub(crate) fn put_method_uses(&mut self, methods: &str, order: &Order) {
        if self.add_clause_uses(methods, OF_METHODS, order).is_err() {
            self.fail();
        }
    }

    fn put_definition_words(
        &mut self,
        words: &Words<'_>,
        order: &Order,
        own: usize,
    ) -> Result<(), AllocError> {
        let imports = Imports {
            words,
            start: "use",
            end: "\n",
            columns: NAME_COLUMNS,
            own: Some(own),
        };
        self.put_words(imports);
        self.put_row(imports, OF_PROOFS, PROOF_WORDS);
        self.put_all_owns(imports, order)
    }

    fn add_definition_uses(
        &mut self,
        text: &str,
        order: &Order,
        own: usize,
    ) -> Result<(), AllocError> {
        let words = Words::of(self.context.alloc, text, Part::Definitions)?;
        self.put_definition_words(&words, order, own)
    }

    /// Adds the imports of the definitions of a declaration.
    pub(crate) fn put_definition_uses(&mut self, text: &str, order: &Order, own: usize) {
        if self.add_definition_uses(text, order, own).is_err() {
            self.fail();
        }
    }
}
