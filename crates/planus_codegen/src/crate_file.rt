//! The files of a printed crate.

ghost use Rattle.std.specs.Prelude.{IfOk};
ghost use Rattle.planus_codegen.specs.Printed.{IsPrinted};

use crate::arranged::arranged;
use crate::at::At;
use crate::context::Context;
use crate::enums::{
    has_many_values, print_enum, print_flags, print_flags_layout, print_number_proofs,
    print_numbers,
};
use crate::exact::{print_exact_enum, print_exact_struct};
use crate::long_structs::{print_long_layout, print_part_uses};
use crate::names::namespace_around;
use crate::order::{Order, places_by_name};
use crate::part_proofs::{Written, print_answer, print_fields_answer, print_parts_answer};
use crate::parts::{has_answer, is_long, parts_of, whole};
use crate::print_error::PrintError;
use crate::printer::Printer;
use crate::read_proofs::{has_many_clauses, print_fields_read, print_parts_read};
use crate::root::print_root;
use crate::structs::{has_padding, print_padded, print_struct, print_struct_layout};
use crate::supported::refuse_unsupported;
use crate::tables::print_table;
use crate::unions::{print_union, print_variants};
use crate::uses::{Own, VERIFIED};
use crate::verified_passes::print_pass_proof;
use crate::verified_schema::{print_schema, print_schema_definition};
use crate::verified_tables::print_verified_kind;
use crate::verified_unions::print_verified_union;
use planus_schema::{Body, Declared, Enum, Plan, Schema, Struct, Table, Union};
use planus_tie::{PrintedFile, are_tied};
use std::alloc::{AllocError, Global};

const ROOT: &str = "
pub use root::{
    finish_root, finish_root_size_prefixed, has_identifier, read_as_root,
    read_size_prefixed_as_root, verify_as_root, verify_buffer, verify_size_prefixed_as_root,
    verify_size_prefixed_buffer, where_fault_is, where_is,
};
";

const RUNTIME: &str = "planus";

// The other imports follow.
const LONG_STRUCT: &str = "//! Structs `$T`.\n\nghost use Rattle.$c.specs.$T as spec;";

const STRUCT_LAYOUT: &str = "-- The layout of `$T`.\n";

const STRUCT_PROOF: &str = "proofs/$M/$TPlain/put/Answers.antt";

const STRUCT_READ: &str = "proofs/$M/$TPlain/read/Answers.antt";

const VERIFIED_HEAD: &str =
    "//! Verified views, and the schema as a value, by which buffers are verified.\n\n";

const CREATE: &str = "pub use planus::Create;\n";

const ROOT_ALONE: &str = "
pub use root::{
    read_as_root, read_size_prefixed_as_root, verify_as_root, verify_size_prefixed_as_root,
    where_fault_is, where_is,
};
";

const CHECKED_ROOT: &str = "
pub use root::{
    finish_root, finish_root_size_prefixed, has_identifier, read_as_root,
    read_size_prefixed_as_root,
};
";

const CHECKED_ROOT_ALONE: &str = "
pub use root::{read_as_root, read_size_prefixed_as_root};
";

/// What a namespace has of its declarations, by the place of their modules to this one.
#[derive(Clone, Copy)]
struct Uses<'a> {
    namespace: &'a [u8],
    template: &'a str,
    module: &'a str,
}

#[derive(Drop)]
struct Files<'a> {
    context: &'a Context<'a>,
    order: &'a Order,
    /// The indices of all modules by their names.
    modules: &'a [usize],
    files: Vec<PrintedFile>,
    /// Whether memory was refused, after which files are left out.
    failed: bool,
}

impl<'a> Files<'a> {
    // The path is a template.
    fn add(&mut self, path: &str, at: At, text: &Printer<'a>) -> Result<(), AllocError> {
        let text = arranged(text).finish()?;
        let mut name = Printer::new(self.context);
        name.put(path, at);
        let path = name.finish()?;
        self.files.push(PrintedFile { path, text })?;
        Ok(())
    }

    fn put(&mut self, path: &str, at: At, text: &Printer<'a>) {
        if self.add(path, at, text).is_err() {
            self.failed = true;
        }
    }

    // The head is a template. The clauses of this part of the code are those whose words the file
    // imports.
    fn file_of(&self, head: &str, at: At, own: Own, part: &str, code: &Printer<'_>) -> Printer<'a> {
        let mut file = Printer::new(self.context);
        file.put(head, at);
        file.put_str("\n");
        file.put_clause_uses(part, self.order);
        file.put_str("\n");
        file.put_code_uses(code.as_str(), self.order, own);
        file.put_str("\n");
        file.join(code);
        file
    }

    fn code_file(&self, head: &str, at: At, own: Own, code: &Printer<'_>) -> Printer<'a> {
        self.file_of(head, at, own, code.as_str(), code)
    }

    fn put_code(&mut self, head: &str, at: At, code: &Printer<'_>) {
        let file = self.code_file(head, at, Own::Types(at.index), code);
        self.put("src/$M.rt", at, &file);
    }

    fn add_table_view(&mut self, plan: &Plan<'_>, one: &Table) -> Result<(), AllocError> {
        let context = self.context;
        let at = At::declaration(plan.table);
        let kind = print_verified_kind(context, at);
        let mut code = print_verified_kind(context, at);
        code.put_pass(at, one)?;
        code.put_verified_methods(plan, self.order);
        let own = Own::View(plan.table);
        let head = "//! Verified tables `$T`.\n";
        let file = self.file_of(head, at, own, kind.as_str(), &code);
        self.put("src/verified/$M.rt", at, &file);
        let proof = print_pass_proof(context, at, one);
        self.put("proofs/verified/$M/$TVerify/pass/Answers.antt", at, &proof);
        Ok(())
    }

    fn put_union_view(&mut self, at: At, one: &Union) {
        let code = print_verified_union(self.context, at, one);
        let own = Own::View(at.index);
        let file = self.code_file("//! Verified unions `$T`.\n", at, own, &code);
        self.put("src/verified/$M.rt", at, &file);
    }

    fn put_root(&mut self, root: usize) {
        let at = At::declaration(root);
        let code = print_root(self.context, at);
        let file = self.code_file("//! The root of a buffer.\n", at, Own::Nobody, &code);
        self.put("src/root.rt", at, &file);
    }

    fn put_definitions(&mut self, head: &str, at: At, text: &Printer<'_>) {
        self.put_definitions_with(head, at, &Printer::new(self.context), text);
    }

    // These imports follow those of the text's words.
    fn put_definitions_with(&mut self, head: &str, at: At, uses: &Printer<'_>, text: &Printer<'_>) {
        let mut file = Printer::new(self.context);
        file.put(head, at);
        file.put_definition_uses(text.as_str(), self.order, at.index);
        file.join(uses);
        file.put_str("\n");
        file.join(text);
        self.put("specs/$T.antt", at, &file);
    }

    fn add_table(&mut self, at: At, declared: &Declared, one: &Table) -> Result<(), AllocError> {
        let context = self.context;
        let plan = Plan::of(context.alloc, context.declared, at.index, one)?;
        let code = print_table(context, &plan, declared)?;
        self.put_code("//! Tables `$T`.\n", at, &code);
        if context.verified {
            self.add_table_view(&plan, one)?;
        }
        Ok(())
    }

    fn add_struct(&mut self, at: At, declared: &Declared, one: &Struct) -> Result<(), AllocError> {
        let context = self.context;
        let code = print_struct(context, at, declared, one)?;
        if is_long(one) {
            self.put_code(LONG_STRUCT, at, &code);
            let uses = print_part_uses(context, at, one)?;
            let layout = print_long_layout(context, at, one)?;
            self.put_definitions_with(STRUCT_LAYOUT, at, &uses, &layout);
            self.add_part_proofs(at, one)?;
        } else {
            self.put_code("//! Structs `$T`.\n", at, &code);
            let layout = print_struct_layout(context, at);
            self.put_definitions(STRUCT_LAYOUT, at, &layout);
            self.add_struct_proof(at, one)?;
        }
        if context.is_exact_declaration(at.index) {
            let proof = print_exact_struct(context, at, one);
            self.put("proofs/$M/$TExact/equal_is_same/Answers.antt", at, &proof);
        }
        Ok(())
    }

    // The proof of how a struct is written, if it has one.
    fn add_struct_proof(&mut self, at: At, one: &Struct) -> Result<(), AllocError> {
        let context = self.context;
        if has_answer(one) {
            let proof = print_answer(context, at, one)?;
            self.put_proof(STRUCT_PROOF, at, &proof);
        } else if has_padding(one) {
            let proof = print_padded(context, at);
            self.put(STRUCT_PROOF, at, &proof);
        }
        if has_many_clauses(context, one, whole(one)) {
            let proof = print_fields_read(context, at, one, Written::Fields, whole(one))?;
            self.put_proof(STRUCT_READ, at, &proof);
        }
        Ok(())
    }

    // The proofs of a struct in parts, and of these.
    fn add_part_proofs(&mut self, at: At, one: &Struct) -> Result<(), AllocError> {
        let context = self.context;
        let parts = parts_of(context.alloc, one)?;
        for (place, part) in parts.iter().enumerate() {
            let written = Written::FieldsOf(place);
            let proof = print_fields_answer(context, at, one, written, *part)?;
            let mut path = Printer::new(context);
            path.put_part_path(place, "put", at);
            self.put_proof(path.as_str(), at, &proof);
            if has_many_clauses(context, one, *part) {
                let proof = print_fields_read(context, at, one, written, *part)?;
                path.clear();
                path.put_part_path(place, "read", at);
                self.put_proof(path.as_str(), at, &proof);
            }
        }
        let proof = print_parts_answer(context, at, one)?;
        self.put_proof(STRUCT_PROOF, at, &proof);
        let proof = print_parts_read(context, at, one)?;
        self.put_proof(STRUCT_READ, at, &proof);
        Ok(())
    }

    // Adds a proof whose fields' shapes are imported.
    fn put_proof(&mut self, path: &str, at: At, proof: &Printer<'_>) {
        let mut file = Printer::new(self.context);
        file.put_definition_uses(proof.as_str(), self.order, at.index);
        file.join(proof);
        self.put(path, at, &file);
    }

    fn put_flags(&mut self, at: At, declared: &Declared) {
        let context = self.context;
        let code = print_flags(context, at, declared);
        self.put_code("//! Flags `$T`.\n", at, &code);
        let layout = print_flags_layout(context, at);
        self.put_definitions("-- The layout of `$T`.\n", at, &layout);
    }

    fn put_enum(&mut self, at: At, declared: &Declared, one: &Enum) {
        let context = self.context;
        let code = print_enum(context, at, declared, one);
        self.put_code("//! Enum `$T`.\n", at, &code);
        if has_many_values(one) {
            let proofs = print_number_proofs(context, at);
            self.put("proofs/$M/$T/number/Answers.antt", at, &proofs);
            let proof = print_exact_enum(context, at);
            self.put("proofs/$M/$TExact/equal_is_same/Answers.antt", at, &proof);
        }
        let numbers = print_numbers(context, at, one);
        self.put_definitions("-- The numbers of `$T`.\n", at, &numbers);
    }

    fn put_union(&mut self, at: At, declared: &Declared, one: &Union) {
        let context = self.context;
        let code = print_union(context, at, declared, one);
        self.put_code("//! Unions `$T`.\n", at, &code);
        if context.verified {
            self.put_union_view(at, one);
        }
        let variants = print_variants(context, at, one);
        self.put_definitions("-- The variants of `$T`.\n", at, &variants);
    }

    fn put_declared(&mut self, at: At, declared: &Declared) {
        match &declared.body {
            Body::Table(one) => {
                if self.add_table(at, declared, one).is_err() {
                    self.failed = true;
                }
            }
            Body::Struct(one) => {
                if self.add_struct(at, declared, one).is_err() {
                    self.failed = true;
                }
            }
            Body::Enum(one) if one.flags => self.put_flags(at, declared),
            Body::Enum(one) => self.put_enum(at, declared, one),
            Body::Union(one) => self.put_union(at, declared, one),
        }
    }

    // The modules of the namespaces in one; outside of all also those of declarations.
    fn modules_in(&self, namespace: &[u8]) -> Printer<'a> {
        let context = self.context;
        let mut text = Printer::new(context);
        for index in self.modules {
            let inner = namespace_around(context.names.namespace(*index)) == namespace;
            let (public, wanted) = if *index < context.declared.len() {
                ("", namespace.is_empty())
            } else {
                ("pub ", inner)
            };
            if wanted {
                text.put_str(public);
                text.put("mod $M;\n", At::declaration(*index));
            }
        }
        text
    }

    // Adds what a namespace has of its declarations, those whose modules are before one or behind it.
    fn put_uses(&self, text: &mut Printer<'_>, part: Uses<'_>, behind: bool) {
        let context = self.context;
        for index in &self.order.indices {
            if let Some(one) = context.declared.get(*index) {
                let is_behind = context.names.module(*index) > part.module.as_bytes();
                if namespace_around(&one.name) == part.namespace && is_behind == behind {
                    text.put_passed_on(part.template, *index, &one.body);
                }
            }
        }
    }

    // Adds the modules outside of all namespaces, and the declarations with the trait of tables.
    fn put_outermost(&self, text: &mut Printer<'_>) {
        let part = Uses {
            namespace: &[],
            template: "pub use $M::",
            module: RUNTIME,
        };
        let mut uses = Printer::new(self.context);
        self.put_uses(&mut uses, part, false);
        uses.put_str(CREATE);
        self.put_uses(&mut uses, part, true);
        text.join_apart(&self.modules_in(&[]));
        text.join_apart(&uses);
    }

    // Adds the modules in a namespace, and its declarations with their verified views.
    fn put_namespace(&self, text: &mut Printer<'_>, namespace: &[u8]) {
        let part = Uses {
            namespace,
            template: "pub use crate::$M::",
            module: VERIFIED,
        };
        let mut uses = Printer::new(self.context);
        self.put_uses(&mut uses, part, false);
        self.put_views(&mut uses, namespace, "pub use crate::verified::$M::");
        self.put_uses(&mut uses, part, true);
        text.join_apart(&self.modules_in(namespace));
        text.join_apart(&uses);
    }

    // Whether the declaration has a verified view.
    fn has_view(&self, index: usize) -> bool {
        let body = self.context.body(index);
        self.context.verified && matches!(body, Some(Body::Table(_) | Body::Union(_)))
    }

    // Adds the verified views in a namespace.
    fn put_views(&self, text: &mut Printer<'_>, namespace: &[u8], template: &str) {
        let context = self.context;
        for index in &self.order.indices {
            if let Some(one) = context.declared.get(*index) {
                if self.has_view(*index) && namespace_around(&one.name) == namespace {
                    text.put_view_passed_on(template, *index);
                }
            }
        }
    }

    // The schema as a value, and the modules of verified views.
    fn add_verified(&mut self) -> Result<(), AllocError> {
        let context = self.context;
        let mut text = Printer::new(context);
        text.put_str(VERIFIED_HEAD);
        for index in self.modules {
            if self.has_view(*index) {
                text.put("pub(crate) mod $M;\n", At::declaration(*index));
            }
        }
        text.join_apart(&print_schema(context)?);
        self.put("src/verified.rt", At::declaration(0), &text);
        let definition = print_schema_definition(context)?;
        self.put("specs/Verified.antt", At::declaration(0), &definition);
        Ok(())
    }

    fn put_verified(&mut self) {
        if self.context.has_views() && self.add_verified().is_err() {
            self.failed = true;
        }
    }

    fn put_namespaces(&mut self) {
        let context = self.context;
        for index in context.declared.len()..context.names.places.len() {
            let at = At::declaration(index);
            let mut text = Printer::new(context);
            text.put("//! Namespace `$O`.\n", at);
            self.put_namespace(&mut text, context.names.namespace(index));
            self.put("src$W.rt", at, &text);
        }
    }

    fn put_library(&mut self) {
        let context = self.context;
        let mut text = Printer::new(context);
        text.put_str("//! Code of a schema.\n#![tactic(auto)]\n");
        self.put_outermost(&mut text);
        if context.root.is_some() {
            text.put_str("\nmod root;\n");
            text.put_str(match (context.identifier, context.verified) {
                (Some(_), true) => ROOT,
                (None, true) => ROOT_ALONE,
                (Some(_), false) => CHECKED_ROOT,
                (None, false) => CHECKED_ROOT_ALONE,
            });
        }
        if context.has_views() {
            text.put_str("\nmod verified;\n");
        }
        let mut views = Printer::new(context);
        self.put_views(&mut views, &[], "pub use verified::$M::");
        text.join_apart(&views);
        if let Some(identifier) = context.identifier {
            text.put_identifier(identifier);
        }
        self.put("src/lib.rt", At::declaration(0), &text);
    }

    fn put_definition_list(&mut self) {
        let mut text = Printer::new(self.context);
        for (index, one) in self.context.declared.iter().enumerate() {
            if !matches!(one.body, Body::Table(_)) {
                text.put("pub mod $T\n", At::declaration(index));
            }
        }
        if self.context.has_views() {
            text.put_str("pub mod Verified\n");
        }
        self.put("specs/Lib.antt", At::declaration(0), &text);
    }

    fn put_all(&mut self) {
        for (index, declared) in self.context.declared.iter().enumerate() {
            self.put_declared(At::declaration(index), declared);
        }
        if let Some(root) = self.context.root {
            self.put_root(root);
        }
        self.put_verified();
        self.put_namespaces();
        self.put_library();
        self.put_definition_list();
    }
}

fn modules_of(context: &Context<'_>) -> Result<Vec<usize>, AllocError> {
    let mut names = Vec::new(context.alloc);
    for index in 0..context.names.places.len() {
        names.push(Vec::from_slice(context.alloc, context.names.module(index))?)?;
    }
    places_by_name(context.alloc, &names)
}

fn files_of(context: &Context<'_>) -> Result<Vec<PrintedFile>, AllocError> {
    let order = Order::of(context.alloc, &context.names)?;
    let modules = modules_of(context)?;
    let mut files = Files {
        context,
        order: &order,
        modules: &modules,
        files: Vec::new(context.alloc),
        failed: false,
    };
    files.put_all();
    if files.failed {
        return Err(AllocError);
    }
    Ok(files.files)
}

/// Returns the files of a crate of this name with the code of a schema, verified reading with it or
/// without.
///
/// They are read again before: each table has its accessors and its lines, its verified view has
/// its accessors, both have the look-up by the table's key, and there is the schema as a value.
/// Each enum has its numbers, each union its tags, each struct its layout, each set of flags its bits.
/// There are the functions of the root and the file identifier, where the schema has them.
/// [`PrintError::Unsupported`] where something in it has no form in code, [`PrintError::Untied`]
/// where the printed code isn't the schema's.
pub fn print_crate(
    alloc: Global,
    schema: &Schema,
    name: &str,
    verified: bool,
) -> Result<Vec<PrintedFile>, PrintError>
    ensures { IfOk result (λ files. IsPrinted verified schema.now files.items) }
{
    refuse_unsupported(alloc, &schema.declarations)?;
    let context = Context::new(alloc, schema, name, verified)?;
    let files = files_of(&context)?;
    if !are_tied(
        alloc,
        &context.naming(),
        &schema.statements,
        &files,
        verified,
    )? {
        return Err(PrintError::Untied);
    }
    Ok(files)
}
