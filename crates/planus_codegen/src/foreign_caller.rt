//! Templates of modules in other languages that read by the calls for C.

use crate::at::At;
use crate::context::{Context, scalar_name};
use crate::foreign_forms::Forms;
use crate::foreign_header::scalar_type;
use crate::foreign_words::{Language, is_word_of};
use crate::holes::{array_count, base, is_marked, padding};
use crate::printer::Printer;
use planus_schema::{Base, Body, Scalar};

/// What a module is printed for.
///
/// In its templates `$` and a letter stand for what `holes.rt` says, `$$` for `$`, and
///
/// | Letter | Stands for |
/// |---|---|
/// | `§` | the prefix of all calls |
/// | `¦` | the same in capitals |
/// | `¬` | the same, which is no word of the language |
/// | `¢` | the name of a member, which is no word of the language |
/// | `¥` | the name of a declaration's type |
/// | `£` | the type of a member's value or of its items, in Python what reads it |
/// | `¶` | that of a struct's field in its bytes |
/// | `¤` | the name of the error, which no type has |
#[derive(Clone, Copy)]
pub(crate) struct Caller<'a> {
    pub(crate) language: Language,
    pub(crate) prefix: &'a str,
}

const ERROR: &[u8] = b"Error";

impl Language {
    /// Returns what stands before the name in C of a type of numbers.
    fn before_number(self, scalar: Scalar) -> &'static str {
        match (self, scalar) {
            (Language::Python, _) => "_c.c_",
            (_, Scalar::Bool | Scalar::Float | Scalar::Double) => "",
            _ => "std::",
        }
    }

    /// Returns the type of strings, or in Python what reads one.
    fn text(self) -> &'static str {
        match self {
            Language::Cpp => "std::string_view",
            Language::Python => "_Text()",
            Language::Rust => "&'a str",
        }
    }
}

impl<'a> Printer<'a> {
    /// Adds a name, and where it is a word of the language so many `_` that it is none of these.
    pub(crate) fn put_apart(&mut self, language: Language, name: &[u8], others: &[Vec<u8>]) {
        self.put_name(name);
        if is_word_of(language, name) {
            self.put_char('_');
            for marks in 1..others.len() {
                if !others
                    .iter()
                    .any(|other| is_marked(other, name, &[], marks))
                {
                    return;
                }
                self.put_char('_');
            }
        }
    }

    /// Adds the name of a declaration's type.
    pub(crate) fn put_caller_type(&mut self, language: Language, index: usize) {
        let names = &self.context.names;
        self.put_apart(language, names.type_name(index), &names.types);
    }

    /// Adds the name of a member.
    pub(crate) fn put_caller_member(&mut self, language: Language, at: At) {
        let names = &self.context.names;
        let name = names.member(at.index, at.place);
        match names.members.get(at.index) {
            Some(others) => self.put_apart(language, name, others),
            None => self.put_name(name),
        }
    }

    // The type of a number. In Python `ctypes` has those of C without their ending.
    pub(crate) fn put_caller_number(&mut self, language: Language, scalar: Scalar) {
        if matches!(language, Language::Rust) {
            return self.put_str(scalar_name(scalar));
        }
        let name = scalar_type(scalar);
        self.put_str(language.before_number(scalar));
        self.put_str(match language {
            Language::Python => name.strip_suffix("_t").unwrap_or(name),
            _ => name,
        });
    }

    // The type of a member's value, or in Python what reads it.
    fn put_caller_base(&mut self, language: Language, base: Base) {
        match base {
            Base::Scalar(scalar) => self.put_caller_scalar(language, scalar),
            Base::Text => self.put_str(language.text()),
            Base::Enum(index) | Base::Struct(index) => {
                self.put_caller_declared(language, index, "");
            }
            Base::Table(index) | Base::Union(index) => {
                self.put_caller_declared(language, index, "<'a>");
            }
        }
    }

    fn put_caller_scalar(&mut self, language: Language, scalar: Scalar) {
        let python = matches!(language, Language::Python);
        self.put_str(if python { "_Number(" } else { "" });
        self.put_caller_number(language, scalar);
        self.put_str(if python { ")" } else { "" });
    }

    // What follows the type in Rust is given.
    fn put_caller_declared(&mut self, language: Language, index: usize, lifetime: &str) {
        match language {
            Language::Python => {
                self.put_str("_of_");
                self.put_name(self.context.names.module(index));
            }
            Language::Rust => {
                self.put_caller_type(language, index);
                self.put_str(lifetime);
            }
            Language::Cpp => self.put_caller_type(language, index),
        }
    }

    // The type of a field of a struct in its bytes, without an array's count.
    fn put_caller_item(&mut self, language: Language, base: Base) {
        let context = self.context;
        match base {
            Base::Enum(index) if matches!(language, Language::Python) => {
                if let Some(Body::Enum(one)) = context.body(index) {
                    self.put_caller_number(language, one.scalar);
                }
            }
            Base::Enum(index) | Base::Struct(index) => self.put_caller_type(language, index),
            Base::Scalar(scalar) => self.put_caller_number(language, scalar),
            _ => {}
        }
    }

    fn put_caller_stored(&mut self, language: Language, at: At) {
        let context = self.context;
        let base = base(context, at);
        let python = matches!(language, Language::Python);
        match array_count(context, at) {
            Some(count) => {
                self.put_str(if python { "" } else { "[" });
                self.put_caller_item(language, base);
                self.put_str(if python { " * " } else { "; " });
                self.put_number(count as u64);
                self.put_str(if python { "" } else { "]" });
            }
            None => self.put_caller_item(language, base),
        }
    }

    // The error's name, with `_` until no type has it.
    fn put_error_name(&mut self) {
        let types = &self.context.names.types;
        self.put_name(ERROR);
        for marks in 0..types.len() {
            if !types.iter().any(|name| is_marked(name, ERROR, &[], marks)) {
                return;
            }
            self.put_char('_');
        }
    }

    /// Adds a template of a module.
    pub(crate) fn put_caller(&mut self, template: &str, caller: Caller<'_>, at: At) {
        let context = self.context;
        let mut in_hole = false;
        for letter in template.chars() {
            match letter {
                '$' if in_hole => {
                    self.put_char('$');
                    in_hole = false;
                }
                letter if in_hole => {
                    self.put_plain_hole(letter, at);
                    in_hole = false;
                }
                '$' => in_hole = true,
                '§' => self.put_str(caller.prefix),
                '¬' => self.put_apart(caller.language, caller.prefix.as_bytes(), &[]),
                '¦' => self.put_upper(caller.prefix),
                '¢' => self.put_caller_member(caller.language, at),
                '¥' => self.put_caller_type(caller.language, at.index),
                '£' => self.put_caller_base(caller.language, base(context, at)),
                '¶' => self.put_caller_stored(caller.language, at),
                '¤' => self.put_error_name(),
                letter => self.put_char(letter),
            }
        }
    }

    /// Adds a template for each declaration.
    pub(crate) fn put_forms(&mut self, forms: Forms, caller: Caller<'_>) {
        for (index, one) in self.context.declared.iter().enumerate() {
            self.put_caller(forms.of(&one.body), caller, At::declaration(index));
        }
    }

    /// Adds the fields of a struct: templates of each, and of what stands around the number of the
    /// bytes before one or after the last.
    pub(crate) fn put_struct_forms(
        &mut self,
        template: &str,
        around: (&str, &str),
        caller: Caller<'_>,
        at: At,
    ) {
        let context = self.context;
        let count = context.names.count(at.index);
        for place in 0..count.saturating_add(1) {
            let at = at.member(place);
            let bytes = padding(context, at);
            if bytes > 0 {
                self.put_caller(around.0, caller, at);
                self.put_number(bytes as u64);
                self.put_str(around.1);
            }
            self.put_caller(if place < count { template } else { "" }, caller, at);
        }
    }

    /// Adds a template for each member of a declaration.
    pub(crate) fn put_member_forms(&mut self, template: &str, caller: Caller<'_>, at: At) {
        for place in 0..self.context.names.count(at.index) {
            self.put_caller(template, caller, at.member(place));
        }
    }
}
