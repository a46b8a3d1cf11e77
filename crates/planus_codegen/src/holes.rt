//! What the letters of templates stand for.
//!
//! Everywhere: `I` the file identifier in clauses.
//!
//! Of a declaration: `c` the crate, `T` the type, `U` the type in its namespace, `M` the module; of a
//! namespace `M` the module, `O` the name in the schema, `W` the module's path; of a table or a union
//! `a` its index among them; of an enum or a struct `S` its size, `A` its alignment, `P` the
//! alignment's exponent, `Q` how many alignments the size has; of an enum `b` its scalar type, `j` the
//! type of its numbers in definitions, `q` the test of two; of a struct `y` the padding at its end; of
//! a union `Z` the variant of an unknown tag.
//!
//! Of a member: `n` its name, `N` in capitals, `V` in small letters, `s` in the schema, `p` its
//! place; of a value of an enum `i` its number in code and `k` in definitions; of a field `t` the
//! type of its value, `h` the name of its shape; of a field of a struct `d` its shape, `z` its size,
//! `w` its name with its offset, if it isn't the first, both in brackets of an array, `x` the padding
//! before it, `f` its name in a record, `v` its value in the tuple of all; of a member of a union `g`
//! its tag, `m` its type; of either `B` the index of the type among the tables or unions.
//!
//! Of a member of a union, by its type: `D` what it is, `G` an offset to it, `R` its type as it is
//! read, `J` verified, `E` how it is read, `H` verified; in definitions `K` its variant, `L` what
//! stands for its value, `e` from that as it is read, `F` verified; `l` its kind in the schema's value.
//!
//! Of a field of a table: `o` its slot, `u` the slot before, `r` the slot it is read by; `l` its
//! default as an integer, `L` in clauses, `e` as a value of an enum, `F` as a float, `H` in clauses;
//! `C` the size of its value or item; of one that holds a buffer `X` the type of the root, `Y` the
//! method that reads it; and, as templates of these letters, `G` its type as it is given, `R` as it is
//! read, `J` verified, `E` as it is encoded, `D` its default in code, `K` in clauses.

use crate::at::At;
use crate::context::{Context, scalar_name};
use crate::defaults::{default, default_clause, default_number, default_place};
use crate::known::is_escaped;
use crate::members::member_template;
use crate::printer::{OWN, Printer};
use crate::types::{encoded, given, has_default, is_optional, is_union, read};
use crate::verified_tables::verified;
use planus_schema::{Base, Body, Number, StructField, measure_of};

const UNKNOWN: &str = "Unknown";

const ROOT: &str = "_root";

const NOTHING: Number = Number {
    negative: false,
    magnitude: 0,
};

fn layout(context: &Context<'_>, index: usize) -> (usize, usize) {
    match context.body(index) {
        Some(Body::Enum(one)) => (one.scalar.size(), one.scalar.size()),
        Some(Body::Struct(one)) => (one.size, one.alignment),
        _ => (1, 1),
    }
}

fn span(context: &Context<'_>, at: At) -> (usize, usize) {
    match context.body(at.index) {
        Some(Body::Struct(one)) => match one.fields.get(at.place) {
            Some(field) => (field.size, field.distance),
            None => (0, one.size),
        },
        _ => (0, 0),
    }
}

/// The padding before a field of a struct, or after the last one.
pub(crate) fn padding(context: &Context<'_>, at: At) -> usize {
    let (_, distance) = span(context, at);
    let before = match at.place.checked_sub(1) {
        Some(place) => {
            let (size, start) = span(context, at.member(place));
            start.saturating_add(size)
        }
        None => 0,
    };
    distance.saturating_sub(before)
}

/// The slot of a field, and the slot it is read by: of a union, its tag's.
fn slots(context: &Context<'_>, at: At) -> (usize, usize) {
    match context.field(at) {
        Some(field) if is_union(field.kind) => (field.slot, field.slot.saturating_sub(1)),
        Some(field) => (field.slot, field.slot),
        None => (0, 0),
    }
}

fn tag(context: &Context<'_>, at: At) -> usize {
    match context.body(at.index) {
        Some(Body::Union(one)) => match one.members.get(at.place) {
            Some(member) => member.tag as usize,
            None => 0,
        },
        _ => 0,
    }
}

/// A name of a declaration, or that of a member in the schema.
fn word<'a>(context: &'a Context<'_>, letter: char, at: At) -> &'a [u8] {
    let names = &context.names;
    match letter {
        'c' => context.crate_name.as_bytes(),
        'T' => names.type_name(at.index),
        'U' => names.type_in_namespace(at.index),
        'M' => names.module(at.index),
        'O' => names.namespace(at.index),
        _ => context.said(at),
    }
}

fn number(context: &Context<'_>, letter: char, at: At) -> usize {
    let (size, alignment) = layout(context, at.index);
    match letter {
        'S' => size,
        'A' => alignment,
        'P' => alignment.trailing_zeros() as usize,
        'Q' => size.checked_div(alignment).unwrap_or(0),
        'a' => context.rank(at.index),
        'B' => rank_of_type(context, at),
        'C' => size_of_value(context, at),
        'g' => tag(context, at),
        'o' => slots(context, at).0,
        'u' => slots(context, at).0.saturating_sub(1),
        'r' => slots(context, at).1,
        _ => at.place,
    }
}

/// A value of an enum, or else the default of a field.
fn integer(context: &Context<'_>, at: At) -> Number {
    match context.body(at.index) {
        Some(Body::Enum(one)) => match one.values.get(at.place) {
            Some(value) => value.number,
            None => NOTHING,
        },
        _ => match context.field(at) {
            Some(field) => default_number(field),
            None => NOTHING,
        },
    }
}

pub(crate) fn base(context: &Context<'_>, at: At) -> Base {
    match context.body(at.index) {
        Some(Body::Table(one)) => match one.fields.get(at.place) {
            Some(field) => field.kind.base,
            None => Base::Text,
        },
        Some(Body::Struct(one)) => match one.fields.get(at.place) {
            Some(field) => field.base,
            None => Base::Text,
        },
        Some(Body::Union(one)) => match one.members.get(at.place) {
            Some(member) => member.base,
            None => Base::Text,
        },
        _ => Base::Text,
    }
}

/// How many items an array in a struct has.
pub(crate) fn array_count(context: &Context<'_>, at: At) -> Option<usize> {
    match context.body(at.index) {
        Some(Body::Struct(one)) => match one.fields.get(at.place) {
            Some(field) => field.count,
            None => None,
        },
        _ => None,
    }
}

fn is_forced(fields: &[StructField], alignment: usize) -> bool {
    for field in fields {
        if field.alignment == alignment {
            return false;
        }
    }
    true
}

/// Whether the alignment of a struct is above those of its fields.
pub(crate) fn has_forced_alignment(context: &Context<'_>, at: At) -> bool {
    match context.body(at.index) {
        Some(Body::Struct(one)) => is_forced(&one.fields, one.alignment),
        _ => false,
    }
}

/// The root of the buffer in a field.
fn nested(context: &Context<'_>, at: At) -> Option<usize> {
    match context.field(at) {
        Some(field) => field.nested,
        None => None,
    }
}

/// The index of the type of a member, or of its buffer's root, among the tables or unions.
fn rank_of_type(context: &Context<'_>, at: At) -> usize {
    match (nested(context, at), base(context, at)) {
        (Some(index), _) | (None, Base::Table(index) | Base::Union(index)) => context.rank(index),
        _ => 0,
    }
}

fn size_of_value(context: &Context<'_>, at: At) -> usize {
    match measure_of(context.declared, base(context, at)) {
        Some(measure) => measure.size,
        None => 0,
    }
}

// Whether a name is that of two words and so many `_`.
pub(crate) fn is_marked(name: &[u8], start: &[u8], end: &[u8], marks: usize) -> bool {
    let rest = match name.strip_prefix(start) {
        Some(rest) => rest.strip_prefix(end),
        None => None,
    };
    match rest {
        Some(rest) => rest.len() == marks && rest.iter().all(|byte| *byte == b'_'),
        None => false,
    }
}

impl<'a> Printer<'a> {
    // As many `_` as are needed after these words, so that no member has that name.
    pub(crate) fn put_marks(&mut self, index: usize, start: &[u8], end: &[u8]) {
        let names = &self.context.names;
        let count = names.count(index);
        for marks in 0..count {
            if !(0..count).any(|place| is_marked(names.member(index, place), start, end, marks)) {
                return;
            }
            self.put_char('_');
        }
    }

    fn put_unknown(&mut self, index: usize) {
        self.put_str(UNKNOWN);
        self.put_marks(index, UNKNOWN.as_bytes(), &[]);
    }

    // The name of the method that reads the root of a field's buffer.
    fn put_nested_name(&mut self, at: At) {
        let name = self.context.names.member(at.index, at.place);
        self.put_name(name);
        self.put_str(ROOT);
        self.put_marks(at.index, name, ROOT.as_bytes());
    }

    fn put_nested_type(&mut self, at: At) {
        let context = self.context;
        if let Some(index) = nested(context, at) {
            self.put_name(context.names.type_name(index));
        }
    }

    fn put_integer(&mut self, number: Number) {
        if number.negative {
            self.put_char('-');
        }
        self.put_number(number.magnitude);
    }

    fn put_counted(&mut self, number: Number, signed: bool) {
        if number.negative {
            self.put_str("negsuc ");
            self.put_number(number.magnitude.saturating_sub(1));
        } else {
            self.put_str(if signed { "pos " } else { "" });
            self.put_number(number.magnitude);
        }
    }

    fn put_capitals(&mut self, name: &[u8]) {
        for letter in name {
            self.put_char(letter.to_ascii_uppercase() as char);
        }
    }

    fn put_small(&mut self, name: &[u8]) {
        for letter in name {
            self.put_char(letter.to_ascii_lowercase() as char);
        }
    }

    fn put_record_name(&mut self, name: &[u8]) {
        let escaped = is_escaped(name);
        self.put_char(OWN);
        self.put_str(if escaped { "«" } else { "" });
        self.put_name(name);
        self.put_str(if escaped { "»" } else { "" });
    }

    fn put_type(&mut self, base: Base) {
        let names = &self.context.names;
        match base {
            Base::Scalar(scalar) => self.put_str(scalar_name(scalar)),
            Base::Text => self.put_str("Text"),
            Base::Enum(index) | Base::Struct(index) | Base::Table(index) | Base::Union(index) => {
                self.put_name(names.type_name(index));
            }
        }
    }

    // The type of a member's value.
    fn put_value_type(&mut self, at: At) {
        let context = self.context;
        let base = base(context, at);
        match array_count(context, at) {
            Some(count) => {
                self.put_char('[');
                self.put_type(base);
                self.put_str("; ");
                self.put_number(count as u64);
                self.put_char(']');
            }
            None => self.put_type(base),
        }
    }

    fn put_shape(&mut self, base: Base) {
        let names = &self.context.names;
        match base {
            Base::Enum(index) | Base::Struct(index) | Base::Union(index) => {
                self.put_name(names.module(index));
            }
            base => self.put_type(base),
        }
    }

    fn put_padding(&mut self, before: &str, bytes: usize, after: &str) {
        if bytes > 0 {
            self.put_str(before);
            self.put_number(bytes as u64);
            self.put_str(after);
        }
    }

    // A number of bytes of a field of a struct, as `put_fields!` and `read_fields!` take it.
    fn put_bytes_of(&mut self, bytes: usize, at: At) {
        let is_array = array_count(self.context, at).is_some();
        self.put_str(if is_array { "[" } else { "" });
        self.put_number(bytes as u64);
        self.put_str(if is_array { "]" } else { "" });
    }

    // A field of a struct, as `read_fields!` takes it.
    fn put_read(&mut self, at: At) {
        let context = self.context;
        let is_first = at.place == 0;
        let in_brackets = is_first && array_count(context, at).is_some();
        self.put_str(if in_brackets { "[" } else { "" });
        self.put_char(OWN);
        self.put_name(context.names.member(at.index, at.place));
        self.put_str(if in_brackets { "]" } else { "" });
        if !is_first {
            self.put_str(": ");
            self.put_bytes_of(span(context, at).1, at);
        }
    }

    // The shape of a field of a struct.
    fn put_field_shape(&mut self, at: At) {
        let context = self.context;
        let base = base(context, at);
        if let Some(count) = array_count(context, at) {
            self.put_str("(array_shape ");
            self.put_number(count as u64);
            self.put_str(" (lit< tt) ");
        }
        self.put_shape(base);
        self.put_str("_shape");
        if array_count(context, at).is_some() {
            self.put_char(')');
        }
    }

    // A field of a struct in the tuple of its values.
    pub(crate) fn put_projection(&mut self, place: usize) {
        self.put_char('v');
        for _ in 0..place {
            self.put_str(".1");
        }
        self.put_str(".0");
    }

    fn put_enum_word(&mut self, letter: char, index: usize) {
        let signed = self.context.is_signed_enum(index);
        match letter {
            'j' => self.put_str(if signed { "ℤ" } else { "ℕ" }),
            'q' => self.put_str(if signed { "int_eq" } else { "nat_eq" }),
            _ => self.put_str(self.context.enum_scalar(index)),
        }
    }

    fn put_struct_word(&mut self, letter: char, at: At) {
        let context = self.context;
        match letter {
            'x' => self.put_padding("_: ", padding(context, at), ",\u{1}"),
            'y' => {
                let end = at.member(context.names.count(at.index));
                self.put_padding(",\u{1}_: ", padding(context, end), "");
            }
            'z' => self.put_bytes_of(span(context, at).0, at),
            'w' => self.put_read(at),
            'd' => self.put_field_shape(at),
            _ => self.put_projection(at.place),
        }
    }

    fn put_default_value(&mut self, at: At) {
        let context = self.context;
        if let Some(field) = context.field(at) {
            match field.kind.base {
                Base::Enum(index) => {
                    let place = default_place(context, index, field);
                    self.put_char(OWN);
                    self.put_name(context.names.member(index, place));
                }
                Base::Scalar(scalar) => self.put_float(scalar, field),
                _ => {}
            }
        }
    }

    fn put_default_float(&mut self, at: At) {
        if let Some(field) = self.context.field(at) {
            if let Base::Scalar(scalar) = field.kind.base {
                self.put_float_value(scalar, field);
            }
        }
    }

    // The file identifier as a list of bytes.
    fn put_identifier_bytes(&mut self) {
        if let Some(identifier) = self.context.identifier {
            for byte in identifier {
                self.put_number(*byte as u64);
                self.put_str(" ∷ ");
            }
        }
        self.put_str("[]");
    }

    // The modules of the namespaces around one, and its own.
    fn put_module_path(&mut self, namespace: &[u8]) {
        let names = &self.context.names;
        for index in names.modules.len()..names.places.len() {
            let around = names.namespace(index);
            let ends = matches!(namespace.get(around.len()), None | Some(b'.'));
            if ends && namespace.starts_with(around) {
                self.put_char('/');
                self.put_name(names.module(index));
            }
        }
    }

    pub(crate) fn put_plain_hole(&mut self, letter: char, at: At) {
        let context = self.context;
        let names = &context.names;
        match letter {
            'c' | 'T' | 'U' | 'M' | 'O' | 's' => self.put_name(word(context, letter, at)),
            'W' => self.put_module_path(names.namespace(at.index)),
            'n' => {
                self.put_char(OWN);
                self.put_name(names.member(at.index, at.place));
            }
            'f' => self.put_record_name(names.member(at.index, at.place)),
            'N' => self.put_capitals(names.member(at.index, at.place)),
            'V' => self.put_small(names.member(at.index, at.place)),
            'i' | 'l' => self.put_integer(integer(context, at)),
            'k' => self.put_counted(integer(context, at), context.is_signed_enum(at.index)),
            'L' => self.put_counted(integer(context, at), true),
            't' | 'm' => self.put_value_type(at),
            'h' => self.put_shape(base(context, at)),
            'b' | 'j' | 'q' => self.put_enum_word(letter, at.index),
            'x' | 'y' | 'z' | 'w' | 'd' | 'v' => self.put_struct_word(letter, at),
            'e' | 'F' => self.put_default_value(at),
            'H' => self.put_default_float(at),
            'I' => self.put_identifier_bytes(),
            'X' => self.put_nested_type(at),
            'Y' => self.put_nested_name(at),
            'Z' => self.put_unknown(at.index),
            _ => self.put_number(number(context, letter, at) as u64),
        }
    }

    fn put_field_type(&mut self, optional: bool, template: &str, at: At) {
        if optional {
            self.put_str("Option<");
        }
        self.put_plain(template, at);
        if optional {
            self.put_char('>');
        }
    }

    // What a letter stands for in a member of a union, or of another declaration without templates.
    fn put_member_hole(&mut self, letter: char, at: At) {
        let context = self.context;
        let template = match context.body(at.index) {
            Some(Body::Union(_)) => member_template(letter, base(context, at)),
            _ => None,
        };
        match template {
            Some(template) => self.put_plain(template, at),
            None => self.put_plain_hole(letter, at),
        }
    }

    /// Adds what a letter stands for.
    pub(crate) fn put_hole(&mut self, letter: char, at: At) {
        let context = self.context;
        let field = match context.field(at) {
            Some(field) => field,
            None => return self.put_member_hole(letter, at),
        };
        match letter {
            'G' => self.put_field_type(is_optional(field), given(field.kind), at),
            'R' => {
                let optional = !field.required && !has_default(field);
                let total = context.is_total(field.kind.base);
                self.put_field_type(optional, read(field.kind, total), at);
            }
            'J' => {
                let optional = !field.required && !has_default(field);
                let total = context.is_total(field.kind.base);
                self.put_field_type(optional, verified(field.kind, total), at);
            }
            'E' => self.put_plain(encoded(field.kind), at),
            'D' => self.put_plain(default(context, field), at),
            'K' => self.put_plain(default_clause(context, field), at),
            _ => self.put_plain_hole(letter, at),
        }
    }
}
