//! The header of calls for C.

use crate::at::At;
use crate::context::Context;
use crate::foreign_words::{Language, is_word_of};
use crate::order::Order;
use crate::printer::Printer;
use planus_schema::{Base, Body, Enum, Line, Number, Plan, Scalar, Struct};
use std::alloc::AllocError;

const HEAD: &str = "\
/* Calls over buffers of `$c`. Each answers a status, and stores what it reads only with 0.

   No position and no byte of a buffer does harm. A pointer is valid for the bytes that its length
   says, or null with length 0; what a call stores into overlaps nothing else that it is given.

   A table is the position of the reference that leads to it, in bytes from the buffer's start; the
   root is at 0. A vector is a span: the position of its first item and the number of its items,
   which stand one after another. An item that is a table or a string is a reference of 4 bytes:
   its position is that of the table, and §_string_at reads the string. A union is its tag and
   the position of the reference to its value: of a table its position, of a string what
   §_string_at reads, of a struct what its call that ends in `behind` reads. */
";

const TYPES: &str = "
#include <stdbool.h>
#include <stddef.h>
#include <stdint.h>

#ifdef __cplusplus
extern \"C\" {
#endif

/* There is a value; it is absent; why none is read; why a buffer isn't verified. */
enum {
  §_OK = 0,
  §_ABSENT = 1,
  §_INVALID_OFFSET = 2,
  §_INVALID_LENGTH = 3,
  §_UNION_LENGTHS = 4,
  §_UNKNOWN_VALUE = 5,
  §_UNKNOWN_TAG = 6,
  §_INVALID_VTABLE = 7,
  §_INVALID_UTF8 = 8,
  §_MISSING_REQUIRED = 9,
  §_MISSING_NULL = 10,
  §_TOO_DEEP = 11,
  §_TOO_MANY = 12
};

";

const PLACES: &str = "\
/* Bytes, or items, from buffer[at] on. */
typedef struct {
  size_t at;
  size_t len;
} §_span;

/* A union: the position of the reference to its value, and its tag. */
typedef struct {
  size_t at;
  uint8_t tag;
} §_member;

static const size_t §_root = 0;

/* What a status says. */
static inline const char *§_status_text(uint32_t status) {
  switch (status) {
  case 0: return \"ok\";
  case 1: return \"absent\";
  case 2: return \"an offset leads out of the buffer\";
  case 3: return \"a length leads out of the buffer\";
  case 4: return \"the vectors of a union have different lengths\";
  case 5: return \"an enum has no such value\";
  case 6: return \"a union has no such tag\";
  case 7: return \"a vtable has a wrong length\";
  case 8: return \"a string isn't UTF-8\";
  case 9: return \"a required field is missing\";
  case 10: return \"a string doesn't end in a zero byte\";
  case 11: return \"tables lead to tables beyond the limit\";
  case 12: return \"more tables are reached than the limit\";
  default: return \"no status\";
  }
}

/* The string to which the reference at a position leads. */
uint32_t §_string_at(const uint8_t *buffer, size_t len, size_t position, §_span *out);

/* The first of these size-prefixed buffers, after its size. */
uint32_t §_sized(const uint8_t *buffer, size_t len, §_span *out);
";

const END: &str = "
#ifdef __cplusplus
}
#endif
#endif
";

const VALUE: &str = "(const uint8_t *buffer, size_t len, size_t position, §_$M *out);\n";

const IDENTIFIED: &str = "
/* Whether a buffer has the file identifier of the schema. */
bool §_has_identifier(const uint8_t *buffer, size_t len);
";

/// The magnitude of the least number of 64 bits.
const LEAST: u64 = 9_223_372_036_854_775_808;

/// Returns the type of numbers in C.
pub(crate) fn scalar_type(scalar: Scalar) -> &'static str {
    match scalar {
        Scalar::Bool => "bool",
        Scalar::Byte => "int8_t",
        Scalar::UByte => "uint8_t",
        Scalar::Short => "int16_t",
        Scalar::UShort => "uint16_t",
        Scalar::Int => "int32_t",
        Scalar::UInt => "uint32_t",
        Scalar::Long => "int64_t",
        Scalar::ULong => "uint64_t",
        Scalar::Float => "float",
        Scalar::Double => "double",
    }
}

impl<'a> Printer<'a> {
    pub(crate) fn put_upper(&mut self, prefix: &str) {
        for letter in prefix.chars() {
            self.put_char(letter.to_ascii_uppercase());
        }
    }

    /// Adds what keeps a header from being read twice.
    pub(crate) fn put_guard(&mut self, ending: &str, prefix: &str) {
        for word in ["#ifndef ", "#define "] {
            self.put_str(word);
            self.put_upper(prefix);
            self.put_char('_');
            self.put_str(ending);
            self.put_char('\n');
        }
    }

    // The type in C of a field of a fixed layout, or of what is stored of another one.
    fn put_foreign_type(&mut self, base: Base, prefix: &str) {
        match base {
            Base::Scalar(scalar) => self.put_str(scalar_type(scalar)),
            Base::Enum(index) | Base::Struct(index) => {
                self.put_prefixed("§_$M", prefix, At::declaration(index));
            }
            Base::Table(_) => self.put_str("size_t"),
            Base::Text => self.put_prefixed("§_span", prefix, At::declaration(0)),
            Base::Union(_) => self.put_prefixed("§_member", prefix, At::declaration(0)),
        }
    }

    /// Adds the name of an enum's value.
    pub(crate) fn put_enum_macro(&mut self, prefix: &str, at: At) {
        self.put_upper(prefix);
        self.put_char('_');
        for letter in self.context.names.module(at.index) {
            self.put_char(letter.to_ascii_uppercase() as char);
        }
        self.put("_$N", at);
    }

    // A number of a type. C has no least one.
    fn put_literal(&mut self, scalar: Scalar, number: Number) {
        let least = number.magnitude == LEAST;
        match (number.negative, scalar) {
            (true, _) if least => {
                self.put_str("(-");
                self.put_number(LEAST - 1);
                self.put_str(" - 1)");
            }
            (true, _) => {
                self.put_str("(-");
                self.put_number(number.magnitude);
                self.put_str(")");
            }
            (false, scalar) => {
                self.put_number(number.magnitude);
                self.put_str(if matches!(scalar, Scalar::ULong) {
                    "u"
                } else {
                    ""
                });
            }
        }
    }

    fn put_foreign_enum(&mut self, one: &Enum, prefix: &str, at: At) {
        self.put("\n/* `$T`. */\n", at);
        self.put_str("typedef ");
        self.put_str(scalar_type(one.scalar));
        self.put_prefixed(" §_$M;\n", prefix, at);
        for (place, value) in one.values.iter().enumerate() {
            self.put_str("#define ");
            self.put_enum_macro(prefix, at.member(place));
            self.put_char(' ');
            self.put_literal(one.scalar, value.number);
            self.put_char('\n');
        }
    }

    fn put_foreign_struct(&mut self, one: &Struct, prefix: &str, at: At) {
        self.put("\n/* `$T`, in its bytes. */\ntypedef struct {\n", at);
        let mut end = 0usize;
        for (place, field) in one.fields.iter().enumerate() {
            self.put_foreign_padding(field.distance.saturating_sub(end), place);
            end = field.distance.saturating_add(field.size);
            self.put_str("  ");
            self.put_foreign_type(field.base, prefix);
            self.put_char(' ');
            self.put_foreign_name(&field.name, at);
            if let Some(count) = field.count {
                self.put_char('[');
                self.put_number(count as u64);
                self.put_char(']');
            }
            self.put_str(";");
            self.put_renaming(&field.name);
        }
        self.put_foreign_padding(one.size.saturating_sub(end), one.fields.len());
        self.put_prefixed("} §_$M;\n", prefix, at);
    }

    // The name of a field of a struct.
    fn put_foreign_name(&mut self, name: &[u8], at: At) {
        match self.context.names.members.get(at.index) {
            Some(others) => self.put_apart(Language::Cpp, name, others),
            None => self.put_name(name),
        }
    }

    // What the schema calls a field whose name is a word of C or C++.
    fn put_renaming(&mut self, name: &[u8]) {
        if is_word_of(Language::Cpp, name) {
            self.put_str(" /* `");
            self.put_name(name);
            self.put_str("` in the schema */");
        }
        self.put_char('\n');
    }

    fn put_foreign_padding(&mut self, bytes: usize, place: usize) {
        if bytes > 0 {
            self.put_str("  uint8_t padding_");
            self.put_number(place as u64);
            self.put_char('[');
            self.put_number(bytes as u64);
            self.put_str("];\n");
        }
    }

    fn put_value_call(&mut self, ending: &str, prefix: &str, at: At) {
        self.put_prefixed("uint32_t §_$M_", prefix, at);
        self.put_str(ending);
        self.put_prefixed(VALUE, prefix, at);
    }

    fn put_foreign_call(&mut self, line: &Line<'_>, prefix: &str) {
        let at = At::line(line);
        let kind = line.field.kind;
        let is_union = matches!(kind.base, Base::Union(_));
        self.put_prefixed("uint32_t §_$M_$n", prefix, at);
        self.put_str("(const uint8_t *buffer, size_t len, size_t table, ");
        self.put_str(if is_union && kind.vector {
            "size_t index, "
        } else {
            ""
        });
        if kind.vector && !is_union {
            self.put_prefixed("§_span", prefix, at);
        } else {
            self.put_foreign_type(kind.base, prefix);
        }
        self.put_str(" *out);\n");
    }

    fn put_foreign_table(&mut self, plan: &Plan<'_>, prefix: &str) {
        self.put("\n/* Tables `$T`. */\n", At::declaration(plan.table));
        for line in &plan.lines {
            self.put_foreign_call(line, prefix);
        }
    }

    fn put_foreign_value(&mut self, body: &Body, prefix: &str, at: At) {
        match body {
            Body::Enum(one) => {
                self.put_foreign_enum(one, prefix, at);
                self.put_value_call("at", prefix, at);
            }
            Body::Struct(one) => {
                self.put_foreign_struct(one, prefix, at);
                self.put_value_call("at", prefix, at);
                self.put_value_call("behind", prefix, at);
            }
            _ => {}
        }
    }
}

/// Returns the header of the calls for C.
pub(crate) fn print_header<'a>(
    context: &'a Context<'a>,
    prefix: &str,
) -> Result<Printer<'a>, AllocError> {
    let mut header = Printer::new(context);
    let first = At::declaration(0);
    header.put_prefixed(HEAD, prefix, first);
    header.put_guard("H", prefix);
    let mut upper = Printer::new(context);
    upper.put_upper(prefix);
    header.put_prefixed(TYPES, upper.as_str(), first);
    header.put_prefixed(PLACES, prefix, first);
    if context.root.is_some() && context.identifier.is_some() {
        header.put_prefixed(IDENTIFIED, prefix, first);
    }
    if context.root.is_some() && context.verified {
        header.put_verify_header(prefix);
    }
    for (index, one) in context.declared.iter().enumerate() {
        header.put_foreign_value(&one.body, prefix, At::declaration(index));
    }
    for (index, one) in context.declared.iter().enumerate() {
        if let Body::Table(table) = &one.body {
            let plan = Plan::of(context.alloc, context.declared, index, table)?;
            header.put_foreign_table(&plan, prefix);
        }
    }
    header.put_str(END);
    Ok(header)
}
