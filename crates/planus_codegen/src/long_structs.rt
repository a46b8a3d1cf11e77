//! The code of a struct of many fields: its parts are structs, which are written and read one after
//! another.

use crate::at::At;
use crate::context::Context;
use crate::holes::has_forced_alignment;
use crate::parts::{Item, Part, items_of, items_of_parts, parts_of, start_at, whole};
use crate::printer::Printer;
use planus_schema::Struct;
use std::alloc::AllocError;

/// The most parts that are given in the line of a call, and the columns of its name and of these.
const ARGUMENTS: usize = 7;

const CALL_COLUMNS: usize = 78;

/// How many parts are given in the first line of a call that goes on.
const LINE: usize = 10;

/// The columns of the types of a function that takes parts, and of what is around each.
const SIGNATURE_COLUMNS: usize = 81;

const PART_HEAD: &str = "
#[derive(Clone, Copy)]
struct ";

impl<'a> Printer<'a> {
    // Where a name is told apart from those before it by a number.
    pub(crate) fn put_nth(&mut self, number: usize) {
        if number > 1 {
            self.put_str("-");
            self.put_number(number as u64);
        }
    }

    pub(crate) fn put_usize(&mut self, number: usize) {
        self.put_number(number as u64);
    }

    // The type of a part.
    pub(crate) fn put_part_type(&mut self, place: usize, at: At) {
        self.put("$T", at);
        self.put_part_marks(at.index);
        self.put_str("Part");
        self.put_usize(place.saturating_add(1));
    }

    // The definition of a part.
    pub(crate) fn put_part_word(&mut self, place: usize, at: At) {
        self.put("$M", at);
        self.put_part_marks(at.index);
        self.put_str("_part_");
        self.put_usize(place.saturating_add(1));
    }

    /// Adds the path of a part's proof.
    pub(crate) fn put_part_path(&mut self, place: usize, method: &str, at: At) {
        self.put("proofs/$M/", at);
        self.put_part_type(place, at);
        self.put_str("Plain/");
        self.put_str(method);
        self.put_str("/Answers.antt");
    }

    fn put_of_parts(&mut self, at: At) {
        self.put("$M", at);
        self.put_part_marks(at.index);
        self.put_str("_of_parts");
    }

    // As many `_` as are needed so that no declaration has a part's names.
    fn put_part_marks(&mut self, index: usize) {
        let names = &self.context.names;
        for marks in 0..names.types.len() {
            let types = is_begun(&names.types, names.type_name(index), marks, b"Part");
            if !types && !is_begun(&names.modules, names.module(index), marks, b"_part") {
                return;
            }
            self.put_char('_');
        }
    }

    fn put_layout_constants(&mut self, part: Part) {
        self.put_str("    ghost ALIGNMENT = { ");
        self.put_usize(part.alignment);
        self.put_str(" };\n\n    ghost SIZE = { ");
        self.put_usize(part.size);
        self.put_str(" };\n\n    ghost shape = { spec.");
    }

    fn put_layout_sizes(&mut self, part: Part) {
        self.put_str("_shape };\n\n    const ALIGNMENT: usize = ");
        self.put_usize(part.alignment);
        self.put_str(";\n\n    const SIZE: usize = ");
        self.put_usize(part.size);
        self.put_str(";\n\n    fn put(&self, bytes: &mut [u8]) {\n");
    }

    // The names and sizes of fields, as `put_fields!` takes them.
    fn put_written(&mut self, items: &[Item], at: At) {
        let mut between = "";
        for item in items {
            self.put(between, at);
            self.put("$n: $z", at.member(item.place));
            if item.gap > 0 {
                self.put(",~_: ", at);
                self.put_usize(item.gap);
            }
            between = ",~";
        }
    }

    // The names and places of fields, as `read_fields!` takes them.
    fn put_taken(&mut self, one: &Struct, part: Part, items: &[Item], at: At) {
        let mut between = "";
        for item in items {
            self.put(between, at);
            let offset = start_at(one, item.place).saturating_sub(part.start);
            self.put_taken_field(*item, item.place == part.from, offset, at);
            between = ",~";
        }
    }

    fn put_taken_field(&mut self, item: Item, is_first: bool, offset: usize, at: At) {
        let (start, end) = if item.is_array { ("[", "]") } else { ("", "") };
        if is_first {
            self.put_str(start);
            self.put("$n", at.member(item.place));
            self.put_str(end);
            return;
        }
        self.put("$n: ", at.member(item.place));
        self.put_str(start);
        self.put_usize(offset);
        self.put_str(end);
    }

    fn add_part(
        &mut self,
        one: &Struct,
        place: usize,
        part: Part,
        at: At,
    ) -> Result<(), AllocError> {
        let items = items_of(self.context.alloc, one, part)?;
        self.put_str(PART_HEAD);
        self.put_part_type(place, at);
        self.put_str(" {\n");
        for item in &items {
            self.put("    $n: $t,\n", at.member(item.place));
        }
        self.put_str("}\n\nimpl Plain for ");
        self.put_part_type(place, at);
        self.put_str(" {\n");
        self.put_layout_constants(part);
        self.put_part_word(place, at);
        self.put_layout_sizes(part);
        self.put("        put_fields!(self, bytes;~", at);
        self.put_written(&items, at);
        self.put(
            ");\n    }\n\n    fn read(^buffer: SliceWithStartOffset<'_>,^offset: usize^) -> Result<",
            at,
        );
        self.put_part_type(place, at);
        self.put_str(", ErrorKind> {\n        read_fields!(");
        self.put_part_type(place, at);
        self.put(", buffer, offset;~", at);
        self.put_taken(one, part, &items, at);
        self.put_str(")\n    }\n}\n");
        Ok(())
    }

    // The body of `put`: each part in its bytes.
    fn put_parts_written(&mut self, items: &[Item]) {
        let mut zeros = 0usize;
        for (place, item) in items.iter().enumerate() {
            let number = place.saturating_add(1);
            let is_last = number == items.len();
            self.put_split("bytes_", number, is_last && item.gap == 0, item.size);
            self.put_str("        self.part_");
            self.put_usize(number);
            self.put_str("().put(bytes_");
            self.put_usize(number);
            self.put_str(");\n");
            if item.gap > 0 {
                zeros = zeros.saturating_add(1);
                self.put_zeros(zeros, is_last, item.gap);
            }
        }
    }

    fn put_split(&mut self, name: &str, number: usize, is_last: bool, size: usize) {
        self.put_str("        let (");
        self.put_str(name);
        self.put_usize(number);
        self.put_str(if is_last { ", _" } else { ", bytes" });
        self.put_str(") = bytes.split_at_mut(");
        self.put_usize(size);
        self.put_str(");\n");
    }

    fn put_zeros(&mut self, number: usize, is_last: bool, size: usize) {
        self.put_split("zeros_", number, is_last, size);
        self.put_str("        zeros_");
        self.put_usize(number);
        self.put_str(".copy_from_slice(&[0; ");
        self.put_usize(size);
        self.put_str("]);\n");
    }

    // The body of `read`: each part from its place.
    fn put_parts_read(&mut self, parts: &[Part], at: At) {
        for (place, part) in parts.iter().enumerate() {
            self.put_str("        let part_");
            self.put_usize(place.saturating_add(1));
            self.put_str(" = &");
            self.put_part_type(place, at);
            self.put_str("::read(buffer, offset");
            if part.start > 0 {
                self.put_str(" + ");
                self.put_usize(part.start);
            }
            self.put_str(")?;\n");
        }
        self.put("        Ok($T::of_parts(", at);
        self.put_parts_given(parts.len(), at);
        self.put_str("))\n");
    }

    // The parts as arguments, as many in a line as fit.
    fn put_parts_given(&mut self, count: usize, at: At) {
        let name = self.context.names.type_name(at.index).len();
        let columns = name.saturating_add(count.saturating_mul(8));
        let in_line = count <= ARGUMENTS && columns <= CALL_COLUMNS;
        self.put_str(if in_line { "" } else { "\n            " });
        for place in 0..count {
            self.put_str(match place {
                0 => "",
                LINE => ",\n            ",
                _ => ", ",
            });
            self.put_str("part_");
            self.put_usize(place.saturating_add(1));
        }
        self.put_str(if in_line { "" } else { ",\n        " });
    }

    // `part_1`, `part_2` .., with these words before, between and behind them.
    fn put_part_names(
        &mut self,
        parts: &[Part],
        before: &str,
        between: &str,
        behind: &str,
        at: At,
    ) {
        for place in 0..parts.len() {
            self.put(if place == 0 { before } else { between }, at);
            self.put_str("part_");
            self.put_usize(place.saturating_add(1));
            self.put(behind, at);
        }
    }

    // The method that returns a part.
    fn put_part_method(&mut self, place: usize, part: Part, at: At) {
        self.put_str("    fn part_");
        self.put_usize(place.saturating_add(1));
        self.put_str("(&self) -> ");
        self.put_part_type(place, at);
        self.put_str("\n        ensures { result ≡ spec.");
        self.put_part_word(place, at);
        self.put_str(" self.now }\n    {\n        ");
        self.put_part_type(place, at);
        self.put(" {", at);
        let mut between = "^";
        for field in part.from..part.to {
            self.put(between, at);
            self.put("$n: self.$n", at.member(field));
            between = ",^";
        }
        self.put("^}\n    }\n\n", at);
    }

    // The function that returns a struct of its parts.
    fn put_whole_method(&mut self, parts: &[Part], at: At) {
        self.put_str("    fn of_parts(");
        let in_line = is_in_line(self.context.names.type_name(at.index), parts.len());
        let (first, next) = if in_line { ("", ", ") } else { ("^", ",^") };
        for place in 0..parts.len() {
            self.put(if place == 0 { first } else { next }, at);
            self.put_str("part_");
            self.put_usize(place.saturating_add(1));
            self.put_str(": &");
            self.put_part_type(place, at);
        }
        self.put(first, at);
        self.put(") -> $T\n        ensures { result ≡ spec.", at);
        self.put_of_parts(at);
        self.put_part_names(parts, "~", "~", ".now", at);
        self.put(" }\n    {\n        $T {", at);
        let mut between = "^";
        for (place, part) in parts.iter().enumerate() {
            for field in part.from..part.to {
                self.put(between, at);
                self.put("$n: part_", at.member(field));
                self.put_usize(place.saturating_add(1));
                self.put(".$n", at.member(field));
                between = ",^";
            }
        }
        self.put("^}\n    }\n", at);
    }

    fn put_part_methods(&mut self, parts: &[Part], at: At) {
        self.put("\nimpl $T {\n", at);
        for (place, part) in parts.iter().enumerate() {
            self.put_part_method(place, *part, at);
        }
        self.put_whole_method(parts, at);
        self.put_str("}\n");
    }
}

impl<'a> Printer<'a> {
    // The shape of a part or of a struct, up to its fields.
    fn put_shape_start(&mut self, part: Part) {
        self.put_usize(part.size);
        self.put_str(" ");
        self.put_usize(part.alignment);
        self.put_str("\n");
    }

    // The layout of a part or of a struct.
    fn put_struct_layout(&mut self, part: Part) {
        self.put_str("    (struct_layout ");
        self.put_usize(part.alignment.trailing_zeros() as usize);
        self.put_str(" ");
        self.put_usize(part.size.checked_div(part.alignment).unwrap_or(0));
        self.put_str(" (lit≤ tt) (lit< tt))\n");
    }

    fn put_closed(&mut self, count: usize) {
        self.put_str("no_more");
        for _ in 0..count {
            self.put_char(')');
        }
    }

    fn put_part_shape(&mut self, place: usize, part: Part, at: At) {
        self.put_str("abbrev pub ");
        self.put_part_word(place, at);
        self.put_str("_shape : Shape ");
        self.put_part_type(place, at);
        self.put_str(" ");
        self.put_shape_start(part);
        self.put_part_word(place, at);
        self.put_str("_shape = struct_shape\n    ");
        for field in part.from..part.to {
            self.put("(field (λ x. x.$n) $d~", at.member(field));
        }
        self.put_closed(part.to.saturating_sub(part.from));
        self.put_str("\n");
        self.put_struct_layout(part);
        self.put("    (λ v. record {^", at);
        for field in part.from..part.to {
            self.put(if field > part.from { ";^" } else { "" }, at);
            self.put("$f = ", at.member(field));
            self.put_projection(field.saturating_sub(part.from));
        }
        self.put("^})\n    (λ x. refl)\n\n", at);
    }

    // A part of a struct.
    fn put_part_definition(&mut self, place: usize, part: Part, at: At) {
        self.put_str("abbrev pub ");
        self.put_part_word(place, at);
        self.put(" : $T → ", at);
        self.put_part_type(place, at);
        self.put_str("\n");
        self.put_part_word(place, at);
        self.put(" x =\n    record {^", at);
        for field in part.from..part.to {
            self.put(if field > part.from { ";^" } else { "" }, at);
            self.put("$f = x.$f", at.member(field));
        }
        self.put("^}\n\n", at);
    }

    // A struct of its parts.
    fn put_whole_definition(&mut self, parts: &[Part], at: At) {
        self.put_str("abbrev pub ");
        self.put_of_parts(at);
        self.put_str(" : ");
        for place in 0..parts.len() {
            self.put_part_type(place, at);
            self.put("~→ ", at);
        }
        self.put("$T\n", at);
        self.put_of_parts(at);
        for place in 0..parts.len() {
            self.put("~p", at);
            self.put_usize(place.saturating_add(1));
        }
        self.put(" =\n    record {^", at);
        let mut between = "";
        for (place, part) in parts.iter().enumerate() {
            for field in part.from..part.to {
                self.put(between, at);
                self.put("$f = p", at.member(field));
                self.put_usize(place.saturating_add(1));
                self.put(".$f", at.member(field));
                between = ";^";
            }
        }
        self.put("^}\n\n", at);
    }

    fn put_whole_shape(&mut self, whole: Part, parts: &[Part], at: At) {
        let forced = has_forced_alignment(self.context, at);
        self.put("abbrev pub $M_shape : Shape $T ", at);
        self.put_shape_start(whole);
        self.put("$M_shape = struct_shape\n    ", at);
        self.put(if forced { "(force_align $A~" } else { "" }, at);
        for place in 0..parts.len() {
            self.put_str("(field ");
            self.put_part_word(place, at);
            self.put_str(" ");
            self.put_part_word(place, at);
            self.put("_shape~", at);
        }
        self.put_closed(parts.len());
        self.put_str(if forced { ")\n" } else { "\n" });
        self.put_struct_layout(whole);
        self.put_str("    (λ v. ");
        self.put_of_parts(at);
        for place in 0..parts.len() {
            self.put("~", at);
            self.put_projection(place);
        }
        self.put_str(")\n    (λ x. refl)\n");
    }

    // The imports of the parts' types.
    fn put_part_uses(&mut self, parts: &[Part], at: At) {
        for place in 0..parts.len() {
            self.put("use Rattle.$c.specs.declared.$M.", at);
            self.put_part_type(place, at);
            self.put_str(".{");
            self.put_part_type(place, at);
            self.put_str("}\n");
        }
    }

    /// Adds the body of `put` of a struct of many fields.
    pub(crate) fn add_parts_written(&mut self, one: &Struct) -> Result<(), AllocError> {
        let alloc = self.context.alloc;
        let parts = parts_of(alloc, one)?;
        self.put_parts_written(&items_of_parts(alloc, one, &parts)?);
        Ok(())
    }

    /// Adds the body of `read` of a struct of many fields.
    pub(crate) fn add_parts_read(&mut self, one: &Struct, at: At) -> Result<(), AllocError> {
        let parts = parts_of(self.context.alloc, one)?;
        self.put_parts_read(&parts, at);
        Ok(())
    }

    /// Adds the parts of a struct of many fields.
    pub(crate) fn add_parts(&mut self, one: &Struct, at: At) -> Result<(), AllocError> {
        let parts = parts_of(self.context.alloc, one)?;
        self.put_part_methods(&parts, at);
        for (place, part) in parts.iter().enumerate() {
            self.add_part(one, place, *part, at)?;
        }
        Ok(())
    }
}

/// Returns the imports of the types of a struct's parts.
pub(crate) fn print_part_uses<'a>(
    context: &'a Context<'a>,
    at: At,
    one: &Struct,
) -> Result<Printer<'a>, AllocError> {
    let mut printer = Printer::new(context);
    let parts = parts_of(context.alloc, one)?;
    printer.put_part_uses(&parts, at);
    Ok(printer)
}

/// Returns the layout of a struct of many fields.
pub(crate) fn print_long_layout<'a>(
    context: &'a Context<'a>,
    at: At,
    one: &Struct,
) -> Result<Printer<'a>, AllocError> {
    let mut printer = Printer::new(context);
    let parts = parts_of(context.alloc, one)?;
    for (place, part) in parts.iter().enumerate() {
        printer.put_part_shape(place, *part, at);
        printer.put_part_definition(place, *part, at);
    }
    printer.put_whole_definition(&parts, at);
    printer.put_whole_shape(whole(one), &parts, at);
    Ok(printer)
}

// Whether a line has room for a function that takes so many parts of a type.
fn is_in_line(name: &[u8], parts: usize) -> bool {
    let columns = name.len().saturating_add(16).saturating_mul(parts);
    columns.saturating_add(name.len()) <= SIGNATURE_COLUMNS
}

// Whether one of the names is this with so many `_` and a word, and perhaps more.
fn is_begun(names: &[Vec<u8>], own: &[u8], marks: usize, word: &[u8]) -> bool {
    names.iter().any(|name| is_begun_by(name, own, marks, word))
}

fn is_begun_by(name: &[u8], own: &[u8], marks: usize, word: &[u8]) -> bool {
    match name.strip_prefix(own) {
        Some(rest) => {
            let front = rest.get(..marks).unwrap_or(&[]);
            let behind = rest.get(marks..).unwrap_or(&[]);
            front.iter().all(|byte| *byte == b'_') && behind.starts_with(word)
        }
        None => false,
    }
}
