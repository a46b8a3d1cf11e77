//! The proofs of how structs of many enums, and those in parts, are read: the error of a field or part,
//! where those before it break no clause.

use crate::at::At;
use crate::context::Context;
use crate::part_proofs::{Written, before};
use crate::parts::{Item, Part, items_of, items_of_parts, parts_of};
use crate::printer::Printer;
use planus_schema::Struct;
use std::alloc::AllocError;

/// The most clauses that a search goes through by itself.
const FEW_CLAUSES: usize = 4;

const OF_BROKEN: &str = "\
use Rattle.std.specs.Prelude.{◌+◌, ◌++◌}
use Rattle.planus.specs.Printed.{both, Clause, own_reading, in_part, behind_part, passed_on}
";

const OF_ARRAYS: &str = "use Rattle.std.proofs.Common.{lit<}\n";

const OF_TOTAL: &str = "use Rattle.planus.specs.Printed.{both}\n";

const OF_PARTS: &str = "use Rattle.std.proofs.Common.{sym, subst}\n";

const PARTS_ANSWER: &str = "
pub returns-clause-answer : goal.returns-clause-answer
returns-clause-answer c =
    subst (λ x. spec.$M_shape.There (slice_bytes c.args.buffer) c.args.offset x)~\
(sym c.of_parts.ensures)
    ";

const PARTS_FIT: &str = "

pub returns-clause-fits : goal.returns-clause-fits
returns-clause-fits c = subst (λ x. spec.$M_shape.fits x)~(sym c.of_parts.ensures)
    ";

const BYTES: &str = "(slice_bytes c.args.buffer)";

/// How many numbers of enums are tested where a field is read, those of an array once.
fn clauses_at(context: &Context<'_>, one: &Struct, place: usize) -> usize {
    match one.fields.get(place) {
        Some(field) => context.clauses_of(field.base),
        None => 0,
    }
}

fn clauses_in(context: &Context<'_>, one: &Struct, part: Part) -> usize {
    let mut count = 0usize;
    for place in part.from..part.to {
        count = count.saturating_add(clauses_at(context, one, place));
    }
    count
}

/// Whether the proof of how fields are read names those before an error.
pub(crate) fn has_many_clauses(context: &Context<'_>, one: &Struct, part: Part) -> bool {
    clauses_in(context, one, part) > FEW_CLAUSES
}

// Where an item starts among all of them, in bytes.
fn start_of(items: &[Item], place: usize) -> usize {
    let mut start = 0usize;
    for item in before(items, place) {
        start = start.saturating_add(item.size).saturating_add(item.gap);
    }
    start
}

impl<'a> Printer<'a> {
    fn put_own_shape(&mut self, written: Written, at: At) {
        self.put_str("spec.");
        match written {
            Written::FieldsOf(place) => self.put_part_word(place, at),
            _ => self.put("$M", at),
        }
        self.put_str("_shape");
    }

    fn put_item_shape(&mut self, written: Written, item: Item, at: At) {
        if matches!(written, Written::Parts) {
            self.put_str("spec.");
            self.put_part_word(item.place, at);
            return self.put_str("_shape");
        }
        self.put("$d", at.member(item.place));
    }

    fn put_start(&mut self, from: &str, start: usize) {
        self.put_str(if start > 0 { "(" } else { "" });
        self.put_str(from);
        if start > 0 {
            self.put_str(" + ");
            self.put_usize(start);
            self.put_str(")");
        }
    }

    // The clauses behind each item but the last, those of the later ones first.
    fn put_behind_items(&mut self, written: Written, items: &[Item], at: At) {
        self.put_str("\n-- the clauses behind one\n");
        for (place, item) in items.iter().enumerate().rev() {
            if place > 0 {
                let is_last = place.saturating_add(1) == items.len();
                self.put_str(if is_last { "" } else { "\n" });
                self.put_behind_item(written, items, place, *item, at);
            }
        }
    }

    fn put_behind_item(
        &mut self,
        written: Written,
        items: &[Item],
        place: usize,
        item: Item,
        at: At,
    ) {
        self.put_str("abbrev behind_");
        self.put_usize(place);
        self.put_str(" : List ℕ → ℕ → List Clause\nbehind_");
        self.put_usize(place);
        self.put(" S f =~", at);
        self.put_item_shape(written, item, at);
        self.put(".clauses S~", at);
        self.put_start("f", start_of(items, place));
        self.put("~++ ", at);
        if place.saturating_add(1) == items.len() {
            return self.put_str("[]\n");
        }
        self.put_str("behind_");
        self.put_usize(place.saturating_add(1));
        self.put_str(" S f\n");
    }

    // An item by its shape, its bytes and what is behind it.
    fn put_at_item(&mut self, written: Written, items: &[Item], place: usize, item: Item, at: At) {
        let number = place.saturating_add(1);
        self.put("~", at);
        self.put_item_shape(written, item, at);
        self.put("~", at);
        self.put_str(BYTES);
        self.put("~", at);
        self.put_start("c.args.offset", start_of(items, place));
        if number == items.len() {
            return self.put("~[]~", at);
        }
        self.put("~(behind_", at);
        self.put_usize(number);
        self.put("~", at);
        self.put_str(BYTES);
        self.put("~c.args.offset)~", at);
    }

    // What is known of an item that was read, or of its error.
    fn put_read_fact(&mut self, written: Written, item: Item, number: usize, is_error: bool) {
        if matches!(written, Written::Parts) {
            self.put_str(if is_error {
                "c.in_err-part_"
            } else {
                "c.in_ok-part_"
            });
            self.put_usize(number);
            return self.put_str(".ensures.answer");
        }
        self.put_str(if is_error {
            "c.in_Break-read_fields-read_fields"
        } else {
            "c.in_Continue-read_fields-read_fields"
        });
        self.put_nth(number);
        self.put_str(match (item.is_array, is_error) {
            (true, true) => ".ensures.error",
            (true, false) => ".ensures.array",
            _ => ".ensures.answer",
        });
    }

    fn put_goal(&mut self, written: Written, number: usize) {
        if matches!(written, Written::Parts) {
            self.put_str("returns-in_err-part_");
            self.put_usize(number);
        } else {
            self.put_str("returns");
            self.put_nth(number);
        }
        self.put_str("-clause-answer");
    }

    fn put_result(&mut self, written: Written, number: usize) {
        match (written, number) {
            (Written::Parts, 1) => self.put_str("c.from_residual"),
            (Written::Parts, _) => {
                self.put_str("c.from_residual-in_err-part_");
                self.put_usize(number);
            }
            _ => {
                self.put_str("c.read_fields-from_residual");
                self.put_nth(number);
            }
        }
        self.put_str(".ensures.1");
    }

    fn put_broken_start(&mut self, written: Written, number: usize, at: At) {
        self.put_str("\npub ");
        self.put_goal(written, number);
        self.put_str(" : goal.");
        self.put_goal(written, number);
        self.put_str("\n");
        self.put_goal(written, number);
        self.put(" c =\n    passed_on~(own_reading~", at);
        self.put_own_shape(written, at);
        self.put("~", at);
        self.put_str(BYTES);
        self.put("~c.args.offset)~_~", at);
        self.put_result(written, number);
    }

    // The error of an item, where those before it hold.
    fn put_broken(&mut self, written: Written, items: &[Item], place: usize, at: At) {
        let number = place.saturating_add(1);
        self.put_broken_start(written, number, at);
        for (at_place, item) in items.iter().enumerate() {
            if at_place <= place {
                let is_error = at_place == place;
                self.put("~", at);
                self.put_str(if is_error { "(in_part" } else { "(behind_part" });
                self.put_at_item(written, items, at_place, *item, at);
                self.put_read_fact(written, *item, at_place.saturating_add(1), is_error);
            }
        }
        for _ in 0..number {
            self.put_char(')');
        }
        self.put_char('\n');
    }

    // What is known of each part that was read.
    fn put_known_parts(&mut self, count: usize, clause: &str, at: At) {
        for place in 0..count {
            self.put_str("(both c.in_ok-part_");
            self.put_usize(place.saturating_add(1));
            self.put_str(".ensures.");
            self.put_str(clause);
            self.put("~", at);
        }
        self.put_str("tt");
        for _ in 0..count {
            self.put_char(')');
        }
    }

    // What is known of each field that was read, of an array by a clause of its own.
    fn put_known_fields(&mut self, items: &[Item], clause: &str, of_array: &str, at: At) {
        let number = items.len().saturating_add(1);
        self.put_str("\npub returns");
        self.put_nth(number);
        self.put_str("-clause-");
        self.put_str(clause);
        self.put_str(" : goal.returns");
        self.put_nth(number);
        self.put_str("-clause-");
        self.put_str(clause);
        self.put_str("\nreturns");
        self.put_nth(number);
        self.put_str("-clause-");
        self.put_str(clause);
        self.put_str(" c =\n    ");
        for (place, item) in items.iter().enumerate() {
            self.put_str("(both c.in_Continue-read_fields-read_fields");
            self.put_nth(place.saturating_add(1));
            self.put_str(".ensures.");
            self.put_str(if item.is_array { of_array } else { clause });
            self.put("~", at);
        }
        self.put_str("tt");
        for _ in 0..items.len() {
            self.put_char(')');
        }
        self.put_char('\n');
    }

    fn put_read_uses(&mut self, written: Written, at: At) {
        self.put(
            "use Rattle.$c.specs.$T as spec\nuse Rattle.$c.proofs.$M.",
            at,
        );
        match written {
            Written::FieldsOf(place) => self.put_part_type(place, at),
            _ => self.put("$T", at),
        }
        self.put_str("Plain.read.Goals as goal\n");
    }
}

/// Returns the proof of how the fields of a struct, or those of a part, are read.
pub(crate) fn print_fields_read<'a>(
    context: &'a Context<'a>,
    at: At,
    one: &Struct,
    written: Written,
    part: Part,
) -> Result<Printer<'a>, AllocError> {
    let mut printer = Printer::new(context);
    let items = items_of(context.alloc, one, part)?;
    printer.put_str(OF_BROKEN);
    let has_array = items.iter().any(|item| item.is_array);
    printer.put_str(if has_array { OF_ARRAYS } else { "" });
    printer.put_read_uses(written, at);
    printer.put_behind_items(written, &items, at);
    let mut clauses = 0usize;
    for (place, item) in items.iter().enumerate() {
        clauses = clauses.saturating_add(clauses_at(context, one, item.place));
        if clauses > 0 {
            printer.put_broken(written, &items, place, at);
        }
    }
    printer.put_known_fields(&items, "answer", "array", at);
    printer.put_known_fields(&items, "fits", "fits", at);
    Ok(printer)
}

/// Returns the proof of how the parts of a struct are read.
pub(crate) fn print_parts_read<'a>(
    context: &'a Context<'a>,
    at: At,
    one: &Struct,
) -> Result<Printer<'a>, AllocError> {
    let mut printer = Printer::new(context);
    let parts = parts_of(context.alloc, one)?;
    let items = items_of_parts(context.alloc, one, &parts)?;
    let total = context.is_total_declaration(at.index);
    printer.put_str(if total { OF_TOTAL } else { OF_BROKEN });
    printer.put_str(OF_PARTS);
    printer.put_read_uses(Written::Parts, at);
    printer.put(PARTS_ANSWER, at);
    printer.put_known_parts(parts.len(), "answer", at);
    printer.put(PARTS_FIT, at);
    printer.put_known_parts(parts.len(), "fits", at);
    printer.put_str("\n");
    if !total {
        printer.put_behind_items(Written::Parts, &items, at);
        for place in 0..items.len() {
            printer.put_broken(Written::Parts, &items, place, at);
        }
    }
    Ok(printer)
}
