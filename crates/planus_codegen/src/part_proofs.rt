//! The proofs of how structs of many fields are written: each field is named in them.

use crate::at::At;
use crate::context::Context;
use crate::parts::{Item, Part, items_of, items_of_parts, parts_of, whole};
use crate::printer::Printer;
use planus_schema::Struct;
use std::alloc::AllocError;

const OF_PARTS: &str = "use Rattle.std.proofs.Common.{arith, ap, subst, ◌∙◌}\n";

const OF_NUMBERS: &str = "use Rattle.std.proofs.Common.{arith}\n";

const OF_ARRAYS: &str = "use Rattle.std.proofs.Common.{arith, rules, lit<}\n";

const USES: &str = "\
use Rattle.std.proofs.lemmas.List.{nil_from_length}
use Rattle.planus.specs.Printed.{joined, ended";

const ANSWER: &str = "
pub returns-clause-encoded : goal.returns-clause-encoded
returns-clause-encoded c =
";

const NONE: &str = "\
.result.1.now ≡ [] = nil_from_length _ (omega (
      arith,
      c.requires,
";

const FITS: &str = "
pub returns-clause-fits : goal.returns-clause-fits
returns-clause-fits c =
    ";

/// What is written one after another: a struct's fields, the fields of one of its parts, or its parts.
#[derive(Clone, Copy)]
pub(crate) enum Written {
    Fields,
    FieldsOf(usize),
    Parts,
}

// Fields are written by a macro.
fn origin(written: Written) -> &'static str {
    match written {
        Written::Parts => "c.",
        _ => "c.put_fields-",
    }
}

// How many of the first items have padding behind them.
fn gaps_in(items: &[Item]) -> usize {
    items.iter().filter(|item| item.gap > 0).count()
}

fn arrays_in(items: &[Item]) -> usize {
    items.iter().filter(|item| item.is_array).count()
}

pub(crate) fn before(items: &[Item], place: usize) -> &[Item] {
    items.get(..place).unwrap_or(items)
}

impl<'a> Printer<'a> {
    // A call by its name and number.
    fn put_call(&mut self, written: Written, name: &str, number: usize) {
        self.put_str(origin(written));
        self.put_str(name);
        self.put_nth(number);
    }

    // The call that splits the bytes at an item, or at the padding behind it.
    fn put_split_at(&mut self, written: Written, items: &[Item], place: usize, behind: bool) {
        let number = place.saturating_add(1);
        let gaps = gaps_in(before(items, place));
        if !matches!(written, Written::Parts) {
            let splits = number.saturating_add(gaps).saturating_add(behind as usize);
            return self.put_call(written, "split_at_mut", splits);
        }
        self.put_str("c.split_at_mut-");
        self.put_str(if behind { "zeros_" } else { "bytes_" });
        self.put_usize(if behind {
            gaps.saturating_add(1)
        } else {
            number
        });
    }

    // The lengths behind each split, a line each.
    fn put_lengths(&mut self, written: Written, items: &[Item]) {
        for (place, item) in items.iter().enumerate() {
            self.put_length(written, items, place, false);
            if item.gap > 0 {
                self.put_length(written, items, place, true);
            }
        }
    }

    fn put_length(&mut self, written: Written, items: &[Item], place: usize, behind: bool) {
        self.put_str("      ");
        self.put_split_at(written, items, place, behind);
        self.put_str(".ensures.back_len,\n");
    }

    fn put_array_fact(&mut self, written: Written, items: &[Item], place: usize, at: At) {
        let number = arrays_in(before(items, place)).saturating_add(1);
        self.put_str("    let items_");
        self.put_usize(number);
        self.put_str(" : ");
        self.put_call(written, "put_array", number);
        self.put(
            ".new.bytes ≡~$d.encoded c.args.self.now.$f =~search rules in\n",
            at,
        );
    }

    fn put_gap_fact(&mut self, written: Written, items: &[Item], place: usize, item: Item, at: At) {
        let number = gaps_in(before(items, place)).saturating_add(1);
        self.put_str("    let zeros_");
        self.put_usize(number);
        self.put_str(" : ");
        self.put_call(written, "copy_from_slice", number);
        self.put(".new.self ≡~", at);
        for _ in 0..item.gap {
            self.put_str("0 ∷ ");
        }
        self.put("[] =~", at);
        self.put_call(written, "copy_from_slice", number);
        self.put_str(".ensures.after in\n");
    }

    fn put_facts(&mut self, written: Written, items: &[Item], at: At) {
        for (place, item) in items.iter().enumerate() {
            if item.is_array {
                self.put_array_fact(written, items, place, at.member(item.place));
            }
            if item.gap > 0 {
                self.put_gap_fact(written, items, place, *item, at);
            }
        }
        let last = items.len().saturating_sub(1);
        let padded = gaps_in(items) > gaps_in(before(items, last));
        self.put_str("    let none : ");
        self.put_split_at(written, items, last, padded);
        self.put_str(NONE);
        self.put_lengths(written, items);
        self.put_str("    )) in\n");
    }

    // What is known of the bytes of an item.
    fn put_item_fact(&mut self, written: Written, items: &[Item], place: usize, at: At) {
        let number = place.saturating_add(1);
        let arrays = arrays_in(before(items, place));
        if let Some(item) = items.get(place) {
            if item.is_array {
                self.put_str("items_");
                return self.put_usize(arrays.saturating_add(1));
            }
        }
        if !matches!(written, Written::Parts) {
            self.put_call(written, "put", number.saturating_sub(arrays));
            return self.put_str(".ensures.encoded");
        }
        self.put_str("(");
        self.put_call(written, "put", number);
        self.put_str(".ensures.encoded ∙ ap spec.");
        self.put_part_word(place, at);
        self.put_str("_shape.encoded c.part_");
        self.put_usize(number);
        self.put_str(".ensures)");
    }

    // The padding behind an item, and what follows.
    fn put_gap_behind(&mut self, items: &[Item], place: usize, at: At) {
        let number = gaps_in(before(items, place)).saturating_add(1);
        let is_last = place.saturating_add(1) == items.len();
        self.put_str(if is_last {
            "(ended (nothing_more zeros_"
        } else {
            "(joined zeros_"
        });
        self.put_usize(number);
        self.put(if is_last { " none" } else { "~" }, at);
    }

    fn put_joined(&mut self, written: Written, items: &[Item], at: At) {
        self.put_str("    ");
        let mut open = 0usize;
        for (place, item) in items.iter().enumerate() {
            self.put_str("(joined ");
            self.put_item_fact(written, items, place, at);
            self.put("~", at);
            open = open.saturating_add(1);
            if item.gap > 0 {
                let is_last = place.saturating_add(1) == items.len();
                self.put_gap_behind(items, place, at);
                open = open.saturating_add(if is_last { 2 } else { 1 });
            }
        }
        if gaps_in(items) == gaps_in(before(items, items.len().saturating_sub(1))) {
            self.put_str("(ended none)");
        }
        for _ in 0..open {
            self.put_char(')');
        }
        self.put_str(".is\n");
    }

    fn put_answer_uses(&mut self, written: Written, items: &[Item], at: At) {
        self.put_str(match written {
            Written::Parts => OF_PARTS,
            _ if arrays_in(items) > 0 => OF_ARRAYS,
            _ => OF_NUMBERS,
        });
        self.put(USES, at);
        let last = items.len().saturating_sub(1);
        let padded = gaps_in(items) > gaps_in(before(items, last));
        self.put_str(if padded { ", nothing_more" } else { "" });
        let in_parts = matches!(written, Written::Parts);
        self.put_str(if in_parts { ", both}\n" } else { "}\n" });
        if matches!(written, Written::Parts) {
            self.put("use Rattle.$c.specs.$T as spec\n", at);
        }
        self.put("use Rattle.$c.proofs.$M.", at);
        match written {
            Written::FieldsOf(place) => self.put_part_type(place, at),
            _ => self.put("$T", at),
        }
        self.put_str("Plain.put.Goals as goal\n");
        self.put_str(ANSWER);
    }

    fn put_answer(&mut self, written: Written, items: &[Item], at: At) {
        self.put_answer_uses(written, items, at);
        self.put_facts(written, items, at);
        self.put_joined(written, items, at);
    }

    // Each part fits.
    fn put_fits(&mut self, count: usize, at: At) {
        self.put_str(FITS);
        for place in 0..count {
            let number = place.saturating_add(1);
            self.put_str("(both (subst (λ x. spec.");
            self.put_part_word(place, at);
            self.put_str("_shape.fits x) c.part_");
            self.put_usize(number);
            self.put_str(".ensures c.put");
            self.put_nth(number);
            self.put(".ensures.fits)~", at);
        }
        self.put_str("tt");
        for _ in 0..count {
            self.put_char(')');
        }
        self.put_char('\n');
    }
}

/// Returns the proof of how the fields of a struct, or those of a part, are written.
pub(crate) fn print_fields_answer<'a>(
    context: &'a Context<'a>,
    at: At,
    one: &Struct,
    written: Written,
    part: Part,
) -> Result<Printer<'a>, AllocError> {
    let mut printer = Printer::new(context);
    let items = items_of(context.alloc, one, part)?;
    printer.put_answer(written, &items, at);
    Ok(printer)
}

/// Returns the proof of how the fields of a struct are written.
pub(crate) fn print_answer<'a>(
    context: &'a Context<'a>,
    at: At,
    one: &Struct,
) -> Result<Printer<'a>, AllocError> {
    print_fields_answer(context, at, one, Written::Fields, whole(one))
}

/// Returns the proof of how the parts of a struct are written.
pub(crate) fn print_parts_answer<'a>(
    context: &'a Context<'a>,
    at: At,
    one: &Struct,
) -> Result<Printer<'a>, AllocError> {
    let mut printer = Printer::new(context);
    let parts = parts_of(context.alloc, one)?;
    let items = items_of_parts(context.alloc, one, &parts)?;
    printer.put_answer(Written::Parts, &items, at);
    printer.put_fits(parts.len(), at);
    Ok(printer)
}
