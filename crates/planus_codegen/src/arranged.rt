//! The layout of printed text: where its lines end.

use crate::printer::{ARGUMENT, BREAK, END, OWN, Printer};

const COLUMNS: usize = 100;

/// The columns of a line that goes on.
const WORD_COLUMNS: usize = 99;

/// The columns of a call's arguments on one line, and those of a struct's fields.
const ARGUMENT_COLUMNS: usize = 60;

const FIELD_COLUMNS: usize = 18;

/// The columns with its comma of each of several arguments that stand on a line of their own.
const SHORT_COLUMNS: usize = 11;

#[derive(Drop)]
struct Arrangement<'a> {
    text: Printer<'a>,
    /// The letters since the last place where the line may end.
    word: Printer<'a>,
    /// Of the last line of the text, and of the word.
    column: usize,
    width: usize,
    /// Whether a blank or a line's end is before the word.
    apart: bool,
    /// The blanks that the line begins with.
    indent: usize,
    is_ghost: bool,
}

/// The columns of a line without marks, those of a call's arguments or a struct's fields, and how
/// many of these there are.
#[derive(Clone, Copy)]
struct Measure {
    columns: usize,
    arguments: usize,
    marks: usize,
    fields: bool,
    record: bool,
    /// Whether it is a ghost item or a clause.
    is_ghost: bool,
    of_calls: OfCalls,
    /// The columns of the longest argument with its comma, and whether none has a path.
    longest: usize,
    simple: bool,
}

/// Of a line of calls for C: whether it is an exported function, or the call in it.
#[derive(Clone, Copy)]
enum OfCalls {
    Neither,
    Exported,
    Inner,
}

fn of_calls(line: &str) -> OfCalls {
    if line.starts_with("pub extern") {
        OfCalls::Exported
    } else if line.starts_with("    planus_foreign::") {
        OfCalls::Inner
    } else {
        OfCalls::Neither
    }
}

fn is_ghost_line(line: &str) -> bool {
    line.starts_with("ghost") || line.starts_with("ensures") || line.starts_with("requires")
}

fn measure_of(line: &str) -> Measure {
    let mut measure = Measure {
        columns: 0,
        arguments: 0,
        marks: 0,
        fields: false,
        record: line.contains("record {"),
        is_ghost: is_ghost_line(line.trim_start()),
        of_calls: of_calls(line),
        longest: 0,
        simple: true,
    };
    let mut start = 0usize;
    let mut mark = 0usize;
    let mut before = ' ';
    for letter in line.chars() {
        if letter == ARGUMENT {
            if measure.marks == 0 {
                start = measure.columns;
                measure.fields = before == '{';
            }
            let argument = measure.columns.saturating_sub(mark);
            measure.longest = measure
                .longest
                .max(if measure.marks > 0 { argument } else { 0 });
            mark = measure.columns;
            measure.arguments = measure.columns.saturating_sub(start);
            measure.marks = measure.marks.saturating_add(1);
        }
        measure.simple = measure.simple && (measure.marks == 0 || letter != ':');
        if letter >= ' ' || letter == BREAK {
            measure.columns = measure.columns.saturating_add(1);
        }
        before = letter;
    }
    let blanks = measure.marks.saturating_sub(2);
    measure.columns = measure.columns.saturating_add(blanks);
    measure.arguments = measure.arguments.saturating_add(blanks);
    measure
}

/// Returns the blanks of a continued line: 4 more, but in lists of names and in definitions as
/// many.
fn going_on(indent: usize, is_ghost: bool) -> usize {
    if indent == 4 && !is_ghost {
        4
    } else {
        indent.saturating_add(4)
    }
}

impl Measure {
    /// Whether each argument or field is on a line of its own.
    fn is_broken(self) -> bool {
        let exported = matches!(self.of_calls, OfCalls::Exported);
        let most = match (self.record || exported, self.fields) {
            (true, _) => COLUMNS,
            (false, true) => FIELD_COLUMNS,
            (false, false) => ARGUMENT_COLUMNS,
        };
        self.marks > 0 && (self.columns > COLUMNS || self.arguments > most)
    }

    /// Whether the arguments are together on a line of their own.
    fn is_together(self) -> bool {
        let short = self.arguments <= ARGUMENT_COLUMNS && self.longest <= SHORT_COLUMNS;
        matches!(self.of_calls, OfCalls::Inner) && short && self.simple
    }
}

impl<'a> Arrangement<'a> {
    fn put_line_end(&mut self, indent: usize) {
        self.text.put_char('\n');
        for _ in 0..indent {
            self.text.put_char(' ');
        }
        self.column = indent;
    }

    fn put_word(&mut self) {
        let wanted = self.width.saturating_add(1);
        if self.apart && self.column.saturating_add(wanted) > WORD_COLUMNS {
            self.put_line_end(going_on(self.indent, self.is_ghost));
        } else if self.apart {
            self.text.put_char(' ');
            self.column = self.column.saturating_add(1);
        }
        self.text.join(&self.word);
        self.column = self.column.saturating_add(self.width);
        self.word.clear();
        self.width = 0;
    }

    fn put_letter(&mut self, letter: char) {
        if letter == ' ' && !self.apart && self.column == 0 && self.width == self.indent {
            self.indent = self.indent.saturating_add(1);
        }
        self.word.put_char(letter);
        self.width = self.width.saturating_add(1);
    }

    // The end of an argument that is on a line of its own.
    fn put_broken(&mut self, last: bool, record: bool) {
        if last {
            self.put_letter(if record { ';' } else { ',' });
        }
        self.put_word();
        let more = match (last, record) {
            (true, _) => 0,
            (false, true) => 2,
            (false, false) => 4,
        };
        self.put_line_end(self.indent.saturating_add(more));
    }

    fn put_mark(&mut self, mark: usize, measure: Measure) {
        let last = mark.saturating_add(1) == measure.marks;
        let between = mark > 0 && !last;
        if measure.is_broken() && !(between && measure.is_together()) {
            self.put_broken(last, measure.record);
        } else if measure.fields || between {
            self.put_letter(' ');
        }
    }

    fn put_line(&mut self, line: &str) {
        let measure = measure_of(line);
        let mut mark = 0usize;
        self.indent = 0;
        self.is_ghost = measure.is_ghost;
        self.column = 0;
        self.apart = false;
        for letter in line.chars() {
            match letter {
                BREAK => {
                    self.put_word();
                    self.apart = true;
                }
                ARGUMENT => {
                    self.put_mark(mark, measure);
                    mark = mark.saturating_add(1);
                }
                OWN => {}
                END => {
                    self.put_word();
                    self.apart = false;
                    self.put_line_end(self.indent.saturating_add(4));
                }
                letter => self.put_letter(letter),
            }
        }
        self.put_word();
        self.text.put_char('\n');
    }
}

/// Returns printed text with its lines broken, and without marks.
pub(crate) fn arranged<'a>(printed: &Printer<'a>) -> Printer<'a> {
    let mut out = Arrangement {
        text: Printer::new(printed.context),
        word: Printer::new(printed.context),
        column: 0,
        width: 0,
        apart: false,
        indent: 0,
        is_ghost: false,
    };
    for line in printed.as_str().split_terminator('\n') {
        out.put_line(line);
    }
    out.text.fail_as(printed);
    out.text
}
