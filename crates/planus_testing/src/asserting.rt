ghost use Rattle.std.specs.Prelude.{◌≡◌, IfOk};

use std::alloc::Global;
use std::cell::Cell;
use std::fmt::{Debug, Display};
use std::test::Fail;

// No more wrong rows are shown.
const SHOWN: u32 = 20;

/// What a test compares: each row where what was got isn't what was wanted is shown, and fails the
/// test at its [`end`](Test::end). None of this takes memory.
pub struct Test<'a> {
    rt: &'a HostRuntime,
    wrong: Cell<u32>,
}

impl<'a> Test<'a> {
    pub fn new(rt: &'a HostRuntime) -> Test<'a> {
        let wrong = Cell::new(0);
        Test { rt, wrong }
    }

    pub fn alloc(&self) -> Global {
        self.rt.alloc()
    }

    /// Returns how many rows were wrong, for tests of what counts them.
    pub fn wrong_rows(self) -> u32 {
        let Test { rt: _, wrong } = self;
        wrong.get()
    }

    /// Fails where a row was wrong.
    pub fn end(self) -> Result<(), Fail> {
        verdict(self.wrong_rows())
    }

    /// As [`end`](Test::end), and fails where these calls did.
    pub fn end_of(self, calls: Result<(), Fail>) -> Result<(), Fail> {
        match calls {
            Ok(()) => self.end(),
            Err(why) => {
                let Test { rt: _, wrong: _ } = self;
                Err(why)
            }
        }
    }

    pub(crate) fn say(&self, words: &str) {
        let _ = println!(self.rt; "{words}");
    }

    fn is_shown(&self) -> bool {
        let wrong = self.wrong.get();
        self.wrong.set(wrong.saturating_add(1));
        wrong < SHOWN
    }
}

fn verdict(wrong: u32) -> Result<(), Fail>
    ensures { IfOk result (λ _. wrong ≡ 0) }
{
    match wrong {
        0 => Ok(()),
        wrong => Err(Fail::new(format_args!("wrong rows: {wrong}"))),
    }
}

/// Shows the row where it doesn't hold.
pub fn check(test: &Test<'_>, holds: bool, row: &str) {
    if !holds && test.is_shown() {
        let _ = eprintln!(test.rt; "{row}");
    }
}

/// Shows the row, what was got and what was wanted where these differ.
pub fn check_eq<T: PartialEq + Debug>(test: &Test<'_>, got: &T, want: &T, row: &str) {
    if *got != *want && test.is_shown() {
        let _ = eprintln!(test.rt; "{row}\n   got: {got:?}\nwanted: {want:?}");
    }
}

// The first place at which they differ.
fn difference(got: &[u8], want: &[u8]) -> usize {
    let mut same: usize = 0;
    for (got, want) in got.iter().zip(want) {
        if got != want {
            return same;
        }
        same = same.saturating_add(1);
    }
    same
}

// Some bytes from there on.
fn some_from(bytes: &[u8], start: usize) -> &[u8] {
    let rest = bytes.get(start..).unwrap_or(&[]);
    rest.get(..64).unwrap_or(rest)
}

/// Shows the row, and some of the bytes from the first difference on, where these differ.
pub fn check_bytes(test: &Test<'_>, got: &[u8], want: &[u8], row: &str) {
    if got != want && test.is_shown() {
        let (at, got_len, want_len) = (difference(got, want), got.len(), want.len());
        let got = some_from(got, at).escape_ascii();
        let want = some_from(want, at).escape_ascii();
        let _ = eprintln!(test.rt;
            "{row}: {got_len} bytes, wanted {want_len}, different from byte {at} on\n   \
             got: {got}\nwanted: {want}"
        );
    }
}

/// Checks that the value is displayed as these words.
pub fn check_prints<T: Display>(test: &Test<'_>, value: &T, want: &str) {
    match format!(in test.alloc(); "{value}") {
        Ok(text) => check_eq(test, &text.as_str(), &want, want),
        Err(_) => check(test, false, want),
    }
}

/// Checks that the value's `Debug` shows these words.
pub fn check_shows<T: Debug>(test: &Test<'_>, value: &T, want: &str) {
    match format!(in test.alloc(); "{value:?}") {
        Ok(text) => check_eq(test, &text.as_str(), &want, want),
        Err(_) => check(test, false, want),
    }
}

/// Checks that it failed, and that the error is displayed as these words.
pub fn check_fails<T: Drop, E: Display + Drop>(test: &Test<'_>, answer: Result<T, E>, want: &str) {
    match answer {
        Ok(_) => check_eq(test, &"no error", &want, want),
        Err(error) => check_prints(test, &error, want),
    }
}
