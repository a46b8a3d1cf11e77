//! Runs of steps under all cache settings, against the plain run.

use super::plain_run::plain_run;
use super::read_back::reads_back;
use super::settings::CacheSettings;
use super::unions::two_texts;
use planus::{Caches, Field, FieldValue, Finished, Step, replay};
use planus_testing::{Test, check, check_bytes, check_eq};
use std::alloc::{AllocError, Global};
use std::test::Fail;

// The same each time.
#[derive(Drop)]
struct Numbers {
    last: u32,
}

impl Numbers {
    fn draw(&mut self) -> usize {
        self.last = self.last.wrapping_mul(1664525).wrapping_add(1013904223);
        (self.last / 65536) as usize
    }
}

pub fn add(steps: &mut Vec<Step>, step: Result<Step, AllocError>) -> Result<(), AllocError> {
    steps.push(step?)?;
    Ok(())
}

pub fn add_finish(steps: &mut Vec<Step>, root: usize) -> Result<(), AllocError> {
    add(steps, Ok(Step::Finish { root, id: None }))
}

pub fn word(alloc: Global, letters: &str) -> Result<Step, AllocError> {
    Ok(Step::Text(String::from_str(alloc, letters)?))
}

pub fn text(alloc: Global, count: usize) -> Result<Step, AllocError> {
    let mut text = String::new(alloc);
    for index in 0..count {
        text.push(char::from(b'a' + (index % 26) as u8))?;
    }
    Ok(Step::Text(text))
}

pub fn list(alloc: Global, width: u8, count: usize) -> Result<Step, AllocError> {
    let mut items = Vec::new(alloc);
    for index in 0..count {
        items.push(index as u64)?;
    }
    Ok(Step::Numbers { width, items })
}

pub fn refs(alloc: Global, root: usize, count: usize) -> Result<Step, AllocError> {
    let mut steps = Vec::new(alloc);
    for _ in 0..count {
        steps.push(root)?;
    }
    Ok(Step::Refs(steps))
}

pub fn unions(alloc: Global, root: usize, count: usize) -> Result<Step, AllocError> {
    let mut items = Vec::new(alloc);
    for index in 0..count {
        items.push(((index % 255) as u8 + 1, root))?;
    }
    Ok(Step::Unions(items))
}

#[derive(Clone, Copy)]
pub struct Named {
    pub root: usize,
    pub unions: Option<usize>,
}

pub fn two_references(named: Named) -> [FieldValue; 2] {
    match named.unions {
        Some(unions) => [FieldValue::Tags(unions), FieldValue::Values(unions)],
        None => [FieldValue::Ref(named.root), FieldValue::Ref(named.root)],
    }
}

// At most six numbers and references, `apart` slots from each other, declared from the greatest
// slot on.
pub fn table(alloc: Global, named: Named, count: usize, apart: u16) -> Result<Step, AllocError> {
    let mut fields = Vec::new(alloc);
    let [first, second] = two_references(named);
    let values = [
        FieldValue::Number {
            width: 8,
            value: 1 << 63,
        },
        FieldValue::Ref(named.root),
        first,
        second,
        FieldValue::Number {
            width: 2,
            value: 513,
        },
        FieldValue::Number {
            width: 1,
            value: 255,
        },
    ];
    let mut slot: u16 = 200;
    for value in values {
        if fields.len() < count {
            fields.push(Field { slot, value })?;
        }
        slot = slot.wrapping_sub(apart);
    }
    Ok(Step::Table(fields))
}

pub fn bytes(alloc: Global, count: usize) -> Result<Step, AllocError> {
    Ok(Step::Bytes(counted(alloc, count)?))
}

fn counted(alloc: Global, count: usize) -> Result<Vec<u8>, AllocError> {
    let mut bytes = Vec::new(alloc);
    for index in 0..count {
        bytes.push((index % 256) as u8)?;
    }
    Ok(bytes)
}

// One to four alignments of 1, 2, 4, 8 or 16 bytes.
fn structure(alloc: Global, shape: usize) -> Result<Step, AllocError> {
    let alignment = 1 << (shape % 5);
    let size = shape / 5 % 4 + 1;
    let bytes = counted(alloc, size.wrapping_mul(alignment as usize))?;
    Ok(Step::Struct { alignment, bytes })
}

// Up to four values of one to four such alignments.
fn structures(alloc: Global, shape: usize) -> Result<Step, AllocError> {
    let alignment = 1 << (shape % 5);
    let size = (shape / 5 % 4 + 1).wrapping_mul(alignment as usize);
    let bytes = counted(alloc, size.wrapping_mul(shape / 20 % 5))?;
    Ok(Step::Plains {
        alignment,
        size,
        bytes,
    })
}

// A struct of such an alignment, and a reference behind it or before it.
fn struct_table(alloc: Global, root: usize, shape: usize) -> Result<Step, AllocError> {
    let alignment = 1 << (shape % 5);
    let size = shape / 5 % 4 + 1;
    let bytes = counted(alloc, size.wrapping_mul(alignment as usize))?;
    let part = FieldValue::Plain { alignment, bytes };
    let mut fields = Vec::new(alloc);
    if alignment < 4 {
        add_field(&mut fields, 7, FieldValue::Ref(root))?;
        add_field(&mut fields, 3, part)?;
    } else {
        add_field(&mut fields, 3, part)?;
        add_field(&mut fields, 7, FieldValue::Ref(root))?;
    }
    Ok(Step::Table(fields))
}

fn one_of(numbers: &[usize], draw: usize) -> Option<usize> {
    let index = draw.checked_rem(numbers.len())?;
    numbers.get(index).copied()
}

#[derive(Drop)]
struct Mixed {
    alloc: Global,
    numbers: Numbers,
    steps: Vec<Step>,
    // Other than union vectors, since the last clear.
    values: Vec<usize>,
    last_unions: Option<usize>,
}

impl Mixed {
    fn table(&mut self, root: usize) -> Result<Step, AllocError> {
        let shape = self.numbers.draw();
        let apart = (shape / 7 % 40) as u16 + 1;
        let unions = self.last_unions;
        table(self.alloc, Named { root, unions }, shape % 7, apart)
    }

    fn step(&mut self, kind: usize, root: Option<usize>) -> Result<Step, AllocError> {
        let alloc = self.alloc;
        match (kind, root) {
            (0, _) => Ok(Step::Clear),
            (1..=4, Some(root)) => Ok(Step::Finish { root, id: None }),
            (5 | 6, Some(root)) => Ok(Step::FinishSized { root, id: None }),
            (7..=9, Some(root)) => {
                let id = Some(*b"TEST");
                Ok(Step::Finish { root, id })
            }
            (10..=12, Some(root)) => {
                let id = Some(*b"TEST");
                Ok(Step::FinishSized { root, id })
            }
            (13, _) => text(alloc, self.numbers.draw() % 20000),
            (14, _) => bytes(alloc, self.numbers.draw() % 50),
            (15, _) => structures(alloc, self.numbers.draw()),
            (16, _) => structure(alloc, self.numbers.draw()),
            (17 | 18, _) => list(alloc, 2, self.numbers.draw() % 20),
            (19 | 20, _) => list(alloc, 4, self.numbers.draw() % 20),
            (21 | 22, _) => list(alloc, 8, self.numbers.draw() % 20),
            (23..=25, Some(root)) => refs(alloc, root, self.numbers.draw() % 20),
            (26 | 27, Some(root)) => self.table(root),
            (28, Some(root)) => struct_table(alloc, root, self.numbers.draw()),
            (29..=31, Some(root)) => unions(alloc, root, self.numbers.draw() % 20),
            _ => text(alloc, self.numbers.draw() % 50),
        }
    }

    fn note_last(&mut self, number: usize) -> Result<(), AllocError> {
        match self.steps.last() {
            Some(Step::Clear) => {
                self.values.clear();
                self.last_unions = None;
            }
            Some(Step::Finish { .. } | Step::FinishSized { .. }) | None => {}
            Some(Step::Unions(_)) => self.last_unions = Some(number),
            Some(_) => self.values.push(number)?,
        }
        Ok(())
    }

    fn push(&mut self) -> Result<(), AllocError> {
        let number = self.steps.len();
        let kind = self.numbers.draw() % 32;
        let root = one_of(self.values.as_slice(), self.numbers.draw());
        let step = self.step(kind, root)?;
        self.steps.push(step)?;
        self.note_last(number)
    }
}

fn mixed_steps(alloc: Global, count: usize) -> Result<Vec<Step>, AllocError> {
    let mut mixed = Mixed {
        alloc,
        numbers: Numbers { last: 1 },
        steps: Vec::new(alloc),
        values: Vec::new(alloc),
        last_unions: None,
    };
    for _ in 0..count {
        mixed.push()?;
    }
    let Mixed { steps, .. } = mixed;
    Ok(steps)
}

pub fn counts(steps: &[Step]) -> (usize, usize, usize, usize) {
    let mut counts: (usize, usize, usize, usize) = (0, 0, 0, 0);
    for step in steps {
        match step {
            Step::Clear => counts.0 = counts.0.wrapping_add(1),
            Step::Finish { id: None, .. } | Step::FinishSized { id: None, .. } => {
                counts.1 = counts.1.wrapping_add(1);
            }
            Step::Finish { .. } | Step::FinishSized { .. } => counts.2 = counts.2.wrapping_add(1),
            Step::Unions(_) => counts.3 = counts.3.wrapping_add(1),
            _ => {}
        }
    }
    counts
}

fn push_weapon(alloc: Global, steps: &mut Vec<Step>) -> Result<(), AllocError> {
    add(steps, word(alloc, "Axe"))?;
    add(steps, with_name(alloc, 0))?;
    add_finish(steps, 1)
}

pub fn weapon(alloc: Global) -> Result<Vec<Step>, AllocError> {
    let mut steps = Vec::new(alloc);
    push_weapon(alloc, &mut steps)?;
    Ok(steps)
}

pub fn add_field(fields: &mut Vec<Field>, slot: u16, value: FieldValue) -> Result<(), AllocError> {
    fields.push(Field { slot, value })?;
    Ok(())
}

fn with_name(alloc: Global, name: usize) -> Result<Step, AllocError> {
    let mut fields = Vec::new(alloc);
    let number = FieldValue::Number {
        width: 2,
        value: 24,
    };
    add_field(&mut fields, 0, FieldValue::Ref(name))?;
    add_field(&mut fields, 1, number)?;
    Ok(Step::Table(fields))
}

fn word_bytes(alloc: Global, letters: &str) -> Result<Step, AllocError> {
    Ok(Step::Bytes(Vec::from_slice(alloc, letters.as_bytes())?))
}

fn push_values(
    alloc: Global,
    steps: &mut Vec<Step>,
    first: usize,
    letters: &str,
) -> Result<(), AllocError> {
    add(steps, word(alloc, letters))?;
    add(steps, word_bytes(alloc, letters))?;
    add(steps, with_name(alloc, first))?;
    add(steps, list(alloc, 2, letters.len()))
}

fn refs_from(alloc: Global, first: usize, end: usize) -> Result<Step, AllocError> {
    let mut all = Vec::new(alloc);
    for step in first..end {
        all.push(step)?;
    }
    Ok(Step::Refs(all))
}

// Each value twice, with a different one between.
fn push_repeated(alloc: Global, steps: &mut Vec<Step>) -> Result<(), AllocError> {
    let first = steps.len();
    push_values(alloc, steps, first, "Hi")?;
    push_values(alloc, steps, first, "Ho")?;
    push_values(alloc, steps, first, "Hi")?;
    let root = steps.len();
    add(steps, refs_from(alloc, first, root))?;
    add_finish(steps, root)?;
    add(steps, Ok(Step::Clear))
}

fn push_repeated_twice(alloc: Global, steps: &mut Vec<Step>) -> Result<(), AllocError> {
    push_repeated(alloc, steps)?;
    push_repeated(alloc, steps)
}

fn repeated(alloc: Global) -> Result<Vec<Step>, AllocError> {
    let mut steps = Vec::new(alloc);
    push_repeated_twice(alloc, &mut steps)?;
    Ok(steps)
}

fn root_of(step: &Step) -> Option<(usize, bool)> {
    match step {
        Step::Finish { root, .. } => Some((*root, false)),
        Step::FinishSized { root, .. } => Some((*root, true)),
        _ => None,
    }
}

pub fn check_same(test: &Test<'_>, got: &[Finished], want: &[Finished], row: &str) {
    check_eq(test, &got.len(), &want.len(), row);
    for (got, want) in got.iter().zip(want) {
        check_bytes(test, got.bytes.as_slice(), want.bytes.as_slice(), row);
        check_eq(test, &got.places.as_slice(), &want.places.as_slice(), row);
    }
}

fn check_read_back(
    test: &Test<'_>,
    steps: &[Step],
    finished: &[Finished],
    row: &str,
) -> Result<(), Fail> {
    let mut count: usize = 0;
    for step in steps {
        if let Some((root, sized)) = root_of(step) {
            match finished.get(count) {
                Some(one) => check(
                    test,
                    reads_back(test.alloc(), steps, root, sized, one)?,
                    row,
                ),
                None => check(test, false, row),
            }
            count = count.wrapping_add(1);
        }
    }
    check_eq(test, &finished.len(), &count, row);
    Ok(())
}

fn check_replay(
    test: &Test<'_>,
    caches: Caches,
    steps: &[Step],
    want: &[Finished],
    name: &str,
) -> Result<(), Fail> {
    let row = format!(in test.alloc(); "{name}, {caches:?}")?;
    let got = replay(test.alloc(), caches, steps)?;
    check_same(test, got.as_slice(), want, row.as_str());
    check_read_back(test, steps, got.as_slice(), row.as_str())
}

fn check_setting(
    test: &Test<'_>,
    settings: CacheSettings,
    steps: &[Step],
    name: &str,
) -> Result<(), Fail> {
    let want = plain_run(test.alloc(), settings, steps)?;
    for mask in [0, 1, 2, 0xff, 1 << 63, u64::MAX] {
        check_replay(test, settings.caches(mask), steps, want.as_slice(), name)?;
    }
    Ok(())
}

fn check_settings(test: &Test<'_>, steps: &[Step], name: &str) -> Result<(), Fail> {
    for number in 0..8 {
        check_setting(test, CacheSettings::of(number), steps, name)?;
    }
    Ok(())
}

fn check_run(
    test: &Test<'_>,
    steps: Result<Vec<Step>, AllocError>,
    name: &str,
) -> Result<(), Fail> {
    let steps = steps?;
    check_settings(test, steps.as_slice(), name)
}

fn check_mixed(test: &Test<'_>) -> Result<(), Fail> {
    let mixed = mixed_steps(test.alloc(), 300)?;
    let steps = mixed.as_slice();
    check_eq(test, &steps.len(), &300, "the mixed steps");
    check_eq(test, &counts(steps), &(14, 65, 50, 22), "their kinds");
    check_settings(test, steps, "mixed steps")
}

fn check_runs(test: &Test<'_>) -> Result<(), Fail> {
    check_run(test, weapon(test.alloc()), "a weapon")?;
    check_run(test, two_texts(test.alloc()), "two unions")?;
    check_run(test, repeated(test.alloc()), "repeated values")?;
    check_mixed(test)
}

#[test]
fn runs_in_every_setting(rt: HostRuntime) -> Result<(), Fail> {
    let test = Test::new(&rt);
    let done = check_runs(&test);
    test.end_of(done)
}
