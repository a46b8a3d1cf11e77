//! Fields of tables.
ghost use Rattle.std.specs.Prelude.{◌≡◌};
ghost use Rattle.std.specs.Option.{option_copied};
ghost use Rattle.planus_script.specs.Words.{words_behind};
ghost use Rattle.planus_script.specs.Fields.{kind_of, slot_of, value_of, field_of, fields_of};
ghost use Rattle.planus_script.specs.Script.{list_step, table_step};
ghost use Rattle.planus_script.specs.Asking.{AsksForItems};
ghost use Rattle.planus_script.specs.inner.Steps.{AnswersLine};

use crate::script::{FromWord, LineError, ReadFault, cut, items, number};
use planus::{Field, FieldValue, Step};
use std::alloc::Global;

#[derive(Clone, Copy)]
enum FieldKind {
    /// A number of `width` bytes.
    Number { width: u8 },
    /// A reference to the value of a step.
    Ref,
    /// The tags of a step's union vector.
    Tags,
    /// The references of a step's union vector.
    Values,
}

fn kind(word: &str) -> Option<FieldKind>
    ensures { result ≡ kind_of word.now }
{
    if word == "u8" {
        Some(FieldKind::Number { width: 1 })
    } else if word == "u16" {
        Some(FieldKind::Number { width: 2 })
    } else if word == "u32" {
        Some(FieldKind::Number { width: 4 })
    } else if word == "u64" {
        Some(FieldKind::Number { width: 8 })
    } else if word == "ref" {
        Some(FieldKind::Ref)
    } else if word == "tags" {
        Some(FieldKind::Tags)
    } else if word == "values" {
        Some(FieldKind::Values)
    } else {
        None
    }
}

/// Above 65535 it is 65535, which is too big as well.
fn slot(number: u64) -> u16
    ensures { result ≡ slot_of number }
{
    u16::try_from(number).unwrap_or(u16::MAX)
}

fn value(kind: FieldKind, number: u64) -> FieldValue
    ensures { result ≡ value_of kind number }
{
    match kind {
        FieldKind::Number { width } => FieldValue::Number {
            width,
            value: number,
        },
        FieldKind::Ref => FieldValue::Ref(number as usize),
        FieldKind::Tags => FieldValue::Tags(number as usize),
        FieldKind::Values => FieldValue::Values(number as usize),
    }
}

impl FromWord for Field {
    ghost said = { field_of };

    /// A word such as `3=u16:24` or `0=ref:1`.
    fn from_word(word: &str) -> Result<Field, ReadFault> {
        let Some((slot_word, rest)) = cut(word, '=') else {
            return Err(ReadFault::BadField);
        };
        let Some((kind_word, number_word)) = cut(rest, ':') else {
            return Err(ReadFault::BadField);
        };
        let Some(kind) = kind(kind_word) else {
            return Err(ReadFault::BadField);
        };
        let slot = slot(number(slot_word)?);
        let value = value(kind, number(number_word)?);
        Ok(Field { slot, value })
    }
}

pub(crate) fn table(alloc: Global, words: Option<&str>) -> Result<Step, LineError>
    ensures { let words = words_behind (option_copied words.entry) in
        AnswersLine result (list_step table_step (fields_of words))
        (AsksForItems field_of words) }
{
    Ok(Step::Table(items::<Field>(alloc, words)?))
}
