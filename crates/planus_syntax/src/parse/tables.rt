//! Tables and structs.

ghost use Rattle.planus_syntax.specs.Tokens.{pieces_of};
ghost use Rattle.planus_syntax.specs.Values.{FieldV, field_of, record_of};
ghost use Rattle.planus_syntax.specs.Reading as spec;
ghost use Rattle.planus_syntax.specs.Counting.{FieldCounted, GivesCounted, RecordCounted};
ghost use Rattle.planus_syntax.specs.Values.{field_before};

use crate::parse::attributes::{attributes_at, closing_at, docs_at};
use crate::parse::lists::{Items, list_of};
use crate::parse::literals::literal_after;
use crate::parse::paths::kind_at;
use crate::parse::tokens::{inside, mark_at, word_at};
use crate::read_error::ReadError;
use crate::token::Token;
use crate::value::{Field, Record};
use std::alloc::Global;

/// The fields of a table or a struct.
pub(crate) struct Fields;

impl Items for Fields {
    ghost Value = { FieldV };

    ghost goes_on = { spec.inside };

    ghost item_at = { spec.field_at };

    ghost value_of = { field_of };

    ghost before = { field_before };

    ghost Counted = { FieldCounted };

    type Item = Field;

    fn goes_on(tokens: &[Token]) -> bool {
        inside(tokens)
    }

    fn item_at(alloc: Global, tokens: &[Token]) -> Result<(Field, &[Token]), ReadError> {
        let (docs, start) = or_return!(docs_at(alloc, tokens));
        let (name, rest) = or_return!(word_at(alloc, start));
        let rest = or_return!(mark_at(rest, b':'));
        let (kind, rest) = or_return!(kind_at(alloc, rest));
        let (default, rest) = or_return!(literal_after(alloc, b'=', rest));
        let (attributes, rest) = or_return!(attributes_at(alloc, rest));
        let rest = or_return!(mark_at(rest, b';'));
        Ok((
            Field {
                docs,
                left: start.len(),
                name,
                kind,
                default,
                attributes,
            },
            rest,
        ))
    }
}

pub(crate) fn record_at(alloc: Global, tokens: &[Token]) -> Result<(Record, &[Token]), ReadError>
    ensures { GivesCounted (λ x. RecordCounted x.0 (pieces_of x.1.now))
        (λ x. (record_of x.0, pieces_of x.1.now)) result
        (spec.record_at (pieces_of tokens.now)) }
{
    let (name, rest) = or_return!(word_at(alloc, tokens));
    let (attributes, rest) = or_return!(attributes_at(alloc, rest));
    let rest = or_return!(mark_at(rest, b'{'));
    let (fields, rest) = or_return!(list_of::<Fields>(alloc, rest));
    let (trailing, rest) = or_return!(closing_at(alloc, rest));
    Ok((
        Record {
            name,
            attributes,
            fields,
            trailing,
        },
        rest,
    ))
}
