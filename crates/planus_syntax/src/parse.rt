//! Tokens to declarations.

ghost use Rattle.std.specs.Prelude.{◌≡◌, [], length, IfOk};
ghost use Rattle.planus_syntax.specs.Values.{DeclarationV, SchemaV, AreWhole, schema_pieces};
ghost use Rattle.planus_syntax.specs.Values.{declaration_of, schema_of};
ghost use Rattle.planus_syntax.specs.Parsed.{ParsesTo, AnswersParse};
ghost use Rattle.planus_syntax.specs.Tokens.{pieces_of};
ghost use Rattle.planus_syntax.specs.Reading as spec;
ghost use Rattle.planus_syntax.specs.Counting.{DeclarationCounted, GivesCounted, SchemaCounted};
ghost use Rattle.planus_syntax.specs.Values.{declaration_before};

/// The value that was read, or a return of the error: `?` without a conversion of the error, which
/// is cheaper to prove.
macro_rules! or_return {
    ($read:expr) => {
        match $read {
            Ok(value) => value,
            Err(error) => return Err(error),
        }
    };
}

mod attributes;
mod enums;
mod lists;
mod literals;
mod paths;
mod services;
mod statements;
mod tables;
mod tokens;
mod unions;

use crate::parse::attributes::docs_at;
use crate::parse::lists::{Items, list_of};
use crate::parse::statements::item_at;
use crate::parse::tokens::{has_more, word_at};
use crate::parse_fault::ParseFault;
use crate::read_error::ReadError;
use crate::token::Token;
use crate::value::{Declaration, Schema};
use std::alloc::Global;

/// The declarations of a text.
struct Declarations;

impl Items for Declarations {
    ghost Value = { DeclarationV };

    ghost goes_on = { spec.has_more };

    ghost item_at = { spec.declaration_at };

    ghost value_of = { declaration_of };

    ghost before = { declaration_before };

    ghost Counted = { DeclarationCounted };

    type Item = Declaration;

    fn goes_on(tokens: &[Token]) -> bool {
        has_more(tokens)
    }

    fn item_at(alloc: Global, tokens: &[Token]) -> Result<(Declaration, &[Token]), ReadError> {
        let (docs, start) = or_return!(docs_at(alloc, tokens));
        let (key, rest) = or_return!(word_at(alloc, start));
        let (item, rest) = or_return!(item_at(alloc, &key, start.len(), rest));
        Ok((
            Declaration {
                docs,
                left: start.len(),
                item,
            },
            rest,
        ))
    }
}

fn schema_at(alloc: Global, tokens: &[Token]) -> Result<Schema, ReadError>
    ensures { GivesCounted SchemaCounted (λ s. (schema_of s, [])) result
        (spec.schema_at (pieces_of tokens.now)) }
{
    let (declarations, rest) = or_return!(list_of::<Declarations>(alloc, tokens));
    let (trailing, _rest) = or_return!(docs_at(alloc, rest));
    Ok(Schema {
        declarations,
        trailing,
    })
}

#[derive(Clone, Copy)]
pub(crate) enum ParseError {
    OutOfMemory,
    /// The first error, and the index of the token there.
    Fault { fault: ParseFault, index: usize },
}

pub(crate) fn parse(alloc: Global, tokens: &[Token]) -> Result<Schema, ParseError>
    ensures found { IfOk result (λ s. pieces_of tokens.now ≡ schema_pieces (schema_of s)) }
    ensures whole { IfOk result (λ s. AreWhole (schema_of s).declarations) }
    ensures counted { IfOk result (λ s. SchemaCounted s) }
    ensures only { (schema : SchemaV) → AreWhole schema.declarations
        → pieces_of tokens.now ≡ schema_pieces schema → ParsesTo schema result }
    ensures exact { AnswersParse (length tokens.now) result
        (spec.schema_at (pieces_of tokens.now)) }
{
    match schema_at(alloc, tokens) {
        Ok(schema) => Ok(schema),
        Err(ReadError::OutOfMemory) => Err(ParseError::OutOfMemory),
        Err(ReadError::Fault { fault, left }) => {
            let index = tokens.len().saturating_sub(left);
            Err(ParseError::Fault { fault, index })
        }
    }
}
