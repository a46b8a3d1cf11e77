//! A text to declarations, and to its canonical text.

ghost use Rattle.std.specs.Prelude.{◌≡◌, ◌≤◌, ◌-◌, ℕ, List, length, IfOk, IfErr, Ok};
ghost use Rattle.planus_syntax.specs.Tokens.{Piece};
ghost use Rattle.planus_syntax.specs.Placing.{StandsAt};
ghost use Rattle.planus_syntax.specs.Lexing.{lex_of};
ghost use Rattle.planus_syntax.specs.declared.text.SchemaError.TheVariants.{OutOfMemory};
ghost use Rattle.planus_syntax.specs.Values.{AreWhole, SchemaV, IsSchema, schema_of};
ghost use Rattle.planus_syntax.specs.Values.{schema_pieces, text_of};
ghost use Rattle.planus_syntax.specs.Spelled as spec;
ghost use Rattle.planus_syntax.specs.Counting.{SchemaCounted};
ghost use Rattle.planus_syntax.specs.Parsed.{IsFaultOf, LiesIn, Spells};
ghost use Rattle.planus_syntax.specs.Parsed.{HasCanonicalText, KeepsComments};
ghost use Rattle.planus_syntax.specs.Parsed.{TextFormatsTo, TextParsesTo};
ghost use Rattle.planus_syntax.specs.Comments.{canonical, elements_of};

use crate::layout::canonical_text;
use crate::lexer::{LexError, LexFault, lex, place_of};
use crate::parse::{ParseError, parse};
use crate::parse_fault::ParseFault;
use crate::value::Schema;
use std::alloc::{AllocError, Global};

/// Why a text is no schema. `at` is a place in bytes from the text's start.
#[derive(Clone, Copy)]
pub enum SchemaError {
    /// Memory was refused.
    OutOfMemory,
    /// An error in the text of a token.
    Token {
        fault: LexFault,
        at: usize,
    },
    /// A token is not the expected one; `index` is that of the token.
    Declaration {
        fault: ParseFault,
        index: usize,
        at: usize,
    },
}

/// Returns a text without the byte order mark that it may begin with. The other functions take what
/// follows the mark.
pub fn after_order_mark(text: &[u8]) -> &[u8]
    ensures { result.now ≡ spec.after_order_mark text.now }
{
    match text.split_at_checked(3) {
        Some((mark, rest)) if mark == b"\xEF\xBB\xBF".as_slice() => rest,
        _ => text,
    }
}

fn read(alloc: Global, text: &[u8]) -> Result<Schema, SchemaError>
    ensures found { IfOk result (λ s. lex_of text.now ≡ Ok (schema_pieces (schema_of s))) }
    ensures whole { IfOk result (λ s. AreWhole (schema_of s).declarations) }
    ensures counted { IfOk result (λ s. SchemaCounted s) }
    ensures only { (schema : SchemaV) → AreWhole schema.declarations
        → lex_of text.now ≡ Ok (schema_pieces schema) → TextParsesTo schema result }
    ensures exact { IfErr result (λ error. IsFaultOf text.now error) }
    ensures within { IfErr result (λ error. LiesIn (length text.now) error) }
{
    match lex(alloc, text) {
        Ok(tokens) => match parse(alloc, &tokens) {
            Ok(schema) => Ok(schema),
            Err(ParseError::OutOfMemory) => Err(SchemaError::OutOfMemory),
            Err(ParseError::Fault { fault, index }) => {
                let at = place_of(text, index);
                Err(SchemaError::Declaration { fault, index, at })
            }
        },
        Err(LexError::OutOfMemory) => Err(SchemaError::OutOfMemory),
        Err(LexError::Fault { fault, at }) => Err(SchemaError::Token { fault, at }),
    }
}

/// Returns the schema that a text spells.
///
/// Fails with the first error from the left, and its place.
pub fn parse_text(alloc: Global, text: &[u8]) -> Result<Schema, SchemaError>
    // The text spells what is read.
    ensures found { IfOk result (λ s. Spells text.now (schema_of s)) }
    // It has no empty enum or union.
    ensures whole { IfOk result (λ s. AreWhole (schema_of s).declarations) }
    // Each `left` is the number of tokens from its word to the text's end, the word included.
    ensures counted { IfOk result (λ s. SchemaCounted s) }
    // A text that spells a schema is read as that schema, unless memory is refused.
    ensures only { (schema : SchemaV) → AreWhole schema.declarations → Spells text.now schema
        → TextParsesTo schema result }
    // So is its canonical text.
    ensures canonical { (schema : SchemaV) → IsSchema schema
        → text.now ≡ text_of schema → TextParsesTo schema result }
    // Which error it is, and where.
    ensures exact { IfErr result (λ error. IsFaultOf text.now error) }
    ensures within { IfErr result (λ error. LiesIn (length text.now) error) }
{
    match read(alloc, text) {
        Ok(schema) => Ok(schema),
        Err(error) => Err(error),
    }
}

/// Returns the canonical text of the schema that a text spells, with the text's comments. Each
/// stands before the token that it stood before, on a line of its own if it was on one.
///
/// The errors are those of [`parse_text`].
pub fn format_text(alloc: Global, text: &[u8]) -> Result<Vec<u8>, SchemaError>
    // The text spells a schema, and its canonical text is returned.
    ensures found { IfOk result (λ out. HasCanonicalText text.now out.items) }
    // That spells the same schema, and has each comment of the text once, in order.
    ensures kept { IfOk result (λ out. KeepsComments text.now out.items) }
    // A text that spells a schema gives its canonical text, unless memory is refused.
    ensures only { (schema : SchemaV) (parts : List spec.Part) → AreWhole schema.declarations
        → spec.AreParts parts → text.now ≡ spec.spelled parts → schema_pieces schema
        ≡ spec.tokens_in parts
        → TextFormatsTo (canonical (elements_of parts)) result }
    // The canonical text of any text stays as it is.
    ensures stays { (source : List ℕ) → HasCanonicalText source text.now
        → TextFormatsTo text.now result }
    // So does the canonical text of a schema, which has no comments.
    ensures plain { (schema : SchemaV) → IsSchema schema
        → text.now ≡ text_of schema → TextFormatsTo text.now result }
    // Which error it is, and where.
    ensures exact { IfErr result (λ error. IsFaultOf text.now error) }
    ensures within { IfErr result (λ error. LiesIn (length text.now) error) }
{
    match read(alloc, text) {
        Ok(_) => match canonical_text(alloc, text) {
            Ok(out) => Ok(out),
            Err(AllocError) => Err(SchemaError::OutOfMemory),
        },
        Err(error) => Err(error),
    }
}

/// Returns where a word begins, in bytes from the text's start; `left` counts the tokens from the
/// word to the text's end. That is the text's end where `left` is 0, so also in a text that has no
/// tokens, and the first token where `left` is more than the tokens.
///
/// Fails as [`parse_text`] does if a token's text has an error.
pub fn place_from_end(alloc: Global, text: &[u8], left: usize) -> Result<usize, SchemaError>
    ensures within { IfOk result (λ at. at ≤ length text.now) }
    ensures stands { (ps : List Piece) → lex_of text.now ≡ Ok ps
        → IfOk result (λ at. StandsAt text.now ps (length ps - left) at) }
    // A text whose tokens can be read has the place, unless memory is refused.
    ensures only { (ps : List Piece) → lex_of text.now ≡ Ok ps
        → IfErr result (λ error. error ≡ OutOfMemory) }
    ensures exact { IfErr result (λ error. IsFaultOf text.now error) }
{
    match lex(alloc, text) {
        Ok(tokens) => Ok(place_of(text, tokens.len().saturating_sub(left))),
        Err(LexError::OutOfMemory) => Err(SchemaError::OutOfMemory),
        Err(LexError::Fault { fault, at }) => Err(SchemaError::Token { fault, at }),
    }
}
