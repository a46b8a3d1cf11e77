//! Statements, and which item a word begins.

ghost use Rattle.std.specs.Prelude.{◌≡◌};
ghost use Rattle.std.specs.Str.{bytes_eq};
ghost use Rattle.planus_syntax.specs.Tokens.{pieces_of};
ghost use Rattle.planus_syntax.specs.Values.{path_of, item_of, namespace as namespace_item};
ghost use Rattle.planus_syntax.specs.Values.{attribute as attribute_item};
ghost use Rattle.planus_syntax.specs.Reading as spec;
ghost use Rattle.planus_syntax.specs.Counting.{GivesCounted, ItemCounted, PathCounted};
ghost use Rattle.std.specs.Prelude.{◌∷◌};
ghost use Rattle.planus_syntax.specs.Tokens.{mark};

use crate::parse::enums::enumeration_at;
use crate::parse::paths::path_at;
use crate::parse::services::service_at;
use crate::parse::tables::record_at;
use crate::parse::tokens::{after_mark, label_at, mark_at, text_at};
use crate::parse::unions::union_at;
use crate::parse_fault::ParseFault;
use crate::read_error::ReadError;
use crate::token::Token;
use crate::value::{Item, Path};
use std::alloc::Global;

fn quoted_at(alloc: Global, tokens: &[Token]) -> Result<(Vec<u8>, &[Token]), ReadError>
    ensures { spec.Gives (λ x. (x.0.items, pieces_of x.1.now)) result
        (spec.quoted_at (pieces_of tokens.now)) }
{
    let (text, rest) = or_return!(text_at(alloc, tokens));
    let rest = or_return!(mark_at(rest, b';'));
    Ok((text, rest))
}

fn rooted_at(alloc: Global, tokens: &[Token]) -> Result<(Path, &[Token]), ReadError>
    ensures { GivesCounted (λ x. PathCounted x.0 (mark 59 ∷ pieces_of x.1.now))
        (λ x. (path_of x.0, pieces_of x.1.now)) result
        (spec.rooted_at (pieces_of tokens.now)) }
{
    let (path, rest) = or_return!(path_at(alloc, tokens));
    let rest = or_return!(mark_at(rest, b';'));
    Ok((path, rest))
}

fn namespace_at(alloc: Global, tokens: &[Token]) -> Result<(Item, &[Token]), ReadError>
    ensures { GivesCounted (λ x. ItemCounted x.0 (pieces_of x.1.now))
        (λ x. (item_of x.0, pieces_of x.1.now)) result
        (spec.as_item namespace_item (spec.namespace_at (pieces_of tokens.now))) }
{
    match after_mark(tokens, b';') {
        Some(rest) => Ok((Item::Namespace(None), rest)),
        None => {
            let (path, rest) = or_return!(rooted_at(alloc, tokens));
            Ok((Item::Namespace(Some(path)), rest))
        }
    }
}

fn declared_at(alloc: Global, tokens: &[Token]) -> Result<(Item, &[Token]), ReadError>
    ensures { GivesCounted (λ x. ItemCounted x.0 (pieces_of x.1.now))
        (λ x. (item_of x.0, pieces_of x.1.now)) result
        (spec.as_item attribute_item (spec.declared_at (pieces_of tokens.now))) }
{
    let (label, rest) = or_return!(label_at(alloc, tokens));
    let rest = or_return!(mark_at(rest, b';'));
    Ok((Item::Attribute(label), rest))
}

fn is_word(word: &[u8], sought: &[u8]) -> bool
    ensures { result ≡ bytes_eq word.now sought.now }
{
    word == sought
}

/// `left` counts the tokens from the statement's first word.
fn statement_at<'a>(
    alloc: Global,
    key: &[u8],
    left: usize,
    tokens: &'a [Token],
) -> Result<(Item, &'a [Token]), ReadError>
    ensures { GivesCounted (λ x. ItemCounted x.0 (pieces_of x.1.now))
        (λ x. (item_of x.0, pieces_of x.1.now)) result
        (spec.statement_at key.now left (pieces_of tokens.now)) }
{
    if is_word(key, b"include") {
        let (held, rest) = or_return!(quoted_at(alloc, tokens));
        Ok((Item::Include(held), rest))
    } else if is_word(key, b"namespace") {
        namespace_at(alloc, tokens)
    } else if is_word(key, b"attribute") {
        declared_at(alloc, tokens)
    } else if is_word(key, b"root_type") {
        let (held, rest) = or_return!(rooted_at(alloc, tokens));
        Ok((Item::RootType(held), rest))
    } else if is_word(key, b"file_identifier") {
        let (held, rest) = or_return!(quoted_at(alloc, tokens));
        Ok((Item::FileIdentifier(held), rest))
    } else if is_word(key, b"file_extension") {
        let (held, rest) = or_return!(quoted_at(alloc, tokens));
        Ok((Item::FileExtension(held), rest))
    } else if is_word(key, b"native_include") {
        let (held, rest) = or_return!(quoted_at(alloc, tokens));
        Ok((Item::NativeInclude(held), rest))
    } else {
        Err(ReadError::Fault {
            fault: ParseFault::Declaration,
            left,
        })
    }
}

pub(crate) fn item_at<'a>(
    alloc: Global,
    key: &[u8],
    left: usize,
    tokens: &'a [Token],
) -> Result<(Item, &'a [Token]), ReadError>
    ensures { GivesCounted (λ x. ItemCounted x.0 (pieces_of x.1.now))
        (λ x. (item_of x.0, pieces_of x.1.now)) result
        (spec.item_at key.now left (pieces_of tokens.now)) }
{
    if is_word(key, b"table") {
        let (held, rest) = or_return!(record_at(alloc, tokens));
        Ok((Item::Table(held), rest))
    } else if is_word(key, b"struct") {
        let (held, rest) = or_return!(record_at(alloc, tokens));
        Ok((Item::Struct(held), rest))
    } else if is_word(key, b"enum") {
        enumeration_at(alloc, tokens)
    } else if is_word(key, b"union") {
        union_at(alloc, tokens)
    } else if is_word(key, b"rpc_service") {
        service_at(alloc, tokens)
    } else {
        statement_at(alloc, key, left, tokens)
    }
}
