//! Tokens to values.

ghost use Rattle.std.specs.Prelude.{◌≡◌, ◌<◌, ◌≤◌, length, map, IfErr, IfOk, IfSome};
ghost use Rattle.std.specs.String.{string_bytes};
ghost use Rattle.planus_json_syntax.specs.declared.fault_kind.FaultKind.TheVariants as fault;
ghost use Rattle.std.specs.List.{list_all};
ghost use Rattle.planus_json_syntax.specs.Tokens.{is_name_byte as is_name_byte_lem};
ghost use Rattle.planus_json_syntax.specs.Reading as spec;
ghost use Rattle.planus_json_syntax.specs.Values.{json_view, member_view, value_view};
ghost use Rattle.planus_json_syntax.specs.Steps.{Gives, FitsIn, front_view, left_of, token_view};

use crate::fault_kind::FaultKind;
use crate::front::Front;
use crate::json::Json;
use crate::member::Member;
use crate::read_error::ReadError;
use crate::token::Token;
use crate::tokens::{is_name_byte, next};
use crate::value::Value;
use std::alloc::Global;

fn is_mark_of(mark: u8, token: &Token) -> bool
    ensures { result ≡ spec.is_mark_of mark (token_view token.now) }
{
    match token {
        Token::Mark(byte) => *byte == mark,
        _ => false,
    }
}

/// Returns the first token, or at the text's end that it is missing.
fn front_or(alloc: Global, kind: FaultKind, bytes: &[u8]) -> Result<Front<'_>, ReadError>
    ensures reads { Gives front_view result (spec.front_or kind bytes.now) }
    ensures fits { IfOk result (λ front. FitsIn front bytes.now) }
    ensures within { IfErr result (λ error. left_of error ≤ length bytes.now) }
{
    match or_return!(next(alloc, bytes)) {
        Some(front) => Ok(front),
        None => Err(ReadError::Fault { kind, left: 0 }),
    }
}

/// Returns what follows this mark.
fn after_mark(alloc: Global, mark: u8, kind: FaultKind, bytes: &[u8]) -> Result<&[u8], ReadError>
    ensures reads { Gives (λ rest. rest.now) result (spec.after_mark mark kind bytes.now) }
    ensures shorter { IfOk result (λ rest. length rest.now < length bytes.now) }
    ensures within { IfErr result (λ error. left_of error ≤ length bytes.now) }
{
    let front = or_return!(front_or(alloc, kind, bytes));
    if is_mark_of(mark, &front.token) {
        Ok(front.rest)
    } else {
        let left = front.left;
        Err(ReadError::Fault { kind, left })
    }
}

/// After an item: returns whether the list closes there, or else goes on after a comma.
fn end_at(
    alloc: Global,
    close: u8,
    kind: FaultKind,
    bytes: &[u8],
) -> Result<(bool, &[u8]), ReadError>
    ensures reads { Gives (λ x. (x.0, x.1.now)) result (spec.end_at close kind bytes.now) }
    ensures shorter { IfOk result (λ x. length x.1.now < length bytes.now) }
    ensures within { IfErr result (λ error. left_of error ≤ length bytes.now) }
{
    let front = or_return!(front_or(alloc, kind, bytes));
    if is_mark_of(close, &front.token) {
        Ok((true, front.rest))
    } else if is_mark_of(b',', &front.token) {
        Ok((false, front.rest))
    } else {
        let left = front.left;
        Err(ReadError::Fault { kind, left })
    }
}

fn are_name_bytes(word: &[u8]) -> bool
    ensures { result ≡ list_all is_name_byte_lem word.now }
{
    word.iter().all(|b| is_name_byte(*b))
}

fn is_name(word: &[u8]) -> bool
    ensures { result ≡ spec.is_name word.now }
{
    match word.split_first() {
        Some((first, _)) => !first.is_ascii_digit() && are_name_bytes(word),
        None => false,
    }
}

/// Returns the key that a token is.
fn key_in(left: usize, token: Token) -> Result<String, ReadError>
    ensures reads { Gives string_bytes result (spec.key_in left (token_view token)) }
    ensures within { IfErr result (λ error. left_of error ≤ left) }
{
    match token {
        Token::Text(key) => return Ok(key),
        Token::Word(key) => {
            if is_name(key.as_bytes()) {
                return Ok(key);
            }
        }
        Token::Mark(_) => {}
    }
    let kind = FaultKind::Key;
    Err(ReadError::Fault { kind, left })
}

/// Returns the value that begins with a token, in a text of this length; lists and objects in it
/// nest to this depth.
#[cycle(values)]
pub(crate) fn value_at<'a>(
    alloc: Global,
    len: usize,
    depth: usize,
    front: Front<'a>,
) -> Result<(Json, &'a [u8]), ReadError>
    requires within { front.left ≤ len }
    requires fits { length front.rest.now < front.left }
    ensures reads { Gives (λ x. (json_view x.0, x.1.now)) result
        (spec.value_at len depth (front_view front.entry)) }
    ensures shorter { IfOk result (λ x. length x.1.now < front.entry.left) }
    ensures within { IfErr result (λ error. left_of error ≤ front.entry.left) }
{
    let Front { token, left, rest } = front;
    let at = len - left;
    match token {
        Token::Word(word) => Ok((
            Json {
                at,
                value: Value::Word(word),
            },
            rest,
        )),
        Token::Text(text) => Ok((
            Json {
                at,
                value: Value::Text(text),
            },
            rest,
        )),
        Token::Mark(mark) => {
            let (value, rest) = or_return!(nested_at(alloc, len, depth, mark, left, rest));
            Ok((Json { at, value }, rest))
        }
    }
}

/// Returns the list or the object that begins with a mark, which has this many bytes left.
#[cycle(values)]
fn nested_at(
    alloc: Global,
    len: usize,
    depth: usize,
    mark: u8,
    left: usize,
    rest: &[u8],
) -> Result<(Value, &[u8]), ReadError>
    requires within { left ≤ len }
    requires fits { length rest.now < left }
    ensures reads { Gives (λ x. (value_view x.0, x.1.now)) result
        (spec.nested_at len depth left rest.now mark) }
    ensures shorter { IfOk result (λ x. length x.1.now < length rest.now) }
    ensures within { IfErr result (λ error. left_of error ≤ left) }
{
    if mark == b'[' {
        if depth == 0 {
            let kind = FaultKind::TooDeep;
            return Err(ReadError::Fault { kind, left });
        }
        let (items, rest) = or_return!(items_at(alloc, len, depth - 1, rest));
        return Ok((Value::List(items), rest));
    }
    if mark == b'{' {
        if depth == 0 {
            let kind = FaultKind::TooDeep;
            return Err(ReadError::Fault { kind, left });
        }
        let (members, rest) = or_return!(members_at(alloc, len, depth - 1, rest));
        return Ok((Value::Object(members), rest));
    }
    let kind = FaultKind::Value;
    Err(ReadError::Fault { kind, left })
}

/// Returns the items up to `]`, and what follows it.
#[cycle(values)]
fn items_at(
    alloc: Global,
    len: usize,
    depth: usize,
    bytes: &[u8],
) -> Result<(Vec<Json>, &[u8]), ReadError>
    requires within { length bytes.now ≤ len }
    ensures reads { Gives (λ x. (map json_view x.0.items, x.1.now)) result
        (spec.items_at (spec.value_at len depth) 93 fault.Value fault.ListEnd bytes.now) }
    ensures shorter { IfOk result (λ x. length x.1.now < length bytes.now) }
    ensures within { IfErr result (λ error. left_of error ≤ length bytes.now) }
{
    let mut items = Vec::new(alloc);
    let mut rest = bytes;
    'items: loop {
        let front = or_return!(front_or(alloc, FaultKind::Value, rest));
        if is_mark_of(b']', &front.token) {
            return Ok((items, front.rest));
        }
        let (item, after) = or_return!(value_at(alloc, len, depth, front));
        items.push(item)?;
        let (closed, after) = or_return!(end_at(alloc, b']', FaultKind::ListEnd, after));
        if closed {
            return Ok((items, after));
        }
        rest = after;
    }
}

/// Returns the member that begins with a token.
#[cycle(values)]
fn member_at<'a>(
    alloc: Global,
    len: usize,
    depth: usize,
    front: Front<'a>,
) -> Result<(Member, &'a [u8]), ReadError>
    requires within { front.left ≤ len }
    requires fits { length front.rest.now < front.left }
    ensures reads { Gives (λ x. (member_view x.0, x.1.now)) result
        (spec.member_of len (spec.value_at len depth) (front_view front.entry)) }
    ensures shorter { IfOk result (λ x. length x.1.now < front.entry.left) }
    ensures within { IfErr result (λ error. left_of error ≤ front.entry.left) }
{
    let Front { token, left, rest } = front;
    let at = len - left;
    let key = or_return!(key_in(left, token));
    let rest = or_return!(after_mark(alloc, b':', FaultKind::Colon, rest));
    let front = or_return!(front_or(alloc, FaultKind::Value, rest));
    let (value, rest) = or_return!(value_at(alloc, len, depth, front));
    Ok((Member { at, key, value }, rest))
}

/// Returns the members up to `}`, and what follows it.
#[cycle(values)]
fn members_at(
    alloc: Global,
    len: usize,
    depth: usize,
    bytes: &[u8],
) -> Result<(Vec<Member>, &[u8]), ReadError>
    requires within { length bytes.now ≤ len }
    ensures reads { Gives (λ x. (map member_view x.0.items, x.1.now)) result
        (spec.items_at (spec.member_of len (spec.value_at len depth)) 125 fault.Key
        fault.ObjectEnd bytes.now) }
    ensures shorter { IfOk result (λ x. length x.1.now < length bytes.now) }
    ensures within { IfErr result (λ error. left_of error ≤ length bytes.now) }
{
    let mut members = Vec::new(alloc);
    let mut rest = bytes;
    'members: loop {
        let front = or_return!(front_or(alloc, FaultKind::Key, rest));
        if is_mark_of(b'}', &front.token) {
            return Ok((members, front.rest));
        }
        let (member, after) = or_return!(member_at(alloc, len, depth, front));
        members.push(member)?;
        let (closed, after) = or_return!(end_at(alloc, b'}', FaultKind::ObjectEnd, after));
        if closed {
            return Ok((members, after));
        }
        rest = after;
    }
}
