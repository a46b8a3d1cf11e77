//! How strings are written, and the text that they mean.

ghost use Rattle.std.specs.Prelude.{◌≡◌, ◌++◌, ◌<◌, OnOk, IfOk, IfSome};
ghost use Rattle.std.specs.Str.{bytes_eq};
ghost use Rattle.planus_syntax.specs.Strings as spec;
ghost use Rattle.planus_syntax.specs.Strings.{character, written};
ghost use Rattle.planus_syntax.specs.Values as values_spec;

use crate::due::Due;
use crate::value::Label;
use std::alloc::{AllocError, Global};

/// The part of a string that was read.
#[derive(Clone, Copy)]
pub(crate) enum StringState {
    /// Between characters, or escapes that are one together.
    Plain { due: Due },
    /// After a backslash.
    Escape { due: Due },
    /// After `\x`.
    HexMark { due: Due },
    /// After `\x` and a digit.
    HexDigit { due: Due, value: u8 },
    /// In the digits after `\u`, of which so many are left; `high` is the first half of the
    /// character, or 0.
    Digits { high: u32, left: u8, value: u32 },
    /// After the closing quote.
    End,
    Wrong,
}

pub(crate) fn start() -> StringState
    ensures { result ≡ spec.start }
{
    StringState::Plain { due: Due::Nothing }
}

pub(crate) fn is_nothing(due: Due) -> bool
    ensures { result ≡ spec.is_nothing due }
{
    matches!(due, Due::Nothing)
}

pub(crate) fn is_quote(b: u8) -> bool
    ensures { result ≡ spec.is_quote b }
{
    b == b'"' || b == b'\''
}

pub(crate) fn is_closed(state: StringState) -> bool
    ensures { result ≡ spec.is_closed state }
{
    matches!(state, StringState::End)
}

pub(crate) fn is_wrong(state: StringState) -> bool
    ensures { result ≡ spec.is_wrong state }
{
    matches!(state, StringState::Wrong)
}

fn escaped(b: u8) -> Option<u8>
    ensures { result ≡ spec.escaped b }
{
    match b {
        b'"' | b'\'' | b'/' | b'\\' => Some(b),
        b'b' => Some(8),
        b'f' => Some(12),
        b'n' => Some(b'\n'),
        b'r' => Some(b'\r'),
        b't' => Some(b'\t'),
        _ => None,
    }
}

fn hex_digit(b: u8) -> Option<u8>
    ensures digit { result ≡ spec.hex_digit b }
    ensures below { IfSome result (λ digit. digit < 16) }
{
    match b {
        b'0'..=b'9' => Some(b - b'0'),
        b'a'..=b'f' => Some(b - b'a' + 10),
        b'A'..=b'F' => Some(b - b'A' + 10),
        _ => None,
    }
}

fn is_high(code: u32) -> bool
    ensures { result ≡ spec.is_high code }
{
    0xd800 <= code && code <= 0xdbff
}

fn is_low(code: u32) -> bool
    ensures { result ≡ spec.is_low code }
{
    0xdc00 <= code && code <= 0xdfff
}

fn after_code(high: u32, code: u32) -> StringState
    ensures { result ≡ spec.after_code high code }
{
    if high == 0 {
        if is_high(code) {
            StringState::Plain {
                due: Due::SecondHalf { high: code },
            }
        } else if is_low(code) {
            StringState::Wrong
        } else {
            start()
        }
    } else if is_low(code) {
        start()
    } else {
        StringState::Wrong
    }
}

fn after_digit(high: u32, left: u8, value: u32) -> StringState
    ensures { result ≡ spec.after_digit high left value }
{
    if left <= 1 {
        after_code(high, value)
    } else {
        StringState::Digits {
            high,
            left: left - 1,
            value,
        }
    }
}

fn next_byte(least: u8, greatest: u8, more: u8) -> StringState
    ensures { result ≡ StringState.Plain (Due.NextByte least greatest more) }
{
    StringState::Plain {
        due: Due::NextByte {
            least,
            greatest,
            more,
        },
    }
}

// After the first byte of a character in UTF-8.
fn after_first(b: u8) -> StringState
    ensures { result ≡ spec.after_first b }
{
    match b {
        0..=0x7f => start(),
        0xc2..=0xdf => next_byte(0x80, 0xbf, 0),
        0xe0 => next_byte(0xa0, 0xbf, 1),
        0xed => next_byte(0x80, 0x9f, 1),
        0xe1..=0xef => next_byte(0x80, 0xbf, 1),
        0xf0 => next_byte(0x90, 0xbf, 2),
        0xf1..=0xf3 => next_byte(0x80, 0xbf, 2),
        0xf4 => next_byte(0x80, 0x8f, 2),
        _ => StringState::Wrong,
    }
}

fn after_next(least: u8, greatest: u8, more: u8, b: u8) -> StringState
    ensures { result ≡ spec.after_next least greatest more b }
{
    if !(least <= b && b <= greatest) {
        StringState::Wrong
    } else if more == 0 {
        start()
    } else {
        next_byte(0x80, 0xbf, more - 1)
    }
}

fn after_byte(due: Due, b: u8) -> StringState
    ensures { result ≡ spec.after_byte due b }
{
    match due {
        Due::Nothing => after_first(b),
        Due::SecondHalf { high: _ } => StringState::Wrong,
        Due::NextByte {
            least,
            greatest,
            more,
        } => after_next(least, greatest, more, b),
    }
}

fn digits(high: u32) -> StringState
    ensures { result ≡ StringState.Digits high 4 0 }
{
    StringState::Digits {
        high,
        left: 4,
        value: 0,
    }
}

fn after_backslash(due: Due, b: u8) -> StringState
    ensures { result ≡ spec.after_backslash due b }
{
    match (b, due) {
        (b'u', Due::Nothing) => digits(0),
        (b'u', Due::SecondHalf { high }) => digits(high),
        (b'x', Due::Nothing | Due::NextByte { .. }) => StringState::HexMark { due },
        (_, Due::Nothing) if escaped(b).is_some() => start(),
        _ => StringState::Wrong,
    }
}

fn with_digit(value: u32, digit: u8) -> u32
    ensures { result ≡ spec.with_digit value digit }
{
    16 * (value % 4096) + digit as u32
}

fn plain_step(quote: u8, due: Due, b: u8) -> StringState
    ensures { result ≡ spec.string_step quote (StringState.Plain due) b }
{
    if b == b'\\' {
        StringState::Escape { due }
    } else if !is_nothing(due) {
        StringState::Wrong
    } else if b == quote {
        StringState::End
    } else if b < b' ' {
        StringState::Wrong
    } else {
        start()
    }
}

fn byte_of(value: u8, digit: u8) -> u8
    requires { digit < 16 }
    ensures { result ≡ spec.byte_of value digit }
{
    16 * (value % 16) + digit
}

pub(crate) fn string_step(quote: u8, state: StringState, b: u8) -> StringState
    ensures { result ≡ spec.string_step quote state b }
{
    match state {
        StringState::Plain { due } => plain_step(quote, due, b),
        StringState::Escape { due } => after_backslash(due, b),
        StringState::HexMark { due } => match hex_digit(b) {
            Some(value) => StringState::HexDigit { due, value },
            None => StringState::Wrong,
        },
        StringState::HexDigit { due, value } => match hex_digit(b) {
            Some(digit) => after_byte(due, byte_of(value, digit)),
            None => StringState::Wrong,
        },
        StringState::Digits { high, left, value } => match hex_digit(b) {
            Some(digit) => after_digit(high, left, with_digit(value, digit)),
            None => StringState::Wrong,
        },
        StringState::End | StringState::Wrong => StringState::Wrong,
    }
}

/// Returns what is between the quotes of a string, as it is written.
pub fn between_quotes(string: &[u8]) -> &[u8]
    ensures { result.now ≡ spec.between_quotes string.now }
{
    match string.split_first() {
        Some((_, rest)) => match rest.split_last() {
            Some((_, between)) => between,
            None => rest,
        },
        None => string,
    }
}

fn code_of(high: u32, code: u32) -> u32
    requires { code < 1114112 }
    ensures { result ≡ spec.code_of high code }
{
    if high == 0 {
        code
    } else {
        0x10000 + 1024 * (high % 1024) + code % 1024
    }
}

fn put_character(out: &mut Vec<u8>, code: u32) -> Result<(), AllocError>
    requires { code < 1114112 }
    ensures { OnOk result (out.new.items ≡ out.old.items ++ character code) }
{
    match char::from_u32(code) {
        Some(character) => {
            let mut bytes = [0; 4];
            let text = character.encode_utf8(&mut bytes);
            out.extend_from_slice(text.as_bytes())
        }
        None => Ok(()),
    }
}

fn put_digit(out: &mut Vec<u8>, high: u32, left: u8, value: u32, b: u8) -> Result<(), AllocError>
    ensures { OnOk result (out.new.items ≡ out.old.items
        ++ written 34 (StringState.Digits high left value) b) }
{
    match hex_digit(b) {
        Some(digit) if left <= 1 => put_character(out, code_of(high, with_digit(value, digit))),
        _ => Ok(()),
    }
}

fn put_written(out: &mut Vec<u8>, quote: u8, state: StringState, b: u8) -> Result<(), AllocError>
    ensures { OnOk result (out.new.items ≡ out.old.items ++ written quote state b) }
{
    match state {
        StringState::Plain { due: _ } => {
            if b == quote || b == b'\\' {
                return Ok(());
            }
            out.push(b)?;
            Ok(())
        }
        StringState::Escape { due: _ } => match escaped(b) {
            Some(meant) => {
                out.push(meant)?;
                Ok(())
            }
            None => Ok(()),
        },
        StringState::Digits { high, left, value } => put_digit(out, high, left, value, b),
        StringState::HexDigit { due: _, value } => match hex_digit(b) {
            Some(digit) => {
                out.push(byte_of(value, digit))?;
                Ok(())
            }
            None => Ok(()),
        },
        StringState::HexMark { due: _ } | StringState::End | StringState::Wrong => Ok(()),
    }
}

/// Returns the text that a string means, which has no escapes.
pub fn string_text(alloc: Global, string: &[u8]) -> Result<Vec<u8>, AllocError>
    ensures { IfOk result (λ text. text.items ≡ spec.string_text string.now) }
{
    let mut out = Vec::new(alloc);
    let Some((quote, body)) = string.split_first() else {
        return Ok(out);
    };
    let mut state = start();
    let mut rest = body;
    'bytes: while let Some((b, after)) = rest.split_first() {
        put_written(&mut out, *quote, state, *b)?;
        state = string_step(*quote, state, *b);
        rest = after;
    }
    Ok(out)
}

fn stripped<'t>(text: &'t [u8], front: &[u8]) -> Option<&'t [u8]>
    ensures { spec.Strips front.now text.now result }
{
    text.strip_prefix(front)
}

fn after_character(text: &[u8], code: u32) -> Option<&[u8]>
    requires { code < 1114112 }
    ensures { spec.Strips (character code) text.now result }
{
    match char::from_u32(code) {
        Some(character) => {
            let mut bytes = [0; 4];
            stripped(text, character.encode_utf8(&mut bytes).as_bytes())
        }
        None => Some(text),
    }
}

fn after_digit_written(text: &[u8], high: u32, left: u8, value: u32, b: u8) -> Option<&[u8]>
    ensures { spec.Strips (written 34 (StringState.Digits high left value) b) text.now result }
{
    match hex_digit(b) {
        Some(digit) if left <= 1 => after_character(text, code_of(high, with_digit(value, digit))),
        _ => Some(text),
    }
}

fn after_written(text: &[u8], quote: u8, state: StringState, b: u8) -> Option<&[u8]>
    ensures { spec.Strips (written quote state b) text.now result }
{
    match state {
        StringState::Plain { due: _ } => {
            if b == quote || b == b'\\' {
                Some(text)
            } else {
                stripped(text, &[b])
            }
        }
        StringState::Escape { due: _ } => match escaped(b) {
            Some(meant) => stripped(text, &[meant]),
            None => Some(text),
        },
        StringState::HexDigit { due: _, value } => match hex_digit(b) {
            Some(digit) => stripped(text, &[byte_of(value, digit)]),
            None => Some(text),
        },
        StringState::Digits { high, left, value } => {
            after_digit_written(text, high, left, value, b)
        }
        StringState::HexMark { due: _ } | StringState::End | StringState::Wrong => Some(text),
    }
}

fn means(string: &[u8], text: &[u8]) -> bool
    ensures { result ≡ bytes_eq (spec.string_text string.now) text.now }
{
    let Some((quote, body)) = string.split_first() else {
        return text.is_empty();
    };
    let mut state = start();
    let mut left = text;
    let mut rest = body;
    'bytes: while let Some((b, after)) = rest.split_first() {
        match after_written(left, *quote, state, *b) {
            Some(next) => left = next,
            None => return false,
        }
        state = string_step(*quote, state, *b);
        rest = after;
    }
    left.is_empty()
}

/// Returns whether an attribute has this name.
pub fn label_is(label: &Label, name: &[u8]) -> bool
    ensures { result ≡ bytes_eq (values_spec.label_name (values_spec.label_of label.now)) name.now }
{
    if label.quoted {
        means(&label.name, name)
    } else {
        label.name.as_slice() == name
    }
}

/// Returns the name of an attribute: of a string, the text that it means.
pub fn label_name(alloc: Global, label: &Label) -> Result<Vec<u8>, AllocError>
    ensures { IfOk result (λ name. name.items ≡ values_spec.label_name
        (values_spec.label_of label.now)) }
{
    if label.quoted {
        string_text(alloc, &label.name)
    } else {
        Vec::from_slice(alloc, &label.name)
    }
}
