//! The messages of faults of JSON that is packed.

ghost use Rattle.std.specs.Prelude.{◌≡◌, IfOk};
ghost use Rattle.std.specs.String.{string_bytes};
ghost use Rattle.planus_json_syntax.specs.Tokens.{is_word_byte as in_word};
ghost use Rattle.planus_cli.specs.PackTexts as spec;

use crate::paths::lead_of;
use crate::report::put_rest;
use planus::ReplayError;
use planus_pack::PackFault;
use std::alloc::{AllocError, Global};

const WRONG_KIND: &str =
    "the value isn't what its type wants: an object for a table or a struct, a list for a vector or an array, a string for a string";

const UNKNOWN_KEY: &str = "the type has no field of this name";

const GIVEN_TWICE: &str = "the key is given twice";

const MISSING_FIELD: &str = "a required field of the table, or a field of the struct, is missing";

const LONE_UNION: &str = "a union has its type and no value, or its value and no type";

const TOO_DEEP: &str = "tables or structs nest deeper than 64";

const WRONG_LENGTH: &str =
    "the list hasn't as many items as the array, or as the unions have types";

const UNSUPPORTED: &str = "the type of the field isn't supported by planus binary";

/// The message where a text has no value.
const NO_VALUE: &str = "a value is expected";

/// The message where it has a second one.
const SECOND_VALUE: &str = "a second value begins here; see --size-prefixed";

fn is_word_byte(b: u8) -> bool
    ensures { result ≡ in_word b }
{
    b.is_ascii_alphabetic() || b.is_ascii_digit() || matches!(b, b'_' | b'+' | b'-' | b'.')
}

/// Whether a word ends before this byte: within quotes before the next quote.
fn ends_word(quoted: bool, b: u8) -> bool
    ensures { result ≡ spec.ends_word quoted b }
{
    if quoted { b == b'"' } else { !is_word_byte(b) }
}

fn front_word(quoted: bool, bytes: &[u8]) -> &[u8]
    ensures { result.now ≡ spec.front_word quoted bytes.now }
{
    let mut n = 0;
    'bytes: while n < bytes.len() && !ends_word(quoted, bytes[n]) {
        n += 1;
    }
    &bytes[..n]
}

/// Returns what a string with which a text begins has between its quotes, or the word with which it
/// begins, or the mark.
fn word_of(bytes: &[u8]) -> &[u8]
    ensures { result.now ≡ spec.word_of bytes.now }
{
    match bytes.split_first() {
        Some((b'"', rest)) => front_word(true, rest),
        Some((first, _)) if is_word_byte(*first) => front_word(false, bytes),
        Some(_) => &bytes[..1],
        None => bytes,
    }
}

/// Returns a message that begins with a word.
fn about(alloc: Global, word: &[u8], after: &str) -> Result<Vec<u8>, AllocError>
    ensures { IfOk result (λ text. text.items ≡ spec.about word.now after.now) }
{
    let mut text = Vec::from_slice(alloc, b"`")?;
    put_rest(&mut text, word)?;
    text.push(b'`')?;
    text.extend_from_slice(after.as_bytes())?;
    Ok(text)
}

fn plain(alloc: Global, text: &str) -> Result<Vec<u8>, AllocError>
    ensures { IfOk result (λ message. message.items ≡ text.now) }
{
    Vec::from_slice(alloc, text.as_bytes())
}

fn kind_message(alloc: Global, kind: PackFault, word: &[u8]) -> Result<Vec<u8>, AllocError>
    ensures { IfOk result (λ text. text.items ≡ spec.kind_message kind word.now) }
{
    match kind {
        PackFault::WrongKind => plain(alloc, WRONG_KIND),
        PackFault::UnknownKey => plain(alloc, UNKNOWN_KEY),
        PackFault::GivenTwice => plain(alloc, GIVEN_TWICE),
        PackFault::MissingField => plain(alloc, MISSING_FIELD),
        PackFault::LoneUnion => plain(alloc, LONE_UNION),
        PackFault::TooDeep => plain(alloc, TOO_DEEP),
        PackFault::NotANumber => about(alloc, word, " is no number of the type"),
        PackFault::OutOfRange => about(alloc, word, " doesn't fit the type"),
        PackFault::UnknownName => about(
            alloc,
            word,
            " is no value of the enum, or member of the union",
        ),
        PackFault::WrongLength => plain(alloc, WRONG_LENGTH),
        PackFault::Unsupported => plain(alloc, UNSUPPORTED),
    }
}

/// Returns the message of a fault whose word begins with the byte of index `at`.
fn bare_message(
    alloc: Global,
    kind: PackFault,
    text: &[u8],
    at: usize,
) -> Result<Vec<u8>, AllocError>
    ensures { IfOk result (λ message. message.items ≡ spec.bare_message kind text.now at) }
{
    let (_, rest) = text.split_at(at.min(text.len()));
    kind_message(alloc, kind, word_of(rest))
}

/// Returns the message of a fault of a value, or of the key of a member, that begins with the byte
/// of index `at`, after the path to it.
pub(crate) fn fault_message(
    alloc: Global,
    kind: PackFault,
    text: &[u8],
    at: usize,
) -> Result<Vec<u8>, AllocError>
    ensures { IfOk result (λ message. message.items ≡ spec.fault_message kind text.now at) }
{
    let mut message = lead_of(alloc, text, at)?;
    message.extend_from_slice(&bare_message(alloc, kind, text, at)?)?;
    Ok(message)
}

/// Returns the message where a text of this length hasn't one value.
pub(crate) fn not_one_message(len: usize, at: usize) -> &'static str
    ensures { result.now ≡ spec.not_one_message len at }
{
    if at == len { NO_VALUE } else { SECOND_VALUE }
}

/// Returns why a buffer isn't written, as it is said after the text's name.
pub(crate) fn unwritten_message(alloc: Global, error: ReplayError) -> Result<String, AllocError>
    ensures { IfOk result (λ text. string_bytes text ≡ spec.unwritten_message error) }
{
    match error {
        ReplayError::OutOfMemory => String::from_str(alloc, ": memory is refused"),
        ReplayError::TooLarge => String::from_str(
            alloc,
            ": its buffer is longer than 2147483647 bytes",
        ),
        ReplayError::BadStep { why, .. } => format!(in alloc;
            ": its buffer can't be written: {why}"
        ),
    }
}
