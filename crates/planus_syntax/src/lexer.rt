//! Bytes to tokens.

ghost use Rattle.std.specs.Prelude.{◌≡◌, ◌<◌, ◌≤◌, ◌+◌, length, IfOk, IfErr};
ghost use Rattle.std.specs.Prelude.{MatchOption};
ghost use Rattle.std.specs.Prelude.{Ok, false, true, List, [], ◌∷◌, ◌==◌};
ghost use Rattle.std.specs.Str as str_spec;
ghost use Rattle.planus_syntax.specs.Tokens as tokens_spec;
ghost use Rattle.planus_syntax.specs.Tokens.{begins};
ghost use Rattle.planus_syntax.specs.Lexing as lexing_spec;
ghost use Rattle.planus_syntax.specs.Cutting as spec;
ghost use Rattle.planus_syntax.specs.Placing.{StandsAt};
ghost use Rattle.planus_syntax.specs.Strings as strings_spec;
ghost use Rattle.planus_syntax.specs.Spelled.{closes};

use crate::number::is_number;
use crate::run::Run;
use crate::strings::{StringState, is_closed, is_nothing, is_quote, is_wrong, start, string_step};
use crate::token::{Lexeme, Token};
use std::alloc::{AllocError, AllocFailed, Global};

/// An error in the text of a token.
#[derive(Clone, Copy)]
pub enum LexFault {
    /// A word that begins with a digit or a sign is no number. The place is its end.
    BadNumber,
    /// A string has no end on its line.
    OpenString,
    /// An escape in a string is none of those that there are, or half of one, or a byte that is no
    /// UTF-8 with those beside it. The place is in it, or after it.
    Escape,
    /// A control character, as a tab, is in a string.
    Control,
    /// A string is not UTF-8. The place is its end.
    NotUtf8,
    /// A comment has no `*/`.
    OpenComment,
    /// A byte begins no token.
    Strange,
}

#[derive(Clone, Copy)]
pub(crate) enum LexError {
    OutOfMemory,
    /// `at` is the place in bytes from the text's start.
    Fault { fault: LexFault, at: usize },
}

impl From<AllocError> for LexError {
    ghost use Rattle.std.specs.Prelude.{◌≡◌};
    ghost use Rattle.planus_syntax.specs.declared.lexer.LexError.TheVariants.{OutOfMemory};

    ghost from_gives = { λ _ e. e ≡ OutOfMemory };

    fn from(_error: AllocError) -> LexError {
        LexError::OutOfMemory
    }
}

impl<T: Drop> From<AllocFailed<T>> for LexError {
    ghost use Rattle.std.specs.Prelude.{◌≡◌};
    ghost use Rattle.planus_syntax.specs.declared.lexer.LexError.TheVariants.{OutOfMemory};

    ghost from_gives = { λ _ e. e ≡ OutOfMemory };

    fn from(_error: AllocFailed<T>) -> LexError {
        LexError::OutOfMemory
    }
}

fn is_word_byte(b: u8) -> bool
    ensures { result ≡ tokens_spec.is_word_byte b }
{
    b.is_ascii_alphabetic() || b.is_ascii_digit() || b == b'_'
}

fn is_number_start(b: u8) -> bool
    ensures { result ≡ tokens_spec.is_number_start b }
{
    b.is_ascii_digit() || b == b'+' || b == b'-'
}

fn starts_number(bytes: &[u8]) -> bool
    ensures { result ≡ tokens_spec.starts_number bytes.now }
{
    match bytes.split_first() {
        Some((b'.', rest)) => match rest.split_first() {
            Some((next, _)) => next.is_ascii_digit(),
            None => false,
        },
        Some((first, _)) => is_number_start(*first),
        None => false,
    }
}

fn is_number_byte(b: u8) -> bool
    ensures { result ≡ tokens_spec.is_number_byte b }
{
    is_word_byte(b) || b == b'.' || b == b'+' || b == b'-'
}

pub(crate) fn is_blank(b: u8) -> bool
    ensures { result ≡ tokens_spec.is_blank b }
{
    b == b' ' || b == b'\n' || b == b'\t' || b == b'\r'
}

fn is_mark(b: u8) -> bool
    ensures { result ≡ tokens_spec.is_mark b }
{
    b"{}()[]:;,=.".contains(&b)
}

fn goes_on(run: Run, b: u8) -> bool
    ensures { result ≡ spec.in_run run b }
{
    match run {
        Run::Word => is_word_byte(b),
        Run::Number => is_number_byte(b),
        Run::Line => b != b'\n',
    }
}

fn split(run: Run, bytes: &[u8]) -> (&[u8], &[u8])
    ensures { spec.Splits (spec.in_run run) bytes.now result.0.now result.1.now }
{
    let mut length = 0;
    'bytes: for b in bytes {
        if !goes_on(run, *b) {
            return bytes.split_at(length);
        }
        length += 1;
    }
    (bytes, &[])
}

pub(crate) fn after(bytes: &[u8], byte: u8) -> Option<&[u8]>
    ensures { MatchOption result (begins (λ b. b == byte) bytes.now ≡ false)
        (λ rest. bytes.now ≡ byte ∷ rest.now) }
{
    match bytes.split_first() {
        Some((first, rest)) => { if *first == byte { Some(rest) } else { None } }
        None => None,
    }
}

/// `left` counts the bytes from the fault's place to the text's end.
#[derive(Clone, Copy)]
pub(crate) struct PlacedFault {
    fault: LexFault,
    left: usize,
}

fn word_at(bytes: &[u8]) -> (Option<Lexeme>, &[u8])
    requires start { begins tokens_spec.is_word_byte bytes.now ≡ true }
    requires letter { begins tokens_spec.is_number_start bytes.now ≡ false }
    ensures cuts { lexing_spec.lex_of bytes.now ≡ lexing_spec.with_front (spec.pieces_in result.0)
        (lexing_spec.lex_of result.1.now) }
    ensures starts { spec.Starts bytes.now result.0 result.1.now }
    ensures shorter { length result.1.now < length bytes.now }
{
    let (word, rest) = split(Run::Word, bytes);
    (Some(Lexeme::Word(word)), rest)
}

fn number_at(bytes: &[u8]) -> Result<(Option<Lexeme>, &[u8]), PlacedFault>
    requires { tokens_spec.starts_number bytes.now ≡ true }
    ensures cuts { spec.Cuts bytes.now result }
    ensures starts { IfOk result (λ x. spec.Starts bytes.now x.0 x.1.now) }
    ensures shorter { IfOk result (λ x. length x.1.now < length bytes.now) }
    ensures within { IfErr result (λ placed. placed.left ≤ length bytes.now) }
{
    let (number, rest) = split(Run::Number, bytes);
    if is_number(number) {
        Ok((Some(Lexeme::Number(number)), rest))
    } else {
        Err(PlacedFault {
            fault: LexFault::BadNumber,
            left: rest.len(),
        })
    }
}

fn is_utf8(bytes: &[u8]) -> bool
    ensures { result ≡ str_spec.is_utf8 bytes.now }
{
    match std::str::from_utf8(bytes) {
        Ok(_) => true,
        Err(_) => false,
    }
}

fn string_fault(state: StringState, b: u8) -> LexFault
    ensures { result ≡ lexing_spec.string_fault state b }
{
    match state {
        StringState::Plain { due } if is_nothing(due) => {
            if b == b'\n' {
                LexFault::OpenString
            } else {
                LexFault::Control
            }
        }
        _ => LexFault::Escape,
    }
}

/// Returns what follows the closing quote of a string.
fn string_end(quote: u8, bytes: &[u8]) -> Result<&[u8], PlacedFault>
    ensures { spec.Ends (spec.string_end quote strings_spec.start bytes.now) result }
{
    let mut state = start();
    let mut rest = bytes;
    'bytes: while let Some((b, after)) = rest.split_first() {
        let next = string_step(quote, state, *b);
        if is_closed(next) {
            return Ok(after);
        }
        if is_wrong(next) {
            return Err(PlacedFault {
                fault: string_fault(state, *b),
                left: rest.len(),
            });
        }
        state = next;
        rest = after;
    }
    Err(PlacedFault {
        fault: LexFault::OpenString,
        left: 0,
    })
}

fn string_at(bytes: &[u8]) -> Result<(Option<Lexeme>, &[u8]), PlacedFault>
    requires { begins strings_spec.is_quote bytes.now ≡ true }
    ensures cuts { spec.Cuts bytes.now result }
    ensures starts { IfOk result (λ x. spec.Starts bytes.now x.0 x.1.now) }
    ensures shorter { IfOk result (λ x. length x.1.now < length bytes.now) }
    ensures within { IfErr result (λ placed. placed.left ≤ length bytes.now) }
{
    let Some((quote, body)) = bytes.split_first() else {
        return Ok((None, bytes));
    };
    match string_end(*quote, body) {
        Ok(rest) => {
            let (text, _) = bytes.split_at(bytes.len() - rest.len());
            if is_utf8(text) {
                Ok((Some(Lexeme::Text(text)), rest))
            } else {
                Err(PlacedFault {
                    fault: LexFault::NotUtf8,
                    left: rest.len() + 1,
                })
            }
        }
        Err(placed) => Err(placed),
    }
}

fn after_end(bytes: &[u8]) -> Option<&[u8]>
    ensures { MatchOption result (closes bytes.now ≡ false)
        (λ rest. bytes.now ≡ 42 ∷ 47 ∷ rest.now) }
{
    match after(bytes, b'*') {
        Some(rest) => after(rest, b'/'),
        None => None,
    }
}

fn block_at(bytes: &[u8]) -> Result<&[u8], PlacedFault>
    ensures skips { spec.Skips (lexing_spec.lex_from lexing_spec.block bytes.now) result }
    ensures closes { IfOk result (λ rest. spec.Closes bytes.now rest.now) }
    ensures shorter { IfOk result (λ rest. length rest.now < length bytes.now) }
    ensures within { IfErr result (λ placed. placed.left ≤ length bytes.now) }
{
    let mut rest = bytes;
    'bytes: while let Some((_, next)) = rest.split_first() {
        if let Some(end) = after_end(rest) {
            return Ok(end);
        }
        rest = next;
    }
    Err(PlacedFault {
        fault: LexFault::OpenComment,
        left: 0,
    })
}

fn line_at(bytes: &[u8]) -> (Option<Lexeme>, &[u8])
    ensures cuts { lexing_spec.lex_from lexing_spec.slashes bytes.now
        ≡ lexing_spec.with_front (spec.pieces_in result.0) (lexing_spec.lex_of result.1.now) }
    ensures starts { spec.Starts (47 ∷ 47 ∷ bytes.now) result.0 result.1.now }
    ensures shorter { length result.1.now ≤ length bytes.now }
{
    match after(bytes, b'/') {
        Some(rest) => {
            let (line, rest) = split(Run::Line, rest);
            (Some(Lexeme::Doc(line)), rest)
        }
        None => {
            let (_, rest) = split(Run::Line, bytes);
            (None, rest)
        }
    }
}

fn comment_at(bytes: &[u8]) -> Result<(Option<Lexeme>, &[u8]), PlacedFault>
    ensures cuts { spec.Cuts (47 ∷ bytes.now) result }
    ensures starts { IfOk result (λ x. spec.Starts (47 ∷ bytes.now) x.0 x.1.now) }
    ensures shorter { IfOk result (λ x. length x.1.now < length bytes.now) }
    ensures within { IfErr result (λ placed. placed.left ≤ length bytes.now) }
{
    if let Some(rest) = after(bytes, b'/') {
        return Ok(line_at(rest));
    }
    match after(bytes, b'*') {
        Some(rest) => Ok((None, block_at(rest)?)),
        None => Err(PlacedFault {
            fault: LexFault::Strange,
            left: bytes.len(),
        }),
    }
}

pub(crate) fn token_at(bytes: &[u8]) -> Result<(Option<Lexeme>, &[u8]), PlacedFault>
    requires { 0 < length bytes.now }
    ensures cuts { spec.Cuts bytes.now result }
    ensures starts { IfOk result (λ x. spec.Starts bytes.now x.0 x.1.now) }
    ensures shorter { IfOk result (λ x. length x.1.now < length bytes.now) }
    ensures within { IfErr result (λ placed. placed.left ≤ length bytes.now) }
{
    let Some((first, rest)) = bytes.split_first() else {
        return Ok((None, bytes));
    };
    let first = *first;
    if starts_number(bytes) {
        number_at(bytes)
    } else if is_word_byte(first) {
        Ok(word_at(bytes))
    } else if is_blank(first) {
        Ok((None, rest))
    } else if is_mark(first) {
        Ok((Some(Lexeme::Mark(first)), rest))
    } else if is_quote(first) {
        string_at(bytes)
    } else if first == b'/' {
        comment_at(rest)
    } else {
        Err(PlacedFault {
            fault: LexFault::Strange,
            left: bytes.len(),
        })
    }
}

fn owned(alloc: Global, lexeme: Lexeme) -> Result<Token, AllocError>
    ensures { IfOk result (λ token. tokens_spec.piece_of token ≡ spec.cut_piece lexeme.entry) }
{
    match lexeme {
        Lexeme::Word(bytes) => Ok(Token::Word(Vec::from_slice(alloc, bytes)?)),
        Lexeme::Number(bytes) => Ok(Token::Number(Vec::from_slice(alloc, bytes)?)),
        Lexeme::Text(bytes) => Ok(Token::Text(Vec::from_slice(alloc, bytes)?)),
        Lexeme::Doc(bytes) => Ok(Token::Doc(Vec::from_slice(alloc, bytes)?)),
        Lexeme::Mark(byte) => Ok(Token::Mark(byte)),
    }
}

pub(crate) fn lex(alloc: Global, text: &[u8]) -> Result<Vec<Token>, LexError>
    ensures { lexing_spec.AnswersLex (length text.now) result (lexing_spec.lex_of text.now) }
{
    let mut tokens = Vec::new(alloc);
    let mut rest = text;
    while !rest.is_empty() {
        match token_at(rest) {
            Ok((token, after)) => {
                if let Some(token) = token {
                    let token = owned(alloc, token)?;
                    tokens.push(token)?;
                }
                rest = after;
            }
            Err(placed) => {
                let at = text.len() - placed.left;
                return Err(LexError::Fault {
                    fault: placed.fault,
                    at,
                });
            }
        }
    }
    Ok(tokens)
}

/// Returns where the token of this index begins, or where the text ends if it has no more tokens.
pub(crate) fn place_of(text: &[u8], index: usize) -> usize
    ensures within { result ≤ length text.now }
    ensures stands { (ps : List tokens_spec.Piece) → lexing_spec.lex_of text.now ≡ Ok ps
        → index ≤ length ps
        → StandsAt text.now ps index result }
{
    let mut left = index;
    let mut rest = text;
    while !rest.is_empty() {
        match token_at(rest) {
            Ok((Some(_), after)) => {
                if left == 0 {
                    return text.len() - rest.len();
                }
                left -= 1;
                rest = after;
            }
            Ok((None, after)) => rest = after,
            Err(_) => return text.len() - rest.len(),
        }
    }
    text.len()
}
