//! Scripts to steps.

ghost use Rattle.std.specs.Prelude.{◌≡◌, ℕ, ◌+◌, ◌-◌, ◌<◌, ◌≤◌, ◌==◌, List, [], ◌∷◌, length};
ghost use Rattle.std.specs.Prelude.{Result, Ok, Err, MatchOption};
ghost use Rattle.std.specs.Prelude.{unwrap_or, OnOk, OnErr, ◌++◌, map, IfOk, IfSome, IsOk};
ghost use Rattle.std.specs.List.{slice_split, position, list_all, after_first};
ghost use Rattle.std.specs.Option.{option_copied, option_map};
ghost use Rattle.std.specs.Char.{is_ascii_digit};
ghost use Rattle.std.specs.Int.{is_in_range};
ghost use Rattle.planus_script.specs.Words.{words_of, words_behind, cut_at, number_of, numbers_of};
ghost use Rattle.planus_script.specs.Words.{items_of};
ghost use Rattle.planus_script.specs.Script as spec;
ghost use Rattle.planus_script.specs.Asking.{AsksForItems, AsksForBytes, AsksForStruct};
ghost use Rattle.planus_script.specs.Asking.{AsksForStep};
ghost use Rattle.planus_script.specs.Asking.{AsksForWords, AsksForLine, AsksForLines};
ghost use Rattle.planus_script.specs.inner.Steps.{AnswersCommand, AnswersLine, AnswersScript};
ghost use Rattle.planus_script.specs.inner.Steps.{read_of};
ghost use Rattle.planus_script.specs.inner.Steps.{AnswersList, bytes_or_fault};
ghost use Rattle.planus.specs.Steps as step;
ghost use Rattle.planus.specs.Steps.{bare_step, front_of};

use crate::fields::table;
use crate::unions::unions;
use planus::Step;
use std::alloc::{AllocError, AllocFailed, Global};
use std::error::Error;
use std::fmt;

/// The error of a line.
#[derive(Clone, Copy, Debug, PartialEq, Eq)]
pub enum ReadFault {
    /// The line isn't UTF-8.
    NotUtf8,
    /// The first word is no command, or the command has another number of words.
    UnknownCommand,
    /// A number isn't one to twenty decimal digits, or is too great.
    BadNumber,
    /// Bytes aren't an even number of hexadecimal digits, or a word follows them.
    BadHex,
    /// A field isn't of the form `S=u8:N`, `S=u16:N`, `S=u32:N`, `S=u64:N`, `S=ref:I`, `S=tags:I`
    /// or `S=values:I`; or a union isn't of the form `T:I`, or its tag is above 255.
    BadField,
    /// A file identifier isn't four bytes from `!` to `~`.
    BadIdentifier,
}

impl fmt::Display for ReadFault {
    ghost use Rattle.planus_script.specs.Texts.{read_fault_text};
    ghost use Rattle.std.specs.Prelude.{Some};

    ghost output = { λ fault. Some (read_fault_text fault) };

    fn fmt<W: fmt::Write>(&self, f: &mut fmt::Formatter<W>) -> fmt::Result {
        let text = match self {
            ReadFault::NotUtf8 => "not utf-8",
            ReadFault::UnknownCommand => "unknown command",
            ReadFault::BadNumber => "bad number",
            ReadFault::BadHex => "bad hex",
            ReadFault::BadField => "bad field",
            ReadFault::BadIdentifier => "bad identifier",
        };
        write!(f, "{text}")
    }
}

impl Error for ReadFault {}

/// Why a script could not be read.
#[derive(Clone, Copy, Debug, PartialEq, Eq)]
pub enum ParseError {
    /// An allocation failed.
    OutOfMemory,
    /// The first line with an error, counted from 1.
    Line { number: usize, fault: ReadFault },
}

impl fmt::Display for ParseError {
    ghost use Rattle.planus_script.specs.Texts.{parse_error_text};
    ghost use Rattle.std.specs.Prelude.{Some};

    ghost output = { λ error. Some (parse_error_text error) };

    fn fmt<W: fmt::Write>(&self, f: &mut fmt::Formatter<W>) -> fmt::Result {
        match self {
            ParseError::OutOfMemory => write!(f, "out of memory"),
            ParseError::Line { number, fault } => write!(f, "line {number}: {fault}"),
        }
    }
}

impl Error for ParseError {}

impl From<AllocError> for ParseError {
    ghost use Rattle.std.specs.Prelude.{◌≡◌};
    ghost use Rattle.planus_script.specs.declared.script.ParseError.TheVariants.{OutOfMemory};

    ghost from_gives = { λ _ e. e ≡ OutOfMemory };

    fn from(_error: AllocError) -> ParseError {
        ParseError::OutOfMemory
    }
}

impl<T: Drop> From<AllocFailed<T>> for ParseError {
    ghost use Rattle.std.specs.Prelude.{◌≡◌};
    ghost use Rattle.planus_script.specs.declared.script.ParseError.TheVariants.{OutOfMemory};

    ghost from_gives = { λ _ e. e ≡ OutOfMemory };

    fn from(_error: AllocFailed<T>) -> ParseError {
        ParseError::OutOfMemory
    }
}

/// The steps of a script, and the numbers of their lines.
#[derive(Debug, Drop)]
pub struct Script {
    /// The number of each step's line, from 1.
    pub numbers: Vec<usize>,
    /// The steps, in order.
    pub steps: Vec<Step>,
}

#[derive(Clone, Copy, Debug, PartialEq, Eq)]
pub(crate) enum LineError {
    OutOfMemory,
    Fault(ReadFault),
}

impl From<AllocError> for LineError {
    ghost use Rattle.std.specs.Prelude.{◌≡◌};
    ghost use Rattle.planus_script.specs.declared.script.LineError.TheVariants.{OutOfMemory};

    ghost from_gives = { λ _ e. e ≡ OutOfMemory };

    fn from(_error: AllocError) -> LineError {
        LineError::OutOfMemory
    }
}

impl<T: Drop> From<AllocFailed<T>> for LineError {
    ghost use Rattle.std.specs.Prelude.{◌≡◌};
    ghost use Rattle.planus_script.specs.declared.script.LineError.TheVariants.{OutOfMemory};

    ghost from_gives = { λ _ e. e ≡ OutOfMemory };

    fn from(_error: AllocFailed<T>) -> LineError {
        LineError::OutOfMemory
    }
}

impl From<ReadFault> for LineError {
    ghost use Rattle.std.specs.Prelude.{◌≡◌};
    ghost use Rattle.planus_script.specs.declared.script.LineError.TheVariants.{Fault};

    ghost from_gives = { λ fault e. e ≡ Fault fault };

    fn from(fault: ReadFault) -> LineError {
        LineError::Fault(fault)
    }
}

fn line_end(text: &[u8]) -> Option<usize>
    ensures { result ≡ position (λ b. b == 10) text.now }
{
    text.iter().position(|byte| *byte == b'\n')
}

fn first_line(text: &[u8]) -> (&[u8], Option<&[u8]>)
    ensures shorter { IfSome result.1 (λ more. length more.now < length text.now) }
    ensures lines { MatchOption result.1 (slice_split (λ b. b == 10) text.now ≡ result.0.now ∷ [])
        (λ more. slice_split (λ b. b == 10) text.now
        ≡ result.0.now ∷ slice_split (λ b. b == 10) more.now) }
{
    match line_end(text) {
        None => (text, None),
        Some(end) => (&text[..end], Some(&text[end + 1..])),
    }
}

fn is_digits(word: &str) -> bool
    ensures { result ≡ list_all is_ascii_digit word.now }
{
    word.bytes().all(|byte| byte.is_ascii_digit())
}

pub(crate) fn number(word: &str) -> std::result::Result<u64, ReadFault>
    ensures { result ≡ number_of word.now }
{
    if word.len() > 20 || !is_digits(word) {
        return Err(ReadFault::BadNumber);
    }
    match word.parse::<u64>() {
        Ok(number) => Ok(number),
        Err(_) => Err(ReadFault::BadNumber),
    }
}

pub(crate) fn first_word(line: &str) -> (&str, Option<&str>)
    ensures shorter { IfSome (option_copied result.1) (λ more. length more < length line.now) }
    ensures words { words_of line.now ≡ result.0.now ∷ words_behind (option_copied result.1) }
    ensures rest { after_first (λ b. b == 32) line.now ≡ unwrap_or (option_copied result.1) [] }
{
    match line.split_once(' ') {
        None => (line, None),
        Some((word, rest)) => (word, Some(rest)),
    }
}

pub(crate) fn cut(word: &str, character: char) -> Option<(&str, &str)>
    requires { character < 128 }
    ensures { option_map (λ parts. (parts.0.now, parts.1.now)) result
        ≡ cut_at character word.now }
{
    word.split_once(character)
}

fn is_graphic(word: &str) -> bool
    ensures { result ≡ list_all (is_in_range 33 126) word.now }
{
    word.bytes().all(|byte| (33..=126).contains(&byte))
}

fn identifier(word: &str) -> std::result::Result<[u8; 4], ReadFault>
    ensures { result ≡ spec.identifier_of word.now }
{
    if word.len() != 4 || !is_graphic(word) {
        return Err(ReadFault::BadIdentifier);
    }
    match word.as_bytes().first_chunk::<4>() {
        Some(bytes) => Ok(*bytes),
        None => Err(ReadFault::BadIdentifier),
    }
}

fn finish(words: Option<&str>, sized: bool) -> std::result::Result<Step, ReadFault>
    ensures { AnswersCommand result
        (spec.finish_of (front_of sized) (words_behind (option_copied words.entry))) }
{
    let Some(words) = words else {
        return Err(ReadFault::UnknownCommand);
    };
    let (root, words) = first_word(words);
    let Some(words) = words else {
        return finish_plain(root, sized);
    };
    let (name, words) = first_word(words);
    match words {
        None => finish_named(root, name, sized),
        Some(_) => Err(ReadFault::UnknownCommand),
    }
}

fn finish_plain(root: &str, sized: bool) -> std::result::Result<Step, ReadFault>
    ensures { AnswersCommand result (spec.finish_at (front_of sized) (number_of root.now)) }
{
    let root = number(root)? as usize;
    Ok(finish_step(root, None, sized))
}

fn finish_named(root: &str, name: &str, sized: bool) -> std::result::Result<Step, ReadFault>
    ensures { AnswersCommand result
        (spec.identified_at (front_of sized) (number_of root.now) (spec.identifier_of name.now)) }
{
    let root = number(root)? as usize;
    let id = Some(identifier(name)?);
    Ok(finish_step(root, id, sized))
}

fn finish_step(root: usize, id: Option<[u8; 4]>, sized: bool) -> Step
    ensures { bare_step result ≡ step.finish (front_of sized) root id }
{
    if sized {
        Step::FinishSized { root, id }
    } else {
        Step::Finish { root, id }
    }
}

/// Returns the byte of two hexadecimal digits.
pub fn byte_of(high: u8, low: u8) -> Option<u8>
    ensures { result ≡ spec.byte_of high low }
{
    let high = char::from(high).to_digit(16)?;
    let low = char::from(low).to_digit(16)?;
    Some((high * 16 + low) as u8)
}

fn hex_bytes(alloc: Global, digits: &[u8]) -> std::result::Result<Vec<u8>, LineError>
    ensures { AnswersList result (bytes_or_fault (spec.hex_bytes digits.now))
        (2 ≤ length digits.now) }
{
    let mut bytes = Vec::with_capacity(alloc, digits.len() / 2)?;
    let mut rest = digits;
    while let [high, low, more @ ..] = rest {
        match byte_of(*high, *low) {
            Some(byte) => bytes.push(byte)?,
            None => return Err(LineError::Fault(ReadFault::BadHex)),
        }
        rest = more;
    }
    match rest {
        [] => Ok(bytes),
        _ => Err(LineError::Fault(ReadFault::BadHex)),
    }
}

fn bytes(alloc: Global, words: Option<&str>) -> std::result::Result<Step, LineError>
    ensures { let words = words_behind (option_copied words.entry) in
        AnswersLine result (spec.bytes_of words) (AsksForBytes words) }
{
    let Some(words) = words else {
        return Ok(Step::Bytes(Vec::new(alloc)));
    };
    let (digits, words) = first_word(words);
    match words {
        None => bytes_in(alloc, digits),
        Some(_) => Err(LineError::Fault(ReadFault::BadHex)),
    }
}

fn bytes_in(alloc: Global, digits: &str) -> std::result::Result<Step, LineError>
    ensures { AnswersLine result (spec.bytes_step (spec.bytes_in digits.now))
        (2 ≤ length digits.now) }
{
    if digits.is_empty() {
        return Err(LineError::Fault(ReadFault::BadHex));
    }
    Ok(Step::Bytes(hex_bytes(alloc, digits.as_bytes())?))
}

fn structure(alloc: Global, words: Option<&str>) -> std::result::Result<Step, LineError>
    ensures { let words = words_behind (option_copied words.entry) in
        AnswersLine result (spec.struct_of words) (AsksForStruct words) }
{
    let Some(words) = words else {
        return Err(LineError::Fault(ReadFault::UnknownCommand));
    };
    let (alignment, words) = first_word(words);
    let Some(words) = words else {
        return Err(LineError::Fault(ReadFault::UnknownCommand));
    };
    let (digits, words) = first_word(words);
    match words {
        None => struct_in(alloc, alignment, digits),
        Some(_) => Err(LineError::Fault(ReadFault::UnknownCommand)),
    }
}

fn struct_in(alloc: Global, alignment: &str, digits: &str) -> std::result::Result<Step, LineError>
    ensures { AnswersLine result (spec.struct_with (number_of alignment.now)
        (spec.bytes_in digits.now))
        (IsOk (number_of alignment.now) × (2 ≤ length digits.now)) }
{
    let alignment = number(alignment)?.min(255) as u8;
    if digits.is_empty() {
        return Err(LineError::Fault(ReadFault::BadHex));
    }
    let bytes = hex_bytes(alloc, digits.as_bytes())?;
    Ok(Step::Struct { alignment, bytes })
}

pub(crate) trait FromWord: Sized + Drop {
    ghost use Rattle.planus_script.specs.declared.script.ReadFault.{ReadFault};

    ghost said: { List ℕ → Result Self ReadFault };

    fn from_word(word: &str) -> std::result::Result<Self, ReadFault>
        ensures { result ≡ said word.now };
}

impl FromWord for u64 {
    ghost said = { number_of };

    fn from_word(word: &str) -> std::result::Result<u64, ReadFault> {
        number(word)
    }
}

pub(crate) fn items<T: FromWord>(
    alloc: Global,
    words: Option<&str>,
) -> std::result::Result<Vec<T>, LineError>
    ensures { let words = words_behind (option_copied words.entry) in
        AnswersList result (items_of T.said words) (AsksForItems T.said words) }
{
    let mut items = Vec::new(alloc);
    let mut rest = words;
    while let Some(text) = rest {
        let (word, more) = first_word(text);
        items.push(T::from_word(word)?)?;
        rest = more;
    }
    Ok(items)
}

fn indexes(alloc: Global, numbers: &[u64]) -> std::result::Result<Vec<usize>, AllocError>
    ensures ok { IfOk result (λ indexes. indexes.items ≡ numbers.now) }
    ensures err { OnErr result (0 < length numbers.now) }
{
    let mut indexes = Vec::with_capacity(alloc, numbers.len())?;
    for number in numbers {
        indexes.push(*number as usize)?;
    }
    Ok(indexes)
}

fn list(alloc: Global, width: u8, words: Option<&str>) -> std::result::Result<Step, LineError>
    ensures { let words = words_behind (option_copied words.entry) in
        AnswersLine result (spec.list_step (step.numbers width) (numbers_of words))
        (AsksForItems number_of words) }
{
    let items = items::<u64>(alloc, words)?;
    Ok(Step::Numbers { width, items })
}

fn refs(alloc: Global, words: Option<&str>) -> std::result::Result<Step, LineError>
    ensures { let words = words_behind (option_copied words.entry) in
        AnswersLine result (spec.list_step step.refs (numbers_of words))
        (AsksForItems number_of words) }
{
    let items = items::<u64>(alloc, words)?;
    Ok(Step::Refs(indexes(alloc, items.as_slice())?))
}

fn clear(words: Option<&str>) -> std::result::Result<Step, ReadFault>
    ensures { AnswersCommand result (spec.clear_of (words_behind (option_copied words.entry))) }
{
    match words {
        None => Ok(Step::Clear),
        Some(_) => Err(ReadFault::UnknownCommand),
    }
}

fn is_skipped(line: &[u8]) -> bool
    ensures { result ≡ spec.is_skipped line.now }
{
    match line {
        [] => true,
        [first, ..] => *first == b'#',
    }
}

#[derive(Clone, Copy)]
enum Command {
    Text,
    Bytes,
    Numbers { width: u8 },
    Refs,
    Unions,
    Struct,
    Table,
    Finish { sized: bool },
    Clear,
}

fn of_contents(word: &str) -> Option<Command>
    ensures { result ≡ spec.contents_named word.now }
{
    if word == "text" {
        Some(Command::Text)
    } else if word == "bytes" {
        Some(Command::Bytes)
    } else if word == "u16" {
        Some(Command::Numbers { width: 2 })
    } else if word == "u32" {
        Some(Command::Numbers { width: 4 })
    } else if word == "u64" {
        Some(Command::Numbers { width: 8 })
    } else {
        None
    }
}

fn of_steps(word: &str) -> Option<Command>
    ensures { result ≡ spec.steps_named word.now }
{
    if word == "refs" {
        Some(Command::Refs)
    } else if word == "unions" {
        Some(Command::Unions)
    } else if word == "struct" {
        Some(Command::Struct)
    } else if word == "table" {
        Some(Command::Table)
    } else if word == "finish" {
        Some(Command::Finish { sized: false })
    } else if word == "sized" {
        Some(Command::Finish { sized: true })
    } else if word == "clear" {
        Some(Command::Clear)
    } else {
        None
    }
}

fn named(word: &str) -> Option<Command>
    ensures { result ≡ spec.command_named word.now }
{
    match of_contents(word) {
        Some(command) => Some(command),
        None => of_steps(word),
    }
}

fn step_by(
    alloc: Global,
    command: Command,
    rest: Option<&str>,
) -> std::result::Result<Step, LineError>
    ensures { let rest = option_copied rest.entry in
        AnswersLine result (spec.step_by command (unwrap_or rest []) (words_behind rest))
        (AsksForStep command (words_behind rest)) }
{
    match command {
        Command::Text => Ok(Step::Text(String::from_str(alloc, rest.unwrap_or(""))?)),
        Command::Bytes => bytes(alloc, rest),
        Command::Numbers { width } => list(alloc, width, rest),
        Command::Refs => refs(alloc, rest),
        Command::Unions => unions(alloc, rest),
        Command::Struct => structure(alloc, rest),
        Command::Table => table(alloc, rest),
        Command::Finish { sized } => Ok(finish(rest, sized)?),
        Command::Clear => Ok(clear(rest)?),
    }
}

fn step_of_text(alloc: Global, line: &str) -> std::result::Result<Step, LineError>
    ensures { AnswersLine result (spec.command_of_words line.now (words_of line.now))
        (AsksForWords (words_of line.now)) }
{
    let (word, rest) = first_word(line);
    match named(word) {
        Some(command) => step_by(alloc, command, rest),
        None => Err(LineError::Fault(ReadFault::UnknownCommand)),
    }
}

fn step_of(alloc: Global, line: &[u8]) -> std::result::Result<Step, LineError>
    ensures { AnswersLine result (spec.command_of line.now) (AsksForLine line.now) }
{
    match str::from_utf8(line) {
        Ok(text) => step_of_text(alloc, text),
        Err(_) => Err(LineError::Fault(ReadFault::NotUtf8)),
    }
}

impl Script {
    fn new(alloc: Global) -> Script
        ensures { read_of result ≡ record { numbers = []; commands = [] } }
    {
        Script {
            numbers: Vec::new(alloc),
            steps: Vec::new(alloc),
        }
    }

    fn push(&mut self, number: usize, step: Step) -> std::result::Result<(), AllocError>
        ensures ok { OnOk result (read_of self.new ≡ record {
          numbers = self.old.numbers.items ++ number ∷ [];
          commands = map bare_step (self.old.steps.items ++ step ∷ []);
        }) }
    {
        self.numbers.push(number)?;
        self.steps.push(step)?;
        Ok(())
    }
}

/// Returns the steps of a script, or the first line with an error.
pub fn parse(alloc: Global, input: &[u8]) -> std::result::Result<Script, ParseError>
    ensures { AnswersScript result (spec.script_of input.now) (AsksForLines
        (spec.lines_of input.now)) }
{
    let mut script = Script::new(alloc);
    let mut number = 0;
    let mut rest = Some(input);
    while let Some(text) = rest {
        let (line, more) = first_line(text);
        rest = more;
        number += 1;
        if is_skipped(line) {
            continue;
        }
        let step = match step_of(alloc, line) {
            Ok(step) => step,
            Err(LineError::OutOfMemory) => return Err(ParseError::OutOfMemory),
            Err(LineError::Fault(fault)) => return Err(ParseError::Line { number, fault }),
        };
        script.push(number, step)?;
    }
    Ok(script)
}
