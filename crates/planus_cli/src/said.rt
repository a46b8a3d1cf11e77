//! Help, version, and messages for wrong calls.

ghost use Rattle.std.specs.Prelude.{◌≡◌, ◌++◌, codes, map, true, false, IfOk};
ghost use Rattle.planus_cli.specs.SchemaTexts.{line_of};
ghost use Rattle.std.specs.Option.{option_map};
ghost use Rattle.planus_cli.specs.Arguments.{asked};
ghost use Rattle.planus_cli.specs.Arguments.{unknown_command as unknown_command_asked};
ghost use Rattle.planus_cli.specs.Arguments.{unknown_option as unknown_option_asked};
ghost use Rattle.planus_cli.specs.Arguments.{no_rename as no_rename_asked};
ghost use Rattle.planus_cli.specs.Near.{nearest};
ghost use Rattle.planus_cli.specs.Said as spec;
ghost use Rattle.planus_cli.specs.Completions as completions_spec;
ghost use Rattle.planus_cli.specs.Said.{Says};
ghost use Rattle.planus_cli.specs.Shown.{shown};
ghost use Rattle.std.specs.Io.KnownBytes.{Appends};

use crate::arguments::{Choice, Command, Request, Shell, before_equals};
use crate::completions::script;
use crate::near::nearest_word;
use crate::shown::put_shown;
use crate::streams::{CallError, say as say_line, write_out};
use std::alloc::{AllocError, Global};
use std::io::Write;

const VERSION: &str = "planus 0.1.0\n";

const HELP: &str = "\
planus reads schemas of flatbuffers, shows and packs buffers by them, and prints code.

usage: planus check [-I FOLDER].. SCHEMA..
       planus format [--write | --check] SCHEMA..
       planus view [OPTION].. SCHEMA BUFFER
       planus json [OPTION].. SCHEMA BUFFER
       planus binary [OPTION].. SCHEMA JSON
       planus rattle [--check] [--no-verified] [--c PREFIX] [-I FOLDER].. SCHEMA -o FOLDER
       planus dot [-I FOLDER].. SCHEMA
       planus conform [OPTION].. OLD NEW
       planus conform [OPTION].. --against FOLDER SCHEMA..
       planus completions bash|zsh|fish
       planus help [COMMAND], planus [COMMAND] --help, planus --version

SCHEMA, BUFFER, JSON, OLD and NEW are files, or - for standard input; after --, each
word is one. The value of an option may be in the same word: -IFOLDER, -oFOLDER,
--root=NAME. -h is --help, and -V is --version.
";

const PROGRAM_USAGE: &str =
    "usage: planus COMMAND ..; the commands are check, format, view, json, binary, rattle, dot, conform, completions and help\n";

const USAGE_OF_CHECK: &str = "usage: planus check [-I FOLDER].. SCHEMA..\n";

const DETAILS_OF_CHECK: &str = "
Says on standard error what is wrong with each schema and the files that it includes,
or nothing. Included files are sought beside the file and in each FOLDER.
Ends with 0 where nothing is wrong, with 1 where a schema has a fault, and with 2
where the call is wrong or a file can't be read.
";

const USAGE_OF_FORMAT: &str = "usage: planus format [--write | --check] SCHEMA..\n";

const DETAILS_OF_FORMAT: &str = "
Prints the canonical text of each schema, with its comments.

  --write  replaces each file by its text
  --check  prints nothing, and says which files don't have that text

Ends with 0 where nothing is wrong, with 1 where a schema has a fault or --check names
a file, and with 2 where the call is wrong or a file can't be read or written.
";

const USAGE_OF_VIEW: &str = "usage: planus view [OPTION].. SCHEMA BUFFER\n";

const DETAILS_OF_VIEW: &str = "
Prints what a buffer holds, a line a value, as far as the lines and bytes go.

  --root NAME      the root is this table, and not that of the schema
  --size-prefixed  BUFFER is any number of buffers, each after its size
  --lines N        at most N lines, and not 1000
  --bytes N        at most N bytes, and not 1048576
  -I FOLDER        included files are sought in this folder too

Ends with 0 where all is shown, with 1 where something is wrong with the buffer or
more follows, and with 2 where the call is wrong or a file can't be read.
";

const USAGE_OF_JSON: &str = "usage: planus json [OPTION].. SCHEMA BUFFER\n";

const DETAILS_OF_JSON: &str = "
Prints a buffer as JSON, a member or an item a line, with the fields that it has. If
something is wrong with the buffer it prints nothing, and says where and what.

  --root NAME      the root is this table, and not that of the schema
  --size-prefixed  BUFFER is any number of buffers, each after its size
  --compact        each buffer is one line, without spaces
  --strict         a float that JSON has no number for is in quotes
  --bytes N        at most N bytes for each buffer, and not 67108864
  -I FOLDER        included files are sought in this folder too

The JSON of a buffer is held whole before it is printed, so --bytes says how much
memory that takes. The JSON of a large buffer may want a greater N.
Ends with 0 where all is printed, with 1 where something is wrong with a buffer or its
JSON is longer, and with 2 where the call is wrong or a file can't be read.
";

const USAGE_OF_BINARY: &str = "usage: planus binary [OPTION].. SCHEMA JSON\n";

const DETAILS_OF_BINARY: &str = "
Packs JSON as a buffer by a schema, and writes it to standard output. If something is
wrong with the JSON it writes nothing, and says where and what.

  -o FILE          the buffer goes to this file, which is replaced only by a whole one
  --root NAME      the root is this table, and not that of the schema
  --size-prefixed  JSON is one value or more, each packed as a buffer after its size
  --identifier     buffers have the schema's file identifier
  --share          of a buffer equal strings and byte vectors are written once
  --omit-defaults  a field of a table that holds its default is left out
  --skip-unknown   a member of a table that no field has is left out, and no fault
  --bytes N        at most N bytes are written, and not 67108864
  -I FOLDER        included files are sought in this folder too

Ends with 0 where the buffer is written, with 1 where something is wrong with the JSON
or the buffer is longer, and with 2 where the call is wrong or a file can't be read or
written.
";

const USAGE_OF_RATTLE: &str =
    "usage: planus rattle [--check] [--no-verified] [--c PREFIX] [-I FOLDER].. SCHEMA -o FOLDER\n";

const DETAILS_OF_RATTLE: &str = "
Prints the code of a schema as a crate: its files in FOLDER, whose last word is the
crate's name. A file that has its text already is left alone.

  -o FOLDER        the folder of the crate, which is made if it isn't there
  --check          writes nothing, and says which files aren't what is printed
  --no-verified    prints no views of verified buffers, so that less is to be proved
  --c PREFIX       prints a crate with calls for C too, FOLDER_c, and in it PREFIX.h,
                   and PREFIX.hpp, PREFIX.py and PREFIX.rs for C++, Python and Rust;
                   the names of calls begin with PREFIX
  -I FOLDER        included files are sought in this folder too

Ends with 0 where all is printed, with 1 where the schema has a fault or something
that isn't supported, or --check names a file, and with 2 where the call is wrong or
a file can't be read or written.
";

const USAGE_OF_DOT: &str = "usage: planus dot [-I FOLDER].. SCHEMA\n";

const DETAILS_OF_DOT: &str = "
Prints the graph of a schema for Graphviz: a node for each declaration, with its
fields and their types, and an edge for each that names a declaration. For a picture,
planus dot a.fbs | dot -Tsvg -o a.svg. Included files are sought beside the file and
in each FOLDER.
Ends with 0 where the graph is printed, with 1 where the schema has a fault, and with
2 where the call is wrong or a file can't be read.
";

const USAGE_OF_CONFORM: &str = "usage: planus conform [OPTION].. OLD NEW
       planus conform [OPTION].. --against FOLDER SCHEMA..
";

const DETAILS_OF_CONFORM: &str = "
Says on standard error what breaks where the schema NEW replaces OLD: each change by
which code of one reads data of the other otherwise, and what to do instead. A note
says what changes your own code alone.

  --against FOLDER  SCHEMA is NEW, and OLD the file of its name in this folder
  --backward        only what breaks new code that reads old data
  --forward         only what breaks old code that reads new data
  --rename OLD=NEW  what is OLD in the old schema is NEW in the new one
  --json            a line of JSON on standard output for each change, for a program
  -I FOLDER         included files are sought in this folder too

Ends with 0 where nothing breaks, with 1 where something does or a schema has a fault,
and with 2 where the call is wrong or a file can't be read.
";

const USAGE_OF_COMPLETIONS: &str = "usage: planus completions bash|zsh|fish\n";

const DETAILS_OF_COMPLETIONS: &str = "
Prints the script by which this shell completes calls of planus: commands, their
options, and files. It says how it is used.
";

const NO_SHELL: &str = "planus: completions has one shell: bash, zsh or fish\n";

const NO_COMMAND: &str = "planus: no command is given\n";

const NO_SCHEMA: &str = "planus: no schema is named; - is standard input\n";

const EMPTY_FILE: &str = "planus: the name of a file is empty\n";

const INPUT_TWICE: &str = "planus: standard input is read once, and - stands here twice\n";

const NO_BUFFER: &str = "planus: view has a schema and a buffer\n";

const NO_BUFFER_FOR_JSON: &str = "planus: json has a schema and a buffer\n";

const NO_JSON: &str = "planus: binary has a schema and JSON\n";

const SEVERAL_SCHEMAS: &str = "planus: rattle has one schema\n";

const SEVERAL_FOR_DOT: &str = "planus: dot has one schema\n";

const NO_PAIR: &str = "planus: conform has an old schema and a new one, or --against\n";

const BACKWARD_AND_FORWARD: &str = "planus: conform has --backward or --forward, and not both\n";

const NO_OUTPUT: &str = "planus: no folder is given: -o FOLDER\n";

const WRITE_AND_CHECK: &str = "planus: format has --write or --check, and not both\n";

/// The exit status where all went well.
pub const CLEAN: u8 = 0;

/// The exit status where a schema has a fault.
pub const FAULTY: u8 = 1;

/// The exit status where a call is wrong or a file unavailable.
pub const FAILED: u8 = 2;

/// Writes a line, as [`say_line`], and returns [`FAILED`].
pub fn fail<X: Write>(
    alloc: Global,
    errors: &mut X,
    before: &str,
    name: &str,
    after: &str,
) -> Result<u8, CallError>
    ensures { IfOk result (λ status. (status ≡ 2) × Appends (X.contents errors.old)
        (X.contents errors.new) (line_of before.now name.now after.now)) }
{
    say_line(alloc, errors, before, name, after)?;
    Ok(FAILED)
}

/// What is written, and whether it says that the call is wrong.
#[derive(Drop)]
pub struct Said {
    pub wrong: bool,
    pub text: Vec<u8>,
}

#[tactic(auto, unfolding(crate::specs::Said::command_words))]
fn command_words() -> &'static [&'static str]
    ensures { map (λ w. w.now) result.now ≡ spec.command_words }
{
    &[
        "check",
        "format",
        "view",
        "json",
        "binary",
        "rattle",
        "dot",
        "conform",
        "completions",
        "help",
        "--help",
        "-h",
        "--version",
        "-V",
    ]
}

pub(crate) fn option_words(command: Command) -> &'static [&'static str]
    ensures { map (λ w. w.now) result.now ≡ completions_spec.option_words command }
{
    match command {
        Command::Check => &["-I", "--help", "-h"],
        Command::Format => &["--write", "--check", "--help", "-h"],
        Command::View => {
            &[
                "-I",
                "--root",
                "--size-prefixed",
                "--lines",
                "--bytes",
                "--help",
                "-h",
            ]
        }
        Command::Json => {
            &[
                "-I",
                "--root",
                "--size-prefixed",
                "--compact",
                "--strict",
                "--bytes",
                "--help",
                "-h",
            ]
        }
        Command::Binary => {
            &[
                "-I",
                "-o",
                "--root",
                "--size-prefixed",
                "--identifier",
                "--share",
                "--omit-defaults",
                "--skip-unknown",
                "--bytes",
                "--help",
                "-h",
            ]
        }
        Command::Rattle => {
            &[
                "-I",
                "-o",
                "--check",
                "--no-verified",
                "--c",
                "--help",
                "-h",
            ]
        }
        Command::Dot => &["-I", "--help", "-h"],
        Command::Conform => {
            &[
                "-I",
                "--backward",
                "--forward",
                "--rename",
                "--against",
                "--json",
                "--help",
                "-h",
            ]
        }
        Command::Completions => &["--help", "-h"],
    }
}

/// Returns what is said after a word that is none of these.
fn hint(alloc: Global, words: &[&str], word: &[u8]) -> Result<Vec<u8>, AllocError>
    ensures { IfOk result (λ text. text.items
        ≡ spec.call_hint (nearest (map (λ w. w.now) words.now) word.now)) }
{
    let Some(near) = nearest_word(words, word) else {
        return Vec::from_slice(alloc, b"see planus help");
    };
    let mut text = Vec::from_slice(alloc, b"did you mean `")?;
    text.extend_from_slice(near)?;
    text.extend_from_slice(b"`?")?;
    Ok(text)
}

fn help() -> &'static str
    ensures { result.now ≡ spec.help_text }
{
    HELP
}

/// Returns how a command is called, or the program.
#[tactic(auto, unfolding(crate::specs::Said::usage_of))]
fn usage_of(command: Option<Command>) -> &'static str
    ensures { result.now ≡ spec.usage_of command }
{
    match command {
        None => PROGRAM_USAGE,
        Some(Command::Check) => USAGE_OF_CHECK,
        Some(Command::Format) => USAGE_OF_FORMAT,
        Some(Command::View) => USAGE_OF_VIEW,
        Some(Command::Json) => USAGE_OF_JSON,
        Some(Command::Binary) => USAGE_OF_BINARY,
        Some(Command::Rattle) => USAGE_OF_RATTLE,
        Some(Command::Dot) => USAGE_OF_DOT,
        Some(Command::Conform) => USAGE_OF_CONFORM,
        Some(Command::Completions) => USAGE_OF_COMPLETIONS,
    }
}

fn details_of(command: Command) -> &'static str
    ensures { result.now ≡ spec.details_of command }
{
    match command {
        Command::Check => DETAILS_OF_CHECK,
        Command::Format => DETAILS_OF_FORMAT,
        Command::View => DETAILS_OF_VIEW,
        Command::Json => DETAILS_OF_JSON,
        Command::Binary => DETAILS_OF_BINARY,
        Command::Rattle => DETAILS_OF_RATTLE,
        Command::Dot => DETAILS_OF_DOT,
        Command::Conform => DETAILS_OF_CONFORM,
        Command::Completions => DETAILS_OF_COMPLETIONS,
    }
}

fn no_value(choice: Choice) -> &'static str
    ensures { result.now ≡ spec.no_value_text choice }
{
    match choice {
        Choice::Root => "planus: no name follows --root\n",
        Choice::Lines => "planus: no number follows --lines\n",
        Choice::Bytes => "planus: no number follows --bytes\n",
        Choice::Output => "planus: no folder follows -o\n",
        Choice::OutputFile => "planus: no file follows -o\n",
        Choice::Rename => "planus: no names follow --rename\n",
        Choice::Against => "planus: no folder follows --against\n",
        Choice::Foreign => "planus: no prefix follows --c\n",
        _ => "planus: no folder follows -I\n",
    }
}

fn empty_value(choice: Choice) -> &'static str
    ensures { result.now ≡ spec.empty_value_text choice }
{
    match choice {
        Choice::Root => "planus: the name of --root is empty\n",
        Choice::Lines => "planus: the number of --lines is empty\n",
        Choice::Bytes => "planus: the number of --bytes is empty\n",
        Choice::Output => "planus: the folder of -o is empty\n",
        Choice::OutputFile => "planus: the name of -o is empty\n",
        Choice::Against => "planus: the folder of --against is empty\n",
        Choice::Foreign => "planus: the prefix of --c is empty\n",
        _ => "planus: the folder of -I is empty\n",
    }
}

fn no_number(choice: Choice) -> &'static str
    ensures { result.now ≡ spec.no_number_text choice }
{
    match choice {
        Choice::Lines => ", the value of --lines, is no number",
        _ => ", the value of --bytes, is no number",
    }
}

fn said_text(alloc: Global, wrong: bool, text: &str) -> Result<Option<Said>, AllocError>
    ensures { IfOk result (λ said. option_map spec.said_view said ≡ spec.said_text wrong text.now) }
{
    let text = Vec::from_slice(alloc, text.as_bytes())?;
    Ok(Some(Said { wrong, text }))
}

fn help_of(alloc: Global, command: Command) -> Result<Option<Said>, AllocError>
    ensures { IfOk result (λ said. option_map spec.said_view said
        ≡ spec.said_text false (spec.help_of command)) }
{
    let mut text = Vec::from_slice(alloc, usage_of(Some(command)).as_bytes())?;
    text.extend_from_slice(details_of(command).as_bytes())?;
    Ok(Some(Said { wrong: false, text }))
}

fn wrong(alloc: Global, line: &str, command: Option<Command>) -> Result<Option<Said>, AllocError>
    ensures { IfOk result (λ said. option_map spec.said_view said
        ≡ spec.said_text true (line.now ++ spec.usage_of command)) }
{
    let mut text = Vec::from_slice(alloc, line.as_bytes())?;
    text.extend_from_slice(usage_of(command).as_bytes())?;
    Ok(Some(Said { wrong: true, text }))
}

fn about(
    alloc: Global,
    before: &str,
    word: &str,
    after: &str,
    hint: &[u8],
    command: Option<Command>,
) -> Result<Option<Said>, AllocError>
    ensures { IfOk result (λ said. option_map spec.said_view said ≡ spec.said_text true
        (codes "planus: " ++ (before.now ++ (codes "`" ++ (shown word.now ++ (codes "`"
        ++ (after.now ++ (hint.now ++ (codes "\n" ++ spec.usage_of command))))))))) }
{
    let mut text = Vec::from_slice(alloc, b"planus: ")?;
    text.extend_from_slice(before.as_bytes())?;
    text.push(b'`')?;
    put_shown(&mut text, word.as_bytes())?;
    text.push(b'`')?;
    text.extend_from_slice(after.as_bytes())?;
    text.extend_from_slice(hint)?;
    text.push(b'\n')?;
    text.extend_from_slice(usage_of(command).as_bytes())?;
    Ok(Some(Said { wrong: true, text }))
}

fn no_schema(command: Command) -> &'static str
    ensures { result.now ≡ spec.no_schema_text command }
{
    match command {
        Command::Completions => NO_SHELL,
        _ => NO_SCHEMA,
    }
}

fn no_buffer(command: Command) -> &'static str
    ensures { result.now ≡ spec.no_buffer_text command }
{
    match command {
        Command::Json => NO_BUFFER_FOR_JSON,
        Command::Binary => NO_JSON,
        _ => NO_BUFFER,
    }
}

fn several_schemas(command: Command) -> &'static str
    ensures { result.now ≡ spec.several_schemas_text command }
{
    match command {
        Command::Dot => SEVERAL_FOR_DOT,
        _ => SEVERAL_SCHEMAS,
    }
}

fn script_said(alloc: Global, shell: Shell) -> Result<Option<Said>, AllocError>
    ensures { IfOk result (λ said. option_map spec.said_view said ≡ spec.said_text false
        (completions_spec.script_of shell)) }
{
    let text = script(alloc, shell)?;
    Ok(Some(Said { wrong: false, text }))
}

fn unknown_command(alloc: Global, word: &str) -> Result<Option<Said>, AllocError>
    ensures { IfOk result (λ said. option_map spec.said_view said
        ≡ spec.said_of (unknown_command_asked word.now)) }
{
    let hint = hint(alloc, command_words(), word.as_bytes())?;
    about(alloc, "unknown command ", word, "; ", &hint, None)
}

fn unknown_option(alloc: Global, command: Command, word: &str) -> Result<Option<Said>, AllocError>
    ensures { IfOk result (λ said. option_map spec.said_view said
        ≡ spec.said_of (unknown_option_asked command word.now)) }
{
    let near = before_equals(word.as_bytes());
    let hint = hint(alloc, option_words(command), near)?;
    about(alloc, "unknown option ", word, "; ", &hint, Some(command))
}

fn no_rename(alloc: Global, word: &str) -> Result<Option<Said>, AllocError>
    ensures { IfOk result (λ said. option_map spec.said_view said
        ≡ spec.said_of (no_rename_asked word.now)) }
{
    let after = ", the value of --rename, isn't OLD=NEW";
    about(alloc, "", word, after, b"", Some(Command::Conform))
}

/// Returns what is written of a request that names no schema.
pub fn said_of(alloc: Global, request: &Request<'_>) -> Result<Option<Said>, AllocError>
    ensures { IfOk result (λ said. option_map spec.said_view said ≡ spec.said_of
        (asked request.now)) }
{
    match request {
        Request::Run { .. } => Ok(None),
        Request::Help => said_text(alloc, false, help()),
        Request::HelpOf(command) => help_of(alloc, *command),
        Request::Version => said_text(alloc, false, VERSION),
        Request::NoCommand => wrong(alloc, NO_COMMAND, None),
        Request::UnknownCommand(word) => unknown_command(alloc, *word),
        Request::UnknownOption(command, word) => unknown_option(alloc, *command, *word),
        Request::NoValue(command, choice) => wrong(alloc, no_value(*choice), Some(*command)),
        Request::NoSchema(command) => wrong(alloc, no_schema(*command), Some(*command)),
        Request::NoBuffer(command) => wrong(alloc, no_buffer(*command), Some(*command)),
        Request::EmptyValue(command, choice) => wrong(alloc, empty_value(*choice), Some(*command)),
        Request::EmptyFile(command) => wrong(alloc, EMPTY_FILE, Some(*command)),
        Request::InputTwice(command) => wrong(alloc, INPUT_TWICE, Some(*command)),
        Request::NoNumber(command, choice, word) => {
            about(alloc, "", *word, no_number(*choice), b"", Some(*command))
        }
        Request::SeveralSchemas(command) => wrong(alloc, several_schemas(*command), Some(*command)),
        Request::NoOutput => wrong(alloc, NO_OUTPUT, Some(Command::Rattle)),
        Request::WriteAndCheck => wrong(alloc, WRITE_AND_CHECK, Some(Command::Format)),
        Request::NoPair => wrong(alloc, NO_PAIR, Some(Command::Conform)),
        Request::BackwardAndForward => wrong(alloc, BACKWARD_AND_FORWARD, Some(Command::Conform)),
        Request::NoRename(word) => no_rename(alloc, *word),
        Request::Completions(shell) => script_said(alloc, *shell),
        Request::NoShell => wrong(alloc, NO_SHELL, Some(Command::Completions)),
    }
}

/// Writes help or the version, or reports a wrong call and how one is. Returns the exit status, or `None` for a
/// command.
///
/// Fails where writing fails.
pub fn say<W: Write, X: Write>(
    alloc: Global,
    request: &Request<'_>,
    writer: &mut W,
    errors: &mut X,
) -> Result<Option<u8>, CallError>
    ensures { IfOk result (λ status. Says (spec.said_of (asked request.now)) status
        (W.contents writer.old) (W.contents writer.new)
        (X.contents errors.old) (X.contents errors.new)) }
{
    match said_of(alloc, request)? {
        None => Ok(None),
        Some(said) => {
            if said.wrong {
                write_out(errors, &said.text)?;
                Ok(Some(FAILED))
            } else {
                write_out(writer, &said.text)?;
                Ok(Some(CLEAN))
            }
        }
    }
}
