//! Scripts by which shells complete calls.

ghost use Rattle.std.specs.Prelude.{◌≡◌, ◌++◌, [], map, IfOk, OnOk};
ghost use Rattle.planus_cli.specs.Completions as spec;
ghost use Rattle.planus_cli.specs.Completions.{script_of};
ghost use Rattle.planus_cli.specs.Completions.{row_text};

use crate::arguments::{Command, Shell};
use crate::said::option_words;
use std::alloc::{AllocError, Global};

/// What a script has round the words of a row, and round the words that a call may begin with.
#[derive(Clone, Copy)]
struct Frame {
    head: &'static str,
    before: &'static str,
    after_name: &'static str,
    after_options: &'static str,
    after_arguments: &'static str,
    first: &'static str,
    between: &'static str,
    tail: &'static str,
}

const BASH: Frame = Frame {
    head: "\
# Completes calls of planus in bash: source this file.
_planus() {
    local word=${COMP_WORDS[COMP_CWORD]} options= arguments=
    case ${COMP_WORDS[1]} in
",
    before: "        ",
    after_name: ") options='",
    after_options: "' arguments='",
    after_arguments: "' ;;\n",
    first: "    esac\n    if [ \"$COMP_CWORD\" = 1 ]; then\n        options='",
    between: "' arguments='",
    tail: "'
    fi
    case $word in
        -*) COMPREPLY=($(compgen -W \"$options\" -- \"$word\")) ;;
        *) COMPREPLY=($(compgen -W \"$arguments\" -- \"$word\")) ;;
    esac
}
complete -o default -F _planus planus
",
};

const ZSH: Frame = Frame {
    head: "\
#compdef planus
# Completes calls of planus in zsh: _planus in a folder of $fpath.
local -a options arguments
case $words[2] in
",
    before: "    ",
    after_name: ") options=(",
    after_options: ") arguments=(",
    after_arguments: ") ;;\n",
    first: "esac\nif (( CURRENT == 2 )); then\n    options=(",
    between: ") arguments=(",
    tail: ")
fi
if [[ $PREFIX == -* ]]; then
    compadd -a options
elif (( $#arguments )); then
    compadd -a arguments
else
    _files
fi
",
};

const FISH: Frame = Frame {
    head: "# Completes calls of planus in fish: planus.fish in its folder completions.\n",
    before: "complete -c planus -n '__fish_seen_subcommand_from ",
    after_name: "' -a '",
    after_options: "",
    after_arguments: "'\n",
    first: "complete -c planus -f -n '__fish_use_subcommand' -a '",
    between: "",
    tail: "'\n",
};

fn frame_of(shell: Shell) -> Frame
    ensures { spec.frame_view result ≡ spec.frame_of shell }
{
    match shell {
        Shell::Bash => BASH,
        Shell::Zsh => ZSH,
        Shell::Fish => FISH,
    }
}

fn names() -> &'static [&'static str]
    ensures { map (λ w. w.now) result.now ≡ spec.names }
{
    &[
        "check",
        "format",
        "view",
        "json",
        "binary",
        "rattle",
        "dot",
        "conform",
        "completions",
        "help",
    ]
}

fn shells() -> &'static [&'static str]
    ensures { map (λ w. w.now) result.now ≡ spec.shells }
{
    &["bash", "zsh", "fish"]
}

fn first_options() -> &'static [&'static str]
    ensures { map (λ w. w.now) result.now ≡ spec.first_options }
{
    &["--help", "-h", "--version", "-V"]
}

/// Adds words, each with a space after it.
fn put_words(text: &mut Vec<u8>, words: &[&str]) -> Result<(), AllocError>
    ensures { OnOk result (text.new.items ≡ text.old.items ++ spec.spaced (map
        (λ w. w.now) words.now)) }
{
    'words: for word in words {
        text.extend_from_slice(word.as_bytes())?;
        text.push(b' ')?;
    }
    Ok(())
}

/// Adds the options and the arguments of a command.
#[tactic(auto, unfolding(crate::specs::Completions::row_text))]
fn put_row(
    text: &mut Vec<u8>,
    frame: &Frame,
    name: &str,
    options: &[&str],
    arguments: &[&str],
) -> Result<(), AllocError>
    ensures { OnOk result (text.new.items ≡ text.old.items ++ row_text (spec.frame_view frame.now)
        name.now (map (λ w. w.now) options.now) (map (λ w. w.now) arguments.now)) }
{
    text.extend_from_slice(frame.before.as_bytes())?;
    text.extend_from_slice(name.as_bytes())?;
    text.extend_from_slice(frame.after_name.as_bytes())?;
    put_words(text, options)?;
    text.extend_from_slice(frame.after_options.as_bytes())?;
    put_words(text, arguments)?;
    text.extend_from_slice(frame.after_arguments.as_bytes())?;
    Ok(())
}

/// Adds the row of a command whose arguments are files.
fn put_command(
    text: &mut Vec<u8>,
    frame: &Frame,
    name: &str,
    command: Command,
) -> Result<(), AllocError>
    ensures { OnOk result (text.new.items ≡ text.old.items ++ row_text (spec.frame_view frame.now)
        name.now (spec.option_words command) []) }
{
    put_row(text, frame, name, option_words(command), &[])
}

/// Adds the rows of `completions` and `help`.
fn put_other_rows(text: &mut Vec<u8>, frame: &Frame) -> Result<(), AllocError>
    ensures { OnOk result (text.new.items
        ≡ text.old.items ++ spec.other_rows (spec.frame_view frame.now)) }
{
    let options = option_words(Command::Completions);
    put_row(text, frame, "completions", options, shells())?;
    put_row(text, frame, "help", &[], names())
}

fn put_rows(text: &mut Vec<u8>, frame: &Frame) -> Result<(), AllocError>
    ensures { OnOk result (text.new.items ≡ text.old.items ++ spec.rows_text
        (spec.frame_view frame.now)) }
{
    put_command(text, frame, "check", Command::Check)?;
    put_command(text, frame, "format", Command::Format)?;
    put_command(text, frame, "view", Command::View)?;
    put_command(text, frame, "json", Command::Json)?;
    put_command(text, frame, "binary", Command::Binary)?;
    put_command(text, frame, "rattle", Command::Rattle)?;
    put_command(text, frame, "dot", Command::Dot)?;
    put_command(text, frame, "conform", Command::Conform)?;
    put_other_rows(text, frame)
}

/// Adds the options that a call may begin with.
fn put_first_options(text: &mut Vec<u8>) -> Result<(), AllocError>
    ensures { OnOk result (text.new.items ≡ text.old.items ++ spec.spaced spec.first_options) }
{
    put_words(text, first_options())
}

/// Adds the commands.
fn put_names(text: &mut Vec<u8>) -> Result<(), AllocError>
    ensures { OnOk result (text.new.items ≡ text.old.items ++ spec.spaced spec.names) }
{
    put_words(text, names())
}

#[tactic(auto, unfolding(crate::specs::Completions::script_in))]
fn script_in(alloc: Global, frame: &Frame) -> Result<Vec<u8>, AllocError>
    ensures { IfOk result (λ text. text.items ≡ spec.script_in (spec.frame_view frame.now)) }
{
    let mut text = Vec::from_slice(alloc, frame.head.as_bytes())?;
    put_rows(&mut text, frame)?;
    text.extend_from_slice(frame.first.as_bytes())?;
    put_first_options(&mut text)?;
    text.extend_from_slice(frame.between.as_bytes())?;
    put_names(&mut text)?;
    text.extend_from_slice(frame.tail.as_bytes())?;
    Ok(text)
}

/// Returns the script by which a shell completes calls.
#[tactic(auto, unfolding(crate::specs::Completions::script_of))]
pub fn script(alloc: Global, shell: Shell) -> Result<Vec<u8>, AllocError>
    ensures { IfOk result (λ text. text.items ≡ script_of shell) }
{
    script_in(alloc, &frame_of(shell))
}
