//! What is printed for a script.
ghost use Rattle.std.specs.Prelude.{◌≡◌, ◌++◌, map, length, IfOk, OnOk};
ghost use Rattle.std.specs.Prelude.{is_ok};
ghost use Rattle.std.specs.List.{flat_map};
ghost use Rattle.std.specs.String.{string_bytes};
ghost use Rattle.planus.specs.Replays.{finish_given, given_by};
ghost use Rattle.planus_script.specs.Printed.{hex_line};
ghost use Rattle.planus_script.specs.inner.Outputs.{NamesStep, PrintsAnswerOr};

use planus::{Finished, ReplayError};
use planus_dump::push_hex;
use std::alloc::{AllocError, Global};

fn push_line(text: &mut String, bytes: &[u8]) -> Result<(), AllocError>
    ensures { OnOk result (string_bytes text.new ≡ string_bytes text.old ++ hex_line bytes.now) }
{
    text.reserve(bytes.len().saturating_mul(3))?;
    for (index, byte) in bytes.iter().enumerate() {
        if index > 0 {
            text.push(' ')?;
        }
        push_hex(text, *byte)?;
    }
    text.push('\n')?;
    Ok(())
}

fn finished_text(alloc: Global, finished: &[Finished]) -> Result<String, AllocError>
    ensures { IfOk result (λ text. string_bytes text ≡ flat_map (λ finish. hex_line finish.bytes)
        (map finish_given finished.now)) }
{
    let mut text = String::new(alloc);
    for finish in finished {
        push_line(&mut text, finish.bytes.as_slice())?;
    }
    Ok(text)
}

/// Returns what is printed for a replay's result, by the numbers of the steps' lines.
pub fn answer_text(
    alloc: Global,
    numbers: &[usize],
    answer: &Result<Vec<Finished>, ReplayError>,
) -> Result<String, AllocError>
    requires { NamesStep (length numbers.now) answer.now }
    ensures { IfOk result (λ text. PrintsAnswerOr numbers.now (given_by answer.now)
        (is_ok answer.now) (string_bytes text)) }
{
    match answer {
        Ok(finished) => finished_text(alloc, finished.as_slice()),
        Err(ReplayError::TooLarge) => format!(in alloc; "too large\n"),
        Err(ReplayError::OutOfMemory) => format!(in alloc; "out of memory\n"),
        Err(ReplayError::BadStep { step, why }) => {
            let number = numbers[*step];
            format!(in alloc; "line {number}: {why}\n")
        }
    }
}
