//! Runs a script from standard input, or with `weapon` or `monster` prints a dump.
#![tactic(auto)]

mod ending;
mod equipment;
mod equipment_ref;
mod laws;
mod mode;
mod modes;
mod monster;
mod program;
#[cfg(test)]
mod tests;
mod weapon;

use planus_script::run::status;
use std::io;
use std::process::ExitCode;

fn main(rt: HostRuntime) -> ExitCode {
    let mut reader = rt.reader();
    let mut writer = io::writer(&rt);
    let mut errors = rt.stderr();
    let ending = program::run_program(&rt, &mut reader, &mut writer, &mut errors);
    ExitCode::from(status(&ending.answer))
}
