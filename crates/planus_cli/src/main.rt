//! The program `planus`: checks schemas of flatbuffers, prints them in their canonical layout,
//! shows what buffers hold by them, prints buffers as JSON and packs JSON as buffers, prints their
//! code as the files of a crate, draws their graphs, and says what breaks from one to another. A
//! command is a file of its name, and `json` is `print_json`; start at `program`.
#![tactic(auto)]

mod arguments;
mod binary;
mod changes;
mod check;
mod completions;
mod conform;
mod distance;
mod dot;
mod fault_texts;
mod file_error;
mod files;
mod format;
mod formatted;
mod identifier;
mod include;
mod json;
mod laws;
mod libraries;
mod meaning;
mod message;
mod near;
mod output;
mod pack_texts;
mod pairs;
mod parsed;
mod parts;
mod paths;
mod placed;
mod prefixed;
mod print_json;
mod program;
mod rattle;
mod report;
mod root;
mod said;
mod shown;
mod sources;
mod spots;
mod streams;
mod texts;
mod told;
mod view;
mod viewing;

use crate::program::run_program;
use std::io;
use std::process::ExitCode;

fn main(rt: HostRuntime) -> ExitCode {
    let mut writer = io::writer(&rt);
    let mut errors = rt.stderr();
    ExitCode::from(run_program(&rt, &mut writer, &mut errors))
}
