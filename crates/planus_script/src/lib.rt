//! Scripts: lines that write and finish buffers, and what is printed for them. Start at [`run`].
#![tactic(auto)]

pub mod dump_run;
mod fields;
pub mod laws;
pub mod output;
pub mod print;
pub mod run;
pub mod script;
mod unions;
