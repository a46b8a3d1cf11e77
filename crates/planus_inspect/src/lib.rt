//! From what a schema means to what a dump reads: see [`dump_schema`](schemas::dump_schema).
#![tactic(auto)]

mod enums;
mod kinds;
mod names;
mod schemas;
mod structs;
mod tables;
mod unions;

pub use schemas::dump_schema;
