//! The syntax of JSON as flatc takes it: with names as keys, comments, trailing commas. It stands
//! on `std` alone. [`parse`] reads a text as values, each with its place: `Spelling` of `specs/` is
//! the grammar, and `Reading` says which fault is the first.
#![tactic(auto)]

macro_rules! or_return {
    ($read:expr) => {
        match $read {
            Ok(value) => value,
            Err(error) => return Err(error),
        }
    };
}

mod escapes;
mod fault_kind;
mod front;
mod json;
mod json_error;
mod laws;
mod member;
mod read_error;
mod strings;
mod text;
mod token;
mod tokens;
mod value;
mod values;

pub use fault_kind::FaultKind;
pub use json::Json;
pub use json_error::JsonError;
pub use laws::{one_content, one_spelling, spelling_found, spelling_read, strings_are_written};
pub use member::Member;
pub use text::parse;
pub use value::Value;
