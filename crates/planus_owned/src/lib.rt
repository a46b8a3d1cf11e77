//! Owned records: values that have all that a table holds, made of its view.
//!
//! [`own_plain`] and the functions beside it make a field of what an accessor returns. A record's
//! own function calls one of them for each field; what it returns is said by a list of these fields
//! (`specs/Records.antt`).
#![tactic(auto)]

mod depth;
mod errors;
mod owned;
mod tables;
mod texts;
mod values;

pub use depth::below;
pub use errors::{OwnError, Result};
pub use owned::Owned;
pub use tables::{own_table, own_table_if};
pub use texts::{own_text, own_text_if};
pub use values::{own_plain, own_plain_if, own_plain_or};
