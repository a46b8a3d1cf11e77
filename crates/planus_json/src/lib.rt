//! A buffer as JSON, by a schema that is a value: the text of what its readers return, or the first
//! error in it. It stands on the readings of `planus_dump`, and walks over them by itself.
//! Start with [`json`].
#![tactic(auto)]

mod enums;
mod fixed;
mod floats;
mod json_error;
mod layout;
mod leaves;
mod printer;
mod readings;
mod strings;
mod unions;
mod walk;
mod whole;

pub use json_error::{Fault, JsonError};
pub use layout::Layout;
pub use whole::json;
