//! What printed code is over: tables that are created of a struct of their fields, and the law that
//! each method of a view returns what was given for its field.

mod create;
mod finished;
mod sized_roots;

pub use create::{Built, Create};
pub use finished::finish_and_read;
pub use sized_roots::read_sized_root;
