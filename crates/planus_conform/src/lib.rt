//! Whether code of a new schema reads as that of an old one: see [`conforms`].
#![tactic(auto)]

mod breaks;
mod conform;
mod defaults;
mod enums;
mod fields;
mod floats;
pub mod laws;
mod matching;
mod notes;
mod rename;
mod statements;
mod structs;
mod types;
mod unions;
mod ways;

pub use breaks::{Break, Change, Place, Way};
pub use conform::{body_if, conforms};
pub use defaults::same_number;
pub use matching::{named, renamed};
pub use notes::notes_of;
pub use rename::Rename;
