//! What printed exports for C stand on: calls over a buffer and the position of a table in it, which
//! answer by a status and store what they read. No position and no byte can do harm.
//!
//! Begin with [`read_value_or`]. Over `planus`'s accessors of tables.
#![tactic(auto)]

mod encoded;
mod fault_place;
pub mod laws;
mod member;
mod position;
mod span;
mod status;
mod tables;
#[cfg(test)]
mod tests;
mod texts;
mod there;
mod unions;
mod values;
mod vectors;
mod verifying;

pub use encoded::{read_bytes, read_bytes_if, read_bytes_or};
pub use fault_place::{FaultPlace, NOWHERE};
pub use member::Member;
pub use position::Position;
pub use span::Span;
pub use status::{ABSENT, OK, TOO_DEEP, TOO_MANY};
pub use tables::{read_table, read_table_if};
pub use texts::{read_text, read_text_if};
pub use there::{read_bytes_at, read_bytes_behind, read_sized, read_text_at};
pub use unions::{read_union, read_union_if, read_union_item};
pub use values::{read_value, read_value_if, read_value_or};
pub use vectors::{
    read_items, read_items_if, read_tables, read_tables_if, read_texts, read_texts_if,
};
pub use verifying::verify;
