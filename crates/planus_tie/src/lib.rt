//! Printed text, read again: the accessors of tables and of their verified views, the look-up of both
//! by a key, the lines of what is created, the schema's value, enums, unions, structs, flags, the root
//! and the file identifier are those that a schema wants.
#![tactic(auto)]

mod bare;
mod calls;
mod constants;
mod defaults;
mod entries;
mod enums;
mod field_texts;
mod files;
mod flags;
mod groups;
mod holes;
mod keys;
mod kinds;
mod long_structs;
mod name_lists;
mod naming;
mod pieces;
mod plains;
mod ranks;
mod reading;
mod roots;
mod schema;
mod shapes;
mod shares;
mod spelling;
mod structs;
mod tie;
mod union_views;
mod unions;
mod views;

pub use defaults::default_number;
pub use files::{PrintedFile, are_tied};
pub use groups::{Entry, are_taken, entries_of};
pub use kinds::{ending, has_default, is_bytes, is_union, kind_word, scalar_name};
pub use naming::Naming;
pub use structs::MOST_ELEMENTS;
