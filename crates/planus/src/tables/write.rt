//! Writing tables of their lines, and values of a fixed layout by themselves.

mod create;
mod prepare_fields;
mod prepared_at;
mod prepared_fields;
mod rest;
mod table_write;
mod write_plain;

pub use create::create_table;
pub use prepare_fields::PrepareFields;
pub use prepared_fields::PreparedFields;
pub use rest::{Rest, Then};
pub use table_write::TableWrite;
pub use write_plain::create_plain;
