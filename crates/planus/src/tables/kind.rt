//! Kinds of tables, and what a table is read as.

mod table_kind;
mod table_ref;
mod table_view;

pub use table_kind::TableKind;
pub use table_ref::TableRef;
pub use table_view::TableView;
