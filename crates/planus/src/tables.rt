//! Tables: their kinds, the lines of their fields, how they are written, and how they are read.

mod kind;
mod line;
mod read;
mod write;

pub use kind::{TableKind, TableRef, TableView};
pub use line::{
    FieldAt, FieldGroup, Fields, Group, Lines8, OrDefault, Required, TrailingField, UnionAt,
    UnionVectorAt, Variant,
};
pub use read::{
    bytes_field, bytes_required, plain_field, plain_field_or, plain_item, plain_required,
    plain_vector, plain_vector_required, read_item, read_root, read_view, table_field, table_item,
    table_required, table_vector, table_vector_required, text_field, text_item, text_required,
    text_vector, text_vector_required, union_field, union_item, union_required, union_vector,
    union_vector_required,
};
pub use write::{PrepareFields, create_plain, create_table};
