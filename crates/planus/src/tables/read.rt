//! Fields and items, read back.

mod plain_fields;
mod table_fields;
mod text_fields;
mod union_fields;

pub use plain_fields::{
    plain_field, plain_field_or, plain_item, plain_required, plain_vector, plain_vector_required,
};
pub use table_fields::{
    read_item, read_root, read_view, table_field, table_item, table_required, table_vector,
    table_vector_required,
};
pub use text_fields::{
    bytes_field, bytes_required, text_field, text_item, text_required, text_vector,
    text_vector_required,
};
pub use union_fields::{
    union_field, union_item, union_required, union_vector, union_vector_required,
};
