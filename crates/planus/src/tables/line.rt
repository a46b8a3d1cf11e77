//! The lines of a table: a field, a union, a group of fields, each in its slots.

mod field_at;
mod field_chain;
mod field_group;
mod field_parts;
mod fields;
mod group;
mod group_chain;
mod or_default;
mod required;
mod trailing_field;
mod union_at;
mod union_parts;
mod union_vector_at;
mod union_vector_parts;
mod variant;

pub use field_at::FieldAt;
pub use field_group::{FieldGroup, Lines8};
pub(crate) use field_parts::{declare_if, write_if};
pub use fields::Fields;
pub use group::Group;
pub use or_default::OrDefault;
pub use required::Required;
pub use trailing_field::TrailingField;
pub use union_at::UnionAt;
pub use union_vector_at::UnionVectorAt;
pub use variant::Variant;
