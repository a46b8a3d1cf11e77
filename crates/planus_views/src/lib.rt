//! Views of verified tables, whose fields are read without tests and, numbers of enums aside,
//! without errors.
#![tactic(auto)]

mod buffer_fault;
mod buffers;
mod field_path;
mod flags;
pub mod laws;
mod members;
mod names;
mod of_kind;
mod of_union;
mod root;
mod table_vectors;
mod texts;
mod trail_texts;
mod union_of;
mod unions;
mod unread;
mod verified_items;
mod view;
mod view_of;
mod wheres;

pub use buffer_fault::BufferFault;
pub use buffers::{verify_buffer, verify_sized_buffer};
pub use field_path::FieldPath;
pub use flags::show_flags;
pub use names::{FieldName, Names, TableName};
pub use of_kind::OfKind;
pub use of_union::OfUnion;
pub use planus_verify::{
    Entered, Fault, FieldKind, FieldPlace, FieldShape, Limits, Schema, TableShape, UnionKind,
    ValueKind, Variant, VariantKind, VerifiedKind, Verify, VerifyUnion, member_passes,
    struct_member_passes, text_member_passes,
};
pub use root::{verify_root, verify_table};
pub use table_vectors::Tables;
pub use texts::Texts;
pub use union_of::{Member, UnionOf};
pub use unions::Unions;
pub use unread::Unread;
pub use verified_items::{ReadVerified, VerifiedItems, VerifiedVector};
pub use view::View;
pub use view_of::ViewOf;
pub use wheres::{where_fault_is, where_is};
