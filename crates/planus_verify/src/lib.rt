//! Verification of all that a schema's accessors read, after which fields are read without tests.
#![tactic(auto)]

mod ends;
mod entered;
mod fault;
mod kind;
mod laws;
mod limits;
mod passes;
mod readings;
mod root;
mod schema;
mod search;
mod search_end;
mod sought;
mod struct_room;
#[cfg(test)]
mod tests;
mod text_test;
mod trails;
mod union_kind;
mod verify_table;
mod verify_union;
mod walk;

pub use entered::Entered;
pub use fault::{Fault, FieldPlace};
pub use kind::VerifiedKind;
pub use laws::{passed_is_verified, verified_passes};
pub use limits::Limits;
pub use root::{root_passes, verify, verify_kind, verify_read};
pub use schema::{FieldKind, FieldShape, Schema, TableShape, ValueKind, Variant, VariantKind};
pub use sought::Sought;
pub use trails::trail;
pub use union_kind::UnionKind;
pub use verify_table::Verify;
pub use verify_union::{VerifyUnion, member_passes, struct_member_passes, text_member_passes};
