//! Templates of what a schema declares, in modules over the calls for C.

use crate::types::{is_bytes, is_optional};
use planus_schema::{Base, Body, TableField};

/// The templates of a field.
#[derive(Clone, Copy)]
pub(crate) struct FieldForms {
    pub(crate) one: &'static str,
    /// That may be absent.
    pub(crate) one_if: &'static str,
    pub(crate) vector: &'static str,
    pub(crate) vector_if: &'static str,
    /// A vector of bytes.
    pub(crate) bytes: &'static str,
    pub(crate) bytes_if: &'static str,
    /// A vector of unions, each of which a call reads.
    pub(crate) unions: &'static str,
}

/// The templates of a declaration.
#[derive(Clone, Copy)]
pub(crate) struct Forms {
    pub(crate) of_enum: &'static str,
    pub(crate) of_struct: &'static str,
    pub(crate) of_table: &'static str,
    pub(crate) of_union: &'static str,
}

impl FieldForms {
    /// Returns that of a field.
    pub(crate) fn of(self, field: &TableField) -> &'static str {
        match (field.kind.base, field.kind.vector, is_optional(field)) {
            (Base::Union(_), true, _) => self.unions,
            (_, true, false) if is_bytes(field.kind) => self.bytes,
            (_, true, true) if is_bytes(field.kind) => self.bytes_if,
            (_, true, false) => self.vector,
            (_, true, true) => self.vector_if,
            (_, false, false) => self.one,
            (_, false, true) => self.one_if,
        }
    }
}

impl Forms {
    /// Returns that of a declaration.
    pub(crate) fn of(self, body: &Body) -> &'static str {
        match body {
            Body::Enum(_) => self.of_enum,
            Body::Struct(_) => self.of_struct,
            Body::Table(_) => self.of_table,
            Body::Union(_) => self.of_union,
        }
    }
}
