//! The cost of each field to the checker. A list above [`MOST`] is split into groups.

use crate::kinds::has_default;
use planus_schema::{Base, Line, TableField};

/// The greatest cost of a list.
pub(crate) const MOST: usize = 1000;

/// The cost of a group of fields: a list of 12 groups and 4 numbers still passes.
pub(crate) const GROUP: usize = 74;

/// The cost of a field. In one list pass 38 numbers with a default, 47 without, 27 enums with a
/// default, 35 enums or structs without, 27 strings, 25 tables, 24 unions, 22 vectors of numbers, 20
/// of strings, or 16 of tables or unions, each of a type of its own.
pub(crate) fn share_of(field: &TableField) -> usize {
    let default = has_default(field);
    match (field.kind.base, field.kind.vector) {
        (Base::Enum(_), false) if default => 36,
        _ if default => 26,
        (Base::Table(_) | Base::Union(_), true) => 62,
        (Base::Text, true) => 50,
        (_, true) => 45,
        (Base::Union(_), false) => 41,
        (Base::Table(_), false) => 40,
        (Base::Text, false) => 37,
        (Base::Enum(_) | Base::Struct(_), false) => 28,
        (Base::Scalar(_), false) => 21,
    }
}

/// Whether these fields cost more than one list may.
pub(crate) fn are_many(lines: &[Line<'_>]) -> bool {
    let mut shares = 0usize;
    for line in lines {
        shares = shares.saturating_add(share_of(line.field));
    }
    shares > MOST
}
