//! The types of a field: as it is given, encoded and read.

use planus_schema::{Base, FieldType, TableField};
pub(crate) use planus_tie::{has_default, is_bytes, is_union};

/// Whether a field may be absent: it has neither a default nor `required`, and is no union vector,
/// which is left out where empty.
pub(crate) fn is_optional(field: &TableField) -> bool {
    let unions = is_union(field.kind) && field.kind.vector;
    !field.required && !has_default(field) && !unions
}

pub(crate) fn encoded(kind: FieldType) -> &'static str {
    match (kind.base, kind.vector) {
        (Base::Text | Base::Table(_), true) => "Offset<List<Offset<$t>>>",
        (Base::Text | Base::Table(_), false) => "Offset<$t>",
        (Base::Union(_), _) => "$t",
        (_, true) => "Offset<List<$t>>",
        (_, false) => "$t",
    }
}

/// The type of a field that is written.
pub(crate) fn given(kind: FieldType) -> &'static str {
    match (kind.base, kind.vector) {
        (Base::Text, true) => "&'a [&'a str]",
        (Base::Text, false) => "&'a str",
        (Base::Table(_), true) => "&'a [Offset<$t>]",
        (Base::Table(_), false) => "Offset<$t>",
        (Base::Union(_), true) => "&'a [UnionOffset<$t>]",
        (Base::Union(_), false) => "UnionOffset<$t>",
        (_, true) if is_bytes(kind) => "ByteList<'a>",
        (_, true) => "&'a [$t]",
        (_, false) => "$t",
    }
}

/// The type of a field that is read. `total`: the read of an item can't fail.
pub(crate) fn read(kind: FieldType, total: bool) -> &'static str {
    match (kind.base, kind.vector) {
        (Base::Text, true) => "Vector<'a, Result<&'a str>>",
        (Base::Text, false) => "&'a str",
        (Base::Table(_), true) => "Vector<'a, Result<$tRef<'a>>>",
        (Base::Union(_), true) => "UnionVector<'a, $tRef<'a>>",
        (Base::Table(_) | Base::Union(_), false) => "$tRef<'a>",
        (_, true) if is_bytes(kind) => "&'a [u8]",
        (_, true) if total => "Vector<'a, $t>",
        (_, true) => "Vector<'a, Result<$t>>",
        (_, false) => "$t",
    }
}
