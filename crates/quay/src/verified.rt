//! Verified views, and the schema as a value, by which buffers are verified.

pub(crate) mod berth;
pub(crate) mod boat;
pub(crate) mod fee;
pub(crate) mod quay;
pub(crate) mod slip;

ghost use Rattle.std.specs.Prelude.{◌≡◌};
ghost use Rattle.planus_views.specs.Printed.{shapes, names_of, name_texts};
ghost use Rattle.quay.specs.Verified.{verified_schema, verified_names};

use planus_views::{
    FieldKind, FieldName, FieldShape, Names, Schema, TableName, TableShape, ValueKind, Variant,
    VariantKind,
};

pub const FIELDS: [FieldShape; 13] = [
    FieldShape {
        slot: 0,
        required: true,
        kind: FieldKind::Value(ValueKind::Text),
    },
    FieldShape {
        slot: 0,
        required: false,
        kind: FieldKind::Value(ValueKind::Plain(1)),
    },
    FieldShape {
        slot: 1,
        required: false,
        kind: FieldKind::Value(ValueKind::Plain(4)),
    },
    FieldShape {
        slot: 0,
        required: true,
        kind: FieldKind::Union(0),
    },
    FieldShape {
        slot: 0,
        required: true,
        kind: FieldKind::Value(ValueKind::Text),
    },
    FieldShape {
        slot: 1,
        required: false,
        kind: FieldKind::Value(ValueKind::Plain(5)),
    },
    FieldShape {
        slot: 2,
        required: false,
        kind: FieldKind::Value(ValueKind::Plains(56)),
    },
    FieldShape {
        slot: 3,
        required: false,
        kind: FieldKind::Union(0),
    },
    FieldShape {
        slot: 5,
        required: false,
        kind: FieldKind::Unions(0),
    },
    FieldShape {
        slot: 7,
        required: false,
        kind: FieldKind::Value(ValueKind::Tables(0)),
    },
    FieldShape {
        slot: 8,
        required: false,
        kind: FieldKind::Value(ValueKind::Tables(1)),
    },
    FieldShape {
        slot: 9,
        required: false,
        kind: FieldKind::Value(ValueKind::Plains(56)),
    },
    FieldShape {
        slot: 10,
        required: false,
        kind: FieldKind::Value(ValueKind::Tables(2)),
    },
];

pub const TABLES: [TableShape; 4] = [
    TableShape { first: 0, count: 1 },
    TableShape { first: 1, count: 2 },
    TableShape { first: 3, count: 1 },
    TableShape { first: 4, count: 9 },
];

pub const VARIANTS: [Variant; 4] = [
    Variant {
        union: 0,
        tag: 1,
        kind: VariantKind::Table(0),
    },
    Variant {
        union: 0,
        tag: 2,
        kind: VariantKind::Struct(16),
    },
    Variant {
        union: 0,
        tag: 3,
        kind: VariantKind::Struct(5),
    },
    Variant {
        union: 0,
        tag: 4,
        kind: VariantKind::Text,
    },
];

/// Returns the schema.
pub(crate) fn schema() -> Schema<'static>
    ensures { shapes result ≡ verified_schema }
{
    Schema {
        fields: &FIELDS,
        tables: &TABLES,
        variants: &VARIANTS,
    }
}

pub const TABLE_NAMES: [TableName<'static>; 4] = [
    TableName {
        index: 0,
        table: "Boat",
    },
    TableName {
        index: 1,
        table: "Fee",
    },
    TableName {
        index: 2,
        table: "Slip",
    },
    TableName {
        index: 3,
        table: "Quay",
    },
];

pub const FIELD_NAMES: [FieldName<'static>; 13] = [
    FieldName {
        table: 0,
        slot: 0,
        field: "name",
    },
    FieldName {
        table: 1,
        slot: 0,
        field: "gear",
    },
    FieldName {
        table: 1,
        slot: 1,
        field: "euros",
    },
    FieldName {
        table: 2,
        slot: 0,
        field: "berth",
    },
    FieldName {
        table: 3,
        slot: 0,
        field: "name",
    },
    FieldName {
        table: 3,
        slot: 1,
        field: "plate",
    },
    FieldName {
        table: 3,
        slot: 2,
        field: "cranes",
    },
    FieldName {
        table: 3,
        slot: 3,
        field: "first",
    },
    FieldName {
        table: 3,
        slot: 5,
        field: "berths",
    },
    FieldName {
        table: 3,
        slot: 7,
        field: "boats",
    },
    FieldName {
        table: 3,
        slot: 8,
        field: "fees",
    },
    FieldName {
        table: 3,
        slot: 9,
        field: "dives",
    },
    FieldName {
        table: 3,
        slot: 10,
        field: "slips",
    },
];

/// Returns the names of the schema's tables and fields.
pub(crate) fn names() -> Names<'static>
    ensures { name_texts (names_of result) ≡ verified_names }
{
    Names {
        tables: &TABLE_NAMES,
        fields: &FIELD_NAMES,
    }
}
