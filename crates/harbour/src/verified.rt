//! Verified views, and the schema as a value, by which buffers are verified.

pub(crate) mod cause;
pub(crate) mod company;
pub(crate) mod entry;
pub(crate) mod manifest;
pub(crate) mod origin;
pub(crate) mod owner;
pub(crate) mod person;
pub(crate) mod port;
pub(crate) mod ship;

ghost use Rattle.std.specs.Prelude.{◌≡◌};
ghost use Rattle.planus_views.specs.Printed.{shapes, names_of, name_texts};
ghost use Rattle.harbour.specs.Verified.{verified_schema, verified_names};

use planus_views::{
    FieldKind, FieldName, FieldShape, Names, Schema, TableName, TableShape, ValueKind, Variant,
    VariantKind,
};

pub const FIELDS: [FieldShape; 87] = [
    FieldShape {
        slot: 0,
        required: true,
        kind: FieldKind::Value(ValueKind::Text),
    },
    FieldShape {
        slot: 1,
        required: false,
        kind: FieldKind::Value(ValueKind::Plain(1)),
    },
    FieldShape {
        slot: 0,
        required: false,
        kind: FieldKind::Value(ValueKind::Text),
    },
    FieldShape {
        slot: 1,
        required: false,
        kind: FieldKind::Value(ValueKind::Bytes),
    },
    FieldShape {
        slot: 0,
        required: true,
        kind: FieldKind::Value(ValueKind::Text),
    },
    FieldShape {
        slot: 1,
        required: false,
        kind: FieldKind::Value(ValueKind::Plain(2)),
    },
    FieldShape {
        slot: 2,
        required: false,
        kind: FieldKind::Value(ValueKind::Plains(4)),
    },
    FieldShape {
        slot: 3,
        required: false,
        kind: FieldKind::Value(ValueKind::Plain(1)),
    },
    FieldShape {
        slot: 4,
        required: false,
        kind: FieldKind::Value(ValueKind::Plain(2)),
    },
    FieldShape {
        slot: 5,
        required: false,
        kind: FieldKind::Value(ValueKind::Plain(2)),
    },
    FieldShape {
        slot: 6,
        required: false,
        kind: FieldKind::Value(ValueKind::Plain(12)),
    },
    FieldShape {
        slot: 7,
        required: false,
        kind: FieldKind::Value(ValueKind::Plains(12)),
    },
    FieldShape {
        slot: 8,
        required: false,
        kind: FieldKind::Value(ValueKind::Plain(4)),
    },
    FieldShape {
        slot: 9,
        required: false,
        kind: FieldKind::Value(ValueKind::Plain(2)),
    },
    FieldShape {
        slot: 10,
        required: false,
        kind: FieldKind::Value(ValueKind::Plain(1)),
    },
    FieldShape {
        slot: 11,
        required: false,
        kind: FieldKind::Value(ValueKind::Plain(1)),
    },
    FieldShape {
        slot: 12,
        required: false,
        kind: FieldKind::Value(ValueKind::Plain(4)),
    },
    FieldShape {
        slot: 13,
        required: false,
        kind: FieldKind::Value(ValueKind::Bytes),
    },
    FieldShape {
        slot: 14,
        required: false,
        kind: FieldKind::Value(ValueKind::Texts),
    },
    FieldShape {
        slot: 15,
        required: false,
        kind: FieldKind::Value(ValueKind::Table(2)),
    },
    FieldShape {
        slot: 16,
        required: false,
        kind: FieldKind::Value(ValueKind::Tables(2)),
    },
    FieldShape {
        slot: 17,
        required: false,
        kind: FieldKind::Value(ValueKind::Plains(1)),
    },
    FieldShape {
        slot: 18,
        required: false,
        kind: FieldKind::Union(0),
    },
    FieldShape {
        slot: 20,
        required: false,
        kind: FieldKind::Unions(0),
    },
    FieldShape {
        slot: 23,
        required: false,
        kind: FieldKind::Value(ValueKind::Plain(8)),
    },
    FieldShape {
        slot: 24,
        required: false,
        kind: FieldKind::Value(ValueKind::Plains(8)),
    },
    FieldShape {
        slot: 25,
        required: false,
        kind: FieldKind::Value(ValueKind::Plains(1)),
    },
    FieldShape {
        slot: 26,
        required: true,
        kind: FieldKind::Value(ValueKind::Plain(24)),
    },
    FieldShape {
        slot: 27,
        required: false,
        kind: FieldKind::Value(ValueKind::Plain(1)),
    },
    FieldShape {
        slot: 28,
        required: false,
        kind: FieldKind::Value(ValueKind::Plains(1)),
    },
    FieldShape {
        slot: 0,
        required: true,
        kind: FieldKind::Union(0),
    },
    FieldShape {
        slot: 2,
        required: true,
        kind: FieldKind::Value(ValueKind::Tables(2)),
    },
    FieldShape {
        slot: 3,
        required: true,
        kind: FieldKind::Value(ValueKind::Texts),
    },
    FieldShape {
        slot: 4,
        required: true,
        kind: FieldKind::Unions(0),
    },
    FieldShape {
        slot: 6,
        required: true,
        kind: FieldKind::Value(ValueKind::Plains(2)),
    },
    FieldShape {
        slot: 7,
        required: true,
        kind: FieldKind::Value(ValueKind::Bytes),
    },
    FieldShape {
        slot: 8,
        required: false,
        kind: FieldKind::Value(ValueKind::Plain(8)),
    },
    FieldShape {
        slot: 9,
        required: false,
        kind: FieldKind::Value(ValueKind::Plain(1)),
    },
    FieldShape {
        slot: 0,
        required: false,
        kind: FieldKind::Value(ValueKind::Plain(8)),
    },
    FieldShape {
        slot: 1,
        required: false,
        kind: FieldKind::Value(ValueKind::Plain(8)),
    },
    FieldShape {
        slot: 2,
        required: false,
        kind: FieldKind::Value(ValueKind::Plain(8)),
    },
    FieldShape {
        slot: 3,
        required: false,
        kind: FieldKind::Value(ValueKind::Plain(4)),
    },
    FieldShape {
        slot: 4,
        required: false,
        kind: FieldKind::Value(ValueKind::Plain(4)),
    },
    FieldShape {
        slot: 5,
        required: false,
        kind: FieldKind::Value(ValueKind::Plain(4)),
    },
    FieldShape {
        slot: 6,
        required: false,
        kind: FieldKind::Value(ValueKind::Plain(2)),
    },
    FieldShape {
        slot: 7,
        required: false,
        kind: FieldKind::Value(ValueKind::Plain(2)),
    },
    FieldShape {
        slot: 8,
        required: false,
        kind: FieldKind::Value(ValueKind::Plain(1)),
    },
    FieldShape {
        slot: 9,
        required: false,
        kind: FieldKind::Value(ValueKind::Plain(1)),
    },
    FieldShape {
        slot: 10,
        required: false,
        kind: FieldKind::Value(ValueKind::Plain(1)),
    },
    FieldShape {
        slot: 11,
        required: false,
        kind: FieldKind::Value(ValueKind::Plain(1)),
    },
    FieldShape {
        slot: 12,
        required: false,
        kind: FieldKind::Value(ValueKind::Plain(1)),
    },
    FieldShape {
        slot: 13,
        required: false,
        kind: FieldKind::Value(ValueKind::Plain(2)),
    },
    FieldShape {
        slot: 14,
        required: false,
        kind: FieldKind::Value(ValueKind::Plain(2)),
    },
    FieldShape {
        slot: 15,
        required: false,
        kind: FieldKind::Value(ValueKind::Plain(1)),
    },
    FieldShape {
        slot: 16,
        required: false,
        kind: FieldKind::Value(ValueKind::Plain(8)),
    },
    FieldShape {
        slot: 17,
        required: false,
        kind: FieldKind::Value(ValueKind::Plain(8)),
    },
    FieldShape {
        slot: 18,
        required: false,
        kind: FieldKind::Value(ValueKind::Plain(4)),
    },
    FieldShape {
        slot: 19,
        required: false,
        kind: FieldKind::Value(ValueKind::Plain(1)),
    },
    FieldShape {
        slot: 20,
        required: false,
        kind: FieldKind::Value(ValueKind::Plain(1)),
    },
    FieldShape {
        slot: 21,
        required: false,
        kind: FieldKind::Value(ValueKind::Plain(12)),
    },
    FieldShape {
        slot: 22,
        required: true,
        kind: FieldKind::Value(ValueKind::Plain(8)),
    },
    FieldShape {
        slot: 23,
        required: true,
        kind: FieldKind::Value(ValueKind::Text),
    },
    FieldShape {
        slot: 24,
        required: false,
        kind: FieldKind::Value(ValueKind::Text),
    },
    FieldShape {
        slot: 25,
        required: false,
        kind: FieldKind::Value(ValueKind::Bytes),
    },
    FieldShape {
        slot: 26,
        required: true,
        kind: FieldKind::Value(ValueKind::Bytes),
    },
    FieldShape {
        slot: 27,
        required: false,
        kind: FieldKind::Value(ValueKind::Plains(8)),
    },
    FieldShape {
        slot: 28,
        required: true,
        kind: FieldKind::Value(ValueKind::Plains(4)),
    },
    FieldShape {
        slot: 29,
        required: false,
        kind: FieldKind::Value(ValueKind::Plains(2)),
    },
    FieldShape {
        slot: 30,
        required: false,
        kind: FieldKind::Value(ValueKind::Plains(1)),
    },
    FieldShape {
        slot: 31,
        required: false,
        kind: FieldKind::Value(ValueKind::Plains(1)),
    },
    FieldShape {
        slot: 32,
        required: false,
        kind: FieldKind::Value(ValueKind::Plains(12)),
    },
    FieldShape {
        slot: 33,
        required: false,
        kind: FieldKind::Value(ValueKind::Texts),
    },
    FieldShape {
        slot: 34,
        required: true,
        kind: FieldKind::Value(ValueKind::Texts),
    },
    FieldShape {
        slot: 35,
        required: true,
        kind: FieldKind::Value(ValueKind::Table(2)),
    },
    FieldShape {
        slot: 36,
        required: false,
        kind: FieldKind::Value(ValueKind::Table(4)),
    },
    FieldShape {
        slot: 37,
        required: false,
        kind: FieldKind::Value(ValueKind::Tables(0)),
    },
    FieldShape {
        slot: 38,
        required: true,
        kind: FieldKind::Value(ValueKind::Tables(4)),
    },
    FieldShape {
        slot: 39,
        required: false,
        kind: FieldKind::Union(0),
    },
    FieldShape {
        slot: 41,
        required: true,
        kind: FieldKind::Union(0),
    },
    FieldShape {
        slot: 43,
        required: false,
        kind: FieldKind::Unions(0),
    },
    FieldShape {
        slot: 0,
        required: false,
        kind: FieldKind::Value(ValueKind::Text),
    },
    FieldShape {
        slot: 1,
        required: false,
        kind: FieldKind::Value(ValueKind::Plain(2)),
    },
    FieldShape {
        slot: 0,
        required: false,
        kind: FieldKind::Value(ValueKind::Plain(8)),
    },
    FieldShape {
        slot: 1,
        required: true,
        kind: FieldKind::Value(ValueKind::Text),
    },
    FieldShape {
        slot: 2,
        required: true,
        kind: FieldKind::Value(ValueKind::Table(5)),
    },
    FieldShape {
        slot: 3,
        required: false,
        kind: FieldKind::Union(1),
    },
    FieldShape {
        slot: 5,
        required: false,
        kind: FieldKind::Value(ValueKind::Tables(6)),
    },
];

pub const TABLES: [TableShape; 7] = [
    TableShape { first: 0, count: 2 },
    TableShape { first: 2, count: 2 },
    TableShape {
        first: 4,
        count: 26,
    },
    TableShape {
        first: 30,
        count: 8,
    },
    TableShape {
        first: 38,
        count: 42,
    },
    TableShape {
        first: 80,
        count: 2,
    },
    TableShape {
        first: 82,
        count: 5,
    },
];

pub const VARIANTS: [Variant; 4] = [
    Variant {
        union: 0,
        tag: 1,
        kind: VariantKind::Table(0),
    },
    Variant {
        union: 0,
        tag: 2,
        kind: VariantKind::Table(1),
    },
    Variant {
        union: 1,
        tag: 1,
        kind: VariantKind::Table(6),
    },
    Variant {
        union: 1,
        tag: 2,
        kind: VariantKind::Table(5),
    },
];

/// Returns the schema.
pub(crate) fn schema() -> Schema<'static>
    ensures { shapes result ≡ verified_schema }
{
    Schema {
        fields: &FIELDS,
        tables: &TABLES,
        variants: &VARIANTS,
    }
}

pub const TABLE_NAMES: [TableName<'static>; 7] = [
    TableName {
        index: 0,
        table: "Person",
    },
    TableName {
        index: 1,
        table: "Company",
    },
    TableName {
        index: 2,
        table: "Ship",
    },
    TableName {
        index: 3,
        table: "Port",
    },
    TableName {
        index: 4,
        table: "Manifest",
    },
    TableName {
        index: 5,
        table: "Origin",
    },
    TableName {
        index: 6,
        table: "Entry",
    },
];

pub const FIELD_NAMES: [FieldName<'static>; 87] = [
    FieldName {
        table: 0,
        slot: 0,
        field: "name",
    },
    FieldName {
        table: 0,
        slot: 1,
        field: "age",
    },
    FieldName {
        table: 1,
        slot: 0,
        field: "title",
    },
    FieldName {
        table: 1,
        slot: 1,
        field: "vat",
    },
    FieldName {
        table: 2,
        slot: 0,
        field: "name",
    },
    FieldName {
        table: 2,
        slot: 1,
        field: "hull",
    },
    FieldName {
        table: 2,
        slot: 2,
        field: "cargo",
    },
    FieldName {
        table: 2,
        slot: 3,
        field: "kind",
    },
    FieldName {
        table: 2,
        slot: 4,
        field: "level",
    },
    FieldName {
        table: 2,
        slot: 5,
        field: "needs",
    },
    FieldName {
        table: 2,
        slot: 6,
        field: "home",
    },
    FieldName {
        table: 2,
        slot: 7,
        field: "track",
    },
    FieldName {
        table: 2,
        slot: 8,
        field: "heat",
    },
    FieldName {
        table: 2,
        slot: 9,
        field: "depth",
    },
    FieldName {
        table: 2,
        slot: 10,
        field: "open",
    },
    FieldName {
        table: 2,
        slot: 11,
        field: "shut",
    },
    FieldName {
        table: 2,
        slot: 12,
        field: "maybe",
    },
    FieldName {
        table: 2,
        slot: 13,
        field: "photo",
    },
    FieldName {
        table: 2,
        slot: 14,
        field: "names",
    },
    FieldName {
        table: 2,
        slot: 15,
        field: "mate",
    },
    FieldName {
        table: 2,
        slot: 16,
        field: "consorts",
    },
    FieldName {
        table: 2,
        slot: 17,
        field: "kinds",
    },
    FieldName {
        table: 2,
        slot: 18,
        field: "owner",
    },
    FieldName {
        table: 2,
        slot: 20,
        field: "shares",
    },
    FieldName {
        table: 2,
        slot: 23,
        field: "tall",
    },
    FieldName {
        table: 2,
        slot: 24,
        field: "temps",
    },
    FieldName {
        table: 2,
        slot: 25,
        field: "deltas",
    },
    FieldName {
        table: 2,
        slot: 26,
        field: "fix",
    },
    FieldName {
        table: 2,
        slot: 27,
        field: "which",
    },
    FieldName {
        table: 2,
        slot: 28,
        field: "flags",
    },
    FieldName {
        table: 3,
        slot: 0,
        field: "owner",
    },
    FieldName {
        table: 3,
        slot: 2,
        field: "ships",
    },
    FieldName {
        table: 3,
        slot: 3,
        field: "berths",
    },
    FieldName {
        table: 3,
        slot: 4,
        field: "shares",
    },
    FieldName {
        table: 3,
        slot: 6,
        field: "soundings",
    },
    FieldName {
        table: 3,
        slot: 7,
        field: "chart",
    },
    FieldName {
        table: 3,
        slot: 8,
        field: "gauge",
    },
    FieldName {
        table: 3,
        slot: 9,
        field: "hoisted",
    },
    FieldName {
        table: 4,
        slot: 0,
        field: "number",
    },
    FieldName {
        table: 4,
        slot: 1,
        field: "issued",
    },
    FieldName {
        table: 4,
        slot: 2,
        field: "weight",
    },
    FieldName {
        table: 4,
        slot: 3,
        field: "worth",
    },
    FieldName {
        table: 4,
        slot: 4,
        field: "boxes",
    },
    FieldName {
        table: 4,
        slot: 5,
        field: "debt",
    },
    FieldName {
        table: 4,
        slot: 6,
        field: "pages",
    },
    FieldName {
        table: 4,
        slot: 7,
        field: "shift",
    },
    FieldName {
        table: 4,
        slot: 8,
        field: "tier",
    },
    FieldName {
        table: 4,
        slot: 9,
        field: "lean",
    },
    FieldName {
        table: 4,
        slot: 10,
        field: "sealed",
    },
    FieldName {
        table: 4,
        slot: 11,
        field: "opened",
    },
    FieldName {
        table: 4,
        slot: 12,
        field: "kind",
    },
    FieldName {
        table: 4,
        slot: 13,
        field: "level",
    },
    FieldName {
        table: 4,
        slot: 14,
        field: "needs",
    },
    FieldName {
        table: 4,
        slot: 15,
        field: "signal",
    },
    FieldName {
        table: 4,
        slot: 16,
        field: "rank",
    },
    FieldName {
        table: 4,
        slot: 17,
        field: "margin",
    },
    FieldName {
        table: 4,
        slot: 18,
        field: "dues",
    },
    FieldName {
        table: 4,
        slot: 19,
        field: "paid",
    },
    FieldName {
        table: 4,
        slot: 20,
        field: "grade",
    },
    FieldName {
        table: 4,
        slot: 21,
        field: "berth",
    },
    FieldName {
        table: 4,
        slot: 22,
        field: "gauge",
    },
    FieldName {
        table: 4,
        slot: 23,
        field: "title",
    },
    FieldName {
        table: 4,
        slot: 24,
        field: "note",
    },
    FieldName {
        table: 4,
        slot: 25,
        field: "scan",
    },
    FieldName {
        table: 4,
        slot: 26,
        field: "stamp",
    },
    FieldName {
        table: 4,
        slot: 27,
        field: "weights",
    },
    FieldName {
        table: 4,
        slot: 28,
        field: "counts",
    },
    FieldName {
        table: 4,
        slot: 29,
        field: "offsets",
    },
    FieldName {
        table: 4,
        slot: 30,
        field: "marks",
    },
    FieldName {
        table: 4,
        slot: 31,
        field: "kinds",
    },
    FieldName {
        table: 4,
        slot: 32,
        field: "track",
    },
    FieldName {
        table: 4,
        slot: 33,
        field: "labels",
    },
    FieldName {
        table: 4,
        slot: 34,
        field: "holders",
    },
    FieldName {
        table: 4,
        slot: 35,
        field: "ship",
    },
    FieldName {
        table: 4,
        slot: 36,
        field: "next",
    },
    FieldName {
        table: 4,
        slot: 37,
        field: "persons",
    },
    FieldName {
        table: 4,
        slot: 38,
        field: "parts",
    },
    FieldName {
        table: 4,
        slot: 39,
        field: "owner",
    },
    FieldName {
        table: 4,
        slot: 41,
        field: "payer",
    },
    FieldName {
        table: 4,
        slot: 43,
        field: "owners",
    },
    FieldName {
        table: 5,
        slot: 0,
        field: "host",
    },
    FieldName {
        table: 5,
        slot: 1,
        field: "port",
    },
    FieldName {
        table: 6,
        slot: 0,
        field: "at",
    },
    FieldName {
        table: 6,
        slot: 1,
        field: "text",
    },
    FieldName {
        table: 6,
        slot: 2,
        field: "origin",
    },
    FieldName {
        table: 6,
        slot: 3,
        field: "cause",
    },
    FieldName {
        table: 6,
        slot: 5,
        field: "parents",
    },
];

/// Returns the names of the schema's tables and fields.
pub(crate) fn names() -> Names<'static>
    ensures { name_texts (names_of result) ≡ verified_names }
{
    Names {
        tables: &TABLE_NAMES,
        fields: &FIELD_NAMES,
    }
}
