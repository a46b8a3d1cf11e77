//! Verified views, and the schema as a value, by which buffers are verified.

pub(crate) mod equipment;
pub(crate) mod monster;
pub(crate) mod weapon;

ghost use Rattle.std.specs.Prelude.{◌≡◌};
ghost use Rattle.planus_views.specs.Printed.{shapes, names_of, name_texts};
ghost use Rattle.monsters.specs.Verified.{verified_schema, verified_names};

use planus_views::{
    FieldKind, FieldName, FieldShape, Names, Schema, TableName, TableShape, ValueKind, Variant,
    VariantKind,
};

pub const FIELDS: [FieldShape; 8] = [
    FieldShape {
        slot: 0,
        required: false,
        kind: FieldKind::Value(ValueKind::Text),
    },
    FieldShape {
        slot: 1,
        required: false,
        kind: FieldKind::Value(ValueKind::Plain(2)),
    },
    FieldShape {
        slot: 0,
        required: false,
        kind: FieldKind::Value(ValueKind::Plain(2)),
    },
    FieldShape {
        slot: 1,
        required: true,
        kind: FieldKind::Value(ValueKind::Text),
    },
    FieldShape {
        slot: 2,
        required: false,
        kind: FieldKind::Value(ValueKind::Bytes),
    },
    FieldShape {
        slot: 3,
        required: false,
        kind: FieldKind::Value(ValueKind::Tables(0)),
    },
    FieldShape {
        slot: 4,
        required: false,
        kind: FieldKind::Union(0),
    },
    FieldShape {
        slot: 6,
        required: false,
        kind: FieldKind::Unions(0),
    },
];

pub const TABLES: [TableShape; 2] = [
    TableShape { first: 0, count: 2 },
    TableShape { first: 2, count: 6 },
];

pub const VARIANTS: [Variant; 1] = [Variant {
    union: 0,
    tag: 1,
    kind: VariantKind::Table(0),
}];

/// Returns the schema.
pub(crate) fn schema() -> Schema<'static>
    ensures { shapes result ≡ verified_schema }
{
    Schema {
        fields: &FIELDS,
        tables: &TABLES,
        variants: &VARIANTS,
    }
}

pub const TABLE_NAMES: [TableName<'static>; 2] = [
    TableName {
        index: 0,
        table: "Weapon",
    },
    TableName {
        index: 1,
        table: "Monster",
    },
];

pub const FIELD_NAMES: [FieldName<'static>; 8] = [
    FieldName {
        table: 0,
        slot: 0,
        field: "name",
    },
    FieldName {
        table: 0,
        slot: 1,
        field: "damage",
    },
    FieldName {
        table: 1,
        slot: 0,
        field: "hp",
    },
    FieldName {
        table: 1,
        slot: 1,
        field: "name",
    },
    FieldName {
        table: 1,
        slot: 2,
        field: "inventory",
    },
    FieldName {
        table: 1,
        slot: 3,
        field: "weapons",
    },
    FieldName {
        table: 1,
        slot: 4,
        field: "equipped",
    },
    FieldName {
        table: 1,
        slot: 6,
        field: "loot",
    },
];

/// Returns the names of the schema's tables and fields.
pub(crate) fn names() -> Names<'static>
    ensures { name_texts (names_of result) ≡ verified_names }
{
    Names {
        tables: &TABLE_NAMES,
        fields: &FIELD_NAMES,
    }
}
