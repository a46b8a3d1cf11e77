//! The schema, by which buffers are verified.

use planus_views::{FieldKind, FieldShape, Schema, TableShape, ValueKind, Variant, VariantKind};

pub const FIELDS: [FieldShape; 26] = [
    FieldShape {
        slot: 0,
        required: true,
        kind: FieldKind::Value(ValueKind::Text),
    },
    FieldShape {
        slot: 1,
        required: false,
        kind: FieldKind::Value(ValueKind::Plain(2)),
    },
    FieldShape {
        slot: 2,
        required: false,
        kind: FieldKind::Value(ValueKind::Plains(4)),
    },
    FieldShape {
        slot: 3,
        required: false,
        kind: FieldKind::Value(ValueKind::Plain(1)),
    },
    FieldShape {
        slot: 13,
        required: false,
        kind: FieldKind::Value(ValueKind::Bytes),
    },
    FieldShape {
        slot: 14,
        required: false,
        kind: FieldKind::Value(ValueKind::Texts),
    },
    FieldShape {
        slot: 15,
        required: false,
        kind: FieldKind::Value(ValueKind::Table(0)),
    },
    FieldShape {
        slot: 16,
        required: false,
        kind: FieldKind::Value(ValueKind::Tables(0)),
    },
    FieldShape {
        slot: 17,
        required: false,
        kind: FieldKind::Value(ValueKind::Plains(1)),
    },
    FieldShape {
        slot: 18,
        required: false,
        kind: FieldKind::Union(0),
    },
    FieldShape {
        slot: 27,
        required: false,
        kind: FieldKind::Value(ValueKind::Plain(1)),
    },
    FieldShape {
        slot: 0,
        required: true,
        kind: FieldKind::Value(ValueKind::Text),
    },
    FieldShape {
        slot: 1,
        required: false,
        kind: FieldKind::Value(ValueKind::Plain(1)),
    },
    FieldShape {
        slot: 0,
        required: false,
        kind: FieldKind::Value(ValueKind::Text),
    },
    FieldShape {
        slot: 1,
        required: false,
        kind: FieldKind::Value(ValueKind::Bytes),
    },
    FieldShape {
        slot: 0,
        required: true,
        kind: FieldKind::Union(0),
    },
    FieldShape {
        slot: 2,
        required: true,
        kind: FieldKind::Value(ValueKind::Tables(0)),
    },
    FieldShape {
        slot: 3,
        required: true,
        kind: FieldKind::Value(ValueKind::Texts),
    },
    FieldShape {
        slot: 6,
        required: true,
        kind: FieldKind::Value(ValueKind::Plains(2)),
    },
    FieldShape {
        slot: 7,
        required: true,
        kind: FieldKind::Value(ValueKind::Bytes),
    },
    FieldShape {
        slot: 0,
        required: true,
        kind: FieldKind::Value(ValueKind::Plain(4)),
    },
    FieldShape {
        slot: 1,
        required: true,
        kind: FieldKind::Value(ValueKind::Plain(1)),
    },
    FieldShape {
        slot: 2,
        required: false,
        kind: FieldKind::Unions(0),
    },
    FieldShape {
        slot: 4,
        required: true,
        kind: FieldKind::Unions(0),
    },
    FieldShape {
        slot: 6,
        required: false,
        kind: FieldKind::Value(ValueKind::Nested(1)),
    },
    FieldShape {
        slot: 7,
        required: true,
        kind: FieldKind::Value(ValueKind::Nested(1)),
    },
];

pub const TABLES: [TableShape; 5] = [
    TableShape {
        first: 0,
        count: 11,
    },
    TableShape {
        first: 11,
        count: 2,
    },
    TableShape {
        first: 13,
        count: 2,
    },
    TableShape {
        first: 15,
        count: 5,
    },
    TableShape {
        first: 20,
        count: 6,
    },
];

pub const VARIANTS: [Variant; 2] = [
    Variant {
        union: 0,
        tag: 1,
        kind: VariantKind::Table(1),
    },
    Variant {
        union: 0,
        tag: 2,
        kind: VariantKind::Table(2),
    },
];

pub fn schema() -> Schema<'static>
    ensures { shapes result ≡ ships_schema }
{
    Schema {
        fields: &FIELDS,
        tables: &TABLES,
        variants: &VARIANTS,
    }
}

ghost use Rattle.std.specs.Prelude.{◌≡◌};
ghost use Rattle.planus_views.specs.verify.Schemas.{shapes};
ghost use Rattle.verified_ships.specs.Schema.{ships_schema};
