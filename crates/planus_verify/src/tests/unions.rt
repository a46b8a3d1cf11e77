//! Unions of strings and structs, by hand from their bytes.

use super::kind_number;
use crate::{
    Fault, FieldKind, FieldPlace, FieldShape, Limits, Schema, TableShape, Variant, VariantKind,
    verify,
};
use std::test::Fail;

const FIELDS: [FieldShape; 1] = [FieldShape {
    slot: 0,
    required: true,
    kind: FieldKind::Union(0),
}];

const TABLES: [TableShape; 1] = [TableShape { first: 0, count: 1 }];

const VARIANTS: [Variant; 2] = [
    Variant {
        union: 0,
        tag: 1,
        kind: VariantKind::Text,
    },
    Variant {
        union: 0,
        tag: 2,
        kind: VariantKind::Struct(8),
    },
];

// A table at 12 whose union has this tag, and a reference to the last 8 bytes: the string "hi", or
// as many of a struct.
fn with_tag(tag: u8) -> [u8; 32] {
    [
        12, 0, 0, 0, 8, 0, 12, 0, 8, 0, 4, 0, 8, 0, 0, 0, 8, 0, 0, 0, tag, 0, 0, 0, 2, 0, 0, 0,
        0x68, 0x69, 0, 0,
    ]
}

// The error of the union, 0 for none, and 99 for another fault.
fn union_error(bytes: &[u8]) -> usize {
    let schema = Schema {
        fields: &FIELDS,
        tables: &TABLES,
        variants: &VARIANTS,
    };
    let union = FieldPlace {
        table: 0,
        start: 12,
        slot: 0,
        item: None,
    };
    match verify(&schema, 0, bytes, Limits::default()) {
        Ok(_) => 0,
        Err(Fault::Field(place, kind)) => {
            if place == union {
                kind_number(kind)
            } else {
                99
            }
        }
        Err(_) => 99,
    }
}

// All bytes, and those that end one byte before.
fn errors(bytes: &[u8]) -> (usize, usize) {
    let short = match bytes.split_last() {
        Some((_, short)) => union_error(short),
        None => 99,
    };
    (union_error(bytes), short)
}

#[test]
fn strings_of_unions_end_with_a_zero(rt: HostRuntime) -> Result<(), Fail> {
    let mut bytes = with_tag(1);
    assert!(rt; errors(&bytes) == (0, 0), "a string");
    bytes[30] = 1;
    assert!(rt; errors(&bytes) == (7, 7), "no zero after it");
    Ok(())
}

#[test]
fn structs_of_unions_are_in_the_buffer(rt: HostRuntime) -> Result<(), Fail> {
    assert!(rt; errors(&with_tag(2)) == (0, 1), "a struct");
    assert!(rt; errors(&with_tag(3)) == (0, 0), "a tag of a later schema");
    Ok(())
}
