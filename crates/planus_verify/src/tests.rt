//! A buffer as it is, cut short, and with each byte changed, beside a plain verifier's answers.

mod ship;
mod trails;
mod unions;

use crate::{Fault, FieldPlace, Limits, Schema, verify};
use planus_read::errors::ErrorKind;
use planus_read::table_reader::Table;
use ship::{LINKED, LINKS, SHIP, ships};
use std::test::Fail;

fn verified(bytes: &[u8], depth: u8, tables: usize) -> Result<Table<'_>, Fault> {
    verify(&ships(), 0, bytes, Limits { depth, tables })
}

fn kind_number(kind: ErrorKind) -> usize {
    match kind {
        ErrorKind::InvalidOffset => 1,
        ErrorKind::InvalidLength => 2,
        ErrorKind::UnionVectorLengthsMismatched { .. } => 3,
        ErrorKind::InvalidVtableLength { .. } => 4,
        ErrorKind::InvalidUtf8 { .. } => 5,
        ErrorKind::MissingRequired => 6,
        ErrorKind::MissingNullTerminator => 7,
        ErrorKind::UnknownEnumTag { .. } => 8,
        ErrorKind::UnknownUnionTag { .. } => 9,
    }
}

fn and_then(number: usize, factor: usize, next: usize) -> usize {
    number.wrapping_mul(factor).wrapping_add(next)
}

fn field_number(place: FieldPlace, kind: ErrorKind) -> usize {
    let item = match place.item {
        Some(item) => item.wrapping_add(1) % 8,
        None => 0,
    };
    let table = and_then(place.table.wrapping_add(1), 512, place.start);
    let slot = and_then(table, 16, place.slot);
    and_then(and_then(slot, 8, item), 16, kind_number(kind))
}

// An answer as a number, which has all of a fault.
fn answer_number(answer: Result<Table<'_>, Fault>) -> usize {
    match answer {
        Ok(_) => 0,
        Err(Fault::TooDeep) => 1,
        Err(Fault::TooMany) => 2,
        Err(Fault::Root(kind)) => kind_number(kind).wrapping_add(16),
        Err(Fault::Field(place, kind)) => field_number(place, kind),
    }
}

#[test]
fn limits_are_those_that_are_said(rt: HostRuntime) -> Result<(), Fail> {
    assert!(rt; verified(&SHIP, 3, 9).is_ok(), "refused within the limits");
    assert!(rt;
        matches!(verified(&SHIP, 2, 9), Err(Fault::TooDeep)),
        "passed a depth of 2"
    );
    assert!(rt;
        matches!(verified(&SHIP, 3, 8), Err(Fault::TooMany)),
        "passed 8 tables"
    );
    Ok(())
}

#[test]
fn prefixes_are_refused_as_by_a_plain_verifier(rt: HostRuntime) -> Result<(), Fail> {
    let mut total = 0;
    for n in 0..SHIP.len() {
        let answer = answer_number(verified(&SHIP[..n], 64, 100));
        total = and_then(total, 31, answer);
    }
    assert!(rt; total == 5_581_518_824_922_705_024, "{total}");
    Ok(())
}

// All answers where each byte in turn is changed.
fn changed(change: u8) -> usize {
    let mut bytes = SHIP;
    let mut total = 0;
    for at in 0..SHIP.len() {
        bytes[at] = SHIP[at] ^ change;
        let answer = answer_number(verified(&bytes, 64, 100));
        total = and_then(total, 31, answer);
        bytes[at] = SHIP[at];
    }
    total
}

#[test]
fn changed_bytes_are_refused_as_by_a_plain_verifier(rt: HostRuntime) -> Result<(), Fail> {
    for (change, wanted) in [
        (1, 1_157_637_890_759_441_536),
        (0x80, 4_983_497_565_605_907_196),
        (0xff, 2_308_462_318_088_447_263),
    ] {
        let total = changed(change);
        assert!(rt; total == wanted, "{change}: {total}");
    }
    Ok(())
}

// A table of 16 bytes with its vtable: a reference to the next one, or none.
fn link(last: bool) -> [u8; 16] {
    let size = if last { 4 } else { 6 };
    [
        0xf8, 0xff, 0xff, 0xff, 12, 0, 0, 0, size, 0, 8, 0, 4, 0, 0, 0,
    ]
}

// So many tables, each in the one before it.
fn chain(count: usize) -> [u8; 4104] {
    let mut bytes = [0; 4104];
    bytes[0] = 4;
    for i in 0..256_usize {
        let one = link(i.wrapping_add(1) == count);
        for (k, byte) in one.iter().enumerate() {
            bytes[4 + 16 * i + k] = *byte;
        }
    }
    bytes
}

#[test]
fn tables_stand_in_tables_to_the_greatest_depth(rt: HostRuntime) {
    let schema = Schema {
        fields: &LINKS,
        tables: &LINKED,
        variants: &[],
    };
    let limits = Limits {
        depth: u8::MAX,
        tables: 1000,
    };
    assert!(rt; verify(&schema, 0, &chain(255), limits).is_ok());
    assert!(rt; matches!(verify(&schema, 0, &chain(256), limits), Err(Fault::TooDeep)));
}
