//! Trails to the places of a buffer, as it is and damaged, by hand from its bytes.

use super::ship::{SHIP, ships};
use crate::{FieldPlace, Limits, Sought, trail};
use std::alloc::Global;
use std::test::Fail;

fn at(table: usize, start: usize, slot: usize, item: Option<usize>) -> FieldPlace {
    FieldPlace {
        table,
        start,
        slot,
        item,
    }
}

// Whether these fields are the trail to the last of them.
fn leads(alloc: Global, bytes: &[u8], limits: Limits, fields: &[FieldPlace]) -> bool {
    let Some(place) = fields.last() else {
        return false;
    };
    match trail(&ships(), 0, bytes, limits, Sought::Field(*place), alloc) {
        Ok(Some(steps)) => steps.as_slice() == fields,
        _ => false,
    }
}

// The ship's consorts are at 276 and 240, the mate of the second at 252.
fn all_lead(alloc: Global, bytes: &[u8], limits: Limits) -> bool {
    let root = [at(0, 32, 0, None)];
    let mate = [
        at(0, 32, 6, Some(1)),
        at(0, 240, 5, None),
        at(0, 252, 0, None),
    ];
    let owner = [at(0, 32, 7, None), at(2, 184, 0, None)];
    let holder = [at(0, 32, 9, Some(1)), at(2, 124, 0, None)];
    let log = [at(0, 32, 11, None), at(1, 12, 0, None)];
    leads(alloc, bytes, limits, &root)
        && leads(alloc, bytes, limits, &mate)
        && leads(alloc, bytes, limits, &owner)
        && leads(alloc, bytes, limits, &holder)
        && leads(alloc, bytes, limits, &log)
}

#[test]
fn trails_are_those_of_the_bytes(rt: HostRuntime) -> Result<(), Fail> {
    let limits = Limits {
        depth: 3,
        tables: 9,
    };
    assert!(rt; all_lead(rt.alloc(), &SHIP, limits), "as it is");
    // The references to the mate and to the first consort lead out of the buffer.
    let mut damaged = SHIP;
    damaged[59] = 0xff;
    damaged[219] = 0xff;
    let limits = Limits {
        depth: 3,
        tables: 7,
    };
    assert!(rt; all_lead(rt.alloc(), &damaged, limits), "damaged");
    Ok(())
}

fn is_lost(alloc: Global, sought: Sought, depth: u8, tables: usize) -> bool {
    matches!(
        trail(&ships(), 0, &SHIP, Limits { depth, tables }, sought, alloc),
        Ok(None)
    )
}

#[test]
fn places_beyond_the_limits_have_none(rt: HostRuntime) -> Result<(), Fail> {
    for (place, depth, tables) in [
        (at(0, 33, 0, None), 3, 9),
        (at(1, 32, 0, None), 3, 9),
        (at(0, 252, 0, None), 2, 9),
        (at(1, 12, 0, None), 3, 8),
    ] {
        assert!(rt;
            is_lost(rt.alloc(), Sought::Field(place), depth, tables),
            "{place:?}"
        );
    }
    Ok(())
}

fn is_item(alloc: Global, bytes: &[u8], begin: usize, item: FieldPlace) -> bool {
    let limits = Limits::default();
    match trail(&ships(), 0, bytes, limits, Sought::Item(begin), alloc) {
        Ok(Some(steps)) => steps.as_slice() == [item].as_slice(),
        _ => false,
    }
}

// The ship's names have their references at 316, its consorts at 216.
#[test]
fn items_that_cant_be_read_are_found(rt: HostRuntime) -> Result<(), Fail> {
    let mut damaged = SHIP;
    damaged[323] = 0xff;
    damaged[219] = 0xff;
    let name = at(0, 32, 4, Some(1));
    let consort = at(0, 32, 6, Some(0));
    assert!(rt; is_item(rt.alloc(), &damaged, 316, name), "a name");
    assert!(rt; is_item(rt.alloc(), &damaged, 216, consort), "a consort");
    assert!(rt; is_lost(rt.alloc(), Sought::Item(216), 3, 9), "read");
    Ok(())
}
