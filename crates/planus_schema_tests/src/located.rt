//! Where errors and faults are, by the names of fields.

use crate::digits::bytes_of;
use crate::printed::FLATC_ANNA;
use harbour::{ShipRef, read_as_root, verify_as_root, where_fault_is, where_is};
use planus::Error;
use planus_views::{FieldPath, Limits};
use std::alloc::{AllocError, Global};

/// No byte of UTF-8, and the last of no reference that leads into the buffer.
const DAMAGE: u8 = 255;

/// The place of a byte in the buffer, and the field that it is of.
const FAULTS: [(usize, &str); 8] = [
    (600, "name"),
    (516, "mate.name"),
    (420, "consorts[0].name"),
    (360, "owner.title"),
    (316, "shares[0].name"),
    (284, "shares[1].title"),
    (544, "names[0]"),
    (383, "consorts[0]"),
];

fn destroy(bytes: &mut Vec<u8>, place: usize) {
    if let Some(byte) = bytes.get_mut(place) {
        *byte = DAMAGE;
    }
}

fn damaged(alloc: Global, place: usize) -> Option<Vec<u8>> {
    let mut bytes = bytes_of(alloc, FLATC_ANNA)?;
    destroy(&mut bytes, place);
    Some(bytes)
}

fn says(path: Result<Option<FieldPath>, AllocError>, wanted: &str) -> bool {
    matches!(path, Ok(Some(path)) if path.as_str() == wanted)
}

fn fault_is(alloc: Global, bytes: &[u8], wanted: &str) -> bool {
    match verify_as_root(bytes, Limits::default()) {
        Ok(_) => false,
        Err(fault) => says(where_fault_is(alloc, &fault, bytes), wanted),
    }
}

fn is_found(alloc: Global, place: usize, wanted: &str) -> bool {
    matches!(damaged(alloc, place), Some(bytes) if fault_is(alloc, &bytes, wanted))
}

#[test]
fn faults_have_paths(rt: HostRuntime) {
    for (place, wanted) in FAULTS {
        assert!(rt; is_found(rt.alloc(), place, wanted));
    }
}

fn error_is(alloc: Global, error: &Error, bytes: &[u8], wanted: &str) -> bool {
    says(where_is(alloc, error, bytes), wanted)
}

fn mate_is_told(alloc: Global, ship: &ShipRef<'_>, bytes: &[u8]) -> bool {
    match ship.mate() {
        Ok(Some(mate)) => {
            matches!(mate.name(), Err(error) if error_is(alloc, &error, bytes, "mate.name"))
        }
        _ => false,
    }
}

fn name_is_told(alloc: Global, ship: &ShipRef<'_>, bytes: &[u8]) -> bool {
    let name = match ship.names() {
        Ok(Some(names)) => names.get(0),
        _ => None,
    };
    matches!(name, Some(Err(error)) if error_is(alloc, &error, bytes, "names[0]"))
}

fn consort_is_told(alloc: Global, ship: &ShipRef<'_>, bytes: &[u8]) -> bool {
    let consort = match ship.consorts() {
        Ok(Some(ships)) => ships.get(0),
        _ => None,
    };
    matches!(consort, Some(Err(error)) if error_is(alloc, &error, bytes, "consorts[0]"))
}

fn mates_error(alloc: Global, bytes: &[u8]) -> bool {
    matches!(read_as_root(bytes), Ok(ship) if mate_is_told(alloc, &ship, bytes))
}

fn names_error(alloc: Global, bytes: &[u8]) -> bool {
    matches!(read_as_root(bytes), Ok(ship) if name_is_told(alloc, &ship, bytes))
}

fn consorts_error(alloc: Global, bytes: &[u8]) -> bool {
    matches!(read_as_root(bytes), Ok(ship) if consort_is_told(alloc, &ship, bytes))
}

#[test]
fn errors_of_accessors_have_paths(rt: HostRuntime) {
    let alloc = rt.alloc();
    assert!(rt; matches!(damaged(alloc, 516), Some(bytes) if mates_error(alloc, &bytes)));
    assert!(rt; matches!(damaged(alloc, 544), Some(bytes) if names_error(alloc, &bytes)));
    assert!(rt; matches!(damaged(alloc, 383), Some(bytes) if consorts_error(alloc, &bytes)));
}
