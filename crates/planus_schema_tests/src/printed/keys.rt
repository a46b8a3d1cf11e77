//! Look-up by key finds what is in vectors that another program sorted.

use planus::errors::ErrorKind;
use planus_keys::{TextKey, find};
use planus_views::Limits;
use quay::{Boat, Fee, Gear, read_as_root, verify_as_root};

// By flatc 2.0.8, which sorts by the keys: a quay "East" with the boats "Anna", "Bo", "Ida" and
// "Ida B", the last with its letters from byte 140 on, and the fees 5 of a hook and 9 of a magnet,
// whose number is at byte 87.
const QUAY: [u8; 200] = [
    28, 0, 0, 0, 0, 0, 22, 0, 16, 0, 4, 0, 0, 0, 0, 0, 0, 0, 0, 0, 0, 0, 0, 0, 8, 0, 12, 0, 22, 0,
    0, 0, 156, 0, 0, 0, 56, 0, 0, 0, 4, 0, 0, 0, 2, 0, 0, 0, 16, 0, 0, 0, 28, 0, 0, 0, 8, 0, 8, 0,
    0, 0, 4, 0, 8, 0, 0, 0, 5, 0, 0, 0, 8, 0, 12, 0, 7, 0, 8, 0, 8, 0, 0, 0, 0, 0, 0, 2, 9, 0, 0,
    0, 4, 0, 0, 0, 52, 0, 0, 0, 12, 0, 0, 0, 68, 0, 0, 0, 20, 0, 0, 0, 202, 255, 255, 255, 4, 0, 0,
    0, 2, 0, 0, 0, 66, 111, 0, 0, 218, 255, 255, 255, 4, 0, 0, 0, 5, 0, 0, 0, 73, 100, 97, 32, 66,
    0, 0, 0, 238, 255, 255, 255, 4, 0, 0, 0, 4, 0, 0, 0, 65, 110, 110, 97, 0, 0, 6, 0, 8, 0, 4, 0,
    6, 0, 0, 0, 4, 0, 0, 0, 3, 0, 0, 0, 73, 100, 97, 0, 4, 0, 0, 0, 69, 97, 115, 116, 0, 0, 0, 0,
];

fn has_boat(bytes: &[u8], name: &str) -> planus::Result<bool> {
    let Some(boats) = read_as_root(bytes)?.boats()? else {
        return Ok(false);
    };
    match find(&boats, &Boat, &TextKey(name))? {
        Some(boat) => Ok(boat.name()? == name),
        None => Ok(false),
    }
}

fn has_verified_boat(bytes: &[u8], name: &str) -> Option<bool> {
    let quay = verify_as_root(bytes, Limits::default()).ok()?;
    match find(&quay.boats()?, &Boat, &TextKey(name)).ok()? {
        Some(boat) => Some(boat.name() == name),
        None => Some(false),
    }
}

fn fee_of(bytes: &[u8], gear: Gear) -> planus::Result<Option<u32>> {
    let Some(fees) = read_as_root(bytes)?.fees()? else {
        return Ok(None);
    };
    match find(&fees, &Fee, &gear)? {
        Some(fee) => Ok(Some(fee.euros()?)),
        None => Ok(None),
    }
}

// Or why a number is no gear.
fn verified_fee_of(bytes: &[u8], gear: Gear) -> Result<Option<u32>, ErrorKind> {
    let fees = match verify_as_root(bytes, Limits::default()) {
        Ok(quay) => quay.fees(),
        Err(_) => None,
    };
    let Some(fees) = fees else {
        return Ok(None);
    };
    match find(&fees, &Fee, &gear)? {
        Some(fee) => Ok(Some(fee.euros())),
        None => Ok(None),
    }
}

fn are_found() -> bool {
    let mut all = true;
    for (name, there) in [
        ("Anna", true),
        ("Bo", true),
        ("Ida", true),
        ("Ida B", true),
        ("", false),
        ("Ann", false),
        ("Ida A", false),
        ("Z", false),
    ] {
        all = all
            && matches!(has_boat(&QUAY, name), Ok(found) if found == there)
            && has_verified_boat(&QUAY, name) == Some(there);
    }
    all
}

fn have_fees() -> bool {
    let mut all = true;
    for (gear, euros) in [
        (Gear::Hook, Some(5)),
        (Gear::Grab, None),
        (Gear::Magnet, Some(9)),
    ] {
        all = all
            && matches!(fee_of(&QUAY, gear), Ok(found) if found == euros)
            && matches!(verified_fee_of(&QUAY, gear), Ok(found) if found == euros);
    }
    all
}

// The last boat's first letter is no text, and the last fee's gear none that there is.
fn are_errors() -> bool {
    let mut bytes = QUAY;
    bytes[140] = 0xff;
    let named = matches!(has_boat(&bytes, "Anna"), Ok(true))
        && matches!(has_boat(&bytes, "Z"), Err(error)
            if matches!(error.error_kind, ErrorKind::InvalidUtf8 { .. }));
    let mut bytes = QUAY;
    bytes[87] = 9;
    named
        && matches!(fee_of(&bytes, Gear::Magnet), Err(error)
            if matches!(error.error_kind, ErrorKind::UnknownEnumTag { .. }))
        && matches!(
            verified_fee_of(&bytes, Gear::Magnet),
            Err(ErrorKind::UnknownEnumTag { .. })
        )
}

#[test]
fn keys_are_found(rt: HostRuntime) {
    assert!(rt; are_found(), "by a string");
    assert!(rt; have_fees(), "by an enum");
    assert!(rt; are_errors(), "damaged");
}
