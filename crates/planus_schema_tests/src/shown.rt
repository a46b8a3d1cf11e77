//! What `Debug` shows of views and of flags.

use crate::digits::bytes_of;
use crate::printed::FLATC_ANNA;
use harbour::{Needs, PersonRef, read_as_root, verify_as_root};
use planus::read_root;
use planus_views::Limits;
use std::alloc::Global;
use std::fmt::Debug;

const CHECKED: &str = "ShipRef { name: Ok(\"Anna\"), hull: Ok(512), cargo: Ok(Some([7, \
    4294967295])), kind: Ok(Ship), level: Ok(High), needs: Ok(Needs(WATER | POWER)), home: \
    Ok(Some(Pos { lat: 53, lon: -10, alt: -3 })), track: Ok(Some([Pos { lat: 5, lon: 6, alt: 7 }, \
    Pos { lat: 53, lon: -10, alt: -3 }])), heat: Ok(0.25), depth: Ok(-7), open: Ok(false), shut: \
    Ok(true), maybe: Ok(Some(0)), photo: Ok(Some([1, 2, 255])), names: Ok(Some([Ok(\"a\"), \
    Ok(\"\")])), mate: ShipRef@0x1e0, consorts: [ShipRef]@0x178, kinds: Ok(Some([Ok(Ship), \
    Ok(Car)])), owner: Ok(Some(Firm(CompanyRef { title: Ok(Some(\"Line\")), vat: Ok(Some([9])) \
    }))), shares: Ok(Some([Ok(Person(PersonRef { name: Ok(\"Pia\"), age: Ok(44) })), \
    Ok(Firm(CompanyRef { title: Ok(Some(\"Line\")), vat: Ok(Some([9])) }))])), tall: \
    Ok(-9000000000), temps: Ok(Some([1.5, -0.5])), deltas: Ok(Some([-128, 127])), fix: Ok(Fix { \
    when: 18446744073709551615, at: Pos { lat: 5, lon: 6, alt: 7 }, kind: Ship }), which: \
    Ok(Some(Bike)), flags: Ok(Some([true, false])) }";

/// A person without a name.
const NAMELESS: [u8; 16] = [12, 0, 0, 0, 0, 0, 0, 0, 4, 0, 4, 0, 4, 0, 0, 0];

const FAULT: &str = "PersonRef { name: Err(Error { source_location: ErrorLocation { type_: \
    \"Person\", method: \"name\", byte_offset: 12 }, error_kind: MissingRequired }), age: Ok(18) }";

fn shows<T: Debug>(alloc: Global, value: &T, wanted: &str) -> bool {
    matches!(format!(in alloc; "{value:?}"), Ok(text) if text.as_str() == wanted)
}

fn shows_checked(alloc: Global, bytes: &[u8]) -> bool {
    matches!(read_as_root(bytes), Ok(ship) if shows(alloc, &ship, CHECKED))
}

// What is within `ShipView(` and `)`.
fn inner(text: &str) -> Option<&str> {
    text.strip_prefix("ShipView(")?.strip_suffix(')')
}

fn shows_verified(alloc: Global, bytes: &[u8]) -> bool {
    let Ok(ship) = verify_as_root(bytes, Limits::default()) else {
        return false;
    };
    matches!(format!(in alloc; "{ship:?}"), Ok(text) if inner(text.as_str()) == Some(CHECKED))
}

fn shows_fault(alloc: Global) -> bool {
    let person: planus::Result<PersonRef<'_>> = read_root(&NAMELESS);
    matches!(person, Ok(person) if shows(alloc, &person, FAULT))
}

#[test]
fn views_show_their_fields(rt: HostRuntime) {
    let alloc = rt.alloc();
    let shown = match bytes_of(alloc, FLATC_ANNA) {
        Some(bytes) => shows_checked(alloc, &bytes) && shows_verified(alloc, &bytes),
        None => false,
    };
    assert!(rt; shown);
    assert!(rt; shows_fault(alloc));
}

#[test]
fn flags_show_their_names(rt: HostRuntime) {
    let rows = [
        (0, "Needs(NOTHING)"),
        (2, "Needs(POWER)"),
        (3, "Needs(WATER | POWER)"),
        (9, "Needs(WATER | 0x8)"),
        (65528, "Needs(0xfff8)"),
    ];
    for (bits, wanted) in rows {
        assert!(rt; shows(rt.alloc(), &Needs { bits }, wanted));
    }
}
