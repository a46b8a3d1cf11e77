//! A struct of many fields, which is written and read in parts, is the bytes of another builder.

use planus::errors::ErrorKind;
use planus::{Plain, SliceWithStartOffset, TableRead};
use planus_views::Limits;
use quay::{Dive, Gear, QuayRef, QuayView, read_as_root, verify_as_root};

const DIVE: Dive = Dive {
    day: 0x0102_0304_0506_0708,
    diver: 9,
    depths: [-1, 2, -300],
    gear: Gear::Grab,
    seconds: 0x1234_5678,
    is_cold: true,
    pull: -0.25,
    marks: [Gear::Magnet, Gear::Hook],
    place: 2.5,
    cracks: 0x1234,
    left: Gear::Magnet,
    right: Gear::Grab,
    tied: Gear::Hook,
    lent: Gear::other_,
    raised: Gear::Grab,
};

// By flatc 2.0.8: a quay "East" with `DIVE`, from byte 48 on.
const QUAY: [u8; 120] = [
    32, 0, 0, 0, 0, 0, 0, 0, 24, 0, 12, 0, 4, 0, 0, 0, 0, 0, 0, 0, 0, 0, 0, 0, 0, 0, 0, 0, 0, 0, 8,
    0, 24, 0, 0, 0, 72, 0, 0, 0, 4, 0, 0, 0, 1, 0, 0, 0, 8, 7, 6, 5, 4, 3, 2, 1, 9, 0, 255, 255, 2,
    0, 212, 254, 1, 0, 0, 0, 120, 86, 52, 18, 1, 0, 0, 0, 0, 0, 128, 190, 2, 0, 0, 0, 0, 0, 0, 0,
    0, 0, 0, 0, 0, 0, 4, 64, 52, 18, 2, 1, 0, 100, 1, 0, 0, 0, 0, 0, 4, 0, 0, 0, 69, 97, 115, 116,
    0, 0, 0, 0,
];

fn are_its_bytes() -> bool {
    let mut dive = [7; 56];
    DIVE.put(&mut dive);
    dive.as_slice() == &QUAY[48..104]
}

fn is_checked(quay: &QuayRef<'_>) -> bool {
    let dive = match quay.dives() {
        Ok(Some(dives)) => dives.get(0),
        _ => None,
    };
    matches!(dive, Some(Ok(dive)) if dive == DIVE)
}

fn is_verified(quay: &QuayView<'_>) -> bool {
    let dive = match quay.dives() {
        Some(dives) => dives.get(0),
        None => None,
    };
    matches!(dive, Some(Ok(dive)) if dive == DIVE)
}

fn is_read() -> bool {
    matches!(read_as_root(&QUAY), Ok(quay) if is_checked(&quay))
        && matches!(verify_as_root(&QUAY, Limits::default()), Ok(quay) if is_verified(&quay))
}

fn dive_at(bytes: &[u8], offset: usize) -> Result<Dive, ErrorKind> {
    TableRead::from_buffer(SliceWithStartOffset::new(bytes, 0), offset)
}

fn has_unknown(bytes: &[u8], tag: i128) -> bool {
    matches!(
        dive_at(bytes, 48),
        Err(ErrorKind::UnknownEnumTag { source }) if source.tag == tag
    )
}

fn has_unknown_at(bytes: &mut [u8], place: usize, number: u8) -> bool {
    if let Some(byte) = bytes.get_mut(place) {
        *byte = number;
    }
    has_unknown(bytes, number as i128)
}

// Numbers that no gear has, each before those that stand there: of the second part, then of the first.
fn is_first_error() -> bool {
    let mut bytes = QUAY;
    has_unknown_at(&mut bytes, 102, 12)
        && has_unknown_at(&mut bytes, 101, 11)
        && has_unknown_at(&mut bytes, 98, 10)
        && has_unknown_at(&mut bytes, 81, 9)
        && has_unknown_at(&mut bytes, 80, 8)
        && has_unknown_at(&mut bytes, 64, 7)
}

#[test]
fn parts_are_their_bytes(rt: HostRuntime) {
    assert!(rt; are_its_bytes(), "bytes");
    assert!(rt; is_read(), "read");
    assert!(rt;
        is_first_error(),
        "the first number that the enum doesn't have"
    );
    assert!(rt;
        matches!(dive_at(&QUAY, 65), Err(ErrorKind::InvalidOffset)),
        "behind the end"
    );
}
