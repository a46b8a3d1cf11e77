//! Structs with arrays are the bytes of another builder.

use planus::errors::ErrorKind;
use planus::{Plain, SliceWithStartOffset, TableRead};
use planus_views::Limits;
use quay::{Crane, Gear, Load, Plate, QuayRef, QuayView, read_as_root, verify_as_root};

const CRANE: Crane = Crane {
    number: 7,
    loads: [
        Load {
            pulls: [1.5, -0.25, 3.0],
            gear: Gear::Grab,
        },
        Load {
            pulls: [0.0, 0.0, -8.0],
            gear: Gear::Hook,
        },
    ],
    spares: [Gear::Magnet, Gear::Hook, Gear::Grab],
    hours: [1, u64::MAX],
};

const PLATE: Plate = Plate {
    letters: [65, 66, 67, 68],
    is_lit: true,
};

// By flatc 2.0.8: a quay "East" with `PLATE`, from byte 27 on, and `CRANE`, from byte 40 on.
const QUAY: [u8; 112] = [
    16, 0, 0, 0, 0, 0, 10, 0, 20, 0, 4, 0, 11, 0, 16, 0, 10, 0, 0, 0, 80, 0, 0, 0, 0, 0, 0, 65, 66,
    67, 68, 1, 4, 0, 0, 0, 1, 0, 0, 0, 7, 0, 0, 0, 0, 0, 192, 63, 0, 0, 128, 190, 0, 0, 64, 64, 1,
    0, 0, 0, 0, 0, 0, 0, 0, 0, 0, 0, 0, 0, 0, 193, 0, 0, 0, 0, 2, 0, 1, 0, 1, 0, 0, 0, 0, 0, 0, 0,
    255, 255, 255, 255, 255, 255, 255, 255, 0, 0, 0, 0, 4, 0, 0, 0, 69, 97, 115, 116, 0, 0, 0, 0,
];

fn are_their_bytes() -> bool {
    let mut crane = [7; 56];
    CRANE.put(&mut crane);
    let mut plate = [7; 5];
    PLATE.put(&mut plate);
    crane.as_slice() == &QUAY[40..96] && plate.as_slice() == &QUAY[27..32]
}

fn is_checked(quay: &QuayRef<'_>) -> bool {
    let crane = match quay.cranes() {
        Ok(Some(cranes)) => cranes.get(0),
        _ => None,
    };
    matches!(quay.plate(), Ok(Some(plate)) if plate == PLATE)
        && matches!(crane, Some(Ok(crane)) if crane == CRANE)
}

fn is_verified(quay: &QuayView<'_>) -> bool {
    let crane = match quay.cranes() {
        Some(cranes) => cranes.get(0),
        None => None,
    };
    quay.name() == "East"
        && matches!(quay.plate(), Some(plate) if plate == PLATE)
        && matches!(crane, Some(Ok(crane)) if crane == CRANE)
}

fn are_read() -> bool {
    matches!(read_as_root(&QUAY), Ok(quay) if is_checked(&quay))
        && matches!(verify_as_root(&QUAY, Limits::default()), Ok(quay) if is_verified(&quay))
}

fn crane_at(bytes: &[u8], offset: usize) -> Result<Crane, ErrorKind> {
    TableRead::from_buffer(SliceWithStartOffset::new(bytes, 0), offset)
}

// The number 9 stands for the second gear of three.
fn is_unknown() -> bool {
    let mut bytes = QUAY;
    bytes[77] = 9;
    matches!(
        crane_at(&bytes, 40),
        Err(ErrorKind::UnknownEnumTag { source }) if source.tag == 9
    ) && matches!(crane_at(&bytes, 57), Err(ErrorKind::InvalidOffset))
}

#[test]
fn arrays_are_their_bytes(rt: HostRuntime) {
    assert!(rt; are_their_bytes(), "bytes");
    assert!(rt; are_read(), "read");
    assert!(rt; is_unknown(), "a number that the enum doesn't have");
}
