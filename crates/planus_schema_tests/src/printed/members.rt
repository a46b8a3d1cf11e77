//! Unions of tables, structs and strings are those of another builder, and read back.

use planus::errors::ErrorKind;
use planus::{BuildError, Builder, UnionVector, create_plain};
use planus_views::Limits;
use quay::{
    Berth, BerthRef, BerthView, Boat, BoatFields, Create, Gear, Load, Plate, Quay, QuayFields,
    QuayRef, QuayView, read_as_root, verify_as_root,
};
use std::alloc::Global;

const WAITING: Load = Load {
    pulls: [1.5, -0.25, 3.0],
    gear: Gear::Grab,
};

const EMPTY: Plate = Plate {
    letters: [65, 66, 67, 68],
    is_lit: true,
};

// By flatc 2.0.8: a quay "East", whose first berth has `WAITING`, with four berths: the note
// "Reserved", whose count is at byte 112, a boat "Ida", `EMPTY`, from byte 85 on, and a load.
const QUAY: [u8; 164] = [
    24, 0, 0, 0, 0, 0, 18, 0, 24, 0, 8, 0, 0, 0, 0, 0, 7, 0, 12, 0, 16, 0, 20, 0, 18, 0, 0, 0, 0,
    0, 0, 2, 120, 0, 0, 0, 100, 0, 0, 0, 88, 0, 0, 0, 4, 0, 0, 0, 4, 0, 0, 0, 60, 0, 0, 0, 40, 0,
    0, 0, 25, 0, 0, 0, 4, 0, 0, 0, 0, 0, 0, 0, 0, 0, 0, 0, 0, 0, 0, 193, 0, 0, 0, 0, 0, 65, 66, 67,
    68, 1, 6, 0, 8, 0, 4, 0, 6, 0, 0, 0, 4, 0, 0, 0, 3, 0, 0, 0, 73, 100, 97, 0, 8, 0, 0, 0, 82,
    101, 115, 101, 114, 118, 101, 100, 0, 0, 0, 0, 4, 0, 0, 0, 4, 1, 3, 2, 0, 0, 192, 63, 0, 0,
    128, 190, 0, 0, 64, 64, 1, 0, 0, 0, 4, 0, 0, 0, 69, 97, 115, 116, 0, 0, 0, 0,
];

fn is_waiting(berth: &BerthRef<'_>) -> bool {
    matches!(berth, BerthRef::Waiting(load) if matches!(load.get(), Ok(load) if load == WAITING))
}

fn is_empty(berth: &BerthRef<'_>) -> bool {
    matches!(berth, BerthRef::Empty(plate) if plate.value() == EMPTY)
}

fn is_noted(berth: &BerthRef<'_>) -> bool {
    matches!(berth, BerthRef::Note("Reserved"))
}

fn is_boat(berth: &BerthRef<'_>) -> bool {
    matches!(berth, BerthRef::Boat(boat) if matches!(boat.name(), Ok("Ida")))
}

fn are_berths<'a>(berths: &UnionVector<'a, BerthRef<'a>>) -> bool {
    berths.len() == 4
        && matches!(berths.get(0), Some(Ok(berth)) if is_noted(&berth))
        && matches!(berths.get(1), Some(Ok(berth)) if is_boat(&berth))
        && matches!(berths.get(2), Some(Ok(berth)) if is_empty(&berth))
        && matches!(berths.get(3), Some(Ok(BerthRef::Waiting(_))))
}

fn is_checked(quay: &QuayRef<'_>) -> bool {
    matches!(quay.first(), Ok(Some(berth)) if is_waiting(&berth))
        && matches!(quay.berths(), Ok(Some(berths)) if are_berths(&berths))
}

fn is_seen_waiting(berth: &BerthView<'_>) -> bool {
    matches!(berth, BerthView::Waiting(load) if matches!(load.get(), Ok(load) if load == WAITING))
}

fn is_verified(quay: &QuayView<'_>) -> bool {
    let Some(berths) = quay.berths() else {
        return false;
    };
    matches!(quay.first(), Some(berth) if is_seen_waiting(&berth))
        && berths.len() == 4
        && matches!(berths.get(0), Some(BerthView::Note("Reserved")))
        && matches!(berths.get(1), Some(BerthView::Boat(boat)) if boat.name() == "Ida")
        && matches!(berths.get(2), Some(BerthView::Empty(plate)) if plate.value() == EMPTY)
        && matches!(berths.get(3), Some(BerthView::Waiting(_)))
}

fn is_read(bytes: &[u8]) -> bool {
    matches!(read_as_root(bytes), Ok(quay) if is_checked(&quay))
        && matches!(verify_as_root(bytes, Limits::default()), Ok(quay) if is_verified(&quay))
}

fn error_at(bytes: &[u8], index: usize) -> Option<ErrorKind> {
    let Ok(quay) = read_as_root(bytes) else {
        return None;
    };
    match quay.berths() {
        Ok(Some(berths)) => match berths.get(index) {
            Some(Err(error)) => Some(error.error_kind),
            _ => None,
        },
        _ => None,
    }
}

fn is_not_verified(bytes: &[u8]) -> bool {
    verify_as_root(bytes, Limits::default()).is_err()
}

// The reference of the load, at byte 64, leads to one of its last 13 bytes.
fn ends_past_the_buffer() -> bool {
    let mut bytes = QUAY;
    bytes[64] = 88;
    matches!(error_at(&bytes, 3), Some(ErrorKind::InvalidOffset)) && is_not_verified(&bytes)
}

// No zero is after the note.
fn ends_without_zero() -> bool {
    let mut bytes = QUAY;
    bytes[124] = 1;
    matches!(error_at(&bytes, 0), Some(ErrorKind::MissingNullTerminator)) && is_not_verified(&bytes)
}

fn writes_quay(builder: &mut Builder) -> std::result::Result<bool, BuildError> {
    let note = builder.create_string("Reserved")?;
    let boat = Boat::create(builder, BoatFields { name: "Ida" })?;
    let empty = create_plain(builder, &EMPTY)?;
    let waiting = create_plain(builder, &WAITING)?;
    let quay = QuayFields {
        name: "East",
        plate: None,
        cranes: None,
        first: Some(Berth::from_waiting(waiting)),
        berths: &[
            Berth::from_note(note),
            Berth::from_boat(boat),
            Berth::from_empty(empty),
            Berth::from_waiting(waiting),
        ],
        boats: None,
        fees: None,
        dives: None,
        slips: None,
    };
    let quay = Quay::create(builder, quay)?;
    let bytes = builder.finish(quay, None)?;
    Ok(is_read(bytes))
}

fn in_builder(alloc: Global) -> bool {
    match Builder::new(alloc) {
        Ok(mut builder) => matches!(writes_quay(&mut builder), Ok(true)),
        Err(_) => false,
    }
}

#[test]
fn members_are_read(rt: HostRuntime) {
    assert!(rt; is_read(&QUAY), "by another builder");
    assert!(rt; in_builder(rt.alloc()), "written here");
    assert!(rt; ends_past_the_buffer(), "a struct that isn't all there");
    assert!(rt; ends_without_zero(), "a string without its zero");
}
