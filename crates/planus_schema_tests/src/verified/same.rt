//! What the verified view of a ship reads is what the checked one reads.

use harbour::{
    CompanyRef, CompanyView, Kind, OwnerRef, OwnerView, PersonRef, PersonView, ShipRef, ShipView,
};
use planus::errors::ErrorKind;
use planus::union_item;

// An enum's number that its schema doesn't have is an error of both.
fn is_same_kind(verified: Result<Kind, ErrorKind>, checked: planus::Result<Kind>) -> bool {
    match (verified, checked) {
        (Ok(left), Ok(right)) => left == right,
        (Err(_), Err(_)) => true,
        _ => false,
    }
}

fn is_same_float(left: f32, right: f32) -> bool {
    left == right || left.is_nan() && right.is_nan()
}

fn has_same_numbers(verified: &ShipView<'_>, checked: &ShipRef<'_>) -> bool {
    matches!(checked.name(), Ok(name) if name == verified.name())
        && matches!(checked.hull(), Ok(hull) if hull == verified.hull())
        && is_same_kind(verified.kind(), checked.kind())
        && matches!(checked.needs(), Ok(needs) if needs.bits == verified.needs().bits)
        && matches!(checked.home(), Ok(home) if home == verified.home())
        && matches!(checked.heat(), Ok(heat) if is_same_float(heat, verified.heat()))
        && matches!(checked.depth(), Ok(depth) if depth == verified.depth())
        && matches!(checked.maybe(), Ok(maybe) if maybe == verified.maybe())
        && matches!(checked.tall(), Ok(tall) if tall == verified.tall())
}

fn has_same_cargo(verified: &ShipView<'_>, checked: &ShipRef<'_>) -> bool {
    match (verified.cargo(), checked.cargo()) {
        (Some(left), Ok(Some(right))) => {
            let mut same = left.len() == right.len();
            for i in 0..left.len() {
                same = same && left.get(i) == right.get(i);
            }
            same
        }
        (None, Ok(None)) => true,
        _ => false,
    }
}

fn has_same_names(verified: &ShipView<'_>, checked: &ShipRef<'_>) -> bool {
    match (verified.names(), checked.names()) {
        (Some(left), Ok(Some(right))) => {
            let mut same = left.len() == right.len();
            for i in 0..left.len() {
                let name = left.get(i);
                same = same && matches!(right.get(i), Some(Ok(text)) if name == Some(text));
            }
            same
        }
        (None, Ok(None)) => true,
        _ => false,
    }
}

fn is_same_person(verified: &PersonView<'_>, checked: &PersonRef<'_>) -> bool {
    matches!(checked.name(), Ok(name) if name == verified.name())
        && matches!(checked.age(), Ok(age) if age == verified.age())
}

fn is_same_company(verified: &CompanyView<'_>, checked: &CompanyRef<'_>) -> bool {
    matches!(checked.title(), Ok(title) if title == verified.title())
        && matches!(checked.vat(), Ok(vat) if vat == verified.vat())
}

// A tag that its schema doesn't have is a variant of one and an error of the other.
fn is_same_owner(verified: &OwnerView<'_>, checked: planus::Result<OwnerRef<'_>>) -> bool {
    match (verified, checked) {
        (OwnerView::Person(left), Ok(OwnerRef::Person(right))) => is_same_person(left, &right),
        (OwnerView::Firm(left), Ok(OwnerRef::Firm(right))) => is_same_company(left, &right),
        (OwnerView::Unknown(_), Err(_)) => true,
        _ => false,
    }
}

fn has_same_owner(verified: &ShipView<'_>, checked: &ShipRef<'_>) -> bool {
    match (verified.owner(), checked.owner()) {
        (Some(left), Ok(Some(right))) => is_same_owner(&left, Ok(right)),
        (Some(left), Err(error)) => is_same_owner(&left, Err(error)),
        (None, Ok(None)) => true,
        _ => false,
    }
}

fn has_same_shares(verified: &ShipView<'_>, checked: &ShipRef<'_>) -> bool {
    match (verified.shares(), checked.shares()) {
        (Some(left), Ok(Some(right))) => {
            let mut same = left.len() == right.len();
            for i in 0..left.len() {
                same = same
                    && match (left.get(i), union_item(&right, i)) {
                        (Some(left), Some(right)) => is_same_owner(&left, right),
                        _ => false,
                    };
            }
            same
        }
        (None, Ok(None)) => true,
        _ => false,
    }
}

fn has_same_fields(verified: &ShipView<'_>, checked: &ShipRef<'_>) -> bool {
    has_same_numbers(verified, checked)
        && has_same_cargo(verified, checked)
        && has_same_names(verified, checked)
        && has_same_owner(verified, checked)
        && has_same_shares(verified, checked)
}

fn has_same_mate(verified: &ShipView<'_>, checked: &ShipRef<'_>) -> bool {
    match (verified.mate(), checked.mate()) {
        (Some(left), Ok(Some(right))) => has_same_fields(&left, &right),
        (None, Ok(None)) => true,
        _ => false,
    }
}

fn has_same_consorts(verified: &ShipView<'_>, checked: &ShipRef<'_>) -> bool {
    match (verified.consorts(), checked.consorts()) {
        (Some(left), Ok(Some(right))) => {
            let mut same = left.len() == right.len();
            for i in 0..left.len() {
                same = same
                    && match (left.get(i), right.get(i)) {
                        (Some(left), Some(Ok(right))) => has_same_fields(&left, &right),
                        _ => false,
                    };
            }
            same
        }
        (None, Ok(None)) => true,
        _ => false,
    }
}

/// Whether both read the same ship, with the ships that it refers to.
pub fn is_same_ship(verified: &ShipView<'_>, checked: &ShipRef<'_>) -> bool {
    has_same_fields(verified, checked)
        && has_same_mate(verified, checked)
        && has_same_consorts(verified, checked)
}
