//! Whether the checked views of a ship and of all that it leads to read each field without an error.

use harbour::{CompanyRef, OwnerRef, PersonRef, ShipRef};
use planus::errors::ErrorKind;
use planus::{text_item, union_item};
use std::alloc::Global;

/// More than a buffer of these tests leads to.
const MOST_SHIPS: usize = 10_000;

// An enum's number and a union's tag may be of a newer schema.
fn is_newer(error: &planus::Error) -> bool {
    matches!(
        error.error_kind,
        ErrorKind::UnknownEnumTag { .. } | ErrorKind::UnknownUnionTag { .. }
    )
}

fn is_read<T>(read: &planus::Result<T>) -> bool {
    match read {
        Ok(_) => true,
        Err(error) => is_newer(error),
    }
}

fn is_person(person: &PersonRef<'_>) -> bool {
    matches!(person.name(), Ok(_)) && matches!(person.age(), Ok(_))
}

fn is_company(company: &CompanyRef<'_>) -> bool {
    matches!(company.title(), Ok(_)) && matches!(company.vat(), Ok(_))
}

fn is_owner(owner: &OwnerRef<'_>) -> bool {
    match owner {
        OwnerRef::Person(person) => is_person(person),
        OwnerRef::Firm(company) => is_company(company),
    }
}

fn has_numbers(ship: &ShipRef<'_>) -> bool {
    matches!(ship.name(), Ok(_))
        && is_read(&ship.hull())
        && is_read(&ship.kind())
        && is_read(&ship.level())
        && is_read(&ship.needs())
        && is_read(&ship.home())
        && is_read(&ship.heat())
        && is_read(&ship.depth())
        && is_read(&ship.open())
        && is_read(&ship.shut())
        && is_read(&ship.maybe())
        && is_read(&ship.tall())
        && is_read(&ship.fix())
        && is_read(&ship.which())
}

fn has_vectors(ship: &ShipRef<'_>) -> bool {
    matches!(ship.cargo(), Ok(_))
        && matches!(ship.track(), Ok(_))
        && matches!(ship.photo(), Ok(_))
        && matches!(ship.kinds(), Ok(_))
        && matches!(ship.temps(), Ok(_))
        && matches!(ship.deltas(), Ok(_))
        && matches!(ship.flags(), Ok(_))
}

fn has_names(ship: &ShipRef<'_>) -> bool {
    match ship.names() {
        Ok(Some(names)) => {
            for i in 0..names.len() {
                if !matches!(text_item(&names, i), Some(Ok(_))) {
                    return false;
                }
            }
            true
        }
        Ok(None) => true,
        Err(_) => false,
    }
}

fn has_owner(ship: &ShipRef<'_>) -> bool {
    match ship.owner() {
        Ok(Some(owner)) => is_owner(&owner),
        Ok(None) => true,
        Err(error) => is_newer(&error),
    }
}

fn has_shares(ship: &ShipRef<'_>) -> bool {
    let shares = match ship.shares() {
        Ok(Some(shares)) => shares,
        Ok(None) => return true,
        Err(_) => return false,
    };
    for i in 0..shares.len() {
        let is_there = match union_item(&shares, i) {
            Some(Ok(owner)) => is_owner(&owner),
            Some(Err(error)) => is_newer(&error),
            None => false,
        };
        if !is_there {
            return false;
        }
    }
    true
}

fn has_fields(ship: &ShipRef<'_>) -> bool {
    has_numbers(ship) && has_vectors(ship) && has_names(ship) && has_owner(ship) && has_shares(ship)
}

// Adds the ship that a ship refers to by its mate, if it is read.
fn adds_mate<'a>(ship: &ShipRef<'a>, ships: &mut Vec<ShipRef<'a>>) -> bool {
    match ship.mate() {
        Ok(Some(mate)) => ships.push(mate).is_ok(),
        Ok(None) => true,
        Err(_) => false,
    }
}

// Adds its consorts, if all are read.
fn adds_consorts<'a>(ship: &ShipRef<'a>, ships: &mut Vec<ShipRef<'a>>) -> bool {
    let consorts = match ship.consorts() {
        Ok(Some(consorts)) => consorts,
        Ok(None) => return true,
        Err(_) => return false,
    };
    for i in 0..consorts.len() {
        match consorts.get(i) {
            Some(Ok(consort)) => {
                if ships.push(consort).is_err() {
                    return false;
                }
            }
            _ => return false,
        }
    }
    true
}

/// Whether all is read of a ship, and of the ships that it leads to, if they aren't too many.
pub fn is_whole(alloc: Global, ship: ShipRef<'_>) -> bool {
    let mut ships = Vec::new(alloc);
    if ships.push(ship).is_err() {
        return false;
    }
    for _ in 0..MOST_SHIPS {
        let Some(ship) = ships.pop() else {
            return true;
        };
        let added = adds_mate(&ship, &mut ships) && adds_consorts(&ship, &mut ships);
        if !added || !has_fields(&ship) {
            return false;
        }
    }
    false
}
