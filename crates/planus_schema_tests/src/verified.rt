//! Verified views that are printed read what `flatc` writes, and what the checked views read.

mod buffers;
mod damage;
mod faults;
mod same;

use crate::digits::bytes_of;
use crate::orc::ORC;
use crate::printed::{FIX, FLATC_ANNA, HOME};
use harbour::{Kind, Level, OwnerView, ShipView, read_as_root, verify_as_root};
use monsters::{EquipmentView, MonsterView, WeaponView};
use planus_views::Limits;

fn has_numbers(ship: &ShipView<'_>) -> bool {
    ship.name() == "Anna"
        && ship.hull() == 512
        && matches!(ship.kind(), Ok(Kind::Ship))
        && matches!(ship.level(), Ok(Level::High))
        && ship.needs().bits == 3
        && ship.heat() == 0.25
        && ship.depth() == -7
        && !ship.open()
        && ship.shut()
        && ship.maybe() == Some(0)
        && ship.tall() == -9_000_000_000
        && matches!(ship.which(), Ok(Some(Kind::Bike)))
        && ship.home() == Some(HOME)
        && matches!(ship.fix(), Ok(fix) if fix == FIX)
}

fn has_vectors(ship: &ShipView<'_>) -> bool {
    matches!(ship.cargo(), Some(cargo) if cargo.len() == 2 && cargo.get(1) == Some(u32::MAX))
        && matches!(ship.track(), Some(track) if track.get(1) == Some(HOME))
        && matches!(ship.photo(), Some([1, 2, 255]))
        && matches!(ship.names(), Some(names) if names.len() == 2 && names.get(0) == Some("a"))
        && matches!(ship.kinds(), Some(kinds) if matches!(kinds.get(1), Some(Ok(Kind::Car))))
        && matches!(ship.temps(), Some(temps) if temps.get(1) == Some(-0.5))
        && matches!(ship.deltas(), Some(deltas) if deltas.get(0) == Some(-128))
        && matches!(ship.flags(), Some(flags) if flags.get(0) == Some(true))
}

/// Whether a ship has this name and else what is written by default.
fn is_plain(ship: &ShipView<'_>, name: &str) -> bool {
    ship.name() == name
        && ship.hull() == 100
        && matches!(ship.kind(), Ok(Kind::Bike))
        && ship.heat() == 1.5
        && ship.depth() == -5
        && ship.open()
        && ship.mate().is_none()
        && ship.owner().is_none()
        && ship.shares().is_none()
}

fn has_ships(ship: &ShipView<'_>) -> bool {
    let mut consorts = 0_usize;
    if let Some(ships) = ship.consorts() {
        for consort in ships {
            if is_plain(&consort, "C") {
                consorts = consorts.wrapping_add(1);
            }
        }
    }
    matches!(ship.mate(), Some(mate) if is_plain(&mate, "Bo")) && consorts == 1
}

fn has_owners(ship: &ShipView<'_>) -> bool {
    let (first, second) = match ship.shares() {
        Some(shares) => (shares.get(0), shares.get(1)),
        None => (None, None),
    };
    matches!(ship.owner(), Some(OwnerView::Firm(firm)) if matches!(firm.vat(), Some([9])))
        && matches!(first, Some(OwnerView::Person(pia)) if pia.age() == 44)
        && matches!(second, Some(OwnerView::Firm(line)) if line.title() == Some("Line"))
}

fn is_anna(bytes: &[u8]) -> bool {
    match verify_as_root(bytes, Limits::default()) {
        Ok(ship) => {
            has_numbers(&ship) && has_vectors(&ship) && has_ships(&ship) && has_owners(&ship)
        }
        Err(_) => false,
    }
}

#[test]
fn ship_of_flatc_is_read_without_errors(rt: HostRuntime) {
    assert!(rt; matches!(bytes_of(rt.alloc(), FLATC_ANNA), Some(bytes) if is_anna(&bytes)));
}

fn mate_is_verified(bytes: &[u8]) -> bool {
    let Ok(ship) = read_as_root(bytes) else {
        return false;
    };
    match ship.mate() {
        Ok(Some(mate)) => {
            matches!(mate.verify(Limits::default()), Ok(mate) if is_plain(&mate, "Bo"))
        }
        _ => false,
    }
}

#[test]
fn checked_view_is_verified(rt: HostRuntime) {
    assert!(rt;
        matches!(bytes_of(rt.alloc(), FLATC_ANNA), Some(bytes) if mate_is_verified(&bytes))
    );
}

fn is_axe(weapon: &WeaponView<'_>) -> bool {
    weapon.name() == Some("Axe") && weapon.damage() == 24
}

fn is_orc(orc: &MonsterView<'_>) -> bool {
    let axe = match orc.weapons() {
        Some(weapons) => weapons.get(0),
        None => None,
    };
    orc.hp() == 80
        && orc.name() == "Orc"
        && orc.inventory().is_none()
        && matches!(axe, Some(axe) if is_axe(&axe))
        && matches!(orc.equipped(), Some(EquipmentView::Weapon(axe)) if is_axe(&axe))
        && orc.loot().is_none()
}

#[test]
fn orc_is_read_without_errors(rt: HostRuntime) {
    let orc = monsters::verify_as_root(&ORC, Limits::default());
    assert!(rt; matches!(orc, Ok(orc) if is_orc(&orc)));
}
