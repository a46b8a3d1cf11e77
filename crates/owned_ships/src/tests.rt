//! A record of what was written, and why none is made.

ghost use Rattle.std.specs.Prelude.{◌≡◌, None};

use crate::{Kind, Pos, Ship, ShipFields, ShipRef};
use planus::{Builder, Create};
use planus_owned::OwnError;
use std::test::Fail;

fn fields(name: &str) -> ShipFields<'_>
    ensures { (result.captain ≡ None) × (result.mate ≡ None) }
{
    ShipFields {
        name,
        hull: 7,
        kind: Kind::Ship,
        home: Some(Pos { lat: -1, lon: 2 }),
        heat: 0.25,
        depth: -3,
        open: false,
        maybe: Some(-9),
        note: Some("at sea"),
        captain: None,
        mate: None,
    }
}

fn is_as_written(ship: &Ship, name: &str) -> bool {
    ship.name.as_str() == name
        && ship.hull == 7
        && ship.kind == Kind::Ship
        && ship.home == Some(Pos { lat: -1, lon: 2 })
        && ship.heat == 0.25
        && ship.depth == -3
        && !ship.open
        && ship.maybe == Some(-9)
        && ship.note.as_deref() == Some("at sea")
        && ship.captain.is_none()
        && ship.mate.is_none()
}

#[test]
fn a_record_has_what_was_written(rt: HostRuntime) -> Result<(), Fail> {
    let mut builder = Builder::new(rt.alloc())?;
    let read: planus::Result<ShipRef<'_>> = Ship::read_back(&mut builder, fields("Ann"))?;
    let view = read?;
    let deep = view.to_record(0, rt.alloc());
    assert!(rt; matches!(deep, Err(OwnError::TooDeep)), "not too deep");
    let ship = view.to_record(1, rt.alloc())?;
    assert!(rt; is_as_written(&ship, "Ann"), "not as written");
    Ok(())
}
