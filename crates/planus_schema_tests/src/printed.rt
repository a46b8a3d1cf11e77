//! Code that `planus rattle` prints: what it writes is read back, and so is what flatc writes.

ghost use Rattle.std.specs.Prelude.{◌≡◌, None, []};

mod arrays;
mod keys;
mod members;
mod parts;
mod ports;
mod structs;

use crate::digits::bytes_of;
use harbour::{
    Company, CompanyFields, Create, Fix, Kind, Level, Needs, Owner, OwnerRef, Person, PersonFields,
    PersonRef, Pos, Ship, ShipFields, ShipRef, finish_root, finish_root_size_prefixed,
    has_identifier, read_as_root, read_size_prefixed_as_root,
};
use planus::{BuildError, Builder, ByteList, union_item};
use std::alloc::Global;

/// By flatc 2.0.8 of `harbour.fbs`: a ship with the values of `writes_anna`, its tables too.
pub const FLATC_ANNA: &str =
    "4c000000534849500000000000003e00840014000c00180007000e0010001c0028002c001200080009003000\
     340038003c00400044000a0048004c00500000007c00540058005c000b0078003e0000000000000200010201\
     00022c010300f9fff4010000e401000035000000f6fffffffdff0000b80100000000803e00000000a4010000\
     8401000058010000ec000000e0000000bc000000a80000005c0000004400000038000000ffffffffffffffff\
     05000000060000000700000002000000000000000c00000000e68ee7fdffffff020000000100000000000000\
     02000000807f000002000000000000000000f83f000000000000e0bf020000003000000004000000bcffffff\
     10000000040000000100000009000000040000004c696e650000000008000c0008000700080000000000002c\
     040000000300000050696100020000000102000008000c000400080008000000100000000400000001000000\
     09000000040000004c696e650000000002000000020000000100000004000000daffffff1c000000ffffffff\
     ffffffff050000000600000007000000010000000100000043003a0020000400000000000000000000000000\
     000000000000000000000000000000000000000000000000000000000000000000000000000008003a000000\
     1c000000ffffffffffffffff0500000006000000070000000000000002000000426f00000200000010000000\
     0400000000000000000000000100000061000000030000000102ff0002000000050000000600000007000000\
     35000000f6fffffffdff00000200000007000000ffffffff04000000416e6e6100000000";

pub const HOME: Pos = Pos {
    lat: 53,
    lon: -10,
    alt: -3,
};

pub const FIX: Fix = Fix {
    when: u64::MAX,
    at: Pos {
        lat: 5,
        lon: 6,
        alt: 7,
    },
    kind: Kind::Ship,
};

/// A ship with a name and the kind of its fix, and else with what is written by default.
fn plain_ship(name: &'static str, kind: Kind) -> ShipFields<'static>
    ensures mate { result.mate ≡ None }
    ensures consorts { result.consorts ≡ None }
    ensures owner { result.owner ≡ None }
    ensures shares { result.shares.now ≡ [] }
{
    Ship::fields(name, Fix { kind, ..FIX })
}

fn has_numbers(ship: &ShipRef<'_>) -> bool {
    matches!(ship.name(), Ok("Anna"))
        && matches!(ship.hull(), Ok(512))
        && matches!(ship.kind(), Ok(Kind::Ship))
        && matches!(ship.level(), Ok(Level::High))
        && matches!(ship.needs(), Ok(needs) if needs.bits == 3)
        && matches!(ship.heat(), Ok(heat) if heat == 0.25)
        && matches!(ship.depth(), Ok(-7))
        && matches!(ship.open(), Ok(false))
        && matches!(ship.shut(), Ok(true))
        && matches!(ship.maybe(), Ok(Some(0)))
        && matches!(ship.tall(), Ok(-9_000_000_000))
        && matches!(ship.which(), Ok(Some(Kind::Bike)))
        && matches!(ship.home(), Ok(Some(home)) if home == HOME)
        && matches!(ship.fix(), Ok(fix) if fix == FIX)
}

fn has_vectors(ship: &ShipRef<'_>) -> bool {
    matches!(ship.cargo(), Ok(Some(cargo)) if cargo.len() == 2 && cargo.get(1) == Some(u32::MAX))
        && matches!(ship.track(), Ok(Some(track)) if track.len() == 2 && track.get(1) == Some(HOME))
        && matches!(ship.photo(), Ok(Some([1, 2, 255])))
        && matches!(ship.names(), Ok(Some(names)) if matches!(names.get(0), Some(Ok("a"))))
        && matches!(ship.kinds(), Ok(Some(kinds)) if matches!(kinds.get(1), Some(Ok(Kind::Car))))
        && matches!(ship.temps(), Ok(Some(temps)) if temps.get(1) == Some(-0.5))
        && matches!(ship.deltas(), Ok(Some(deltas)) if deltas.get(0) == Some(-128))
        && matches!(ship.flags(), Ok(Some(flags)) if flags.get(0) == Some(true))
}

/// Whether a ship has this name and else what is written by default.
fn is_plain(ship: &ShipRef<'_>, name: &str, kind: Kind) -> bool {
    matches!(ship.name(), Ok(read) if read == name)
        && matches!(ship.hull(), Ok(100))
        && matches!(ship.kind(), Ok(Kind::Bike))
        && matches!(ship.needs(), Ok(Needs::WATER))
        && matches!(ship.heat(), Ok(heat) if heat == 1.5)
        && matches!(ship.depth(), Ok(-5))
        && matches!(ship.open(), Ok(true))
        && matches!(ship.fix(), Ok(fix) if fix.kind == kind)
        && matches!(ship.mate(), Ok(None))
        && matches!(ship.owner(), Ok(None))
        && matches!(ship.shares(), Ok(None))
        && matches!(ship.which(), Ok(None))
}

fn has_ships(ship: &ShipRef<'_>) -> bool {
    let consort = match ship.consorts() {
        Ok(Some(ships)) => ships.get(0),
        _ => None,
    };
    matches!(ship.mate(), Ok(Some(mate)) if is_plain(&mate, "Bo", Kind::Car))
        && matches!(consort, Some(Ok(ship)) if is_plain(&ship, "C", Kind::Bike))
}

fn has_owners(ship: &ShipRef<'_>) -> bool {
    let (first, second) = match ship.shares() {
        Ok(Some(shares)) => (union_item(&shares, 0), union_item(&shares, 1)),
        _ => (None, None),
    };
    matches!(ship.owner(), Ok(Some(OwnerRef::Firm(firm))) if matches!(firm.vat(), Ok(Some([9]))))
        && matches!(first, Some(Ok(OwnerRef::Person(pia))) if matches!(pia.age(), Ok(44)))
        && matches!(second, Some(Ok(OwnerRef::Firm(it))) if matches!(it.title(), Ok(Some("Line"))))
}

fn has_all(ship: &ShipRef<'_>) -> bool {
    has_numbers(ship) && has_vectors(ship) && has_ships(ship) && has_owners(ship)
}

fn is_anna(bytes: &[u8]) -> bool {
    matches!(read_as_root(bytes), Ok(ship) if has_all(&ship)) && has_identifier(bytes)
}

fn is_in_sized_root(error: &planus::Error) -> bool {
    let place = &error.source_location;
    place.type_ == "[ShipRef]" && place.method == "read_as_root" && place.byte_offset == 0
}

/// Whether a buffer after its size is Anna's, and nothing follows it.
fn is_anna_after_size(bytes: &[u8]) -> bool {
    matches!(read_size_prefixed_as_root(bytes), Ok((ship, [])) if has_all(&ship))
}

fn the_line() -> CompanyFields<'static> {
    CompanyFields {
        title: Some("Line"),
        vat: Some(ByteList(&[9])),
    }
}

fn writes_anna(builder: &mut Builder) -> std::result::Result<bool, BuildError> {
    let mate = Ship::create(builder, plain_ship("Bo", Kind::Car))?;
    let consort = Ship::create(builder, plain_ship("C", Kind::Bike))?;
    let line = Company::create(builder, the_line())?;
    let pia = Person::create(
        builder,
        PersonFields {
            name: "Pia",
            age: 44,
        },
    )?;
    let anna = ShipFields {
        name: "Anna",
        hull: 512,
        cargo: Some(&[7, u32::MAX]),
        kind: Kind::Ship,
        level: Level::High,
        needs: Needs::WATER.with(Needs::POWER),
        home: Some(HOME),
        track: Some(&[FIX.at, HOME]),
        heat: 0.25,
        depth: -7,
        open: false,
        shut: true,
        maybe: Some(0),
        photo: Some(ByteList(&[1, 2, 255])),
        names: Some(&["a", ""]),
        mate: Some(mate),
        consorts: Some(&[consort]),
        kinds: Some(&[Kind::Ship, Kind::Car]),
        owner: Some(Owner::from_firm(line)),
        shares: &[Owner::from_person(pia), Owner::from_firm(line)],
        tall: -9_000_000_000,
        temps: Some(&[1.5, -0.5]),
        deltas: Some(&[-128, 127]),
        fix: FIX,
        which: Some(Kind::Bike),
        flags: Some(&[true, false]),
    };
    let anna = Ship::create(builder, anna)?;
    let plain = is_anna(finish_root(builder, anna)?);
    let sized = is_anna_after_size(finish_root_size_prefixed(builder, anna)?);
    Ok(plain && sized)
}

/// Whether the law of a table is met by a table that is written.
fn reads_pia_back(builder: &mut Builder) -> bool {
    let pia = PersonFields {
        name: "Pia",
        age: 44,
    };
    matches!(
        Person::read_back::<PersonRef<'_>>(builder, pia),
        Ok(Ok(pia)) if matches!(pia.age(), Ok(44))
    )
}

fn in_builder(alloc: Global) -> bool {
    match Builder::new(alloc) {
        Ok(mut builder) => {
            matches!(writes_anna(&mut builder), Ok(true))
                && matches!(ports::writes_port(&mut builder), Ok(true))
                && matches!(ports::writes_entry(&mut builder), Ok(true))
                && reads_pia_back(&mut builder)
        }
        Err(_) => false,
    }
}

#[test]
fn written_and_read(rt: HostRuntime) {
    assert!(rt; in_builder(rt.alloc()));
}

#[test]
fn read_of_flatc(rt: HostRuntime) {
    assert!(rt; matches!(bytes_of(rt.alloc(), FLATC_ANNA), Some(bytes) if is_anna(&bytes)));
}

#[test]
fn error_after_a_size_has_a_place(rt: HostRuntime) {
    let short = read_size_prefixed_as_root(&[9, 0, 0, 0, 4, 0, 0, 0]);
    assert!(rt; matches!(short, Err(error) if is_in_sized_root(&error)));
}
