//! Boats, whose callsigns are strings, and fleets, whose owners are strings or boats.

use by_hand::{Boat, BoatRef, Callsign, Fleet, Named, Owner, OwnerRef};
use planus::{BuildError, Builder, Caches, ReadAsRoot, TableRef, Text, UnionOffset, variant};
use planus_testing::{Test, check, check_eq, in_builder};
use std::test::Fail;

fn check_boat(test: &Test<'_>, boat: &BoatRef<'_>, hull: u16) {
    check_eq(test, &Boat::callsign(boat), &Ok("J12"), "a boat's callsign");
    check_eq(test, &Boat::hull(boat), &Ok(hull), "a boat's hull");
}

fn check_written_boat(test: &Test<'_>, builder: &mut Builder, hull: u16) -> Result<(), BuildError> {
    let boat = Boat::create(builder, hull, Callsign("J12"))?;
    let bytes = builder.finish(boat, None)?;
    let boat: Result<BoatRef<'_>, _> = ReadAsRoot::read_as_root(bytes);
    match boat {
        Ok(boat) => check_boat(test, &boat, hull),
        Err(error) => check_eq(test, &Some(error), &None, "a boat"),
    }
    Ok(())
}

fn check_boats(test: &Test<'_>, builder: &mut Builder) -> Result<(), BuildError> {
    check_written_boat(test, builder, 100)?;
    builder.clear();
    check_written_boat(test, builder, 250)
}

fn check_owner(test: &Test<'_>, fleet: &TableRef<'_, Fleet>) {
    match Fleet::owner(fleet) {
        Ok(Some(OwnerRef::Boat(boat))) => check_boat(test, &boat, 100),
        _ => check(test, false, "a fleet's owner"),
    }
}

fn check_heirs(test: &Test<'_>, fleet: &TableRef<'_, Fleet>) {
    let last = match Fleet::shares(fleet) {
        Ok(Some(shares)) if shares.len() == 2 => shares.last(),
        _ => None,
    };
    let has_heir = matches!(Fleet::heir(fleet), Ok(Some(OwnerRef::Name("Jason"))));
    let has_last = matches!(last, Some(Ok(OwnerRef::Name("Tiphys"))));
    check(test, has_heir, "a fleet's heir");
    check(test, has_last, "the second of a fleet's shares");
}

fn check_fleet(test: &Test<'_>, builder: &mut Builder) -> Result<(), BuildError> {
    let boat = Boat::create(builder, 100, Callsign("J12"))?;
    let owner: UnionOffset<Owner> = UnionOffset::new(2, boat.downcast());
    let shares: [Named<'_>; 2] = [variant![1: Text = "Jason"], variant![1: Text = "Tiphys"]];
    let fleet = Fleet::create(builder, Some(owner), "Jason", &shares)?;
    let bytes = builder.finish(fleet, None)?;
    let fleet: Result<TableRef<'_, Fleet>, _> = ReadAsRoot::read_as_root(bytes);
    match fleet {
        Ok(fleet) => {
            check_owner(test, &fleet);
            check_heirs(test, &fleet);
        }
        Err(error) => check_eq(test, &Some(error), &None, "a fleet"),
    }
    Ok(())
}

#[test]
fn fleets_are_read_back(rt: HostRuntime) -> Result<(), Fail> {
    let test = Test::new(&rt);
    in_builder(&test, Caches::all(), check_boats);
    in_builder(&test, Caches::all(), check_fleet);
    test.end()
}
