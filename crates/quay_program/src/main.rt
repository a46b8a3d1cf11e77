//! Writes a quay with a load at its first berth, by itself, and reads it back in place, a slip
//! likewise; and a quay with boats in the order of their names, by which they are looked up.
#![tactic(auto)]

ghost use Rattle.std.specs.Prelude.{IfOk};
ghost use Rattle.planus.specs.Printed.{ReadsVariants, ReturnsStruct, ReturnsRequiredStruct};
ghost use Rattle.quay.specs.Berth.{berth_variants};
ghost use Rattle.quay.specs.Load.{load_shape};

use planus::{BuildError, Builder, create_plain, laws};
use planus_keys::{TextKey, find, in_key_order};
use quay::{
    Berth, BerthRef, Boat, Create, Gear, Load, Quay, QuayFields, QuayRef, Slip, SlipRef,
    read_as_root,
};
use std::alloc::Global;
use std::io;

/// Writes a quay with this load at its first berth, and reads that berth. The load is read back.
pub fn first_read_back(
    builder: &mut Builder,
    load: Load,
) -> std::result::Result<planus::Result<Option<BerthRef<'_>>>, BuildError>
    ensures { IfOk result (ReturnsStruct (ReadsVariants berth_variants) 2 ((load_shape).encoded load)) }
{
    let waiting = create_plain(builder, &load)?;
    let given = Berth::from_waiting(waiting);
    let fields = QuayFields {
        first: Some(given),
        ..Quay::fields("North")
    };
    let quay: planus::Result<QuayRef<'_>> = Quay::read_back(builder, fields)?;
    match quay {
        Ok(quay) => {
            let first = quay.first();
            laws::struct_is_read(&load, &given, &quay, &first);
            Ok(first)
        }
        Err(error) => Ok(Err(error)),
    }
}

/// Writes a slip with this load, and reads it back.
pub fn slip_read_back(
    builder: &mut Builder,
    load: Load,
) -> std::result::Result<planus::Result<BerthRef<'_>>, BuildError>
    ensures { IfOk result (ReturnsRequiredStruct (ReadsVariants berth_variants) 2
        ((load_shape).encoded load)) }
{
    let waiting = create_plain(builder, &load)?;
    let given = Berth::from_waiting(waiting);
    let slip: planus::Result<SlipRef<'_>> = Slip::read_back(builder, Slip::fields(given))?;
    match slip {
        Ok(slip) => {
            let berth = slip.berth();
            laws::required_struct_is_read(&load, &given, &slip, &berth);
            Ok(berth)
        }
        Err(error) => Ok(Err(error)),
    }
}

/// Writes a quay with three boats, and returns its buffer.
fn three_boats(builder: &mut Builder, alloc: Global) -> std::result::Result<&[u8], BuildError> {
    let ida = Boat::create(builder, Boat::fields("Ida"))?;
    let bea = Boat::create(builder, Boat::fields("Bea"))?;
    let cy = Boat::create(builder, Boat::fields("Cy"))?;
    let mut boats = [("Ida", ida), ("Bea", bea), ("Cy", cy)];
    let boats = in_key_order(builder, &mut boats, alloc)?;
    let fields = QuayFields {
        boats: Some(boats.as_slice()),
        ..Quay::fields("South")
    };
    let quay = Quay::create(builder, fields)?;
    builder.finish(quay, None)
}

/// Whether a quay has a boat of this name, if it is sorted by them.
fn has_boat(bytes: &[u8], name: &str) -> planus::Result<bool> {
    match read_as_root(bytes)?.boats()? {
        Some(boats) => Ok(find(&boats, &Boat, &TextKey(name))?.is_some()),
        None => Ok(false),
    }
}

fn main(rt: HostRuntime) -> io::Result<()> {
    let mut builder = Builder::new(rt.alloc())?;
    let load = Load {
        pulls: [1.5, 2.0, 3.25],
        gear: Gear::Magnet,
    };
    match first_read_back(&mut builder, load) {
        Ok(Ok(Some(BerthRef::Waiting(load)))) => println!(rt; "waiting: {load:?}")?,
        Ok(Ok(first)) => println!(rt; "another berth: {first:?}")?,
        Ok(Err(error)) => println!(rt; "{error}")?,
        Err(error) => println!(rt; "{error}")?,
    }
    builder.clear();
    let grab = Load {
        pulls: [0.5, 0.25, 0.0],
        gear: Gear::Grab,
    };
    match slip_read_back(&mut builder, grab) {
        Ok(Ok(BerthRef::Waiting(load))) => println!(rt; "in a slip: {load:?}")?,
        Ok(Ok(berth)) => println!(rt; "another berth: {berth:?}")?,
        Ok(Err(error)) => println!(rt; "{error}")?,
        Err(error) => println!(rt; "{error}")?,
    }
    builder.clear();
    match three_boats(&mut builder, rt.alloc()) {
        Ok(bytes) => println!(rt;
            "Bea: {:?}, Ann: {:?}",
            has_boat(bytes, "Bea"),
            has_boat(bytes, "Ann")
        ),
        Err(error) => println!(rt; "{error}"),
    }
}
