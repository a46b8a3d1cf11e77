//! Verification of a buffer.

ghost use Rattle.std.specs.Prelude.{Err};
ghost use Rattle.planus_foreign.specs.Verifies.{Verifies, Stores};

use crate::fault_place::{FaultPlace, at_field, at_root};
use crate::status::{OK, TOO_DEEP, TOO_MANY, status_of};
use planus_verify::{Fault, Limits, Verify, root_passes, verify_kind};

fn told(fault: Fault, out: &mut FaultPlace) -> u32
    ensures { Stores (Err fault) out.old out.new result }
{
    match fault {
        Fault::Root(kind) => {
            *out = at_root();
            status_of(kind)
        }
        Fault::Field(place, kind) => {
            *out = at_field(place);
            status_of(kind)
        }
        Fault::TooDeep => TOO_DEEP,
        Fault::TooMany => TOO_MANY,
    }
}

/// Verifies the root of a whole buffer with all that it leads to, or stores where the first fault
/// is: no more than `depth` tables stand one in the other, and no more than `tables` are reached, each
/// as often as it is. With [`TOO_DEEP`] and [`TOO_MANY`] nothing is stored.
pub fn verify<K: Verify>(buffer: &[u8], depth: u8, tables: usize, out: &mut FaultPlace) -> u32
    ensures { Verifies K.schema K.index depth tables buffer.now out.old out.new result }
{
    let limits = Limits { depth, tables };
    if let Some(_) = root_passes::<K>(buffer, limits) {
        return OK;
    }
    match verify_kind::<K>(buffer, limits) {
        Ok(_) => OK,
        Err(fault) => told(fault, out),
    }
}
