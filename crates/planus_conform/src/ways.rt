//! What each way asks for.

ghost use Rattle.std.specs.Prelude.{◌≡◌, ◌++◌, OnOk};
ghost use Rattle.planus_conform.specs.Breaks as spec;

use crate::breaks::{Break, Change, Place, Way};
use std::alloc::AllocError;

/// Returns whether the new schema's code meets data of the old one's.
pub(crate) fn meets_old(way: Way) -> bool
    ensures { result ≡ spec.meets_old way }
{
    match way {
        Way::Both | Way::Backward => true,
        Way::Forward => false,
    }
}

/// Returns whether the old schema's code meets data of the new one's.
pub(crate) fn meets_new(way: Way) -> bool
    ensures { result ≡ spec.meets_new way }
{
    match way {
        Way::Both | Way::Forward => true,
        Way::Backward => false,
    }
}

pub(crate) fn change_if(is_change: bool, change: Change) -> Option<Change>
    ensures { result ≡ spec.change_if is_change change }
{
    if is_change { Some(change) } else { None }
}

/// Adds a change, if there is one.
pub(crate) fn note(
    breaks: &mut Vec<Break>,
    place: Place,
    change: Option<Change>,
) -> Result<(), AllocError>
    ensures { OnOk result (breaks.new.items ≡ breaks.old.items ++ spec.noted place change) }
{
    if let Some(change) = change {
        breaks.push(Break { change, place })?;
    }
    Ok(())
}
