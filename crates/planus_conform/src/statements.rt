//! What breaks at the root and the file identifier.

ghost use Rattle.std.specs.Prelude.{◌≡◌};
ghost use Rattle.planus_conform.specs.Breaks as spec;

use crate::breaks::{Change, Way};
use crate::matching::are_matched;
use crate::ways::{change_if, meets_new, meets_old};

pub(crate) fn root_change(
    matches: &[Option<usize>],
    old: Option<usize>,
    new: Option<usize>,
) -> Option<Change>
    ensures { result ≡ spec.root_change matches.now old new }
{
    match (old, new) {
        (Some(old), Some(new)) => {
            change_if(!are_matched(matches, old, new), Change::RootChanged)
        }
        (Some(_), None) => Some(Change::RootChanged),
        _ => None,
    }
}

pub(crate) fn identifier_change(
    way: Way,
    old: &Option<Vec<u8>>,
    new: &Option<Vec<u8>>,
) -> Option<Change>
    ensures { result ≡ spec.identifier_change way old.now new.now }
{
    match (old, new) {
        (Some(old), Some(new)) => {
            change_if(
                !(old.as_slice() == new.as_slice()),
                Change::IdentifierChanged,
            )
        }
        (Some(_), None) => change_if(meets_new(way), Change::IdentifierRemoved),
        (None, Some(_)) => change_if(meets_old(way), Change::IdentifierAdded),
        (None, None) => None,
    }
}
