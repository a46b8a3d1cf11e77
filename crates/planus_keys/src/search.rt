//! Binary search over the items of a vector.

ghost use Rattle.planus_keys.specs.Finds.{Finds};

use crate::key_of::KeyOf;
use crate::probe::Probe;
use crate::read_items::ReadItems;
use std::cmp::Ordering;

/// Returns an item whose key, chosen by `by`, is the one looked up, or `None` if none was met. Fails
/// as the read of an item, or of its key. Where all keys are read and are sorted, it is `None` exactly
/// where no item has the key; of several it may be any.
pub fn find<V: ReadItems<E>, B: KeyOf<V::Item, Error = E>, P: Probe<B::Key>, E>(
    vector: &V,
    by: &B,
    probe: &P,
) -> Result<Option<V::Item>, E>
where
    V::Item: Drop,
    B::Key: Drop,
    ensures { Finds V.is_item (B.is_key by.now) (P.order probe.now) vector.now
        (V.count vector.now) result }
{
    let mut low = 0;
    let mut high = vector.len();
    while low < high {
        let middle = low + (high - low) / 2;
        let item = match vector.item(middle) {
            Ok(item) => item,
            Err(error) => return Err(error),
        };
        let key = match by.key(&item) {
            Ok(key) => key,
            Err(error) => return Err(error),
        };
        match probe.compare(&key) {
            Ordering::Equal => return Ok(Some(item)),
            Ordering::Less => low = middle + 1,
            Ordering::Greater => high = middle,
        }
    }
    Ok(None)
}
