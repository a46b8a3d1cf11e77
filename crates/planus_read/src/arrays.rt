//! Arrays of a fixed size in structs: their items, one after another.

ghost use Rattle.std.specs.Prelude.{◌≡◌, ◌+◌, ◌*◌, ◌<◌, ◌≤◌, length, IfOk, IfErr};
ghost use Rattle.std.specs.List.{AllByRecursion};
ghost use Rattle.planus_read.specs.Clauses.{AllHold, FirstBroken};
ghost use Rattle.planus_read.specs.Slices.{slice_bytes};
ghost use Rattle.planus_read.specs.Arrays.{all_encoded, array_bytes, array_clauses};
ghost use Rattle.planus_read.specs.Arrays.{ArrayThere, ArrayFits};

use crate::errors::ErrorKind;
use crate::plain::Plain;
use crate::slice_helpers::SliceWithStartOffset;

/// Writes the items of an array over the given bytes.
pub fn put_array<T: Plain, const N: usize>(items: &[T; N], bytes: &mut [u8])
    requires { length bytes.old ≡ N * T.SIZE }
    ensures encoded { bytes.new ≡ array_bytes T.shape N items.now }
    ensures fits { ArrayFits T.shape N items.now }
{
    let items = &*items;
    put_items(&items[..], bytes);
}

fn put_items<T: Plain>(items: &[T], bytes: &mut [u8])
    requires { length bytes.old ≡ length items.now * T.SIZE }
    ensures encoded { bytes.new ≡ all_encoded T.shape items.now }
    ensures fit { AllByRecursion (T.shape).fits items.now }
{
    let mut at = 0;
    for item in items {
        let (_before, rest) = bytes.split_at_mut(at);
        let (field, _behind) = rest.split_at_mut(T::SIZE);
        item.put(field);
        at += T::SIZE;
    }
}

/// Returns the array of `N` items at the offset in bytes. Requires all its bytes to be in the
/// slice.
pub fn read_array<T: Plain, const N: usize>(
    buffer: SliceWithStartOffset<'_>,
    offset: usize,
) -> Result<[T; N], ErrorKind>
    requires some { 0 < N }
    requires inside { offset + N * T.SIZE ≤ length (slice_bytes buffer) }
    ensures array { IfOk result (ArrayThere T.shape N (slice_bytes buffer.entry) offset) }
    ensures error { IfErr result
        (FirstBroken (array_clauses T.shape N (slice_bytes buffer.entry) offset)) }
    ensures fits { IfOk result (ArrayFits T.shape N) }
    ensures unbroken { IfOk result
        (λ items. AllHold (array_clauses T.shape N (slice_bytes buffer.entry) offset)) }
{
    let first = match T::read(buffer, offset) {
        Ok(item) => item,
        Err(error) => return Err(error),
    };
    let mut items = [first; N];
    let mut place = offset;
    for i in 1..N {
        place += T::SIZE;
        match T::read(buffer, place) {
            Ok(item) => items[i] = item,
            Err(error) => return Err(error),
        }
    }
    Ok(items)
}
