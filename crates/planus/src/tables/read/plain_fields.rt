//! Fields and vectors of a fixed layout, read back.
ghost use Rattle.std.specs.Prelude.{◌≡◌, ◌*◌, ℕ, List, Some, slice_get};
ghost use Rattle.planus_view.specs.Indexes.{GetsItem};
ghost use Rattle.planus_view.specs.VectorView.{count_of, view_of};
ghost use Rattle.planus.specs.Accessors.{IsPlainRequired, IsPlainVector};
ghost use Rattle.planus.specs.Accessors.{IsPlainVectorRequired};
ghost use Rattle.planus.specs.ReadPlain.{ArePlain, IsPlainField, IsPlainFieldOr};

use planus_read::located::Error;
use planus_read::table_reader::Table;
use planus_read::{Plain, PlainTotal, Stride};
use planus_view::Vector;

/// Returns the field of a fixed layout in a slot, or `None` if absent: `Table::access` with a
/// contract for accessors, which then need no proof file. The names are those in errors.
pub fn plain_field<'n, T: Plain>(
    table: &Table<'_>,
    slot: usize,
    type_: &'n str,
    method: &'n str,
) -> Result<Option<T>, Error<'n>>
    ensures { IsPlainField T.shape table.now slot type_.now method.now result }
{
    table.access::<T>(slot, type_, method)
}

/// Returns the field, or the default if absent.
pub fn plain_field_or<'n, T: Plain>(
    table: &Table<'_>,
    slot: usize,
    default: T,
    type_: &'n str,
    method: &'n str,
) -> Result<T, Error<'n>>
    ensures { IsPlainFieldOr T.shape default table.now slot type_.now method.now result }
{
    match table.access::<T>(slot, type_, method) {
        Ok(found) => Ok(found.unwrap_or(default)),
        Err(error) => Err(error),
    }
}

/// Returns the field, or `MissingRequired` if absent.
pub fn plain_required<'n, T: Plain>(
    table: &Table<'_>,
    slot: usize,
    type_: &'n str,
    method: &'n str,
) -> Result<T, Error<'n>>
    ensures { IsPlainRequired T.shape table.now slot type_.now method.now result }
{
    table.access_required::<T>(slot, type_, method)
}

/// Returns the vector in a slot, or `None` if absent. `T` is a value of a fixed layout, or a
/// `Result` of one whose read may fail.
pub fn plain_vector<'a, 'n, T: Stride + 'a>(
    table: &Table<'a>,
    slot: usize,
    type_: &'n str,
    method: &'n str,
) -> Result<Option<Vector<'a, T>>, Error<'n>>
    ensures { IsPlainVector table.now slot type_.now method.now result }
{
    table.access::<Vector<'a, T>>(slot, type_, method)
}

/// Returns the vector, or `MissingRequired` if absent.
pub fn plain_vector_required<'a, 'n, T: Stride + 'a>(
    table: &Table<'a>,
    slot: usize,
    type_: &'n str,
    method: &'n str,
) -> Result<Vector<'a, T>, Error<'n>>
    ensures { IsPlainVectorRequired table.now slot type_.now method.now result }
{
    table.access_required::<Vector<'a, T>>(slot, type_, method)
}

/// Returns an item of a fixed layout, or `None` out of bounds.
pub fn plain_item<T: PlainTotal>(vector: &Vector<'_, T>, index: usize) -> Option<T>
    ensures item { GetsItem (λ v. count_of v)
        (λ v i x. (T.shape).There (view_of v).bytes (i * T.SIZE) x) vector.now index result }
    ensures read_back { (B : List ℕ) (xs : List T) (x : T) → ArePlain B xs vector.now
        → slice_get xs index ≡ Some x → (T.shape).fits x → result ≡ Some x }
{
    vector.get(index)
}
