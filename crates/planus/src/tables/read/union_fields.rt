//! Unions and union vectors, read back.
ghost use Rattle.planus.specs.UnionAccessors.{IsUnionField, IsUnionRequired};
ghost use Rattle.planus.specs.UnionAccessors.{IsUnionVector, IsUnionVectorRequired};
ghost use Rattle.planus.specs.UnionAccessors.{IsUnionItem};

use planus_read::located::Error;
use planus_read::table_reader::Table;
use planus_read::{TableReadUnion, VectorReadUnion};
use planus_view::UnionVector;

/// Returns the union, of offset kind `K`, of a slot and the next, or `None` if absent.
pub fn union_field<'a, 'n, K, U: TableReadUnion<'a>>(
    table: &Table<'a>,
    slot: usize,
    type_: &'n str,
    method: &'n str,
) -> Result<Option<U>, Error<'n>>
    ensures { IsUnionField U.reads table.now slot type_.now method.now K result }
{
    table.access_union::<U>(slot, type_, method)
}

/// Returns the union, or `MissingRequired` if absent.
pub fn union_required<'a, 'n, U: TableReadUnion<'a>>(
    table: &Table<'a>,
    slot: usize,
    type_: &'n str,
    method: &'n str,
) -> Result<U, Error<'n>>
    ensures { IsUnionRequired U.reads table.now slot type_.now method.now result }
{
    table.access_union_required::<U>(slot, type_, method)
}

/// Returns the union vector of a slot and the next, or `None` if absent.
pub fn union_vector<'a, 'n, U: 'a>(
    table: &Table<'a>,
    slot: usize,
    type_: &'n str,
    method: &'n str,
) -> Result<Option<UnionVector<'a, U>>, Error<'n>>
    ensures { IsUnionVector table.now slot type_.now method.now result }
{
    table.access_union_vector::<UnionVector<'a, U>>(slot, type_, method)
}

/// Returns the vector, or `MissingRequired` if absent.
pub fn union_vector_required<'a, 'n, U: 'a>(
    table: &Table<'a>,
    slot: usize,
    type_: &'n str,
    method: &'n str,
) -> Result<UnionVector<'a, U>, Error<'n>>
    ensures { IsUnionVectorRequired table.now slot type_.now method.now result }
{
    table.access_union_vector_required::<UnionVector<'a, U>>(slot, type_, method)
}

/// Returns an item of a union vector, or `None` out of bounds.
pub fn union_item<'a, 'n, U: VectorReadUnion<'a>>(
    vector: &UnionVector<'a, U>,
    index: usize,
) -> Option<Result<U, Error<'n>>>
    ensures { IsUnionItem U.reads U.name vector.now index result }
{
    vector.get(index)
}
