//! Tables in the order of their keys.

ghost use Rattle.std.specs.Prelude.{◌≡◌, ◌≤◌, [], length, map, vec_capacity, IfOk, OnOk, OnErr};
ghost use Rattle.planus.specs.Printed.{AllIn};
ghost use Rattle.std.specs.List.Sorted.{IsPermutation, IsSortedByKey, IsStableByKey};

use planus::{Builder, Offset};
use std::alloc::{AllocError, Global};
use std::vec::Vec;

fn sort<K: Ord, T>(tables: &mut [(K, Offset<T>)], alloc: Global) -> Result<(), AllocError>
    ensures permutation { IsPermutation tables.old tables.new }
    ensures sorted { OnOk result (IsSortedByKey (λ one. one.0) K.cmp tables.new) }
    ensures stable { IsStableByKey (λ one. one.0) K.cmp tables.old tables.new }
    ensures unsorted { OnErr result (tables.new ≡ tables.old) }
{
    tables.sort_by(alloc, |a, b| a.0.cmp(&b.0))
}

fn put_offsets<K, T>(tables: &[(K, Offset<T>)], room: &mut Vec<Offset<T>>)
    requires empty { room.old.items ≡ [] }
    requires room { length tables.now ≤ vec_capacity room.old }
    ensures { room.new.items ≡ map (λ one. one.1) tables.now }
{
    for one in tables {
        room.push_reserved(one.1);
    }
}

/// Sorts tables that this builder has by their keys, and returns their offsets in this order: as a
/// vector takes them in which [`find`](crate::find) looks them up. Tables of equal keys stay in the
/// order given.
///
/// Fails for want of memory: for the offsets, and from 21 tables on for sorting. Then the tables are
/// as they were.
pub fn in_key_order<K: Ord, T>(
    builder: &Builder,
    tables: &mut [(K, Offset<T>)],
    alloc: Global,
) -> Result<Vec<Offset<T>>, AllocError>
    requires { AllIn builder.now (map (λ one. one.1) tables.old) }
    ensures permutation { IsPermutation tables.old tables.new }
    ensures sorted { OnOk result (IsSortedByKey (λ one. one.0) K.cmp tables.new) }
    ensures stable { IsStableByKey (λ one. one.0) K.cmp tables.old tables.new }
    ensures unsorted { OnErr result (tables.new ≡ tables.old) }
    ensures offsets { IfOk result (λ offsets. offsets.items ≡ map (λ one. one.1) tables.new) }
    ensures in_builder { IfOk result (λ offsets. AllIn builder.now offsets.items) }
{
    let mut offsets = Vec::with_capacity(alloc, tables.len())?;
    sort(tables, alloc)?;
    put_offsets(tables, &mut offsets);
    Ok(offsets)
}
