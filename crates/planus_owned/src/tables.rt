//! Tables in tables.

ghost use Rattle.std.specs.Prelude.{ℕ, List, Result as std_result};
ghost use Rattle.planus.specs.Printed.{IsTableField, IsTableRequired};
ghost use Rattle.planus_read.specs.declared.table_reader.Table.{Table};
ghost use Rattle.planus_owned.specs.declared.errors.OwnError.{OwnError};
ghost use Rattle.planus_owned.specs.Made.{IsMadeOf, CopiesBox, CopiesIf};
ghost use Rattle.planus_owned.specs.Records.{IsMade, OwnsTable, OwnsTableIf};

use crate::errors::OwnError;
use crate::owned::Owned;
use planus::TableView;
use planus_read::located::Error;
use std::alloc::Global;

fn boxed<'n, V, R: Drop, F: FnOnce(V) -> Result<R, OwnError<'n>>>(
    view: V,
    own: F,
    alloc: Global,
) -> Result<Box<R>, OwnError<'n>>
    requires { F.IsAlwaysCallable own }
    ensures { CopiesBox (F.post own) view result }
{
    match own(view) {
        Ok(record) => match Box::new(alloc, record) {
            Ok(record) => Ok(record),
            Err(_) => Err(OwnError::OutOfMemory),
        },
        Err(error) => Err(error),
    }
}

fn boxed_of<'n, V, R: Drop, F: FnOnce(V) -> Result<R, OwnError<'n>>>(
    read: Result<V, Error<'n>>,
    own: F,
    alloc: Global,
) -> Result<Box<R>, OwnError<'n>>
    requires { F.IsAlwaysCallable own }
    ensures { IsMadeOf (CopiesBox (F.post own)) read.entry result }
{
    match read {
        Ok(view) => boxed(view, own, alloc),
        Err(error) => Err(OwnError::Read(error)),
    }
}

fn boxed_if<'n, V, R: Drop, F: FnOnce(V) -> Result<R, OwnError<'n>>>(
    read: Result<Option<V>, Error<'n>>,
    own: F,
    alloc: Global,
) -> Result<Option<Box<R>>, OwnError<'n>>
    requires { F.IsAlwaysCallable own }
    ensures { IsMadeOf (CopiesIf (CopiesBox (F.post own))) read.entry result }
{
    let found = match read {
        Ok(found) => found,
        Err(error) => return Err(OwnError::Read(error)),
    };
    match found {
        Some(view) => match boxed(view, own, alloc) {
            Ok(record) => Ok(Some(record)),
            Err(error) => Err(error),
        },
        None => Ok(None),
    }
}

/// Returns the record that `own` makes of the table that an accessor returned, as
/// [`table_required`](planus::table_required). Fails as the accessor or as `own`, or with
/// [`OwnError::OutOfMemory`].
pub fn own_table<
    'a,
    'n,
    V: TableView<'a>,
    R: Owned + Drop,
    F: FnOnce(V) -> Result<R, OwnError<'n>>,
>(read: Result<V, Error<'n>>, own: F, alloc: Global) -> Result<Box<R>, OwnError<'n>>
    requires { F.IsAlwaysCallable own }
    ensures { (n : ℕ) (table : Table) (slot : ℕ) (type_ method : List ℕ)
        → IsTableRequired V.Kind V.table table slot type_ method read.entry
        → ((view : V) (r : std_result R OwnError) → F.post own view r
        → IsMade (R.owned n) (V.table view) r)
        → OwnsTable V.Kind V.table (R.owned n) table slot type_ method result }
{
    boxed_of(read, own, alloc)
}

/// The same of a field that may be absent, as of [`table_field`](planus::table_field): `None` of
/// `None`.
pub fn own_table_if<
    'a,
    'n,
    V: TableView<'a>,
    R: Owned + Drop,
    F: FnOnce(V) -> Result<R, OwnError<'n>>,
>(read: Result<Option<V>, Error<'n>>, own: F, alloc: Global) -> Result<Option<Box<R>>, OwnError<'n>>
    requires { F.IsAlwaysCallable own }
    ensures { (n : ℕ) (table : Table) (slot : ℕ) (type_ method : List ℕ)
        → IsTableField V.Kind V.table table slot type_ method read.entry
        → ((view : V) (r : std_result R OwnError) → F.post own view r
        → IsMade (R.owned n) (V.table view) r)
        → OwnsTableIf V.Kind V.table (R.owned n) table slot type_ method result }
{
    boxed_if(read, own, alloc)
}
