//! Items of a view, converted.

ghost use Rattle.std.specs.Prelude.{◌≡◌, IfOk, IfErr, Result as std_result};
ghost use Rattle.planus_view.specs.declared.copies.CopyError.{CopyError};
ghost use Rattle.planus_view.specs.Copies.{AreAllConverted, IsRefusal};

use crate::items::Items;
use crate::view::ReadView;
use planus_read::located::Error;
use std::alloc::{AllocError, Global};
use std::fmt;

/// Why items can't be copied, with names of any lifetime.
#[derive(Clone, Copy, Debug, PartialEq, Eq)]
pub enum CopyError<'n> {
    /// An allocation failed.
    OutOfMemory,
    /// An item can't be read.
    Read(Error<'n>),
}

impl<'n> fmt::Display for CopyError<'n> {
    ghost use Rattle.planus_view.specs.Texts.{copy_error_text};
    ghost use Rattle.std.specs.Prelude.{Some};

    ghost output = { λ error. Some (copy_error_text error) };

    fn fmt<W: fmt::Write>(&self, f: &mut fmt::Formatter<W>) -> fmt::Result {
        match self {
            CopyError::OutOfMemory => write!(f, "out of memory"),
            CopyError::Read(error) => write!(f, "{error}"),
        }
    }
}

impl<'n> std::error::Error for CopyError<'n> {}

impl<'n> From<AllocError> for CopyError<'n> {
    ghost use Rattle.planus_view.specs.declared.copies.CopyError.TheVariants.{OutOfMemory};

    ghost from_gives = { λ _ e. e ≡ OutOfMemory };

    fn from(_: AllocError) -> CopyError<'n> {
        CopyError::OutOfMemory
    }
}

impl<'n> From<Error<'n>> for CopyError<'n> {
    ghost use Rattle.planus_view.specs.declared.copies.CopyError.TheVariants.{Read};

    ghost from_gives = { λ error e. e ≡ Read error };

    fn from(error: Error<'n>) -> CopyError<'n> {
        CopyError::Read(error)
    }
}

/// What items can be converted to.
pub trait FromItem<T>: Sized {
    ghost converts: { T → std_result Self CopyError → Type 0 };

    /// Returns the item, converted, or its error.
    fn from_item(alloc: Global, item: T) -> Result<Self, CopyError<'static>>
        ensures { converts item result };
}

impl<T> FromItem<T> for T {
    ghost use Rattle.std.specs.Prelude.{Ok};

    ghost converts = { λ item r. r ≡ Ok item };

    #[inline]
    fn from_item(_alloc: Global, item: T) -> Result<T, CopyError<'static>> {
        Ok(item)
    }
}

impl<'buf> FromItem<&'buf str> for String {
    ghost use Rattle.std.specs.Prelude.{MatchResult};
    ghost use Rattle.std.specs.String.{string_bytes};
    ghost use Rattle.planus_view.specs.declared.copies.CopyError.TheVariants.{OutOfMemory};

    ghost converts = { λ item r.
        MatchResult r (λ text. string_bytes text ≡ item.now) (λ e. e ≡ OutOfMemory) };

    fn from_item(alloc: Global, item: &'buf str) -> Result<String, CopyError<'static>> {
        Ok(String::from_str(alloc, item)?)
    }
}

pub trait Conversion<A, O> {
    ghost gives: { A → std_result O CopyError → Type 0 };

    fn convert(alloc: Global, item: A) -> Result<O, CopyError<'static>>
        ensures { gives item result };
}

pub struct EachItem;

/// An error of a read is unchanged.
pub struct EachRead;

impl<A, O: FromItem<A>> Conversion<A, O> for EachItem {
    ghost gives = { λ item r. O.converts item r };

    fn convert(alloc: Global, item: A) -> Result<O, CopyError<'static>> {
        O::from_item(alloc, item)
    }
}

impl<T, E: Into<Error<'static>>, O: FromItem<T>> Conversion<Result<T, E>, O> for EachRead {
    ghost use Rattle.planus_view.specs.Copies.{ReadConverts};

    ghost gives = { λ item r. ReadConverts O.converts E.converts item r };

    fn convert(alloc: Global, item: Result<T, E>) -> Result<O, CopyError<'static>> {
        match item {
            Ok(value) => O::from_item(alloc, value),
            Err(error) => Err(CopyError::Read(error.into())),
        }
    }
}

/// Memory is allocated once, before the first item is read.
pub fn copy_items<'n, V: ReadView, O: Drop, C: Conversion<V::Item, O>>(
    alloc: Global,
    view: &V,
) -> Result<Vec<O>, CopyError<'n>>
where
    V::Item: Drop,
    ensures all { IfOk result (λ copies. AreAllConverted V.is_sub_view V.is_item C.gives view.now
        (V.count view.now) copies.items) }
    ensures refused { IfErr result (λ e. IsRefusal V.is_sub_view V.is_item C.gives view.now
        (V.count view.now) e) }
{
    let mut copies = Vec::with_capacity(alloc, view.len())?;
    for item in Items::new(*view) {
        let copy = C::convert(alloc, item)?;
        match copies.push(copy) {
            Ok(()) => {}
            Err(_) => unreachable!(),
        }
    }
    Ok(copies)
}
