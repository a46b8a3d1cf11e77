//! Strings.

ghost use Rattle.planus.specs.Printed.{IsTextField, IsTextRequired};
ghost use Rattle.planus_owned.specs.Made.{IsMadeFrom, IsMadeOf, CopiesText, CopiesIf};

use crate::errors::OwnError;
use planus::table_reader::Table;
use planus::{text_field, text_required};
use planus_read::located::Error;
use std::alloc::Global;

fn copy_text<'n>(text: &str, alloc: Global) -> Result<String, OwnError<'n>>
    ensures { CopiesText text.entry result }
{
    match String::from_str(alloc, text) {
        Ok(string) => Ok(string),
        Err(_) => Err(OwnError::OutOfMemory),
    }
}

fn text<'n>(read: Result<&str, Error<'n>>, alloc: Global) -> Result<String, OwnError<'n>>
    ensures { IsMadeOf CopiesText read.entry result }
{
    match read {
        Ok(text) => copy_text(text, alloc),
        Err(error) => Err(OwnError::Read(error)),
    }
}

fn text_if<'n>(
    read: Result<Option<&str>, Error<'n>>,
    alloc: Global,
) -> Result<Option<String>, OwnError<'n>>
    ensures { IsMadeOf (CopiesIf CopiesText) read.entry result }
{
    match read {
        Ok(Some(text)) => match copy_text(text, alloc) {
            Ok(string) => Ok(Some(string)),
            Err(error) => Err(error),
        },
        Ok(None) => Ok(None),
        Err(error) => Err(OwnError::Read(error)),
    }
}

/// Returns a copy of the string in a slot. Fails as [`text_required`], or with
/// [`OwnError::OutOfMemory`].
pub fn own_text<'n>(
    table: &Table<'_>,
    slot: usize,
    type_: &'n str,
    method: &'n str,
    alloc: Global,
) -> Result<String, OwnError<'n>>
    ensures { IsMadeFrom IsTextRequired CopiesText table.now slot type_.now method.now result }
{
    text(text_required(table, slot, type_, method), alloc)
}

/// Returns a copy of the string, or `None` if absent. Fails as [`text_field`], or with
/// [`OwnError::OutOfMemory`].
pub fn own_text_if<'n>(
    table: &Table<'_>,
    slot: usize,
    type_: &'n str,
    method: &'n str,
    alloc: Global,
) -> Result<Option<String>, OwnError<'n>>
    ensures { IsMadeFrom IsTextField (CopiesIf CopiesText) table.now slot type_.now method.now
        result }
{
    text_if(text_field(table, slot, type_, method), alloc)
}
