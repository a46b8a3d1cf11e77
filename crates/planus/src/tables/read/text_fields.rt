//! Strings, byte vectors and vectors of strings, read back.
ghost use Rattle.planus.specs.Accessors.{IsBytesField, IsBytesRequired};
ghost use Rattle.planus.specs.Accessors.{IsTextField, IsTextRequired};
ghost use Rattle.planus.specs.Accessors.{IsTextVector, IsTextVectorRequired};
ghost use Rattle.planus.specs.ItemAccessors.{IsTextItem};

use planus_read::located::Error;
use planus_read::table_reader::Table;
use planus_view::Vector;

/// Returns the string in a slot, or `None` if absent.
pub fn text_field<'a, 'n>(
    table: &Table<'a>,
    slot: usize,
    type_: &'n str,
    method: &'n str,
) -> Result<Option<&'a str>, Error<'n>>
    ensures { IsTextField table.now slot type_.now method.now result }
{
    table.access::<&str>(slot, type_, method)
}

/// Returns the string, or `MissingRequired` if absent.
pub fn text_required<'a, 'n>(
    table: &Table<'a>,
    slot: usize,
    type_: &'n str,
    method: &'n str,
) -> Result<&'a str, Error<'n>>
    ensures { IsTextRequired table.now slot type_.now method.now result }
{
    table.access_required::<&str>(slot, type_, method)
}

/// Returns the byte vector in a slot, or `None` if absent.
pub fn bytes_field<'a, 'n>(
    table: &Table<'a>,
    slot: usize,
    type_: &'n str,
    method: &'n str,
) -> Result<Option<&'a [u8]>, Error<'n>>
    ensures { IsBytesField table.now slot type_.now method.now result }
{
    table.access::<&[u8]>(slot, type_, method)
}

/// Returns the bytes, or `MissingRequired` if absent.
pub fn bytes_required<'a, 'n>(
    table: &Table<'a>,
    slot: usize,
    type_: &'n str,
    method: &'n str,
) -> Result<&'a [u8], Error<'n>>
    ensures { IsBytesRequired table.now slot type_.now method.now result }
{
    table.access_required::<&[u8]>(slot, type_, method)
}

/// Returns the vector of strings in a slot, or `None` if absent.
pub fn text_vector<'a, 'n>(
    table: &Table<'a>,
    slot: usize,
    type_: &'n str,
    method: &'n str,
) -> Result<Option<Vector<'a, planus_read::Result<&'a str>>>, Error<'n>>
    ensures { IsTextVector table.now slot type_.now method.now result }
{
    table.access::<Vector<'a, planus_read::Result<&'a str>>>(slot, type_, method)
}

/// Returns the vector, or `MissingRequired` if absent.
pub fn text_vector_required<'a, 'n>(
    table: &Table<'a>,
    slot: usize,
    type_: &'n str,
    method: &'n str,
) -> Result<Vector<'a, planus_read::Result<&'a str>>, Error<'n>>
    ensures { IsTextVectorRequired table.now slot type_.now method.now result }
{
    table.access_required::<Vector<'a, planus_read::Result<&'a str>>>(slot, type_, method)
}

/// Returns an item of a vector of strings, or `None` out of bounds.
pub fn text_item<'a>(
    vector: &Vector<'a, planus_read::Result<&'a str>>,
    index: usize,
) -> Option<planus_read::Result<&'a str>>
    ensures { IsTextItem vector.now index result }
{
    vector.get(index)
}
