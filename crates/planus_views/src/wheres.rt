//! Where in a buffer an error or a fault is, told by the names of the fields that lead there.

ghost use Rattle.std.specs.Prelude.{◌≡◌};
ghost use Rattle.planus_views.specs.Names as spec;
ghost use Rattle.planus_views.specs.Wheres as wheres_spec;

use crate::field_path::FieldPath;
use crate::names::{FieldName, Names, TableName};
use crate::trail_texts::trail_text;
use planus::errors::ErrorLocation;
use planus_verify::{Fault, FieldPlace, Limits, Sought, VerifiedKind, trail};
use std::alloc::{AllocError, Global};

fn table_named(tables: &[TableName<'_>], name: &str) -> Option<usize>
    ensures { result ≡ spec.table_named tables.now name.now }
{
    for one in tables {
        if one.table.as_bytes() == name.as_bytes() {
            return Some(one.index);
        }
    }
    None
}

fn slot_named(fields: &[FieldName<'_>], table: usize, name: &str) -> Option<usize>
    ensures { result ≡ spec.slot_named fields.now table name.now }
{
    for one in fields {
        if one.table == table && one.field.as_bytes() == name.as_bytes() {
            return Some(one.slot);
        }
    }
    None
}

fn sought_named(names: &Names<'_>, location: &ErrorLocation) -> Sought
    ensures { result ≡ wheres_spec.sought_named (spec.names_of names.now) location.now }
{
    let start = location.byte_offset;
    let Some(table) = table_named(names.tables, location.type_) else {
        return Sought::Item(start);
    };
    match slot_named(names.fields, table, location.method) {
        Some(slot) => Sought::Field(FieldPlace {
            table,
            start,
            slot,
            item: None,
        }),
        None => Sought::Item(start),
    }
}

fn where_at<K: VerifiedKind>(
    alloc: Global,
    names: &Names<'_>,
    sought: Sought,
    bytes: &[u8],
    limits: Limits,
) -> Result<Option<FieldPath>, AllocError>
    ensures { wheres_spec.IsWhereAt K.schema (spec.names_of names.now) K.index limits sought
        bytes.now result }
{
    match trail(&K::schema(), K::index(), bytes, limits, sought, alloc)? {
        Some(places) => {
            let text = trail_text(alloc, names, &places)?;
            Ok(Some(FieldPath::new(text)))
        }
        None => Ok(None),
    }
}

/// Returns the names of the fields that lead from a buffer's root to what an error of an accessor is
/// of, as `crew[3].name`: its field, or the first item that can't be read of the vector of tables or
/// strings that it names. `None` if none lead there within the limits. The root is of
/// the kind `K`, and the names are its schema's.
pub fn where_is<K: VerifiedKind>(
    alloc: Global,
    names: &Names<'_>,
    error: &planus::Error,
    bytes: &[u8],
    limits: Limits,
) -> Result<Option<FieldPath>, AllocError>
    ensures { wheres_spec.IsWhere K.schema (spec.names_of names.now) K.index limits error.now
        bytes.now result }
{
    let sought = sought_named(names, &error.source_location);
    where_at::<K>(alloc, names, sought, bytes, limits)
}

/// The same of a fault of verification. `None` also if it is of the root itself, or a limit's.
pub fn where_fault_is<K: VerifiedKind>(
    alloc: Global,
    names: &Names<'_>,
    fault: &Fault,
    bytes: &[u8],
    limits: Limits,
) -> Result<Option<FieldPath>, AllocError>
    ensures { wheres_spec.IsWhereFault K.schema (spec.names_of names.now) K.index limits fault.now
        bytes.now result }
{
    match *fault {
        Fault::Field(place, _) => where_at::<K>(alloc, names, Sought::Field(place), bytes, limits),
        Fault::Root(_) | Fault::TooDeep | Fault::TooMany => Ok(None),
    }
}
