//! Verification of a buffer.

ghost use Rattle.std.specs.Prelude.{ℕ, IfOk, IfErr, IfSome, Ok, Err};
ghost use Rattle.planus_read.specs.Clauses.{Answer, shown};
ghost use Rattle.planus_read.specs.Reading.{table_reading};
ghost use Rattle.planus_read.specs.Tables.{ShowsTable, table_object, table_slots, table_start};
ghost use Rattle.planus_verify.specs.Schemas.{shapes};
ghost use Rattle.planus_verify.specs.Walks.{RootWalks, Walks};

use crate::fault::Fault;
use crate::kind::VerifiedKind;
use crate::limits::Limits;
use crate::schema::Schema;
use crate::verify_table::Verify;
use crate::walk::verify_table;
use planus_read::table_reader::Table;
use planus_read::{SliceWithStartOffset, TableRead};

/// Verifies all that the accessors of a buffer's root read, and those of all tables to which it
/// leads, in the order of the schema's fields; the root is the table at an index of the schema.
/// Returns the root's table, or the first fault. Takes no memory.
pub fn verify<'b>(
    schema: &Schema<'_>,
    index: usize,
    bytes: &'b [u8],
    limits: Limits,
) -> Result<Table<'b>, Fault>
    ensures root { IfOk result (λ table. Answer (shown (ShowsTable bytes.entry.now 0)
        (table_reading bytes.entry.now 0)) (Ok table)) }
    ensures passed { IfOk result (λ table. (left : ℕ)
        × RootWalks (shapes schema.now) index limits.depth limits.tables bytes.entry.now (Ok left)) }
    ensures fault { IfErr result (λ found.
        RootWalks (shapes schema.now) index limits.depth limits.tables bytes.entry.now (Err found)) }
{
    let buffer = SliceWithStartOffset::new(bytes, 0);
    let table = match Table::from_buffer(buffer, 0) {
        Ok(table) => table,
        Err(kind) => return Err(Fault::Root(kind)),
    };
    verify_table(schema, index, table, limits.depth, limits.tables)?;
    Ok(table)
}

/// As [`verify`], of a kind by [`Verify::pass`]: returns the root's table if it passes. `None` says
/// nothing, and [`verify_kind`] then finds whether there is a fault.
#[inline(always)]
pub fn root_passes<'b, K: Verify>(bytes: &'b [u8], limits: Limits) -> Option<Table<'b>>
    ensures root { IfSome result (λ table. Answer (shown (ShowsTable bytes.entry.now 0)
        (table_reading bytes.entry.now 0)) (Ok table)) }
    ensures passed { IfSome result (λ table. (left : ℕ)
        × RootWalks K.schema K.index limits.depth limits.tables bytes.entry.now (Ok left)) }
{
    let buffer = SliceWithStartOffset::new(bytes, 0);
    let table = match Table::from_buffer(buffer, 0) {
        Ok(table) => table,
        Err(_) => return None,
    };
    match K::pass(table, limits.depth, limits.tables) {
        Some(_) => Some(table),
        None => None,
    }
}

/// As [`verify`], of a kind.
pub fn verify_kind<'b, K: VerifiedKind>(bytes: &'b [u8], limits: Limits) -> Result<Table<'b>, Fault>
    ensures root { IfOk result (λ table. Answer (shown (ShowsTable bytes.entry.now 0)
        (table_reading bytes.entry.now 0)) (Ok table)) }
    ensures passed { IfOk result (λ table. (left : ℕ)
        × RootWalks K.schema K.index limits.depth limits.tables bytes.entry.now (Ok left)) }
    ensures fault { IfErr result (λ found.
        RootWalks K.schema K.index limits.depth limits.tables bytes.entry.now (Err found)) }
{
    verify(&K::schema(), K::index(), bytes, limits)
}

/// As [`verify_kind`], first by [`Verify::pass`], of a table that was read, wherever it is in a buffer. The limits are those of
/// this table and what it leads to.
pub fn verify_read<K: Verify>(table: Table<'_>, limits: Limits) -> Result<(), Fault>
    ensures passed { IfOk result (λ _. (left : ℕ) × Walks K.schema limits.depth K.index
        (table_object table.entry) (table_slots table.entry) (table_start table.entry)
        limits.tables (Ok left)) }
    ensures fault { IfErr result (λ found. Walks K.schema limits.depth K.index
        (table_object table.entry) (table_slots table.entry) (table_start table.entry)
        limits.tables (Err found)) }
{
    if let Some(_) = K::pass(table, limits.depth, limits.tables) {
        return Ok(());
    }
    match verify_table(&K::schema(), K::index(), table, limits.depth, limits.tables) {
        Ok(_) => Ok(()),
        Err(fault) => Err(fault),
    }
}
