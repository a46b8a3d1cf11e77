//! Whether values pass that a field leads to.

ghost use Rattle.std.specs.Prelude.{◌≡◌, ℕ, true, Ok};
ghost use Rattle.planus_read.specs.Places.{place_bytes, place_start, place_offset};
ghost use Rattle.planus_read.specs.Clauses.{AllHold};
ghost use Rattle.planus_read.specs.Reading.{text_clauses};
ghost use Rattle.planus_read.specs.Slices.{slice_bytes, slice_start};
ghost use Rattle.planus_read.specs.declared.errors.ErrorKind.{ErrorKind};
ghost use Rattle.planus_view.specs.UnionVectorView.{view_of as unions_of};
ghost use Rattle.planus_verify.specs.Passes.{StepsPass, members_steps};
ghost use Rattle.planus_verify.specs.Steps.{Faults, reference_steps, value_steps};
ghost use Rattle.planus_verify.specs.Walks.{NoTable, InOrder, Walks};
ghost use Rattle.planus_verify.specs.declared.fault.Fault.{Fault};
ghost use Rattle.planus_verify.specs.declared.schema.ValueKind.TheVariants as value;

use crate::readings::{bytes_are_there, plain_is_there, plains_are_there};
use crate::schema::ValueKind;
use crate::text_test::{TextTest, text_passes};
use crate::verify_table::Verify;
use crate::verify_union::VerifyUnion;
use planus_read::table_reader::Table;
use planus_read::{Place, SliceWithStartOffset, TableRead, TaggedPlace};
use planus_view::{UnionVector, Vector};

/// Whether a vector of strings passes.
fn texts_pass(buffer: SliceWithStartOffset<'_>, offset: usize) -> bool
    ensures { result ≡ true → ((at : Faults) (left : ℕ) → InOrder NoTable (value_steps at
        value.Texts (slice_bytes buffer.entry) (slice_start buffer.entry) offset) left (Ok left)) }
{
    let items = match <Vector<'_, TextTest> as TableRead<'_>>::from_buffer(buffer, offset) {
        Ok(items) => items,
        Err(_) => return false,
    };
    for i in 0..items.len() {
        if !items.get_unchecked(i).passes {
            return false;
        }
    }
    true
}

/// Whether a value that leads to no table passes.
#[inline(always)]
pub(crate) fn value_passes(kind: ValueKind, buffer: SliceWithStartOffset<'_>, offset: usize) -> bool
    ensures { result ≡ true → ((at : Faults) (left : ℕ) → InOrder NoTable (value_steps at kind
        (slice_bytes buffer.entry) (slice_start buffer.entry) offset) left (Ok left)) }
{
    match kind {
        ValueKind::Plain(size) => plain_is_there(buffer, offset, size).is_ok(),
        ValueKind::Text => text_passes(buffer, offset),
        ValueKind::Bytes => bytes_are_there(Place::new(buffer, offset)).is_ok(),
        ValueKind::Plains(size) => plains_are_there(buffer, offset, size).is_ok(),
        ValueKind::Texts => texts_pass(buffer, offset),
        _ => false,
    }
}

/// Whether a string passes to which a reference leads.
#[inline(always)]
pub(crate) fn text_at_passes(at: Place<'_>) -> bool
    ensures { result ≡ true → AllHold (text_clauses (place_bytes at.entry)
        (place_offset at.entry)) }
{
    match at.read::<TextTest>() {
        Ok(test) => test.passes,
        Err(_) => false,
    }
}

/// The table to which a reference leads.
#[inline(always)]
pub(crate) fn reference_passes<L: Verify>(at: Place<'_>, depth: u8, left: usize) -> Option<usize>
    ensures { (here : ErrorKind → Fault) → StepsPass (Walks L.schema depth) (reference_steps here
        L.index (place_bytes at.entry) (place_start at.entry) (place_offset at.entry)) left result }
{
    match at.read::<Table<'_>>() {
        Ok(table) => L::pass(table, depth, left),
        Err(_) => None,
    }
}

/// A vector of tables.
#[inline]
pub(crate) fn tables_pass<L: Verify>(
    buffer: SliceWithStartOffset<'_>,
    offset: usize,
    depth: u8,
    before: usize,
) -> Option<usize>
    ensures { (at : Faults) → StepsPass (Walks L.schema depth) (value_steps at
        (value.Tables L.index) (slice_bytes buffer.entry) (slice_start buffer.entry) offset) before
        result }
{
    let items = match <Vector<'_, Place<'_>> as TableRead<'_>>::from_buffer(buffer, offset) {
        Ok(items) => items,
        Err(_) => return None,
    };
    let mut left = before;
    for i in 0..items.len() {
        left = reference_passes::<L>(items.get_unchecked(i), depth, left)?;
    }
    Some(left)
}

/// A byte vector with a buffer.
#[inline]
pub(crate) fn nested_passes<L: Verify>(at: Place<'_>, depth: u8, left: usize) -> Option<usize>
    ensures { (faults : Faults) → StepsPass (Walks L.schema depth) (value_steps faults
        (value.Nested L.index) (place_bytes at.entry) (place_start at.entry)
        (place_offset at.entry)) left result }
{
    match at.read::<&[u8]>() {
        Ok(bytes) => {
            let root = Place::new(SliceWithStartOffset::new(bytes, 0), 0);
            reference_passes::<L>(root, depth, left)
        }
        Err(_) => None,
    }
}

/// The members of a vector of unions.
#[inline]
pub(crate) fn unions_pass<'b, U: VerifyUnion>(
    items: UnionVector<'b, TaggedPlace<'b>>,
    depth: u8,
    before: usize,
) -> Option<usize>
    ensures { (at : Faults) → StepsPass (Walks U.schema depth) (members_steps U.schema.variants at
        U.union (unions_of items.entry)) before result }
{
    let mut left = before;
    for i in 0..items.len() {
        let Ok(tagged) = items.get_unchecked(i) else {
            unreachable!()
        };
        left = U::pass_member(tagged.tag(), tagged.place(), depth, left)?;
    }
    Some(left)
}
