//! Verification of a table field by field, which says whether all pass, and no fault.

ghost use Rattle.std.specs.Prelude.{◌≡◌, ◌+◌, IfSome, ⊤, if◌then◌else◌, None, Some};
ghost use Rattle.planus_verify.specs.Passes.{FieldPasses, field_of, entered_table, entered_depth};
ghost use Rattle.planus_verify.specs.declared.schema.FieldKind.TheVariants as field_kind;
ghost use Rattle.planus_verify.specs.declared.schema.ValueKind.TheVariants as value_kind;

use crate::kind::VerifiedKind;
use crate::passes::{nested_passes, reference_passes, tables_pass, unions_pass, value_passes};
use crate::schema::{FieldKind, FieldShape, ValueKind};
use crate::verify_table::Verify;
use crate::verify_union::VerifyUnion;
use crate::walk::verify_field;
use planus_read::table_reader::Table;
use planus_read::{Place, TaggedPlace};
use planus_view::UnionVector;
use std::alloc::AllocError;
use std::marker::PhantomData;

/// A table of kind `K` whose fields are verified one by one: a method a kind of field, each by its
/// slot, and whether it is required. `left` says how many tables may still be entered, and what is
/// returned how many may be after it; `None` says nothing.
pub struct Entered<'b, K: VerifiedKind> {
    table: Table<'b>,
    depth: u8,
    _kind: PhantomData<K>,
}

// An absent field passes unless it's required.
#[inline(always)]
fn unless(required: bool, left: usize) -> Option<usize>
    ensures { result ≡ if required then None else Some left }
{
    if required {
        return None;
    }
    Some(left)
}

impl<'b, K: VerifiedKind> Clone for Entered<'b, K> {
    ghost is_clone = { λ entered copy. copy ≡ entered };

    ghost is_infallible = { λ _. ⊤ };

    #[inline]
    fn clone(&self) -> Result<Self, AllocError> {
        Ok(*self)
    }
}

impl<'b, K: VerifiedKind> Copy for Entered<'b, K> {}

impl<'b, K: VerifiedKind> Entered<'b, K> {
    /// Enters a table, where so many may stand one in the other.
    #[inline(always)]
    pub fn new(table: Table<'b>, depth: u8) -> Option<Entered<'b, K>>
        ensures table { IfSome result (λ entered. entered_table entered ≡ table.entry) }
        ensures depth { IfSome result (λ entered. depth ≡ entered_depth entered + 1) }
    {
        if depth == 0 {
            return None;
        }
        Some(Entered {
            table,
            depth: depth - 1,
            _kind: PhantomData,
        })
    }

    /// Counts the table.
    #[inline(always)]
    pub fn counted(&self, left: usize) -> Option<usize>
        ensures { IfSome result (λ rest. left ≡ rest + 1) }
    {
        if left == 0 {
            return None;
        }
        Some(left - 1)
    }

    /// Verifies a value that leads to no table.
    #[inline(always)]
    pub fn value(&self, slot: usize, required: bool, kind: ValueKind, left: usize) -> Option<usize>
        ensures { FieldPasses K.schema (entered_depth self.now) K.index (entered_table self.now)
            (field_of slot required (field_kind.Value kind)) left result }
    {
        let offset = self.table.slot_offset(slot);
        if offset == 0 {
            return unless(required, left);
        }
        if value_passes(kind, self.table.object(), offset) {
            return Some(left);
        }
        None
    }

    /// Verifies a field of any kind by a walk over the schema: for those that lead back to tables
    /// that were entered before, since no function of a kind may.
    pub fn walked(&self, slot: usize, required: bool, kind: FieldKind, left: usize) -> Option<usize>
        ensures { FieldPasses K.schema (entered_depth self.now) K.index (entered_table self.now)
            (field_of slot required kind) left result }
    {
        let field = FieldShape {
            slot,
            required,
            kind,
        };
        match verify_field(
            &K::schema(),
            &field,
            K::index(),
            self.table,
            self.depth,
            left,
        ) {
            Ok(rest) => Some(rest),
            Err(_) => None,
        }
    }

    /// Verifies a table.
    #[inline(always)]
    pub fn table<L: Verify>(&self, slot: usize, required: bool, left: usize) -> Option<usize>
        ensures { FieldPasses L.schema (entered_depth self.now) K.index (entered_table self.now)
            (field_of slot required (field_kind.Value (value_kind.Table L.index))) left result }
    {
        let offset = self.table.slot_offset(slot);
        if offset == 0 {
            return unless(required, left);
        }
        reference_passes::<L>(Place::new(self.table.object(), offset), self.depth, left)
    }

    /// Verifies a vector of tables.
    #[inline(always)]
    pub fn tables<L: Verify>(&self, slot: usize, required: bool, left: usize) -> Option<usize>
        ensures { FieldPasses L.schema (entered_depth self.now) K.index (entered_table self.now)
            (field_of slot required (field_kind.Value (value_kind.Tables L.index))) left result }
    {
        let offset = self.table.slot_offset(slot);
        if offset == 0 {
            return unless(required, left);
        }
        tables_pass::<L>(self.table.object(), offset, self.depth, left)
    }

    /// Verifies a byte vector with a buffer, whose root is of kind `L`.
    #[inline(always)]
    pub fn nested<L: Verify>(&self, slot: usize, required: bool, left: usize) -> Option<usize>
        ensures { FieldPasses L.schema (entered_depth self.now) K.index (entered_table self.now)
            (field_of slot required (field_kind.Value (value_kind.Nested L.index))) left result }
    {
        let offset = self.table.slot_offset(slot);
        if offset == 0 {
            return unless(required, left);
        }
        nested_passes::<L>(Place::new(self.table.object(), offset), self.depth, left)
    }

    /// Verifies a union, whose tag has this slot and its reference the one after it.
    #[inline(always)]
    pub fn union<U: VerifyUnion>(&self, slot: usize, required: bool, left: usize) -> Option<usize>
        ensures { FieldPasses U.schema (entered_depth self.now) K.index (entered_table self.now)
            (field_of slot required (field_kind.Union U.union)) left result }
    {
        match self.table.access_union::<TaggedPlace<'_>>(slot, "", "") {
            Ok(Some(tagged)) => U::pass_member(tagged.tag(), tagged.place(), self.depth, left),
            Ok(None) => unless(required, left),
            Err(_) => None,
        }
    }

    /// Verifies a vector of unions, whose tags have this slot and its references the one after it.
    #[inline(always)]
    pub fn unions<U: VerifyUnion>(&self, slot: usize, required: bool, left: usize) -> Option<usize>
        ensures { FieldPasses U.schema (entered_depth self.now) K.index (entered_table self.now)
            (field_of slot required (field_kind.Unions U.union)) left result }
    {
        match self
            .table
            .access_union_vector::<UnionVector<'b, TaggedPlace<'b>>>(slot, "", "")
        {
            Ok(Some(items)) => unions_pass::<U>(items, self.depth, left),
            Ok(None) => unless(required, left),
            Err(_) => None,
        }
    }
}
