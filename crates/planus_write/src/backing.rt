//! The bytes of a builder, and their alignment constraints.
ghost use Rattle.std.specs.Prelude.{◌≡◌, ◌+◌, ◌≤◌, ◌^◌, [], ◌++◌, List, length, IfOk, ℕ};
ghost use Rattle.std.specs.Prelude.{pos, ◌-◌, ◌-ℤ◌};
ghost use Rattle.std.specs.Int.{w32, to_le_bytes, cast_unsigned};
ghost use Rattle.planus_back.specs.Promises.{Promise, IsPowerOfTwo, greatest_alignment};
ghost use Rattle.planus_back.specs.Padding.{greatest_place};
ghost use Rattle.planus_write.specs.inner.Backed.{Backed, PlansPart};

use crate::errors::BuildError;
use planus_back::{BackVec, Overwrite, Promises};
use std::alloc::{AllocError, Global};
use std::marker::Model;

/// One less than the alignment of a count or a reference.
pub(crate) const WORD_MASK: usize = 3;

#[derive(Drop)]
pub(crate) struct Plan {
    pub(crate) promises: Promises,
    pub(crate) padding: usize,
    pub(crate) place: u32,
}

/// A part's constraint is added before its bytes.
#[derive(Debug, Drop)]
pub(crate) struct Backing {
    inner: BackVec,
    promises: Promises,
}

impl Model for Backing {
    ghost use Rattle.planus_write.specs.inner.Backed.{Backed};

    ghost Value = { Backed };

    ghost use Rattle.planus_write.specs.View.{backed_of, IsSmall};

    ghost view = { backed_of };

    ghost invariant = { IsSmall };
}

impl Backing {
    ghost use Rattle.planus_write.specs.inner.Backed.{DescribedBy, PutsBytes, Reserves};
    ghost use Rattle.planus_write.specs.inner.Backed.{Pads, Begins};
    ghost use Rattle.planus_write.specs.Parts.{filled_part};
    ghost use Rattle.planus_write.specs.inner.Backed.{PlansRoom};
    ghost use Rattle.planus_write.specs.inner.WholeTables.{PutsPartsIf};

    pub(crate) fn with_capacity(alloc: Global, capacity: usize) -> Result<Backing, AllocError>
        ensures bytes { IfOk result (λ backing. backing.bytes ≡ []) }
        ensures room { IfOk result (λ backing. capacity ≤ backing.room) }
        ensures described { IfOk result (λ backing. DescribedBy backing []) }
    {
        let inner = BackVec::with_capacity(alloc, capacity)?;
        Ok(Backing {
            inner,
            promises: Promises::new(),
        })
    }

    #[inline]
    pub(crate) fn len(&self) -> usize
        ensures number { result ≡ length self.now.bytes }
        ensures small { result ≤ greatest_place }
    {
        self.inner.len()
    }

    #[inline]
    pub(crate) fn as_slice(&self) -> &[u8]
        ensures bytes { result.now ≡ self.now.bytes }
        ensures small { length self.now.bytes ≤ greatest_place }
    {
        self.inner.as_slice()
    }

    #[inline]
    pub(crate) fn room(&self) -> usize
        ensures { result ≡ self.now.room }
    {
        self.inner.room()
    }

    pub(crate) fn clear(&mut self)
        ensures bytes { self.new.bytes ≡ [] }
        ensures room { self.new.room ≡ length self.old.bytes + self.old.room }
        ensures described { DescribedBy self.new [] }
    {
        self.inner.clear();
        self.promises = Promises::new();
    }

    // Takes no memory.
    #[inline]
    pub(crate) fn plan_part(&self, size: usize, mask: usize) -> Result<Plan, BuildError>
        requires power { IsPowerOfTwo (mask + 1) }
        requires bound { mask + 1 ≤ 2 ^ 30 }
        ensures { PlansPart size (mask + 1) self.now result }
    {
        plan_after(self.promises, self.inner.len(), size, mask)
    }

    #[inline]
    pub(crate) fn reserve(&mut self, n: usize) -> Result<(), BuildError>
        ensures { Reserves n self.old result self.new }
    {
        self.inner.reserve(n)?;
        Ok(())
    }

    #[inline]
    pub(crate) fn pad(&mut self, plan: &Plan)
        requires room { plan.now.padding ≤ self.old.room }
        requires fits { plan.now.padding + length self.old.bytes ≤ greatest_place }
        ensures { Pads plan.now self.old self.new }
    {
        self.inner.put_zeros(plan.padding);
        self.promises = plan.promises;
    }

    #[inline]
    pub(crate) fn plan_room(&mut self, size: usize, mask: usize) -> Result<Plan, BuildError>
        requires power { IsPowerOfTwo (mask + 1) }
        requires bound { mask + 1 ≤ 2 ^ 30 }
        ensures { PlansRoom size (mask + 1) self.old result self.new }
    {
        let plan = self.plan_part(size, mask)?;
        self.reserve(plan.padding + size)?;
        Ok(plan)
    }

    #[inline]
    pub(crate) fn make_room(&mut self, size: usize, mask: usize) -> Result<u32, BuildError>
        requires power { IsPowerOfTwo (mask + 1) }
        requires bound { mask + 1 ≤ 2 ^ 30 }
        ensures { Begins size (mask + 1) self.old result self.new }
    {
        let plan = self.plan_room(size, mask)?;
        self.pad(&plan);
        Ok(plan.place)
    }

    #[inline]
    pub(crate) fn put(&mut self, bytes: &[u8])
        requires room { length bytes.now ≤ self.old.room }
        requires fits { length bytes.now + length self.old.bytes ≤ greatest_place }
        ensures { PutsBytes bytes.now self.old self.new }
    {
        self.inner.put_slice(bytes);
    }

    // Often there are no bytes: nothing is copied then.
    #[inline]
    pub(crate) fn put_if_any(&mut self, bytes: &[u8])
        requires room { length bytes.now ≤ self.old.room }
        requires fits { length bytes.now + length self.old.bytes ≤ greatest_place }
        ensures { PutsBytes bytes.now self.old self.new }
    {
        if !bytes.is_empty() {
            self.put(bytes);
        }
    }

    #[inline]
    pub(crate) fn put_three(&mut self, first: &[u8], second: &[u8], third: &[u8])
        requires room { length (first.now ++ second.now ++ third.now) ≤ self.old.room }
        requires fits { length (first.now ++ second.now ++ third.now) + length self.old.bytes
            ≤ greatest_place }
        ensures { PutsBytes (first.now ++ second.now ++ third.now) self.old self.new }
    {
        self.inner.put_three_padded(0, first, second, third);
    }

    #[inline(always)]
    pub(crate) fn put_planned_over<W: Overwrite>(&mut self, plan: &Plan, size: usize, writer: &W)
        requires room { plan.now.padding + size ≤ self.old.room }
        requires within { size + (plan.now.padding + length self.old.bytes) ≤ greatest_place }
        requires fits { W.fits writer.now plan.now.place size }
        ensures put { (padded : Backed) × Pads plan.now self.old padded
            × PutsBytes (W.encoding writer.now plan.now.place size) padded self.new }
        ensures count { length (W.encoding writer.now plan.now.place size) ≡ size }
    {
        self.promises = plan.promises;
        self.inner
            .put_overwritten_padded(plan.padding, plan.place, size, writer);
    }

    #[inline(always)]
    pub(crate) fn put_overwritten<W: Overwrite>(&mut self, place: u32, size: usize, writer: &W)
        requires room { size ≤ self.old.room }
        requires within { size + length self.old.bytes ≤ greatest_place }
        requires fits { W.fits writer.now place size }
        ensures put { PutsBytes (W.encoding writer.now place size) self.old self.new }
        ensures count { length (W.encoding writer.now place size) ≡ size }
    {
        self.inner.put_overwritten(place, size, writer);
    }

    // Changes nothing, and returns `false`, where a part is too large or the room doesn't suffice.
    #[inline(always)]
    pub(crate) fn put_table<W: Overwrite>(
        &mut self,
        vtable: &[u8],
        size: usize,
        mask: usize,
        writer: &W,
    ) -> bool
        requires power { IsPowerOfTwo (mask + 1) }
        requires bound { mask + 1 ≤ 2 ^ 30 }
        requires fits { (place : ℕ) → length self.old.bytes + size ≤ place
            → place ≤ greatest_place → W.fits writer.now place size }
        ensures { PutsPartsIf result vtable.now (filled_part size (mask + 1)
            (W.encoding writer.now)) self.old self.new }
    {
        let Ok(first) = self.plan_part(vtable.len(), 1) else {
            return false;
        };
        let Ok(body) = plan_after(first.promises, first.place as usize, size, mask) else {
            return false;
        };
        let Ok(word) = plan_after(body.promises, body.place as usize, 4, 0) else {
            return false;
        };
        if first.padding + vtable.len() + body.padding + size + 4 > self.room() {
            return false;
        }
        self.inner.put_two_parts(
            first.padding,
            vtable,
            body.padding,
            body.place,
            size,
            writer,
            &word_between(first.place, word.place),
        );
        self.promises = word.promises;
        true
    }

    pub(crate) fn alloc(&self) -> Global {
        self.inner.alloc()
    }

    // One less than the greatest of 4 and every alignment so far.
    pub(crate) fn finish_mask(&self) -> usize
        ensures power { IsPowerOfTwo (result + 1) }
        ensures bound { result + 1 ≤ 2 ^ 30 }
        ensures greatest { (promises : List Promise) → DescribedBy self.now promises
            → greatest_alignment 4 promises ≡ result + 1 }
        ensures all { (promises : List Promise) → DescribedBy self.now promises
            → greatest_alignment 1 promises ≤ result + 1 }
    {
        self.promises.mask().max(WORD_MASK)
    }
}

#[inline(always)]
fn plan_after(promises: Promises, len: usize, size: usize, mask: usize) -> Result<Plan, BuildError>
    requires power { IsPowerOfTwo (mask + 1) }
    requires bound { mask + 1 ≤ 2 ^ 30 }
    requires small { len ≤ greatest_place }
    ensures planned { (backed : Backed) → length backed.bytes ≡ len
        → backed.delayed ≡ promises.delayed → backed.mask ≡ promises.mask
        → PlansPart size (mask + 1) backed result }
    ensures place { IfOk result (λ plan. plan.place ≡ len + plan.padding + size) }
    ensures fits { IfOk result (λ plan. plan.place ≤ greatest_place) }
{
    let (promises, padding) = promises.request(len, size, mask)?;
    Ok(Plan {
        promises,
        padding,
        place: (len + padding + size) as u32,
    })
}

#[inline]
pub(crate) fn word_between(vtable: u32, table: u32) -> [u8; 4]
    requires vtable { vtable ≤ greatest_place }
    requires table { table ≤ greatest_place }
    ensures { result ≡ to_le_bytes w32 (cast_unsigned w32 (pos vtable -ℤ pos table)) }
{
    let vtable = vtable as i32;
    let table = table as i32;
    (vtable - table).to_le_bytes()
}
