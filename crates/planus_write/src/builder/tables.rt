//! Vtables, and what a table begins with.

ghost use Rattle.std.specs.Prelude.{◌≡◌, ◌+◌, ◌≤◌, ◌^◌, [], length, IfOk, ℕ, Some};
ghost use Rattle.planus_back.specs.Promises.{IsPowerOfTwo};
ghost use Rattle.planus_back.specs.Padding.{greatest_place};
ghost use Rattle.planus_back.specs.CacheKeys.{vtable_in};
ghost use Rattle.planus_write.specs.inner.Written.{place_of};
ghost use Rattle.planus_write.specs.History.{unshared_entry};
ghost use Rattle.planus_write.specs.Parts.{filled_part};
ghost use Rattle.planus_write.specs.Tables.{vtable_entry, word_part};
ghost use Rattle.planus_write.specs.Placing.{WritesEntry};
ghost use Rattle.planus_write.specs.inner.WholeTables.{PutsTableIf};

use crate::backing::word_between;
use crate::builder::Builder;
use crate::byte_lists::Copied;
use crate::errors::BuildError;
use crate::sharing::{Lookup, find_or_plan};
use crate::written::Written;
use planus_back::Overwrite;

impl Builder {
    #[inline]
    pub(crate) fn write_vtable(&mut self, bytes: &[u8]) -> Result<u32, BuildError>
        requires { vtable_in bytes.now ≡ Some bytes.now }
        ensures { WritesEntry (vtable_entry bytes.now) [] self.old result self.new }
    {
        self.write_any_vtable(bytes).place()
    }

    #[inline(never)]
    fn write_any_vtable(&mut self, bytes: &[u8]) -> Written
        requires { vtable_in bytes.now ≡ Some bytes.now }
        ensures { WritesEntry (vtable_entry bytes.now) [] self.old (place_of result) self.new }
    {
        Written::from(self.write_vtable_once(bytes))
    }

    #[inline(always)]
    fn write_vtable_once(&mut self, bytes: &[u8]) -> Result<u32, BuildError>
        requires { vtable_in bytes.now ≡ Some bytes.now }
        ensures { WritesEntry (vtable_entry bytes.now) [] self.old result self.new }
    {
        match find_or_plan(
            self.vtables.is_on(),
            &mut self.backing,
            &mut self.vtables,
            bytes,
            bytes.len(),
            1,
        )? {
            Lookup::Found(distance) => Ok(distance),
            Lookup::Planned(plan) => {
                self.backing
                    .put_planned_over(&plan, bytes.len(), &Copied(bytes));
                Ok(plan.place)
            }
        }
    }

    #[inline]
    pub(crate) fn write_word(&mut self, vtable: u32) -> Result<u32, BuildError>
        requires { vtable ≤ greatest_place }
        ensures entry { WritesEntry (unshared_entry (word_part vtable)) [] self.old result
            self.new }
        ensures last { IfOk result (λ place. place ≡ length self.new.bytes) }
    {
        let place = self.backing.make_room(4, 0)?;
        self.backing.put(&word_between(vtable, place));
        Ok(place)
    }

    // Writes only if vtables aren't shared and there is room. Returns whether it did; otherwise
    // nothing is changed.
    #[inline(always)]
    pub(crate) fn put_table<W: Overwrite>(
        &mut self,
        vtable: &[u8],
        size: usize,
        mask: usize,
        writer: &W,
    ) -> bool
        requires vtable { vtable_in vtable.now ≡ Some vtable.now }
        requires power { IsPowerOfTwo (mask + 1) }
        requires bound { mask + 1 ≤ 2 ^ 30 }
        requires fits { (place : ℕ) → length self.old.bytes + size ≤ place
            → place ≤ greatest_place → W.fits writer.now place size }
        ensures { PutsTableIf result vtable.now (filled_part size (mask + 1)
            (W.encoding writer.now)) self.old self.new }
    {
        !self.vtables.is_on() && self.backing.put_table(vtable, size, mask, writer)
    }
}
