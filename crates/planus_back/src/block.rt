//! A block of memory, written from its end to its front.
ghost use Rattle.std.specs.Prelude.{◌≡◌, ◌+◌, ◌≤◌, ◌++◌, length, take, drop, replicate, IfOk};
ghost use Rattle.std.specs.Prelude.{false};
ghost use Rattle.core.specs.Mem.Slots.Ownership.{Filled, SameOutside};
ghost use Rattle.core.specs.Mem.Slots.{SamePlaces, slots_filled, slots_items, slots_len};
ghost use Rattle.planus_back.specs.inner.Blocks.{HoldsFrom, IsBlock, Puts, Readies, bytes_from};
ghost use Rattle.planus_back.specs.inner.Blocks.{capacity_of};

use crate::cells::{Deed, allocate, deallocate, lend, lend_mut};
use crate::fill::Overwrite;
use core::slots::Slots;
use std::alloc::{AllocError, Global};
use std_alloc::room::may_hold;

/// The number of places before a part that are initialized with it.
const AHEAD: usize = 256;

const ZEROS: [u8; 4096] = [0; 4096];

/// A block of places, initialized from one on.
pub struct Block {
    base: *mut u8,
    places: Slots<u8>,
    // Each place from here on holds a byte. Not updated at each write.
    initialized: usize,
    deed: Deed<u8, Global>,
    alloc: Global,
}

fn zero(places: &mut Slots<u8>, at: usize, n: usize)
    requires { at + n ≤ slots_len places.old }
    ensures items { slots_items places.new
        ≡ take at (slots_items places.old) ++ replicate n 0 ++ drop (at + n) (slots_items
        places.old) }
    ensures filled { Filled (slots_filled places.new) at (at + n)
        × SameOutside false (slots_filled places.old) (slots_filled places.new) at (at + n) }
    ensures places { SamePlaces places.old places.new }
{
    let mut i = 0;
    while i < n {
        let count = (n - i).min(ZEROS.len());
        places.copy_in(at + i, &ZEROS[..count]);
        i += count;
    }
}

impl Block {
    pub(crate) fn new(alloc: Global, capacity: usize) -> Result<Block, AllocError>
        ensures { IfOk result (λ b. HoldsFrom b capacity × (capacity_of b ≡ capacity)) }
    {
        if !may_hold::<u8>(capacity) {
            return Err(AllocError);
        }
        let (base, places, deed) = allocate(&alloc, capacity)?;
        Ok(Block {
            base,
            places,
            initialized: capacity,
            deed,
            alloc,
        })
    }

    pub(crate) fn free(self)
        requires { IsBlock self }
    {
        let Block {
            base: _,
            places,
            initialized: _,
            deed,
            alloc,
        } = self;
        deallocate(&alloc, places, deed);
    }

    pub(crate) fn alloc(&self) -> Global {
        self.alloc
    }

    #[inline]
    pub(crate) fn capacity(&self) -> usize
        ensures { result ≡ capacity_of self.now }
    {
        self.places.len()
    }

    #[inline]
    pub(crate) fn as_slice(&self, from: usize) -> &[u8]
        requires { HoldsFrom self.now from }
        ensures { result.now ≡ bytes_from self.now from }
    {
        lend(&self.places, self.base, from, self.places.len() - from)
    }

    #[inline]
    pub(crate) fn put_slice(&mut self, at: usize, bytes: &[u8])
        requires { HoldsFrom self.old (at + length bytes.now) }
        ensures { Puts self.old at bytes.now self.new }
    {
        self.places.copy_in(at, bytes);
    }

    /// Padding is mostly below 8 bytes, and then one store of 8.
    #[inline]
    pub(crate) fn put_zeros(&mut self, at: usize, n: usize)
        requires { HoldsFrom self.old (at + n) }
        ensures { Puts self.old at (replicate n 0) self.new }
    {
        if n == 0 {
            return;
        }
        if n <= 8 && 8 <= at + n {
            self.put_slice(at + n - 8, &[0; 8]);
        } else {
            self.put_many_zeros(at, n);
        }
    }

    #[cold]
    #[inline(never)]
    fn put_many_zeros(&mut self, at: usize, n: usize)
        requires { HoldsFrom self.old (at + n) }
        ensures { Puts self.old at (replicate n 0) self.new }
    {
        zero(&mut self.places, at, n);
    }

    #[inline(always)]
    pub(crate) fn put_overwritten<W: Overwrite>(
        &mut self,
        at: usize,
        place: u32,
        n: usize,
        writer: &W,
    )
        requires holds { HoldsFrom self.old (at + n) }
        requires fits { W.fits writer.now place n }
        ensures puts { Puts self.old at (W.encoding writer.now place n) self.new }
        ensures count { length (W.encoding writer.now place n) ≡ n }
    {
        self.make_ready(at, at + n);
        writer.overwrite(place, lend_mut(&mut self.places, self.base, at, n));
    }

    // An uninitialized place can't be lent.
    #[inline]
    fn make_ready(&mut self, at: usize, start: usize)
        requires holds { HoldsFrom self.old start }
        requires inside { at ≤ start }
        ensures { Readies self.old at start self.new }
    {
        if at < self.initialized {
            self.fill_fresh(at, start);
        }
    }

    #[cold]
    #[inline(never)]
    fn fill_fresh(&mut self, at: usize, start: usize)
        requires holds { HoldsFrom self.old start }
        requires inside { at ≤ start }
        requires fresh { at ≤ self.old.initialized }
        ensures { Readies self.old at start self.new }
    {
        let from = at.saturating_sub(AHEAD);
        let to = self.initialized.min(start);
        self.put_many_zeros(from, to - from);
        self.initialized = from;
    }

    /// Remembers that each place from `start` on was written.
    pub(crate) fn keep_initialized(&mut self, start: usize)
        requires { HoldsFrom self.old start }
        ensures holds { HoldsFrom self.new (capacity_of self.old) }
        ensures capacity { capacity_of self.new ≡ capacity_of self.old }
    {
        self.initialized = self.initialized.min(start);
    }
}
