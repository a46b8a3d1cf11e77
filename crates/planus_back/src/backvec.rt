//! Bytes at the end of a growing block.
ghost use Rattle.std.specs.Prelude.{◌≡◌, ◌+◌, ◌≤◌, [], ◌++◌, length};
ghost use Rattle.std.specs.Prelude.{replicate, IfOk, OnOk, OnErr, IsOk};

use crate::block::Block;
use crate::fill::{Fill, Overwrite, Zeroed};
use std::alloc::{AllocError, Global};
use std::marker::Model;
use std::{fmt, mem};

/// The least number of bytes of an allocation.
const LEAST_CAPACITY: usize = 16;

/// A byte vector that grows at its front. The `put_` methods require room that is there.
pub struct BackVec {
    // The vector's bytes are the end of the block.
    block: Block,
    start: usize,
}

impl Model for BackVec {
    ghost use Rattle.planus_back.specs.BackBytes.{BackBytes};

    ghost Value = { BackBytes };

    ghost use Rattle.planus_back.specs.inner.BackView.{back_bytes, BeginsAtStart};

    ghost view = { back_bytes };

    ghost invariant = { BeginsAtStart };
}

impl Drop for BackVec {
    fn drop(self) {
        let BackVec { block, start: _ } = self;
        block.free();
    }
}

impl BackVec {
    /// Creates an empty vector with room for `n` bytes and at least 16. Fails only if the
    /// allocation does.
    pub fn with_capacity(alloc: Global, n: usize) -> Result<BackVec, AllocError>
        ensures bytes { IfOk result (λ v. v.bytes ≡ []) }
        ensures room { IfOk result (λ v. n ≤ v.room) }
    {
        let capacity = n.max(LEAST_CAPACITY);
        let block = Block::new(alloc, capacity)?;
        Ok(BackVec {
            block,
            start: capacity,
        })
    }

    /// Returns the vector's allocator.
    pub fn alloc(&self) -> Global {
        self.block.alloc()
    }

    /// Returns the number of bytes.
    #[inline]
    pub fn len(&self) -> usize
        ensures { result ≡ length self.now.bytes }
    {
        self.block.capacity() - self.start
    }

    /// Returns how many more bytes fit without memory.
    #[inline]
    pub fn room(&self) -> usize
        ensures { result ≡ self.now.room }
    {
        self.start // all before the bytes is free
    }

    /// Returns the bytes.
    #[inline]
    pub fn as_slice(&self) -> &[u8]
        ensures { result.now ≡ self.now.bytes }
    {
        self.block.as_slice(self.start)
    }

    /// Removes all bytes, and keeps the memory as room.
    pub fn clear(&mut self)
        ensures bytes { self.new.bytes ≡ [] }
        ensures room { self.new.room ≡ length self.old.bytes + self.old.room }
    {
        self.block.keep_initialized(self.start);
        self.start = self.block.capacity();
    }

    /// Makes room for `n` more bytes. Changes nothing if an allocation fails or the size is above
    /// `usize::MAX`.
    #[inline]
    pub fn reserve(&mut self, n: usize) -> Result<(), AllocError>
        ensures ok { OnOk result (n ≤ self.new.room) }
        ensures bytes { self.new.bytes ≡ self.old.bytes }
        ensures err { OnErr result (self.new ≡ self.old) }
        ensures enough { n ≤ self.old.room → IsOk result }
        ensures unchanged { n ≤ self.old.room → self.new ≡ self.old }
    {
        if n <= self.start {
            return Ok(());
        }
        self.grow(n)
    }

    // At least twice as large.
    #[cold]
    #[inline(never)]
    fn grow(&mut self, n: usize) -> Result<(), AllocError>
        ensures ok { OnOk result (n ≤ self.new.room) }
        ensures bytes { self.new.bytes ≡ self.old.bytes }
        ensures err { OnErr result (self.new ≡ self.old) }
    {
        let len = self.len();
        let Some(needed) = len.checked_add(n) else {
            return Err(AllocError);
        };
        let capacity = needed.max(self.block.capacity().saturating_mul(2));
        let room = capacity - len;
        let mut larger = Block::new(self.alloc(), capacity)?;
        larger.put_slice(room, self.as_slice());
        let old = mem::replace(&mut self.block, larger);
        self.start = room;
        old.free();
        Ok(())
    }

    /// Prepends the bytes of the slice.
    #[inline]
    pub fn put_slice(&mut self, bytes: &[u8])
        requires { length bytes.now ≤ self.old.room }
        ensures bytes { self.new.bytes ≡ bytes.now ++ self.old.bytes }
        ensures room { self.new.room + length bytes.now ≡ self.old.room }
    {
        let start = self.start - bytes.len();
        self.block.put_slice(start, bytes);
        self.start = start;
    }

    /// Prepends `padding` zeros, and before them three slices in order.
    #[inline]
    pub fn put_three_padded(&mut self, padding: usize, first: &[u8], second: &[u8], third: &[u8])
        requires { padding + length (first.now ++ second.now ++ third.now) ≤ self.old.room }
        ensures bytes { self.new.bytes ≡ (first.now ++ second.now ++ third.now)
            ++ (replicate padding 0 ++ self.old.bytes) }
        ensures room { self.new.room + (padding + length
            (first.now ++ second.now ++ third.now)) ≡ self.old.room }
    {
        let end = self.start - padding;
        let third_at = end - third.len();
        let second_at = third_at - second.len();
        let start = second_at - first.len();
        self.block.put_zeros(end, padding);
        self.block.put_slice(third_at, third);
        self.block.put_slice(second_at, second);
        self.block.put_slice(start, first);
        self.start = start;
    }

    /// Prepends `n` zeros.
    #[inline]
    pub fn put_zeros(&mut self, n: usize)
        requires { n ≤ self.old.room }
        ensures bytes { self.new.bytes ≡ replicate n 0 ++ self.old.bytes }
        ensures room { self.new.room + n ≡ self.old.room }
    {
        let start = self.start - n;
        self.block.put_zeros(start, n);
        self.start = start;
    }

    /// Prepends `n` bytes, all written by the writer without zeroing. `place` is the distance in
    /// bytes from the end of the buffer to the first of them.
    #[inline(always)]
    pub fn put_overwritten<W: Overwrite>(&mut self, place: u32, n: usize, writer: &W)
        requires room { n ≤ self.old.room }
        requires fits { W.fits writer.now place n }
        ensures bytes { self.new.bytes ≡ W.encoding writer.now place n ++ self.old.bytes }
        ensures count { length (W.encoding writer.now place n) ≡ n }
        ensures room { self.new.room + n ≡ self.old.room }
    {
        let start = self.start - n;
        self.block.put_overwritten(start, place, n, writer);
        self.start = start;
    }

    /// Prepends `padding` zeros, and then as [`BackVec::put_overwritten`].
    #[inline(always)]
    pub fn put_overwritten_padded<W: Overwrite>(
        &mut self,
        padding: usize,
        place: u32,
        n: usize,
        writer: &W,
    )
        requires room { padding + n ≤ self.old.room }
        requires fits { W.fits writer.now place n }
        ensures bytes { self.new.bytes
            ≡ W.encoding writer.now place n ++ (replicate padding 0 ++ self.old.bytes) }
        ensures count { length (W.encoding writer.now place n) ≡ n }
        ensures room { self.new.room + (padding + n) ≡ self.old.room }
    {
        let end = self.start - padding;
        let start = end - n;
        self.start = start;
        self.block.put_zeros(end, padding);
        self.block.put_overwritten(start, place, n, writer);
    }

    /// Prepends `first_padding` zeros, before them `first`, then as
    /// [`BackVec::put_overwritten_padded`], and last `front`.
    #[inline(always)]
    pub fn put_two_parts<W: Overwrite>(
        &mut self,
        first_padding: usize,
        first: &[u8],
        padding: usize,
        place: u32,
        n: usize,
        writer: &W,
        front: &[u8],
    )
        requires room { first_padding + length first.now + padding + n + length front.now
            ≤ self.old.room }
        requires fits { W.fits writer.now place n }
        ensures bytes { self.new.bytes ≡ front.now ++ (W.encoding writer.now place n
            ++ (replicate padding 0 ++ (first.now ++ (replicate first_padding 0
            ++ self.old.bytes)))) }
        ensures count { length (W.encoding writer.now place n) ≡ n }
        ensures room { self.new.room
            + (first_padding + length first.now + padding + n + length front.now)
            ≡ self.old.room }
    {
        let first_end = self.start - first_padding;
        let first_at = first_end - first.len();
        let second_end = first_at - padding;
        let second_at = second_end - n;
        let start = second_at - front.len();
        self.block.put_zeros(first_end, first_padding);
        self.block.put_slice(first_at, first);
        self.block.put_zeros(second_end, padding);
        self.block.put_overwritten(second_at, place, n, writer);
        self.block.put_slice(start, front);
        self.start = start;
    }

    /// Prepends the bytes of the slice. Changes nothing if an allocation fails.
    #[inline]
    pub fn extend_from_slice(&mut self, bytes: &[u8]) -> Result<(), AllocError>
        ensures ok { OnOk result (self.new.bytes ≡ bytes.now ++ self.old.bytes) }
        ensures err { OnErr result (self.new ≡ self.old) }
        ensures enough { length bytes.now ≤ self.old.room → IsOk result }
        ensures room { length bytes.now ≤ self.old.room
            → self.new.room + length bytes.now ≡ self.old.room }
    {
        self.reserve(bytes.len())?;
        self.put_slice(bytes);
        Ok(())
    }

    /// Prepends `n` zeros. Changes nothing if an allocation fails.
    #[inline]
    pub fn extend_with_zeros(&mut self, n: usize) -> Result<(), AllocError>
        ensures ok { OnOk result (self.new.bytes ≡ replicate n 0 ++ self.old.bytes) }
        ensures err { OnErr result (self.new ≡ self.old) }
        ensures enough { n ≤ self.old.room → IsOk result }
        ensures room { n ≤ self.old.room → self.new.room + n ≡ self.old.room }
    {
        self.reserve(n)?;
        self.put_zeros(n);
        Ok(())
    }

    /// Prepends `n` bytes that the filler writes over zeros. `place` is as in
    /// [`BackVec::put_overwritten`]. Changes nothing if an allocation fails.
    #[inline]
    pub fn extend_write<F: Fill>(
        &mut self,
        place: u32,
        n: usize,
        filler: &F,
    ) -> Result<(), AllocError>
        requires { F.fits filler.now place n }
        ensures ok { OnOk result
            (self.new.bytes ≡ F.encoding filler.now place n ++ self.old.bytes) }
        ensures err { OnErr result (self.new ≡ self.old) }
        ensures count { OnOk result (length self.new.bytes ≡ n + length self.old.bytes) }
        ensures enough { n ≤ self.old.room → IsOk result }
        ensures room { n ≤ self.old.room → self.new.room + n ≡ self.old.room }
    {
        self.reserve(n)?;
        self.put_overwritten(place, n, &Zeroed(filler));
        Ok(())
    }
}

impl fmt::Debug for BackVec {
    ghost use Rattle.std.specs.Prelude.{Some};
    ghost use Rattle.std.specs.Fmt.{debug_list, decimal};

    ghost debug_output = { λ b. debug_list (λ n. Some (decimal n)) b.bytes };

    fn fmt<W: fmt::Write>(&self, f: &mut fmt::Formatter<W>) -> fmt::Result {
        fmt::Debug::fmt(&self.as_slice(), f)
    }
}
