//! The builder.
ghost use Rattle.std.specs.Prelude.{◌≡◌, ◌+◌, ◌<◌, ◌≤◌, ◌^◌, [], length, IsTrue, ◌↔◌, IfOk, IfErr};
ghost use Rattle.std.specs.Prelude.{ℕ};
ghost use Rattle.planus_back.specs.Promises.{IsPowerOfTwo};
ghost use Rattle.planus_back.specs.Padding.{greatest_place};
ghost use Rattle.std.specs.Borrow.{sem};
ghost use Rattle.planus_write.specs.Shared.{all_on};
ghost use Rattle.planus_write.specs.History.{History, no_history, unshared_entry};
ghost use Rattle.planus_write.specs.Parts.{filled_part};
ghost use Rattle.planus_write.specs.State.{IsHistoryOf};
ghost use Rattle.planus_write.specs.InBuilder.{IsIn};
ghost use Rattle.planus_write.specs.View.{settings_of};
ghost use Rattle.planus_write.specs.Placing.{WritesPart};
ghost use Rattle.planus_write.specs.Finishing.{EndsAs, FinishGives, FinishLeaves};
ghost use Rattle.planus_write.specs.Finishing.{SizedFinishGives, SizedFinishLeaves};
ghost use Rattle.planus_read.specs.SizePrefixed.{IsPrefixed};

mod byte_lists;
mod finishes;
mod lists;
mod tables;
mod texts;

use crate::backing::Backing;
use crate::caches::Caches;
use crate::errors::BuildError;
use crate::offset::{List, Offset, Text};
use crate::sharing::Sharing;
use crate::traits::{Primitive, WriteAsOffset, WriteAsUnionVector};
use crate::union_vector_offset::UnionVectorOffset;
use planus_back::{ByteVec, Fill, Overwrite, VTable, Zeroed};
use std::alloc::Global;
use std::marker::Model;

/// Writes flatbuffers from the back, and names each value by its distance from the end.
///
/// ```text
/// let mut builder = Builder::new(rt.alloc()).map_err(refused)?;
/// let text = builder.create_string("Axe").map_err(refused)?;
/// let bytes = builder.finish(text, None).map_err(refused)?;
/// ```
///
/// With their [`Caches`] setting on, equal strings, byte vectors and vtables are written once:
/// until a clear, later ones get the distance of the first, and take no memory.
#[derive(Debug, Drop)]
pub struct Builder {
    backing: Backing,
    texts: Sharing<ByteVec>,
    byte_lists: Sharing<ByteVec>,
    vtables: Sharing<VTable>,
}

impl Model for Builder {
    ghost use Rattle.planus_write.specs.State.{State};

    ghost Value = { State };

    ghost use Rattle.planus_write.specs.View.{state_of, IsSound};

    ghost view = { state_of };

    ghost invariant = { IsSound };
}

impl Builder {
    /// Creates an empty builder with all caches on, or fails with [`BuildError::OutOfMemory`].
    pub fn new(alloc: Global) -> Result<Builder, BuildError>
        ensures history { IfOk result (λ builder. IsHistoryOf builder no_history) }
        ensures settings { IfOk result (λ builder. builder.settings ≡ all_on) }
        ensures error { IfErr result (λ error. error ≡ BuildError.OutOfMemory) }
    {
        Builder::with_capacity(alloc, 0)
    }

    /// Creates such a builder with room for `capacity` bytes.
    pub fn with_capacity(alloc: Global, capacity: usize) -> Result<Builder, BuildError>
        ensures history { IfOk result (λ builder. IsHistoryOf builder no_history) }
        ensures room { IfOk result (λ builder. capacity ≤ builder.room) }
        ensures settings { IfOk result (λ builder. builder.settings ≡ all_on) }
        ensures error { IfErr result (λ error. error ≡ BuildError.OutOfMemory) }
    {
        Builder::with_caches(alloc, capacity, Caches::all())
    }

    /// Creates an empty builder with room for `capacity` bytes and these cache settings, or fails
    /// with [`BuildError::OutOfMemory`].
    pub fn with_caches(
        alloc: Global,
        capacity: usize,
        caches: Caches,
    ) -> Result<Builder, BuildError>
        ensures history { IfOk result (λ builder. IsHistoryOf builder no_history) }
        ensures room { IfOk result (λ builder. capacity ≤ builder.room) }
        ensures settings { IfOk result (λ builder. builder.settings ≡ settings_of caches) }
        ensures error { IfErr result (λ error. error ≡ BuildError.OutOfMemory) }
    {
        Ok(Builder {
            backing: Backing::with_capacity(alloc, capacity)?,
            texts: Sharing::new(alloc, caches.texts, caches.hash_mask)?,
            byte_lists: Sharing::new(alloc, caches.bytes, caches.hash_mask)?,
            vtables: Sharing::new(alloc, caches.vtables, caches.hash_mask)?,
        })
    }

    /// Returns the number of bytes.
    #[inline]
    pub fn len(&self) -> usize
        ensures { result ≡ length self.now.bytes }
    {
        self.backing.len()
    }

    /// Returns whether nothing is written.
    #[inline]
    pub fn is_empty(&self) -> bool
        ensures { IsTrue result ↔ (self.now.bytes ≡ []) }
    {
        self.len() == 0
    }

    /// Returns the bytes.
    #[inline]
    pub fn as_slice(&self) -> &[u8]
        ensures { result.now ≡ self.now.bytes }
    {
        self.backing.as_slice()
    }

    /// Returns how many more bytes fit without memory.
    #[inline]
    pub fn room(&self) -> usize
        ensures { result ≡ self.now.room }
    {
        self.backing.room()
    }

    /// Returns the offset of the last part: the front of the bytes.
    #[inline]
    pub fn current_offset<T>(&self) -> Offset<T>
        ensures { result.distance ≡ length self.now.bytes }
    {
        Offset::at(self.backing.len() as u32)
    }

    /// Returns whether an offset is that of a part in the bytes, by its distance alone: it is above
    /// 0 and at most the length. Such an offset may be referred to; that it is one of this builder's
    /// since the last clear isn't tested.
    #[inline]
    pub fn has<T>(&self, offset: &Offset<T>) -> bool
        ensures { IsTrue result ↔ (IsIn self.now offset.now × (0 < offset.now.distance)) }
    {
        let distance = offset.distance() as usize;
        distance <= self.len() && 0 < distance
    }

    /// States that the builder has some history, for clauses about every history. Does nothing.
    #[inline]
    pub fn has_a_history(&self)
        ensures { (history : History) × IsHistoryOf self.now history }
    {
        let _backing = &self.backing;
    }

    /// Removes all bytes and constraints, and forgets the contents written. Keeps the memory.
    pub fn clear(&mut self)
        ensures history { IsHistoryOf self.new no_history }
        ensures room { self.new.room ≡ length self.old.bytes + self.old.room }
        ensures settings { self.new.settings ≡ self.old.settings }
    {
        self.backing.clear();
        self.texts.clear();
        self.byte_lists.clear();
        self.vtables.clear();
    }

    pub(crate) fn alloc(&self) -> Global {
        self.backing.alloc()
    }

    /// Writes a part of `size` bytes, aligned to `alignment_mask + 1`, a power of two up to 2^30.
    /// The filler writes its bytes over zeros, and gets its place: the distance in bytes from the
    /// end of the buffer to its first byte. It must accept every place from `len() + size` to
    /// `len() + size + alignment_mask` that is at most 2147483647.
    ///
    /// Fails with [`BuildError::TooLarge`], before memory is requested, if the part would begin
    /// more than 2147483647 bytes from the end, and with [`BuildError::OutOfMemory`] if padding and
    /// part exceed [`Builder::room`] and an allocation fails. Nothing is changed then.
    pub fn write_with<F: Fill>(
        &mut self,
        size: usize,
        alignment_mask: usize,
        filler: &F,
    ) -> Result<(), BuildError>
        requires power { IsPowerOfTwo (alignment_mask + 1) }
        requires bound { alignment_mask + 1 ≤ 2 ^ 30 }
        requires fits { (place : ℕ) → length self.old.bytes + size ≤ place
            → place ≤ length self.old.bytes + size + alignment_mask → place ≤ greatest_place
            → F.fits filler.now place size }
        ensures { WritesPart (unshared_entry (filled_part size (alignment_mask + 1)
            (F.encoding filler.now))) self.old result self.new }
    {
        let plan = self.backing.plan_room(size, alignment_mask)?;
        self.backing.put_planned_over(&plan, size, &Zeroed(filler));
        Ok(())
    }

    /// Writes a part like [`Builder::write_with`], but without zeroing: the writer writes all
    /// `size` bytes.
    #[inline(always)]
    pub fn write_over<W: Overwrite>(
        &mut self,
        size: usize,
        alignment_mask: usize,
        writer: &W,
    ) -> Result<(), BuildError>
        requires power { IsPowerOfTwo (alignment_mask + 1) }
        requires bound { alignment_mask + 1 ≤ 2 ^ 30 }
        requires fits { (place : ℕ) → length self.old.bytes + size ≤ place
            → place ≤ length self.old.bytes + size + alignment_mask → place ≤ greatest_place
            → W.fits writer.now place size }
        ensures written { WritesPart (unshared_entry (filled_part size (alignment_mask + 1)
            (W.encoding writer.now))) self.old result self.new }
        ensures small { IfOk result (λ done. size ≤ greatest_place) }
    {
        let place = self.backing.make_room(size, alignment_mask)?;
        self.backing.put_overwritten(place, size, writer);
        Ok(())
    }

    /// Writes a string as one part: a count of 4 bytes, its bytes and a zero byte, aligned to 4
    /// bytes. Returns its offset. Writes nothing for an offset, which must be this builder's since
    /// the last clear, or if an equal cached string is found.
    ///
    /// Fails like [`Builder::write_with`], also if the cache's allocation fails. What was written
    /// is unchanged then.
    pub fn create_string<X: WriteAsOffset<Text> + Drop>(
        &mut self,
        value: X,
    ) -> Result<Offset<Text>, BuildError>
        requires { X.may value self.old }
        ensures { X.outcome value self.old result self.new }
    {
        value.prepare(self)
    }

    /// Writes a vector: the items are prepared in order and written as one part, aligned to at
    /// least 4 bytes, and then the count of 4 bytes before them. A byte vector is one part, unless
    /// an equal cached one is found. Returns the offset. Offsets among the arguments must be this
    /// builder's since the last clear.
    ///
    /// Fails like [`Builder::write_with`], also if an allocation for prepared items (numbers, bools
    /// and offsets need none) or for the cache fails. What was written before the failed write
    /// stays, and nothing after it is begun.
    pub fn create_vector<P: Primitive, X: WriteAsOffset<List<P>> + Drop>(
        &mut self,
        list: X,
    ) -> Result<Offset<List<P>>, BuildError>
        requires { X.may list self.old }
        ensures { X.outcome list self.old result self.new }
    {
        list.prepare(self)
    }

    /// Writes a union vector: the unions are prepared in order, then their references are written
    /// as one part, aligned to 4 bytes, with a count of 4 bytes before it, then their tags
    /// likewise. Returns the offsets of both vectors. Offsets among the unions must be this
    /// builder's since the last clear. Fails like [`Builder::create_vector`].
    pub fn create_union_vector<T, X: WriteAsUnionVector<T> + Drop>(
        &mut self,
        vector: X,
    ) -> Result<UnionVectorOffset<T>, BuildError>
        requires { X.may vector self.old }
        ensures { X.outcome vector self.old result self.new }
    {
        vector.prepare(self)
    }

    /// Prepares the root, and prepends its reference and the file identifier, if any, with padding
    /// that aligns every part since the last clear. Returns all bytes. An offset must be this
    /// builder's since the last clear. Writing may continue afterwards, up to another finish.
    ///
    /// Fails like [`WriteAsOffset::prepare`], then like [`Builder::write_with`]. A root written for
    /// this call stays then.
    pub fn finish<T, X: WriteAsOffset<T> + Drop>(
        &mut self,
        root: X,
        identifier: Option<[u8; 4]>,
    ) -> Result<&[u8], BuildError>
        requires { X.may root self.old }
        ensures bytes { IfOk result (λ bytes. FinishGives
            (X.outcome root) identifier self.old bytes.now) }
        ensures* after { sem 𝓛 (EndsAs self.entry
            (FinishLeaves (X.outcome root) identifier self.old result)) }
    {
        let root = root.prepare(self)?;
        self.write_root(root.distance(), identifier)?;
        Ok(self.as_slice())
    }

    /// Prepares the root, and prepends the number of following bytes (4 bytes), the root's
    /// reference and the file identifier, if any. Every part is aligned from that number on.
    /// Returns all bytes, which can precede others in a stream. Requirements and errors are those
    /// of [`Builder::finish`].
    pub fn finish_size_prefixed<T, X: WriteAsOffset<T> + Drop>(
        &mut self,
        root: X,
        identifier: Option<[u8; 4]>,
    ) -> Result<&[u8], BuildError>
        requires { X.may root self.old }
        ensures bytes { IfOk result (λ bytes. SizedFinishGives
            (X.outcome root) identifier self.old bytes.now) }
        ensures size { IfOk result (λ bytes. IsPrefixed bytes.now) }
        ensures* after { sem 𝓛 (EndsAs self.entry
            (SizedFinishLeaves (X.outcome root) identifier self.old result)) }
    {
        let root = root.prepare(self)?;
        self.write_sized_root(root.distance(), identifier)?;
        Ok(self.as_slice())
    }
}
