//! Tables: an object of fields, and a vtable with their offsets.
ghost use Rattle.std.specs.Prelude.{◌≡◌, ◌+◌, ◌≤◌, ◌++◌, List, [], ◌∷◌, length, take, drop};
ghost use Rattle.std.specs.Int.{w16, to_le_bytes};
ghost use Rattle.planus_read.specs.Bytes.{BytesStand};
ghost use Rattle.planus_read.specs.Plain.{IsLayout};
ghost use Rattle.planus_write.specs.Tables.{Declared};
ghost use Rattle.planus_write.specs.TableWriting.{WasTold, WritesTable, slot_position, blank};
ghost use Rattle.planus_write.specs.TableWriting.{with_entry};

use crate::builder::Builder;
use crate::errors::BuildError;
pub use crate::object_writer::{ObjectFill, ObjectWriter};
use crate::traits::Primitive;
use planus_back::Overwrite;
use std::marker::Model;

/// Writes a table: each present field is declared first, and then all are written. `N` bytes are
/// reserved for the vtable: 4, and 2 for each slot up to the greatest one declared.
#[derive(Drop)]
pub struct TableWriter<const N: usize> {
    vtable: [u8; N],
    vtable_size: usize,
    object_size: usize,
    mask: usize,
}

impl<const N: usize> Model for TableWriter<N> {
    ghost use Rattle.planus_write.specs.TableWriting.{Writer};

    ghost Value = { Writer };

    ghost use Rattle.planus_write.specs.View.{writer_of, IsWriter};

    ghost view = { writer_of };

    ghost invariant = { IsWriter };
}

impl<const N: usize> Default for TableWriter<N> {
    fn default() -> TableWriter<N>
        ensures blank { result ≡ blank N }
        ensures told { 4 ≤ N → WasTold result [] }
    {
        TableWriter {
            vtable: [0; N],
            vtable_size: 4,
            object_size: 4,
            mask: 3,
        }
    }
}

#[inline]
fn put_pair(bytes: &mut [u8], at: usize, number: u16)
    requires { at + 2 ≤ length bytes.old }
    ensures { bytes.new ≡ take at bytes.old ++ (to_le_bytes w16 number ++ drop (at + 2) bytes.old) }
{
    let (_before, rest) = bytes.split_at_mut(at);
    let (pair, _behind) = rest.split_at_mut(2);
    pair.copy_from_slice(&number.to_le_bytes());
}

#[derive(Drop)]
struct Body<'a, F: ObjectFill> {
    filler: &'a F,
}

impl<'a, F: ObjectFill> Overwrite for Body<'a, F> {
    ghost fits = { λ body place n. (n ≡ F.size body.filler.now)
        × (F.reach body.filler.now + F.size body.filler.now ≤ place) };

    ghost encoding = { λ body place n. F.encoding body.filler.now place };

    #[inline(always)]
    fn overwrite(&self, place: u32, bytes: &mut [u8]) {
        let filler = self.filler;
        let mut writer = ObjectWriter::new(bytes, place);
        filler.fill(&mut writer);
    }
}

impl<const N: usize> TableWriter<N> {
    /// States that the writer was told some entries, for clauses about every such list. Does
    /// nothing.
    #[inline]
    pub fn was_told(&self)
        ensures { 4 ≤ N → (declared : List Declared) × WasTold self.now declared }
    {
        let _mask = self.mask;
    }

    /// Declares a field for a slot. Requires its two bytes to be in the first `N` bytes of the
    /// vtable and in 65534, nothing to be declared for it yet, the object to have at most 65535
    /// bytes with it, and no alignment to exceed that of the field before.
    #[inline]
    pub fn write_entry<P: Primitive>(&mut self, slot: usize)
        requires inside { slot_position slot + 2 ≤ N }
        requires small { slot_position slot + 2 ≤ 65534 }
        requires unused { BytesStand self.old.vtable (slot_position slot) (0 ∷ 0 ∷ []) }
        requires fits { self.old.object_size + P.SIZE ≤ 65535 }
        ensures entered { self.new ≡ with_entry (record {
          slot = slot;
          size = P.SIZE;
          alignment = P.ALIGNMENT;
        }) self.old }
        ensures told { (declared : List Declared) → WasTold self.old declared
            → WasTold self.new (declared ++ record {
              slot = slot;
              size = P.SIZE;
              alignment = P.ALIGNMENT;
            } ∷ []) }
    {
        let at = 2 * (slot + 2);
        put_pair(&mut self.vtable, at, self.object_size as u16);
        self.object_size += P::SIZE;
        self.vtable_size = self.vtable_size.max(at + 2);
        self.mask = self.mask.max(P::ALIGNMENT - 1);
    }

    /// Declares a field of this size and alignment for a slot, under the conditions of
    /// [`TableWriter::write_entry`].
    #[inline]
    pub fn write_layout(&mut self, slot: usize, size: usize, alignment: usize)
        requires inside { slot_position slot + 2 ≤ N }
        requires small { slot_position slot + 2 ≤ 65534 }
        requires unused { BytesStand self.old.vtable (slot_position slot) (0 ∷ 0 ∷ []) }
        requires fits { self.old.object_size + size ≤ 65535 }
        requires layout { IsLayout size alignment }
        requires low { alignment ≤ 1073741824 }
        ensures entered { self.new ≡ with_entry (record {
          slot = slot;
          size = size;
          alignment = alignment;
        }) self.old }
        ensures told { (declared : List Declared) → WasTold self.old declared
            → WasTold self.new (declared ++ record {
              slot = slot;
              size = size;
              alignment = alignment;
            } ∷ []) }
    {
        let at = 2 * (slot + 2);
        put_pair(&mut self.vtable, at, self.object_size as u16);
        self.object_size += size;
        self.vtable_size = self.vtable_size.max(at + 2);
        self.mask = self.mask.max(alignment - 1);
    }

    /// Writes the table: its vtable, unless an equal one is found, the fields, and the word before
    /// them that leads to the vtable. The table is then at [`Builder::current_offset`]. `N` must be
    /// at least 4, and the filler must write as many bytes as declared, with references into the
    /// builder's bytes.
    ///
    /// Fails like [`Builder::create_vector`].
    #[inline(always)]
    pub fn finish<F: ObjectFill>(self, builder: &mut Builder, filler: &F) -> Result<(), BuildError>
        requires enough { 4 ≤ N }
        requires size { F.size filler.now + 4 ≡ self.object_size }
        requires reach { F.reach filler.now ≤ length builder.old.bytes }
        ensures { (declared : List Declared) → WasTold self.entry declared
            → WritesTable declared (F.encoding filler.now) builder.old result builder.new }
    {
        let TableWriter {
            mut vtable,
            vtable_size,
            object_size,
            mask,
        } = self;
        put_pair(&mut vtable, 0, vtable_size as u16);
        put_pair(&mut vtable, 2, object_size as u16);
        let body = Body { filler };
        let vtable = &vtable[..vtable_size];
        if builder.put_table(vtable, object_size - 4, mask, &body) {
            return Ok(());
        }
        let place = builder.write_vtable(vtable)?;
        builder.write_over(object_size - 4, mask, &body)?;
        builder.write_word(place)?;
        Ok(())
    }
}
