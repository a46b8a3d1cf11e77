//! Table writers of any size of vtable.
ghost use Rattle.std.specs.Prelude.{◌≡◌, ◌+◌, ◌≤◌, ◌++◌, ℕ, List, [], ◌∷◌, length};
ghost use Rattle.planus_read.specs.Bytes.{BytesStand};
ghost use Rattle.planus_write.specs.Tables.{Declared};
ghost use Rattle.planus_write.specs.TableWriting.{Writer, WasTold, WritesTable, slot_position};
ghost use Rattle.planus_write.specs.TableWriting.{blank, with_entry};

use planus_write::{BuildError, Builder, ObjectFill, Primitive, TableWriter};

/// A [`TableWriter`] of `room` bytes. With this trait a list of fields is written without a
/// constant among its parameters.
pub trait TableWrite {
    ghost room: { ℕ };

    ghost at: { Self → Writer };

    /// Creates a writer with nothing declared.
    fn start() -> Self
        ensures blank { at result ≡ blank room }
        ensures told { 4 ≤ room → WasTold (at result) [] };

    /// As `write_entry` of [`TableWriter`].
    fn enter<P: Primitive>(&mut self, slot: usize)
        requires inside { slot_position slot + 2 ≤ room }
        requires small { slot_position slot + 2 ≤ 65534 }
        requires unused { BytesStand (at self.old).vtable (slot_position slot) (0 ∷ 0 ∷ []) }
        requires fits { (at self.old).object_size + P.SIZE ≤ 65535 }
        ensures entered { at self.new ≡ with_entry (record {
          slot = slot;
          size = P.SIZE;
          alignment = P.ALIGNMENT;
        }) (at self.old) }
        ensures told { (declared : List Declared) → WasTold (at self.old) declared
            → WasTold (at self.new) (declared ++ record {
              slot = slot;
              size = P.SIZE;
              alignment = P.ALIGNMENT;
            } ∷ []) };

    /// As `finish` of [`TableWriter`].
    fn close<F: ObjectFill>(self, builder: &mut Builder, filler: &F) -> Result<(), BuildError>
        requires enough { 4 ≤ room }
        requires size { F.size filler.now + 4 ≡ (at self).object_size }
        requires reach { F.reach filler.now ≤ length builder.old.bytes }
        ensures { (declared : List Declared) → WasTold (at self) declared
            → WritesTable declared (F.encoding filler.now) builder.old result builder.new };
}

impl<const N: usize> TableWrite for TableWriter<N> {
    ghost room = { N };

    ghost at = { λ writer. writer };

    #[inline(always)]
    fn start() -> TableWriter<N> {
        TableWriter::default()
    }

    #[inline(always)]
    fn enter<P: Primitive>(&mut self, slot: usize) {
        self.write_entry::<P>(slot);
    }

    #[inline(always)]
    fn close<F: ObjectFill>(self, builder: &mut Builder, filler: &F) -> Result<(), BuildError> {
        self.finish(builder, filler)
    }
}
