//! A field of a table, ready to be written.
ghost use Rattle.std.specs.Prelude.{◌≡◌, ◌+◌, ◌≤◌, ◌++◌, List, [], ◌∷◌};
ghost use Rattle.planus_read.specs.Aligned.{field_alignment};
ghost use Rattle.planus_read.specs.Bytes.{BytesStand};
ghost use Rattle.planus_write.specs.Tables.{Declared, field_item, field_size};
ghost use Rattle.planus_write.specs.ObjectWriting.{body_of, wrote};
ghost use Rattle.planus_write.specs.TableWriting.{WasTold, with_entry, slot_position};
ghost use Rattle.planus.specs.Runs.{field_width};
ghost use Rattle.planus.specs.inner.Prepared.{field_is, field_reach, PreparesNumber};

use crate::replaying::faults::Why;
use crate::replaying::struct_bytes::StructBytes;
use planus_write::{ObjectWriter, Offset, TableWriter};

/// The bytes of a vtable with 256 slots.
pub(crate) const VTABLE_SIZE: usize = 516;

#[derive(Drop)]
pub(crate) enum PreparedField<'a> {
    U8(u8),
    U16(u16),
    U32(u32),
    U64(u64),
    Struct(StructBytes<'a>),
    Reference(Offset<()>),
    // The tags and the references of a union vector.
    Tags(Offset<()>),
    Values(Offset<()>),
}

impl<'a> PreparedField<'a> {
    pub(crate) fn number(width: u8, value: u64) -> Result<PreparedField<'a>, Why>
        ensures { PreparesNumber (field_width width) value result }
    {
        let number = match width {
            1 => PreparedField::U8(u8::try_from(value).ok().ok_or(Why::ValueTooBig)?),
            2 => PreparedField::U16(u16::try_from(value).ok().ok_or(Why::ValueTooBig)?),
            4 => PreparedField::U32(u32::try_from(value).ok().ok_or(Why::ValueTooBig)?),
            8 => PreparedField::U64(value),
            _ => return Err(Why::WidthUnknown),
        };
        Ok(number)
    }

    pub(crate) fn alignment(&self) -> usize
        ensures { result ≡ field_alignment (field_is self.now) }
    {
        match self {
            PreparedField::U8(_) => 1,
            PreparedField::U16(_) => 2,
            PreparedField::U32(_) => 4,
            PreparedField::Reference(_) | PreparedField::Tags(_) | PreparedField::Values(_) => 4,
            PreparedField::U64(_) => 8,
            PreparedField::Struct(part) => part.alignment,
        }
    }

    pub(crate) fn declare(&self, writer: &mut TableWriter<VTABLE_SIZE>, slot: usize)
        requires small { slot ≤ 255 }
        requires unused { BytesStand writer.old.vtable (slot_position slot) (0 ∷ 0 ∷ []) }
        requires fits { writer.old.object_size + field_size (field_is self.now) ≤ 65535 }
        ensures entered { writer.new ≡ with_entry (record {
          slot = slot;
          size = field_size (field_is self.now);
          alignment = field_alignment (field_is self.now);
        }) writer.old }
        ensures told { (declared : List Declared) → WasTold writer.old declared
            → WasTold writer.new (declared ++ record {
              slot = slot;
              size = field_size (field_is self.now);
              alignment = field_alignment (field_is self.now);
            } ∷ []) }
    {
        match self {
            PreparedField::U8(_) => writer.write_entry::<u8>(slot),
            PreparedField::U16(_) => writer.write_entry::<u16>(slot),
            PreparedField::U32(_) => writer.write_entry::<u32>(slot),
            PreparedField::U64(_) => writer.write_entry::<u64>(slot),
            PreparedField::Struct(part) => {
                writer.write_layout(slot, part.bytes.len(), part.alignment)
            }
            PreparedField::Reference(_) | PreparedField::Tags(_) | PreparedField::Values(_) => {
                writer.write_entry::<Offset<()>>(slot)
            }
        }
    }

    pub(crate) fn write(&self, writer: &mut ObjectWriter<'_>)
        requires room { field_size (field_is self.now) ≤ (body_of writer.old).remaining }
        requires reach { field_reach (field_is self.now) ≤ (body_of writer.old).place }
        ensures { body_of writer.new ≡ wrote (field_size (field_is self.now))
            (field_item (field_is self.now)) (body_of writer.old) }
    {
        match self {
            PreparedField::U8(number) => writer.write::<u8, u8>(number),
            PreparedField::U16(number) => writer.write::<u16, u16>(number),
            PreparedField::U32(number) => writer.write::<u32, u32>(number),
            PreparedField::U64(number) => writer.write::<u64, u64>(number),
            PreparedField::Struct(part) => writer.put(part.bytes),
            PreparedField::Reference(offset)
            | PreparedField::Tags(offset)
            | PreparedField::Values(offset) => writer.write::<Offset<()>, Offset<()>>(offset),
        }
    }
}
