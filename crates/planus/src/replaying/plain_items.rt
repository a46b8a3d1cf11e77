//! The values of a vector that a script writes, all of one size.

ghost use Rattle.std.specs.Prelude.{◌≡◌, None};
ghost use Rattle.planus.specs.Runs.{struct_width};
ghost use Rattle.planus.specs.Replays.{plains_fault};

use crate::replaying::faults::Why;
use crate::replaying::item_count::ItemCount;
use crate::replaying::layouts::{fits_size, known_alignment};
use planus_back::Overwrite;
use planus_write::{BuildError, Builder, Offset, WriteAsOffset};

#[derive(Drop)]
pub(crate) struct PlainItems<'a> {
    pub(crate) alignment: usize,
    pub(crate) size: usize,
    pub(crate) bytes: &'a [u8],
    ghost good: { plains_fault (struct_width alignment) size bytes.now ≡ None },
}

impl<'a> PlainItems<'a> {
    ghost use Rattle.planus.specs.inner.Structs.{ChecksPlains};

    pub(crate) fn checked(
        alignment: u8,
        size: usize,
        bytes: &'a [u8],
    ) -> Result<PlainItems<'a>, Why>
        ensures { ChecksPlains alignment size bytes.now result }
    {
        let Some(alignment) = known_alignment(alignment) else {
            return Err(Why::AlignmentUnknown);
        };
        if !fits_size(alignment, size) || bytes.len() % size != 0 {
            return Err(Why::WrongSize);
        }
        Ok(PlainItems {
            alignment,
            size,
            bytes,
        })
    }
}

impl<'a> Overwrite for PlainItems<'a> {
    ghost use Rattle.std.specs.Prelude.{length, map};
    ghost use Rattle.planus_write.specs.Items.{plain_item};
    ghost use Rattle.planus_write.specs.Parts.{items_bytes};
    ghost use Rattle.planus.specs.inner.Structs.{items_in};

    ghost fits = { λ items place n. n ≡ length items.bytes.now };

    ghost encoding = { λ items place n.
        items_bytes items.size place (map plain_item (items_in items)) };

    #[inline]
    fn overwrite(&self, _place: u32, bytes: &mut [u8]) {
        bytes.copy_from_slice(self.bytes);
    }
}

impl<'a> WriteAsOffset<()> for PlainItems<'a> {
    ghost use Rattle.std.specs.Prelude.{⊤};
    ghost use Rattle.planus_write.specs.Items.{plain_item};
    ghost use Rattle.planus_write.specs.Preparing.{Answers, WritesList};
    ghost use Rattle.planus.specs.inner.Structs.{items_in};
    ghost use Rattle.planus.specs.lemmas.StructLaws.{plain_items_are_lawful};

    ghost may = { λ items old. ⊤ };

    ghost outcome = { λ items old answer new.
        WritesList Answers plain_item items.size items.alignment (items_in items) old answer new };

    #[inline]
    fn prepare(&self, builder: &mut Builder) -> Result<Offset<()>, BuildError> {
        builder.write_over(self.bytes.len(), self.alignment.max(4) - 1, self)?;
        let count = ItemCount {
            count: (self.bytes.len() / self.size) as u32,
        };
        builder.write_over(4, 0, &count)?;
        Ok(builder.current_offset())
    }

    ghost is_lawful = { plain_items_are_lawful (λ items. items.size) (λ items. items.alignment)
        items_in };
}
