//! The bytes of a struct that a script writes.

ghost use Rattle.std.specs.Prelude.{◌≡◌, None};
ghost use Rattle.planus.specs.Runs.{struct_width};
ghost use Rattle.planus.specs.TableChecks.{struct_fault};

use crate::replaying::faults::Why;
use crate::replaying::layouts::{fits_size, known_alignment};
use planus_back::Overwrite;
use planus_write::{BuildError, Builder, Offset, WriteAsOffset};

#[derive(Drop)]
pub(crate) struct StructBytes<'a> {
    pub(crate) alignment: usize,
    pub(crate) bytes: &'a [u8],
    ghost good: { struct_fault (struct_width alignment) bytes.now ≡ None },
}

impl<'a> StructBytes<'a> {
    ghost use Rattle.planus.specs.inner.Structs.{ChecksStruct};

    pub(crate) fn checked(alignment: u8, bytes: &'a [u8]) -> Result<StructBytes<'a>, Why>
        ensures { ChecksStruct alignment bytes.now result }
    {
        let Some(alignment) = known_alignment(alignment) else {
            return Err(Why::AlignmentUnknown);
        };
        if !fits_size(alignment, bytes.len()) {
            return Err(Why::WrongSize);
        }
        Ok(StructBytes { alignment, bytes })
    }
}

impl<'a> Overwrite for StructBytes<'a> {
    ghost use Rattle.std.specs.Prelude.{length};

    ghost fits = { λ part place n. n ≡ length part.bytes.now };

    ghost encoding = { λ part place n. part.bytes.now };

    #[inline]
    fn overwrite(&self, _place: u32, bytes: &mut [u8]) {
        bytes.copy_from_slice(self.bytes);
    }
}

impl<'a> WriteAsOffset<()> for StructBytes<'a> {
    ghost use Rattle.std.specs.Prelude.{length};
    ghost use Rattle.planus_read.specs.Plain.{IsLayout};
    ghost use Rattle.planus_write.specs.Preparing.{WritesApart};
    ghost use Rattle.planus.specs.inner.Structs.{plain_of};
    ghost use Rattle.planus.specs.lemmas.StructLaws.{struct_bytes_are_lawful};

    ghost may = { λ part old. IsLayout (length part.bytes.now) part.alignment };

    ghost outcome = { λ part old answer new. WritesApart (plain_of part) old answer new };

    #[inline]
    fn prepare(&self, builder: &mut Builder) -> Result<Offset<()>, BuildError> {
        match builder.write_over(self.bytes.len(), self.alignment - 1, self) {
            Ok(()) => Ok(builder.current_offset()),
            Err(error) => Err(error),
        }
    }

    ghost is_lawful = { struct_bytes_are_lawful plain_of };
}
