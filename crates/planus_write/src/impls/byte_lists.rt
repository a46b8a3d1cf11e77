//! Byte vectors.
ghost use Rattle.std.specs.Prelude.{map, ⊤};
ghost use Rattle.std.specs.Int.{w8, cast_unsigned};
ghost use Rattle.planus_write.specs.Parts.{byte_list_entry};
ghost use Rattle.planus_write.specs.Preparing.{WritesByteList};
ghost use Rattle.planus_write.specs.lemmas.Laws.{entry_is_lawful};

use crate::builder::Builder;
use crate::byte_lists::{ByteList, SignedList};
use crate::errors::BuildError;
use crate::offset::{List, Offset};
use crate::traits::WriteAsOffset;

impl<'a> WriteAsOffset<List<u8>> for ByteList<'a> {
    ghost may = { λ list old. ⊤ };

    ghost outcome = { λ list old answer new. WritesByteList list.0.now old answer new };

    #[inline]
    fn prepare(&self, builder: &mut Builder) -> Result<Offset<List<u8>>, BuildError> {
        builder.write_byte_list(self.0)
    }

    ghost is_lawful = { entry_is_lawful (λ list. byte_list_entry list.0.now) };
}

impl<'a> WriteAsOffset<List<i8>> for SignedList<'a> {
    ghost may = { λ list old. ⊤ };

    ghost outcome = { λ list old answer new.
        WritesByteList (map (λ number. cast_unsigned w8 number) list.0.now) old answer new };

    #[inline]
    fn prepare(&self, builder: &mut Builder) -> Result<Offset<List<i8>>, BuildError> {
        builder.write_byte_list(self.0)
    }

    ghost is_lawful = { entry_is_lawful (λ list. byte_list_entry (map (λ number. cast_unsigned w8
        number) list.0.now)) };
}
