//! Vectors of `i8`.
ghost use Rattle.std.specs.Prelude.{◌≡◌, [], map, ⊤, Some};
ghost use Rattle.std.specs.Int.{w8, cast_unsigned};
ghost use Rattle.planus_write.specs.Parts.{byte_list_entry};
ghost use Rattle.planus_write.specs.Preparing.{WritesByteList};
ghost use Rattle.planus_write.specs.lemmas.Laws.{entry_is_lawful};
ghost use Rattle.planus_fields.specs.Fields.{AlwaysWritten, LeftOutWhere};
ghost use Rattle.planus_fields.specs.lemmas.FieldLaws.{left_out_is_lawful};
ghost use Rattle.planus_read.specs.Values.{byte_list};
ghost use Rattle.planus_fields.specs.Contents.{is_empty, unless};
ghost use Rattle.planus_write.specs.Contents.{value};
ghost use Rattle.planus_write.specs.lemmas.ContentLaws.{byte_list_prepared};
ghost use Rattle.planus_fields.specs.lemmas.ContentLaws.{empty_decides};
ghost use Rattle.planus_fields.specs.lemmas.ContentLaws.{always_prepared, left_out_prepared};

use crate::traits::{WriteAs, WriteAsDefault, WriteAsOptional};
use planus_write::{BuildError, Builder, List, Offset, SignedList, WriteAsOffset};

impl<'a> WriteAs<Offset<List<i8>>> for SignedList<'a> {
    type Prepared = Offset<List<i8>>;

    ghost may = { λ list old. ⊤ };

    ghost outcome = { λ list old answer new.
        WritesByteList (map (λ number. cast_unsigned w8 number) list.0.now) old answer new };

    ghost content = { λ list.
        value (byte_list (map (λ number. cast_unsigned w8 number) list.0.now)) };

    #[inline]
    fn prepare(&self, builder: &mut Builder) -> Result<Offset<List<i8>>, BuildError> {
        WriteAsOffset::prepare(self, builder)
    }

    ghost is_lawful = { entry_is_lawful (λ list. byte_list_entry (map (λ number. cast_unsigned w8
        number) list.0.now)) };

    ghost has_content = { byte_list_prepared
        (λ list. map (λ number. cast_unsigned w8 number) list.0.now) };
}

impl<'a> WriteAsOptional<Offset<List<i8>>> for SignedList<'a> {
    type Prepared = Offset<List<i8>>;

    ghost may = { λ list old. ⊤ };

    ghost outcome = { λ list old answer new.
        AlwaysWritten (WritesByteList (map (λ number. cast_unsigned w8 number) list.0.now)) old
        answer new };

    ghost content = { λ list.
        Some (value (byte_list (map (λ number. cast_unsigned w8 number) list.0.now))) };

    #[inline]
    fn prepare(&self, builder: &mut Builder) -> Result<Option<Offset<List<i8>>>, BuildError> {
        Ok(Some(WriteAsOffset::prepare(self, builder)?))
    }

    ghost is_lawful = { left_out_is_lawful (λ list. ⊥) (entry_is_lawful (λ list. byte_list_entry
        (map (λ number. cast_unsigned w8 number) list.0.now))) };

    ghost has_content = { always_prepared
        (byte_list_prepared (λ list. map (λ number. cast_unsigned w8 number) list.0.now)) };
}

impl<'a> WriteAsDefault<Offset<List<i8>>, ()> for SignedList<'a> {
    type Prepared = Offset<List<i8>>;

    ghost may = { λ list old. ⊤ };

    ghost outcome = { λ list default old answer new.
        LeftOutWhere (list.0.now ≡ []) (WritesByteList (map (λ number. cast_unsigned w8 number)
        list.0.now)) old answer new };

    ghost content = { λ list default.
        unless (is_empty list.0.now)
        (Some (value (byte_list (map (λ number. cast_unsigned w8 number) list.0.now)))) };

    #[inline]
    fn prepare(
        &self,
        builder: &mut Builder,
        _default: &(),
    ) -> Result<Option<Offset<List<i8>>>, BuildError> {
        if self.0.is_empty() {
            return Ok(None);
        }
        Ok(Some(WriteAsOffset::prepare(self, builder)?))
    }

    ghost is_lawful = { λ default.
        left_out_is_lawful (λ list. list.0.now ≡ []) (entry_is_lawful (λ list. byte_list_entry (map
        (λ number. cast_unsigned w8 number) list.0.now))) };

    ghost has_content = { λ default. left_out_prepared (λ list. is_empty list.0.now)
        (λ list. list.0.now ≡ []) (λ list. empty_decides list.0.now)
        (byte_list_prepared (λ list. map (λ number. cast_unsigned w8 number) list.0.now)) };
}
