//! Owned strings.
ghost use Rattle.std.specs.String.{string_bytes};
ghost use Rattle.std.specs.Prelude.{◌≡◌, ⊤, Some};
ghost use Rattle.planus_write.specs.Parts.{text_entry};
ghost use Rattle.planus_write.specs.Preparing.{WritesText};
ghost use Rattle.planus_write.specs.lemmas.Laws.{entry_is_lawful};
ghost use Rattle.planus_fields.specs.Fields.{AlwaysWritten, LeftOutWhere};
ghost use Rattle.planus_fields.specs.lemmas.FieldLaws.{left_out_is_lawful};
ghost use Rattle.std.specs.Str.{bytes_eq};
ghost use Rattle.std.proofs.lemmas.Slice.Eq.{bytes_eq-Decides};
ghost use Rattle.planus_read.specs.Values.{text as text_value};
ghost use Rattle.planus_fields.specs.Contents.{unless};
ghost use Rattle.planus_write.specs.Contents.{value};
ghost use Rattle.planus_write.specs.lemmas.ContentLaws.{text_prepared};
ghost use Rattle.planus_fields.specs.lemmas.ContentLaws.{always_prepared, left_out_prepared};

use crate::traits::{WriteAs, WriteAsDefault, WriteAsOptional};
use planus_write::{BuildError, Builder, Offset, Text, WriteAsOffset};

impl WriteAs<Offset<Text>> for String {
    type Prepared = Offset<Text>;

    ghost may = { λ text old. ⊤ };

    ghost outcome = { λ text old answer new. WritesText (string_bytes text) old answer new };

    ghost content = { λ text. value (text_value (string_bytes text)) };

    #[inline]
    fn prepare(&self, builder: &mut Builder) -> Result<Offset<Text>, BuildError> {
        WriteAsOffset::prepare(self, builder)
    }

    ghost is_lawful = { entry_is_lawful (λ text. text_entry (string_bytes text)) };

    ghost has_content = { text_prepared (λ text. string_bytes text) };
}

impl WriteAsOptional<Offset<Text>> for String {
    type Prepared = Offset<Text>;

    ghost may = { λ text old. ⊤ };

    ghost outcome = { λ text old answer new.
        AlwaysWritten (WritesText (string_bytes text)) old answer new };

    ghost content = { λ text. Some (value (text_value (string_bytes text))) };

    #[inline]
    fn prepare(&self, builder: &mut Builder) -> Result<Option<Offset<Text>>, BuildError> {
        Ok(Some(WriteAsOffset::prepare(self, builder)?))
    }

    ghost is_lawful = { left_out_is_lawful (λ text. ⊥) (entry_is_lawful (λ text. text_entry
        (string_bytes text))) };

    ghost has_content = { always_prepared (text_prepared (λ text. string_bytes text)) };
}

impl<'a> WriteAsDefault<Offset<Text>, &'a str> for String {
    type Prepared = Offset<Text>;

    ghost may = { λ text old. ⊤ };

    ghost outcome = { λ text default old answer new.
        LeftOutWhere (string_bytes text ≡ default.now) (WritesText (string_bytes text)) old answer
        new };

    ghost content = { λ text default. unless (bytes_eq (string_bytes text) default.now)
        (Some (value (text_value (string_bytes text)))) };

    #[inline]
    fn prepare(
        &self,
        builder: &mut Builder,
        default: &&'a str,
    ) -> Result<Option<Offset<Text>>, BuildError> {
        if self.as_str() == *default {
            return Ok(None);
        }
        Ok(Some(WriteAsOffset::prepare(self, builder)?))
    }

    ghost is_lawful = { λ default.
        left_out_is_lawful (λ text. string_bytes text ≡ default.now) (entry_is_lawful (λ text.
        text_entry (string_bytes text))) };

    ghost has_content = { λ default. left_out_prepared
        (λ text. bytes_eq (string_bytes text) default.now)
        (λ text. string_bytes text ≡ default.now)
        (λ text. bytes_eq-Decides (string_bytes text) default.now)
        (text_prepared (λ text. string_bytes text)) };
}
