//! Borrowed strings.
ghost use Rattle.std.specs.Prelude.{◌≡◌, ⊤, Some};
ghost use Rattle.planus_write.specs.Parts.{text_entry};
ghost use Rattle.planus_write.specs.Preparing.{WritesText};
ghost use Rattle.planus_write.specs.lemmas.Laws.{entry_is_lawful};
ghost use Rattle.planus_fields.specs.Fields.{AlwaysWritten, LeftOutWhere};
ghost use Rattle.planus_fields.specs.lemmas.FieldLaws.{left_out_is_lawful};
ghost use Rattle.std.specs.Str.{bytes_eq};
ghost use Rattle.std.proofs.lemmas.Slice.Eq.{bytes_eq-Decides};
ghost use Rattle.planus_read.specs.Values.{text as text_value};
ghost use Rattle.planus_fields.specs.Contents.{unless};
ghost use Rattle.planus_write.specs.Contents.{value};
ghost use Rattle.planus_write.specs.lemmas.ContentLaws.{text_prepared};
ghost use Rattle.planus_fields.specs.lemmas.ContentLaws.{always_prepared, left_out_prepared};

use crate::traits::{WriteAs, WriteAsDefault, WriteAsOptional};
use planus_write::{BuildError, Builder, Offset, Text, WriteAsOffset};

impl<'a> WriteAs<Offset<Text>> for &'a str {
    type Prepared = Offset<Text>;

    ghost may = { λ text old. ⊤ };

    ghost outcome = { λ text old answer new. WritesText text.now old answer new };

    ghost content = { λ text. value (text_value text.now) };

    #[inline]
    fn prepare(&self, builder: &mut Builder) -> Result<Offset<Text>, BuildError> {
        WriteAsOffset::prepare(self, builder)
    }

    ghost is_lawful = { entry_is_lawful (λ text. text_entry text.now) };

    ghost has_content = { text_prepared (λ text. text.now) };
}

impl<'a> WriteAsOptional<Offset<Text>> for &'a str {
    type Prepared = Offset<Text>;

    ghost may = { λ text old. ⊤ };

    ghost outcome = { λ text old answer new. AlwaysWritten (WritesText text.now) old answer new };

    ghost content = { λ text. Some (value (text_value text.now)) };

    #[inline]
    fn prepare(&self, builder: &mut Builder) -> Result<Option<Offset<Text>>, BuildError> {
        Ok(Some(WriteAsOffset::prepare(self, builder)?))
    }

    ghost is_lawful = { left_out_is_lawful (λ text. ⊥) (entry_is_lawful (λ text. text_entry
        text.now)) };

    ghost has_content = { always_prepared (text_prepared (λ text. text.now)) };
}

impl<'a, 'b> WriteAsDefault<Offset<Text>, &'b str> for &'a str {
    type Prepared = Offset<Text>;

    ghost may = { λ text old. ⊤ };

    ghost outcome = { λ text default old answer new.
        LeftOutWhere (text.now ≡ default.now) (WritesText text.now) old answer new };

    ghost content = { λ text default. unless (bytes_eq text.now default.now)
        (Some (value (text_value text.now))) };

    #[inline]
    fn prepare(
        &self,
        builder: &mut Builder,
        default: &&'b str,
    ) -> Result<Option<Offset<Text>>, BuildError> {
        if *self == *default {
            return Ok(None);
        }
        Ok(Some(WriteAsOffset::prepare(self, builder)?))
    }

    ghost is_lawful = { λ default.
        left_out_is_lawful (λ text. text.now ≡ default.now) (entry_is_lawful (λ text. text_entry
        text.now)) };

    ghost has_content = { λ default. left_out_prepared (λ text. bytes_eq text.now default.now)
        (λ text. text.now ≡ default.now) (λ text. bytes_eq-Decides text.now default.now)
        (text_prepared (λ text. text.now)) };
}
