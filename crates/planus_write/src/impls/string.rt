//! Owned strings.
ghost use Rattle.std.specs.Prelude.{map, ⊤, refl};
ghost use Rattle.std.specs.String.{string_bytes};
ghost use Rattle.planus_write.specs.Parts.{text_entry};
ghost use Rattle.planus_write.specs.Preparing.{WritesText, PreparesItems};
ghost use Rattle.planus_write.specs.lemmas.Laws.{entry_is_lawful};
ghost use Rattle.planus_read.specs.Values.{text as text_value};
ghost use Rattle.planus_write.specs.Contents.{values};
ghost use Rattle.planus_write.specs.lemmas.ContentLaws.{text_prepared};
ghost use Rattle.planus_write.specs.lemmas.ListLaws.{all_free, free_items_are_lawful};
ghost use Rattle.planus_write.specs.lemmas.ListContentLaws.{values_have_content};

use crate::builder::Builder;
use crate::errors::BuildError;
use crate::lists::write_each;
use crate::offset::{Offset, Text};
use crate::traits::{VectorWrite, WriteAsOffset};

impl WriteAsOffset<Text> for String {
    ghost may = { λ text old. ⊤ };

    ghost outcome = { λ text old answer new. WritesText (string_bytes text) old answer new };

    #[inline]
    fn prepare(&self, builder: &mut Builder) -> Result<Offset<Text>, BuildError> {
        builder.write_text(self.as_str())
    }

    ghost is_lawful = { entry_is_lawful (λ text. text_entry (string_bytes text)) };
}

impl VectorWrite<Offset<Text>> for String {
    type Value = Offset<Text>;

    ghost STRIDE = { 4 };

    ghost may = { λ text old. ⊤ };

    ghost outcome = { λ text old answer new. WritesText (string_bytes text) old answer new };

    ghost all_may = { λ texts old. ⊤ };

    ghost prepares = { λ texts. PreparesItems
        (λ text old answer new. WritesText (string_bytes text) old answer new) texts };

    ghost list = { λ texts. values (map (λ text. text_value (string_bytes text)) texts) };

    #[inline]
    fn stride() -> usize {
        4
    }

    #[inline]
    fn prepare(&self, builder: &mut Builder) -> Result<Offset<Text>, BuildError> {
        WriteAsOffset::prepare(self, builder)
    }

    #[inline]
    fn as_prepared(_items: &[String]) -> Option<&[Offset<Text>]> {
        None
    }

    #[inline]
    fn write_values(values: &[Offset<Text>], bytes: &mut [u8], place: u32) {
        write_each::<Offset<Text>, Offset<Text>>(values, bytes, place);
    }

    ghost is_size = { refl };

    ghost is_lawful = { entry_is_lawful (λ text. text_entry (string_bytes text)) };

    ghost are_lawful = { free_items_are_lawful
        (entry_is_lawful (λ text. text_entry (string_bytes text))) };

    ghost has_list = { values_have_content
        (entry_is_lawful (λ text. text_entry (string_bytes text)))
        (λ text. text_value (string_bytes text)) (text_prepared (λ text. string_bytes text))
        (λ texts old free. all_free texts old) };
}
