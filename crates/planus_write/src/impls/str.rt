//! Strings in a slice.
ghost use Rattle.std.specs.Prelude.{◌≡◌, ◌*◌, length, map, ⊤, refl};
ghost use Rattle.planus_write.specs.Parts.{text_entry, items_bytes};
ghost use Rattle.planus_write.specs.Items.{reference_item};
ghost use Rattle.planus_write.specs.Preparing.{WritesText, MayStand, PreparesItems};
ghost use Rattle.planus_write.specs.lemmas.Laws.{entry_is_lawful};
ghost use Rattle.planus_read.specs.Values.{text as text_value};
ghost use Rattle.planus_write.specs.Contents.{values};
ghost use Rattle.planus_write.specs.lemmas.ContentLaws.{text_prepared};
ghost use Rattle.planus_write.specs.lemmas.ListLaws.{all_free, free_items_are_lawful};
ghost use Rattle.planus_write.specs.lemmas.ListContentLaws.{values_have_content};

use crate::builder::Builder;
use crate::errors::BuildError;
use crate::lists::write_each;
use crate::offset::{Offset, Text};
use crate::traits::{VectorWrite, WriteAsOffset};

impl<'a> WriteAsOffset<Text> for &'a str {
    ghost may = { λ text old. ⊤ };

    ghost outcome = { λ text old answer new. WritesText text.now old answer new };

    #[inline]
    fn prepare(&self, builder: &mut Builder) -> Result<Offset<Text>, BuildError> {
        let text = *self;
        builder.write_text(text)
    }

    ghost is_lawful = { entry_is_lawful (λ text. text_entry text.now) };
}

impl<'a> VectorWrite<Offset<Text>> for &'a str {
    type Value = Offset<Text>;

    ghost STRIDE = { 4 };

    ghost may = { λ text old. ⊤ };

    ghost outcome = { λ text old answer new. WritesText text.now old answer new };

    ghost all_may = { λ texts old. ⊤ };

    ghost prepares = { λ texts. PreparesItems
        (λ text old answer new. WritesText text.now old answer new) texts };

    ghost list = { λ texts. values (map (λ text. text_value text.now) texts) };

    #[inline]
    fn stride() -> usize
        ensures { result ≡ 4 }
    {
        4
    }

    #[inline]
    fn prepare(&self, builder: &mut Builder) -> Result<Offset<Text>, BuildError> {
        WriteAsOffset::prepare(self, builder)
    }

    #[inline]
    fn as_prepared<'s>(_items: &'s [&'a str]) -> Option<&'s [Offset<Text>]> {
        None
    }

    #[inline]
    fn write_values(values: &[Offset<Text>], bytes: &mut [u8], place: u32)
        requires size { length bytes.old ≡ length values.now * 4 }
        requires may { MayStand (λ offset. offset.distance) 4 place values.now }
        ensures { bytes.new ≡ items_bytes 4 place
            (map (λ offset. reference_item offset.distance) values.now) }
    {
        write_each::<Offset<Text>, Offset<Text>>(values, bytes, place);
    }

    ghost is_size = { refl };

    ghost is_lawful = { entry_is_lawful (λ text. text_entry text.now) };

    ghost are_lawful = { free_items_are_lawful (entry_is_lawful (λ text. text_entry text.now)) };

    ghost has_list = { values_have_content (entry_is_lawful (λ text. text_entry text.now))
        (λ text. text_value text.now) (text_prepared (λ text. text.now))
        (λ texts old free. all_free texts old) };
}
