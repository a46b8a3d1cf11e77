//! Strings.

ghost use Rattle.std.specs.Prelude.{◌≡◌, [], true, false, None};
ghost use Rattle.planus_back.specs.CacheKeys.{bytes_in};
ghost use Rattle.planus_write.specs.Holding.{FindsHeld};
ghost use Rattle.planus_write.specs.inner.Sharing.{FindsIf, LooksIf, LooksIn};
ghost use Rattle.planus_write.specs.Parts.{text_entry};
ghost use Rattle.planus_write.specs.inner.Written.{place_of};
ghost use Rattle.planus_write.specs.Placing.{WritesEntry};
ghost use Rattle.planus_write.specs.Preparing.{WritesText};

use crate::backing::WORD_MASK;
use crate::builder::Builder;
use crate::errors::BuildError;
use crate::offset::{Offset, Text};
use crate::sharing::plan_if;
use crate::text_part::TextPart;
use crate::written::Written;
use planus_back::Bucket;

impl Builder {
    #[inline]
    pub(crate) fn write_text(&mut self, text: &str) -> Result<Offset<Text>, BuildError>
        ensures { WritesText text.now self.old result self.new }
    {
        if self.texts.is_on() {
            self.write_shared_text(text).offset()
        } else {
            self.write_new_text(text).offset()
        }
    }

    // Equal contents are found with few registers, since what follows is out of line.
    #[inline(never)]
    fn write_shared_text(&mut self, text: &str) -> Written
        requires { self.old.settings.texts_on ≡ true }
        ensures { WritesEntry (text_entry text.now) [] self.old (place_of result) self.new }
    {
        let bytes = text.as_bytes();
        let bucket = self.texts.bucket_of(bytes);
        match self.texts.find_in(bucket, self.backing.as_slice(), bytes) {
            Some(distance) => Written::At(distance),
            None => self.write_other_text(bucket, text),
        }
    }

    #[inline(never)]
    fn write_other_text(&mut self, bucket: Option<Bucket>, text: &str) -> Written
        requires on { self.old.settings.texts_on ≡ true }
        requires bucket { LooksIn self.old.holdings.held_texts text.now bucket }
        requires new { FindsHeld bytes_in self.old.holdings.held_texts self.old.bytes text.now None }
        ensures { WritesEntry (text_entry text.now) [] self.old (place_of result) self.new }
    {
        Written::from(self.put_text(true, bucket, text))
    }

    #[inline(never)]
    fn write_new_text(&mut self, text: &str) -> Written
        requires { self.old.settings.texts_on ≡ false }
        ensures { WritesEntry (text_entry text.now) [] self.old (place_of result) self.new }
    {
        Written::from(self.put_text(false, None, text))
    }

    // The one body of both, so that the code without a cache has nothing of the cache.
    #[inline(always)]
    fn put_text(
        &mut self,
        shared: bool,
        bucket: Option<Bucket>,
        text: &str,
    ) -> Result<u32, BuildError>
        requires on { self.old.settings.texts_on ≡ shared }
        requires bucket { LooksIf shared self.old.holdings.held_texts text.now bucket }
        requires new { FindsIf shared bytes_in self.old.holdings.held_texts self.old.bytes text.now
            None }
        ensures { WritesEntry (text_entry text.now) [] self.old result self.new }
    {
        let bytes = text.as_bytes();
        let size = bytes.len() + 5;
        let plan = plan_if(
            shared,
            &mut self.backing,
            &mut self.texts,
            bucket,
            bytes,
            size,
            WORD_MASK,
        )?;
        self.backing.put_planned_over(&plan, size, &TextPart(bytes));
        Ok(plan.place)
    }
}
