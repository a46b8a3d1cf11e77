//! Byte vectors.

ghost use Rattle.std.specs.Prelude.{◌≡◌, [], true, false, None};
ghost use Rattle.planus_back.specs.CacheKeys.{bytes_in};
ghost use Rattle.planus_write.specs.Holding.{FindsHeld};
ghost use Rattle.planus_write.specs.inner.Sharing.{FindsIf, LooksIf, LooksIn};
ghost use Rattle.planus_write.specs.Parts.{byte_list_entry};
ghost use Rattle.planus_write.specs.inner.Written.{place_of};
ghost use Rattle.planus_write.specs.Placing.{WritesEntry};
ghost use Rattle.planus_write.specs.Preparing.{WritesByteList};

use crate::backing::WORD_MASK;
use crate::builder::Builder;
use crate::errors::BuildError;
use crate::list_part::ListPart;
use crate::offset::Offset;
use crate::sharing::plan_if;
use crate::written::Written;
use planus_back::{Bucket, Byte};

impl Builder {
    #[inline]
    pub(crate) fn write_byte_list<T, B: Byte>(
        &mut self,
        list: &[B],
    ) -> Result<Offset<T>, BuildError>
        ensures { WritesByteList (B.bytes_of list.now) self.old result self.new }
    {
        if self.byte_lists.is_on() {
            self.write_shared_list(list).offset()
        } else {
            self.write_new_list(list).offset()
        }
    }

    #[inline(never)]
    fn write_shared_list<B: Byte>(&mut self, list: &[B]) -> Written
        requires { self.old.settings.byte_lists_on ≡ true }
        ensures { WritesEntry (byte_list_entry (B.bytes_of list.now)) [] self.old (place_of result)
            self.new }
    {
        let bucket = self.byte_lists.bucket_of(list);
        match self
            .byte_lists
            .find_in(bucket, self.backing.as_slice(), list)
        {
            Some(distance) => Written::At(distance),
            None => self.write_other_list(bucket, list),
        }
    }

    #[inline(never)]
    fn write_other_list<B: Byte>(&mut self, bucket: Option<Bucket>, list: &[B]) -> Written
        requires on { self.old.settings.byte_lists_on ≡ true }
        requires bucket { LooksIn self.old.holdings.held_byte_lists (B.bytes_of list.now) bucket }
        requires new { FindsHeld bytes_in self.old.holdings.held_byte_lists self.old.bytes
            (B.bytes_of list.now) None }
        ensures { WritesEntry (byte_list_entry (B.bytes_of list.now)) [] self.old (place_of result)
            self.new }
    {
        Written::from(self.put_list(true, bucket, list))
    }

    #[inline(never)]
    fn write_new_list<B: Byte>(&mut self, list: &[B]) -> Written
        requires { self.old.settings.byte_lists_on ≡ false }
        ensures { WritesEntry (byte_list_entry (B.bytes_of list.now)) [] self.old (place_of result)
            self.new }
    {
        Written::from(self.put_list(false, None, list))
    }

    #[inline(always)]
    fn put_list<B: Byte>(
        &mut self,
        shared: bool,
        bucket: Option<Bucket>,
        list: &[B],
    ) -> Result<u32, BuildError>
        requires on { self.old.settings.byte_lists_on ≡ shared }
        requires bucket { LooksIf shared self.old.holdings.held_byte_lists (B.bytes_of list.now)
            bucket }
        requires new { FindsIf shared bytes_in self.old.holdings.held_byte_lists self.old.bytes
            (B.bytes_of list.now) None }
        ensures { WritesEntry (byte_list_entry (B.bytes_of list.now)) [] self.old result self.new }
    {
        let size = B::count(list) + 4;
        let plan = plan_if(
            shared,
            &mut self.backing,
            &mut self.byte_lists,
            bucket,
            list,
            size,
            WORD_MASK,
        )?;
        self.backing.put_planned_over(&plan, size, &ListPart(list));
        Ok(plan.place)
    }
}
