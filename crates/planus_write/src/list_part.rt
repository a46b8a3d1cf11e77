//! The part of a byte vector.
ghost use Rattle.std.specs.Prelude.{◌≡◌, ◌+◌, ◌≤◌, ◌++◌, length};
ghost use Rattle.std.specs.Int.{w32, to_le_bytes};
ghost use Rattle.planus_back.specs.Padding.{greatest_place};

use planus_back::{Byte, Overwrite};

#[derive(Drop)]
pub(crate) struct ListPart<'a, B: Byte>(pub(crate) &'a [B]);

impl<'a, B: Byte> Overwrite for ListPart<'a, B> {
    ghost fits = { λ part place n. (n ≡ length (B.bytes_of part.0.now) + 4)
        × (n ≤ greatest_place) };

    ghost encoding = { λ part place n. to_le_bytes w32 (length (B.bytes_of part.0.now))
        ++ B.bytes_of part.0.now };

    #[inline(always)]
    fn overwrite(&self, _place: u32, bytes: &mut [u8]) {
        let items = self.0;
        let (count, behind) = bytes.split_at_mut(4);
        count.copy_from_slice(&(B::count(items) as u32).to_le_bytes());
        B::copy_to(items, behind);
    }
}
