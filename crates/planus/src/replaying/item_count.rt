//! The count before the values of a vector that a script writes.
ghost use Rattle.std.specs.Prelude.{◌≡◌};
ghost use Rattle.std.specs.Int.{w32, to_le_bytes};

use planus_back::Overwrite;

#[derive(Drop)]
pub(crate) struct ItemCount {
    pub(crate) count: u32,
}

impl Overwrite for ItemCount {
    ghost fits = { λ items place n. n ≡ 4 };

    ghost encoding = { λ items place n. to_le_bytes w32 items.count };

    #[inline]
    fn overwrite(&self, _place: u32, bytes: &mut [u8]) {
        bytes.copy_from_slice(&self.count.to_le_bytes());
    }
}
