//! Fields that are always left out.
ghost use Rattle.std.specs.Prelude.{replicate};
ghost use Rattle.planus_read.specs.Values.{plain};
ghost use Rattle.planus_write.specs.lemmas.FieldItemLaws.{zeros_are_item};
ghost use Rattle.planus_write.specs.Items.{plain_item};

use planus_write::{Primitive, WriteAsPrimitive};

/// The prepared type of a field that is always left out. No other crate can create one.
#[derive(Drop)]
pub struct LeftOut(());

impl<P: Primitive> WriteAsPrimitive<P> for LeftOut {
    ghost reach = { λ left_out. 0 };

    ghost encoding = { λ left_out. plain_item (replicate P.SIZE 0) };

    ghost field = { λ left_out.
        plain (record { bytes = replicate P.SIZE 0; alignment = P.ALIGNMENT }) };

    fn write(&self, bytes: &mut [u8], _place: u32) {
        bytes.fill(0);
    }

    ghost is_item = { λ left_out. zeros_are_item P.SIZE P.ALIGNMENT P.is_layout };
}
