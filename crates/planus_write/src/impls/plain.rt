//! Values of a fixed layout: one implementation for all.
ghost use Rattle.std.specs.Prelude.{map, refl, ⊤};
ghost use Rattle.planus_read.specs.Values.{plain, plain_list};
ghost use Rattle.planus_write.specs.Contents.{value};
ghost use Rattle.planus_write.specs.lemmas.FieldItemLaws.{plain_is_item};
ghost use Rattle.planus_write.specs.Items.{plain_item};
ghost use Rattle.planus_write.specs.Preparing.{Answers};
ghost use Rattle.planus_write.specs.lemmas.Laws.{alignment_is_small, ready_is_lawful};
ghost use Rattle.planus_write.specs.lemmas.ListLaws.{numbers_are_lawful};
ghost use Rattle.planus_write.specs.lemmas.ListContentLaws.{plain_list_has_content};

use crate::builder::Builder;
use crate::errors::BuildError;
use crate::lists::write_each;
use crate::traits::{Primitive, VectorWrite, WriteAsPrimitive};
use planus_read::Plain;

impl<P: Plain> Primitive for P {
    ghost ALIGNMENT = { P.ALIGNMENT };

    ghost SIZE = { P.SIZE };

    ghost is_layout = { (P.shape).layout };

    ghost is_small = { alignment_is_small P.SIZE P.ALIGNMENT (P.shape).layout };

    const ALIGNMENT: usize = <P as Plain>::ALIGNMENT;

    const SIZE: usize = <P as Plain>::SIZE;
}

impl<P: Plain> WriteAsPrimitive<P> for P {
    ghost reach = { λ x. 0 };

    ghost encoding = { λ x. plain_item ((P.shape).encoded x) };

    ghost field = { λ x. plain (record { bytes = (P.shape).encoded x; alignment = P.ALIGNMENT }) };

    #[inline]
    fn write(&self, bytes: &mut [u8], _place: u32) {
        self.put(bytes);
    }

    ghost is_item = { λ x. plain_is_item P.SIZE P.ALIGNMENT ((P.shape).encoded x)
        ((P.shape).sized x) (P.shape).layout };
}

impl<P: Plain> VectorWrite<P> for P {
    type Value = P;

    ghost STRIDE = { P.SIZE };

    ghost may = { λ x old. ⊤ };

    ghost outcome = { Answers };

    ghost all_may = { λ items old. ⊤ };

    ghost prepares = { Answers };

    ghost list = { λ items. value (plain_list P.SIZE P.ALIGNMENT (map (P.shape).encoded items)) };

    #[inline]
    fn stride() -> usize {
        <P as Plain>::SIZE
    }

    #[inline]
    fn prepare(&self, _builder: &mut Builder) -> Result<P, BuildError> {
        Ok(*self)
    }

    #[inline]
    fn as_prepared(items: &[P]) -> Option<&[P]> {
        Some(items)
    }

    #[inline]
    fn write_values(values: &[P], bytes: &mut [u8], place: u32) {
        write_each::<P, P>(values, bytes, place);
    }

    ghost is_size = { refl };

    ghost is_lawful = { ready_is_lawful };

    ghost are_lawful = { numbers_are_lawful };

    ghost has_list = { plain_list_has_content (P.shape).encoded P.SIZE P.ALIGNMENT (P.shape).layout
        (P.shape).sized };
}
