//! Offsets: values that are written already.
ghost use Rattle.std.specs.Prelude.{map, refl};
ghost use Rattle.std.proofs.Common.{lit≤};
ghost use Rattle.planus_read.specs.Values.{reference, reference_list};
ghost use Rattle.planus_write.specs.InBuilder.{IsIn, AllIn};
ghost use Rattle.planus_write.specs.Items.{reference_item};
ghost use Rattle.planus_write.specs.Preparing.{Answers, IsPrepared};
ghost use Rattle.planus_read.specs.lemmas.NumberLaws.{layout_of_four};
ghost use Rattle.planus_write.specs.lemmas.Laws.{offset_is_lawful};
ghost use Rattle.planus_write.specs.Contents.{value};
ghost use Rattle.planus_write.specs.lemmas.FieldItemLaws.{reference_is_item};
ghost use Rattle.planus_write.specs.lemmas.ListLaws.{offsets_are_lawful};
ghost use Rattle.planus_write.specs.lemmas.ListContentLaws.{offset_list_has_content};

use crate::builder::Builder;
use crate::errors::BuildError;
use crate::lists::write_each;
use crate::offset::Offset;
use crate::traits::{Primitive, VectorWrite, WriteAsOffset, WriteAsPrimitive};

impl<T> Primitive for Offset<T> {
    ghost ALIGNMENT = { 4 };

    ghost SIZE = { 4 };

    ghost is_layout = { layout_of_four };

    ghost is_small = { lit≤ tt };

    const ALIGNMENT: usize = 4;

    const SIZE: usize = 4;
}

impl<T> WriteAsPrimitive<Offset<T>> for Offset<T> {
    ghost reach = { λ offset. offset.distance };

    ghost encoding = { λ offset. reference_item offset.distance };

    ghost field = { λ offset. reference offset.distance };

    #[inline]
    fn write(&self, bytes: &mut [u8], place: u32) {
        bytes.copy_from_slice(&(place - self.distance()).to_le_bytes());
    }

    ghost is_item = { λ offset. reference_is_item offset.distance };
}

impl<T> VectorWrite<Offset<T>> for Offset<T> {
    type Value = Offset<T>;

    ghost STRIDE = { 4 };

    ghost may = { λ offset old. IsIn old offset };

    ghost outcome = { IsPrepared };

    ghost all_may = { λ offsets old. AllIn old offsets };

    ghost prepares = { Answers };

    ghost list = { λ offsets. value (reference_list (map (λ offset. offset.distance) offsets)) };

    #[inline]
    fn stride() -> usize {
        4
    }

    #[inline]
    fn prepare(&self, builder: &mut Builder) -> Result<Offset<T>, BuildError> {
        WriteAsOffset::<T>::prepare(self, builder)
    }

    #[inline]
    fn as_prepared(items: &[Offset<T>]) -> Option<&[Offset<T>]> {
        Some(items)
    }

    #[inline]
    fn write_values(values: &[Offset<T>], bytes: &mut [u8], place: u32) {
        write_each::<Offset<T>, Offset<T>>(values, bytes, place);
    }

    ghost is_size = { refl };

    ghost is_lawful = { offset_is_lawful };

    ghost are_lawful = { offsets_are_lawful };

    ghost has_list = { offset_list_has_content };
}

impl<T> WriteAsOffset<T> for Offset<T> {
    ghost may = { λ offset old. IsIn old offset };

    ghost outcome = { IsPrepared };

    ghost is_lawful = { offset_is_lawful };

    #[inline]
    fn prepare(&self, _builder: &mut Builder) -> Result<Offset<T>, BuildError> {
        Ok(*self)
    }
}
