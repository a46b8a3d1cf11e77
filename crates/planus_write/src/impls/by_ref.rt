//! References.
ghost use Rattle.std.specs.Prelude.{◌≡◌, map};
ghost use Rattle.planus_write.specs.Preparing.{PreparesItems};
ghost use Rattle.planus_write.specs.lemmas.Laws.{lawful_of};
ghost use Rattle.planus_write.specs.lemmas.ListLaws.{items_are_lawful_as};
ghost use Rattle.planus_write.specs.lemmas.ListContentLaws.{list_prepared_as};
ghost use Rattle.planus_write.specs.lemmas.UnionContentLaws.{union_item_prepared_as};

use crate::builder::Builder;
use crate::by_ref::ByRef;
use crate::errors::BuildError;
use crate::offset::Offset;
use crate::traits::{
    Primitive, VectorWrite, WriteAsOffset, WriteAsPrimitive, WriteAsUnion, WriteAsUnionVector,
};
use crate::union_offset::UnionOffset;
use crate::union_vector_offset::UnionVectorOffset;

impl<'a, P: Primitive, T: WriteAsPrimitive<P>> WriteAsPrimitive<P> for ByRef<'a, T> {
    ghost reach = { λ by_ref. T.reach by_ref.0.now };

    ghost encoding = { λ by_ref. T.encoding by_ref.0.now };

    ghost field = { λ by_ref. T.field by_ref.0.now };

    #[inline]
    fn write(&self, bytes: &mut [u8], place: u32) {
        let inner = self.0;
        inner.write(bytes, place);
    }

    ghost is_item = { λ by_ref. T.is_item by_ref.0.now };
}

impl<'a, P, T: WriteAsOffset<P>> WriteAsOffset<P> for ByRef<'a, T> {
    ghost may = { λ by_ref old. T.may by_ref.0.now old };

    ghost outcome = { λ by_ref old answer new. T.outcome by_ref.0.now old answer new };

    #[inline]
    fn prepare(&self, builder: &mut Builder) -> Result<Offset<P>, BuildError> {
        let inner = self.0;
        inner.prepare(builder)
    }

    ghost is_lawful = { lawful_of (λ by_ref. by_ref.0.now) T.is_lawful };
}

impl<'a, P: Primitive, T: VectorWrite<P>> VectorWrite<P> for ByRef<'a, T> {
    type Value = T::Value;

    ghost STRIDE = { T.STRIDE };

    ghost may = { λ by_ref old. T.may by_ref.0.now old };

    ghost outcome = { λ by_ref old answer new. T.outcome by_ref.0.now old answer new };

    ghost all_may = { λ items old. T.all_may (map (λ by_ref. by_ref.0.now) items) old };

    ghost prepares = { λ items. PreparesItems
        (λ by_ref old answer new. T.outcome by_ref.0.now old answer new) items };

    ghost list = { λ items. T.list (map (λ by_ref. by_ref.0.now) items) };

    #[inline]
    fn stride() -> usize
        ensures { result ≡ T.STRIDE }
    {
        T::stride()
    }

    #[inline]
    fn prepare(&self, builder: &mut Builder) -> Result<T::Value, BuildError> {
        let inner = self.0;
        inner.prepare(builder)
    }

    #[inline]
    fn as_prepared<'s>(_items: &'s [ByRef<'a, T>]) -> Option<&'s [T::Value]> {
        None
    }

    #[inline]
    fn write_values(values: &[T::Value], bytes: &mut [u8], place: u32) {
        T::write_values(values, bytes, place);
    }

    ghost is_size = { T.is_size };

    ghost is_lawful = { lawful_of (λ by_ref. by_ref.0.now) T.is_lawful };

    ghost are_lawful = { items_are_lawful_as (λ by_ref. by_ref.0.now) T.is_lawful T.are_lawful };

    ghost has_list = { list_prepared_as (λ by_ref. by_ref.0.now) T.are_lawful T.has_list };
}

impl<'a, P, T: WriteAsUnion<P>> WriteAsUnion<P> for ByRef<'a, T> {
    ghost may = { λ by_ref old. T.may by_ref.0.now old };

    ghost outcome = { λ by_ref old answer new. T.outcome by_ref.0.now old answer new };

    ghost content = { λ by_ref. T.content by_ref.0.now };

    #[inline]
    fn prepare(&self, builder: &mut Builder) -> Result<UnionOffset<P>, BuildError> {
        let inner = self.0;
        inner.prepare(builder)
    }

    ghost is_lawful = { lawful_of (λ by_ref. by_ref.0.now) T.is_lawful };

    ghost has_content = { union_item_prepared_as (λ by_ref. by_ref.0.now) T.has_content };
}

impl<'a, P, T: WriteAsUnionVector<P>> WriteAsUnionVector<P> for ByRef<'a, T> {
    ghost may = { λ by_ref old. T.may by_ref.0.now old };

    ghost outcome = { λ by_ref old answer new. T.outcome by_ref.0.now old answer new };

    #[inline]
    fn prepare(&self, builder: &mut Builder) -> Result<UnionVectorOffset<P>, BuildError> {
        let inner = self.0;
        inner.prepare(builder)
    }

    ghost is_lawful = { lawful_of (λ by_ref. by_ref.0.now) T.is_lawful };
}
