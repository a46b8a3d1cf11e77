//! Vectors of items in a slice.
ghost use Rattle.planus_write.specs.Preparing.{AllMay, WritesList};
ghost use Rattle.planus_write.specs.lemmas.ListLaws.{list_is_lawful};
ghost use Rattle.planus_write.specs.lemmas.UnionLaws.{union_vector_is_lawful};
ghost use Rattle.planus_write.specs.Unions.{WritesUnionVector};

use crate::builder::Builder;
use crate::errors::BuildError;
use crate::lists::write_list;
use crate::offset::{List, Offset};
use crate::traits::{Primitive, VectorWrite, WriteAsOffset, WriteAsUnion, WriteAsUnionVector};
use crate::union_vector_offset::UnionVectorOffset;
use crate::unions::write_union_vector;

impl<'a, P: Primitive, T: VectorWrite<P>> WriteAsOffset<List<P>> for &'a [T] {
    ghost may = { λ items old. T.all_may items.now old };

    ghost outcome = { λ items old answer new.
        WritesList T.prepares T.Value.encoding P.SIZE P.ALIGNMENT items.now old answer new };

    #[inline]
    fn prepare(&self, builder: &mut Builder) -> Result<Offset<List<P>>, BuildError> {
        let items = *self;
        write_list::<P, T>(builder, items)
    }

    ghost is_lawful = { list_is_lawful P.SIZE P.ALIGNMENT (λ items. items.now) T.are_lawful };
}

impl<'a, T, U: WriteAsUnion<T>> WriteAsUnionVector<T> for &'a [U] {
    ghost may = { λ items old. AllMay U.may items.now old };

    ghost outcome = { λ items old answer new.
        WritesUnionVector U.outcome items.now old answer new };

    #[inline]
    fn prepare(&self, builder: &mut Builder) -> Result<UnionVectorOffset<T>, BuildError> {
        let items = *self;
        write_union_vector::<T, U>(builder, items)
    }

    ghost is_lawful = { union_vector_is_lawful U.may U.outcome U.is_lawful (λ items. items.now) };
}
