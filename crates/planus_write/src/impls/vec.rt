//! Vectors of owned items.
ghost use Rattle.planus_write.specs.Preparing.{AllMay, WritesList};
ghost use Rattle.planus_write.specs.lemmas.ListLaws.{list_is_lawful};
ghost use Rattle.planus_write.specs.lemmas.UnionLaws.{union_vector_is_lawful};
ghost use Rattle.planus_write.specs.Unions.{WritesUnionVector};

use crate::builder::Builder;
use crate::errors::BuildError;
use crate::lists::write_list;
use crate::offset::{List, Offset};
use crate::traits::{Primitive, VectorWrite, WriteAsOffset, WriteAsUnion, WriteAsUnionVector};
use crate::union_vector_offset::UnionVectorOffset;
use crate::unions::write_union_vector;

impl<P: Primitive, T: VectorWrite<P>> WriteAsOffset<List<P>> for Vec<T> {
    ghost may = { λ items old. T.all_may items.items old };

    ghost outcome = { λ items old answer new.
        WritesList T.prepares T.Value.encoding P.SIZE P.ALIGNMENT items.items old answer new };

    #[inline]
    fn prepare(&self, builder: &mut Builder) -> Result<Offset<List<P>>, BuildError> {
        write_list::<P, T>(builder, self.as_slice())
    }

    ghost is_lawful = { list_is_lawful P.SIZE P.ALIGNMENT (λ items. items.items) T.are_lawful };
}

impl<T, U: WriteAsUnion<T>> WriteAsUnionVector<T> for Vec<U> {
    ghost may = { λ items old. AllMay U.may items.items old };

    ghost outcome = { λ items old answer new.
        WritesUnionVector U.outcome items.items old answer new };

    #[inline]
    fn prepare(&self, builder: &mut Builder) -> Result<UnionVectorOffset<T>, BuildError> {
        write_union_vector::<T, U>(builder, self.as_slice())
    }

    ghost is_lawful = { union_vector_is_lawful U.may U.outcome U.is_lawful (λ items. items.items) };
}
