//! Vectors from arrays.
ghost use Rattle.std.specs.Prelude.{◌≡◌, [], Some, map};
ghost use Rattle.planus_write.specs.Preparing.{AllMay, WritesList};
ghost use Rattle.planus_write.specs.lemmas.ListLaws.{list_is_lawful};
ghost use Rattle.planus_write.specs.lemmas.UnionLaws.{union_vector_is_lawful};
ghost use Rattle.planus_write.specs.Unions.{WritesUnionVector};
ghost use Rattle.planus_fields.specs.Fields.{AlwaysWritten, LeftOutWhere};
ghost use Rattle.planus_fields.specs.lemmas.FieldLaws.{left_out_is_lawful};
ghost use Rattle.planus_fields.specs.Contents.{any_unions_hold};
ghost use Rattle.planus_write.specs.Contents.{unions_hold};
ghost use Rattle.planus_write.specs.lemmas.ListContentLaws.{list_prepared};
ghost use Rattle.planus_fields.specs.lemmas.ContentLaws.{always_prepared};
ghost use Rattle.planus_fields.specs.lemmas.UnionContentLaws.{unions_or_none_prepared};
ghost use Rattle.planus_fields.specs.lemmas.UnionContentLaws.{unions_prepared};

use crate::traits::{
    WriteAs, WriteAsDefaultUnionVector, WriteAsOptional, WriteAsOptionalUnionVector,
};
use planus_write::{
    BuildError, Builder, List, Offset, Primitive, UnionVectorOffset, VectorWrite, WriteAsOffset,
    WriteAsUnion, WriteAsUnionVector,
};

impl<P: Primitive, T: VectorWrite<P>, const N: usize> WriteAs<Offset<List<P>>> for [T; N] {
    type Prepared = Offset<List<P>>;

    ghost may = { λ items old. T.all_may items old };

    ghost outcome = { λ items old answer new.
        WritesList T.prepares T.Value.encoding P.SIZE P.ALIGNMENT items old answer new };

    ghost content = { λ items. T.list items };

    #[inline]
    fn prepare(&self, builder: &mut Builder) -> Result<Offset<List<P>>, BuildError> {
        WriteAsOffset::prepare(self, builder)
    }

    ghost is_lawful = { list_is_lawful P.SIZE P.ALIGNMENT (λ items. items) T.are_lawful };

    ghost has_content = { list_prepared (λ items. items) T.has_list };
}

impl<P: Primitive, T: VectorWrite<P>, const N: usize> WriteAsOptional<Offset<List<P>>> for [T; N] {
    type Prepared = Offset<List<P>>;

    ghost may = { λ items old. T.all_may items old };

    ghost outcome = { λ items old answer new.
        AlwaysWritten (WritesList T.prepares T.Value.encoding P.SIZE P.ALIGNMENT items) old answer
        new };

    ghost content = { λ items. Some (T.list items) };

    #[inline]
    fn prepare(&self, builder: &mut Builder) -> Result<Option<Offset<List<P>>>, BuildError> {
        Ok(Some(WriteAsOffset::prepare(self, builder)?))
    }

    ghost is_lawful = { left_out_is_lawful (λ items. ⊥) (list_is_lawful P.SIZE P.ALIGNMENT (λ items.
        items) T.are_lawful) };

    ghost has_content = { always_prepared (list_prepared (λ items. items) T.has_list) };
}

impl<T, U: WriteAsUnion<T>, const N: usize> WriteAsDefaultUnionVector<T> for [U; N] {
    ghost may = { λ items old. AllMay U.may items old };

    ghost outcome = { λ items old answer new.
        LeftOutWhere (items ≡ []) (WritesUnionVector U.outcome items) old answer new };

    ghost contents = { λ items. any_unions_hold (map U.content items) };

    #[inline]
    fn prepare(&self, builder: &mut Builder) -> Result<Option<UnionVectorOffset<T>>, BuildError> {
        if N == 0 {
            return Ok(None);
        }
        match WriteAsUnionVector::prepare(self, builder) {
            Ok(vector) => Ok(Some(vector)),
            Err(error) => Err(error),
        }
    }

    ghost is_lawful = { left_out_is_lawful (λ items. items ≡ [])
        (union_vector_is_lawful U.may U.outcome U.is_lawful (λ items. items)) };

    ghost has_contents = { unions_or_none_prepared U.is_lawful U.content U.has_content
        (λ items. items) };
}

impl<T, U: WriteAsUnion<T>, const N: usize> WriteAsOptionalUnionVector<T> for [U; N] {
    ghost may = { λ items old. AllMay U.may items old };

    ghost outcome = { λ items old answer new.
        AlwaysWritten (WritesUnionVector U.outcome items) old answer new };

    ghost contents = { λ items. Some (unions_hold (map U.content items)) };

    #[inline]
    fn prepare(&self, builder: &mut Builder) -> Result<Option<UnionVectorOffset<T>>, BuildError> {
        match WriteAsUnionVector::prepare(self, builder) {
            Ok(vector) => Ok(Some(vector)),
            Err(error) => Err(error),
        }
    }

    ghost is_lawful = { left_out_is_lawful (λ items. ⊥)
        (union_vector_is_lawful U.may U.outcome U.is_lawful (λ items. items)) };

    ghost has_contents = { unions_prepared U.is_lawful U.content U.has_content
        (λ items. items) };
}
