//! Vectors from slices.
ghost use Rattle.std.specs.Prelude.{◌≡◌, [], Some, map};
ghost use Rattle.planus_write.specs.Preparing.{AllMay, WritesList};
ghost use Rattle.planus_write.specs.lemmas.ListLaws.{list_is_lawful};
ghost use Rattle.planus_write.specs.lemmas.UnionLaws.{union_vector_is_lawful};
ghost use Rattle.planus_write.specs.Unions.{WritesUnionVector};
ghost use Rattle.planus_fields.specs.Fields.{AlwaysWritten, LeftOutWhere};
ghost use Rattle.planus_fields.specs.lemmas.FieldLaws.{left_out_is_lawful};
ghost use Rattle.planus_fields.specs.Contents.{any_unions_hold, is_empty, unless};
ghost use Rattle.planus_write.specs.Contents.{unions_hold};
ghost use Rattle.planus_fields.specs.lemmas.ContentLaws.{empty_decides};
ghost use Rattle.planus_write.specs.lemmas.ListContentLaws.{list_prepared};
ghost use Rattle.planus_fields.specs.lemmas.ContentLaws.{always_prepared, left_out_prepared};
ghost use Rattle.planus_fields.specs.lemmas.UnionContentLaws.{unions_or_none_prepared};
ghost use Rattle.planus_fields.specs.lemmas.UnionContentLaws.{unions_prepared};

use crate::traits::{
    WriteAs, WriteAsDefault, WriteAsDefaultUnionVector, WriteAsOptional, WriteAsOptionalUnionVector,
};
use planus_write::{
    BuildError, Builder, List, Offset, Primitive, UnionVectorOffset, VectorWrite, WriteAsOffset,
    WriteAsUnion, WriteAsUnionVector,
};

impl<'a, P: Primitive, T: VectorWrite<P>> WriteAs<Offset<List<P>>> for &'a [T] {
    type Prepared = Offset<List<P>>;

    ghost may = { λ items old. T.all_may items.now old };

    ghost outcome = { λ items old answer new.
        WritesList T.prepares T.Value.encoding P.SIZE P.ALIGNMENT items.now old answer new };

    ghost content = { λ items. T.list items.now };

    #[inline]
    fn prepare(&self, builder: &mut Builder) -> Result<Offset<List<P>>, BuildError> {
        WriteAsOffset::prepare(self, builder)
    }

    ghost is_lawful = { list_is_lawful P.SIZE P.ALIGNMENT (λ items. items.now) T.are_lawful };

    ghost has_content = { list_prepared (λ items. items.now) T.has_list };
}

impl<'a, P: Primitive, T: VectorWrite<P>> WriteAsOptional<Offset<List<P>>> for &'a [T] {
    type Prepared = Offset<List<P>>;

    ghost may = { λ items old. T.all_may items.now old };

    ghost outcome = { λ items old answer new.
        AlwaysWritten (WritesList T.prepares T.Value.encoding P.SIZE P.ALIGNMENT items.now) old
        answer new };

    ghost content = { λ items. Some (T.list items.now) };

    #[inline]
    fn prepare(&self, builder: &mut Builder) -> Result<Option<Offset<List<P>>>, BuildError> {
        Ok(Some(WriteAsOffset::prepare(self, builder)?))
    }

    ghost is_lawful = { left_out_is_lawful (λ items. ⊥)
        (list_is_lawful P.SIZE P.ALIGNMENT (λ items. items.now) T.are_lawful) };

    ghost has_content = { always_prepared (list_prepared (λ items. items.now) T.has_list) };
}

impl<'a, P: Primitive, T: VectorWrite<P>> WriteAsDefault<Offset<List<P>>, ()> for &'a [T] {
    type Prepared = Offset<List<P>>;

    ghost may = { λ items old. T.all_may items.now old };

    ghost outcome = { λ items default old answer new.
        LeftOutWhere (items.now ≡ []) (WritesList T.prepares T.Value.encoding P.SIZE P.ALIGNMENT
        items.now) old answer new };

    ghost content = { λ items default. unless (is_empty items.now) (Some (T.list items.now)) };

    #[inline]
    fn prepare(
        &self,
        builder: &mut Builder,
        _default: &(),
    ) -> Result<Option<Offset<List<P>>>, BuildError> {
        if self.is_empty() {
            return Ok(None);
        }
        Ok(Some(WriteAsOffset::prepare(self, builder)?))
    }

    ghost is_lawful = { λ default.
        left_out_is_lawful (λ items. items.now ≡ [])
        (list_is_lawful P.SIZE P.ALIGNMENT (λ items. items.now) T.are_lawful) };

    ghost has_content = { λ default. left_out_prepared (λ items. is_empty items.now)
        (λ items. items.now ≡ []) (λ items. empty_decides items.now)
        (list_prepared (λ items. items.now) T.has_list) };
}

impl<'a, T, U: WriteAsUnion<T>> WriteAsDefaultUnionVector<T> for &'a [U] {
    ghost may = { λ items old. AllMay U.may items.now old };

    ghost outcome = { λ items old answer new.
        LeftOutWhere (items.now ≡ []) (WritesUnionVector U.outcome items.now) old answer new };

    ghost contents = { λ items. any_unions_hold (map U.content items.now) };

    #[inline]
    fn prepare(&self, builder: &mut Builder) -> Result<Option<UnionVectorOffset<T>>, BuildError> {
        let items = *self;
        if items.is_empty() {
            return Ok(None);
        }
        match WriteAsUnionVector::prepare(self, builder) {
            Ok(vector) => Ok(Some(vector)),
            Err(error) => Err(error),
        }
    }

    ghost is_lawful = { left_out_is_lawful (λ items. items.now ≡ [])
        (union_vector_is_lawful U.may U.outcome U.is_lawful (λ items. items.now)) };

    ghost has_contents = { unions_or_none_prepared U.is_lawful U.content U.has_content
        (λ items. items.now) };
}

impl<'a, T, U: WriteAsUnion<T>> WriteAsOptionalUnionVector<T> for &'a [U] {
    ghost may = { λ items old. AllMay U.may items.now old };

    ghost outcome = { λ items old answer new.
        AlwaysWritten (WritesUnionVector U.outcome items.now) old answer new };

    ghost contents = { λ items. Some (unions_hold (map U.content items.now)) };

    #[inline]
    fn prepare(&self, builder: &mut Builder) -> Result<Option<UnionVectorOffset<T>>, BuildError> {
        match WriteAsUnionVector::prepare(self, builder) {
            Ok(vector) => Ok(Some(vector)),
            Err(error) => Err(error),
        }
    }

    ghost is_lawful = { left_out_is_lawful (λ items. ⊥)
        (union_vector_is_lawful U.may U.outcome U.is_lawful (λ items. items.now)) };

    ghost has_contents = { unions_prepared U.is_lawful U.content U.has_content
        (λ items. items.now) };
}
