//! References are written as what they lead to.
ghost use Rattle.planus_write.specs.lemmas.Laws.{lawful_of};
ghost use Rattle.planus_write.specs.lemmas.ContentLaws.{content_prepared_as};
ghost use Rattle.planus_fields.specs.lemmas.ContentLaws.{prepared_as};
ghost use Rattle.planus_fields.specs.lemmas.UnionContentLaws.{union_prepared_as};
ghost use Rattle.planus_fields.specs.lemmas.UnionContentLaws.{union_vector_prepared_as};

use crate::traits::{
    WriteAs, WriteAsDefault, WriteAsDefaultUnionVector, WriteAsOptional, WriteAsOptionalUnion,
    WriteAsOptionalUnionVector,
};
use planus_write::{BuildError, Builder, ByRef, Primitive, UnionOffset, UnionVectorOffset};

impl<'a, P: Primitive, T: WriteAs<P>> WriteAs<P> for ByRef<'a, T> {
    type Prepared = T::Prepared;

    ghost may = { λ by_ref old. T.may by_ref.0.now old };

    ghost outcome = { λ by_ref old answer new. T.outcome by_ref.0.now old answer new };

    ghost content = { λ by_ref. T.content by_ref.0.now };

    #[inline]
    fn prepare(&self, builder: &mut Builder) -> Result<T::Prepared, BuildError> {
        let inner = self.0;
        inner.prepare(builder)
    }

    ghost is_lawful = { lawful_of (λ by_ref. by_ref.0.now) T.is_lawful };

    ghost has_content = { content_prepared_as (λ by_ref. by_ref.0.now) T.has_content };
}

impl<'a, P: Primitive, T: WriteAsOptional<P>> WriteAsOptional<P> for ByRef<'a, T> {
    type Prepared = T::Prepared;

    ghost may = { λ by_ref old. T.may by_ref.0.now old };

    ghost outcome = { λ by_ref old answer new. T.outcome by_ref.0.now old answer new };

    ghost content = { λ by_ref. T.content by_ref.0.now };

    #[inline]
    fn prepare(&self, builder: &mut Builder) -> Result<Option<T::Prepared>, BuildError> {
        let inner = self.0;
        inner.prepare(builder)
    }

    ghost is_lawful = { lawful_of (λ by_ref. by_ref.0.now) T.is_lawful };

    ghost has_content = { prepared_as (λ by_ref. by_ref.0.now) T.has_content };
}

impl<'a, P: Primitive, D, T: WriteAsDefault<P, D>> WriteAsDefault<P, D> for ByRef<'a, T> {
    type Prepared = T::Prepared;

    ghost may = { λ by_ref old. T.may by_ref.0.now old };

    ghost outcome = { λ by_ref default old answer new.
        T.outcome by_ref.0.now default old answer new };

    ghost content = { λ by_ref default. T.content by_ref.0.now default };

    #[inline]
    fn prepare(
        &self,
        builder: &mut Builder,
        default: &D,
    ) -> Result<Option<T::Prepared>, BuildError> {
        let inner = self.0;
        inner.prepare(builder, default)
    }

    ghost is_lawful = { λ default. lawful_of (λ by_ref. by_ref.0.now) (T.is_lawful default) };

    ghost has_content = { λ default. prepared_as (λ by_ref. by_ref.0.now) (T.has_content default) };
}

impl<'a, T, X: WriteAsOptionalUnion<T>> WriteAsOptionalUnion<T> for ByRef<'a, X> {
    ghost may = { λ by_ref old. X.may by_ref.0.now old };

    ghost outcome = { λ by_ref old answer new. X.outcome by_ref.0.now old answer new };

    ghost content = { λ by_ref. X.content by_ref.0.now };

    #[inline]
    fn prepare(&self, builder: &mut Builder) -> Result<Option<UnionOffset<T>>, BuildError> {
        let inner = self.0;
        inner.prepare(builder)
    }

    ghost is_lawful = { lawful_of (λ by_ref. by_ref.0.now) X.is_lawful };

    ghost has_content = { union_prepared_as (λ by_ref. by_ref.0.now) X.has_content };
}

impl<'a, T, X: WriteAsDefaultUnionVector<T>> WriteAsDefaultUnionVector<T> for ByRef<'a, X> {
    ghost may = { λ by_ref old. X.may by_ref.0.now old };

    ghost outcome = { λ by_ref old answer new. X.outcome by_ref.0.now old answer new };

    ghost contents = { λ by_ref. X.contents by_ref.0.now };

    #[inline]
    fn prepare(&self, builder: &mut Builder) -> Result<Option<UnionVectorOffset<T>>, BuildError> {
        let inner = self.0;
        inner.prepare(builder)
    }

    ghost is_lawful = { lawful_of (λ by_ref. by_ref.0.now) X.is_lawful };

    ghost has_contents = { union_vector_prepared_as (λ by_ref. by_ref.0.now) X.has_contents };
}

impl<'a, T, X: WriteAsOptionalUnionVector<T>> WriteAsOptionalUnionVector<T> for ByRef<'a, X> {
    ghost may = { λ by_ref old. X.may by_ref.0.now old };

    ghost outcome = { λ by_ref old answer new. X.outcome by_ref.0.now old answer new };

    ghost contents = { λ by_ref. X.contents by_ref.0.now };

    #[inline]
    fn prepare(&self, builder: &mut Builder) -> Result<Option<UnionVectorOffset<T>>, BuildError> {
        let inner = self.0;
        inner.prepare(builder)
    }

    ghost is_lawful = { lawful_of (λ by_ref. by_ref.0.now) X.is_lawful };

    ghost has_contents = { union_vector_prepared_as (λ by_ref. by_ref.0.now) X.has_contents };
}
