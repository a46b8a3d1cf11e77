//! Boxed fields are written as what is in the box.
ghost use Rattle.planus_write.specs.lemmas.Laws.{lawful_of};
ghost use Rattle.planus_write.specs.lemmas.ContentLaws.{content_prepared_as};
ghost use Rattle.planus_fields.specs.lemmas.ContentLaws.{prepared_as};
ghost use Rattle.planus_fields.specs.lemmas.UnionContentLaws.{union_prepared_as};

use crate::traits::{WriteAs, WriteAsDefault, WriteAsOptional, WriteAsOptionalUnion};
use planus_write::{BuildError, Builder, Primitive, UnionOffset};

impl<P: Primitive, T: WriteAs<P>> WriteAs<P> for Box<T> {
    type Prepared = T::Prepared;

    ghost may = { λ boxed old. T.may boxed.value old };

    ghost outcome = { λ boxed old answer new. T.outcome boxed.value old answer new };

    ghost content = { λ boxed. T.content boxed.value };

    #[inline]
    fn prepare(&self, builder: &mut Builder) -> Result<T::Prepared, BuildError> {
        let inner = &**self;
        inner.prepare(builder)
    }

    ghost is_lawful = { lawful_of (λ boxed. boxed.value) T.is_lawful };

    ghost has_content = { content_prepared_as (λ boxed. boxed.value) T.has_content };
}

impl<P: Primitive, T: WriteAsOptional<P>> WriteAsOptional<P> for Box<T> {
    type Prepared = T::Prepared;

    ghost may = { λ boxed old. T.may boxed.value old };

    ghost outcome = { λ boxed old answer new. T.outcome boxed.value old answer new };

    ghost content = { λ boxed. T.content boxed.value };

    #[inline]
    fn prepare(&self, builder: &mut Builder) -> Result<Option<T::Prepared>, BuildError> {
        let inner = &**self;
        inner.prepare(builder)
    }

    ghost is_lawful = { lawful_of (λ boxed. boxed.value) T.is_lawful };

    ghost has_content = { prepared_as (λ boxed. boxed.value) T.has_content };
}

impl<P: Primitive, D, T: WriteAsDefault<P, D>> WriteAsDefault<P, D> for Box<T> {
    type Prepared = T::Prepared;

    ghost may = { λ boxed old. T.may boxed.value old };

    ghost outcome = { λ boxed default old answer new.
        T.outcome boxed.value default old answer new };

    ghost content = { λ boxed default. T.content boxed.value default };

    #[inline]
    fn prepare(
        &self,
        builder: &mut Builder,
        default: &D,
    ) -> Result<Option<T::Prepared>, BuildError> {
        let inner = &**self;
        inner.prepare(builder, default)
    }

    ghost is_lawful = { λ default. lawful_of (λ boxed. boxed.value) (T.is_lawful default) };

    ghost has_content = { λ default. prepared_as (λ boxed. boxed.value) (T.has_content default) };
}

impl<T, X: WriteAsOptionalUnion<T>> WriteAsOptionalUnion<T> for Box<X> {
    ghost may = { λ boxed old. X.may boxed.value old };

    ghost outcome = { λ boxed old answer new. X.outcome boxed.value old answer new };

    ghost content = { λ boxed. X.content boxed.value };

    #[inline]
    fn prepare(&self, builder: &mut Builder) -> Result<Option<UnionOffset<T>>, BuildError> {
        let inner = &**self;
        inner.prepare(builder)
    }

    ghost is_lawful = { lawful_of (λ boxed. boxed.value) X.is_lawful };

    ghost has_content = { union_prepared_as (λ boxed. boxed.value) X.has_content };
}
