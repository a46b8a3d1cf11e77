//! Optional fields.
ghost use Rattle.planus_fields.specs.Fields.{MayIf, PreparesIf};
ghost use Rattle.planus_fields.specs.lemmas.FieldLaws.{optional_is_lawful};
ghost use Rattle.planus_fields.specs.Contents.{holds_if, union_if, union_vector_if};
ghost use Rattle.planus_fields.specs.lemmas.ContentLaws.{optional_prepared};
ghost use Rattle.planus_fields.specs.lemmas.UnionContentLaws.{optional_union_prepared};
ghost use Rattle.planus_fields.specs.lemmas.UnionContentLaws.{optional_union_vector_prepared};

use crate::traits::{WriteAsOptional, WriteAsOptionalUnion, WriteAsOptionalUnionVector};
use planus_write::{BuildError, Builder, Primitive, UnionOffset, UnionVectorOffset};

impl<P: Primitive, T: WriteAsOptional<P>> WriteAsOptional<P> for Option<T> {
    type Prepared = T::Prepared;

    ghost may = { λ field old. MayIf T.may field old };

    ghost outcome = { λ field old answer new. PreparesIf T.outcome field old answer new };

    ghost content = { λ field. holds_if T.content field };

    #[inline]
    fn prepare(&self, builder: &mut Builder) -> Result<Option<T::Prepared>, BuildError> {
        match self {
            None => Ok(None),
            Some(field) => field.prepare(builder),
        }
    }

    ghost is_lawful = { optional_is_lawful T.is_lawful };

    ghost has_content = { optional_prepared T.has_content };
}

impl<T, X: WriteAsOptionalUnion<T>> WriteAsOptionalUnion<T> for Option<X> {
    ghost may = { λ field old. MayIf X.may field old };

    ghost outcome = { λ field old answer new. PreparesIf X.outcome field old answer new };

    ghost content = { λ field. union_if X.content field };

    #[inline]
    fn prepare(&self, builder: &mut Builder) -> Result<Option<UnionOffset<T>>, BuildError> {
        match self {
            None => Ok(None),
            Some(union) => union.prepare(builder),
        }
    }

    ghost is_lawful = { optional_is_lawful X.is_lawful };

    ghost has_content = { optional_union_prepared X.has_content };
}

impl<T, X: WriteAsOptionalUnionVector<T>> WriteAsOptionalUnionVector<T> for Option<X> {
    ghost may = { λ field old. MayIf X.may field old };

    ghost outcome = { λ field old answer new. PreparesIf X.outcome field old answer new };

    ghost contents = { λ field. union_vector_if X.contents field };

    #[inline]
    fn prepare(&self, builder: &mut Builder) -> Result<Option<UnionVectorOffset<T>>, BuildError> {
        match self {
            None => Ok(None),
            Some(vector) => vector.prepare(builder),
        }
    }

    ghost is_lawful = { optional_is_lawful X.is_lawful };

    ghost has_contents = { optional_union_vector_prepared X.has_contents };
}
