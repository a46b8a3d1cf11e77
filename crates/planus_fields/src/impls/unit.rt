//! No field at all.
ghost use Rattle.std.specs.Prelude.{None, ⊤};
ghost use Rattle.planus_write.specs.Preparing.{Answers};
ghost use Rattle.planus_fields.specs.lemmas.FieldLaws.{left_out_always_is_lawful};
ghost use Rattle.planus_fields.specs.lemmas.ContentLaws.{never_prepared};
ghost use Rattle.planus_fields.specs.lemmas.UnionContentLaws.{never_union_prepared};
ghost use Rattle.planus_fields.specs.lemmas.UnionContentLaws.{never_union_vector_prepared};

use crate::left_out::LeftOut;
use crate::traits::{WriteAsOptional, WriteAsOptionalUnion, WriteAsOptionalUnionVector};
use planus_write::{BuildError, Builder, Primitive, UnionOffset, UnionVectorOffset};

impl<P: Primitive> WriteAsOptional<P> for () {
    type Prepared = LeftOut;

    ghost may = { λ unit old. ⊤ };

    ghost outcome = { λ unit old answer new. Answers None old answer new };

    ghost content = { λ unit. None };

    #[inline]
    fn prepare(&self, _builder: &mut Builder) -> Result<Option<LeftOut>, BuildError> {
        Ok(None)
    }

    ghost is_lawful = { left_out_always_is_lawful };

    ghost has_content = { never_prepared };
}

impl<T> WriteAsOptionalUnion<T> for () {
    ghost may = { λ unit old. ⊤ };

    ghost outcome = { λ unit old answer new. Answers None old answer new };

    ghost content = { λ unit. None };

    #[inline]
    fn prepare(&self, _builder: &mut Builder) -> Result<Option<UnionOffset<T>>, BuildError> {
        Ok(None)
    }

    ghost is_lawful = { left_out_always_is_lawful };

    ghost has_content = { never_union_prepared };
}

impl<T> WriteAsOptionalUnionVector<T> for () {
    ghost may = { λ unit old. ⊤ };

    ghost outcome = { λ unit old answer new. Answers None old answer new };

    ghost contents = { λ unit. None };

    #[inline]
    fn prepare(&self, _builder: &mut Builder) -> Result<Option<UnionVectorOffset<T>>, BuildError> {
        Ok(None)
    }

    ghost is_lawful = { left_out_always_is_lawful };

    ghost has_contents = { never_union_vector_prepared };
}
