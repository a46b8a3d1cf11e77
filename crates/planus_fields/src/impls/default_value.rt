//! Fields that have their default.
ghost use Rattle.std.specs.Prelude.{None, ⊤};
ghost use Rattle.planus_write.specs.Preparing.{Answers};
ghost use Rattle.planus_fields.specs.lemmas.FieldLaws.{left_out_always_is_lawful};
ghost use Rattle.planus_fields.specs.lemmas.ContentLaws.{never_prepared};
ghost use Rattle.planus_fields.specs.lemmas.UnionContentLaws.{never_union_vector_prepared};

use crate::default_value::DefaultValue;
use crate::left_out::LeftOut;
use crate::traits::{WriteAsDefault, WriteAsDefaultUnionVector};
use planus_write::{BuildError, Builder, Primitive, UnionVectorOffset};

impl<P: Primitive, D> WriteAsDefault<P, D> for DefaultValue {
    type Prepared = LeftOut;

    ghost may = { λ value old. ⊤ };

    ghost outcome = { λ value default old answer new. Answers None old answer new };

    ghost content = { λ value default. None };

    #[inline]
    fn prepare(&self, _builder: &mut Builder, _default: &D) -> Result<Option<LeftOut>, BuildError> {
        Ok(None)
    }

    ghost is_lawful = { λ default. left_out_always_is_lawful };

    ghost has_content = { λ default. never_prepared };
}

impl<T> WriteAsDefaultUnionVector<T> for DefaultValue {
    ghost may = { λ value old. ⊤ };

    ghost outcome = { λ value old answer new. Answers None old answer new };

    ghost contents = { λ value. None };

    #[inline]
    fn prepare(&self, _builder: &mut Builder) -> Result<Option<UnionVectorOffset<T>>, BuildError> {
        Ok(None)
    }

    ghost is_lawful = { left_out_always_is_lawful };

    ghost has_contents = { never_union_vector_prepared };
}
