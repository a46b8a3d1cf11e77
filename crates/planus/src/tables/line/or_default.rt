//! A field with a default.
ghost use Rattle.planus_write.specs.lemmas.Laws.{lawful_of};
ghost use Rattle.planus_fields.specs.lemmas.UnionContentLaws.{union_vector_prepared_as};

use planus_fields::{
    WriteAsDefault, WriteAsDefaultUnionVector, WriteAsOptional, WriteAsOptionalUnionVector,
};
use planus_write::{BuildError, Builder, Primitive, UnionVectorOffset};

/// A value that is left out where it is the default, which for a vector or a union vector is `()`.
#[derive(Debug, Drop)]
pub struct OrDefault<V, D> {
    /// The value.
    pub value: V,
    /// The default in the schema.
    pub default: D,
}

impl<P: Primitive, D, V: WriteAsDefault<P, D>> WriteAsOptional<P> for OrDefault<V, D> {
    type Prepared = V::Prepared;

    ghost may = { λ field old. V.may field.value old };

    ghost outcome = { λ field old answer new. V.outcome field.value field.default old answer new };

    ghost content = { λ field. V.content field.value field.default };

    #[inline]
    fn prepare(&self, builder: &mut Builder) -> Result<Option<V::Prepared>, BuildError> {
        self.value.prepare(builder, &self.default)
    }

    ghost is_lawful = { record {
      grows = λ field. (V.is_lawful field.default).grows field.value;
      reaches = λ field. (V.is_lawful field.default).reaches field.value;
      stays = λ field. (V.is_lawful field.default).stays field.value;
    } };

    ghost has_content = { record {
      comes = λ field. (V.has_content field.default).comes field.value;
    } };
}

impl<T, V: WriteAsDefaultUnionVector<T>> WriteAsOptionalUnionVector<T> for OrDefault<V, ()> {
    ghost may = { λ field old. V.may field.value old };

    ghost outcome = { λ field old answer new. V.outcome field.value old answer new };

    ghost contents = { λ field. V.contents field.value };

    #[inline]
    fn prepare(&self, builder: &mut Builder) -> Result<Option<UnionVectorOffset<T>>, BuildError> {
        self.value.prepare(builder)
    }

    ghost is_lawful = { lawful_of (λ field. field.value) V.is_lawful };

    ghost has_contents = { union_vector_prepared_as (λ field. field.value) V.has_contents };
}
