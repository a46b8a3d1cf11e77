//! A required field.
ghost use Rattle.std.specs.Prelude.{Some};
ghost use Rattle.planus_fields.specs.Fields.{AlwaysWritten};
ghost use Rattle.planus_fields.specs.lemmas.FieldLaws.{left_out_is_lawful};
ghost use Rattle.planus_write.specs.lemmas.Laws.{lawful_of};
ghost use Rattle.planus_fields.specs.lemmas.ContentLaws.{always_prepared};
ghost use Rattle.planus_write.specs.lemmas.ContentLaws.{content_prepared_as};

use planus_fields::{WriteAs, WriteAsOptional};
use planus_write::{BuildError, Builder, Primitive};

/// The value of a required field, which is always written.
#[derive(Debug, Drop)]
pub struct Required<V>(pub V);

impl<P: Primitive, V: WriteAs<P>> WriteAsOptional<P> for Required<V> {
    type Prepared = V::Prepared;

    ghost may = { λ required old. V.may required.0 old };

    ghost outcome = { λ required old answer new.
        AlwaysWritten (V.outcome required.0) old answer new };

    ghost content = { λ required. Some (V.content required.0) };

    #[inline]
    fn prepare(&self, builder: &mut Builder) -> Result<Option<V::Prepared>, BuildError> {
        Ok(Some(self.0.prepare(builder)?))
    }

    ghost is_lawful = { left_out_is_lawful (λ required. ⊥)
        (lawful_of (λ required. required.0) V.is_lawful) };

    ghost has_content = { always_prepared (content_prepared_as (λ required. required.0)
        V.has_content) };
}
