//! Offsets: values that are written already.
ghost use Rattle.std.specs.Prelude.{◌≤◌, length, Some, refl};
ghost use Rattle.planus_write.specs.Preparing.{IsPrepared};
ghost use Rattle.planus_write.specs.lemmas.Laws.{offset_is_lawful};
ghost use Rattle.planus_fields.specs.Fields.{AlwaysWritten};
ghost use Rattle.planus_fields.specs.lemmas.FieldLaws.{left_out_is_lawful};
ghost use Rattle.planus_read.specs.Values.{reference};
ghost use Rattle.planus_write.specs.Contents.{written};
ghost use Rattle.planus_write.specs.lemmas.ContentLaws.{ready_prepared};
ghost use Rattle.planus_fields.specs.lemmas.ContentLaws.{always_prepared};

use crate::traits::{WriteAs, WriteAsDefault, WriteAsOptional};
use planus_write::{BuildError, Builder, Offset};

impl<T> WriteAs<Offset<T>> for Offset<T> {
    type Prepared = Offset<T>;

    ghost may = { λ offset old. offset.distance ≤ length old.bytes };

    ghost outcome = { λ offset old answer new. IsPrepared offset old answer new };

    ghost content = { λ offset. written offset.distance };

    #[inline]
    fn prepare(&self, _builder: &mut Builder) -> Result<Offset<T>, BuildError> {
        Ok(*self)
    }

    ghost is_lawful = { offset_is_lawful };

    ghost has_content = { ready_prepared (λ offset. written offset.distance)
        (λ offset. reference offset.distance) (λ offset history. refl) };
}

impl<T> WriteAsOptional<Offset<T>> for Offset<T> {
    type Prepared = Offset<T>;

    ghost may = { λ offset old. offset.distance ≤ length old.bytes };

    ghost outcome = { λ offset old answer new. AlwaysWritten (IsPrepared offset) old answer new };

    ghost content = { λ offset. Some (written offset.distance) };

    #[inline]
    fn prepare(&self, _builder: &mut Builder) -> Result<Option<Offset<T>>, BuildError> {
        Ok(Some(*self))
    }

    ghost is_lawful = { left_out_is_lawful (λ offset. ⊥) (offset_is_lawful) };

    ghost has_content = { always_prepared (ready_prepared (λ offset. written offset.distance)
        (λ offset. reference offset.distance) (λ offset history. refl)) };
}

impl<T, D> WriteAsDefault<Offset<T>, D> for Offset<T> {
    type Prepared = Offset<T>;

    ghost may = { λ offset old. offset.distance ≤ length old.bytes };

    ghost outcome = { λ offset default old answer new.
        AlwaysWritten (IsPrepared offset) old answer new };

    ghost content = { λ offset default. Some (written offset.distance) };

    #[inline]
    fn prepare(
        &self,
        _builder: &mut Builder,
        _default: &D,
    ) -> Result<Option<Offset<T>>, BuildError> {
        Ok(Some(*self))
    }

    ghost is_lawful = { λ default. left_out_is_lawful (λ offset. ⊥) (offset_is_lawful) };

    ghost has_content = { λ default. always_prepared (ready_prepared
        (λ offset. written offset.distance)
        (λ offset. reference offset.distance) (λ offset history. refl)) };
}
