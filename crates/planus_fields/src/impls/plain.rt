//! Values of a fixed layout: one implementation for all of them.
ghost use Rattle.std.specs.Prelude.{◌≡◌, IsTrue, ⊤, Some, refl};
ghost use Rattle.planus_write.specs.lemmas.Laws.{ready_is_lawful};
ghost use Rattle.planus_write.specs.Preparing.{Answers};
ghost use Rattle.planus_fields.specs.Fields.{AlwaysWritten, LeftOutWhere};
ghost use Rattle.planus_fields.specs.lemmas.FieldLaws.{left_out_is_lawful};
ghost use Rattle.planus_read.specs.Values.{plain};
ghost use Rattle.planus_write.specs.Contents.{item};
ghost use Rattle.planus_fields.specs.Contents.{unless};
ghost use Rattle.planus_write.specs.lemmas.ContentLaws.{ready_prepared};
ghost use Rattle.planus_fields.specs.lemmas.ContentLaws.{always_prepared, left_out_prepared};

use crate::plain_field::PlainField;
use crate::traits::{WriteAs, WriteAsDefault, WriteAsOptional};
use planus_write::{BuildError, Builder};

impl<P: PlainField> WriteAs<P> for P {
    type Prepared = P;

    ghost may = { λ x old. ⊤ };

    ghost outcome = { Answers };

    ghost content = { λ x. item (record { bytes = (P.shape).encoded x; alignment = P.ALIGNMENT }) };

    #[inline]
    fn prepare(&self, _builder: &mut Builder) -> Result<P, BuildError> {
        Ok(*self)
    }

    ghost is_lawful = { ready_is_lawful };

    ghost has_content = { ready_prepared
        (λ x. item (record { bytes = (P.shape).encoded x; alignment = P.ALIGNMENT }))
        (λ x. plain (record { bytes = (P.shape).encoded x; alignment = P.ALIGNMENT }))
        (λ x history. refl) };
}

impl<P: PlainField> WriteAsOptional<P> for P {
    type Prepared = P;

    ghost may = { λ x old. ⊤ };

    ghost outcome = { λ x old answer new. AlwaysWritten (Answers x) old answer new };

    ghost content = { λ x.
        Some (item (record { bytes = (P.shape).encoded x; alignment = P.ALIGNMENT })) };

    #[inline]
    fn prepare(&self, _builder: &mut Builder) -> Result<Option<P>, BuildError> {
        Ok(Some(*self))
    }

    ghost is_lawful = { left_out_is_lawful (λ x. ⊥) (ready_is_lawful) };

    ghost has_content = { always_prepared (ready_prepared
        (λ x. item (record { bytes = (P.shape).encoded x; alignment = P.ALIGNMENT }))
        (λ x. plain (record { bytes = (P.shape).encoded x; alignment = P.ALIGNMENT }))
        (λ x history. refl)) };
}

impl<P: PlainField + PartialEq> WriteAsDefault<P, P> for P {
    type Prepared = P;

    ghost may = { λ x old. ⊤ };

    ghost outcome = { λ x default old answer new.
        LeftOutWhere (IsTrue (P.eq x default)) (Answers x) old answer new };

    ghost content = { λ x default. unless (P.eq x default)
        (Some (item (record { bytes = (P.shape).encoded x; alignment = P.ALIGNMENT }))) };

    #[inline]
    fn prepare(&self, _builder: &mut Builder, default: &P) -> Result<Option<P>, BuildError> {
        if *self == *default {
            return Ok(None);
        }
        Ok(Some(*self))
    }

    ghost is_lawful = { λ default.
        left_out_is_lawful (λ x. IsTrue (P.eq x default)) (ready_is_lawful) };

    ghost has_content = { λ default. left_out_prepared (λ x. P.eq x default)
        (λ x. IsTrue (P.eq x default)) (λ x. ((λ h. h), (λ h. h)))
        (ready_prepared
        (λ x. item (record { bytes = (P.shape).encoded x; alignment = P.ALIGNMENT }))
        (λ x. plain (record { bytes = (P.shape).encoded x; alignment = P.ALIGNMENT }))
        (λ x history. refl)) };
}

impl PlainField for u8 {}

impl PlainField for u16 {}

impl PlainField for u32 {}

impl PlainField for u64 {}

impl PlainField for i8 {}

impl PlainField for i16 {}

impl PlainField for i32 {}

impl PlainField for i64 {}

impl PlainField for bool {}

impl PlainField for f32 {}

impl PlainField for f64 {}
