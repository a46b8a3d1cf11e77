//! Fields that are prepared by value.
ghost use Rattle.std.specs.Prelude.{ℕ, List, [], ◌∷◌, ◌++◌};
ghost use Rattle.std.specs.Prelude.{Option as option};
ghost use Rattle.planus_write.specs.Contents.{Content};
ghost use Rattle.planus_write.specs.Placing.{Outcome};
ghost use Rattle.planus_write.specs.Preparing.{IsLawful};
ghost use Rattle.planus_write.specs.State.{State};
ghost use Rattle.planus.specs.Contents.{PreparesContents};
ghost use Rattle.planus.specs.Preparing.{PreparesAs, PreparesBoth, Turn, TakeTurns};
ghost use Rattle.planus.specs.lemmas.GroupLaws.{field_is_lawful, field_has_contents};
ghost use Rattle.planus.specs.lemmas.GroupLaws.{field_takes_turn, both_take_turns};
ghost use Rattle.planus.specs.lemmas.GroupLaws.{both_are_lawful, both_have_contents};

use crate::tables::line::FieldAt;
use crate::tables::write::prepared_at::PreparedAt;
use crate::tables::write::prepared_fields::PreparedFields;
use planus_fields::WriteAsOptional;
use planus_write::{BuildError, Builder, Primitive};
use std::marker::PhantomData;

/// The fields of a group: one [`FieldAt`], or a pair of fields.
///
/// The ghost member `may` is the precondition, `contents` what each slot holds, and `turns` how the
/// fields are prepared one after another.
pub trait PrepareFields {
    /// The fields, prepared.
    type Prepared: PreparedFields + Drop;

    ghost may: { Self → State → Type 0 };

    ghost outcome: { Self → Outcome Self.Prepared };

    ghost contents: { Self → List (ℕ × option Content) };

    ghost turns: { Self → List Turn };

    /// Prepares the fields in order. The first error ends it.
    fn prepare(&self, builder: &mut Builder) -> Result<Self::Prepared, BuildError>
        requires { may self.now builder.old }
        ensures { outcome self.now builder.old result builder.new };

    ghost is_lawful: { IsLawful may outcome Self.Prepared.reach };

    ghost has_contents: { PreparesContents may outcome contents Self.Prepared.there };

    ghost take_turns: { TakeTurns outcome turns Self.Prepared.there };
}

impl<const SLOT: usize, P: Primitive, V: WriteAsOptional<P>> PrepareFields for FieldAt<SLOT, P, V> {
    type Prepared = PreparedAt<SLOT, P, V::Prepared>;

    ghost may = { λ field old. V.may field.value old };

    ghost outcome = { λ field old answer new.
        PreparesAs (λ prepared. prepared.value) (V.outcome field.value) old answer new };

    ghost contents = { λ field. (SLOT, V.content field.value) ∷ [] };

    ghost turns = { λ field. record {
      Prepared = V.Prepared;
      outcome = V.outcome field.value;
      slot = SLOT;
      as_field = V.Prepared.field;
    } ∷ [] };

    #[inline(always)]
    fn prepare(
        &self,
        builder: &mut Builder,
    ) -> Result<PreparedAt<SLOT, P, V::Prepared>, BuildError> {
        let value = self.value.prepare(builder)?;
        Ok(PreparedAt {
            value,
            _marker: PhantomData,
        })
    }

    ghost is_lawful = { field_is_lawful (λ field. field.value) (λ prepared. prepared.value)
        V.is_lawful };

    ghost has_contents = { field_has_contents (λ field. field.value) (λ prepared. prepared.value)
        SLOT V.has_content };

    ghost take_turns = { field_takes_turn V.outcome (λ field. field.value)
        (λ prepared. prepared.value) SLOT V.Prepared.field };
}

impl<F: PrepareFields, S: PrepareFields> PrepareFields for (F, S) {
    type Prepared = (F::Prepared, S::Prepared);

    ghost may = { λ fields old. F.may fields.0 old × S.may fields.1 old };

    ghost outcome = { λ fields old answer new.
        PreparesBoth (F.outcome fields.0) (S.outcome fields.1) old answer new };

    ghost contents = { λ fields. F.contents fields.0 ++ S.contents fields.1 };

    ghost turns = { λ fields. F.turns fields.0 ++ S.turns fields.1 };

    #[inline(always)]
    fn prepare(&self, builder: &mut Builder) -> Result<(F::Prepared, S::Prepared), BuildError> {
        let first = self.0.prepare(builder)?;
        let second = self.1.prepare(builder)?;
        Ok((first, second))
    }

    ghost is_lawful = { both_are_lawful F.is_lawful S.is_lawful };

    ghost has_contents = { both_have_contents F.is_lawful S.is_lawful F.has_contents
        S.has_contents };

    ghost take_turns = { both_take_turns F.take_turns S.take_turns };
}
