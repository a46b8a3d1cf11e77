//! One prepared field, and pairs of prepared fields, by value.
ghost use Rattle.std.specs.Prelude.{◌++◌, [], ◌∷◌, max};
ghost use Rattle.planus_fields.specs.Fields.{reach_if};
ghost use Rattle.planus.specs.lemmas.GroupLaws.{pair_stands, pair_among, max_itself};
ghost use Rattle.planus.specs.lemmas.PreparingLaws.{both_stand, both_among};
ghost use Rattle.planus.specs.TableFields.{field_in};

use crate::tables::line::{declare_if, write_if};
use crate::tables::write::prepared_fields::PreparedFields;
use crate::tables::write::table_write::TableWrite;
use planus_write::{ObjectWriter, Primitive, WriteAsPrimitive};
use std::marker::PhantomData;

/// A value for a slot, prepared, if it is present.
#[derive(Drop)]
pub struct PreparedAt<const SLOT: usize, P, A> {
    pub value: Option<A>,
    pub _marker: PhantomData<P>,
}

impl<const SLOT: usize, P: Primitive, A: WriteAsPrimitive<P>> PreparedFields
    for PreparedAt<SLOT, P, A> {
    ghost all = { record { slot = SLOT; size = P.SIZE; alignment = P.ALIGNMENT } ∷ [] };

    ghost there = { λ field. field_in SLOT A.field field.value };

    ghost reach = { λ field. reach_if A.reach field.value };

    #[inline(always)]
    fn declare<W: TableWrite>(&self, writer: &mut W) {
        declare_if::<P, A, W>(writer, SLOT, &self.value);
    }

    #[inline(always)]
    fn write(&self, writer: &mut ObjectWriter<'_>) {
        write_if::<P, A>(writer, &self.value);
    }

    ghost stand = { λ field before reached.
        both_stand SLOT A.field A.reach A.encoding P.SIZE P.ALIGNMENT A.is_item
        [] (reach_if A.reach field.value) field.value before
        (max_itself (reach_if A.reach field.value) before reached) (λ reached. tt) };

    ghost among = { λ field. both_among SLOT A.field A.reach A.encoding P.SIZE P.ALIGNMENT A.is_item
        [] [] field.value tt };
}

impl<F: PreparedFields, S: PreparedFields> PreparedFields for (F, S) {
    ghost all = { F.all ++ S.all };

    ghost there = { λ fields. F.there fields.0 ++ S.there fields.1 };

    ghost reach = { λ fields. max (F.reach fields.0) (S.reach fields.1) };

    #[inline(always)]
    fn declare<W: TableWrite>(&self, writer: &mut W) {
        self.0.declare::<W>(writer);
        self.1.declare::<W>(writer);
    }

    #[inline(always)]
    fn write(&self, writer: &mut ObjectWriter<'_>) {
        self.0.write(writer);
        self.1.write(writer);
    }

    ghost stand = { λ fields before reached. pair_stands (F.there fields.0) (S.there fields.1)
        (F.reach fields.0) (S.reach fields.1) before (F.stand fields.0 before)
        (S.stand fields.1 before) reached };

    ghost among = { λ fields. pair_among (F.there fields.0) (S.there fields.1) F.all S.all
        (F.among fields.0) (S.among fields.1) };
}
