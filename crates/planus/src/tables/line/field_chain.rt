//! One field after those prepared before it.
ghost use Rattle.std.specs.Prelude.{◌++◌, [], ◌∷◌, max};
ghost use Rattle.planus_fields.specs.Fields.{reach_if};
ghost use Rattle.planus.specs.lemmas.PreparingLaws.{both_stand, both_among};
ghost use Rattle.planus.specs.TableFields.{field_in};

use crate::tables::line::field_parts::{declare_if, write_if};
use crate::tables::write::{PreparedFields, TableWrite};
use planus_write::{ObjectWriter, Primitive, WriteAsPrimitive};
use std::marker::PhantomData;

/// Prepared fields, and one more, which may be absent. Both are borrowed, so that a list of any
/// fields has the size of two references.
#[derive(Drop)]
pub struct FieldChain<'a, const SLOT: usize, P, B, A> {
    pub before: &'a B,
    pub value: &'a Option<A>,
    pub _marker: PhantomData<P>,
}

impl<'a, const SLOT: usize, P: Primitive, B: PreparedFields, A: WriteAsPrimitive<P>> PreparedFields
    for FieldChain<'a, SLOT, P, B, A> {
    ghost all = { B.all ++ record { slot = SLOT; size = P.SIZE; alignment = P.ALIGNMENT } ∷ [] };

    ghost there = { λ fields.
        B.there fields.before.now ++ field_in SLOT A.field fields.value.now };

    ghost reach = { λ fields.
        max (B.reach fields.before.now) (reach_if A.reach fields.value.now) };

    #[inline(always)]
    fn declare<W: TableWrite>(&self, writer: &mut W) {
        self.before.declare::<W>(writer);
        declare_if::<P, A, W>(writer, SLOT, self.value);
    }

    #[inline(always)]
    fn write(&self, writer: &mut ObjectWriter<'_>) {
        self.before.write(writer);
        write_if::<P, A>(writer, self.value);
    }

    ghost stand = { λ fields before reached.
        both_stand SLOT A.field A.reach A.encoding P.SIZE P.ALIGNMENT A.is_item
        (B.there fields.before.now) (B.reach fields.before.now) fields.value.now before reached
        (B.stand fields.before.now before) };

    ghost among = { λ fields.
        both_among SLOT A.field A.reach A.encoding P.SIZE P.ALIGNMENT A.is_item
        (B.there fields.before.now) B.all fields.value.now (B.among fields.before.now) };
}
