//! The fields of a table, as `create_table` takes them.
ghost use Rattle.std.specs.Prelude.{◌≡◌, ◌≤◌, ℕ, List, [], ◌∷◌, ◌++◌, length, IfOk, IsTrue, ⊤};
ghost use Rattle.std.specs.Prelude.{Option as option};
ghost use Rattle.planus_read.specs.Values.{Field};
ghost use Rattle.planus_write.specs.Placing.{Outcome, then_does};
ghost use Rattle.planus_write.specs.State.{State, Grows};
ghost use Rattle.planus_write.specs.Tables.{Declared};
ghost use Rattle.planus_write.specs.Contents.{Content};
ghost use Rattle.planus.specs.Contents.{WritesRest, value_content};
ghost use Rattle.planus.specs.Contents.{tag_content, tags_content, values_content};
ghost use Rattle.planus.specs.Preparing.{WritesFields, next_turn};
ghost use Rattle.planus.specs.TableFields.{all_of, field_in, union_value_in};
ghost use Rattle.planus.specs.TableFields.{union_tag_in, list_tags_in, list_values_in};
ghost use Rattle.planus.specs.TableRules.{can_hold};

use crate::tables::line::field_at::FieldAt;
use crate::tables::line::field_chain::FieldChain;
use crate::tables::line::trailing_field::TrailingField;
use crate::tables::line::union_at::UnionAt;
use crate::tables::line::union_parts::{tag_of, value_of};
use crate::tables::line::union_vector_at::UnionVectorAt;
use crate::tables::line::union_vector_parts::{TagsField, ValuesField, tags_of, values_of};
use crate::tables::write::{PreparedFields, Rest, TableWrite, Then};
use planus_fields::{WriteAsOptional, WriteAsOptionalUnion, WriteAsOptionalUnionVector};
use planus_write::{BuildError, Builder, List as ListOf, Offset, Primitive};
use std::marker::PhantomData;

/// The fields of a table: `()`, a line of [`fields`](crate::fields), a group, or a pair of fields.
///
/// Lines are nested as pairs of pairs, so that the depth of the type is logarithmic. No pair has a
/// constant parameter, which would double a caller's cost of proof per field.
///
/// The ghost members `all` and `all_last` are the entries of all fields, and of those written last.
/// `may` is the precondition.
pub trait Fields {
    ghost all: { List Declared };

    ghost all_last: { List Declared };

    ghost unions: { List (ℕ × ℕ) };

    ghost contents: { Self → List (ℕ × option Content) };

    ghost last_contents: { Self → List (ℕ × option Content) };

    /// The first error ends it.
    ghost in_turn: { Self
        → ((ts ls : List (List (ℕ × Field))) → Outcome (List (List (ℕ × Field))))
        → (ts ls : List (List (ℕ × Field))) → Outcome (List (List (ℕ × Field))) };

    ghost may: { Self → State → Type 0 };

    /// Prepares the fields in order, and goes on with those after them.
    fn write<T, W: TableWrite, B: PreparedFields, L: PreparedFields, R: Rest>(
        &self,
        others: &R,
        builder: &mut Builder,
        before: &B,
        last: &L,
    ) -> Result<Offset<T>, BuildError>
        requires may { may self.now builder.old }
        requires others { R.may others.now builder.old }
        requires rules { IsTrue (can_hold W.room
            ((B.all ++ (all ++ R.all)) ++ (L.all ++ (all_last ++ R.all_last)))) }
        requires before { B.reach before.now ≤ length builder.old.bytes }
        requires last { L.reach last.now ≤ length builder.old.bytes }
        ensures written { (ts ls : List (List (ℕ × Field))) → all_of ts ≡ B.there before.now
            → all_of ls ≡ L.there last.now
            → then_does (in_turn self.now (R.in_turn others.now) ts ls) WritesFields
            builder.old result builder.new }
        ensures kept { IfOk result (λ offset. WritesRest (B.there before.now) (L.there last.now)
            (contents self.now ++ R.contents others.now)
            (last_contents self.now ++ R.last_contents others.now)
            builder.old offset.distance builder.new) }
        ensures reached { IfOk result (λ offset. offset.distance ≤ length builder.new.bytes) }
        ensures grows { Grows builder.old builder.new };

    ghost stays: { (field : Self) (old new : State) → Grows old new → may field old
        → may field new };
}

impl Fields for () {
    ghost all = { [] };

    ghost all_last = { [] };

    ghost unions = { [] };

    ghost contents = { λ fields. [] };

    ghost last_contents = { λ fields. [] };

    ghost in_turn = { λ fields others. others };

    ghost may = { λ fields old. ⊤ };

    #[inline(always)]
    fn write<T, W: TableWrite, B: PreparedFields, L: PreparedFields, R: Rest>(
        &self,
        others: &R,
        builder: &mut Builder,
        before: &B,
        last: &L,
    ) -> Result<Offset<T>, BuildError> {
        others.write::<T, W, B, L>(builder, before, last)
    }

    ghost stays = { λ fields old new grows may. tt };
}

impl<F: Fields, S: Fields> Fields for (F, S) {
    ghost all = { F.all ++ S.all };

    ghost all_last = { F.all_last ++ S.all_last };

    ghost unions = { F.unions ++ S.unions };

    ghost contents = { λ fields. F.contents fields.0 ++ S.contents fields.1 };

    ghost last_contents = { λ fields. F.last_contents fields.0 ++ S.last_contents fields.1 };

    ghost in_turn = { λ fields others ts ls.
        F.in_turn fields.0 (S.in_turn fields.1 others) ts ls };

    ghost may = { λ fields old. F.may fields.0 old × S.may fields.1 old };

    #[inline(always)]
    fn write<T, W: TableWrite, B: PreparedFields, L: PreparedFields, R: Rest>(
        &self,
        others: &R,
        builder: &mut Builder,
        before: &B,
        last: &L,
    ) -> Result<Offset<T>, BuildError> {
        let then: Then<'_, S, R> = Then {
            first: &self.1,
            others,
        };
        self.0
            .write::<T, W, B, L, Then<'_, S, R>>(&then, builder, before, last)
    }

    ghost stays = { λ fields old new grows may. (
      F.stays fields.0 old new grows may.0,
      S.stays fields.1 old new grows may.1,
    ) };
}

impl<const SLOT: usize, P: Primitive, V: WriteAsOptional<P>> Fields for FieldAt<SLOT, P, V> {
    ghost all = { record { slot = SLOT; size = P.SIZE; alignment = P.ALIGNMENT } ∷ [] };

    ghost all_last = { [] };

    ghost unions = { [] };

    ghost contents = { λ field. (SLOT, V.content field.value) ∷ [] };

    ghost last_contents = { λ field. [] };

    ghost in_turn = { λ field others ts ls.
        next_turn (V.outcome field.value) (λ value. others
        (ts ++ field_in SLOT V.Prepared.field value ∷ []) ls) };

    ghost may = { λ field old. V.may field.value old };

    #[inline(always)]
    fn write<T, W: TableWrite, B: PreparedFields, L: PreparedFields, R: Rest>(
        &self,
        others: &R,
        builder: &mut Builder,
        before: &B,
        last: &L,
    ) -> Result<Offset<T>, BuildError> {
        let value = self.value.prepare(builder)?;
        let more: FieldChain<'_, SLOT, P, B, V::Prepared> = FieldChain {
            before,
            value: &value,
            _marker: PhantomData,
        };
        others.write::<T, W, FieldChain<'_, SLOT, P, B, V::Prepared>, L>(builder, &more, last)
    }

    ghost stays = { λ field old new grows may.
        V.is_lawful.stays field.value old new grows may };
}

impl<const SLOT: usize, P: Primitive, V: WriteAsOptional<P>> Fields for TrailingField<SLOT, P, V> {
    ghost all = { [] };

    ghost all_last = { record { slot = SLOT; size = P.SIZE; alignment = P.ALIGNMENT } ∷ [] };

    ghost unions = { [] };

    ghost contents = { λ field. [] };

    ghost last_contents = { λ field.
        (SLOT, V.content field.value) ∷ [] };

    ghost in_turn = { λ field others ts ls.
        next_turn (V.outcome field.value) (λ value. others
        ts (ls ++ field_in SLOT V.Prepared.field value ∷ [])) };

    ghost may = { λ field old. V.may field.value old };

    #[inline(always)]
    fn write<T, W: TableWrite, B: PreparedFields, L: PreparedFields, R: Rest>(
        &self,
        others: &R,
        builder: &mut Builder,
        before: &B,
        last: &L,
    ) -> Result<Offset<T>, BuildError> {
        let value = self.value.prepare(builder)?;
        let more: FieldChain<'_, SLOT, P, L, V::Prepared> = FieldChain {
            before: last,
            value: &value,
            _marker: PhantomData,
        };
        others.write::<T, W, B, FieldChain<'_, SLOT, P, L, V::Prepared>>(builder, before, &more)
    }

    ghost stays = { λ field old new grows may.
        V.is_lawful.stays field.value old new grows may };
}

impl<const TAG: usize, const VALUE: usize, U, V: WriteAsOptionalUnion<U>> Fields
    for UnionAt<TAG, VALUE, U, V> {
    ghost all = { record { slot = VALUE; size = 4; alignment = 4 } ∷ [] };

    ghost all_last = { record { slot = TAG; size = 1; alignment = 1 } ∷ [] };

    ghost unions = { (TAG, VALUE) ∷ [] };

    ghost contents = { λ field.
        (VALUE, value_content (V.content field.value)) ∷ [] };

    ghost last_contents = { λ field.
        (TAG, tag_content (V.content field.value)) ∷ [] };

    ghost in_turn = { λ field others ts ls.
        next_turn (V.outcome field.value) (λ union. others
        (ts ++ union_value_in VALUE union ∷ []) (ls ++ union_tag_in TAG union ∷ [])) };

    ghost may = { λ field old. V.may field.value old };

    #[inline(always)]
    fn write<T, W: TableWrite, B: PreparedFields, L: PreparedFields, R: Rest>(
        &self,
        others: &R,
        builder: &mut Builder,
        before: &B,
        last: &L,
    ) -> Result<Offset<T>, BuildError> {
        let union = self.value.prepare(builder)?;
        let value = value_of(&union);
        let tag = tag_of(&union);
        let more: FieldChain<'_, VALUE, Offset<()>, B, Offset<()>> = FieldChain {
            before,
            value: &value,
            _marker: PhantomData,
        };
        let more_last: FieldChain<'_, TAG, u8, L, u8> = FieldChain {
            before: last,
            value: &tag,
            _marker: PhantomData,
        };
        others.write::<
            T,
            W,
            FieldChain<'_, VALUE, Offset<()>, B, Offset<()>>,
            FieldChain<'_, TAG, u8, L, u8>,
        >(builder, &more, &more_last)
    }

    ghost stays = { λ field old new grows may.
        V.is_lawful.stays field.value old new grows may };
}

impl<const TAGS: usize, const VALUES: usize, U, V: WriteAsOptionalUnionVector<U>> Fields
    for UnionVectorAt<TAGS, VALUES, U, V> {
    ghost all = { record { slot = TAGS; size = 4; alignment = 4 }
        ∷ record { slot = VALUES; size = 4; alignment = 4 } ∷ [] };

    ghost all_last = { [] };

    ghost unions = { (TAGS, VALUES) ∷ [] };

    ghost contents = { λ field. (TAGS, tags_content (V.contents field.value))
        ∷ (VALUES, values_content (V.contents field.value)) ∷ [] };

    ghost last_contents = { λ field. [] };

    ghost in_turn = { λ field others ts ls.
        next_turn (V.outcome field.value) (λ vector. others
        ((ts ++ list_tags_in TAGS vector ∷ []) ++ list_values_in VALUES vector ∷ []) ls) };

    ghost may = { λ field old. V.may field.value old };

    #[inline(always)]
    fn write<T, W: TableWrite, B: PreparedFields, L: PreparedFields, R: Rest>(
        &self,
        others: &R,
        builder: &mut Builder,
        before: &B,
        last: &L,
    ) -> Result<Offset<T>, BuildError> {
        let vector = self.value.prepare(builder)?;
        let list_tags = tags_of(&vector);
        let list_values = values_of(&vector);
        let more: FieldChain<'_, TAGS, Offset<ListOf<u8>>, B, TagsField> = FieldChain {
            before,
            value: &list_tags,
            _marker: PhantomData,
        };
        let both: FieldChain<
            '_,
            VALUES,
            Offset<ListOf<Offset<()>>>,
            FieldChain<'_, TAGS, Offset<ListOf<u8>>, B, TagsField>,
            ValuesField,
        > = FieldChain {
            before: &more,
            value: &list_values,
            _marker: PhantomData,
        };
        others.write::<
            T,
            W,
            FieldChain<
                '_,
                VALUES,
                Offset<ListOf<Offset<()>>>,
                FieldChain<'_, TAGS, Offset<ListOf<u8>>, B, TagsField>,
                ValuesField,
            >,
            L,
        >(builder, &both, last)
    }

    ghost stays = { λ field old new grows may.
        V.is_lawful.stays field.value old new grows may };
}
