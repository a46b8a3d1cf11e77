//! Fields that are still to be prepared.
ghost use Rattle.std.specs.Prelude.{◌≡◌, ◌≤◌, ℕ, List, [], ◌++◌, length, IfOk, IsTrue, ⊤};
ghost use Rattle.std.specs.Prelude.{Option as option};
ghost use Rattle.planus_read.specs.Values.{Field};
ghost use Rattle.planus_write.specs.Placing.{Outcome, then_does};
ghost use Rattle.planus_write.specs.Preparing.{Answers};
ghost use Rattle.planus_write.specs.State.{State, Grows};
ghost use Rattle.planus_write.specs.Tables.{Declared};
ghost use Rattle.planus_write.specs.Contents.{Content};
ghost use Rattle.planus.specs.Contents.{WritesRest};
ghost use Rattle.planus.specs.Preparing.{WritesFields};
ghost use Rattle.planus.specs.TableFields.{all_of};
ghost use Rattle.planus.specs.TableRules.{can_hold};

use crate::tables::line::Fields;
use crate::tables::write::create::write_table;
use crate::tables::write::prepared_fields::PreparedFields;
use crate::tables::write::table_write::TableWrite;
use planus_write::{BuildError, Builder, Offset};

/// Fields that are still to be prepared: none, or a [`Then`]. The ghost members are those of
/// `Fields`.
pub trait Rest {
    ghost all: { List Declared };

    ghost all_last: { List Declared };

    ghost contents: { Self → List (ℕ × option Content) };

    ghost last_contents: { Self → List (ℕ × option Content) };

    /// All fields come first, and then all that come last. The first error ends it.
    ghost in_turn: { Self → (ts ls : List (List (ℕ × Field))) → Outcome (List (List (ℕ × Field))) };

    ghost may: { Self → State → Type 0 };

    /// Prepares the fields in order, and then writes the table of all.
    fn write<T, W: TableWrite, B: PreparedFields, L: PreparedFields>(
        &self,
        builder: &mut Builder,
        before: &B,
        last: &L,
    ) -> Result<Offset<T>, BuildError>
        requires may { may self.now builder.old }
        requires rules { IsTrue (can_hold W.room ((B.all ++ all) ++ (L.all ++ all_last))) }
        requires before { B.reach before.now ≤ length builder.old.bytes }
        requires last { L.reach last.now ≤ length builder.old.bytes }
        ensures written { (ts ls : List (List (ℕ × Field))) → all_of ts ≡ B.there before.now
            → all_of ls ≡ L.there last.now
            → then_does (in_turn self.now ts ls) WritesFields builder.old result builder.new }
        ensures kept { IfOk result (λ offset. WritesRest (B.there before.now) (L.there last.now)
            (contents self.now) (last_contents self.now)
            builder.old offset.distance builder.new) }
        ensures reached { IfOk result (λ offset. offset.distance ≤ length builder.new.bytes) }
        ensures grows { Grows builder.old builder.new };

    ghost stays: { (fields : Self) (old new : State) → Grows old new → may fields old
        → may fields new };
}

impl Rest for () {
    ghost all = { [] };

    ghost all_last = { [] };

    ghost contents = { λ rest. [] };

    ghost last_contents = { λ rest. [] };

    ghost in_turn = { λ rest ts ls. Answers (ts ++ ls) };

    ghost may = { λ rest old. ⊤ };

    #[inline(always)]
    fn write<T, W: TableWrite, B: PreparedFields, L: PreparedFields>(
        &self,
        builder: &mut Builder,
        before: &B,
        last: &L,
    ) -> Result<Offset<T>, BuildError> {
        write_table::<T, W, B, L>(builder, before, last)
    }

    ghost stays = { λ rest old new grows may. tt };
}

/// Some fields, and those after them.
#[derive(Drop)]
pub struct Then<'a, F, R> {
    pub first: &'a F,
    pub others: &'a R,
}

impl<'a, F: Fields, R: Rest> Rest for Then<'a, F, R> {
    ghost all = { F.all ++ R.all };

    ghost all_last = { F.all_last ++ R.all_last };

    ghost contents = { λ rest. F.contents rest.first.now ++ R.contents rest.others.now };

    ghost last_contents = { λ rest.
        F.last_contents rest.first.now ++ R.last_contents rest.others.now };

    ghost in_turn = { λ rest ts ls.
        F.in_turn rest.first.now (R.in_turn rest.others.now) ts ls };

    ghost may = { λ rest old. F.may rest.first.now old × R.may rest.others.now old };

    #[inline(always)]
    fn write<T, W: TableWrite, B: PreparedFields, L: PreparedFields>(
        &self,
        builder: &mut Builder,
        before: &B,
        last: &L,
    ) -> Result<Offset<T>, BuildError> {
        self.first
            .write::<T, W, B, L, R>(self.others, builder, before, last)
    }

    ghost stays = { λ rest old new grows may. (
      F.stays rest.first.now old new grows may.0,
      R.stays rest.others.now old new grows may.1,
    ) };
}
