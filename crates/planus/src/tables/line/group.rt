//! A group of fields as a line of a list.
ghost use Rattle.std.specs.Prelude.{[]};
ghost use Rattle.planus.specs.Preparing.{take_turns};

use crate::tables::line::field_group::FieldGroup;
use crate::tables::line::fields::Fields;
use crate::tables::line::group_chain::GroupChain;
use crate::tables::write::{PrepareFields, PreparedFields, Rest, TableWrite};
use planus_write::{BuildError, Builder, Offset};

/// The lines of a [`FieldGroup`], as one line.
#[derive(Drop)]
pub struct Group<G> {
    /// The value whose lines are written.
    pub value: G,
}

impl<G: FieldGroup> Fields for Group<G> {
    ghost all = { G.Lines.Prepared.all };

    ghost all_last = { [] };

    ghost unions = { [] };

    ghost contents = { λ group. G.Lines.contents (G.lines_of group.value) };

    ghost last_contents = { λ group. [] };

    ghost in_turn = { λ group others ts ls.
        take_turns (G.Lines.turns (G.lines_of group.value)) (λ more. others more ls) ts };

    ghost may = { λ group old. G.Lines.may (G.lines_of group.value) old };

    #[inline(always)]
    fn write<T, W: TableWrite, B: PreparedFields, L: PreparedFields, R: Rest>(
        &self,
        others: &R,
        builder: &mut Builder,
        before: &B,
        last: &L,
    ) -> Result<Offset<T>, BuildError> {
        let lines = self.value.lines();
        let prepared = lines.prepare(builder)?;
        let more: GroupChain<'_, B, G> = GroupChain {
            before,
            group: &prepared,
        };
        others.write::<T, W, GroupChain<'_, B, G>, L>(builder, &more, last)
    }

    ghost stays = { λ group old new grows may.
        G.Lines.is_lawful.stays (G.lines_of group.value) old new grows may };
}
