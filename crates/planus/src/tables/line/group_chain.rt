//! A group of fields after those prepared before it.
ghost use Rattle.std.specs.Prelude.{◌++◌, max};
ghost use Rattle.planus.specs.lemmas.GroupLaws.{pair_stands, pair_among};

use crate::tables::line::field_group::FieldGroup;
use crate::tables::write::{PrepareFields, PreparedFields, TableWrite};
use planus_write::ObjectWriter;

/// Prepared fields, and a group of more, both borrowed.
#[derive(Drop)]
pub struct GroupChain<'a, B, G: FieldGroup> {
    pub before: &'a B,
    pub group: &'a <G::Lines as PrepareFields>::Prepared,
}

impl<'a, B: PreparedFields, G: FieldGroup> PreparedFields for GroupChain<'a, B, G> {
    ghost all = { B.all ++ G.Lines.Prepared.all };

    ghost there = { λ fields.
        B.there fields.before.now ++ G.Lines.Prepared.there fields.group.now };

    ghost reach = { λ fields.
        max (B.reach fields.before.now) (G.Lines.Prepared.reach fields.group.now) };

    #[inline(always)]
    fn declare<W: TableWrite>(&self, writer: &mut W) {
        self.before.declare::<W>(writer);
        self.group.declare::<W>(writer);
    }

    #[inline(always)]
    fn write(&self, writer: &mut ObjectWriter<'_>) {
        self.before.write(writer);
        self.group.write(writer);
    }

    ghost stand = { λ fields before reached. pair_stands (B.there fields.before.now)
        (G.Lines.Prepared.there fields.group.now) (B.reach fields.before.now)
        (G.Lines.Prepared.reach fields.group.now) before (B.stand fields.before.now before)
        (G.Lines.Prepared.stand fields.group.now before) reached };

    ghost among = { λ fields. pair_among (B.there fields.before.now)
        (G.Lines.Prepared.there fields.group.now) B.all G.Lines.Prepared.all
        (B.among fields.before.now) (G.Lines.Prepared.among fields.group.now) };
}
