//! Tables `Slip`.

ghost use Rattle.std.specs.Prelude.{◌≡◌, ◌∷◌, [], codes};
ghost use Rattle.planus.specs.Printed.{IsIn, IsUnionRequired, ReadsVariants, union_required};
ghost use Rattle.planus.specs.Printed.{gives_as};
ghost use Rattle.quay.specs.Berth.{berth_variants};

use crate::berth::{Berth, BerthRef};
use planus::table_reader::Table;
use planus::{
    Builder, Built, Create, Result, SliceWithStartOffset, Stride, TableKind, TableView,
    TableWriter, UnionOffset, create_table, fields, union_required,
};

/// The kind of `Slip`, and of an offset to one.
pub struct Slip;

/// The fields of `Slip`, as [`Slip::create`] takes them.
#[derive(Drop)]
pub struct SlipFields {
    pub berth: UnionOffset<Berth>,
}

impl Slip {
    /// Returns the fields with these, which are required, and the others by default.
    pub fn fields(berth: UnionOffset<Berth>) -> SlipFields
        ensures given { (result.berth ≡ berth) }
    {
        SlipFields { berth }
    }
}

impl Create<SlipFields> for Slip {
    ghost lines = { λ fields.
        union_required berth_variants 0 fields.berth ∷ [] };

    ghost may = { λ fields builder. IsIn builder fields.berth.offset };

    fn create(builder: &mut Builder, fields: SlipFields) -> Built<Slip> {
        let lines = fields![
            (0, 1): union Berth = fields.berth,
        ];
        create_table::<Slip, _>(builder, lines)
    }
}

/// One in a buffer.
#[derive(Clone, Copy)]
pub struct SlipRef<'a>(pub(crate) Table<'a>);

impl<'a> SlipRef<'a> {
    /// Returns `berth`.
    pub fn berth(&self) -> Result<BerthRef<'a>>
        ensures { IsUnionRequired (ReadsVariants berth_variants) self.now.0 0 (codes "Slip")
            (codes "berth") result }
    {
        union_required::<BerthRef<'a>>(&self.0, 0, "Slip", "berth")
    }
}

impl<'a> TableView<'a> for SlipRef<'a> {
    type Kind = Slip;

    ghost table = { λ view. view.0 };

    fn of_table(read: Table<'a>) -> SlipRef<'a> {
        SlipRef(read)
    }
}

impl<'a> Stride for SlipRef<'a> {
    type Stands = u32;
}

impl<'a> planus::ReadError for SlipRef<'a> {
    type Error = planus::Error;
}

impl<'a> planus::VectorReadInner<'a> for SlipRef<'a> {
    ghost gives = { gives_as (λ view. view.0) (codes "[SlipRef]") };

    fn from_buffer(buffer: SliceWithStartOffset<'a>, offset: usize) -> Result<SlipRef<'a>> {
        planus::read_item(buffer, offset)
    }
}

impl TableKind for Slip {
    type Writer = TableWriter<8>;

    ghost name = { codes "[SlipRef]" };

    fn name() -> &'static str {
        "[SlipRef]"
    }
}

impl<'a> std::fmt::Debug for SlipRef<'a> {
    fn fmt<W: std::fmt::Write>(&self, f: &mut std::fmt::Formatter<W>) -> std::fmt::Result {
        let mut shown = f.debug_struct("SlipRef");
        shown.field("berth", &self.berth());
        shown.finish()
    }
}
