//! Tables `Fee`.

ghost use Rattle.std.specs.Prelude.{◌≡◌, ◌∷◌, [], codes};
ghost use Rattle.planus.specs.Printed.{u32_shape, IsPlainFieldOr, plain_or, number_or, gives_as};
ghost use Rattle.quay.specs.Gear.{gear_shape};
ghost use Rattle.quay.specs.declared.gear.Gear.TheVariants as gear_value;

use crate::gear::Gear;
use planus::table_reader::Table;
use planus::{
    Builder, Built, Create, OrDefault, Result, SliceWithStartOffset, Stride, TableKind, TableView,
    TableWriter, create_table, fields, plain_field_or,
};

/// The kind of `Fee`, and of an offset to one.
pub struct Fee;

/// The fields of `Fee`, as [`Fee::create`] takes them.
#[derive(Drop)]
pub struct FeeFields {
    pub gear: Gear,
    pub euros: u32,
}

impl Default for FeeFields {
    ghost is_default = { λ x. (x.gear ≡ gear_value.Hook) × (x.euros ≡ 0) };

    fn default() -> FeeFields {
        FeeFields {
            gear: Gear::Hook,
            euros: 0,
        }
    }
}

impl Create<FeeFields> for Fee {
    ghost lines = { λ fields.
        number_or u32_shape 1 0 fields.euros ∷
        plain_or gear_shape ⟦<Gear as PartialEq>⟧.eq 0 gear_value.Hook fields.gear ∷ [] };

    fn create(builder: &mut Builder, fields: FeeFields) -> Built<Fee> {
        let lines = fields![
            1: u32 = OrDefault { value: fields.euros, default: 0 },
            0: Gear = OrDefault { value: fields.gear, default: Gear::Hook },
        ];
        create_table::<Fee, _>(builder, lines)
    }
}

/// One in a buffer.
#[derive(Clone, Copy)]
pub struct FeeRef<'a>(pub(crate) Table<'a>);

impl<'a> FeeRef<'a> {
    /// Returns `gear`.
    pub fn gear(&self) -> Result<Gear>
        ensures { IsPlainFieldOr gear_shape gear_value.Hook self.now.0 0 (codes "Fee")
            (codes "gear") result }
    {
        plain_field_or(&self.0, 0, Gear::Hook, "Fee", "gear")
    }

    /// Returns `euros`.
    pub fn euros(&self) -> Result<u32>
        ensures { IsPlainFieldOr u32_shape 0 self.now.0 1 (codes "Fee") (codes "euros") result }
    {
        plain_field_or(&self.0, 1, 0, "Fee", "euros")
    }
}

impl<'a> TableView<'a> for FeeRef<'a> {
    type Kind = Fee;

    ghost table = { λ view. view.0 };

    fn of_table(read: Table<'a>) -> FeeRef<'a> {
        FeeRef(read)
    }
}

impl<'a> Stride for FeeRef<'a> {
    type Stands = u32;
}

impl<'a> planus::ReadError for FeeRef<'a> {
    type Error = planus::Error;
}

impl<'a> planus::VectorReadInner<'a> for FeeRef<'a> {
    ghost gives = { gives_as (λ view. view.0) (codes "[FeeRef]") };

    fn from_buffer(buffer: SliceWithStartOffset<'a>, offset: usize) -> Result<FeeRef<'a>> {
        planus::read_item(buffer, offset)
    }
}

impl TableKind for Fee {
    type Writer = TableWriter<8>;

    ghost name = { codes "[FeeRef]" };

    fn name() -> &'static str {
        "[FeeRef]"
    }
}

impl<'a> std::fmt::Debug for FeeRef<'a> {
    fn fmt<W: std::fmt::Write>(&self, f: &mut std::fmt::Formatter<W>) -> std::fmt::Result {
        let mut shown = f.debug_struct("FeeRef");
        shown.field("gear", &self.gear());
        shown.field("euros", &self.euros());
        shown.finish()
    }
}

impl<'a> planus_keys::KeyOf<FeeRef<'a>> for Fee {
    type Key = Gear;

    type Error = planus::Error;

    ghost is_key = { λ _ view key. IsPlainFieldOr gear_shape gear_value.Hook view.0 0 (codes "Fee")
        (codes "gear") key };

    fn key(&self, view: &FeeRef<'a>) -> Result<Gear> {
        view.gear()
    }
}
