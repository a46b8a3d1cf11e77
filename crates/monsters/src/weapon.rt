//! Tables `Weapon`.

ghost use Rattle.std.specs.Prelude.{◌∷◌, [], codes, pos};
ghost use Rattle.std.specs.Int.{w16};
ghost use Rattle.planus.specs.Printed.{i16_shape, IsTextField, text_kind, IsPlainFieldOr};
ghost use Rattle.planus.specs.Printed.{optional, signed_or, gives_as};

use planus::table_reader::Table;
use planus::{
    Builder, Built, Create, Offset, OrDefault, Result, SliceWithStartOffset, Stride, TableKind,
    TableView, TableWriter, Text, create_table, fields, plain_field_or, text_field,
};

/// What a monster carries.
pub struct Weapon;

/// The fields of `Weapon`, as [`Weapon::create`] takes them.
#[derive(Default, Drop)]
pub struct WeaponFields<'a> {
    pub name: Option<&'a str>,
    pub damage: i16,
}

impl<'a> Create<WeaponFields<'a>> for Weapon {
    ghost lines = { λ fields.
        optional text_kind 0 fields.name ∷
        signed_or i16_shape w16 1 (pos 0) fields.damage ∷ [] };

    fn create(builder: &mut Builder, fields: WeaponFields<'a>) -> Built<Weapon> {
        let lines = fields![
            0: Offset<Text> = fields.name,
            1: i16 = OrDefault { value: fields.damage, default: 0 },
        ];
        create_table::<Weapon, _>(builder, lines)
    }
}

/// One in a buffer.
#[derive(Clone, Copy)]
pub struct WeaponRef<'a>(pub(crate) Table<'a>);

impl<'a> WeaponRef<'a> {
    /// Returns `name`.
    pub fn name(&self) -> Result<Option<&'a str>>
        ensures { IsTextField self.now.0 0 (codes "Weapon") (codes "name") result }
    {
        text_field(&self.0, 0, "Weapon", "name")
    }

    /// Returns `damage`.
    pub fn damage(&self) -> Result<i16>
        ensures { IsPlainFieldOr i16_shape (pos 0) self.now.0 1 (codes "Weapon") (codes "damage")
            result }
    {
        plain_field_or(&self.0, 1, 0, "Weapon", "damage")
    }
}

impl<'a> TableView<'a> for WeaponRef<'a> {
    type Kind = Weapon;

    ghost table = { λ view. view.0 };

    fn of_table(read: Table<'a>) -> WeaponRef<'a> {
        WeaponRef(read)
    }
}

impl<'a> Stride for WeaponRef<'a> {
    type Stands = u32;
}

impl<'a> planus::ReadError for WeaponRef<'a> {
    type Error = planus::Error;
}

impl<'a> planus::VectorReadInner<'a> for WeaponRef<'a> {
    ghost gives = { gives_as (λ view. view.0) (codes "[WeaponRef]") };

    fn from_buffer(buffer: SliceWithStartOffset<'a>, offset: usize) -> Result<WeaponRef<'a>> {
        planus::read_item(buffer, offset)
    }
}

impl TableKind for Weapon {
    type Writer = TableWriter<8>;

    ghost name = { codes "[WeaponRef]" };

    fn name() -> &'static str {
        "[WeaponRef]"
    }
}

impl<'a> std::fmt::Debug for WeaponRef<'a> {
    fn fmt<W: std::fmt::Write>(&self, f: &mut std::fmt::Formatter<W>) -> std::fmt::Result {
        let mut shown = f.debug_struct("WeaponRef");
        shown.field("name", &self.name());
        shown.field("damage", &self.damage());
        shown.finish()
    }
}
