//! Tables `Monster`.

ghost use Rattle.std.specs.Prelude.{◌≡◌, ◌∷◌, [], codes, pos, MatchOption, ⊤, None};
ghost use Rattle.std.specs.Int.{w16};
ghost use Rattle.planus.specs.Printed.{i16_shape, IsIn, AllIn, AllUnionsIn, IsTextRequired};
ghost use Rattle.planus.specs.Printed.{IsBytesField, IsTableVector, text_kind, bytes_kind};
ghost use Rattle.planus.specs.Printed.{IsPlainFieldOr, IsUnionField, IsUnionVector, ReadsVariants};
ghost use Rattle.planus.specs.Printed.{tables, optional, required, signed_or, union, unions};
ghost use Rattle.planus.specs.Printed.{gives_as};
ghost use Rattle.monsters.specs.Equipment.{equipment_variants};
ghost use Rattle.monsters.specs.declared.equipment.Equipment.{Equipment};
ghost use Rattle.monsters.specs.declared.equipment.EquipmentRef.{EquipmentRef};
ghost use Rattle.monsters.specs.declared.weapon.Weapon.{Weapon};

use crate::equipment::{Equipment, EquipmentRef};
use crate::weapon::{Weapon, WeaponRef};
use planus::table_reader::Table;
use planus::{
    Builder, Built, ByteList, Create, List, Offset, OrDefault, Result, SliceWithStartOffset,
    Stride, TableKind, TableView, TableWriter, Text, UnionOffset, UnionVector, Vector, bytes_field,
    create_table, fields, plain_field_or, table_vector, text_required, union_field, union_vector,
};

/// The kind of `Monster`, and of an offset to one.
pub struct Monster;

/// The fields of `Monster`, as [`Monster::create`] takes them.
#[derive(Drop)]
pub struct MonsterFields<'a> {
    pub hp: i16,
    pub name: &'a str,
    pub inventory: Option<ByteList<'a>>,
    pub weapons: Option<&'a [Offset<Weapon>]>,
    pub equipped: Option<UnionOffset<Equipment>>,
    pub loot: &'a [UnionOffset<Equipment>],
}

impl Monster {
    /// Returns the fields with these, which are required, and the others by default.
    pub fn fields<'a>(name: &'a str) -> MonsterFields<'a>
        ensures given { (result.name ≡ name.entry) }
        ensures rest { let x = result in (x.hp ≡ (pos 100)) × (x.inventory ≡ None) ×
            (x.weapons ≡ None) × (x.equipped ≡ None) × (x.loot.now ≡ []) }
    {
        MonsterFields {
            hp: 100,
            name,
            inventory: None,
            weapons: None,
            equipped: None,
            loot: &[],
        }
    }
}

impl<'a> Create<MonsterFields<'a>> for Monster {
    ghost lines = { λ fields.
        required text_kind 1 fields.name ∷
        optional bytes_kind 2 fields.inventory ∷
        optional (tables Weapon) 3 fields.weapons ∷
        union equipment_variants 4 fields.equipped ∷
        unions EquipmentRef 6 fields.loot ∷
        signed_or i16_shape w16 0 (pos 100) fields.hp ∷ [] };

    ghost may = { λ fields builder. MatchOption fields.weapons ⊤ (λ x. AllIn builder x.now) ×
        MatchOption fields.equipped ⊤ (λ x. IsIn builder x.offset) ×
        AllUnionsIn builder fields.loot.now };

    fn create(builder: &mut Builder, fields: MonsterFields<'a>) -> Built<Monster> {
        let lines = fields![
            1: Offset<Text> = fields.name,
            2: Offset<List<u8>> = fields.inventory,
            3: Offset<List<Offset<Weapon>>> = fields.weapons,
            (4, 5): union Equipment = fields.equipped,
            (6, 7): unions Equipment = OrDefault { value: fields.loot, default: () },
            0: i16 = OrDefault { value: fields.hp, default: 100 },
        ];
        create_table::<Monster, _>(builder, lines)
    }
}

/// One in a buffer.
#[derive(Clone, Copy)]
pub struct MonsterRef<'a>(pub(crate) Table<'a>);

impl<'a> MonsterRef<'a> {
    /// Returns `hp`.
    pub fn hp(&self) -> Result<i16>
        ensures { IsPlainFieldOr i16_shape (pos 100) self.now.0 0 (codes "Monster") (codes "hp")
            result }
    {
        plain_field_or(&self.0, 0, 100, "Monster", "hp")
    }

    /// Returns `name`.
    pub fn name(&self) -> Result<&'a str>
        ensures { IsTextRequired self.now.0 1 (codes "Monster") (codes "name") result }
    {
        text_required(&self.0, 1, "Monster", "name")
    }

    /// Returns `inventory`.
    pub fn inventory(&self) -> Result<Option<&'a [u8]>>
        ensures { IsBytesField self.now.0 2 (codes "Monster") (codes "inventory") result }
    {
        bytes_field(&self.0, 2, "Monster", "inventory")
    }

    /// Returns `weapons`.
    pub fn weapons(&self) -> Result<Option<Vector<'a, Result<WeaponRef<'a>>>>>
        ensures { IsTableVector Weapon self.now.0 3 (codes "Monster") (codes "weapons") result }
    {
        table_vector(&self.0, 3, "Monster", "weapons")
    }

    /// Returns `equipped`.
    pub fn equipped(&self) -> Result<Option<EquipmentRef<'a>>>
        ensures { IsUnionField (ReadsVariants equipment_variants) self.now.0 4 (codes "Monster")
            (codes "equipped") Equipment result }
    {
        union_field::<Equipment, EquipmentRef<'a>>(&self.0, 4, "Monster", "equipped")
    }

    /// Returns `loot`.
    pub fn loot(&self) -> Result<Option<UnionVector<'a, EquipmentRef<'a>>>>
        ensures { IsUnionVector self.now.0 6 (codes "Monster") (codes "loot") result }
    {
        union_vector(&self.0, 6, "Monster", "loot")
    }
}

impl<'a> TableView<'a> for MonsterRef<'a> {
    type Kind = Monster;

    ghost table = { λ view. view.0 };

    fn of_table(read: Table<'a>) -> MonsterRef<'a> {
        MonsterRef(read)
    }
}

impl<'a> Stride for MonsterRef<'a> {
    type Stands = u32;
}

impl<'a> planus::ReadError for MonsterRef<'a> {
    type Error = planus::Error;
}

impl<'a> planus::VectorReadInner<'a> for MonsterRef<'a> {
    ghost gives = { gives_as (λ view. view.0) (codes "[MonsterRef]") };

    fn from_buffer(buffer: SliceWithStartOffset<'a>, offset: usize) -> Result<MonsterRef<'a>> {
        planus::read_item(buffer, offset)
    }
}

impl TableKind for Monster {
    type Writer = TableWriter<20>;

    ghost name = { codes "[MonsterRef]" };

    fn name() -> &'static str {
        "[MonsterRef]"
    }
}

impl<'a> std::fmt::Debug for MonsterRef<'a> {
    fn fmt<W: std::fmt::Write>(&self, f: &mut std::fmt::Formatter<W>) -> std::fmt::Result {
        let mut shown = f.debug_struct("MonsterRef");
        shown.field("hp", &self.hp());
        shown.field("name", &self.name());
        shown.field("inventory", &self.inventory());
        shown.field("weapons", &self.weapons());
        shown.field("equipped", &self.equipped());
        shown.field("loot", &self.loot());
        shown.finish()
    }
}
