//! A table with a field of each kind, as in generated code:
//!
//! ```text
//! table Monster {
//!   hp: int16 = 100; name: string (required); inventory: [uint8]; weapons: [Weapon];
//!   equipped: Equipment; loot: [Equipment];
//! }
//! ```

ghost use Rattle.std.specs.Prelude.{◌≡◌, ◌≤◌, length, pos, codes, IfOk};
ghost use Rattle.std.specs.Int.{w16};
ghost use Rattle.planus_read.specs.Clauses.{Answer, shown};
ghost use Rattle.planus_read.specs.Located.{Located, Required as IsThere, OrDefault as OrElse};
ghost use Rattle.planus_read.specs.Slices.{ShowsBytes};
ghost use Rattle.planus_read.specs.Reading.{text_reading, byte_list_reading, signed_reading};
ghost use Rattle.planus_read.specs.Reading.{vector_reading, union_vector_reading, table_reading};
ghost use Rattle.planus_read.specs.Tables.{FieldAnswer, UnionAnswer, UnionVectorAnswer};
ghost use Rattle.planus_read.specs.Tables.{table_start};
ghost use Rattle.planus_write.specs.State.{Grows};
ghost use Rattle.planus.specs.Contents.{WritesContents};
ghost use Rattle.planus_view.specs.VectorView.{ShowsVector};
ghost use Rattle.planus_view.specs.UnionVectorView.{ShowsUnionVector};
ghost use Rattle.planus_demo.specs.Equipments.{ReadsEquipment};
ghost use Rattle.planus_demo.specs.Monsters.{WritesMonster, monster_contents};
ghost use Rattle.planus_demo.specs.MonsterViews.{monster_table, ShowsMonster};

use crate::equipment::Equipment;
use crate::equipment_ref::EquipmentRef;
use crate::weapon::{Weapon, WeaponRef};
use planus::errors::ErrorKind;
use planus::table_reader::Table;
use planus::{
    BuildError, Builder, ByRef, List, Offset, OrDefault, ReadAsRoot, Required, Result,
    SliceWithStartOffset, TableKind, TableRead, TableWriter, Text, UnionVector, Vector, WriteAs,
    WriteAsDefault, WriteAsOptional, WriteAsOptionalUnion, WriteAsOptionalUnionVector,
    create_table, fields,
};

/// The kind of an offset to a monster.
pub struct Monster;

impl Monster {
    /// Writes a monster, and returns its offset. Its fields are prepared in order; hit points of
    /// 100 are left out. Requirements and errors are those of [`Builder::create_vector`].
    pub fn create<H, N, I, W, E, L>(
        builder: &mut Builder,
        hp: H,
        name: N,
        inventory: I,
        weapons: W,
        equipped: E,
        loot: L,
    ) -> std::result::Result<Offset<Monster>, BuildError>
    where
        H: WriteAsDefault<i16, i16> + Drop,
        N: WriteAs<Offset<Text>> + Drop,
        I: WriteAsOptional<Offset<List<u8>>> + Drop,
        W: WriteAsOptional<Offset<List<Offset<Weapon>>>> + Drop,
        E: WriteAsOptionalUnion<Equipment> + Drop,
        L: WriteAsOptionalUnionVector<Equipment> + Drop,
        requires hp { H.may hp builder.old }
        requires name { N.may name builder.old }
        requires inventory { I.may inventory builder.old }
        requires weapons { W.may weapons builder.old }
        requires equipped { E.may equipped builder.old }
        requires loot { L.may loot builder.old }
        ensures written { WritesMonster
            (H.outcome hp (pos 100)) H.Prepared.field (N.outcome name) N.Prepared.field
            (I.outcome inventory) I.Prepared.field (W.outcome weapons) W.Prepared.field
            (E.outcome equipped) (L.outcome loot) builder.old result builder.new }
        ensures kept { IfOk result (λ offset. WritesContents
            (monster_contents (H.content hp (pos 100)) (N.content name) (I.content inventory)
            (W.content weapons) (E.content equipped) (L.contents loot))
            builder.old offset.distance builder.new) }
        ensures grows { Grows builder.old builder.new }
        ensures reached { IfOk result (λ offset. offset.distance ≤ length builder.new.bytes) }
    {
        let hp = OrDefault {
            value: ByRef(&hp),
            default: 100,
        };
        let fields = fields![
            0: last i16 = hp,
            1: Offset<Text> = Required(ByRef(&name)),
            2: Offset<List<u8>> = ByRef(&inventory),
            3: Offset<List<Offset<Weapon>>> = ByRef(&weapons),
            (4, 5): union Equipment = ByRef(&equipped),
            (6, 7): unions Equipment = ByRef(&loot),
        ];
        create_table::<Monster, _>(builder, fields)
    }
}

impl TableKind for Monster {
    type Writer = TableWriter<20>;

    ghost name = { codes "[MonsterRef]" };

    fn name() -> &'static str
        ensures { result.now ≡ codes "[MonsterRef]" }
    {
        "[MonsterRef]"
    }
}

/// A monster in a buffer.
#[derive(Clone, Copy)]
pub struct MonsterRef<'a> {
    table: Table<'a>,
}

impl<'a> MonsterRef<'a> {
    /// Returns the hit points, 100 if absent. Fails like a field `i16`.
    pub fn hp(&self) -> Result<i16>
        ensures { Located (OrElse (pos 100) (FieldAnswer
            (λ S start f r. Answer (signed_reading S f w16) r) (monster_table self.now) 0))
            (codes "Monster") (codes "hp") (table_start (monster_table self.now)) result }
    {
        Ok(self.table.access::<i16>(0, "Monster", "hp")?.unwrap_or(100))
    }

    /// Returns the name. Fails with [`ErrorKind::MissingRequired`] if it is absent, or like a field
    /// `&str`.
    pub fn name(&self) -> Result<&'a str>
        ensures { Located (IsThere (FieldAnswer
            (λ S start f r. Answer (shown ShowsBytes (text_reading S f)) r)
            (monster_table self.now) 1))
            (codes "Monster") (codes "name") (table_start (monster_table self.now)) result }
    {
        self.table.access_required::<&str>(1, "Monster", "name")
    }

    /// Returns the inventory, or `None` if absent. Fails like a field `&[u8]`.
    pub fn inventory(&self) -> Result<Option<&'a [u8]>>
        ensures { Located (FieldAnswer
            (λ S start f r. Answer (shown ShowsBytes (byte_list_reading S f)) r)
            (monster_table self.now) 2)
            (codes "Monster") (codes "inventory") (table_start (monster_table self.now)) result }
    {
        self.table.access::<&[u8]>(2, "Monster", "inventory")
    }

    /// Returns the weapons, or `None` if absent. Fails like a field [`Vector`].
    pub fn weapons(&self) -> Result<Option<Vector<'a, Result<WeaponRef<'a>>>>>
        ensures { Located (FieldAnswer
            (λ S start f r. Answer (shown (ShowsVector S start) (vector_reading S f 4)) r)
            (monster_table self.now) 3)
            (codes "Monster") (codes "weapons") (table_start (monster_table self.now)) result }
    {
        self.table
            .access::<Vector<'a, Result<WeaponRef<'a>>>>(3, "Monster", "weapons")
    }

    /// Returns the equipment, or `None` if absent. Fails like a field [`WeaponRef`] of a union, and
    /// with [`ErrorKind::UnknownUnionTag`] for a tag other than 1.
    pub fn equipped(&self) -> Result<Option<EquipmentRef<'a>>>
        ensures { Located (UnionAnswer ReadsEquipment (monster_table self.now) 4)
            (codes "Monster") (codes "equipped") (table_start (monster_table self.now)) result }
    {
        self.table
            .access_union::<EquipmentRef<'a>>(4, "Monster", "equipped")
    }

    /// Returns the loot, or `None` if absent. Fails like a field [`UnionVector`].
    pub fn loot(&self) -> Result<Option<UnionVector<'a, EquipmentRef<'a>>>>
        ensures { Located (UnionVectorAnswer
            (λ S start f g r. Answer (shown (ShowsUnionVector S start) (union_vector_reading S f g))
            r)
            (monster_table self.now) 6)
            (codes "Monster") (codes "loot") (table_start (monster_table self.now)) result }
    {
        self.table
            .access_union_vector::<UnionVector<'a, EquipmentRef<'a>>>(6, "Monster", "loot")
    }
}

impl<'a> TableRead<'a> for MonsterRef<'a> {
    ghost reads = { λ S start f r. Answer (shown (ShowsMonster S start) (table_reading S f)) r };

    fn from_buffer(
        buffer: SliceWithStartOffset<'a>,
        offset: usize,
    ) -> std::result::Result<MonsterRef<'a>, ErrorKind> {
        let table = Table::from_buffer(buffer, offset)?;
        Ok(MonsterRef { table })
    }
}

impl<'a> ReadAsRoot<'a> for MonsterRef<'a> {
    ghost reads_root = { λ S r.
        Located (Answer (shown (ShowsMonster S 0) (table_reading S 0)))
        (codes "[MonsterRef]") (codes "read_as_root") 0 r };

    fn read_as_root(slice: &'a [u8]) -> Result<MonsterRef<'a>> {
        match TableRead::from_buffer(SliceWithStartOffset::new(slice, 0), 0) {
            Ok(monster) => Ok(monster),
            Err(kind) => Err(kind.with_error_location(Monster::name(), "read_as_root", 0)),
        }
    }
}
