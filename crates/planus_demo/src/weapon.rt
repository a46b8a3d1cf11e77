//! A table of two fields, as in generated code:
//!
//! ```text
//! table Weapon { name: string; damage: int16 = 0; }
//! ```

ghost use Rattle.std.specs.Prelude.{◌≡◌, ◌≤◌, [], ◌∷◌, length, pos, codes, IfOk};
ghost use Rattle.std.specs.Int.{w16};
ghost use Rattle.planus_read.specs.Clauses.{Answer, shown};
ghost use Rattle.planus_read.specs.Located.{Located, OrDefault as OrElse};
ghost use Rattle.planus_read.specs.Slices.{ShowsBytes};
ghost use Rattle.planus_read.specs.Reading.{text_reading, signed_reading, table_reading};
ghost use Rattle.planus_read.specs.Tables.{FieldAnswer, table_start};
ghost use Rattle.planus_write.specs.State.{Grows};
ghost use Rattle.planus.specs.Contents.{WritesContents};
ghost use Rattle.planus_demo.specs.Weapons.{WritesWeapon};
ghost use Rattle.planus_demo.specs.WeaponViews.{weapon_table, ShowsWeapon};

use planus::errors::ErrorKind;
use planus::located::locate;
use planus::table_reader::Table;
use planus::{
    BuildError, Builder, ByRef, Error, Offset, OrDefault, ReadAsRoot, ReadError, Result,
    SliceWithStartOffset, Stride, TableKind, TableRead, TableWriter, Text, VectorReadInner,
    WriteAsDefault, WriteAsOptional, create_table, fields,
};

/// The kind of an offset to a weapon.
pub struct Weapon;

impl Weapon {
    /// Writes a weapon, and returns its offset; a damage of 0 is left out. Requirements and errors
    /// are those of [`Builder::create_vector`].
    pub fn create<N, D>(
        builder: &mut Builder,
        name: N,
        damage: D,
    ) -> std::result::Result<Offset<Weapon>, BuildError>
    where
        N: WriteAsOptional<Offset<Text>> + Drop,
        D: WriteAsDefault<i16, i16> + Drop,
        requires name { N.may name builder.old }
        requires damage { D.may damage builder.old }
        ensures written { WritesWeapon (N.outcome name) N.Prepared.field
            (D.outcome damage (pos 0)) D.Prepared.field builder.old result builder.new }
        ensures kept { IfOk result (λ offset. WritesContents
            ((0, N.content name) ∷ (1, D.content damage (pos 0)) ∷ [])
            builder.old offset.distance builder.new) }
        ensures grows { Grows builder.old builder.new }
        ensures reached { IfOk result (λ offset. offset.distance ≤ length builder.new.bytes) }
    {
        let damage = OrDefault {
            value: ByRef(&damage),
            default: 0,
        };
        let fields = fields![0: Offset<Text> = ByRef(&name), 1: i16 = damage];
        create_table::<Weapon, _>(builder, fields)
    }
}

impl TableKind for Weapon {
    type Writer = TableWriter<8>;

    ghost name = { codes "[WeaponRef]" };

    fn name() -> &'static str
        ensures { result.now ≡ codes "[WeaponRef]" }
    {
        "[WeaponRef]"
    }
}

/// A weapon in a buffer.
#[derive(Clone, Copy)]
pub struct WeaponRef<'a> {
    table: Table<'a>,
}

impl<'a> WeaponRef<'a> {
    /// Returns the name, or `None` if absent. Fails like a field `&str`.
    pub fn name(&self) -> Result<Option<&'a str>>
        ensures { Located (FieldAnswer
            (λ S start f r. Answer (shown ShowsBytes (text_reading S f)) r)
            (weapon_table self.now) 0)
            (codes "Weapon") (codes "name") (table_start (weapon_table self.now)) result }
    {
        self.table.access::<&str>(0, "Weapon", "name")
    }

    /// Returns the damage, 0 if absent. Fails like a field `i16`.
    pub fn damage(&self) -> Result<i16>
        ensures { Located (OrElse (pos 0) (FieldAnswer
            (λ S start f r. Answer (signed_reading S f w16) r) (weapon_table self.now) 1))
            (codes "Weapon") (codes "damage") (table_start (weapon_table self.now)) result }
    {
        Ok(
            self.table
                .access::<i16>(1, "Weapon", "damage")?
                .unwrap_or(0),
        )
    }
}

impl<'a> TableRead<'a> for WeaponRef<'a> {
    ghost reads = { λ S start f r. Answer (shown (ShowsWeapon S start) (table_reading S f)) r };

    fn from_buffer(
        buffer: SliceWithStartOffset<'a>,
        offset: usize,
    ) -> std::result::Result<WeaponRef<'a>, ErrorKind> {
        let table = Table::from_buffer(buffer, offset)?;
        Ok(WeaponRef { table })
    }
}

impl<'a> ReadAsRoot<'a> for WeaponRef<'a> {
    ghost reads_root = { λ S r.
        Located (Answer (shown (ShowsWeapon S 0) (table_reading S 0)))
        (codes "[WeaponRef]") (codes "read_as_root") 0 r };

    fn read_as_root(slice: &'a [u8]) -> Result<WeaponRef<'a>> {
        match TableRead::from_buffer(SliceWithStartOffset::new(slice, 0), 0) {
            Ok(weapon) => Ok(weapon),
            Err(kind) => Err(kind.with_error_location(Weapon::name(), "read_as_root", 0)),
        }
    }
}

impl<'a> Stride for WeaponRef<'a> {
    type Stands = u32;
}

impl<'a> ReadError for WeaponRef<'a> {
    type Error = Error;
}

impl<'a> VectorReadInner<'a> for WeaponRef<'a> {
    ghost gives = { λ S start f r.
        Located (Answer (shown (ShowsWeapon S start) (table_reading S f)))
        (codes "[Weapon]") (codes "get") start r };

    fn from_buffer(buffer: SliceWithStartOffset<'a>, offset: usize) -> Result<WeaponRef<'a>> {
        let weapon = TableRead::from_buffer(buffer, offset);
        locate(weapon, "[Weapon]", "get", buffer.offset_from_start())
    }
}
