ghost use Rattle.std.specs.Prelude.{◌≡◌, ◌≤◌, length, codes, IfOk};
ghost use Rattle.planus.specs.write.InBuilder.{IsIn, AllIn, AllUnionsIn};

use crate::tables::{Weapon, write_weapon};
use crate::works::OPERATIONS;
use planus::{
    BuildError, Builder, ByteList, List, Offset, TableKind, TableWriter, Text, UnionOffset,
    create_table, fields,
};

struct Monster;

struct Equipment;

impl TableKind for Monster {
    type Writer = TableWriter<20>;

    ghost name = { codes "Monster" };

    fn name() -> &'static str
        ensures { result.now ≡ codes "Monster" }
    {
        "Monster"
    }
}

fn write_fields(
    builder: &mut Builder,
    weapons: &[Offset<Weapon>],
    equipped: UnionOffset<Equipment>,
    loot: &[UnionOffset<Equipment>],
) -> Result<Offset<Monster>, BuildError>
    requires weapons { AllIn builder.old weapons.now }
    requires equipped { IsIn builder.old equipped.offset }
    requires loot { AllUnionsIn builder.old loot.now }
    ensures { IfOk result (λ offset. offset.distance ≤ length builder.new.bytes) }
{
    let fields = fields![
        0: last u16 = 80,
        1: Offset<Text> = "Orc",
        2: Offset<List<u8>> = ByteList(&[1, 2, 3]),
        3: Offset<List<Offset<Weapon>>> = weapons,
        (4, 5): union Equipment = equipped,
        (6, 7): unions Equipment = loot,
    ];
    create_table::<Monster, _>(builder, fields)
}

fn write_monster(builder: &mut Builder) -> Result<Offset<Monster>, BuildError>
    ensures { IfOk result (λ offset. offset.distance ≤ length builder.new.bytes) }
{
    write_weapon(builder)?;
    let axe = builder.current_offset::<Weapon>();
    let held = UnionOffset::new(1, axe.downcast());
    write_fields(builder, &[axe], held, &[held, held])
}

/// Writes monsters and returns the final length.
pub fn write_monsters(builder: &mut Builder) -> Result<usize, BuildError> {
    builder.clear();
    for _ in 0..OPERATIONS {
        write_monster(builder)?;
    }
    Ok(builder.len())
}

/// Clears, writes and finishes monsters, and returns the sum of the lengths.
pub fn write_monster_messages(builder: &mut Builder) -> Result<usize, BuildError> {
    let mut sum: usize = 0;
    for _ in 0..OPERATIONS {
        builder.clear();
        let monster = write_monster(builder)?;
        sum = sum.wrapping_add(builder.finish(monster, None)?.len());
    }
    Ok(sum)
}
