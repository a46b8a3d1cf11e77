//! Tables that are written.

ghost use Rattle.std.specs.Prelude.{◌≡◌, ◌-◌, ◌++◌, codes};
ghost use Rattle.std.specs.Int.{w16, w32, to_le_bytes};

use crate::works::OPERATIONS;
use planus::{BuildError, Builder, ObjectFill, ObjectWriter, Offset, TableKind, TableWriter, Text};

#[derive(Drop)]
struct Two {
    number: u16,
}

impl ObjectFill for Two {
    ghost size = { λ two. 4 };

    ghost reach = { λ two. 0 };

    ghost encoding = { λ two place. to_le_bytes w16 two.number ++ to_le_bytes w16 two.number };

    fn fill(&self, writer: &mut ObjectWriter<'_>) {
        writer.write::<u16, u16>(&self.number);
        writer.write::<u16, u16>(&self.number);
    }
}

#[derive(Drop)]
struct Eight {
    number: u16,
}

impl ObjectFill for Eight {
    ghost size = { λ eight. 16 };

    ghost reach = { λ eight. 0 };

    ghost encoding = { λ eight place.
        to_le_bytes w16 eight.number ++ (to_le_bytes w16 eight.number
        ++ (to_le_bytes w16 eight.number ++ (to_le_bytes w16 eight.number
        ++ (to_le_bytes w16 eight.number ++ (to_le_bytes w16 eight.number
        ++ (to_le_bytes w16 eight.number ++ to_le_bytes w16 eight.number)))))) };

    fn fill(&self, writer: &mut ObjectWriter<'_>) {
        writer.write::<u16, u16>(&self.number);
        writer.write::<u16, u16>(&self.number);
        writer.write::<u16, u16>(&self.number);
        writer.write::<u16, u16>(&self.number);
        writer.write::<u16, u16>(&self.number);
        writer.write::<u16, u16>(&self.number);
        writer.write::<u16, u16>(&self.number);
        writer.write::<u16, u16>(&self.number);
    }
}

/// A string and a number.
#[derive(Drop)]
pub struct Weapon {
    name: Offset<Text>,
    damage: u16,
}

impl ObjectFill for Weapon {
    ghost size = { λ weapon. 6 };

    ghost reach = { λ weapon. weapon.name.distance };

    ghost encoding = { λ weapon place.
        to_le_bytes w32 (place - weapon.name.distance) ++ to_le_bytes w16 weapon.damage };

    fn fill(&self, writer: &mut ObjectWriter<'_>) {
        writer.write::<Offset<Text>, Offset<Text>>(&self.name);
        writer.write::<u16, u16>(&self.damage);
    }
}

impl TableKind for Weapon {
    type Writer = TableWriter<8>;

    ghost name = { codes "Weapon" };

    fn name() -> &'static str
        ensures { result.now ≡ codes "Weapon" }
    {
        "Weapon"
    }
}

fn write_table_of_two(builder: &mut Builder) -> Result<(), BuildError> {
    let mut writer: TableWriter<8> = TableWriter::default();
    writer.write_entry::<u16>(0);
    writer.write_entry::<u16>(1);
    writer.finish(builder, &Two { number: 7 })
}

fn write_table_of_eight(builder: &mut Builder) -> Result<(), BuildError> {
    let mut writer: TableWriter<20> = TableWriter::default();
    writer.write_entry::<u16>(0);
    writer.write_entry::<u16>(1);
    writer.write_entry::<u16>(2);
    writer.write_entry::<u16>(3);
    writer.write_entry::<u16>(4);
    writer.write_entry::<u16>(5);
    writer.write_entry::<u16>(6);
    writer.write_entry::<u16>(7);
    writer.finish(builder, &Eight { number: 7 })
}

pub fn write_weapon(builder: &mut Builder) -> Result<(), BuildError> {
    let name = builder.create_string("Axe")?;
    let mut writer: TableWriter<8> = TableWriter::default();
    writer.write_entry::<Offset<Text>>(0);
    writer.write_entry::<u16>(1);
    writer.finish(builder, &Weapon { name, damage: 24 })
}

/// Writes tables of two fields and returns the final length.
pub fn write_two(builder: &mut Builder) -> Result<usize, BuildError> {
    builder.clear();
    for _ in 0..OPERATIONS {
        write_table_of_two(builder)?;
    }
    Ok(builder.len())
}

/// Writes tables of eight fields and returns the final length.
pub fn write_eight(builder: &mut Builder) -> Result<usize, BuildError> {
    builder.clear();
    for _ in 0..OPERATIONS {
        write_table_of_eight(builder)?;
    }
    Ok(builder.len())
}

/// Clears, writes and finishes weapons, and returns the sum of the lengths.
pub fn write_weapons(builder: &mut Builder) -> Result<usize, BuildError> {
    let mut sum: usize = 0;
    for _ in 0..OPERATIONS {
        builder.clear();
        write_weapon(builder)?;
        let root = builder.current_offset::<()>();
        sum = sum.wrapping_add(builder.finish(root, None)?.len());
    }
    Ok(sum)
}
