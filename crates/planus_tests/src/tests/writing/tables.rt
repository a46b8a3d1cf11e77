ghost use Rattle.std.specs.Prelude.{◌-◌, ◌++◌, []};
ghost use Rattle.std.specs.Int.{w8, w16, w32, w64, to_le_bytes, cast_unsigned};

use planus_testing::{Test, check_finish, in_builder};
use planus_write::{
    BuildError, Builder, Caches, ObjectFill, ObjectWriter, Offset, TableWriter, Text,
};
use std::test::Fail;

#[derive(Drop)]
struct Wide {
    first: u64,
    second: u8,
}

impl ObjectFill for Wide {
    ghost size = { λ wide. 9 };

    ghost reach = { λ wide. 0 };

    ghost encoding = { λ wide place. to_le_bytes w64 wide.first ++ to_le_bytes w8 wide.second };

    fn fill(&self, writer: &mut ObjectWriter<'_>) {
        writer.write::<u64, u64>(&self.first);
        writer.write::<u8, u8>(&self.second);
    }
}

#[derive(Drop)]
struct Named {
    name: Offset<Text>,
    damage: i16,
}

impl ObjectFill for Named {
    ghost size = { λ named. 6 };

    ghost reach = { λ named. named.name.distance };

    ghost encoding = { λ named place.
        to_le_bytes w32 (place - named.name.distance)
        ++ to_le_bytes w16 (cast_unsigned w16 named.damage) };

    fn fill(&self, writer: &mut ObjectWriter<'_>) {
        writer.write::<Offset<Text>, Offset<Text>>(&self.name);
        writer.write::<i16, i16>(&self.damage);
    }
}

#[derive(Drop)]
struct Nothing;

impl ObjectFill for Nothing {
    ghost size = { λ nothing. 0 };

    ghost reach = { λ nothing. 0 };

    ghost encoding = { λ nothing place. [] };

    fn fill(&self, writer: &mut ObjectWriter<'_>) {
        let _remaining = writer.remaining();
    }
}

fn check_last(test: &Test<'_>, builder: &mut Builder, want: &[u8]) {
    let root = builder.current_offset::<()>();
    check_finish(test, builder, root, None, want);
}

fn check_an_empty_table(test: &Test<'_>, builder: &mut Builder) -> Result<(), BuildError> {
    let empty: TableWriter<4> = TableWriter::default();
    empty.finish(builder, &Nothing)?;
    check_last(test, builder, b"\x04\0\0\0\xfc\xff\xff\xff\x04\0\x04\0");
    Ok(())
}

const NUMBERS: &[u8] =
    b"\x04\0\0\0\xf2\xff\xff\xff\x01\0\0\0\0\0\0\0\x02\0\x0a\0\x0d\0\x04\0\0\0\x0c\0";

fn check_numbers(test: &Test<'_>, builder: &mut Builder) -> Result<(), BuildError> {
    let mut writer: TableWriter<10> = TableWriter::default();
    writer.write_entry::<u64>(0);
    writer.write_entry::<u8>(2);
    let wide = Wide {
        first: 1,
        second: 2,
    };
    writer.finish(builder, &wide)?;
    check_last(test, builder, NUMBERS);
    Ok(())
}

const A_TEXT: &[u8] =
    b"\x04\0\0\0\xf4\xff\xff\xff\x10\0\0\0\x18\0\0\0\x08\0\x0a\0\x04\0\x08\0\x03\0\0\0Axe\0";

fn check_a_text(test: &Test<'_>, builder: &mut Builder) -> Result<(), BuildError> {
    let name = builder.create_string("Axe")?;
    let mut writer: TableWriter<8> = TableWriter::default();
    writer.write_entry::<Offset<Text>>(0);
    writer.write_entry::<i16>(1);
    let named = Named { name, damage: 24 };
    writer.finish(builder, &named)?;
    check_last(test, builder, A_TEXT);
    Ok(())
}

#[test]
fn tables(rt: HostRuntime) -> Result<(), Fail> {
    let test = Test::new(&rt);
    in_builder(&test, Caches::all(), check_an_empty_table);
    in_builder(&test, Caches::all(), check_numbers);
    in_builder(&test, Caches::all(), check_a_text);
    test.end()
}
