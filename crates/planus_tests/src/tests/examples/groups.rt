//! A table with a group of fields has the bytes of one whose fields are listed one by one.

ghost use Rattle.std.specs.Prelude.{◌≤◌, codes, length, IfOk};

use planus::{
    BuildError, Builder, Caches, FieldAt, FieldGroup, Lines8, Offset, OrDefault, TableKind,
    TableWriter, Text, create_table, fields,
};
use planus_testing::{Test, check_bytes, in_builder};
use std::test::Fail;

struct Sounding;

impl TableKind for Sounding {
    type Writer = TableWriter<22>;

    ghost name = { codes "[Sounding]" };

    fn name() -> &'static str {
        "[Sounding]"
    }
}

type Depth<const SLOT: usize> = FieldAt<SLOT, u8, OrDefault<u8, u8>>;

#[derive(Drop)]
struct Depths {
    lines: Lines8<Depth<1>, Depth<2>, Depth<3>, Depth<4>, Depth<5>, Depth<6>, Depth<7>, Depth<8>>,
}

impl FieldGroup for Depths {
    type Lines = Lines8<
        Depth<1>,
        Depth<2>,
        Depth<3>,
        Depth<4>,
        Depth<5>,
        Depth<6>,
        Depth<7>,
        Depth<8>,
    >;

    ghost lines_of = { λ depths. depths.lines };

    fn lines(&self) -> &Self::Lines {
        &self.lines
    }
}

fn in_group(builder: &mut Builder, x: u8) -> Result<Offset<Sounding>, BuildError>
    ensures { IfOk result (λ offset. offset.distance ≤ length builder.new.bytes) }
{
    let depths = Depths {
        lines: fields![
            1: u8 = OrDefault { value: x, default: 7 },
            2: u8 = OrDefault { value: 2, default: 7 },
            3: u8 = OrDefault { value: x, default: 7 },
            4: u8 = OrDefault { value: 4, default: 7 },
            5: u8 = OrDefault { value: x, default: 7 },
            6: u8 = OrDefault { value: 6, default: 7 },
            7: u8 = OrDefault { value: x, default: 7 },
            8: u8 = OrDefault { value: 8, default: 7 },
        ],
    };
    create_table::<Sounding, _>(builder, fields![0: Offset<Text> = "Fastnet", group depths])
}

fn one_by_one(builder: &mut Builder, x: u8) -> Result<Offset<Sounding>, BuildError>
    ensures { IfOk result (λ offset. offset.distance ≤ length builder.new.bytes) }
{
    let lines = fields![
        0: Offset<Text> = "Fastnet",
        1: u8 = OrDefault { value: x, default: 7 },
        2: u8 = OrDefault { value: 2, default: 7 },
        3: u8 = OrDefault { value: x, default: 7 },
        4: u8 = OrDefault { value: 4, default: 7 },
        5: u8 = OrDefault { value: x, default: 7 },
        6: u8 = OrDefault { value: 6, default: 7 },
        7: u8 = OrDefault { value: x, default: 7 },
        8: u8 = OrDefault { value: 8, default: 7 },
    ];
    create_table::<Sounding, _>(builder, lines)
}

fn check_same(test: &Test<'_>, builder: &mut Builder, x: u8) -> Result<(), BuildError> {
    builder.clear();
    let root = one_by_one(builder, x)?;
    let bytes = Vec::from_slice(test.alloc(), builder.finish(root, None)?)?;
    builder.clear();
    let root = in_group(builder, x)?;
    check_bytes(
        test,
        builder.finish(root, None)?,
        bytes.as_slice(),
        "a sounding",
    );
    Ok(())
}

fn check_soundings(test: &Test<'_>, builder: &mut Builder) -> Result<(), BuildError> {
    for x in [0, 7, 255] {
        check_same(test, builder, x)?;
    }
    Ok(())
}

#[test]
fn groups_are_written_as_their_fields(rt: HostRuntime) -> Result<(), Fail> {
    let test = Test::new(&rt);
    in_builder(&test, Caches::all(), check_soundings);
    test.end()
}
