ghost use Rattle.std.specs.Prelude.{◌≤◌, length};

use super::kinds::check_slot;
use planus::table_reader::Table;
use planus::{
    BuildError, Builder, ByteList, Caches, ObjectFill, ObjectWriter, Offset, Primitive,
    SignedBytes, SignedList, SliceWithStartOffset, TableRead, TableWriter, Vector,
    WriteAsPrimitive,
};
use planus_testing::{Test, check, check_bytes, check_done, check_eq, in_builder};
use std::fmt::Debug;
use std::marker::PhantomData;
use std::test::Fail;

type Done = Result<(), BuildError>;

#[derive(Drop)]
pub struct One<P: Primitive, T: WriteAsPrimitive<P>> {
    pub field: T,
    pub _marker: PhantomData<P>,
}

impl<P: Primitive, T: WriteAsPrimitive<P>> ObjectFill for One<P, T> {
    ghost size = { λ one. P.SIZE };

    ghost reach = { λ one. T.reach one.field };

    ghost encoding = { λ one place. T.encoding one.field place };

    fn fill(&self, writer: &mut ObjectWriter<'_>) {
        writer.write::<P, T>(&self.field);
    }
}

pub fn put<P: Primitive, T: WriteAsPrimitive<P> + Drop>(
    builder: &mut Builder,
    field: T,
) -> Result<(), BuildError>
    requires small { P.SIZE ≤ 8 }
    requires reach { T.reach field ≤ length builder.old.bytes }
{
    let mut writer: TableWriter<8> = TableWriter::default();
    writer.write_entry::<P>(1);
    let _marker = PhantomData;
    writer.finish(builder, &One { field, _marker })
}

fn finished<P: Primitive, T: WriteAsPrimitive<P> + Drop>(
    builder: &mut Builder,
    field: T,
) -> Result<&[u8], BuildError>
    requires small { P.SIZE ≤ 8 }
    requires reach { T.reach field ≤ length builder.old.bytes }
{
    put::<P, T>(builder, field)?;
    let root = builder.current_offset::<()>();
    builder.finish(root, None)
}

// Slots 0 and 2 hold none.
fn read<'a, T: TableRead<'a>>(test: &Test<'_>, bytes: &'a [u8], row: &str) -> Option<T> {
    match Table::from_buffer(SliceWithStartOffset::new(bytes, 0), 0) {
        Ok(table) => {
            check_slot::<u8>(test, table, 0, None, row);
            check_slot::<u8>(test, table, 2, None, row);
            table.access_required::<T>(1, "Table", "field").ok()
        }
        Err(_) => None,
    }
}

fn check_field<'a, T: TableRead<'a> + PartialEq + Debug + Drop>(
    test: &Test<'_>,
    finished: Result<&'a [u8], BuildError>,
    want: T,
    row: &str,
) {
    match finished {
        Ok(bytes) => check_eq(test, &read::<T>(test, bytes, row), &Some(want), row),
        Err(error) => check_done(test, Err(error), row),
    }
}

fn check_unsigned(test: &Test<'_>, builder: &mut Builder) -> Done {
    check_field(test, finished::<u8, u8>(builder, 255), 255u8, "u8");
    check_field(test, finished::<u16, u16>(builder, 513), 513u16, "u16");
    check_field(
        test,
        finished::<u32, u32>(builder, u32::MAX),
        u32::MAX,
        "u32",
    );
    check_field(
        test,
        finished::<u64, u64>(builder, 1 << 63),
        1u64 << 63,
        "u64",
    );
    Ok(())
}

fn check_signed(test: &Test<'_>, builder: &mut Builder) -> Done {
    check_field(test, finished::<i8, i8>(builder, -1), -1i8, "i8");
    check_field(test, finished::<i16, i16>(builder, -2), -2i16, "i16");
    check_field(
        test,
        finished::<i32, i32>(builder, i32::MIN),
        i32::MIN,
        "i32",
    );
    check_field(test, finished::<i64, i64>(builder, -3), -3i64, "i64");
    check_field(test, finished::<bool, bool>(builder, true), true, "bool");
    Ok(())
}

fn check_text_and_bytes(test: &Test<'_>, builder: &mut Builder) -> Done {
    let text = builder.create_string("Axe")?;
    check_field(
        test,
        finished::<Offset<_>, _>(builder, text),
        "Axe",
        "a string",
    );
    let want = b"\x01\x02".as_slice();
    let bytes = builder.create_vector(ByteList(want))?;
    check_field(
        test,
        finished::<Offset<_>, _>(builder, bytes),
        want,
        "bytes",
    );
    Ok(())
}

fn check_signed_bytes(test: &Test<'_>, builder: &mut Builder) -> Done {
    let signed = builder.create_vector(SignedList(&[-1, 2]))?;
    let bytes = finished::<Offset<_>, _>(builder, signed)?;
    match read::<SignedBytes>(test, bytes, "signed bytes") {
        Some(list) => {
            check_eq(test, &list.get(0), &Some(-1), "the first signed byte");
            check_eq(test, &list.get(1), &Some(2), "the second signed byte");
        }
        None => check(test, false, "signed bytes"),
    }
    Ok(())
}

fn check_list(test: &Test<'_>, builder: &mut Builder) -> Done {
    let numbers = builder.create_vector([7u16, 8])?;
    let bytes = finished::<Offset<_>, _>(builder, numbers)?;
    match read::<Vector<u16>>(test, bytes, "a list") {
        Some(list) => {
            check_eq(test, &list.get(0), &Some(7), "the first number");
            check_eq(test, &list.get(1), &Some(8), "the second number");
        }
        None => check(test, false, "a list"),
    }
    Ok(())
}

// One after the other, in one builder.
fn check_fields(test: &Test<'_>, builder: &mut Builder) -> Done {
    check_unsigned(test, builder)?;
    check_signed(test, builder)?;
    check_text_and_bytes(test, builder)?;
    check_signed_bytes(test, builder)?;
    check_list(test, builder)
}

#[test]
fn a_field_of_each_type(rt: HostRuntime) -> Result<(), Fail> {
    let test = Test::new(&rt);
    in_builder(&test, Caches::all(), check_fields);
    test.end()
}

const FREE_SLOT: &[u8] =
    b"\x04\0\0\0\xf2\xff\xff\xff\x01\0\0\0\0\0\0\0\x02\0\x0a\0\x0d\0\x04\0\0\0\x0c\0";

#[test]
fn a_table_with_a_free_slot_between(rt: HostRuntime) -> Result<(), Fail> {
    let test = Test::new(&rt);
    match Table::from_buffer(SliceWithStartOffset::new(FREE_SLOT, 0), 0) {
        Ok(table) => {
            check_slot::<u64>(&test, table, 0, Some(1), "slot 0");
            check_slot::<u8>(&test, table, 1, None, "slot 1");
            check_slot::<u8>(&test, table, 2, Some(2), "slot 2");
        }
        Err(kind) => check_eq(&test, &Some(kind), &None, "a table"),
    }
    test.end()
}

pub fn put_number(builder: &mut Builder, field: u16) -> Result<(), BuildError> {
    let mut writer: TableWriter<6> = TableWriter::default();
    writer.write_entry::<u16>(0);
    let _marker: PhantomData<u16> = PhantomData;
    writer.finish(builder, &One { field, _marker })
}

pub const ONE_VTABLE: &[u8] =
    b"\x04\0\0\0\xf2\xff\xff\xff\x07\0\0\0\xfa\xff\xff\xff\x18\0\x06\0\x06\0\x04\0";

pub const TWO_VTABLES: &[u8] = b"\x04\0\0\0\xfa\xff\xff\xff\x07\0\x06\0\x06\0\x04\0\
    \xfa\xff\xff\xff\x18\0\x06\0\x06\0\x04\0";

fn check_two_tables(test: &Test<'_>, builder: &mut Builder, want: &[u8], row: &str) -> Done {
    put_number(builder, 24)?;
    put_number(builder, 7)?;
    let root = builder.current_offset::<()>();
    check_bytes(test, builder.finish(root, None)?, want, row);
    Ok(())
}

#[test]
fn two_tables(rt: HostRuntime) -> Result<(), Fail> {
    let test = Test::new(&rt);
    let all = Caches::all();
    let others = Caches {
        vtables: false,
        ..all
    };
    for (caches, want, row) in [
        (all, ONE_VTABLE, "one vtable"),
        (others, TWO_VTABLES, "two vtables"),
    ] {
        in_builder(
            &test,
            caches,
            |test, builder| check_two_tables(test, builder, want, row),
        );
    }
    test.end()
}
