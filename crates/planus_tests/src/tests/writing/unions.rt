ghost use Rattle.std.specs.Prelude.{◌≤◌, length, IsTrue, IfOk};
ghost use Rattle.planus_write.specs.Preparing.{AllMay};
ghost use Rattle.planus_write.specs.Unions.{union_reach};

use by_hand::{Fleet, Pos};
use planus::{Apart, create_table, fields, variant};
use planus_testing::{Test, check_bytes, check_distance, check_done, check_eq, in_builder};
use planus_write::{
    BuildError, Builder, ByRef, Caches, UnionOffset, WriteAsUnion, WriteAsUnionVector,
};
use std::test::Fail;

type Done = Result<(), BuildError>;

fn tagged(builder: &mut Builder, tag: u8, text: &str) -> Result<UnionOffset<()>, BuildError> {
    let text = builder.create_string(text)?;
    Ok(UnionOffset::new(tag, text.downcast()))
}

fn check_list<X: WriteAsUnionVector<()> + Drop>(
    test: &Test<'_>,
    builder: &mut Builder,
    list: X,
    distances: (u32, u32),
    want: &[u8],
    row: &str,
)
    requires { X.may list builder.old }
{
    match builder.create_union_vector(list) {
        Ok(vector) => {
            check_distance(test, vector.values_offset(), distances.0, row);
            check_distance(test, vector.tags_offset(), distances.1, row);
            check_bytes(test, builder.as_slice(), want, row);
        }
        Err(error) => check_done(test, Err(error), row),
    }
}

fn are_written(builder: &Builder, first: UnionOffset<()>, second: UnionOffset<()>) -> bool
    ensures { IsTrue result → (union_reach first ≤ length builder.now.bytes)
        × (union_reach second ≤ length builder.now.bytes) }
{
    first.offset().distance() as usize <= builder.len()
        && second.offset().distance() as usize <= builder.len()
}

fn two_unions(builder: &mut Builder) -> Result<[UnionOffset<()>; 2], BuildError>
    ensures { IfOk result (λ unions.
        AllMay (λ union old. union_reach union ≤ length old.bytes) unions builder.new) }
{
    let first = tagged(builder, 1, "A")?;
    let second = tagged(builder, 2, "B")?;
    if !are_written(builder, first, second) {
        return Err(BuildError::TooLarge);
    }
    Ok([first, second])
}

const TWO_UNIONS: &[u8] =
    b"\x02\0\0\0\x01\x02\0\0\x02\0\0\0\x10\0\0\0\x04\0\0\0\x01\0\0\0B\0\0\0\x01\0\0\0A\0";

fn check_no_unions(test: &Test<'_>, builder: &mut Builder) -> Done {
    let none: [UnionOffset<()>; 0] = [];
    check_list(test, builder, none, (4, 8), &[0; 8], "no unions");
    Ok(())
}

fn check_array(test: &Test<'_>, builder: &mut Builder) -> Done {
    let unions = two_unions(builder)?;
    check_eq(test, &unions[0].tag(), &1, "the first tag");
    check_list(test, builder, unions, (26, 34), TWO_UNIONS, "an array");
    Ok(())
}

fn check_array_by_reference(test: &Test<'_>, builder: &mut Builder) -> Done {
    let unions = two_unions(builder)?;
    check_list(
        test,
        builder,
        ByRef(&unions),
        (26, 34),
        TWO_UNIONS,
        "an array by reference",
    );
    Ok(())
}

fn check_owned_list(test: &Test<'_>, builder: &mut Builder) -> Done {
    let unions = two_unions(builder)?;
    let mut owned: Vec<UnionOffset<()>> = Vec::new(test.alloc());
    owned.extend_from_slice(&unions)?;
    check_list(test, builder, owned, (26, 34), TWO_UNIONS, "an owned list");
    Ok(())
}

fn check_written_list(test: &Test<'_>, builder: &mut Builder) -> Done {
    let unions = two_unions(builder)?;
    let vector = builder.create_union_vector::<(), [UnionOffset<()>; 2]>(unions)?;
    let (tags, values) = (vector.tags_offset(), vector.values_offset());
    if tags.distance() as usize > builder.len() || values.distance() as usize > builder.len() {
        return Err(BuildError::TooLarge);
    }
    check_list(
        test,
        builder,
        vector,
        (26, 34),
        TWO_UNIONS,
        "a written list",
    );
    Ok(())
}

pub fn check_union<T, X: WriteAsUnion<T>>(
    test: &Test<'_>,
    builder: &mut Builder,
    value: &X,
    row: &str,
)
    requires { X.may value.now builder.old }
{
    match value.prepare(builder) {
        Ok(union) => {
            check_eq(test, &union.tag(), &7, row);
            check_distance(test, union.offset(), 6, row);
        }
        Err(error) => check_done(test, Err(error), row),
    }
}

// A box is prepared in `without_memory`.
fn check_union_by_reference(test: &Test<'_>, builder: &mut Builder) -> Done {
    let union = tagged(builder, 7, "A")?;
    if !are_written(builder, union, union) {
        return Err(BuildError::TooLarge);
    }
    check_union(test, builder, &ByRef(&union), "a union by reference");
    Ok(())
}

// The object with its tag last, the vtable, and the struct behind all.
const STRUCT_OF_UNION: &[u8] = b"\xf4\xff\xff\xff\x10\0\0\0\x02\0\0\0\x08\0\x09\0\x08\0\x04\0\
    \x01\0\0\0\x02\0\0\0\x03\0\0\0";

fn check_struct_of_union(test: &Test<'_>, builder: &mut Builder) -> Done {
    let pos = Pos {
        lat: 1,
        lon: 2,
        alt: 3,
    };
    let lines = fields![(0, 1): union Fleet = variant![2: Pos = Apart(&pos)]];
    let table = create_table::<Fleet, _>(builder, lines)?;
    check_distance(test, table, 32, "a table with a struct in its union");
    check_bytes(
        test,
        builder.as_slice(),
        STRUCT_OF_UNION,
        "a table with a struct in its union",
    );
    Ok(())
}

#[test]
fn unions(rt: HostRuntime) -> Result<(), Fail> {
    let test = Test::new(&rt);
    in_builder(&test, Caches::all(), check_no_unions);
    in_builder(&test, Caches::all(), check_array);
    in_builder(&test, Caches::all(), check_array_by_reference);
    in_builder(&test, Caches::all(), check_owned_list);
    in_builder(&test, Caches::all(), check_written_list);
    in_builder(&test, Caches::all(), check_union_by_reference);
    in_builder(&test, Caches::all(), check_struct_of_union);
    test.end()
}
