ghost use Rattle.std.specs.Prelude.{◌≤◌, length, IsTrue};

use super::fields::Answer::{LeftOut, There};
use super::fields::{
    Drinks, check_always, check_default, check_default_numbers, check_drink, check_no_lists,
    check_no_texts, check_no_union_vectors, check_no_unions, check_numbers, check_optional,
    check_optional_numbers, check_written,
};
use super::unions::check_union;
use super::{NO_CACHES, check_prepared};
use planus_testing::{Test, check, check_done, check_eq, without_memory};
use planus_write::{BuildError, Builder, ByRef, Offset, Text, UnionOffset, VectorWrite};
use std::alloc::{AllocError, Global};
use std::slice;
use std::test::Fail;

#[derive(Drop)]
struct Values {
    axe: String,
    empty: Vec<u16>,
    number: Box<u16>,
    absent: Box<Option<u16>>,
    text: Box<&'static str>,
    last: Box<Offset<Text>>,
    union: Box<UnionOffset<Drinks>>,
}

fn new_values(alloc: Global, last: Offset<Text>) -> Result<Values, AllocError> {
    Ok(Values {
        axe: String::from_str(alloc, "Axe")?,
        empty: Vec::new(alloc),
        number: Box::new(alloc, 7)?,
        absent: Box::new(alloc, None)?,
        text: Box::new(alloc, "A")?,
        last: Box::new(alloc, last)?,
        union: Box::new(alloc, UnionOffset::new(7, last.downcast()))?,
    })
}

// Only items that the vector holds themselves are prepared already.
fn check_items(test: &Test<'_>, axe: &String) {
    let numbers: Option<&[u16]> = <u16 as VectorWrite<u16>>::as_prepared(&[7]);
    let by_ref = <ByRef<'_, u16> as VectorWrite<u16>>::as_prepared(&[ByRef(&7)]);
    let text = <&str as VectorWrite<Offset<Text>>>::as_prepared(&["A"]);
    let owned = <String as VectorWrite<Offset<Text>>>::as_prepared(slice::from_ref(axe));
    check_eq(test, &numbers, &Some([7].as_slice()), "numbers");
    check(test, by_ref.is_none(), "a number by reference");
    check(test, text.is_none(), "a text");
    check(test, owned.is_none(), "an owned text");
}

fn check_boxed_numbers(test: &Test<'_>, builder: &mut Builder, values: &Values) {
    let (number, absent) = (&values.number, &values.absent);
    check_always::<u16, Box<u16>>(test, builder, number, 7, "a boxed number");
    check_optional::<u16, Box<u16>>(test, builder, number, There, "a boxed number");
    check_optional::<u16, Box<Option<u16>>>(test, builder, absent, LeftOut, "no boxed number");
    check_default::<u16, u16, Box<u16>>(test, builder, number, &7, LeftOut, "a boxed default");
    check_eq(test, &builder.len(), &0, "boxed numbers write nothing");
}

// In the builder's room: the first takes 6 bytes, and each other one 8.
fn check_boxed_texts(test: &Test<'_>, builder: &mut Builder, values: &Values) {
    let text = &values.text;
    check_written::<Text, Box<&str>>(test, builder, text, 6, "a boxed text");
    check_optional::<Offset<Text>, Box<&str>>(test, builder, text, There, "a boxed text");
    check_default::<Offset<Text>, &str, Box<&str>>(
        test,
        builder,
        text,
        &"A",
        LeftOut,
        "a boxed default",
    );
    check_prepared::<Text, Box<&str>>(test, builder, text, 22, "a third boxed text");
    check_eq(test, &builder.len(), &22, "three boxed texts");
}

fn has(builder: &Builder, distance: u32) -> bool
    ensures { IsTrue result → distance ≤ length builder.now.bytes }
{
    distance as usize <= builder.len()
}

// An offset is that of the string that was written first.
fn check_boxed_offsets(test: &Test<'_>, builder: &mut Builder, values: &Values) {
    if !has(builder, values.last.distance()) {
        return check(test, false, "a boxed offset");
    }
    check_prepared::<Text, Box<Offset<Text>>>(test, builder, &values.last, 6, "a boxed offset");
}

fn check_boxed_unions(test: &Test<'_>, builder: &mut Builder, values: &Values) {
    let union = &values.union;
    if !has(builder, union.offset().distance()) {
        return check(test, false, "a boxed union");
    }
    check_union::<Drinks, Box<UnionOffset<Drinks>>>(test, builder, union, "a boxed union");
    if !has(builder, union.offset().distance()) {
        return check(test, false, "a boxed union's field");
    }
    check_drink(test, builder, union, Some(7), "a boxed union's field");
}

fn check_boxed(test: &Test<'_>, builder: &mut Builder, values: &Values) {
    check_items(test, &values.axe);
    check_boxed_numbers(test, builder, values);
    check_boxed_texts(test, builder, values);
    check_boxed_offsets(test, builder, values);
    check_boxed_unions(test, builder, values);
}

fn check_all(test: &Test<'_>, builder: &mut Builder, values: &Values) {
    check_numbers(test, builder);
    check_optional_numbers(test, builder);
    check_default_numbers(test, builder);
    check_no_texts(test, builder, &values.axe);
    check_no_lists(test, builder, &values.empty);
    check_no_unions(test, builder);
    check_no_union_vectors(test, builder);
    check_boxed(test, builder, values);
}

fn check_values(test: &Test<'_>, builder: &mut Builder) -> Result<(), BuildError> {
    builder.create_string("A")?;
    let values = new_values(test.alloc(), builder.current_offset())?;
    builder.clear();
    without_memory(test, |test| check_all(test, builder, &values));
    Ok(())
}

fn check_in_64_bytes(test: &Test<'_>) -> Result<(), BuildError> {
    let mut builder = Builder::with_caches(test.alloc(), 64, NO_CACHES)?;
    check_values(test, &mut builder)
}

#[test]
fn no_preparing_asks_for_memory(rt: HostRuntime) -> Result<(), Fail> {
    let test = Test::new(&rt);
    check_done(&test, check_in_64_bytes(&test), "a builder of 64 bytes");
    test.end()
}
