ghost use Rattle.std.specs.Prelude.{◌≤◌, length};
ghost use Rattle.planus_write.specs.Unions.{union_reach};

use self::Answer::{LeftOut, There};
use super::NO_CACHES;
use planus_fields::{
    DefaultValue, WriteAs, WriteAsDefault, WriteAsDefaultUnionVector, WriteAsOptional,
    WriteAsOptionalUnion, WriteAsOptionalUnionVector,
};
use planus_testing::{Test, check_bytes, check_distance, check_done, check_eq, in_builder};
use planus_write::{
    BuildError, Builder, ByRef, ByteList, List, Offset, Primitive, SignedList, Text, UnionOffset,
    UnionVectorOffset,
};
use std::fmt::Debug;
use std::test::Fail;

type Numbers = Offset<List<u16>>;

type Bytes = Offset<List<u8>>;

type Signed = Offset<List<i8>>;

pub struct Drinks;

pub fn check_always<P: Primitive, T: WriteAs<P>>(
    test: &Test<'_>,
    builder: &mut Builder,
    field: &T,
    want: T::Prepared,
    row: &str,
)
where
    T::Prepared: PartialEq + Debug,
    requires { T.may field.now builder.old }
{
    check_eq(test, &field.prepare(builder), &Ok(want), row);
}

pub fn check_written<K, T: WriteAs<Offset<K>, Prepared = Offset<K>>>(
    test: &Test<'_>,
    builder: &mut Builder,
    field: &T,
    distance: u32,
    row: &str,
)
    requires { T.may field.now builder.old }
{
    match field.prepare(builder) {
        Ok(offset) => check_distance(test, offset, distance, row),
        Err(error) => check_done(test, Err(error), row),
    }
}

#[derive(Clone, Copy, Debug, PartialEq)]
pub enum Answer {
    There,
    LeftOut,
    Refused,
}

pub fn check_optional<P: Primitive, T: WriteAsOptional<P>>(
    test: &Test<'_>,
    builder: &mut Builder,
    field: &T,
    want: Answer,
    row: &str,
)
    requires { T.may field.now builder.old }
{
    let got = match field.prepare(builder) {
        Ok(Some(_)) => Answer::There,
        Ok(None) => Answer::LeftOut,
        Err(_) => Answer::Refused,
    };
    check_eq(test, &got, &want, row);
}

pub fn check_default<P: Primitive, D, T: WriteAsDefault<P, D>>(
    test: &Test<'_>,
    builder: &mut Builder,
    field: &T,
    default: &D,
    want: Answer,
    row: &str,
)
    requires { T.may field.now builder.old }
{
    let got = match field.prepare(builder, default) {
        Ok(Some(_)) => Answer::There,
        Ok(None) => Answer::LeftOut,
        Err(_) => Answer::Refused,
    };
    check_eq(test, &got, &want, row);
}

pub fn check_drink<X: WriteAsOptionalUnion<Drinks>>(
    test: &Test<'_>,
    builder: &mut Builder,
    field: &X,
    want: Option<u8>,
    row: &str,
)
    requires { X.may field.now builder.old }
{
    let tag = match field.prepare(builder) {
        Ok(Some(union)) => {
            check_distance(test, union.offset(), 6, row);
            Some(union.tag())
        }
        Ok(None) => None,
        Err(error) => return check_done(test, Err(error), row),
    };
    check_eq(test, &tag, &want, row);
}

// The distances of the values and of the tags.
fn check_vector(
    test: &Test<'_>,
    prepared: Result<Option<UnionVectorOffset<Drinks>>, BuildError>,
    want: Option<(u32, u32)>,
    row: &str,
) {
    let got = match prepared {
        Ok(Some(vector)) => {
            Some((
                vector.values_offset().distance(),
                vector.tags_offset().distance(),
            ))
        }
        Ok(None) => None,
        Err(error) => return check_done(test, Err(error), row),
    };
    check_eq(test, &got, &want, row);
}

fn check_order<X: WriteAsDefaultUnionVector<Drinks>>(
    test: &Test<'_>,
    builder: &mut Builder,
    field: &X,
    want: Option<(u32, u32)>,
    row: &str,
)
    requires { X.may field.now builder.old }
{
    check_vector(test, field.prepare(builder), want, row);
}

fn check_optional_order<X: WriteAsOptionalUnionVector<Drinks>>(
    test: &Test<'_>,
    builder: &mut Builder,
    field: &X,
    want: Option<(u32, u32)>,
    row: &str,
)
    requires { X.may field.now builder.old }
{
    check_vector(test, field.prepare(builder), want, row);
}

pub fn check_numbers(test: &Test<'_>, builder: &mut Builder) {
    check_always::<u8, u8>(test, builder, &7, 7, "u8");
    check_always::<u16, u16>(test, builder, &7, 7, "u16");
    check_always::<u32, u32>(test, builder, &7, 7, "u32");
    check_always::<u64, u64>(test, builder, &7, 7, "u64");
    check_always::<i8, i8>(test, builder, &-7, -7, "i8");
    check_always::<i16, i16>(test, builder, &-7, -7, "i16");
    check_always::<i32, i32>(test, builder, &-7, -7, "i32");
    check_always::<i64, i64>(test, builder, &-7, -7, "i64");
    check_always::<bool, bool>(test, builder, &true, true, "bool");
    check_eq(test, &builder.len(), &0, "numbers write nothing");
}

pub fn check_optional_numbers(test: &Test<'_>, builder: &mut Builder) {
    check_optional::<i16, i16>(test, builder, &24, There, "24");
    check_optional::<i16, Option<i16>>(test, builder, &Some(24), There, "some 24");
    check_optional::<i16, Option<i16>>(test, builder, &None, LeftOut, "no number");
    check_optional::<i16, ()>(test, builder, &(), LeftOut, "nothing for a number");
    check_eq(test, &builder.len(), &0, "optional numbers write nothing");
}

pub fn check_default_numbers(test: &Test<'_>, builder: &mut Builder) {
    let default = DefaultValue;
    check_default::<bool, bool, bool>(test, builder, &false, &false, LeftOut, "false");
    check_default::<i16, i16, i16>(test, builder, &24, &24, LeftOut, "24 by default");
    check_default::<i16, i16, i16>(test, builder, &25, &24, There, "25");
    check_default::<i16, i16, DefaultValue>(test, builder, &default, &24, LeftOut, "default");
    check_eq(
        test,
        &builder.len(),
        &0,
        "numbers with a default write nothing",
    );
}

pub fn check_no_texts(test: &Test<'_>, builder: &mut Builder, owned: &String) {
    let (axe, none) = ("Axe", None);
    check_default::<Offset<Text>, &str, &str>(test, builder, &axe, &"Axe", LeftOut, "a text");
    check_default::<Offset<Text>, &str, String>(test, builder, owned, &"Axe", LeftOut, "owned");
    check_optional::<Offset<Text>, Option<&str>>(test, builder, &none, LeftOut, "no text");
    check_eq(test, &builder.len(), &0, "texts that are left out");
}

fn check_texts(test: &Test<'_>, builder: &mut Builder, owned: &String) {
    let (axe, by_ref) = ("Axe", ByRef(owned));
    check_default::<Offset<Text>, &str, &str>(test, builder, &axe, &"", There, "a text");
    check_eq(test, &builder.len(), &8, "a text");
    check_written::<Text, String>(test, builder, owned, 16, "owned");
    check_optional::<Offset<Text>, ByRef<'_, String>>(test, builder, &by_ref, There, "by ref");
    check_default::<Offset<Text>, &str, ByRef<'_, String>>(
        test, builder, &by_ref, &"", There, "by ref",
    );
    check_eq(test, &builder.len(), &32, "four texts");
}

fn check_texts_of_before(test: &Test<'_>, builder: &mut Builder) -> Result<(), BuildError> {
    builder.create_string("Axe")?;
    let last = builder.current_offset::<Text>();
    check_written::<Text, Offset<Text>>(test, builder, &last, 8, "an offset");
    let last = builder.current_offset::<Text>();
    check_optional::<Offset<Text>, Offset<Text>>(test, builder, &last, There, "an offset");
    let last = builder.current_offset::<Text>();
    check_default::<Offset<Text>, &str, Offset<Text>>(
        test,
        builder,
        &last,
        &"Axe",
        There,
        "an offset",
    );
    check_eq(test, &builder.len(), &8, "one text");
    Ok(())
}

fn check_owned_texts(test: &Test<'_>, builder: &mut Builder) -> Result<(), BuildError> {
    let owned = String::from_str(test.alloc(), "Axe")?;
    check_texts(test, builder, &owned);
    Ok(())
}

pub fn check_no_lists(test: &Test<'_>, builder: &mut Builder, owned: &Vec<u16>) {
    let (none, absent): (&[u16], Option<&[u16]>) = (&[], None);
    let (bytes, signed) = (ByteList(&[]), SignedList(&[]));
    check_default::<Numbers, (), &[u16]>(test, builder, &none, &(), LeftOut, "no numbers");
    check_optional::<Numbers, Option<&[u16]>>(test, builder, &absent, LeftOut, "no list");
    check_default::<Numbers, (), Vec<u16>>(test, builder, owned, &(), LeftOut, "owned");
    check_default::<Bytes, (), ByteList<'_>>(test, builder, &bytes, &(), LeftOut, "no bytes");
    check_default::<Signed, (), SignedList<'_>>(test, builder, &signed, &(), LeftOut, "signed");
    check_eq(test, &builder.len(), &0, "lists that are left out");
}

// Each takes its count alone, four bytes.
fn check_empty_lists(test: &Test<'_>, builder: &mut Builder, owned: &Vec<u16>) {
    let none: &[u16] = &[];
    let (bytes, signed) = (ByteList(&[]), SignedList(&[]));
    check_optional::<Numbers, &[u16]>(test, builder, &none, There, "an empty list");
    check_optional::<Numbers, Vec<u16>>(test, builder, owned, There, "an empty vector");
    check_optional::<Bytes, ByteList<'_>>(test, builder, &bytes, There, "no bytes");
    check_optional::<Signed, SignedList<'_>>(test, builder, &signed, There, "no signed bytes");
    check_eq(test, &builder.len(), &16, "four empty lists");
}

fn check_short_lists(test: &Test<'_>, builder: &mut Builder) {
    let one: &[u16] = &[1];
    check_default::<Numbers, (), &[u16]>(test, builder, &one, &(), There, "one number");
    check_eq(test, &builder.len(), &6, "one number");
    check_optional::<Numbers, [u16; 0]>(test, builder, &[], There, "an empty array");
    check_eq(test, &builder.len(), &10, "an empty array");
}

fn check_lists(test: &Test<'_>, builder: &mut Builder, owned: &Vec<u16>) {
    let one: &[u16] = &[1];
    let (bytes, signed) = (ByteList(&[1]), SignedList(&[1]));
    check_written::<List<u16>, [u16; 1]>(test, builder, &[1], 6, "an array");
    check_written::<List<u16>, Vec<u16>>(test, builder, owned, 10, "an empty vector");
    check_written::<List<u16>, &[u16]>(test, builder, &one, 18, "a list");
    check_written::<List<u8>, ByteList<'_>>(test, builder, &bytes, 26, "bytes");
    check_written::<List<i8>, SignedList<'_>>(test, builder, &signed, 34, "signed bytes");
}

fn check_all_lists(test: &Test<'_>, builder: &mut Builder) -> Result<(), BuildError> {
    let owned = Vec::new(test.alloc());
    check_empty_lists(test, builder, &owned);
    builder.clear();
    check_lists(test, builder, &owned);
    builder.clear();
    check_short_lists(test, builder);
    Ok(())
}

pub fn check_no_unions(test: &Test<'_>, builder: &mut Builder) {
    let absent: Option<UnionOffset<Drinks>> = None;
    check_drink(test, builder, &absent, None, "no union");
    check_drink(test, builder, &(), None, "nothing for a union");
    check_eq(test, &builder.len(), &0, "unions that are left out");
}

fn last_as_union(builder: &Builder, tag: u8) -> UnionOffset<Drinks>
    ensures { union_reach result ≤ length builder.now.bytes }
{
    UnionOffset::new(tag, builder.current_offset())
}

fn check_unions(test: &Test<'_>, builder: &mut Builder) -> Result<(), BuildError> {
    builder.create_string("A")?;
    let one = last_as_union(builder, 1);
    check_drink(test, builder, &one, Some(1), "a union");
    let one = last_as_union(builder, 2);
    check_drink(test, builder, &Some(one), Some(2), "some union");
    let one = last_as_union(builder, 4);
    check_drink(test, builder, &ByRef(&one), Some(4), "a union by reference");
    check_eq(test, &builder.len(), &6, "one text");
    Ok(())
}

pub fn check_no_union_vectors(test: &Test<'_>, builder: &mut Builder) {
    let none: &[UnionOffset<Drinks>] = &[];
    let absent: Option<&[UnionOffset<Drinks>]> = None;
    check_order(test, builder, &none, None, "no unions");
    check_order(test, builder, &DefaultValue, None, "unions by default");
    check_optional_order(test, builder, &(), None, "nothing for unions");
    check_optional_order(test, builder, &absent, None, "no vector of unions");
    check_eq(
        test,
        &builder.len(),
        &0,
        "vectors of unions that are left out",
    );
}

fn check_empty_union_vectors(test: &Test<'_>, builder: &mut Builder) -> Result<(), BuildError> {
    let none: &[UnionOffset<Drinks>] = &[];
    check_optional_order(
        test,
        builder,
        &Some(none),
        Some((4, 8)),
        "some empty vector",
    );
    check_bytes(test, builder.as_slice(), &[0; 8], "two counts");
    Ok(())
}

fn check_written_union_vectors(test: &Test<'_>, builder: &mut Builder) -> Result<(), BuildError> {
    let none: &[UnionOffset<Drinks>] = &[];
    let vector = builder.create_union_vector::<Drinks, &[UnionOffset<Drinks>]>(none)?;
    let (tags, values) = (vector.tags_offset(), vector.values_offset());
    if tags.distance() as usize > builder.len() || values.distance() as usize > builder.len() {
        return Err(BuildError::TooLarge);
    }
    check_order(test, builder, &vector, Some((4, 8)), "a written vector");
    check_eq(test, &builder.len(), &8, "a written vector");
    Ok(())
}

#[test]
fn fields(rt: HostRuntime) -> Result<(), Fail> {
    let test = Test::new(&rt);
    in_builder(&test, NO_CACHES, check_owned_texts);
    in_builder(&test, NO_CACHES, check_texts_of_before);
    in_builder(&test, NO_CACHES, check_all_lists);
    in_builder(&test, NO_CACHES, check_empty_union_vectors);
    in_builder(&test, NO_CACHES, check_written_union_vectors);
    in_builder(&test, NO_CACHES, check_unions);
    test.end()
}
