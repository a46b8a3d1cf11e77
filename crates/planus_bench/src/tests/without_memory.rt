//! The calls that take no memory.

ghost use Rattle.std.specs.Prelude.{◌≡◌, ◌≤◌, length, IsTrue};

use super::alignments::mask_of;
use super::caches::text_at;
use super::parts::put;
use super::tables::put_number;
use planus::{
    BuildError, Builder, ByRef, Caches, CopyError, DefaultValue, FromItem, List, Offset, Text,
    UnionOffset, UnionVectorOffset, VectorWrite, WriteAs, WriteAsDefault, WriteAsOffset,
    WriteAsOptional, WriteAsOptionalUnion, WriteAsPrimitive, WriteAsUnion, WriteAsUnionVector,
    check_version_compatibility,
};
use planus_back::{BackVec, ByteVec, Cache, GetCacheKey, Promises, TooLarge, VTable, laws};
use planus_read::errors::ErrorKind;
use planus_testing::{Test, check, check_distance, check_done, check_eq, without_memory};
use std::test::Fail;

// A string of 8 bytes, and a table of one number, with 20 bytes in all of 64.
fn prepare(builder: &mut Builder) -> Result<(), BuildError> {
    builder.create_string("Axe")?;
    put_number(builder, 24)
}

fn check_builder(test: &Test<'_>, builder: &Builder) {
    let last = builder.current_offset::<Text>();
    check_eq(test, &builder.len(), &20, "Builder::len");
    check(test, !builder.is_empty(), "Builder::is_empty");
    check_eq(test, &builder.room(), &44, "Builder::room");
    check(
        test,
        builder.as_slice().ends_with(b"\x03\0\0\0Axe\0"),
        "Builder::as_slice",
    );
    check_distance(test, last.downcast(), 20, "Offset::downcast");
    check_distance(test, last, 20, "Builder::current_offset");
}

// Found in a cache, or in the builder's room. A table of two bytes whose vtable is found takes 8
// with padding.
fn check_writes(test: &Test<'_>, builder: &mut Builder) {
    check_eq(
        test,
        &text_at(builder, "Axe"),
        &Ok(8),
        "Builder::create_string",
    );
    check_done(test, put_number(builder, 7), "TableWriter::finish");
    check_eq(test, &builder.len(), &28, "TableWriter::finish");
    check_done(test, put(builder, b"MNO", 1), "Builder::write_with");
    check_eq(test, &builder.room(), &33, "Builder::write_with");
}

fn has(builder: &Builder, distance: u32) -> bool
    ensures { IsTrue result → distance ≤ length builder.now.bytes }
{
    distance as usize <= builder.len()
}

fn check_offset(test: &Test<'_>, builder: &mut Builder, last: Offset<Text>) {
    if !has(builder, last.distance()) {
        return check(test, false, "prepare of an offset");
    }
    match WriteAsOffset::<Text>::prepare(&last, builder) {
        Ok(offset) => check_distance(test, offset, 31, "prepare of an offset"),
        Err(error) => check_done(test, Err(error), "prepare of an offset"),
    }
}

fn check_union(test: &Test<'_>, builder: &mut Builder, union: UnionOffset<()>) {
    if !has(builder, union.offset().distance()) {
        return check(test, false, "prepare of a union");
    }
    match WriteAsUnion::<()>::prepare(&union, builder) {
        Ok(union) => check_eq(test, &union.tag(), &1, "prepare of a union"),
        Err(error) => check_done(test, Err(error), "prepare of a union"),
    }
}

fn check_unions(test: &Test<'_>, builder: &mut Builder) {
    let (tags, values) = (builder.current_offset(), builder.current_offset());
    let unions: UnionVectorOffset<()> = UnionVectorOffset::new(tags, values);
    match WriteAsUnionVector::<()>::prepare(&unions, builder) {
        Ok(unions) => check_distance(test, unions.tags_offset(), 31, "prepare of unions"),
        Err(error) => check_done(test, Err(error), "prepare of unions"),
    }
}

fn check_offsets(test: &Test<'_>, builder: &mut Builder) {
    let last = builder.current_offset::<Text>();
    check_offset(test, builder, last);
    check_union(test, builder, UnionOffset::new(1, last.downcast()));
    check_unions(test, builder);
}

fn check_numbers(test: &Test<'_>, builder: &mut Builder) {
    let by_ref = WriteAs::<u16>::prepare(&ByRef(&7u16), builder);
    check_eq(
        test,
        &WriteAs::<u16>::prepare(&7u16, builder),
        &Ok(7),
        "prepare of u16",
    );
    check_eq(
        test,
        &WriteAs::<bool>::prepare(&true, builder),
        &Ok(true),
        "prepare of bool",
    );
    check_eq(test, &by_ref, &Ok(7), "prepare by reference");
}

fn check_options(test: &Test<'_>, builder: &mut Builder) {
    let none: Option<u16> = None;
    let some = WriteAsOptional::<u16>::prepare(&Some(7u16), builder);
    let no_union = WriteAsOptionalUnion::<()>::prepare(&(), builder);
    check_eq(test, &some, &Ok(Some(7)), "prepare of some number");
    check_eq(
        test,
        &WriteAsOptional::<u16>::prepare(&none, builder),
        &Ok(None),
        "of none",
    );
    let nothing = WriteAsOptional::<u16>::prepare(&(), builder);
    check(test, matches!(nothing, Ok(None)), "prepare of nothing");
    check(test, matches!(no_union, Ok(None)), "prepare of no union");
}

fn check_defaults(test: &Test<'_>, builder: &mut Builder) {
    let same = WriteAsDefault::<u16, u16>::prepare(&7u16, builder, &7);
    let default = WriteAsDefault::<u16, u16>::prepare(&DefaultValue, builder, &7);
    check_eq(test, &same, &Ok(None), "prepare of the default's number");
    check(test, matches!(default, Ok(None)), "prepare of the default");
}

fn written() -> ([u8; 2], [u8; 4]) {
    let (mut one, mut two) = ([0u8; 2], [0u8; 4]);
    WriteAsPrimitive::<u16>::write(&0x102u16, &mut one, 2);
    <u16 as VectorWrite<u16>>::write_values(&[1, 2], &mut two, 4);
    (one, two)
}

fn check_values(test: &Test<'_>) {
    let error = ErrorKind::InvalidLength.with_error_location("T", "m", 5);
    let (number, truth) = (
        u16::from_item(test.alloc(), 7),
        bool::from_item(test.alloc(), true),
    );
    let (one, two) = written();
    check_eq(test, &one, &[2, 1], "write");
    check_eq(test, &two, &[1, 0, 2, 0], "write_values");
    check(test, matches!(number, Ok(7)), "u16::from_item");
    check(test, matches!(truth, Ok(true)), "bool::from_item");
    check(
        test,
        matches!(CopyError::from(error), CopyError::Read(_)),
        "CopyError::from",
    );
    check_eq(
        test,
        &BuildError::from(TooLarge),
        &BuildError::TooLarge,
        "BuildError::from",
    );
}

fn check_request(test: &Test<'_>) {
    match Promises::new().request(0, 4, mask_of(4)) {
        Ok((next, padding)) => {
            check_eq(test, &padding, &0, "Promises::request");
            check_eq(test, &next.mask(), &3, "Promises::mask");
        }
        Err(error) => check_eq(test, &Some(error), &None, "Promises::request"),
    }
}

fn check_settings(test: &Test<'_>) {
    check_eq(test, &Caches::all().hash_mask, &u64::MAX, "Caches::all");
    check(
        test,
        check_version_compatibility("planus-1.3.0"),
        "check_version_compatibility",
    );
}

fn check_keys(test: &Test<'_>) {
    let vtable = b"\x04\0\x04\0".as_slice();
    let bytes = ByteVec::key_at(b"\x02\0\0\0Hi", 6);
    check_eq(
        test,
        &VTable::key_at(b"\x04\0\x04\0", 4),
        &Some(vtable),
        "VTable::key_at",
    );
    check_eq(test, &bytes, &Some(b"Hi".as_slice()), "ByteVec::key_at");
}

fn check_cache(test: &Test<'_>, cache: &mut Cache<ByteVec>) {
    laws::empty_caches_fit::<ByteVec>();
    cache.clear();
    check_eq(
        test,
        &cache.get(b"\x02\0\0\0Hi", b"Hi"),
        &None,
        "Cache::get",
    );
}

// 3 bytes with room for 61 more.
fn check_back_vector(test: &Test<'_>, back: &mut BackVec) {
    check_eq(test, &back.len(), &3, "BackVec::len");
    check_eq(test, &back.room(), &61, "BackVec::room");
    check_eq(
        test,
        &back.as_slice(),
        &b"Axe".as_slice(),
        "BackVec::as_slice",
    );
    check(test, back.reserve(61).is_ok(), "BackVec::reserve");
    check(
        test,
        back.extend_from_slice(b"A").is_ok(),
        "BackVec::extend_from_slice",
    );
    check(
        test,
        back.extend_with_zeros(60).is_ok(),
        "BackVec::extend_with_zeros",
    );
    back.clear();
    check_eq(test, &back.room(), &64, "BackVec::clear");
}

fn check_builder_calls(test: &Test<'_>, builder: &mut Builder) {
    check_builder(test, builder);
    check_writes(test, builder);
    check_offsets(test, builder);
    check_numbers(test, builder);
    check_options(test, builder);
    check_defaults(test, builder);
    builder.clear();
    check_eq(test, &builder.room(), &64, "Builder::clear");
}

fn check_calls(
    test: &Test<'_>,
    builder: &mut Builder,
    back: &mut BackVec,
    cache: &mut Cache<ByteVec>,
) {
    check_builder_calls(test, builder);
    check_cache(test, cache);
    check_back_vector(test, back);
    check_keys(test);
    check_request(test);
    check_values(test);
    check_settings(test);
}

fn check_with_cache(
    test: &Test<'_>,
    builder: &mut Builder,
    back: &mut BackVec,
) -> Result<(), BuildError> {
    back.extend_from_slice(b"Axe")?;
    let mut cache: Cache<ByteVec> = Cache::new(test.alloc(), u64::MAX)?;
    without_memory(test, |test| check_calls(test, builder, back, &mut cache));
    Ok(())
}

fn check_with_back_vector(test: &Test<'_>, builder: &mut Builder) -> Result<(), BuildError> {
    prepare(builder)?;
    let mut back = BackVec::with_capacity(test.alloc(), 64)?;
    check_with_cache(test, builder, &mut back)
}

fn check_in_64_bytes(test: &Test<'_>) -> Result<(), BuildError> {
    let mut builder = Builder::with_capacity(test.alloc(), 64)?;
    check_with_back_vector(test, &mut builder)
}

#[test]
fn no_call_asks_for_memory(rt: HostRuntime) -> Result<(), Fail> {
    let test = Test::new(&rt);
    check_done(&test, check_in_64_bytes(&test), "a builder of 64 bytes");
    test.end()
}
