//! Every call of a reader, a slice and an error's constructor, without memory.

use super::{size_prefixed, slices, tables, traits};
use planus_read::Error;
use planus_read::errors::{ErrorKind, UnknownEnumTagKind};
use planus_testing::{Test, check, check_eq, without_memory};
use std::test::Fail;

fn check_unknown_tag(test: &Test<'_>) {
    let source = UnknownEnumTagKind { tag: 7 };
    let kind = ErrorKind::UnknownEnumTag { source };
    let located = Error::from(source.with_error_location("T", "m", 6));
    check_eq(test, &ErrorKind::from(source), &kind, "of a tag");
    check_eq(
        test,
        &located.error_kind,
        &kind,
        "of a tag, with a location",
    );
    check_eq(
        test,
        &located.source_location.byte_offset,
        &6,
        "that location's offset",
    );
}

fn check_utf8_fault(test: &Test<'_>) {
    let Err(source) = std::str::from_utf8(&[0xff]) else {
        return check(test, false, "a fault in UTF-8");
    };
    let located: Error = ErrorKind::from(source).with_error_location("T", "m", 5);
    let is_fault = matches!(located.error_kind, ErrorKind::InvalidUtf8 { .. });
    check(test, is_fault, "a fault in UTF-8, with a location");
    check_eq(
        test,
        &located.source_location.byte_offset,
        &5,
        "that location's offset",
    );
}

fn check_tables(test: &Test<'_>) {
    tables::check_bad_tables(test);
    tables::check_weapon(test);
    tables::check_u16_table(test);
    tables::check_half_a_union_vector(test);
    tables::check_fields_past_the_end(test);
    tables::check_union(test);
    tables::check_two_unions(test);
}

fn check_traits(test: &Test<'_>) {
    traits::check_numbers(test);
    traits::check_floats(test);
    traits::check_lists(test);
    traits::check_texts(test);
    traits::check_unions(test);
    traits::check_roots(test);
}

fn check_all(test: &Test<'_>) {
    check_tables(test);
    check_traits(test);
    slices::check_slices(test);
    size_prefixed::check_streams(test);
    check_unknown_tag(test);
    check_utf8_fault(test);
}

#[test]
fn no_reader_asks_for_memory(rt: HostRuntime) -> Result<(), Fail> {
    let test = Test::new(&rt);
    without_memory(&test, check_all);
    test.end()
}
