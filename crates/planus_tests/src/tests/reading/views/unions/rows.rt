use super::{Choice, unions};
use planus_read::errors::ErrorKind;
use planus_read::table_reader::Table;
use planus_read::{Error, SliceWithStartOffset, TaggedPlace};
use planus_testing::{Test, check, check_eq, check_fails};
use planus_unions::UnionVector;
use std::test::Fail;

// Slots 0 and 1 hold the tags 1 and 2, at 24, and the strings `A` and `B`, with references at 32.
const UNIONS: &[u8] = b"\x04\0\0\0\xf4\xff\xff\xff\x10\0\0\0\x14\0\0\0\x08\0\x0c\0\x04\0\x08\0\
    \x02\0\0\0\x01\x02\0\0\x02\0\0\0\x10\0\0\0\x04\0\0\0\x01\0\0\0B\0\0\0\x01\0\0\0A\0";

// Two tags and one reference.
const HALF: [u8; 24] = [
    8, 0, 0, 0, 12, 0, 0, 0, 2, 0, 0, 0, 1, 1, 0, 0, 1, 0, 0, 0, 4, 0, 0, 0,
];

fn check_text(test: &Test<'_>, item: Option<Result<TaggedPlace<'_>, Error>>, tag: u8, text: &str) {
    match item {
        Some(Ok(union)) => {
            check_eq(test, &union.tag(), &tag, text);
            check_eq(test, &union.place().read::<&str>(), &Ok(text), text);
        }
        _ => check(test, false, text),
    }
}

type Loot<'a> = UnionVector<'a, TaggedPlace<'a>>;

fn check_items(test: &Test<'_>, unions: Loot<'_>) {
    let mut items = unions.into_iter();
    check_text(test, items.next(), 1, "A");
    check_text(test, items.next(), 2, "B");
    check(test, items.next().is_none(), "no third union");
}

fn check_loot(test: &Test<'_>) {
    let Ok(table) = Table::from_buffer(SliceWithStartOffset::new(UNIONS, 0), 0) else {
        return check(test, false, "a monster");
    };
    match table.access_union_vector::<Loot<'_>>(0, "Monster", "loot") {
        Ok(Some(unions)) => check_items(test, unions),
        _ => check(test, false, "its loot"),
    }
    let behind = table.access_union_vector::<Loot<'_>>(2, "Monster", "none");
    check(test, matches!(behind, Ok(None)), "nothing behind the loot");
}

// The second of two references would pass the end.
const LONGER: [u8; 24] = [
    8, 0, 0, 0, 12, 0, 0, 0, 2, 0, 0, 0, 1, 1, 0, 0, 2, 0, 0, 0, 4, 0, 0, 0,
];

// 255 tags, which would pass the end, and one reference.
const TAGS: [u8; 24] = [
    8, 0, 0, 0, 12, 0, 0, 0, 255, 0, 0, 0, 1, 1, 0, 0, 1, 0, 0, 0, 4, 0, 0, 0,
];

// Lengths are tested before the counts are compared, and the head of the references before the
// tags.
#[test]
fn counts_and_lengths(rt: HostRuntime) -> Result<(), Fail> {
    let mismatched = ErrorKind::UnionVectorLengthsMismatched {
        tags_len: 2,
        values_len: 1,
    };
    let rows = [
        (&HALF, 4, mismatched, "two tags and one reference"),
        (
            &LONGER,
            4,
            ErrorKind::InvalidLength,
            "a reference past the end",
        ),
        (&TAGS, 23, ErrorKind::InvalidOffset, "no head of references"),
        (&TAGS, 4, ErrorKind::InvalidLength, "255 tags"),
    ];
    let test = Test::new(&rt);
    for (bytes, values, kind, row) in rows {
        check_eq(
            &test,
            &unions::<Choice<'_>>(bytes, 0, values).err(),
            &Some(kind),
            row,
        );
    }
    test.end()
}

// The second tag is 9.
const UNKNOWN: &[u8] = b"\x04\0\0\0\xf4\xff\xff\xff\x10\0\0\0\x14\0\0\0\x08\0\x0c\0\x04\0\x08\0\
    \x02\0\0\0\x01\x09\0\0\x02\0\0\0\x10\0\0\0\x04\0\0\0\x01\0\0\0B\0\0\0\x01\0\0\0A\0";

fn check_bad_item(test: &Test<'_>, item: Option<Result<Choice<'_>, Error>>, text: &str) {
    match item {
        Some(answer) => check_fails(test, answer, text),
        None => check(test, false, text),
    }
}

// An item's error has the start of its vector's references.
fn check_starts(test: &Test<'_>) {
    let Ok(choices) = unions::<Choice<'_>>(UNKNOWN, 8, 12) else {
        return check(test, false, "choices");
    };
    let whole = "In <[Choice]@24>::get(): Unknown union (tag = 9)";
    let rest = "In <[Choice]@28>::get(): Unknown union (tag = 9)";
    let a = Some(Ok(Choice::Text("A")));
    let mut items = choices.iter();
    check_eq(test, &items.next(), &a, "the first by an iterator");
    check_eq(test, &choices.first(), &a, "the first");
    check_bad_item(test, choices.get(1usize), whole);
    check_bad_item(test, items.next(), rest);
    check_bad_item(test, choices.last(), whole);
}

#[test]
fn items(rt: HostRuntime) -> Result<(), Fail> {
    let test = Test::new(&rt);
    check_loot(&test);
    check_starts(&test);
    test.end()
}
