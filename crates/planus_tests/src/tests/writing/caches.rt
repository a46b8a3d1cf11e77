use super::prepared;
use planus_testing::{Test, check_bytes, check_distance, check_eq, in_builder};
use planus_write::{BuildError, Builder, ByteList, Caches, Offset, SignedList, Text};
use std::test::Fail;

type Done = Result<(), BuildError>;

// Its distance, and the bytes that there are then.
fn check_text(
    test: &Test<'_>,
    builder: &Builder,
    text: Offset<Text>,
    place: (u32, usize),
    row: &str,
) {
    check_eq(test, &(text.distance(), builder.len()), &place, row);
}

fn check_texts(test: &Test<'_>, builder: &mut Builder, on: bool) -> Done {
    let first = prepared::<Text, &str>(builder, &"Hi")?;
    check_text(test, builder, first, (7, 7), "Hi, prepared");
    let rows = if on {
        [("Hi", (7, 7)), ("Ho", (15, 15)), ("Hi", (7, 15))]
    } else {
        [("Hi", (15, 15)), ("Ho", (23, 23)), ("Hi", (31, 31))]
    };
    for (text, place) in rows {
        let found = builder.create_string(text)?;
        check_text(test, builder, found, place, text);
    }
    Ok(())
}

#[test]
fn a_text_twice(rt: HostRuntime) -> Result<(), Fail> {
    let test = Test::new(&rt);
    for (texts, hash_mask) in [(true, u64::MAX), (true, 0), (false, u64::MAX)] {
        let caches = Caches {
            texts,
            hash_mask,
            ..Caches::all()
        };
        in_builder(
            &test,
            caches,
            |test, builder| check_texts(test, builder, texts),
        );
    }
    test.end()
}

fn check_a_list_and_a_text(test: &Test<'_>, builder: &mut Builder) -> Done {
    let list = builder.create_vector::<u8, ByteList<'_>>(ByteList(b"Axe"))?;
    let text = builder.create_string("Axe")?;
    let bytes = b"\x03\0\0\0Axe\0\x03\0\0\0Axe";
    check_distance(test, list, 7, "a byte vector");
    check_distance(test, text, 15, "a string of the same bytes");
    check_bytes(test, builder.as_slice(), bytes, "both");
    Ok(())
}

fn check_equal_lists(test: &Test<'_>, builder: &mut Builder) -> Done {
    let bytes = builder.create_vector::<u8, ByteList<'_>>(ByteList(&[72, 105]))?;
    let signed = builder.create_vector::<i8, SignedList<'_>>(SignedList(&[72, 105]))?;
    check_distance(test, bytes, 6, "bytes");
    check_distance(test, signed, 6, "the same, signed");
    Ok(())
}

#[test]
fn byte_lists(rt: HostRuntime) -> Result<(), Fail> {
    let test = Test::new(&rt);
    in_builder(&test, Caches::all(), check_a_list_and_a_text);
    in_builder(&test, Caches::all(), check_equal_lists);
    test.end()
}
