use super::traits::field;
use planus_read::Error;
use planus_read::errors::{ErrorKind, ErrorLocation, UnknownEnumTagKind};
use planus_testing::{Test, check, check_eq, check_prints};
use planus_view::CopyError;
use std::test::Fail;

#[test]
fn kinds_print_their_texts(rt: HostRuntime) -> Result<(), Fail> {
    let test = Test::new(&rt);
    let rows = [
        (ErrorKind::InvalidOffset, "Invalid offset"),
        (ErrorKind::InvalidLength, "Invalid length"),
        (ErrorKind::MissingRequired, "Missing required field"),
        (ErrorKind::MissingNullTerminator, "Missing null terminator"),
        (
            ErrorKind::UnionVectorLengthsMismatched {
                tags_len: 2,
                values_len: 3,
            },
            "Mismatched lengths between tag and value vectors. Length of tags = 2, length of \
             values = 3",
        ),
        (
            ErrorKind::from(UnknownEnumTagKind { tag: -1 }),
            "Unknown enum (tag = -1)",
        ),
        (
            ErrorKind::UnknownUnionTag { tag: 9 },
            "Unknown union (tag = 9)",
        ),
        (
            ErrorKind::InvalidVtableLength { length: 3 },
            "Invalid vtable length (length = 3)",
        ),
    ];
    for (kind, text) in rows {
        check_prints(&test, &kind, text);
    }
    test.end()
}

fn check_fault(test: &Test<'_>, bytes: &[u8], text: &str) {
    match std::str::from_utf8(bytes) {
        Ok(_) => check(test, false, text),
        Err(source) => {
            check_prints(test, &format_args!("Invalid utf-8: {source}"), text);
            check_prints(test, &ErrorKind::from(source), text);
        }
    }
}

#[test]
fn faults_in_utf8_print_as_std_prints_them(rt: HostRuntime) -> Result<(), Fail> {
    let test = Test::new(&rt);
    let rows: [(&[u8], &str); 4] = [
        (
            &[0xff],
            "Invalid utf-8: invalid utf-8 sequence of 1 bytes from index 0",
        ),
        (
            &[b'A', 0xf0, 0x9f, 0x92, b'B', 0xff],
            "Invalid utf-8: invalid utf-8 sequence of 3 bytes from index 1",
        ),
        (
            &[b'A', b'x', 0xe2, 0x82],
            "Invalid utf-8: incomplete utf-8 byte sequence from index 2",
        ),
        (
            &[0xc3, 0xa9, 0xc3],
            "Invalid utf-8: incomplete utf-8 byte sequence from index 2",
        ),
    ];
    for (bytes, text) in rows {
        check_fault(&test, bytes, text);
    }
    test.end()
}

// The third of the four bytes is the first that isn't UTF-8.
const FAULTY: [u8; 13] = [4, 0, 0, 0, 4, 0, 0, 0, b'A', b'x', 0xff, 0xfe, 0];

const FAULT: &str = "In <T@ff>::m(): Invalid utf-8: invalid utf-8 sequence of 1 bytes from index 2";

fn check_errors(test: &Test<'_>) {
    check_prints(
        test,
        &long_name(255),
        "In <Monster@ff>::name(): Invalid length",
    );
    match field::<&str>(&FAULTY, 0) {
        Ok(_) => check(test, false, FAULT),
        Err(kind) => check_prints(test, &kind.with_error_location("T", "m", 255), FAULT),
    }
}

fn location(byte_offset: usize) -> ErrorLocation {
    ErrorLocation {
        type_: "T",
        method: "m",
        byte_offset,
    }
}

const TAG: &str = "In <Color@10>::color(): Unknown enum (tag = -1)";

fn check_unknown_tags(test: &Test<'_>) {
    let kind = UnknownEnumTagKind { tag: -1 };
    let tag = kind.with_error_location("Color", "color", 16);
    check_prints(test, &kind, "Unknown enum (tag = -1)");
    check_prints(test, &tag, TAG);
    match tag.clone() {
        Ok(copy) => check_prints(test, &Error::from(copy), TAG),
        Err(_) => check(test, false, TAG),
    }
}

fn check_locations(test: &Test<'_>) {
    check_prints(test, &location(255), "<T@ff>::m()");
    check_prints(test, &location(usize::MAX), "<T>::m()");
}

fn long_name(offset: usize) -> Error {
    ErrorKind::InvalidLength.with_error_location("Monster", "name", offset)
}

fn check_comparing(test: &Test<'_>) {
    let kind = field::<u32>(&[0; 3], 0);
    let copying = CopyError::from(long_name(4));
    check_eq(test, &kind, &Err(ErrorKind::InvalidOffset), "a field");
    check_eq(test, &long_name(4), &long_name(4), "one error twice");
    check(test, long_name(4) != long_name(5), "two errors");
    check(
        test,
        copying != CopyError::OutOfMemory,
        "two errors of copies",
    );
}

#[test]
fn errors_print_their_texts(rt: HostRuntime) -> Result<(), Fail> {
    let test = Test::new(&rt);
    check_errors(&test);
    check_unknown_tags(&test);
    check_locations(&test);
    check_comparing(&test);
    test.end()
}
