use planus_read::errors::ErrorKind;
use planus_read::{has_identifier, read_size_prefixed};
use planus_testing::{Test, check, check_bytes, check_eq};

// The string `Axe`, size-prefixed, twice.
const TWO: [u8; 32] = [
    12, 0, 0, 0, 4, 0, 0, 0, 3, 0, 0, 0, b'A', b'x', b'e', 0, 12, 0, 0, 0, 4, 0, 0, 0, 3, 0, 0, 0,
    b'A', b'x', b'e', 0,
];

// The string `Axe`, size-prefixed, with an identifier.
const IDENTIFIED: [u8; 20] = [
    16, 0, 0, 0, 8, 0, 0, 0, b'T', b'E', b'S', b'T', 3, 0, 0, 0, b'A', b'x', b'e', 0,
];

fn check_read(test: &Test<'_>, bytes: &[u8], slice: &[u8], rest: &[u8], row: &str) {
    match read_size_prefixed(bytes) {
        Ok((content, behind)) => {
            check_bytes(test, content.as_slice(), slice, row);
            check_eq(test, &content.offset_from_start(), &4, row);
            check_bytes(test, behind, rest, row);
        }
        Err(kind) => check_eq(test, &Err(kind), &Ok(()), row),
    }
}

fn check_refused(test: &Test<'_>, bytes: &[u8], want: ErrorKind, row: &str) {
    check_eq(test, &read_size_prefixed(bytes).err(), &Some(want), row);
}

fn check_buffers(test: &Test<'_>) {
    check_read(test, &TWO, &TWO[4..16], &TWO[16..], "the first of two");
    check_read(test, &TWO[16..], &TWO[4..16], &[], "the second");
    check_read(test, &[0, 0, 0, 0, 7], &[], &[7], "of no bytes");
    check_refused(
        test,
        &TWO[..15],
        ErrorKind::InvalidLength,
        "cut in the first",
    );
    check_refused(
        test,
        &[0xff; 4],
        ErrorKind::InvalidLength,
        "the greatest size",
    );
    check_refused(test, &TWO[..3], ErrorKind::InvalidOffset, "cut in its size");
}

fn check_identifiers(test: &Test<'_>) {
    check(
        test,
        has_identifier(&IDENTIFIED[4..], *b"TEST"),
        "the identifier",
    );
    check(
        test,
        has_identifier(&IDENTIFIED[4..12], *b"TEST"),
        "nothing behind it",
    );
    check(
        test,
        !has_identifier(&IDENTIFIED[4..11], *b"TEST"),
        "cut in it",
    );
    check(
        test,
        !has_identifier(&IDENTIFIED[4..], *b"TESS"),
        "another identifier",
    );
    check(test, !has_identifier(&[], [0; 4]), "of no bytes");
}

pub fn check_streams(test: &Test<'_>) {
    check_buffers(test);
    check_identifiers(test);
}
