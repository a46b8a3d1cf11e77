use planus_read::errors::ErrorKind;
use planus_read::{ArrayWithStartOffset, SliceWithStartOffset};
use planus_testing::{Test, check, check_bytes, check_eq};

const EIGHT: [u8; 8] = [1, 2, 3, 4, 5, 6, 7, 8];

fn check_outside<T: Drop>(test: &Test<'_>, answer: Result<T, ErrorKind>, row: &str) {
    check_eq(test, &answer.err(), &Some(ErrorKind::InvalidOffset), row);
}

fn check_slice(test: &Test<'_>) {
    let slice = SliceWithStartOffset::new(&EIGHT, 16);
    match slice.advance(3) {
        Ok(rest) => {
            check_eq(test, &rest.offset_from_start(), &19, "after three bytes");
            check_eq(test, &rest.len(), &5, "after three bytes");
            check_bytes(test, rest.as_slice(), &[4, 5, 6, 7, 8], "after three bytes");
        }
        Err(_) => check(test, false, "after three bytes"),
    }
    let is_empty = matches!(slice.advance(8), Ok(none) if none.is_empty());
    check(test, is_empty, "after all bytes");
    check_outside(test, slice.advance(9), "past the end");
}

fn check_arrays_of_slice(test: &Test<'_>, max: usize) {
    let slice = SliceWithStartOffset::new(&EIGHT, 16);
    match slice.advance_as_array::<4>(4) {
        Ok(array) => {
            check_eq(test, &array.offset_from_start(), &20, "the last four bytes");
            check_eq(test, array.as_array(), &[5, 6, 7, 8], "the last four bytes");
        }
        Err(_) => check(test, false, "the last four bytes"),
    }
    let last = slice.unchecked_advance_as_array::<2>(6);
    check_eq(test, last.as_array(), &[7, 8], "the last two bytes");
    check_outside(
        test,
        slice.advance_as_array::<4>(max),
        "four bytes at the greatest",
    );
    check_outside(
        test,
        slice.advance_as_array::<4>(5),
        "four bytes across the end",
    );
}

fn check_arrays_of_array(test: &Test<'_>, max: usize) {
    let array = ArrayWithStartOffset::new(&[5, 6, 7, 8], 20);
    match array.advance_as_array::<2>(2) {
        Ok(part) => {
            check_eq(test, part.as_array(), &[7, 8], "two bytes of an array");
            check_eq(
                test,
                &part.offset_from_start(),
                &22,
                "two bytes of an array",
            );
        }
        Err(_) => check(test, false, "two bytes of an array"),
    }
    check_outside(
        test,
        array.advance_as_array::<2>(max),
        "two bytes at the greatest",
    );
    check_outside(
        test,
        array.advance_as_array::<2>(3),
        "two bytes across the end",
    );
}

pub fn check_slices(test: &Test<'_>) {
    check_slice(test);
    check_arrays_of_slice(test, usize::MAX);
    check_arrays_of_array(test, usize::MAX);
}
