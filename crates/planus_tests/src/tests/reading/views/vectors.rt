pub mod calls;
pub mod copies;
mod rows;

use planus_read::errors::ErrorKind;
use planus_read::{SliceWithStartOffset, TableRead};
use planus_testing::{Test, check, check_eq};
use planus_view::Vector;

// The numbers 1 to 5 of two bytes each, after a reference.
const FIVE: [u8; 18] = [4, 0, 0, 0, 5, 0, 0, 0, 1, 0, 2, 0, 3, 0, 4, 0, 5, 0];

fn numbers(bytes: &[u8]) -> Result<Vector<'_, u16>, ErrorKind> {
    Vector::from_buffer(SliceWithStartOffset::new(bytes, 0), 0)
}

fn five() -> Vector<'static, u16> {
    match numbers(&FIVE) {
        Ok(five) => five,
        Err(_) => Vector::new_empty(),
    }
}

fn check_has(test: &Test<'_>, vector: Vector<'_, u16>, want: &[u16], row: &str) {
    check_eq(test, &vector.len(), &want.len(), row);
    for (item, want) in vector.iter().zip(want) {
        check_eq(test, &item, want, row);
    }
}

fn check_some(test: &Test<'_>, vector: Option<Vector<'_, u16>>, want: &[u16], row: &str) {
    match vector {
        Some(vector) => check_has(test, vector, want, row),
        None => check(test, false, row),
    }
}
