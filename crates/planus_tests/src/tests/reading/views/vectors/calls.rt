ghost use Rattle.std.specs.Prelude.{⊤, ◌<◌, ◌^◌, length};

use super::super::calls::{check_item_calls, check_part_calls};
use super::FIVE;
use planus_read::{Error, SliceWithStartOffset, Stride, TableRead, VectorRead};
use planus_testing::{Test, check};
use planus_view::Vector;

#[derive(Clone, Copy)]
struct Second(u8);

impl Stride for Second {
    type Stands = u16;
}

impl<'buf> VectorRead<'buf> for Second {
    ghost gives = { λ S start f x. ⊤ };

    fn from_buffer(buffer: SliceWithStartOffset<'buf>, offset: usize) -> Second {
        let [_, second] = *buffer.unchecked_advance_as_array::<2>(offset).as_array();
        Second(second)
    }
}

const ONE_TEXT: [u8; 17] = [4, 0, 0, 0, 1, 0, 0, 0, 4, 0, 0, 0, 0, 0, 0, 0, 0];

const FIVE_TEXTS: [u8; 33] = [
    4, 0, 0, 0, 5, 0, 0, 0, 20, 0, 0, 0, 16, 0, 0, 0, 12, 0, 0, 0, 8, 0, 0, 0, 4, 0, 0, 0, 0, 0, 0,
    0, 0,
];

const ONE: [u8; 10] = [4, 0, 0, 0, 1, 0, 0, 0, 1, 0];

fn check_calls<'buf, T: VectorRead<'buf> + Drop>(
    test: &Test<'_>,
    v: Vector<'buf, T>,
    len: usize,
    row: &str,
) {
    check_item_calls(test, v, len, row);
    check_part_calls(test, v, len, row);
}

fn check_list<'buf, T: VectorRead<'buf> + Drop>(
    test: &Test<'_>,
    bytes: &'buf [u8],
    len: usize,
    row: &str,
)
    requires { length bytes.now < 2 ^ 63 }
{
    match Vector::<'buf, T>::from_buffer(SliceWithStartOffset::new(bytes, 0), 0) {
        Ok(v) => check_calls(test, v, len, row),
        Err(_) => check(test, false, row),
    }
}

fn check_lists<'buf, T: VectorRead<'buf> + Drop>(
    test: &Test<'_>,
    one: &'buf [u8],
    five: &'buf [u8],
    row: &str,
)
    requires { (length one.now < 2 ^ 63) × (length five.now < 2 ^ 63) }
{
    check_calls(test, Vector::<'buf, T>::new_empty(), 0, row);
    check_list::<T>(test, one, 1, row);
    check_list::<T>(test, five, 5, row);
}

fn check_seconds(test: &Test<'_>) {
    let five: Result<Vector<'_, Second>, _> = Vector::from_buffer(
        SliceWithStartOffset::new(&FIVE, 0),
        0,
    );
    let is_read = matches!(five, Ok(five) if matches!(five.get(4), Some(Second(0))));
    check(test, is_read, "the second byte of the fifth number");
}

pub fn check_vector_calls(test: &Test<'_>) {
    check_lists::<u16>(test, &ONE, &FIVE, "numbers");
    check_lists::<Result<&str, Error>>(test, &ONE_TEXT, &FIVE_TEXTS, "strings");
    check_lists::<Second>(test, &ONE, &FIVE, "second bytes");
    check_seconds(test);
}
