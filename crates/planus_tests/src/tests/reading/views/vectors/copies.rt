ghost use Rattle.std.specs.Prelude.{⊤};

use super::super::calls::taken;
use super::super::push_numbers;
use super::rows::{DAMAGED, TEXTS, texts};
use super::{five, numbers};
use planus_read::errors::ErrorKind;
use planus_testing::{Test, check, check_eq, check_prints};
use planus_view::{CopyError, FromItem, Vector};
use std::alloc::{AllocError, Global};
use std::test::Fail;

#[derive(Clone, Copy, PartialEq, Debug)]
struct Small(u16);

impl FromItem<u16> for Small {
    ghost converts = { λ item r. ⊤ };

    fn from_item(_alloc: Global, item: u16) -> Result<Small, CopyError> {
        if item > 4 {
            return Err(CopyError::Read(ErrorKind::InvalidLength.with_error_location(
                "Small",
                "from_item",
                0,
            )));
        }
        Ok(Small(item))
    }
}

pub fn check_copy(test: &Test<'_>) {
    match five().to_vec::<u16>(test.alloc()) {
        Ok(same) => check_eq(
            test,
            &same.as_slice(),
            &[1, 2, 3, 4, 5].as_slice(),
            "a copy",
        ),
        Err(error) => check_eq(test, &Some(error), &None, "a copy"),
    }
}

fn check_converted(test: &Test<'_>) {
    let Some(four) = five().get(..4) else {
        return check(test, false, "the first four numbers");
    };
    match four.to_vec::<Small>(test.alloc()) {
        Ok(small) => check_eq(test, &small.len(), &4, "four small numbers"),
        Err(_) => check(test, false, "four small numbers"),
    }
    let refusal = five().to_vec::<Small>(test.alloc()).err();
    check_refused(
        test,
        refusal,
        "Small",
        "five numbers, one of them not small",
    );
}

fn check_refused(test: &Test<'_>, refusal: Option<CopyError>, type_: &str, row: &str) {
    match refusal {
        Some(CopyError::Read(error)) => {
            check_eq(test, &error.source_location.type_, &type_, row);
        }
        _ => check(test, false, row),
    }
}

pub fn refusal_of_copy(alloc: Global) -> Option<CopyError> {
    five().to_vec::<u16>(alloc).err()
}

fn texts_of(alloc: Global, bytes: &[u8]) -> Result<Vec<String>, CopyError> {
    match texts(bytes) {
        Ok(texts) => texts.to_vec_result::<String>(alloc),
        Err(kind) => Err(CopyError::Read(kind.with_error_location("", "", 0))),
    }
}

fn check_texts(test: &Test<'_>) {
    match texts_of(test.alloc(), &TEXTS) {
        Ok(copies) => {
            let is_a_b = matches!(
                copies.as_slice(),
                [a, b] if a.as_str() == "A" && b.as_str() == "B"
            );
            check(test, is_a_b, "the strings A and B");
        }
        Err(_) => check(test, false, "the strings A and B"),
    }
}

fn check_damaged_texts(test: &Test<'_>) {
    let text = "In <[str]@c>::get(): Missing null terminator";
    match texts_of(test.alloc(), &DAMAGED) {
        Err(CopyError::Read(error)) => check_prints(test, &error, text),
        _ => check(test, false, text),
    }
}

#[test]
fn items_are_copied(rt: HostRuntime) -> Result<(), Fail> {
    let test = Test::new(&rt);
    check_converted(&test);
    check_texts(&test);
    check_damaged_texts(&test);
    let error = ErrorKind::InvalidOffset.with_error_location("T", "get", 0);
    check_refused(&test, Some(CopyError::from(error)), "T", "an error");
    test.end()
}

fn many_numbers(alloc: Global) -> Result<Vec<u8>, AllocError> {
    let mut bytes = Vec::from_slice(alloc, b"\x04\0\0\0\x8b\x13\0\0")?;
    push_numbers(&mut bytes, b"")?;
    Ok(bytes)
}

fn check_counted(test: &Test<'_>, copies: &[u16]) {
    for (number, want) in copies.iter().zip(0..5003) {
        check_eq(test, number, &want, "one of many numbers");
    }
    check_eq(test, &copies.len(), &5003, "many numbers");
}

fn check_many(test: &Test<'_>, many: Vector<'_, u16>) {
    match many.to_vec::<u16>(test.alloc()) {
        Ok(copies) => check_counted(test, copies.as_slice()),
        Err(_) => check(test, false, "many numbers"),
    }
    check_eq(
        test,
        &many.iter().clone().unwrap().count(),
        &5003,
        "many items",
    );
    check_eq(test, &taken(many.chunks(7)), &5003, "many items in chunks");
}

// A string of 5003 letters and one of one letter.
fn a_long_text(alloc: Global) -> Result<Vec<u8>, AllocError> {
    let front = b"\x04\0\0\0\x02\0\0\0\x08\0\0\0\x94\x13\0\0\x8b\x13\0\0";
    let mut bytes: Vec<u8> = Vec::from_slice(alloc, front)?;
    let letters = vec![in alloc; b'A'; 5003]?;
    bytes.extend_from_slice(letters.as_slice())?;
    bytes.extend_from_slice(b"\0\x01\0\0\0B\0")?;
    Ok(bytes)
}

fn check_long_text(test: &Test<'_>, bytes: &[u8]) {
    let Some(behind) = bytes.get(20..) else {
        return check(test, false, "a long string");
    };
    match texts_of(test.alloc(), bytes) {
        Ok(copies) => {
            let is_copied = matches!(copies.as_slice(), [a, b] if a.len() == 5003
                && behind.starts_with(a.as_bytes())
                && b.as_str() == "B");
            check(test, is_copied, "a long string, and another");
        }
        Err(_) => check(test, false, "a long string, and another"),
    }
}

#[test]
fn many_numbers_are_copied(rt: HostRuntime) -> Result<(), Fail> {
    let list = many_numbers(rt.alloc())?;
    let many = numbers(list.as_slice())?;
    let test = Test::new(&rt);
    check_many(&test, many);
    test.end()
}

#[test]
fn a_long_text_is_copied(rt: HostRuntime) -> Result<(), Fail> {
    let text = a_long_text(rt.alloc())?;
    let test = Test::new(&rt);
    check_long_text(&test, text.as_slice());
    test.end()
}
