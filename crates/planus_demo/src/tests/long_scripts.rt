//! Long scripts and their values.

use super::check_script;
use planus_testing::{Test, check};
use std::alloc::{AllocError, Global};
use std::test::Fail;

fn letter(index: usize) -> u8 {
    b'a'.wrapping_add((index % 26) as u8)
}

pub fn push_text_step(script: &mut Vec<u8>, count: usize) -> Result<(), AllocError> {
    script.extend_from_slice(b"text ")?;
    for index in 0..count {
        script.extend_from_slice(&[letter(index)])?;
    }
    script.extend_from_slice(b"\n")
}

fn digit(byte: u8) -> u8 {
    let digits = *b"0123456789abcdef";
    digits[(byte % 16) as usize]
}

fn push_byte(printed: &mut Vec<u8>, byte: u8) -> Result<(), AllocError> {
    printed.extend_from_slice(&[digit(byte / 16), digit(byte), b' '])
}

pub fn push_bytes(printed: &mut Vec<u8>, bytes: &[u8]) -> Result<(), AllocError> {
    for byte in bytes {
        push_byte(printed, *byte)?;
    }
    Ok(())
}

pub fn end_line(printed: &mut Vec<u8>) -> Result<(), AllocError> {
    printed.pop();
    printed.extend_from_slice(b"\n")
}

pub fn push_word(printed: &mut Vec<u8>, word: usize) -> Result<(), AllocError> {
    push_bytes(printed, &(word as u64).to_le_bytes()[..4])
}

pub fn push_references(printed: &mut Vec<u8>, count: usize) -> Result<(), AllocError> {
    for behind in 0..count {
        push_word(printed, count.wrapping_sub(behind).wrapping_mul(4))?;
    }
    Ok(())
}

pub fn push_text(printed: &mut Vec<u8>, count: usize) -> Result<(), AllocError> {
    push_word(printed, count)?;
    for index in 0..count {
        push_byte(printed, letter(index))?;
    }
    push_byte(printed, 0)?;
    end_line(printed)
}

fn check_long_text(test: &Test<'_>) -> Result<(), AllocError> {
    let mut script = Vec::new(test.alloc());
    push_text_step(&mut script, 200000)?;
    script.extend_from_slice(b"text Hi\nfinish 0 TEST\n")?;
    let mut want = Vec::new(test.alloc());
    // The padding after the second string is one byte.
    push_bytes(&mut want, b"\x10\0\0\0TEST\x02\0\0\0Hi\0\0")?;
    push_text(&mut want, 200000)?;
    check_script(
        test,
        script.as_slice(),
        0,
        want.as_slice(),
        true,
        "200000 letters",
    );
    Ok(())
}

#[test]
fn a_text_of_200000_bytes(rt: HostRuntime) -> Result<(), Fail> {
    let test = Test::new(&rt);
    check(
        &test,
        check_long_text(&test).is_ok(),
        "memory for a long text",
    );
    test.end()
}

fn push_field(alloc: Global, script: &mut Vec<u8>, slot: usize) -> Result<(), AllocError> {
    let field = format!(in alloc; " {slot}=u8:1")?;
    script.extend_from_slice(field.as_bytes())
}

fn push_full_table(alloc: Global, script: &mut Vec<u8>) -> Result<(), AllocError> {
    script.extend_from_slice(b"table")?;
    for slot in 0..256 {
        push_field(alloc, script, slot)?;
    }
    script.extend_from_slice(b"\nfinish 0\n")
}

fn push_its_bytes(printed: &mut Vec<u8>) -> Result<(), AllocError> {
    push_bytes(printed, b"\x04\0\0\0\xfc\xfe\xff\xff")?;
    push_bytes(printed, &[1; 256])?;
    push_bytes(printed, b"\x04\x02\x04\x01")?;
    for slot in 0..256usize {
        push_bytes(printed, &(slot as u16).wrapping_add(4).to_le_bytes())?;
    }
    end_line(printed)
}

fn check_full_table(test: &Test<'_>) -> Result<(), AllocError> {
    let mut script = Vec::new(test.alloc());
    push_full_table(test.alloc(), &mut script)?;
    let mut want = Vec::new(test.alloc());
    push_its_bytes(&mut want)?;
    check_script(
        test,
        script.as_slice(),
        0,
        want.as_slice(),
        true,
        "256 slots",
    );
    Ok(())
}

#[test]
fn a_table_of_256_slots(rt: HostRuntime) -> Result<(), Fail> {
    let test = Test::new(&rt);
    check(
        &test,
        check_full_table(&test).is_ok(),
        "memory for a full table",
    );
    test.end()
}

fn check_comment(
    test: &Test<'_>,
    count: usize,
    unread: usize,
    printed: &str,
    row: &str,
) -> Result<(), AllocError> {
    let script = vec![in test.alloc(); b'#'; count]?;
    let (printed, clean) = (printed.as_bytes(), printed.is_empty());
    check_script(test, script.as_slice(), unread, printed, clean, row);
    Ok(())
}

// One byte more is read than the longest script has.
#[test]
fn longest_script(rt: HostRuntime) -> Result<(), Fail> {
    let test = Test::new(&rt);
    let too_long = "script too long\n";
    for (count, unread, printed, row) in [
        (1048576, 0, "", "1048576 bytes"),
        (1048577, 0, too_long, "1048577 bytes"),
        (1048580, 3, too_long, "1048580 bytes"),
    ] {
        check(
            &test,
            check_comment(&test, count, unread, printed, row).is_ok(),
            row,
        );
    }
    test.end()
}

// Different for each number below 26 * 26 * 26.
fn text(number: usize) -> [u8; 43] {
    let mut text = *b"abc is a text of forty-three letters in all";
    text[0] = letter(number);
    text[1] = letter(number / 26);
    text[2] = letter(number / 676);
    text
}

#[derive(Clone, Copy)]
enum Item {
    Text,
    Number,
    Reference,
    Union,
    Field,
}

fn push_number(
    alloc: Global,
    script: &mut Vec<u8>,
    before: u8,
    number: usize,
) -> Result<(), AllocError> {
    script.extend_from_slice(&[before])?;
    let digits = format!(in alloc; "{number}")?;
    script.extend_from_slice(digits.as_bytes())
}

fn push_item(
    alloc: Global,
    script: &mut Vec<u8>,
    item: Item,
    index: usize,
) -> Result<(), AllocError> {
    let step = index.wrapping_add(15000);
    match item {
        Item::Text => {
            script.extend_from_slice(b"text ")?;
            script.extend_from_slice(&text(index))?;
            script.extend_from_slice(b"\n")
        }
        Item::Number => push_number(alloc, script, b' ', index),
        Item::Reference => push_number(alloc, script, b' ', step),
        Item::Union => {
            push_number(alloc, script, b' ', index % 255 + 1)?;
            push_number(alloc, script, b':', step)
        }
        Item::Field => push_field(alloc, script, index.wrapping_add(4)),
    }
}

fn push_items(
    alloc: Global,
    script: &mut Vec<u8>,
    item: Item,
    count: usize,
) -> Result<(), AllocError> {
    for index in 0..count {
        push_item(alloc, script, item, index)?;
    }
    Ok(())
}

fn push_stretches(alloc: Global, script: &mut Vec<u8>) -> Result<(), AllocError> {
    for stretch in 0..300usize {
        push_items(alloc, script, Item::Text, 48)?;
        script.extend_from_slice(b"finish")?;
        push_number(
            alloc,
            script,
            b' ',
            stretch.wrapping_mul(50).wrapping_add(47),
        )?;
        script.extend_from_slice(b"\nclear\n")?;
    }
    Ok(())
}

const TABLE: &str = "\ntable 0=ref:20000 1=ref:19999 2=tags:20001 3=values:20001";

const ITEMS: &[(&str, Item, usize)] = &[
    ("", Item::Text, 4999),
    ("u16", Item::Number, 5003),
    ("\nrefs", Item::Reference, 2003),
    ("\nunions", Item::Union, 2003),
    (TABLE, Item::Field, 252),
];

fn push_last_stretch(alloc: Global, script: &mut Vec<u8>) -> Result<(), AllocError> {
    for (before, item, count) in ITEMS {
        script.extend_from_slice(before.as_bytes())?;
        push_items(alloc, script, *item, *count)?;
    }
    for _ in 0..7 {
        script.extend_from_slice(b"\nfinish 20002")?;
    }
    script.extend_from_slice(b"\n")
}

#[derive(Clone, Copy)]
enum Part {
    Text { last: usize },
    Number,
    // Each is four bytes nearer to the end than the one before, and its string 48 bytes further.
    Reference { first: usize },
    Tag,
    Offset,
}

fn push_part(printed: &mut Vec<u8>, part: Part, index: usize) -> Result<(), AllocError> {
    match part {
        Part::Text { last } => {
            push_word(printed, 43)?;
            push_bytes(printed, &text(last.wrapping_sub(index)))?;
            push_byte(printed, 0)
        }
        Part::Number => push_bytes(printed, &(index as u64).to_le_bytes()[..2]),
        Part::Reference { first } => {
            push_word(printed, first.wrapping_sub(index.wrapping_mul(52)))
        }
        Part::Tag => push_byte(printed, (index % 255) as u8 + 1),
        Part::Offset => push_bytes(printed, &(index as u64).wrapping_add(20).to_le_bytes()[..2]),
    }
}

fn push_parts(printed: &mut Vec<u8>, part: Part, count: usize) -> Result<(), AllocError> {
    for index in 0..count {
        push_part(printed, part, index)?;
    }
    Ok(())
}

// The table's word, 272 bytes before its vtable, and its four references.
const REFERENCES: &[u8] = b"\xf0\xfe\xff\xff\x38\x2a\0\0\x84\x49\0\0\x08\x03\0\0\xdc\x0a\0\0";

// Sizes of the vtable and of the table, and offsets.
const OFFSETS: &[u8] = b"\x04\x02\x10\x01\x04\0\x08\0\x0c\0\x10\0";

// After the table, strings end 239952 bytes before the end, numbers with two bytes of padding at
// 249960, references at 257976, those of unions at 265992 and the tags, with one of padding, at
// 268000; each vector begins with a count.
const PARTS: &[(&[u8], Part, usize)] = &[
    (OFFSETS, Part::Offset, 252),
    (b"\xd3\x07\0\0", Part::Tag, 2003),
    (b"\0\xd3\x07\0\0", Part::Reference { first: 265944 }, 2003),
    (b"\xd3\x07\0\0", Part::Reference { first: 257928 }, 2003),
    (b"\x8b\x13\0\0", Part::Number, 5003),
    (b"\0\0", Part::Text { last: 4998 }, 4999),
];

fn push_last_line(printed: &mut Vec<u8>, finishes: usize) -> Result<(), AllocError> {
    push_references(printed, finishes)?;
    push_bytes(printed, REFERENCES)?;
    push_bytes(printed, &[1; 252])?;
    for (before, part, count) in PARTS {
        push_bytes(printed, before)?;
        push_parts(printed, *part, *count)?;
    }
    end_line(printed)
}

fn push_lines(printed: &mut Vec<u8>) -> Result<(), AllocError> {
    for _ in 0..300usize {
        push_word(printed, 4)?;
        push_parts(printed, Part::Text { last: 47 }, 48)?;
        end_line(printed)?;
    }
    for finishes in 1..8 {
        push_last_line(printed, finishes)?;
    }
    Ok(())
}

fn check_lines(test: &Test<'_>, script: &[u8]) -> Result<(), AllocError> {
    let mut want = Vec::new(test.alloc());
    push_lines(&mut want)?;
    check_script(test, script, 0, want.as_slice(), true, "20010 steps");
    Ok(())
}

fn check_long_script(test: &Test<'_>, script: &mut Vec<u8>) -> Result<(), AllocError> {
    push_stretches(test.alloc(), script)?;
    push_last_stretch(test.alloc(), script)?;
    check(test, script.len() > 1010000, "more than 1010000 bytes");
    check_lines(test, script.as_slice())?;
    script.extend_from_slice(b"finish 20010\n")?;
    let fault = b"line 20011: no such step\n";
    check_script(test, script.as_slice(), 0, fault, false, "one step more");
    Ok(())
}

#[test]
fn a_script_of_20010_steps(rt: HostRuntime) -> Result<(), Fail> {
    let test = Test::new(&rt);
    let mut script = Vec::new(rt.alloc());
    check(
        &test,
        check_long_script(&test, &mut script).is_ok(),
        "memory for a long script",
    );
    test.end()
}
