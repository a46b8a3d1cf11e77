//! Hexadecimal digits, and strings in quotes.
ghost use Rattle.std.specs.Prelude.{◌≡◌, ◌<◌, ◌*◌, ◌+◌, ◌++◌, OnOk, length, min};
ghost use Rattle.std.specs.Char.{digit_char};
ghost use Rattle.std.specs.List.{flat_map};
ghost use Rattle.std.specs.Str.{chars};
ghost use Rattle.std.specs.String.{string_bytes};
ghost use Rattle.planus_dump.specs.Lines as spec;

use std::alloc::AllocError;

fn hex_digit(value: u8) -> char
    requires { value < 16 }
    ensures digit { result ≡ digit_char value }
    ensures ascii { result < 128 }
{
    match char::from_digit(u32::from(value), 16) {
        Some(digit) => digit,
        None => unreachable!(),
    }
}

/// Adds the two hexadecimal digits of a byte, in lower case.
pub fn push_hex(text: &mut String, byte: u8) -> Result<(), AllocError>
    ensures { OnOk result (string_bytes text.new ≡ string_bytes text.old ++ spec.hex_of byte) }
{
    text.push(hex_digit(byte / 16))?;
    text.push(hex_digit(byte % 16))?;
    Ok(())
}

fn push_digits(text: &mut String, bytes: &[u8]) -> Result<(), AllocError>
    ensures { OnOk result (string_bytes text.new
        ≡ string_bytes text.old ++ flat_map spec.hex_of bytes.now) }
{
    for byte in bytes {
        push_hex(text, *byte)?;
    }
    Ok(())
}

pub(crate) fn push_bytes(text: &mut String, bytes: &[u8]) -> Result<(), AllocError>
    ensures { OnOk result (string_bytes text.new ≡ string_bytes text.old
        ++ spec.bytes_text bytes.now) }
{
    if bytes.is_empty() {
        return text.push_str("bytes");
    }
    text.push_str("bytes ")?;
    push_digits(text, bytes)
}

pub(crate) fn bytes_size(bytes: &[u8]) -> usize
    ensures { result ≡ min (length (spec.bytes_text bytes.now)) usize.MAX }
{
    if bytes.is_empty() {
        return 5;
    }
    bytes.len().saturating_mul(2).saturating_add(6)
}

fn is_unseen(c: char) -> bool
    ensures { result ≡ spec.is_unseen c }
{
    matches!(
        c,
        '\u{80}'..='\u{9f}' | '\u{61c}' | '\u{200e}'..='\u{200f}' | '\u{202a}'..='\u{202e}'
            | '\u{2066}'..='\u{2069}'
    )
}

fn push_escaped(text: &mut String, c: char) -> Result<(), AllocError>
    ensures { OnOk result (string_bytes text.new ≡ string_bytes text.old ++ spec.escaped c) }
{
    let code = c as u32;
    if code < 32 || code == 127 {
        text.push_str("\\x")?;
        return push_hex(text, code as u8);
    }
    if is_unseen(c) {
        text.push_str("\\u")?;
        push_hex(text, (code / 256) as u8)?;
        return push_hex(text, (code % 256) as u8);
    }
    if c == '"' || c == '\\' {
        text.push('\\')?;
    }
    text.push(c)
}

fn escaped_size(c: char) -> usize
    ensures { result ≡ length (spec.escaped c) }
{
    let code = c as u32;
    if code < 32 || code == 127 {
        return 4;
    }
    if is_unseen(c) {
        return 6;
    }
    if c == '"' || c == '\\' {
        2
    } else {
        c.len_utf8()
    }
}

fn push_all_escaped(quotation: &mut String, text: &str) -> Result<(), AllocError>
    ensures { OnOk result (string_bytes quotation.new
        ≡ string_bytes quotation.old ++ flat_map spec.escaped (chars text.now)) }
{
    for c in text.chars() {
        push_escaped(quotation, c)?;
    }
    Ok(())
}

pub(crate) fn push_quoted(quotation: &mut String, text: &str) -> Result<(), AllocError>
    ensures { OnOk result (string_bytes quotation.new
        ≡ string_bytes quotation.old ++ spec.quoted text.now) }
{
    quotation.push_str("\"")?;
    push_all_escaped(quotation, text)?;
    quotation.push_str("\"")
}

pub(crate) fn quoted_size(text: &str) -> usize
    ensures { result ≡ min (length (spec.quoted text.now)) usize.MAX }
{
    let mut size = 2usize;
    for c in text.chars() {
        size = size.saturating_add(escaped_size(c));
    }
    size
}
