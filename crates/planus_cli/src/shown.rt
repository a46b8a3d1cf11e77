//! Texts as a terminal may show them: no byte of theirs moves its cursor or turns its direction.

ghost use Rattle.std.specs.Prelude.{◌≡◌, ◌<◌, ◌++◌, OnOk};
ghost use Rattle.std.specs.Char.{digit_char};
ghost use Rattle.std.specs.List.{list_any};
ghost use Rattle.std.specs.Str.{chars};
ghost use Rattle.planus_cli.specs.Shown as spec;

use std::alloc::AllocError;

/// Whether it is a control character but a tab, or a mark of direction.
fn is_hidden(c: char) -> bool
    ensures { result ≡ spec.is_hidden c }
{
    matches!(
        c,
        '\0'..='\x08' | '\n'..='\x1f' | '\x7f'..='\u{9f}' | '\u{61c}' | '\u{200e}'..='\u{200f}'
            | '\u{202a}'..='\u{202e}' | '\u{2066}'..='\u{2069}'
    )
}

fn has_hidden(text: &str) -> bool
    ensures { result ≡ list_any spec.is_hidden (chars text.now) }
{
    text.chars().any(|c| is_hidden(c))
}

fn is_seen(bytes: &[u8]) -> bool
    ensures { result ≡ spec.is_seen bytes.now }
{
    match std::str::from_utf8(bytes) {
        Ok(text) => !has_hidden(text),
        Err(_) => false,
    }
}

/// How many bytes a character has that begins with this one.
fn width(first: u8) -> usize
    ensures { result ≡ spec.width first }
{
    match first {
        0..=127 => 1,
        128..=223 => 2,
        224..=239 => 3,
        _ => 4,
    }
}

/// How many bytes the first character has; 0 where it isn't seen, or none begins here.
fn seen_length(bytes: &[u8]) -> usize
    ensures { result ≡ spec.seen_length bytes.now }
{
    let Some(first) = bytes.first() else {
        return 0;
    };
    let length = width(*first);
    if is_seen(&bytes[..length.min(bytes.len())]) {
        length
    } else {
        0
    }
}

fn kept_of(kept: usize, bytes: &[u8]) -> usize
    ensures { result ≡ spec.kept_of kept bytes.now }
{
    if kept == 0 { seen_length(bytes) } else { kept }
}

pub(crate) fn hex_digit(value: u8) -> u8
    requires { value < 16 }
    ensures { result ≡ digit_char value }
{
    if value < 10 {
        b'0' + value
    } else {
        b'a' + value - 10
    }
}

fn put_sign(out: &mut Vec<u8>, kept: usize, byte: u8) -> Result<(), AllocError>
    ensures { OnOk result (out.new.items ≡ out.old.items ++ spec.sign kept byte) }
{
    if kept > 0 {
        out.push(byte)?;
    } else {
        out.extend_from_slice(&[b'\\', b'x', hex_digit(byte / 16), hex_digit(byte % 16)])?;
    }
    Ok(())
}

/// Adds bytes as a terminal may show them: its characters that are seen as they are, and each other
/// byte as `\x` and two hexadecimal digits.
pub fn put_shown(out: &mut Vec<u8>, bytes: &[u8]) -> Result<(), AllocError>
    ensures { OnOk result (out.new.items ≡ out.old.items ++ spec.shown bytes.now) }
{
    let mut kept = 0;
    let mut rest = bytes;
    'bytes: while let Some((first, after)) = rest.split_first() {
        kept = kept_of(kept, rest);
        put_sign(out, kept, *first)?;
        kept = kept.saturating_sub(1);
        rest = after;
    }
    Ok(())
}
