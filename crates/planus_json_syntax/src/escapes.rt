//! What follows a backslash.

ghost use Rattle.std.specs.Prelude.{◌≡◌, ◌<◌, ◌≤◌, length, Ok, Err, Some, None, true};
ghost use Rattle.std.specs.Prelude.{IfOk, IfSome, MatchOption, MatchResult};
ghost use Rattle.std.specs.Char.{digit_value as digit_value_lem};
ghost use Rattle.planus_json_syntax.specs.Strings as spec;

use crate::fault_kind::FaultKind;

fn digit_value(b: u8) -> u32
    ensures value { result ≡ digit_value_lem b }
    ensures small { result < 37 }
{
    match b {
        48..=57 => u32::from(b - 48),
        65..=90 => u32::from(b - 55),
        97..=122 => u32::from(b - 87),
        _ => 36,
    }
}

fn is_hex(b: u8) -> bool
    ensures { result ≡ spec.is_hex b }
{
    digit_value(b) < 16
}

fn is_high(n: u32) -> bool
    ensures { result ≡ spec.is_high n }
{
    55296 <= n && n < 56320
}

fn is_low(n: u32) -> bool
    ensures { result ≡ spec.is_low n }
{
    56320 <= n && n < 57344
}

fn four_at(bytes: &[u8]) -> Option<(u32, &[u8])>
    ensures found { MatchOption result (spec.four_at bytes.now ≡ None)
        (λ x. spec.four_at bytes.now ≡ Some (x.0, x.1.now)) }
    ensures small { IfSome result (λ x. x.0 < 65536) }
    ensures shorter { IfSome result (λ x. length x.1.now ≤ length bytes.now) }
{
    match bytes {
        [a, b, c, d, rest @ ..] => {
            if is_hex(*a) && is_hex(*b) && is_hex(*c) && is_hex(*d) {
                let high = digit_value(*a) * 16 + digit_value(*b);
                let low = digit_value(*c) * 16 + digit_value(*d);
                Some((high * 256 + low, rest))
            } else {
                None
            }
        }
        _ => None,
    }
}

/// Returns the character of two halves.
fn both_halves(high: u32, low: u32) -> char
    requires high { spec.is_high high ≡ true }
    requires low { spec.is_low low ≡ true }
    ensures { result ≡ spec.both_halves high low }
{
    match char::from_u32(0x10000 + (high - 55296) * 1024 + (low - 56320)) {
        Some(c) => c,
        None => unreachable!(),
    }
}

fn low_at(high: u32, bytes: &[u8]) -> Result<(char, &[u8]), FaultKind>
    requires { spec.is_high high ≡ true }
    ensures found { MatchResult result (λ x. spec.low_at high bytes.now ≡ Ok (x.0, x.1.now))
        (λ kind. spec.low_at high bytes.now ≡ Err kind) }
    ensures shorter { IfOk result (λ x. length x.1.now ≤ length bytes.now) }
{
    let [b'\\', b'u', digits @ ..] = bytes else {
        return Err(FaultKind::Half);
    };
    let Some((low, rest)) = four_at(digits) else {
        return Err(FaultKind::Half);
    };
    if !is_low(low) {
        return Err(FaultKind::Half);
    }
    Ok((both_halves(high, low), rest))
}

fn code_at(bytes: &[u8]) -> Result<(char, &[u8]), FaultKind>
    ensures found { MatchResult result
        (λ x. spec.code_of (spec.four_at bytes.now) ≡ Ok (x.0, x.1.now))
        (λ kind. spec.code_of (spec.four_at bytes.now) ≡ Err kind) }
    ensures shorter { IfOk result (λ x. length x.1.now ≤ length bytes.now) }
{
    let Some((unit, rest)) = four_at(bytes) else {
        return Err(FaultKind::Digits);
    };
    if is_low(unit) {
        return Err(FaultKind::Half);
    }
    if is_high(unit) {
        return low_at(unit, rest);
    }
    match char::from_u32(unit) {
        Some(c) => Ok((c, rest)),
        None => unreachable!(),
    }
}

fn short(b: u8) -> Option<char>
    ensures { result ≡ spec.short_value b }
{
    match b {
        b'"' | b'\\' | b'/' => Some(char::from(b)),
        b'b' => Some('\u{8}'),
        b'f' => Some('\u{c}'),
        b'n' => Some('\n'),
        b'r' => Some('\r'),
        b't' => Some('\t'),
        _ => None,
    }
}

/// Returns the character of the escape with this letter, and what follows the escape.
pub(crate) fn escape_at(letter: u8, bytes: &[u8]) -> Result<(char, &[u8]), FaultKind>
    ensures found { MatchResult result
        (λ x. spec.escape_at letter bytes.now ≡ Ok (x.0, x.1.now))
        (λ kind. spec.escape_at letter bytes.now ≡ Err kind) }
    ensures shorter { IfOk result (λ x. length x.1.now ≤ length bytes.now) }
{
    if letter == b'u' {
        return code_at(bytes);
    }
    match short(letter) {
        Some(c) => Ok((c, bytes)),
        None => Err(FaultKind::Letter),
    }
}
