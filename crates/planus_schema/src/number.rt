//! The integers of digits.

ghost use Rattle.std.specs.Prelude.{◌≡◌, ◌+◌, ◌*◌, true, IfSome};
ghost use Rattle.std.specs.List.{list_all};
ghost use Rattle.planus_schema.specs.Numbers as spec;

/// An integer; zero is not negative.
#[derive(Clone, Copy, PartialEq, Eq)]
pub struct Number {
    pub negative: bool,
    pub magnitude: u64,
}

fn is_digit(hexadecimal: bool, b: u8) -> bool
    ensures { result ≡ spec.is_digit hexadecimal b }
{
    if hexadecimal {
        b.is_ascii_hexdigit()
    } else {
        b.is_ascii_digit()
    }
}

fn digit_value(b: u8) -> u64
    ensures { result ≡ spec.digit_value b }
{
    if b >= 97 {
        u64::from(b - 87)
    } else if b >= 65 {
        u64::from(b - 55)
    } else {
        u64::from(b.saturating_sub(48))
    }
}

fn base(hexadecimal: bool) -> u64
    ensures { result ≡ spec.base hexadecimal }
{
    if hexadecimal { 16 } else { 10 }
}

fn with_digit(total: u64, base: u64, digit: u64) -> Option<u64>
    ensures { result ≡ spec.held (total * base + digit) }
{
    match total.checked_mul(base) {
        Some(product) => product.checked_add(digit),
        None => None,
    }
}

fn read_digits(hexadecimal: bool, digits: &[u8]) -> Option<u64>
    ensures said { result ≡ spec.digits_said hexadecimal digits.now }
    ensures digits { IfSome result (λ _. list_all (spec.is_digit hexadecimal) digits.now ≡ true) }
    ensures value { IfSome result (λ n. n ≡ spec.value_in (spec.base hexadecimal) digits.now) }
{
    let mut total = 0;
    'digits: for b in digits {
        if !is_digit(hexadecimal, *b) {
            return None;
        }
        match with_digit(total, base(hexadecimal), digit_value(*b)) {
            Some(more) => total = more,
            None => return None,
        }
    }
    Some(total)
}

fn is_negative(digits: &[u8]) -> bool
    ensures { result ≡ spec.has_minus digits.now }
{
    match digits.split_first() {
        Some((b, _)) => *b == b'-',
        None => false,
    }
}

/// Returns the digits after a sign.
pub fn without_sign(digits: &[u8]) -> &[u8]
    ensures { result.now ≡ spec.without_sign digits.now }
{
    match digits.split_first() {
        Some((b, rest)) if *b == b'+' || *b == b'-' => rest,
        _ => digits,
    }
}

/// Returns whether these begin with `0x` or `0X`.
pub fn is_hexadecimal(digits: &[u8]) -> bool
    ensures { result ≡ spec.is_hexadecimal digits.now }
{
    match digits {
        [a, b, ..] => *a == b'0' && (*b == b'x' || *b == b'X'),
        _ => false,
    }
}

fn without_mark(digits: &[u8]) -> &[u8]
    ensures { result.now ≡ spec.without_mark digits.now }
{
    match digits {
        [_, _, rest @ ..] if is_hexadecimal(digits) => rest,
        _ => digits,
    }
}

/// Returns the integer of a word, if its distance from zero is below 2^64.
pub fn integer(word: &[u8]) -> Option<Number>
    ensures said { result ≡ spec.integer_said word.now }
    ensures whole { IfSome result (λ _. spec.is_integer word.now ≡ true) }
    ensures value { IfSome result (λ n. n ≡ spec.integer_of word.now) }
{
    let digits = without_sign(word);
    match read_digits(is_hexadecimal(digits), without_mark(digits)) {
        Some(magnitude) => Some(Number {
            negative: is_negative(word) && magnitude != 0,
            magnitude,
        }),
        None => None,
    }
}

/// Returns the next integer, if it is below 2^64.
pub fn following(number: Number) -> Option<Number>
    ensures said { result ≡ spec.following_said number }
    ensures value { IfSome result (λ n. n ≡ spec.following number) }
{
    if number.negative {
        Some(Number {
            negative: number.magnitude != 1,
            magnitude: number.magnitude.saturating_sub(1),
        })
    } else {
        match number.magnitude.checked_add(1) {
            Some(magnitude) => Some(Number {
                negative: false,
                magnitude,
            }),
            None => None,
        }
    }
}
