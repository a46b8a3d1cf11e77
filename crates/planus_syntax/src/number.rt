//! Which bytes are a number.

ghost use Rattle.std.specs.Prelude.{◌≡◌, if◌then◌else◌};
ghost use Rattle.planus_syntax.specs.Tokens as spec;

/// The part of a number that was read.
#[derive(Clone, Copy)]
pub(crate) enum NumberState {
    Start,
    Sign,
    Zero,
    Digits,
    /// A point with no digit before it.
    Point,
    /// A point, and digits after it; none if there are some before it.
    Fraction,
    Exponent,
    ExponentSign,
    ExponentDigits,
    HexMark,
    HexDigits,
    /// A point with no digit between it and `0x`.
    HexPoint,
    /// A point in a hexadecimal number, where an exponent has to follow.
    HexFraction,
    Wrong,
}

fn digits_after(state: NumberState, b: u8) -> NumberState
    ensures { result ≡ spec.digits_after state b }
{
    if b.is_ascii_digit() {
        state
    } else if b == b'.' {
        NumberState::Fraction
    } else if b == b'e' || b == b'E' {
        NumberState::Exponent
    } else {
        NumberState::Wrong
    }
}

fn first_digit(b: u8) -> NumberState
    ensures { result ≡ spec.first_digit b }
{
    if b == b'0' {
        NumberState::Zero
    } else if b.is_ascii_digit() {
        NumberState::Digits
    } else if b == b'.' {
        NumberState::Point
    } else {
        NumberState::Wrong
    }
}

fn hex_after(state: NumberState, b: u8) -> NumberState
    ensures { result ≡ spec.hex_after state b }
{
    if b.is_ascii_hexdigit() {
        state
    } else if b == b'p' || b == b'P' {
        NumberState::Exponent
    } else {
        NumberState::Wrong
    }
}

fn hex_first(b: u8) -> NumberState
    ensures { result ≡ spec.number_step NumberState.HexMark b }
{
    if b.is_ascii_hexdigit() {
        NumberState::HexDigits
    } else if b == b'.' {
        NumberState::HexPoint
    } else {
        NumberState::Wrong
    }
}

fn hex_next(b: u8) -> NumberState
    ensures { result ≡ spec.number_step NumberState.HexDigits b }
{
    if b == b'.' {
        NumberState::HexFraction
    } else {
        hex_after(NumberState::HexDigits, b)
    }
}

fn digit_or_wrong(state: NumberState, is_digit: bool) -> NumberState
    ensures { result ≡ (if is_digit then state else NumberState.Wrong) }
{
    if is_digit { state } else { NumberState::Wrong }
}

fn exponent(b: u8) -> NumberState
    ensures { result ≡ spec.number_step NumberState.Exponent b }
{
    if b == b'+' || b == b'-' {
        NumberState::ExponentSign
    } else {
        digit_or_wrong(NumberState::ExponentDigits, b.is_ascii_digit())
    }
}

fn fraction(b: u8) -> NumberState
    ensures { result ≡ spec.number_step NumberState.Fraction b }
{
    if b.is_ascii_digit() {
        NumberState::Fraction
    } else if b == b'e' || b == b'E' {
        NumberState::Exponent
    } else {
        NumberState::Wrong
    }
}

fn number_step(state: NumberState, b: u8) -> NumberState
    ensures { result ≡ spec.number_step state b }
{
    match state {
        NumberState::Start => {
            if b == b'+' || b == b'-' {
                NumberState::Sign
            } else {
                first_digit(b)
            }
        }
        NumberState::Sign => first_digit(b),
        NumberState::Zero => {
            if b == b'x' || b == b'X' {
                NumberState::HexMark
            } else {
                digits_after(NumberState::Digits, b)
            }
        }
        NumberState::Digits => digits_after(NumberState::Digits, b),
        NumberState::Point => digit_or_wrong(NumberState::Fraction, b.is_ascii_digit()),
        NumberState::Fraction => fraction(b),
        NumberState::Exponent => exponent(b),
        NumberState::ExponentSign | NumberState::ExponentDigits => {
            digit_or_wrong(NumberState::ExponentDigits, b.is_ascii_digit())
        }
        NumberState::HexMark => hex_first(b),
        NumberState::HexDigits => hex_next(b),
        NumberState::HexPoint => { digit_or_wrong(NumberState::HexFraction, b.is_ascii_hexdigit()) }
        NumberState::HexFraction => hex_after(NumberState::HexFraction, b),
        NumberState::Wrong => NumberState::Wrong,
    }
}

fn is_end(state: NumberState) -> bool
    ensures { result ≡ spec.is_end state }
{
    match state {
        NumberState::Zero
        | NumberState::Digits
        | NumberState::Fraction
        | NumberState::ExponentDigits
        | NumberState::HexDigits => true,
        _ => false,
    }
}

/// Returns whether the word is `inf`, `infinity` or `nan`, in lower or upper case.
pub fn is_float_name(word: &[u8]) -> bool
    ensures { result ≡ spec.is_float_name word.now }
{
    word.eq_ignore_ascii_case(b"inf")
        || word.eq_ignore_ascii_case(b"infinity")
        || word.eq_ignore_ascii_case(b"nan")
}

fn is_signed_name(bytes: &[u8]) -> bool
    ensures { result ≡ spec.is_signed_name bytes.now }
{
    match bytes.split_first() {
        Some((sign, name)) => (*sign == b'+' || *sign == b'-') && is_float_name(name),
        None => false,
    }
}

/// Returns whether the bytes are an integer, a float, each decimal or hexadecimal, or `inf`,
/// `infinity` or `nan` with a sign.
pub fn is_number(bytes: &[u8]) -> bool
    ensures { result ≡ spec.is_number bytes.now }
{
    let mut state = NumberState::Start;
    for b in bytes {
        state = number_step(state, *b);
    }
    is_end(state) || is_signed_name(bytes)
}
