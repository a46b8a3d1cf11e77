//! Hexadecimal floats. Code has them in decimal, in which each has an end.

use crate::printer::Printer;
use planus_schema::without_sign;
use std::alloc::AllocError;

/// The greatest exponent, and the most bytes, of a hexadecimal float that is printed.
const GREATEST_EXPONENT: u32 = 1100;

const MOST_BYTES: usize = 64;

fn digit_value(b: u8) -> u32 {
    match b {
        b'0'..=b'9' => (b - b'0') as u32,
        b'a'..=b'f' => (b - b'a') as u32 + 10,
        b'A'..=b'F' => (b - b'A') as u32 + 10,
        _ => 0,
    }
}

/// The mantissa is hexadecimal; `after_point` counts its digits there. The exponent is decimal.
#[derive(Clone, Copy)]
struct HexFloat<'a> {
    mantissa: &'a [u8],
    after_point: u32,
    negative: bool,
    exponent: u32,
}

fn read_exponent(text: &[u8]) -> u32 {
    let mut exponent: u32 = 0;
    for b in without_sign(text) {
        exponent = exponent.saturating_mul(10).saturating_add(digit_value(*b));
    }
    exponent
}

fn count_after_point(mantissa: &[u8]) -> u32 {
    let mut count: u32 = 0;
    let mut after = false;
    for b in mantissa {
        if *b == b'.' {
            after = true;
        } else if after {
            count = count.saturating_add(1);
        }
    }
    count
}

fn read(text: &[u8]) -> HexFloat<'_> {
    let digits = match without_sign(text) {
        [_, _, digits @ ..] => digits,
        digits => digits,
    };
    let at = match digits.iter().position(|b| *b == b'p' || *b == b'P') {
        Some(at) => at,
        None => digits.len(),
    };
    let (mantissa, rest) = digits.split_at(at);
    let exponent = match rest {
        [_, exponent @ ..] => exponent,
        _ => rest,
    };
    HexFloat {
        mantissa,
        after_point: count_after_point(mantissa),
        negative: exponent.first() == Some(&b'-'),
        exponent: read_exponent(exponent),
    }
}

/// Whether a hexadecimal float is too long to be printed.
pub(crate) fn is_too_long(text: &[u8]) -> bool {
    text.len() > MOST_BYTES || read(text).exponent > GREATEST_EXPONENT
}

/// Multiplies decimal digits, the last first; returns what is carried over.
fn carried(digits: &mut [u8], factor: u32, more: u32) -> u32 {
    let mut carry = more;
    for digit in digits {
        let sum = (*digit as u32).saturating_mul(factor).saturating_add(carry);
        *digit = (sum % 10) as u8;
        carry = sum / 10;
    }
    carry
}

fn multiply(digits: &mut Vec<u8>, factor: u32, more: u32) -> Result<(), AllocError> {
    let mut carry = carried(digits, factor, more);
    'carry: while carry > 0 {
        digits.push((carry % 10) as u8)?;
        carry /= 10;
    }
    Ok(())
}

/// Multiplies by the factor so often.
fn raise(digits: &mut Vec<u8>, factor: u32, times: u32) -> Result<(), AllocError> {
    for _ in 0..times {
        multiply(digits, factor, 0)?;
    }
    Ok(())
}

fn put_mantissa(digits: &mut Vec<u8>, mantissa: &[u8]) -> Result<(), AllocError> {
    for b in mantissa {
        if *b != b'.' {
            multiply(digits, 16, digit_value(*b))?;
        }
    }
    Ok(())
}

/// Puts the decimal digits of a float, the last first, and returns how many are after the point:
/// a half is five tenths.
fn put_decimal(digits: &mut Vec<u8>, float: HexFloat<'_>) -> Result<usize, AllocError> {
    put_mantissa(digits, float.mantissa)?;
    let places = float.after_point.saturating_mul(4);
    let (twos, halves) = if float.negative {
        (0, places.saturating_add(float.exponent))
    } else {
        (
            float.exponent.saturating_sub(places),
            places.saturating_sub(float.exponent),
        )
    };
    raise(digits, 2, twos)?;
    raise(digits, 5, halves)?;
    let after_point = halves as usize;
    for _ in digits.len()..after_point.saturating_add(1) {
        digits.push(0)?;
    }
    Ok(after_point)
}

impl<'a> Printer<'a> {
    fn put_decimal_digits(&mut self, digits: &[u8], after_point: usize) {
        for at in (0..digits.len()).rev() {
            self.put_number(digits[at] as u64);
            if at == after_point {
                self.put_char('.');
            }
        }
        self.put_str(if after_point == 0 { "0" } else { "" });
    }

    /// Adds a hexadecimal float in decimal, exactly, with digits on both sides of its point.
    pub(crate) fn put_hex_float(&mut self, text: &[u8]) {
        let mut digits = Vec::new(self.context.alloc);
        match put_decimal(&mut digits, read(text)) {
            Ok(after_point) => {
                self.put_str(if text.first() == Some(&b'-') { "-" } else { "" });
                self.put_decimal_digits(&digits, after_point);
            }
            Err(_) => self.fail(),
        }
    }
}
