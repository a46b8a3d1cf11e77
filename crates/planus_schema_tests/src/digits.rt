//! Bytes in hexadecimal digits.

use std::alloc::Global;

/// Returns the number that a hexadecimal digit is.
fn digit_at(digits: &[u8], index: usize) -> Option<u32> {
    (*digits.get(index)? as char).to_digit(16)
}

/// Returns the bytes that hexadecimal digits say.
pub fn bytes_of(alloc: Global, digits: &str) -> Option<Vec<u8>> {
    let digits = digits.as_bytes();
    let mut bytes = Vec::new(alloc);
    for i in 0..digits.len() / 2 {
        let high = digit_at(digits, 2 * i)?;
        let low = digit_at(digits, 2 * i + 1)?;
        let byte = high.wrapping_mul(16).wrapping_add(low);
        bytes.push(u8::try_from(byte).ok()?).ok()?;
    }
    Some(bytes)
}
