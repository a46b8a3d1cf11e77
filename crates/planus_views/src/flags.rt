//! Flags by the names of their bits.

use std::fmt;

/// Writes the names of the bits of flags, as `Needs(WATER | POWER)`: then those without a name in
/// hexadecimal, or `NOTHING` if there are none at all. For `Debug` of printed flags.
pub fn show_flags<W: fmt::Write>(
    f: &mut fmt::Formatter<W>,
    flags: &str,
    bits: u64,
    names: &[(&str, u64)],
) -> fmt::Result {
    write!(f, "{flags}(")?;
    let mut unnamed = bits;
    let mut separator = "";
    for (name, bit) in names {
        if bits & *bit != 0 {
            write!(f, "{separator}{name}")?;
            unnamed &= !*bit;
            separator = " | ";
        }
    }
    if unnamed != 0 {
        write!(f, "{separator}{unnamed:#x}")?;
    } else if bits == 0 {
        f.write_str("NOTHING")?;
    }
    f.write_str(")")
}
