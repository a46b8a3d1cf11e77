//! What has to follow in a string.

/// What has to follow in a string.
#[derive(Clone, Copy)]
pub(crate) enum Due {
    Nothing,
    /// By `\u`, the second half of a character above `\uffff`, of which this is the first.
    SecondHalf { high: u32 },
    /// By `\x`, the next byte of a character, in this range, before so many more.
    NextByte { least: u8, greatest: u8, more: u8 },
}
