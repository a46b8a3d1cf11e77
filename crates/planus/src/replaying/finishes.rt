//! What a finish gives.

/// Where a step's value is encoded in finished bytes.
#[derive(Clone, Copy, Debug, PartialEq, Eq)]
pub struct StepPlace {
    /// The step's number, from 0.
    pub step: usize,
    /// The distance in bytes from the end to the value's first byte, or to a union vector's
    /// references.
    pub distance: u32,
    /// The distance in bytes from the end to the count of a union vector's tags.
    pub tags: Option<u32>,
}

/// The bytes of a finish, and where the values since the last clear are in them.
#[derive(Clone, Debug, PartialEq, Eq, Drop)]
pub struct Finished {
    /// The whole buffer, with its size first if asked for.
    pub bytes: Vec<u8>,
    /// In the order of their steps, referenced or not.
    pub places: Vec<StepPlace>,
}
