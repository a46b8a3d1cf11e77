//! Why lines end.

/// Why the lines of a view end.
#[derive(Clone, Copy, Debug, PartialEq, Eq)]
pub enum End {
    /// All is shown.
    Whole,
    /// A table at depth 65, or a struct in 64 others, comes next.
    TooDeep,
    /// There are more lines.
    TooManyLines,
    /// The next line has too many bytes.
    TooManyBytes,
}
