//! How JSON is laid out.

/// How JSON is laid out.
#[derive(Clone, Copy, Debug, PartialEq, Eq)]
pub struct Layout {
    /// One line without spaces, in place of a member or an item a line, indented by two spaces.
    pub compact: bool,
    /// Whether floats that JSON has no numbers for are in quotes.
    pub strict: bool,
}
