/// How a value is packed; by default as it stands, and whole.
#[derive(Clone, Copy, Debug, Default, PartialEq, Eq)]
pub struct PackOptions {
    /// A field of a table that holds its default is left out, as its absence reads the same.
    pub omit_defaults: bool,
    /// A member of a table's object that no field has is skipped, and is no fault.
    pub skip_unknown: bool,
}
