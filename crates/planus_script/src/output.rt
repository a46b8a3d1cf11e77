//! What a run prints.

/// What is printed, and whether the script is clean.
#[derive(Debug, Drop)]
pub struct Output {
    /// Whether the script has no error, and all of it was done.
    pub clean: bool,
    /// The lines that are printed.
    pub text: String,
}
