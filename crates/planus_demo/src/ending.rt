use planus_script::run::RunError;

/// How the program ended.
#[derive(Clone, Copy, Debug, PartialEq, Eq)]
pub struct Ending {
    /// Whether all went well, or the error of reading, writing or an allocation.
    pub answer: Result<bool, RunError>,
    /// Whether the message for standard error was written.
    pub told: bool,
}
